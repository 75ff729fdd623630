//! What a run did, one entry for each step.
use crate::Given;
use flowfile_record::{Numbers, Sequence};

/// How many entries are journaled from one reclaim to the next.
pub const RECLAIM_ENTRIES: u64 = 256;

/// A step of a run, and the disk's moment at which it was acknowledged, if it was.
#[derive(Debug, Drop)]
pub struct Entry {
    pub step: Step,
    pub acked: Option<u64>,
}

pub type EntryList = Sequence<Entry>;

/// A step of the machine. Processors and connections are named by their places, files by their numbers; a moment is
/// in milliseconds.
#[derive(Debug, Drop)]
pub enum Step {
    /// A processor's whole session over these files, by place. Its `given` keeps no bytes.
    Session {
        processor: u16,
        numbers: Numbers,
        moment: u64,
        given: Given,
    },
    /// These files of a connection have expired.
    Expire {
        connection: u16,
        numbers: Numbers,
        moment: u64,
    },
    /// These files of a connection are swapped out as a batch.
    SwapOut {
        connection: u16,
        numbers: Numbers,
        batch: u64,
    },
    /// A batch comes back into its connection.
    SwapIn {
        connection: u16,
        batch: u64,
    },
    /// The events with numbers up to this line are forgotten.
    Age {
        line: u64,
    },
}
