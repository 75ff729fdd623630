//! What changes the state that a store keeps.
use crate::{Counted, EventList, FileList, Numbers, PlacedList};

/// What a session of a processor changes once it is settled: the files that are gone from their queues, those that are
/// placed, its events, the numbers that come next, and how many files the processor has made where it is a generator.
/// A processor and a connection are named by their places in the flow; a moment is in milliseconds.
#[derive(Debug, Drop)]
pub struct Settled {
    pub processor: u16,
    pub moment: u64,
    pub gone: Numbers,
    pub placed: PlacedList,
    pub events: EventList,
    pub next_number: u64,
    pub next_arrival: u64,
    pub count: Option<Counted>,
}

/// A change of the state that a store keeps.
#[derive(Debug, Drop)]
pub enum Change {
    Session(Settled),
    /// Files of a connection are expired.
    Expire {
        connection: u16,
        moment: u64,
        numbers: Numbers,
        events: EventList,
    },
    /// Files of a connection are swapped out into a batch.
    SwapOut {
        connection: u16,
        batch: u64,
        numbers: Numbers,
    },
    /// A batch of a connection is swapped in again. `files` are those of the batch.
    SwapIn {
        connection: u16,
        batch: u64,
        files: FileList,
    },
    /// The events up to this number are forgotten, with the kin that they name.
    Age {
        line: u64,
    },
}
