//! The state of a flow that a store keeps.
ghost use Rattle.std.specs.Prelude.{◌≡◌};
ghost use Rattle.flowfile_record.specs.Shared.{is_stored};

use crate::{
    Bytes, DIGEST_SIZE, Event, FlowFile, Numbered, NumberedList, Numbers, Sequence, TextList,
};

/// What a store keeps: its id, the digest of its flow's text, the flow's connections and the ids of its processors, how
/// many files each processor has generated, the numbers that come next (0 for the last event means none yet), the line
/// up to which events have aged out (0 where none has), the active flow files and the batches that are swapped out.
#[derive(Debug, Drop)]
pub struct Stored {
    pub store: u64,
    pub flow: [u8; DIGEST_SIZE],
    pub connections: TextList,
    pub processors: TextList,
    pub counts: Numbers,
    pub next_number: u64,
    pub next_arrival: u64,
    pub last_event: u64,
    pub line: u64,
    pub next_batch: u64,
    pub files: ActiveList,
    pub batches: BatchList,
}

/// An active flow file, and the place of the connection whose queue it is in.
#[derive(Debug, Drop)]
pub struct ActiveFile {
    pub connection: u16,
    pub file: FlowFile,
}

/// The active files by their numbers.
pub type ActiveList = NumberedList<ActiveFile>;

impl Numbered for ActiveFile {
    ghost number = { λ active. active.file.number };

    fn number(&self) -> u64 {
        self.file.number
    }
}

/// A batch of flow files that is swapped out of a connection's queue: its number, how many files it has, and the
/// sums, in bytes, of their contents and of their encoded records.
#[derive(Clone, Copy, Debug, PartialEq, Eq)]
pub struct SwapBatch {
    pub connection: u16,
    pub batch: u64,
    pub files: u64,
    pub bytes: u64,
    pub encoded: u64,
}

/// The batches by their numbers.
pub type BatchList = NumberedList<SwapBatch>;

impl Numbered for SwapBatch {
    ghost number = { λ batch. batch.batch };

    fn number(&self) -> u64 {
        self.batch
    }
}

/// Where the content of a placed file comes from. Of `Bytes` and `As` the slot and the offset of the file's reference
/// mean nothing.
#[derive(Debug, Drop)]
pub enum Fresh {
    /// It is in the store.
    No,
    /// It isn't in the store yet. These are its bytes.
    Bytes(Bytes),
    /// It is in a claim already, where it was written ahead of its change.
    Staged,
    /// It is that of the file at this place of the same change, an earlier one whose content is `Bytes` or `Staged`.
    As(u32),
}

impl Fresh {
    /// Whether it is in the store.
    pub fn is_stored(&self) -> bool
        ensures { result ≡ is_stored self.now }
    {
        matches!(self, Fresh::No | Fresh::Staged)
    }
}

/// A flow file that a session places into the queue of a connection.
#[derive(Debug, Drop)]
pub struct Placed {
    pub connection: u16,
    pub file: FlowFile,
    pub fresh: Fresh,
}

pub type PlacedList = Sequence<Placed>;

pub type EventList = Sequence<Event>;

pub type FileList = Sequence<FlowFile>;

/// The place of a processor that makes files from nothing, and how many it has made.
#[derive(Clone, Copy, Debug, PartialEq, Eq)]
pub struct Counted {
    pub processor: u16,
    pub count: u64,
}
