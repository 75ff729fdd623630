//! The names of a store's files, and the errors of a disk.
use thiserror::Error;

/// What a file of the store is for.
#[derive(Clone, Copy, Debug, PartialEq, Eq, PartialOrd, Ord)]
pub enum FileKind {
    Log,
    Snapshot,
    Swap,
    Claim,
    Events,
}

/// A file of the store: its kind and its number.
#[derive(Clone, Copy, Debug, PartialEq, Eq, PartialOrd, Ord)]
pub struct FileName {
    pub kind: FileKind,
    pub number: u64,
}

/// A device failed. Its fault count rose, or stands at its type's end.
#[derive(Clone, Copy, Debug, PartialEq, Eq, Error)]
#[error("the device failed")]
pub struct Failed;

/// Why a call of a disk that takes memory gave no answer.
#[derive(Clone, Copy, Debug, PartialEq, Eq, Error)]
pub enum DiskError {
    #[error("the disk failed")]
    Failed,
    #[error("out of memory")]
    Memory,
}
