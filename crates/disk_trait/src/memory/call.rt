//! The calls that change a disk, and what a stop is to leave of them.
use super::DiskBytes;
use crate::FileName;

/// A call that changes a disk or syncs it. Offsets and sizes are in bytes.
#[derive(Debug, Drop)]
pub enum DiskCall {
    Write {
        file: FileName,
        at: u64,
        bytes: DiskBytes,
    },
    Cut {
        file: FileName,
        size: u64,
    },
    Sync,
}

/// Which image of a moment a stop leaves.
#[derive(Clone, Copy, Debug, PartialEq, Eq)]
pub enum Pick {
    /// What was held at the last sync, sizes too.
    Old,
    /// What was held at that moment.
    New,
    /// The sizes as held at that moment, and bytes drawn from this seed wherever they are pending.
    Torn(u64),
}
