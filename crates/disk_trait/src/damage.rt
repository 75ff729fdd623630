//! How a file of a store may be damaged.
use crate::FileName;
use thiserror::Error;

/// The first thing that is wrong with the files of a store. `at` is an offset in bytes.
#[derive(Clone, Copy, Debug, PartialEq, Eq, Error)]
pub enum Damage {
    /// The bytes have another SHA-256 digest (FIPS 180-4) than the one that is stored beside them.
    #[error("the digest of {file:?} at {at} differs from the stored one")]
    Digest {
        file: FileName,
        at: u64,
        stored: [u8; 32],
        found: [u8; 32],
    },
    /// Fewer bytes stand there than are needed.
    #[error("{file:?} at {at} needs {need} bytes and has {have}")]
    Short {
        file: FileName,
        at: u64,
        need: u64,
        have: u64,
    },
    /// What stands there has no reading, or doesn't fit what stands before it.
    #[error("{file:?} at {at} has no reading")]
    Form {
        file: FileName,
        at: u64,
    },
}
