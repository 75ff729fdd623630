//! Why bytes couldn't be read as a value.
use thiserror::Error;

/// Why bytes couldn't be read as a value.
#[derive(Clone, Copy, Debug, PartialEq, Eq, Error)]
pub enum CodecError {
    /// The bytes aren't one whole encoding of a value. `at` is the place, in bytes from their start, of the first
    /// field that can't be read, or of what is left over.
    #[error("no value stands at byte {at}")]
    Form { at: u64 },
    #[error("out of memory")]
    Memory,
}
