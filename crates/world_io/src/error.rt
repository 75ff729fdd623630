//! The errors of a device that takes memory.
use thiserror::Error;

/// Why a call of an inbox that takes memory gave no answer.
#[derive(Clone, Copy, Debug, PartialEq, Eq, Error)]
pub enum WorldError {
    #[error("the device failed")]
    Failed,
    #[error("out of memory")]
    Memory,
}
