//! Why a reader of blocks gave no answer.
ghost use Rattle.std.specs.Prelude.{◌≡◌};
ghost use Rattle.block_file.specs.Errors.{disk_block_error};
ghost use Rattle.block_file.specs.declared.error.BlockError.TheVariants.{Disk, Memory};

use disk_trait::{Damage, DiskError, Failed};
use std::alloc::AllocError;
use thiserror::Error;

/// Why a call that reads blocks, or takes memory for them, gave no answer.
#[derive(Clone, Copy, Debug, PartialEq, Eq, Error)]
pub enum BlockError {
    #[error("the disk failed")]
    Disk,
    #[error("out of memory")]
    Memory,
    /// The blocks there aren't what is read.
    #[error("{0}")]
    Damaged(Damage),
}

impl From<Failed> for BlockError {
    ghost from_gives = { λ _ error. error ≡ Disk };

    fn from(_: Failed) -> BlockError {
        BlockError::Disk
    }
}

impl From<AllocError> for BlockError {
    ghost from_gives = { λ _ error. error ≡ Memory };

    fn from(_: AllocError) -> BlockError {
        BlockError::Memory
    }
}

impl From<DiskError> for BlockError {
    ghost from_gives = { λ cause error. error ≡ disk_block_error cause };

    fn from(cause: DiskError) -> BlockError {
        match cause {
            DiskError::Failed => BlockError::Disk,
            DiskError::Memory => BlockError::Memory,
        }
    }
}
