//! Why no log was loaded.
ghost use Rattle.std.specs.Prelude.{◌≡◌};
ghost use Rattle.block_file.specs.declared.error.BlockError.TheVariants.{Disk};
ghost use Rattle.flowfile_wal.specs.Errors.{disk_load_error};
ghost use Rattle.flowfile_wal.specs.declared.error.LoadError.TheVariants.{Block};

use block_file::BlockError;
use disk_trait::{DiskError, Failed};
use thiserror::Error;

#[derive(Clone, Copy, Debug, PartialEq, Eq, Error)]
pub enum LoadError {
    /// There is no memory for the list of the logs, before any of them is looked at.
    #[error("out of memory")]
    NoList,
    /// The logs aren't listed for a failure of the disk, or the current one isn't read. Memory is wanted for a block of
    /// it, which stands whole, or for the block's entries.
    #[error("{0}")]
    Block(BlockError),
}

impl From<Failed> for LoadError {
    ghost from_gives = { λ _ error. error ≡ Block Disk };

    fn from(_: Failed) -> LoadError {
        LoadError::Block(BlockError::Disk)
    }
}

impl From<DiskError> for LoadError {
    ghost from_gives = { λ cause error. error ≡ disk_load_error cause };

    fn from(cause: DiskError) -> LoadError {
        match cause {
            DiskError::Failed => LoadError::Block(BlockError::Disk),
            DiskError::Memory => LoadError::NoList,
        }
    }
}

impl From<BlockError> for LoadError {
    ghost from_gives = { λ cause error. error ≡ Block cause };

    fn from(cause: BlockError) -> LoadError {
        LoadError::Block(cause)
    }
}
