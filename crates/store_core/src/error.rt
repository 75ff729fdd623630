//! Why a call of a store gave no answer.
ghost use Rattle.std.specs.Prelude.{◌≡◌};
ghost use Rattle.store_core.specs.Errors.{disk_store_error, of_block, of_load, of_content};
ghost use Rattle.store_core.specs.declared.error.StoreError.TheVariants.{Disk, Memory};

use block_file::BlockError;
use content_repo::{ContentError, SLOTS};
use disk_trait::{Damage, DiskError, Failed};
use flowfile_record::DIGEST_SIZE;
use flowfile_wal::LoadError;
use kept_state::{Limit, Which};
use std::alloc::AllocError;
use thiserror::Error;

#[derive(Clone, Copy, Debug, PartialEq, Eq, Error)]
pub enum StoreError {
    /// The disk failed. The store has to be opened anew.
    #[error("the disk failed")]
    Disk,
    #[error("out of memory")]
    Memory,
    /// An earlier call of this store met a failure of the disk.
    #[error("the disk failed before: open the store anew")]
    MustReopen,
    /// The change would take a quantity past its limit.
    #[error("{} are wanted, and the limit is {}", .0.wanted, .0.number)]
    Limit(Limit),
    /// The files stand for no state.
    #[error("{0}")]
    Damaged(Damage),
    /// The store was made for another flow.
    #[error("the store is of another flow")]
    OtherFlow {
        kept: [u8; DIGEST_SIZE],
        found: [u8; DIGEST_SIZE],
    },
}

impl From<Failed> for StoreError {
    ghost from_gives = { λ _ error. error ≡ Disk };

    fn from(_: Failed) -> StoreError {
        StoreError::Disk
    }
}

impl From<AllocError> for StoreError {
    ghost from_gives = { λ _ error. error ≡ Memory };

    fn from(_: AllocError) -> StoreError {
        StoreError::Memory
    }
}

impl From<DiskError> for StoreError {
    ghost from_gives = { λ from error. error ≡ disk_store_error from };

    fn from(error: DiskError) -> StoreError {
        match error {
            DiskError::Failed => StoreError::Disk,
            DiskError::Memory => StoreError::Memory,
        }
    }
}

impl From<BlockError> for StoreError {
    ghost from_gives = { λ from error. error ≡ of_block from };

    fn from(error: BlockError) -> StoreError {
        match error {
            BlockError::Disk => StoreError::Disk,
            BlockError::Memory => StoreError::Memory,
            BlockError::Damaged(damage) => StoreError::Damaged(damage),
        }
    }
}

impl From<LoadError> for StoreError {
    ghost from_gives = { λ from error. error ≡ of_load from };

    fn from(error: LoadError) -> StoreError {
        match error {
            LoadError::NoList => StoreError::Memory,
            LoadError::Block(error) => StoreError::from(error),
        }
    }
}

impl From<ContentError> for StoreError {
    ghost from_gives = { λ from error. error ≡ of_content from };

    fn from(error: ContentError) -> StoreError {
        match error {
            ContentError::Disk => StoreError::Disk,
            ContentError::Memory => StoreError::Memory,
            ContentError::SlotsFull => StoreError::Limit(Limit {
                which: Which::Claims,
                number: u64::from(SLOTS),
                wanted: u64::from(SLOTS) + 1,
            }),
            ContentError::Damaged(damage) => StoreError::Damaged(damage),
        }
    }
}
