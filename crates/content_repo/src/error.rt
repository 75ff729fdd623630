//! Why a call gave no answer.
ghost use Rattle.std.specs.Prelude.{◌≡◌};
ghost use Rattle.content_repo.specs.Errors.{error_of};
ghost use Rattle.content_repo.specs.declared.error.ContentError.TheVariants.{Disk, Memory, Damaged};

use disk_trait::{Damage, DiskError, Failed};
use std::alloc::AllocError;
use thiserror::Error;

#[derive(Clone, Copy, Debug, PartialEq, Eq, Error)]
pub enum ContentError {
    /// The disk failed. The store has to be opened anew.
    #[error("the disk failed")]
    Disk,
    #[error("out of memory")]
    Memory,
    /// A slot is needed, and none is free.
    #[error("no slot is free")]
    SlotsFull,
    /// The content isn't what the reference says.
    #[error("{0}")]
    Damaged(Damage),
}

impl From<Failed> for ContentError {
    ghost from_gives = { λ _ error. error ≡ Disk };

    fn from(_: Failed) -> ContentError {
        ContentError::Disk
    }
}

impl From<AllocError> for ContentError {
    ghost from_gives = { λ _ error. error ≡ Memory };

    fn from(_: AllocError) -> ContentError {
        ContentError::Memory
    }
}

impl From<Damage> for ContentError {
    ghost from_gives = { λ damage error. error ≡ Damaged damage };

    fn from(damage: Damage) -> ContentError {
        ContentError::Damaged(damage)
    }
}

impl From<DiskError> for ContentError {
    ghost from_gives = { λ cause error. error ≡ error_of cause };

    fn from(cause: DiskError) -> ContentError {
        match cause {
            DiskError::Failed => ContentError::Disk,
            DiskError::Memory => ContentError::Memory,
        }
    }
}
