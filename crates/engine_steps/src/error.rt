//! Why an engine stops.
ghost use Rattle.std.specs.Prelude.{◌≡◌};
ghost use Rattle.engine_steps.specs.Errors.{ended_by, engine_error, inbox_error_of};
ghost use Rattle.engine_steps.specs.declared.error.EngineError.TheVariants.{Memory};

use disk_trait::Damage;
use run_law::{Ended, Fault};
use std::alloc::AllocError;
use store_core::{Limit, StoreError};
use thiserror::Error;
use world_io::WorldError;

/// Why a call of an engine refuses.
#[derive(Clone, Copy, Debug, PartialEq, Eq, Error)]
pub enum EngineError {
    #[error("{0}")]
    Damaged(Damage),
    #[error("the disk failed")]
    Disk,
    #[error("the inbox failed")]
    Inbox,
    /// A question of the outbox failed.
    #[error("the outbox failed")]
    Outbox,
    /// A put into the outbox failed.
    #[error("the put into the outbox failed")]
    Put,
    /// A change would pass a limit, or one entry more that of the journal.
    #[error("{} are wanted, and the limit is {}", .0.wanted, .0.number)]
    Limit(Limit),
    /// The disk failed in an earlier call, or a put into the outbox did: whatever a stop leaves stands for the state, but
    /// the one in memory may be another.
    #[error("the store must be opened anew")]
    MustReopen,
    /// A session is asked for that isn't in flight: it was committed or has ended, or was never checked out.
    #[error("no such session is in flight")]
    NoSession,
    #[error("out of memory")]
    Memory,
}

impl EngineError {
    /// How a run ends by it.
    pub fn ended(&self) -> Ended
        ensures { result ≡ ended_by self.now }
    {
        match self {
            EngineError::Damaged(damage) => Ended::Fault(Fault::Damaged(*damage)),
            EngineError::Disk => Ended::Fault(Fault::Disk),
            EngineError::Inbox => Ended::Fault(Fault::Inbox),
            EngineError::Outbox | EngineError::Put => Ended::Fault(Fault::Outbox),
            EngineError::Limit(limit) => Ended::Limit(*limit),
            // No run ends by them; they are told as a disk failure only because every error has an end.
            EngineError::MustReopen | EngineError::NoSession => Ended::Fault(Fault::Disk),
            EngineError::Memory => Ended::Fault(Fault::Memory),
        }
    }
}

impl From<AllocError> for EngineError {
    ghost from_gives = { λ _ error. error ≡ Memory };

    fn from(_: AllocError) -> EngineError {
        EngineError::Memory
    }
}

impl From<StoreError> for EngineError {
    ghost from_gives = { λ store_error error. error ≡ engine_error store_error };

    fn from(error: StoreError) -> EngineError {
        match error {
            // A store that has to be opened anew met a failure of the disk before.
            StoreError::Disk | StoreError::MustReopen => EngineError::Disk,
            StoreError::Limit(limit) => EngineError::Limit(limit),
            StoreError::Damaged(damage) => EngineError::Damaged(damage),
            // Which flow a store is of is asked as it is opened alone.
            StoreError::Memory | StoreError::OtherFlow { .. } => EngineError::Memory,
        }
    }
}

impl From<WorldError> for EngineError {
    ghost from_gives = { λ world_error error. error ≡ inbox_error_of world_error };

    fn from(error: WorldError) -> EngineError {
        match error {
            WorldError::Failed => EngineError::Inbox,
            WorldError::Memory => EngineError::Memory,
        }
    }
}
