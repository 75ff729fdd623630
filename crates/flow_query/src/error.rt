//! Why a query wasn't answered.
ghost use Rattle.std.specs.Prelude.{◌≡◌};
ghost use Rattle.flow_query.specs.Errors.{of_lineage, of_store};
ghost use Rattle.flow_query.specs.declared.error.QueryError.TheVariants.{Memory, Sink};

use disk_trait::{Damage, Failed};
use lineage_query::LineageError;
use std::alloc::AllocError;
use store_core::StoreError;
use thiserror::Error;

/// Why a query wasn't answered, or not whole.
#[derive(Clone, Copy, Debug, PartialEq, Eq, Error)]
pub enum QueryError {
    /// The store has nothing of this identifier.
    #[error("absent")]
    Absent,
    #[error("the disk failed")]
    Disk,
    #[error("the sink failed")]
    Sink,
    /// The files stand for no state.
    #[error("{0}")]
    Damaged(Damage),
    #[error("out of memory")]
    Memory,
}

impl From<Failed> for QueryError {
    ghost from_gives = { λ _ error. error ≡ Sink };

    fn from(_: Failed) -> QueryError {
        QueryError::Sink
    }
}

impl From<AllocError> for QueryError {
    ghost from_gives = { λ _ error. error ≡ Memory };

    fn from(_: AllocError) -> QueryError {
        QueryError::Memory
    }
}

impl From<StoreError> for QueryError {
    ghost from_gives = { λ from error. error ≡ of_store from };

    fn from(error: StoreError) -> QueryError {
        match error {
            StoreError::Disk => QueryError::Disk,
            StoreError::Damaged(damage) => QueryError::Damaged(damage),
            // A call that reads answers no other.
            StoreError::Memory
            | StoreError::MustReopen
            | StoreError::Limit(_)
            | StoreError::OtherFlow { .. } => QueryError::Memory,
        }
    }
}

impl From<LineageError> for QueryError {
    ghost from_gives = { λ from error. error ≡ of_lineage from };

    fn from(error: LineageError) -> QueryError {
        match error {
            LineageError::Absent => QueryError::Absent,
            LineageError::Memory => QueryError::Memory,
        }
    }
}
