//! What a query for a lineage answers.
ghost use Rattle.std.specs.Prelude.{◌≡◌};

use flowfile_record::Numbers;
use std::alloc::AllocError;

/// A file, the files that it came from and those that came from it, and the events of all of these, by their numbers,
/// ascending.
#[derive(Debug, Drop)]
pub struct Lineage {
    pub file: u64,
    pub ancestors: Numbers,
    pub descendants: Numbers,
    pub events: Numbers,
}

/// Why a lineage isn't told.
#[derive(Clone, Copy, Debug, PartialEq, Eq)]
pub enum LineageError {
    /// No event names the file.
    Absent,
    Memory,
}

impl From<AllocError> for LineageError {
    ghost use Rattle.lineage_query.specs.declared.answer.LineageError.TheVariants.{Memory};

    ghost from_gives = { λ _ error. error ≡ Memory };

    fn from(_: AllocError) -> LineageError {
        LineageError::Memory
    }
}
