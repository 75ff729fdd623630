//! Why a text is no flow.
use crate::rule::Rule;
use flowfile_record::Text;
use std::alloc::{AllocError, AllocFailed};

/// Why a text is no flow.
#[derive(Debug, Drop)]
pub enum FlowError {
    /// The lowest rule that the text breaks, and its first place: `/` for the whole text, else a JSON pointer.
    Rule { rule: Rule, place: Text },
    Memory,
}

impl From<AllocError> for FlowError {
    ghost use Rattle.std.specs.Prelude.{◌≡◌};
    ghost use Rattle.flow_definition.specs.declared.error.FlowError.TheVariants.{Memory};

    ghost from_gives = { λ _ e. e ≡ Memory };

    fn from(_: AllocError) -> FlowError {
        FlowError::Memory
    }
}

impl<T: Drop> From<AllocFailed<T>> for FlowError {
    ghost use Rattle.std.specs.Prelude.{◌≡◌};
    ghost use Rattle.flow_definition.specs.declared.error.FlowError.TheVariants.{Memory};

    ghost from_gives = { λ _ e. e ≡ Memory };

    fn from(_: AllocFailed<T>) -> FlowError {
        FlowError::Memory
    }
}
