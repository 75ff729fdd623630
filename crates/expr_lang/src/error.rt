//! Why a text is no expression, and why an expression has no value.
use std::alloc::{AllocError, AllocFailed};
use thiserror::Error;

/// Why a text isn't read.
#[derive(Clone, Copy, Debug, PartialEq, Eq, Error)]
pub enum ExprError {
    /// The text isn't in the grammar. `at` is the byte at which the first piece that can't be read begins: a
    /// character, a dollar, or a whole embedded expression. It is 0 for a text of more than 4,096 bytes.
    #[error("the expression can't be read from byte {at} on")]
    Bad { at: u64 },
    #[error("out of memory")]
    Memory,
}

/// Why an expression has no value.
#[derive(Clone, Copy, Debug, PartialEq, Eq, Error)]
pub enum EvalError {
    /// A function of numbers got a text that is no number of 64 signed bits, or a truth value.
    #[error("a value is no number")]
    NotANumber,
    /// A function of truth values got a text other than `true` or `false`, or a number.
    #[error("a value is no truth value")]
    NotABool,
    /// A sum or a difference is outside 64 signed bits.
    #[error("a number is outside 64 signed bits")]
    Overflow,
    /// An attribute, or a text that a function or the whole expression makes, has more than 65,536 bytes.
    #[error("a text has more than 65,536 bytes")]
    TooLong,
    #[error("out of memory")]
    Memory,
}

impl From<AllocError> for ExprError {
    ghost use Rattle.std.specs.Prelude.{◌≡◌};
    ghost use Rattle.expr_lang.specs.declared.error.ExprError.TheVariants.{Memory};

    ghost from_gives = { λ _ e. e ≡ Memory };

    fn from(_: AllocError) -> ExprError {
        ExprError::Memory
    }
}

impl From<AllocError> for EvalError {
    ghost use Rattle.std.specs.Prelude.{◌≡◌};
    ghost use Rattle.expr_lang.specs.declared.error.EvalError.TheVariants.{Memory};

    ghost from_gives = { λ _ e. e ≡ Memory };

    fn from(_: AllocError) -> EvalError {
        EvalError::Memory
    }
}

impl<T: Drop> From<AllocFailed<T>> for ExprError {
    ghost use Rattle.std.specs.Prelude.{◌≡◌};
    ghost use Rattle.expr_lang.specs.declared.error.ExprError.TheVariants.{Memory};

    ghost from_gives = { λ _ e. e ≡ Memory };

    fn from(_: AllocFailed<T>) -> ExprError {
        ExprError::Memory
    }
}
