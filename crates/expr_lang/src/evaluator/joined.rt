//! A text that is joined from pieces, up to the greatest length of a value.
ghost use Rattle.std.specs.Prelude.{◌≡◌, ℕ, List, [], ◌++◌, OnOk, string_bytes};
ghost use Rattle.expr_lang.specs.Gives.{Gives};
ghost use Rattle.expr_lang.specs.Seen.{seen};
ghost use Rattle.expr_lang.specs.Value.{bounded};

use crate::error::EvalError;
use crate::val::{VALUE_MAX, Val};
use std::alloc::{AllocError, Global};

/// The text so far. Once it is too long, it is dropped and nothing more is kept.
#[derive(Debug, Drop)]
pub(super) struct JoinedText {
    pub(super) text: String,
    pub(super) is_long: bool,
}

impl JoinedText {
    ghost use Rattle.expr_lang.specs.JoinedText.{Holds};

    pub(super) fn new(alloc: Global) -> JoinedText
        ensures { Holds result [] }
    {
        JoinedText {
            text: String::new(alloc),
            is_long: false,
        }
    }

    pub(super) fn push(&mut self, piece: &str) -> Result<(), AllocError>
        ensures { (bytes : List ℕ) → Holds self.old bytes → OnOk result (Holds self.new (bytes ++ piece.now)) }
    {
        if self.is_long {
            return Ok(());
        }
        let left = VALUE_MAX.saturating_sub(self.text.len() as u64);
        if piece.len() as u64 > left {
            self.is_long = true;
            return Ok(());
        }
        self.text.push_str(piece)
    }

    pub(super) fn into_value(self) -> Result<Val, EvalError>
        ensures { (bytes : List ℕ) → Holds self bytes → Gives seen result (bounded bytes) }
    {
        if self.is_long {
            return Err(EvalError::TooLong);
        }
        Ok(Val::Text(self.text))
    }
}
