//! What an expression is worth.
ghost use Rattle.std.specs.Prelude.{◌≡◌, ℕ, List, map, IfOk, string_bytes};
ghost use Rattle.std.specs.Char.{to_ascii_lowercase};
ghost use Rattle.std.specs.Result.{result_ok};
ghost use Rattle.expr_lang.specs.Gives.{Gives};
ghost use Rattle.expr_lang.specs.Seen.{seen};
ghost use Rattle.expr_lang.specs.Value.{as_text, as_number, as_truth, truth_of, bounded};

use crate::error::EvalError;
use std::alloc::{AllocError, Global};

/// The greatest length of a text, in bytes.
pub const VALUE_MAX: u64 = 65_536;

/// A text, a number or a truth value.
#[derive(Debug, Drop)]
pub enum Val {
    Text(String),
    Num(i64),
    Bool(bool),
}

impl Val {
    /// The value as text: a number in decimal, a truth value as `true` or `false`.
    pub fn into_text(self, alloc: Global) -> Result<String, AllocError>
        ensures { IfOk result (λ text. string_bytes text ≡ as_text (seen self)) }
    {
        match self {
            Val::Text(text) => Ok(text),
            Val::Num(number) => format!(in alloc; "{number}"),
            Val::Bool(true) => String::from_str(alloc, "true"),
            Val::Bool(false) => String::from_str(alloc, "false"),
        }
    }

    /// The value as number: a text must be an optional sign and digits, in 64 signed bits.
    pub fn number(&self) -> Option<i64>
        ensures { result ≡ result_ok (as_number (seen self.now)) }
    {
        match self {
            Val::Text(text) => match text.as_str().parse::<i64>() {
                Ok(number) => Some(number),
                Err(_) => None,
            },
            Val::Num(number) => Some(*number),
            Val::Bool(_) => None,
        }
    }

    /// The value as truth value: a text must be `true` or `false`, in any ASCII case.
    pub fn truth(&self) -> Option<bool>
        ensures { result ≡ result_ok (as_truth (seen self.now)) }
    {
        match self {
            Val::Text(text) => truth_of(text.as_str()),
            Val::Num(_) => None,
            Val::Bool(truth) => Some(*truth),
        }
    }

    /// A text as value. `TooLong` comes where it has more than 65,536 bytes.
    pub(crate) fn bounded(text: String) -> Result<Val, EvalError>
        ensures { Gives seen result (bounded (string_bytes text)) }
    {
        if text.len() as u64 > VALUE_MAX {
            return Err(EvalError::TooLong);
        }
        Ok(Val::Text(text))
    }
}

fn truth_of(text: &str) -> Option<bool>
    ensures { result ≡ result_ok (truth_of (map to_ascii_lowercase text.now)) }
{
    if text.eq_ignore_ascii_case("true") {
        return Some(true);
    }
    if text.eq_ignore_ascii_case("false") {
        return Some(false);
    }
    None
}
