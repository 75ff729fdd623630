//! Runs of ASCII characters of one kind.
ghost use Rattle.std.specs.Prelude.{◌≡◌, ℕ, List, IfOk, string_bytes};
ghost use Rattle.expr_lang.specs.Bytes.{starts_name, is_name_byte};
ghost use Rattle.expr_lang.specs.Reading.{front_while, behind_while};
ghost use Rattle.expr_lang.specs.Runs.{is_in};

use super::text::split_first;
use std::alloc::{AllocError, Global};

/// What a run is made of.
#[derive(Clone, Copy, Debug, PartialEq, Eq)]
pub(super) enum Run {
    /// Letters, digits, underscores, dots and dashes.
    Name,
    Letters,
    Digits,
}

impl Run {
    fn has(self, c: char) -> bool
        ensures { result ≡ is_in self c }
    {
        match self {
            Run::Name => starts_name(c) || c.is_ascii_digit() || c == '.' || c == '-',
            Run::Letters => c.is_ascii_alphabetic(),
            Run::Digits => c.is_ascii_digit(),
        }
    }
}

/// A letter or an underscore.
pub(super) fn starts_name(c: char) -> bool
    ensures { result ≡ starts_name c }
{
    c.is_ascii_alphabetic() || c == '_'
}

/// The longest run at the front, which may be empty, and the text behind it.
pub(super) fn read_run(alloc: Global, run: Run, text: &str) -> Result<(String, &str), AllocError>
    ensures run { IfOk result (λ x. string_bytes x.0 ≡ front_while (is_in run) text.now) }
    ensures behind { IfOk result (λ x. x.1.now ≡ behind_while (is_in run) text.now) }
{
    let mut front = String::new(alloc);
    let mut rest = text;
    while let Some((c, behind)) = split_first(rest) {
        if !run.has(c) {
            return Ok((front, rest));
        }
        front.push(c)?;
        rest = behind;
    }
    Ok((front, rest))
}
