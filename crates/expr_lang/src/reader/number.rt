//! Numbers and truth values.
ghost use Rattle.std.specs.Prelude.{◌≡◌, ◌==◌, ◌||◌, ◌⊎◌, ℕ, List, [], ◌∷◌, IsTrue};
ghost use Rattle.std.specs.List.{list_all};
ghost use Rattle.expr_lang.specs.Bytes.{is_digit};
ghost use Rattle.expr_lang.specs.Gives.{Reads};
ghost use Rattle.expr_lang.specs.Reading.{sign_of, unsigned, number_of, number_read, truth_read};

use super::run::{Run, read_run};
use super::text::behind_word;
use crate::stop::Stop;
use std::alloc::Global;

/// The most digits of a number.
const DIGITS_MAX: usize = 19;

/// A minus, if there is one, and 1 to 19 digits, in 64 signed bits.
#[tactic(auto, unfolding(crate::specs::Reading::number_read))]
pub(super) fn read_number(alloc: Global, text: &str) -> Result<(i64, &str), Stop>
    ensures { Reads (λ x. (x.0, x.1.now)) result (number_read text.now) }
{
    let (sign, unsigned) = split_sign(text);
    let (digits, behind) = read_run(alloc, Run::Digits, unsigned)?;
    let number = number_of(alloc, sign, &digits)?;
    Ok((number, behind))
}

/// A minus or a digit.
pub(super) fn begins_number(c: char) -> bool
    ensures { result ≡ ((c == 45) || is_digit c) }
{
    c == '-' || c.is_ascii_digit()
}

/// The minus, or nothing, and the text behind it.
fn split_sign(text: &str) -> (&str, &str)
    ensures sign { result.0.now ≡ sign_of text.now }
    ensures behind { result.1.now ≡ unsigned text.now }
{
    match behind_word(text, "-") {
        Some(behind) => ("-", behind),
        None => ("", text),
    }
}

/// The number that a minus or nothing and these digits write.
fn number_of(alloc: Global, sign: &str, digits: &str) -> Result<i64, Stop>
    requires sign { (sign.now ≡ []) ⊎ (sign.now ≡ 45 ∷ []) }
    requires digits { IsTrue (list_all is_digit digits.now) }
    ensures { Reads (λ z. z) result (number_of sign.now digits.now) }
{
    if digits.len() > DIGITS_MAX {
        return Err(Stop::Unread);
    }
    let mut number = String::new(alloc);
    number.push_str(sign)?;
    number.push_str(digits)?;
    match number.as_str().parse::<i64>() {
        Ok(number) => Ok(number),
        Err(_) => Err(Stop::Unread),
    }
}

/// `true` or `false`.
#[tactic(auto, unfolding(crate::specs::Reading::truth_read))]
pub(super) fn read_truth(text: &str) -> Result<(bool, &str), Stop>
    ensures { Reads (λ x. (x.0, x.1.now)) result (truth_read text.now) }
{
    if let Some(behind) = behind_word(text, "true") {
        return Ok((true, behind));
    }
    match behind_word(text, "false") {
        Some(behind) => Ok((false, behind)),
        None => Err(Stop::Unread),
    }
}
