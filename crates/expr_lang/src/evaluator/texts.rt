//! The functions over texts.
ghost use Rattle.std.specs.Prelude.{◌≡◌, ◌++◌, ◌<◌, ℕ, List, length, string_bytes};
ghost use Rattle.expr_lang.specs.declared.function.Nullary.TheVariants as Nullary;
ghost use Rattle.expr_lang.specs.declared.function.Unary.TheVariants as Unary;
ghost use Rattle.expr_lang.specs.declared.function.Binary.TheVariants as Binary;
ghost use Rattle.expr_lang.specs.Functions.{given_alone, given_one, given_two, with_replaced};
ghost use Rattle.expr_lang.specs.Gives.{Gives};
ghost use Rattle.expr_lang.specs.Seen.{seen};
ghost use Rattle.expr_lang.specs.Value.{as_text, bounded};

use crate::error::EvalError;
use crate::reader::is_space;
use crate::val::{VALUE_MAX, Val};
use std::alloc::Global;

pub(super) fn is_empty(alloc: Global, value: Val) -> Result<Val, EvalError>
    ensures { Gives seen result (given_alone Nullary.IsEmpty (seen value)) }
{
    let text = value.into_text(alloc)?;
    Ok(Val::Bool(text.as_str().chars().all(is_space)))
}

/// The number of characters.
pub(super) fn character_count(alloc: Global, value: Val) -> Result<Val, EvalError>
    ensures { Gives seen result (given_alone Nullary.Length (seen value)) }
{
    let text = value.into_text(alloc)?;
    Ok(Val::Num(text.as_str().chars().count() as i64))
}

pub(super) fn to_upper(alloc: Global, value: Val) -> Result<Val, EvalError>
    ensures { Gives seen result (given_alone Nullary.ToUpper (seen value)) }
{
    let mut text = value.into_text(alloc)?;
    text.make_ascii_uppercase();
    Ok(Val::Text(text))
}

pub(super) fn to_lower(alloc: Global, value: Val) -> Result<Val, EvalError>
    ensures { Gives seen result (given_alone Nullary.ToLower (seen value)) }
{
    let mut text = value.into_text(alloc)?;
    text.make_ascii_lowercase();
    Ok(Val::Text(text))
}

pub(super) fn equals(alloc: Global, value: Val, first: Val) -> Result<Val, EvalError>
    ensures { Gives seen result (given_one Unary.Equals (seen value) (seen first)) }
{
    let text = value.into_text(alloc)?;
    let other = first.into_text(alloc)?;
    Ok(Val::Bool(text.as_str() == other.as_str()))
}

pub(super) fn starts_with(alloc: Global, value: Val, first: Val) -> Result<Val, EvalError>
    ensures { Gives seen result (given_one Unary.StartsWith (seen value) (seen first)) }
{
    let text = value.into_text(alloc)?;
    let start = first.into_text(alloc)?;
    Ok(Val::Bool(text.as_str().starts_with(start.as_str())))
}

pub(super) fn ends_with(alloc: Global, value: Val, first: Val) -> Result<Val, EvalError>
    ensures { Gives seen result (given_one Unary.EndsWith (seen value) (seen first)) }
{
    let text = value.into_text(alloc)?;
    let end = first.into_text(alloc)?;
    Ok(Val::Bool(text.as_str().ends_with(end.as_str())))
}

pub(super) fn contains(alloc: Global, value: Val, first: Val) -> Result<Val, EvalError>
    ensures { Gives seen result (given_one Unary.Contains (seen value) (seen first)) }
{
    let text = value.into_text(alloc)?;
    let part = first.into_text(alloc)?;
    Ok(Val::Bool(text.as_str().contains(part.as_str())))
}

/// The second text behind the first.
pub(super) fn joined(alloc: Global, front: Val, back: Val) -> Result<Val, EvalError>
    ensures { Gives seen result (bounded (as_text (seen front) ++ as_text (seen back))) }
{
    let mut text = front.into_text(alloc)?;
    let back = back.into_text(alloc)?;
    text.push_str(back.as_str())?;
    Val::bounded(text)
}

pub(super) fn substring_before(alloc: Global, value: Val, first: Val) -> Result<Val, EvalError>
    ensures { Gives seen result (given_one Unary.SubstringBefore (seen value) (seen first)) }
{
    let text = value.into_text(alloc)?;
    let mark = first.into_text(alloc)?;
    let before = match text.as_str().split_once(mark.as_str()) {
        Some((before, _)) => String::from_str(alloc, before)?,
        None => return Ok(Val::Text(text)),
    };
    Ok(Val::Text(before))
}

pub(super) fn substring_after(alloc: Global, value: Val, first: Val) -> Result<Val, EvalError>
    ensures { Gives seen result (given_one Unary.SubstringAfter (seen value) (seen first)) }
{
    let text = value.into_text(alloc)?;
    let mark = first.into_text(alloc)?;
    let after = match text.as_str().split_once(mark.as_str()) {
        Some((_, after)) => String::from_str(alloc, after)?,
        None => return Ok(Val::Text(text)),
    };
    Ok(Val::Text(after))
}

pub(super) fn replace(alloc: Global, value: Val, first: Val, second: Val) -> Result<Val, EvalError>
    ensures { Gives seen result (given_two Binary.Replace (seen value) (seen first) (seen second)) }
{
    let text = value.into_text(alloc)?;
    let from = first.into_text(alloc)?;
    let to = second.into_text(alloc)?;
    if from.is_empty() {
        return Val::bounded(text);
    }
    with_replaced(alloc, text.as_str(), from.as_str(), to.as_str())
}

/// Stops as soon as the text is too long, since it could grow to 4 GiB.
fn with_replaced(alloc: Global, text: &str, from: &str, to: &str) -> Result<Val, EvalError>
    requires { 0 < length from.now }
    ensures { Gives seen result (bounded (with_replaced from.now to.now text.now)) }
{
    let mut replaced = String::new(alloc);
    let mut rest = text;
    while let Some((before, after)) = rest.split_once(from) {
        replaced.push_str(before)?;
        replaced.push_str(to)?;
        if replaced.len() as u64 > VALUE_MAX {
            return Err(EvalError::TooLong);
        }
        rest = after;
    }
    replaced.push_str(rest)?;
    Val::bounded(replaced)
}
