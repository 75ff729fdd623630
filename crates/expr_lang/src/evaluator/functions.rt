//! The functions, on values. Each is a small function of its own, and an arm here.
ghost use Rattle.std.specs.Prelude.{◌≡◌};
ghost use Rattle.expr_lang.specs.Functions.{given_alone, given_one, given_two};
ghost use Rattle.expr_lang.specs.Gives.{Gives};
ghost use Rattle.expr_lang.specs.Seen.{seen};
ghost use Rattle.expr_lang.specs.Value.{as_number, as_truth};

use super::texts;
use crate::error::EvalError;
use crate::function::{Binary, Nullary, Unary};
use crate::val::Val;
use std::alloc::Global;

pub(super) fn apply_alone(alloc: Global, function: Nullary, value: Val) -> Result<Val, EvalError>
    ensures { Gives seen result (given_alone function (seen value)) }
{
    match function {
        Nullary::IsEmpty => texts::is_empty(alloc, value),
        Nullary::Length => texts::character_count(alloc, value),
        Nullary::ToUpper => texts::to_upper(alloc, value),
        Nullary::ToLower => texts::to_lower(alloc, value),
        Nullary::Not => not(value),
    }
}

pub(super) fn apply_with_one(
    alloc: Global,
    function: Unary,
    value: Val,
    first: Val,
) -> Result<Val, EvalError>
    ensures { Gives seen result (given_one function (seen value) (seen first)) }
{
    match function {
        Unary::Equals => texts::equals(alloc, value, first),
        Unary::StartsWith => texts::starts_with(alloc, value, first),
        Unary::EndsWith => texts::ends_with(alloc, value, first),
        Unary::Contains => texts::contains(alloc, value, first),
        Unary::Append => texts::joined(alloc, value, first),
        Unary::Prepend => texts::joined(alloc, first, value),
        Unary::SubstringBefore => texts::substring_before(alloc, value, first),
        Unary::SubstringAfter => texts::substring_after(alloc, value, first),
        Unary::GreaterThan => is_greater(value, first),
        Unary::LessThan => is_less(value, first),
        Unary::Plus => plus(value, first),
        Unary::Minus => minus(value, first),
        Unary::And => and(value, first),
        Unary::Or => or(value, first),
    }
}

pub(super) fn apply_with_two(
    alloc: Global,
    function: Binary,
    value: Val,
    first: Val,
    second: Val,
) -> Result<Val, EvalError>
    ensures { Gives seen result (given_two function (seen value) (seen first) (seen second)) }
{
    match function {
        Binary::Replace => texts::replace(alloc, value, first, second),
    }
}

fn number_of(value: &Val) -> Result<i64, EvalError>
    ensures { result ≡ as_number (seen value.now) }
{
    value.number().ok_or(EvalError::NotANumber)
}

fn truth_of(value: &Val) -> Result<bool, EvalError>
    ensures { result ≡ as_truth (seen value.now) }
{
    value.truth().ok_or(EvalError::NotABool)
}

fn not(value: Val) -> Result<Val, EvalError>
    ensures { Gives seen result (given_alone Nullary.Not (seen value)) }
{
    Ok(Val::Bool(!truth_of(&value)?))
}

fn is_greater(value: Val, first: Val) -> Result<Val, EvalError>
    ensures { Gives seen result (given_one Unary.GreaterThan (seen value) (seen first)) }
{
    Ok(Val::Bool(number_of(&value)? > number_of(&first)?))
}

fn is_less(value: Val, first: Val) -> Result<Val, EvalError>
    ensures { Gives seen result (given_one Unary.LessThan (seen value) (seen first)) }
{
    Ok(Val::Bool(number_of(&value)? < number_of(&first)?))
}

fn plus(value: Val, first: Val) -> Result<Val, EvalError>
    ensures { Gives seen result (given_one Unary.Plus (seen value) (seen first)) }
{
    let sum = number_of(&value)?.checked_add(number_of(&first)?);
    Ok(Val::Num(sum.ok_or(EvalError::Overflow)?))
}

fn minus(value: Val, first: Val) -> Result<Val, EvalError>
    ensures { Gives seen result (given_one Unary.Minus (seen value) (seen first)) }
{
    let difference = number_of(&value)?.checked_sub(number_of(&first)?);
    Ok(Val::Num(difference.ok_or(EvalError::Overflow)?))
}

fn and(value: Val, first: Val) -> Result<Val, EvalError>
    ensures { Gives seen result (given_one Unary.And (seen value) (seen first)) }
{
    let (left, right) = (truth_of(&value)?, truth_of(&first)?);
    Ok(Val::Bool(left && right))
}

fn or(value: Val, first: Val) -> Result<Val, EvalError>
    ensures { Gives seen result (given_one Unary.Or (seen value) (seen first)) }
{
    let (left, right) = (truth_of(&value)?, truth_of(&first)?);
    Ok(Val::Bool(left || right))
}
