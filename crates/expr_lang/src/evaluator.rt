//! What an expression is worth over attributes.
ghost use Rattle.std.specs.Prelude.{◌≡◌, ℕ, List, [], Option, Ok, unwrap_or};
ghost use Rattle.std.specs.Option.{option_copied};
ghost use Rattle.expr_lang.specs.Gives.{Gives};
ghost use Rattle.expr_lang.specs.Meaning.{term_value, tree_value};
ghost use Rattle.expr_lang.specs.Seen.{seen};
ghost use Rattle.expr_lang.specs.Tree.{Term, joined};
ghost use Rattle.expr_lang.specs.Value.{bounded};
ghost use Rattle.expr_lang.specs.View.{tree_of, term_of, operand_term, call_term, piece_parts};
ghost use Rattle.std.specs.List.{flat_map};

mod functions;
mod joined;
mod texts;

use crate::error::EvalError;
use crate::subject::Subject;
use crate::syntax::{Call, Embedded, Expr, Operand, Piece};
use crate::val::{VALUE_MAX, Val};
use functions::{apply_alone, apply_with_one, apply_with_two};
use joined::JoinedText;
use std::alloc::Global;

/// The value of an expression. What is evaluated first decides which error comes: a subject before its calls, arguments
/// from the left before their function, the pieces of a text from the left and then its length. Memory may run out
/// anywhere.
pub fn value<S: Subject>(alloc: Global, expr: &Expr, subject: &S) -> Result<Val, EvalError>
    ensures { Gives seen result (tree_value (S.attributes subject.now) (tree_of expr.now)) }
{
    match expr {
        Expr::Whole(embedded) => embedded_value(alloc, embedded, subject),
        Expr::Joined(pieces) => joined_value(alloc, pieces, subject),
    }
}

/// The texts of all pieces, joined. A piece behind one that makes the text too long is evaluated all the same.
fn joined_value<S: Subject>(alloc: Global, pieces: &[Piece], subject: &S) -> Result<Val, EvalError>
    ensures { Gives seen result (tree_value (S.attributes subject.now) (joined (flat_map piece_parts pieces.now))) }
{
    let mut joined = JoinedText::new(alloc);
    for piece in pieces {
        match piece {
            Piece::Plain(text) => joined.push(text.as_str())?,
            Piece::Computed(embedded) => {
                let text = embedded_value(alloc, embedded, subject)?.into_text(alloc)?;
                joined.push(text.as_str())?;
            }
        }
    }
    joined.into_value()
}

#[cycle(evaluating)]
fn embedded_value<S: Subject>(
    alloc: Global,
    embedded: &Embedded,
    subject: &S,
) -> Result<Val, EvalError>
    ensures { Gives seen result (term_value (S.attributes subject.now) (term_of embedded.now)) }
{
    let mut value = operand_value(alloc, &embedded.subject, subject)?;
    for call in &embedded.calls {
        value = call_value(alloc, call, value, subject)?;
    }
    Ok(value)
}

/// What becomes of the value before a call.
#[cycle(evaluating)]
fn call_value<S: Subject>(
    alloc: Global,
    call: &Call,
    before: Val,
    subject: &S,
) -> Result<Val, EvalError>
    ensures { (t : Term) → term_value (S.attributes subject.now) t ≡ Ok (seen before)
        → Gives seen result (term_value (S.attributes subject.now) (call_term call.now t)) }
{
    match call {
        Call::Alone(function) => apply_alone(alloc, *function, before),
        Call::WithOne(function, first) => {
            let first = operand_value(alloc, first, subject)?;
            apply_with_one(alloc, *function, before, first)
        }
        Call::WithTwo(function, first, second) => {
            let first = operand_value(alloc, first, subject)?;
            let second = operand_value(alloc, second, subject)?;
            apply_with_two(alloc, *function, before, first, second)
        }
    }
}

#[cycle(evaluating)]
fn operand_value<S: Subject>(
    alloc: Global,
    operand: &Operand,
    subject: &S,
) -> Result<Val, EvalError>
    ensures { Gives seen result (term_value (S.attributes subject.now) (operand_term operand.now)) }
{
    match operand {
        Operand::Attribute(name) => attribute_value(alloc, subject.find(name.as_str())),
        Operand::Text(text) => Ok(Val::Text(String::from_str(alloc, text.as_str())?)),
        Operand::Number(number) => Ok(Val::Num(*number)),
        Operand::Truth(truth) => Ok(Val::Bool(*truth)),
        Operand::Nested(embedded) => embedded_value(alloc, embedded, subject),
    }
}

/// An attribute that is missing is the empty text.
fn attribute_value(alloc: Global, found: Option<&str>) -> Result<Val, EvalError>
    ensures { Gives seen result (bounded (unwrap_or (option_copied found.entry) [])) }
{
    let text = found.unwrap_or("");
    if text.len() as u64 > VALUE_MAX {
        return Err(EvalError::TooLong);
    }
    Ok(Val::Text(String::from_str(alloc, text)?))
}
