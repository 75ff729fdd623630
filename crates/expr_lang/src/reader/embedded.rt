//! Embedded expressions. `depth` says how deep those may nest that stand within.
ghost use Rattle.std.specs.Prelude.{◌≡◌, ℕ, List, string_bytes};
ghost use Rattle.expr_lang.specs.Gives.{Reads};
ghost use Rattle.expr_lang.specs.Reading.{embedded_read, expression_read, subject_read, name_read, literal_read, call_read, arguments_read, argument_read};
ghost use Rattle.expr_lang.specs.Tree.{Term};
ghost use Rattle.expr_lang.specs.View.{term_of, operand_term, call_term};

use super::number::{begins_number, read_number, read_truth};
use super::quoted::{is_mark, read_quoted};
use super::run::{Run, read_run, starts_name};
use super::text::{behind_spaces, behind_token, behind_word, split_first};
use crate::function::Function;
use crate::stop::Stop;
use crate::syntax::{Call, Embedded, Operand};
use std::alloc::Global;

/// An expression between `${` and `}`, and the text behind it. It counts as one of the depth.
#[cycle(reading)]
#[tactic(auto, unfolding(crate::specs::Reading::embedded_read))]
pub(super) fn read_embedded(alloc: Global, depth: u64, text: &str) -> Result<(Embedded, &str), Stop>
    ensures { Reads (λ x. (term_of x.0, x.1.now)) result (embedded_read depth text.now) }
{
    if depth == 0 {
        return Err(Stop::Unread);
    }
    let behind = behind_word(text, "${").ok_or(Stop::Unread)?;
    let (embedded, behind) = read_expression(alloc, depth - 1, behind_spaces(behind))?;
    let behind = behind_token(behind, "}").ok_or(Stop::Unread)?;
    Ok((embedded, behind))
}

#[cycle(reading)]
#[tactic(auto, unfolding(crate::specs::Reading::expression_read))]
fn read_expression(alloc: Global, depth: u64, text: &str) -> Result<(Embedded, &str), Stop>
    ensures { Reads (λ x. (term_of x.0, x.1.now)) result (expression_read (embedded_read depth) text.now) }
{
    let (subject, mut rest) = read_subject(alloc, depth, text)?;
    let mut calls = Vec::new(alloc);
    while let Some(behind) = behind_token(rest, ":") {
        let (call, behind) = read_call(alloc, depth, behind_spaces(behind))?;
        calls.push(call)?;
        rest = behind;
    }
    Ok((Embedded { subject, calls }, rest))
}

#[cycle(reading)]
#[tactic(auto, unfolding(crate::specs::Reading::subject_read))]
fn read_subject(alloc: Global, depth: u64, text: &str) -> Result<(Operand, &str), Stop>
    ensures { Reads (λ x. (operand_term x.0, x.1.now)) result (subject_read (embedded_read depth) text.now) }
{
    let (first, _) = split_first(text).ok_or(Stop::Unread)?;
    if is_mark(first) {
        let (name, behind) = read_quoted(alloc, text)?;
        return Ok((Operand::Attribute(name), behind));
    }
    if !starts_name(first) {
        return Err(Stop::Unread);
    }
    let (name, behind) = read_run(alloc, Run::Name, text)?;
    read_name(alloc, depth, name, behind)
}

/// What a name is: a literal, where it is that word and a parenthesis follows, or an attribute.
#[cycle(reading)]
#[tactic(auto, unfolding(crate::specs::Reading::name_read))]
fn read_name(alloc: Global, depth: u64, name: String, behind: &str) -> Result<(Operand, &str), Stop>
    ensures { Reads (λ x. (operand_term x.0, x.1.now)) result
        (name_read (embedded_read depth) (string_bytes name) behind.now) }
{
    if name.as_str() == "literal" {
        if let Some(inside) = behind_token(behind, "(") {
            return read_literal(alloc, depth, inside);
        }
    }
    Ok((Operand::Attribute(name), behind))
}

/// The argument of a literal, behind its parenthesis.
#[cycle(reading)]
#[tactic(auto, unfolding(crate::specs::Reading::literal_read))]
fn read_literal(alloc: Global, depth: u64, text: &str) -> Result<(Operand, &str), Stop>
    ensures { Reads (λ x. (operand_term x.0, x.1.now)) result (literal_read (embedded_read depth) text.now) }
{
    let (argument, behind) = read_argument(alloc, depth, behind_spaces(text))?;
    let behind = behind_token(behind, ")").ok_or(Stop::Unread)?;
    Ok((argument, behind))
}

#[cycle(reading)]
#[tactic(auto, unfolding(crate::specs::Reading::call_read))]
fn read_call(alloc: Global, depth: u64, text: &str) -> Result<(Call, &str), Stop>
    ensures { (t : Term) → Reads (λ x. (call_term x.0 t, x.1.now)) result (call_read (embedded_read depth) t text.now) }
{
    let (name, behind) = read_run(alloc, Run::Letters, text)?;
    let function = Function::named(&name).ok_or(Stop::Unread)?;
    let behind = behind_token(behind, "(").ok_or(Stop::Unread)?;
    read_arguments(alloc, depth, function, behind)
}

/// The arguments of a function, behind its parenthesis.
#[cycle(reading)]
#[tactic(auto, unfolding(crate::specs::Reading::arguments_read))]
fn read_arguments(
    alloc: Global,
    depth: u64,
    function: Function,
    text: &str,
) -> Result<(Call, &str), Stop>
    ensures { (t : Term) → Reads (λ x. (call_term x.0 t, x.1.now)) result
        (arguments_read (embedded_read depth) t function text.now) }
{
    match function {
        Function::Alone(function) => {
            let behind = behind_token(text, ")").ok_or(Stop::Unread)?;
            Ok((Call::Alone(function), behind))
        }
        Function::WithOne(function) => {
            let (first, behind) = read_argument(alloc, depth, behind_spaces(text))?;
            let behind = behind_token(behind, ")").ok_or(Stop::Unread)?;
            Ok((Call::WithOne(function, first), behind))
        }
        Function::WithTwo(function) => {
            let (first, behind) = read_argument(alloc, depth, behind_spaces(text))?;
            let behind = behind_token(behind, ",").ok_or(Stop::Unread)?;
            let (second, behind) = read_argument(alloc, depth, behind_spaces(behind))?;
            let behind = behind_token(behind, ")").ok_or(Stop::Unread)?;
            Ok((Call::WithTwo(function, first, second), behind))
        }
    }
}

#[cycle(reading)]
#[tactic(auto, unfolding(crate::specs::Reading::argument_read))]
fn read_argument(alloc: Global, depth: u64, text: &str) -> Result<(Operand, &str), Stop>
    ensures { Reads (λ x. (operand_term x.0, x.1.now)) result (argument_read (embedded_read depth) text.now) }
{
    let (first, _) = split_first(text).ok_or(Stop::Unread)?;
    if first == '$' {
        let (embedded, behind) = read_embedded(alloc, depth, text)?;
        return Ok((Operand::Nested(Box::new(alloc, embedded)?), behind));
    }
    if is_mark(first) {
        let (quoted, behind) = read_quoted(alloc, text)?;
        return Ok((Operand::Text(quoted), behind));
    }
    if begins_number(first) {
        let (number, behind) = read_number(alloc, text)?;
        return Ok((Operand::Number(number), behind));
    }
    let (truth, behind) = read_truth(text)?;
    Ok((Operand::Truth(truth), behind))
}
