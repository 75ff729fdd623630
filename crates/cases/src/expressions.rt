//! Cases of expressions: which texts are read, and what they are worth.
use crate::json::{member, text};
use anyhow::Result;
use expr_lang::{EvalError, Expr, Subject, Val, parse, value};
use serde_json::Value;
use std::alloc::{AllocError, Global};

/// A flow file with the one attribute `x`.
#[derive(Drop)]
struct OneAttribute<'a> {
    x: &'a str,
}

impl Subject for OneAttribute<'_> {
    ghost use Rattle.std.specs.Prelude.{Some, None, if◌then◌else◌, bytes_eq, codes};

    ghost attributes = { λ s name. if bytes_eq name (codes "x") then Some s.x.now else None };

    fn find(&self, name: &str) -> Option<&str> {
        if name == "x" { Some(self.x) } else { None }
    }
}

/// Whether a text is an expression.
pub fn put_parsed(out: &mut String, alloc: Global, expression: &Value) -> Result<()> {
    let expression = text(alloc, expression)?;
    match parse(alloc, expression.as_str()) {
        Ok(_) => out.push_str("read")?,
        Err(error) => write!(out, "{error}")?,
    }
    Ok(())
}

/// What an expression is worth over a flow file whose attribute `x` the case says. Of a long text the size is told.
pub fn put_valued(out: &mut String, alloc: Global, expression: &Value, case: &Value) -> Result<()> {
    let expression = expression_of(alloc, expression)?;
    let x = text(alloc, member(case, "x")?)?;
    let subject = OneAttribute { x: x.as_str() };
    Ok(put_value(out, &value(alloc, &expression, &subject))?)
}

fn expression_of(alloc: Global, value: &Value) -> Result<Expr> {
    let text = text(alloc, value)?;
    Ok(parse(alloc, text.as_str())?)
}

fn put_value(out: &mut String, value: &Result<Val, EvalError>) -> Result<(), AllocError> {
    match value {
        Ok(Val::Text(text)) if text.len() > LONG => {
            let size = text.len();
            write!(out, "a text of {size} bytes")
        }
        Ok(Val::Text(text)) => write!(out, "text {text:?}"),
        Ok(Val::Num(number)) => write!(out, "number {number}"),
        Ok(Val::Bool(truth)) => write!(out, "truth {truth}"),
        Err(error) => write!(out, "{error}"),
    }
}

const LONG: usize = 1_000;
