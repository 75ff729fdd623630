//! A parsed expression, as plain data.
use crate::function::{Binary, Nullary, Unary};

/// A parsed text: one embedded expression and nothing else, or pieces to be joined as text.
#[derive(Debug, Drop)]
pub enum Expr {
    Whole(Embedded),
    Joined(Vec<Piece>),
}

/// A part of a text that is joined: a run of plain characters, or an embedded expression.
#[derive(Debug, Drop)]
pub enum Piece {
    Plain(String),
    Computed(Embedded),
}

/// What stands between `${` and `}`: a subject, and the calls on it from the left.
#[cycle(embedded)]
#[derive(Debug, Drop)]
pub struct Embedded {
    pub subject: Operand,
    pub calls: Vec<Call>,
}

/// Where a value comes from: an attribute by its name, a constant, or an expression within.
#[cycle(embedded)]
#[derive(Debug, Drop)]
pub enum Operand {
    Attribute(String),
    Text(String),
    Number(i64),
    Truth(bool),
    Nested(Box<Embedded>),
}

/// A call of a function on the value before it.
#[cycle(embedded)]
#[derive(Debug, Drop)]
pub enum Call {
    Alone(Nullary),
    WithOne(Unary, Operand),
    WithTwo(Binary, Operand, Operand),
}
