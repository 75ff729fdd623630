//! The language of a flow's expressions: what a text says as a tree, and what a tree is worth over the
//! attributes of a flow file.
#![tactic(auto)]

mod error;
mod evaluator;
mod function;
mod laws;
mod reader;
mod stop;
mod subject;
mod syntax;
mod val;

pub use error::{EvalError, ExprError};
pub use evaluator::value;
pub use function::{Binary, Function, Nullary, Unary};
pub use laws::limits_of_the_language;
pub use reader::{DEPTH_MAX, TEXT_MAX, parse};
pub use subject::Subject;
pub use syntax::{Call, Embedded, Expr, Operand, Piece};
pub use val::{VALUE_MAX, Val};
