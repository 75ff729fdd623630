//! The text of a flow: its rules, and the flow that it stands for.
#![tactic(auto)]

mod building;
mod error;
mod expressions;
mod field;
mod limits;
mod listed;
mod look;
mod made;
mod own_patterns;
mod patterns;
mod place;
mod pointer;
mod processor_type;
mod reading;
mod rule;
mod rules;
mod shape;
mod text;
mod walk;

pub use error::FlowError;
pub use field::{Field, Level, Shape};
pub use limits::{TEXT_MAX, limit_of_a_text};
pub use patterns::{Builder, PatternError, Patterns};
pub use processor_type::{Form, Own, ProcessorType, Property};
pub use rule::Rule;
pub use text::read_flow;
