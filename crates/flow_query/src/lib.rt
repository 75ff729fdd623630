//! What a user asks of a store: its queues, its events, where a file came from, a content, and whether all is sound.
//!
//! A query knows no flow and writes nothing to the store. It prints, and answers why it printed nothing or not all.
#![tactic(auto)]

mod asking;
mod check;
mod content;
mod error;
mod events;
mod found;
mod law;
mod lineage;
mod lines;
mod queues;
mod seen;
#[cfg(test)]
mod tests;
mod told;
mod waiting;

pub use asking::{Query, answer};
pub use error::QueryError;
pub use law::a_query_sees_the_state_of_a_run;
