//! Which files a file came from, which came from it, and which events tell of it.
//!
//! A query asks the index for the events of the files that it answers, and for no others.
#![tactic(auto)]

mod answer;
mod found;
mod kin;
mod query;
mod told;
mod walk;

pub use answer::{Lineage, LineageError};
pub use query::{ancestors, descendants, lineage};
