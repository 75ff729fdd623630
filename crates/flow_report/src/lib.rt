//! What the program prints: the texts of its commands and of its statuses, written to a sink.
//!
//! Nothing here takes memory. A line goes to the sink in one write where it has at most 4 KiB.
#![tactic(auto)]

mod bytes;
mod count;
mod event;
mod held;
mod line;
mod part;
mod quoting;
mod summary;
#[cfg(test)]
mod tests;
mod words;

pub use bytes::write_bytes;
pub use line::{KinWord, Line, write_line};
pub use summary::write_summary;
