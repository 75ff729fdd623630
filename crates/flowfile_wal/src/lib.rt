//! A log of entries, each behind a gate: what was added stands whole or not at all, wherever a disk stops.
#![tactic(auto)]

mod append;
mod current;
mod error;
mod law;
mod log;
mod mend;
mod read;

pub use error::LoadError;
pub use law::{logs_that_change_alike, logs_that_were_begun, logs_with_one_block_more};
pub use log::{BEGUN_END, Log, LogEntries};
