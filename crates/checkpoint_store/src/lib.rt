//! Snapshots of what a store keeps, and the beginning of the log behind one.
#![tactic(auto)]

mod beginning;
mod output;
mod part;
mod reading;
mod so_far;
mod unread;
mod writing;

pub use beginning::begin;
pub use reading::{Snapshot, read, snapshots_are_read_back};
pub use writing::write;
