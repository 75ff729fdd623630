//! The files of events: which events a store has past a line and up to a last one, ten thousand to a file.
//!
//! Events are counted from 1. The blocks of a file's events stand one behind the other from its start, and what stands
//! behind that of the last event doesn't matter. The events up to the line are forgotten: it is the end of a file, and
//! that file and those before it don't matter.
#![tactic(auto)]

mod age;
mod append;
mod blocks;
mod counts;
mod events;
mod law;
mod load;
mod read;
mod scan;
mod trim;

pub use blocks::EventBlocks;
pub use events::{Events, Stale};
pub use law::{
    covered_events_stay, events_are_kept_step_by_step, events_up_to_the_last_are_in_a_row,
};
