//! Events in memory, found by their number and by the files that they name.
//!
//! An event is handed out by one call alone, which counts a step: so how many events were read can be said by a
//! contract.
#![tactic(auto)]

mod index;
mod lists;
mod steps;

pub use index::Index;
pub use steps::Steps;
