//! Tries of the machine's definitions, at flows, files and steps so small that the answer is known beforehand.
#![tactic(auto)]

mod sharing;
pub mod tries;

pub use sharing::threads_may_share;
