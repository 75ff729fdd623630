//! Several workers run one flow: one engine under a lock, the processors' work outside of it.
#![tactic(auto)]

mod calls;
mod cause;
mod desk;
mod held;
mod shop;
mod turns;
mod workers;

pub use cause::Cause;
pub use workers::{Worked, run_workers};
