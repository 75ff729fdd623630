//! Which session comes next, over what an engine has in memory.
#![tactic(auto)]

mod choice;
mod choosing;
mod laws;

pub use choice::{Choice, Ending, Taking};
pub use choosing::{choose, ending, taking_for};
pub use laws::{
    choices_are_seen, choices_are_sessions, ends_are_machine_ends, takings_are_sessions,
};
