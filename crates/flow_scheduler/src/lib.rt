//! The loop that runs a flow: an engine tends, and a session is handed out, worked on and committed, again and again, until
//! nothing is left to do.
#![tactic(auto)]

mod driving;
mod run;

pub use run::{Ran, run_flow};
