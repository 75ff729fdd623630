//! What a run of a flow promises, for each flow that may be written, and how that goes on from step to step.
//!
//! The definitions stand in `specs/`: a run keeps a journal of the machine's steps (`specs/Run.antt`), and between two
//! steps all of it is acknowledged (`specs/Going.antt`). Each law is the contract of a function that does nothing.
#![tactic(auto)]

mod ended;
mod laws;

pub use ended::{Ended, Fault};
pub use laws::{
    failed_openings_end_a_run, faults_end_a_run, memory_is_the_state, run_begins, run_ends,
    run_goes_on, turns_go_on, worlds_follow_steps,
};
