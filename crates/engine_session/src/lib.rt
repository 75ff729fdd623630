//! A session of any processor between its checkout and its commit: its job, the work on it, what that changes of the store
//! and sends, and the step of the machine that it is.
#![tactic(auto)]

mod change;
mod done;
mod ending;
mod handing;
mod job;
mod laws;
mod taken;
mod working;

pub use change::{Changed, Sending, session_change};
pub use done::{Done, are_same_files, is_work_on, step_done, work};
pub use handing::{ReadList, fit_a_content, live_files};
pub use job::Job;
pub use laws::{sessions_are_steps, taken_files_are_handed, taken_files_are_live};
pub use taken::{chosen_files_are_taken, taken_files_are_sessions, taken_files_stay};
