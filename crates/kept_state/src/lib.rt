//! The state that a store keeps, in memory: what an entry of the log does to it, and which entry a change makes.
//!
//! Nothing here knows a device. No batch is swapped out of a state here.
#![tactic(auto)]

mod arrivals;
mod files;
mod law;
mod limit;
mod prepared;
mod records;
mod replay;
mod size;
mod state;

pub use law::{
    fits_ignore_where_contents_stand, fits_leave_a_consistent_state, number_of_the_limit,
    other_files_stay, replays_go_on, settled_sessions_fit, without_batches_their_files_dont_matter,
};
pub use limit::{Limit, NUMBER_MAX, Which};
pub use prepared::PreparedEntry;
pub use replay::{Replay, ReplayError};
pub use state::KeptState;
