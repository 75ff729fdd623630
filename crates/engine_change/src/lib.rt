//! What ties the work of processors to the store: what a session that has ended changes of it is what the machine
//! settles.
#![tactic(auto)]

mod ended_session;
mod expiry;
mod identity;

pub use ended_session::settle_session;
pub use expiry::{
    ascending_numbers_stay, due_expiries_may_expire, expire_files, expiries_are_steps,
    held_contents_are_read,
};
pub use identity::connection_ids;
