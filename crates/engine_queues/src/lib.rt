//! What an engine decides by: the queues of a flow in memory, one for each of its connections, and the names of the inbox.
#![tactic(auto)]

mod laws;
mod linked;
mod listing;
mod opening;
mod picking;
mod queues;
mod settling;

pub use laws::{
    names_go_back, quiet_and_blocked_are_seen, what_expires_is_at_rest, what_is_kept_is_seen,
};
pub use linked::LinkedFlow;
pub use listing::Listing;
pub use picking::{Expiry, Picked, picks_are_given};
pub use queues::Queues;
