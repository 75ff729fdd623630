//! What must happen to a flow's store in one order: an engine tends what is due, tells which session comes next, hands
//! out its job, and makes the work on it part of the run.
#![tactic(auto)]

mod checkout;
mod close;
mod commit;
mod engine;
mod error;
mod expiring;
mod flight;
mod handing_out;
mod journal;
mod memory;
mod reading;
mod sending;
mod standing;
mod tending;

pub use checkout::Checkout;
pub use close::Closed;
pub use commit::Committed;
pub use engine::Engine;
pub use error::EngineError;
pub use tending::Tended;
