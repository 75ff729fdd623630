//! A session's settlement: what its outcome changes in the state of a flow.
//!
//! A session that has ended gives files that go to queues, return, or are gone; clones of them for further connections;
//! events; and new counters. Nothing here knows a device or the store.
#![tactic(auto)]

mod content;
mod counters;
mod entered;
mod events;
mod file;
mod goes;
mod handed;
mod making;
mod naming;
mod numbers;
mod offspring;
mod placing;
mod rows;
mod settling;

pub use counters::Counters;
pub use handed::Ended;
pub use settling::settle;
