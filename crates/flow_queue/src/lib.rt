//! The queue of a connection: the flow files that wait in it, and which of them goes first.
//!
//! It holds flow files without their contents, and knows no device. What it answers is what the machine's definitions
//! say of the queue as it is seen, the files that a session works on among its files.
#![tactic(auto)]

mod batch;
mod held;
mod queue;

pub use machine_model::{QueueLimits, TakeRule};
pub use queue::Queue;
