//! The world around a flow: an inbox, an outbox, a source and a sink of bytes, a clock and a gate.
//!
//! Each trait says what its calls give and leave, where the device tells what it holds, and counts the
//! device's faults. The versions in memory tell.
#![tactic(auto)]

mod clock;
mod error;
mod inbox;
mod memory;
mod outbox;
mod stream;

pub use clock::{Clock, Gate};
pub use disk_trait::Calls;
pub use error::WorldError;
pub use flowfile_record::{CONTENT_MAX, Name, NameError};
pub use inbox::Inbox;
pub use memory::{
    FreeGate, MemoryClock, MemoryInbox, MemoryOutbox, MemorySink, MemorySource, TurnGate,
};
pub use outbox::Outbox;
pub use stream::{Sink, Source};
