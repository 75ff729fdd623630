//! A world in memory, that a flow is tried in. Each object tells what it holds, and fails where it is told to.

mod clock;
mod files;
mod gate;
mod inbox;
mod outbox;
mod places;
mod stream;

pub use clock::MemoryClock;
pub use gate::{FreeGate, TurnGate};
pub use inbox::MemoryInbox;
pub use outbox::MemoryOutbox;
pub use stream::{MemorySink, MemorySource};
