//! What a processor is: it takes files, and acts on them in a session.
//!
//! A processor sees a session and what it is given beside its files, and never a device, a claim or a queue.
#![tactic(auto)]

mod acts;
mod calls;
mod cloning;
mod work;

pub use acts::Acts;
pub use calls::or_no_memory;
pub use cloning::{add_clone, may_be_cloned, pass, route};
pub use machine_model::{Given, TakeRule};
pub use work::work_on;

/// The place, in a session, of the file that it took first.
pub const FILE: u32 = 0;
