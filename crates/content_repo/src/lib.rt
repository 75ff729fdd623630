//! Contents in shared claims: where each stands, how often it is referred to, and what may be emptied.
//!
//! A claim is one file of the disk, which takes contents one behind the other while it is shorter than [`OPEN_SIZE`].
//! Its number is its slot.
#![tactic(auto)]

mod append;
mod content;
mod error;
mod law;
mod load;
mod read;
mod reclaim;
mod room;
mod slot;
mod slot_set;
mod still;

pub use content::{Content, HELD_MAX};
pub use error::ContentError;
pub use law::{
    appended_contents_are_held, contents_have_ranges, counts_leave_the_sizes, limits_of_claims,
};
pub use load::LIVE_MAX;
pub use read::read_content;
pub use reclaim::Reclaimed;
pub use slot::{OPEN_SIZE, Slot};
pub use slot_set::SLOTS;
