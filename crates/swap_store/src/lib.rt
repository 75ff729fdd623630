//! Batches of flow files that are swapped out, each in a swap file of its own.
#![tactic(auto)]

mod blocks;
mod reading;
mod taken;
mod writing;

pub use blocks::FileBlocks;
pub use reading::{batches_are_read_back, read_batch};
pub use writing::{drop_batch, write_batch};
