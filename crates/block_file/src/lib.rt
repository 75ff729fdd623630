//! The blocks of a file on a disk, one at a time.
//!
//! A file is read through one buffer, which has room for the longest block that was met: a file of any length needs
//! memory for one block.
#![tactic(auto)]

mod error;
mod pieces;
mod read;

pub use error::BlockError;
pub use pieces::digest_at;
pub use read::{BlockAddress, read_block_at};
