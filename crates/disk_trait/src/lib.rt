//! The disk as a store sees it: files by name, and what a stop may leave of them.
//!
//! A disk is a finite map from file names to bytes, and an absent file is an empty one. [`Disk`] says
//! what each call does to what is held, and to the *images*: the files that a stop may leave.
#![tactic(auto)]

mod calls;
mod damage;
mod disk;
mod file_name;
mod memory;
mod synced;

pub use calls::Calls;
pub use damage::Damage;
pub use disk::Disk;
pub use file_name::{DiskError, Failed, FileKind, FileName};
pub use memory::{DiskBytes, DiskCall, MemoryDisk, Pick};
pub use synced::{cut_synced, write_synced};
