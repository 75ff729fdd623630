//! The devices of a machine: folders, a file, standard output and the clock.
//!
//! No clause can say what a folder holds, so these tell nothing of contents. They count their faults,
//! and sync what they say is durable.
#![tactic(auto)]

mod aside;
mod clock;
mod faults;
mod folder;
mod inbox;
mod lock;
mod numbered;
mod open_file;
mod open_files;
mod outbox;
mod pending;
mod renew;
mod set_aside;
mod settle;
mod standing;
mod store;
mod stream;
mod sync;
mod written;

pub use clock::MachineClock;
pub use folder::{Folder, folder_to_read, make_folder};
pub use inbox::InboxFolder;
pub use outbox::OutboxFolder;
pub use store::StoreFolder;
pub use stream::{FileSource, OutputSink};
