//! The unit of work in which a processor acts on flow files.
//!
//! A session holds the files that it took and the files that it made, in memory. What it does shows nowhere before
//! its outcome is committed. Nothing here knows a device or the store. Places count the taken files first, then the
//! made ones in the order in which they were made.
#![tactic(auto)]

mod error;
mod file;
mod session;

pub use error::{Full, SessionError};
pub use file::{Source, SourceList, Taken, TakenList};
pub use flowfile_record::{
    FILENAME_SIZE, FILES_MAX, SESSION_ATTRIBUTES_MAX, TAKEN_MAX, WRITTEN_MAX,
};
pub use session::Session;
