//! The vocabulary of the engine: flow files with their attributes, what a session made of them, the events that
//! tell of it, and the state that a store keeps.
//!
//! Nothing here knows a device, a file of the store, or a processor. A text is UTF-8; moments are milliseconds;
//! sizes are bytes; digests are SHA-256 (FIPS 180-4).
#![tactic(auto)]

mod attributes;
mod change;
mod content;
mod error;
mod event;
pub mod fields;
mod flow_file;
mod identifier;
mod law;
mod limits;
mod name;
mod numbered;
mod numbered_list;
mod sequence;
mod stored;
mod text;
mod worked;

pub use attributes::{ATTRIBUTES_MAX, AttrError, Attributes, KEY_MAX, Put};
pub use change::{Change, Settled};
pub use content::ContentRef;
pub use error::CodecError;
pub use event::{Event, EventCounts, EventKind};
pub use flow_file::FlowFile;
pub use identifier::uuid_of;
pub use law::{kin_is_numbered_pairs, limits_of_a_file, limits_of_a_session, limits_of_a_state};
pub use limits::{
    DIGEST_SIZE, EVENTS_PER_FILE, FILENAME_SIZE, FILES_MAX, LIVE_BYTES_MAX, LIVE_FILES_MAX,
    NUMBER_LIMIT, SESSION_ATTRIBUTES_MAX, STORE_LIMIT, TAKEN_MAX, WRITTEN_MAX,
};
pub use name::{NAME_MAX, Name, NameError};
pub use numbered::Numbered;
pub use numbered_list::{NumberedIter, NumberedList};
pub use sequence::{Bytes, Numbers, Sequence};
pub use stored::{
    ActiveFile, ActiveList, BatchList, Counted, EventList, FileList, Fresh, Placed, PlacedList,
    Stored, SwapBatch,
};
pub use text::{Text, TextList};
pub use worked::{Body, End, Origin, Outcome, Sent, Worked, WorkedList};

/// The greatest content of a flow file, in bytes: 16 MiB.
pub const CONTENT_MAX: u64 = 16_777_216;
