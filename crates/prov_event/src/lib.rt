//! How a provenance event is encoded in a store, and which flow files come from which by one event.
//!
//! A reader takes exactly the encodings; where bytes are none, it tells the offset of the first field that can't be
//! read, or of what is left over.
#![tactic(auto)]

mod law;
mod pairs;
mod read;
mod write;

pub use flowfile_record::CodecError;
pub use law::{events_are_read_as_encoded, events_have_one_encoding, numbers_of_the_format};
pub use pairs::kin;
pub use read::read_event;
pub use write::{event_size, put_event, write_event};

/// The kind of an event's block.
pub const EVENT_KIND: u8 = 20;
