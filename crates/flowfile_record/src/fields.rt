//! The plain fields of an encoding: numbers (big-endian), texts, lists of numbers and digests.
//!
//! A reader takes a field from the front of some bytes, and gives its value and the bytes behind it. Where the
//! field can't be read, it tells how many bytes are left from the field on. A writer adds a field at the end, where
//! there has to be room for it.
mod fault;
mod law;
mod read;
mod write;

pub use fault::{FieldError, Unread};
pub use law::{numbers_are_read_as_encoded, texts_are_read_as_encoded};
pub use read::{
    read_digest, read_long, read_number, read_numbers, read_text, read_u8, read_u16, read_u32,
    read_u64,
};
pub use write::{put, put_long, put_numbers, put_text, put_u8, put_u16, put_u32, put_u64};
