//! Why a field couldn't be read.
ghost use Rattle.std.specs.Prelude.{◌≡◌, length};
ghost use Rattle.flowfile_record.specs.Reading.{placed};
ghost use Rattle.flowfile_record.specs.declared.fields.fault.FieldError.TheVariants.{Form, Memory};

use crate::CodecError;
use std::alloc::{AllocError, AllocFailed};

/// No value of a field stands where one was wanted; `left` bytes are left from there on.
#[derive(Clone, Copy, Debug, PartialEq, Eq)]
pub struct Unread {
    pub left: u64,
}

/// Why a field couldn't be read.
#[derive(Clone, Copy, Debug, PartialEq, Eq)]
pub enum FieldError {
    /// No value of the field stands where one was wanted; `left` bytes are left from there on.
    Form { left: u64 },
    Memory,
}

impl FieldError {
    /// The same, as the place in the bytes that were read.
    pub fn within(self, whole: &[u8]) -> CodecError
        ensures { result ≡ placed (length whole.now) self }
    {
        match self {
            FieldError::Form { left } => CodecError::Form {
                at: (whole.len() as u64).saturating_sub(left),
            },
            FieldError::Memory => CodecError::Memory,
        }
    }
}

impl From<Unread> for FieldError {
    ghost from_gives = { λ unread error. error ≡ Form unread.left };

    fn from(unread: Unread) -> FieldError {
        FieldError::Form { left: unread.left }
    }
}

impl From<AllocError> for FieldError {
    ghost from_gives = { λ _ error. error ≡ Memory };

    fn from(_: AllocError) -> FieldError {
        FieldError::Memory
    }
}

impl<T: Drop> From<AllocFailed<T>> for FieldError {
    ghost from_gives = { λ _ error. error ≡ Memory };

    fn from(_: AllocFailed<T>) -> FieldError {
        FieldError::Memory
    }
}
