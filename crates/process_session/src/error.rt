//! Why a session refuses a call.
use std::alloc::{AllocError, AllocFailed};
use std::fmt;
use std::fmt::{Display, Formatter, Write};
use thiserror::Error;

/// What a session can be full of.
#[derive(Clone, Copy, Debug, PartialEq, Eq)]
pub enum Full {
    /// Files, the taken ones and the removed ones too.
    Files,
    /// Bytes of the encoded attributes of all files.
    Attributes,
    /// Bytes that were handed to `receive`, `write` and `append`.
    Written,
}

impl Display for Full {
    fn fmt<W: Write>(&self, f: &mut Formatter<W>) -> fmt::Result {
        f.write_str(match self {
            Full::Files => "files",
            Full::Attributes => "bytes of attributes",
            Full::Written => "written bytes",
        })
    }
}

/// Why a session refuses a call. Where several of them hold, the call answers the first in this order.
#[derive(Clone, Copy, Debug, PartialEq, Eq, Error)]
pub enum SessionError {
    #[error("the session has no file at this place")]
    UnknownFile,
    /// A file that has ended can't be changed, and nothing can be made from it.
    #[error("the file has ended already")]
    AlreadyEnded,
    #[error("the processor has no such relationship")]
    NoRelationship,
    /// A file that was made here has no queue to go back to.
    #[error("the file was made in this session")]
    MadeHere,
    /// The content of a file that was taken without its bytes is needed.
    #[error("the file was taken without its content")]
    NoBytes,
    /// `end` is the sum of the offset and the size that were asked for, `size` the size of the content.
    #[error("the range ends at {end}, and the content has {size} bytes")]
    RangeOutside { end: u128, size: u64 },
    /// The size that the content would have, in bytes.
    #[error("a content of {size} bytes is too large")]
    ContentTooLarge { size: u64 },
    #[error("an attribute's key has 1 to 255 bytes")]
    BadKey,
    /// The encoded size that the attributes would have, in bytes.
    #[error("the attributes would take {size} bytes")]
    AttributesTooLarge { size: u64 },
    #[error("the session sends a file already")]
    AlreadySent,
    /// What the session would hold too much of, and how much it may hold.
    #[error("a session has at most {number} {which}")]
    SessionFull { which: Full, number: u64 },
    /// The lowest place of a file that hasn't ended.
    #[error("the file at {place} was neither transferred nor removed")]
    NotAccounted { place: u32 },
    #[error("out of memory")]
    Memory,
}

impl From<AllocError> for SessionError {
    ghost use Rattle.std.specs.Prelude.{◌≡◌};
    ghost use Rattle.process_session.specs.declared.error.SessionError.TheVariants.{Memory};

    ghost from_gives = { λ _ error. error ≡ Memory };

    fn from(_: AllocError) -> SessionError {
        SessionError::Memory
    }
}

impl<T: Drop> From<AllocFailed<T>> for SessionError {
    ghost use Rattle.std.specs.Prelude.{◌≡◌};
    ghost use Rattle.process_session.specs.declared.error.SessionError.TheVariants.{Memory};

    ghost from_gives = { λ _ error. error ≡ Memory };

    fn from(_: AllocFailed<T>) -> SessionError {
        SessionError::Memory
    }
}
