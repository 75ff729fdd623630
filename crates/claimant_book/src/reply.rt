//! What the calls of a book answer.
ghost use Rattle.std.specs.Prelude.{◌≡◌};
ghost use Rattle.claimant_book.specs.declared.reply.ShareError.TheVariants.{Memory};

use std::alloc::AllocError;
use thiserror::Error;

/// How a try to hold a slot ended.
#[derive(Clone, Copy, Debug, PartialEq, Eq)]
pub enum Take {
    Held,
    /// The share holds the slot as often as a share may.
    Full,
    /// The slot is past this generation: it is live in this later one, or retired from it.
    Gone { generation: u32, retired: bool },
    /// The word was another one at the exchange than at the look before it.
    Contended { seen: u64, found: u64 },
}

/// How a try to retire a slot ended.
#[derive(Clone, Copy, Debug, PartialEq, Eq)]
pub enum Retire {
    Retired,
    /// Holds that aren't the keeper's.
    Claimed { others: u32 },
}

/// A slot's stage, with its generation.
#[derive(Clone, Copy, Debug, PartialEq, Eq)]
pub enum Stage {
    Unused,
    Live(u32),
    Retired(u32),
}

#[derive(Clone, Copy, Debug, PartialEq, Eq, Error)]
pub enum ShareError {
    #[error("as many shares are out as there may be")]
    TooMany,
    #[error("out of memory")]
    Memory,
}

impl From<AllocError> for ShareError {
    ghost from_gives = { λ _ error. error ≡ Memory };

    fn from(_: AllocError) -> ShareError {
        ShareError::Memory
    }
}
