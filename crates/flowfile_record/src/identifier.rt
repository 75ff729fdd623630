//! The identifiers of flow files.
ghost use Rattle.std.specs.Prelude.{◌≡◌, slice_index};
ghost use Rattle.uuid.specs.Uuid.{version_num};
ghost use Rattle.uuid.specs.Parts.{variant_of};
ghost use Rattle.uuid.specs.declared.Variant.TheVariants as variant;
ghost use Rattle.flowfile_record.specs.Identifier.{identifier, IsOneOfAKind};

use crate::{NUMBER_LIMIT, STORE_LIMIT};
use uuid::Uuid;

/// The identifier of a store's flow file by its number: version 8 of RFC 9562. It holds the low 60 bits of the
/// store's id, and the low 62 bits of the number.
pub fn uuid_of(store: u64, number: u64) -> Uuid
    ensures bits { result ≡ identifier store number }
    ensures version { version_num result ≡ 8 }
    ensures variant { variant_of (slice_index result 8) ≡ variant.RFC4122 }
    ensures distinct { IsOneOfAKind store number }
{
    let first = store % STORE_LIMIT / 4096;
    let second = store % 4096;
    let high = first * 65_536 + VERSION * 4096 + second;
    let low = VARIANT * NUMBER_LIMIT + number % NUMBER_LIMIT;
    Uuid::from_u64_pair(high, low)
}

// Version 8, in the highest four bits of its two bytes, and the variant, in the highest two of its byte.
const VERSION: u64 = 8;

const VARIANT: u64 = 2;
