//! The numbers of the format.
ghost use Rattle.std.specs.Prelude.{◌≡◌, ◌^◌};

use crate::{
    BLOCK_OVERHEAD, CLOSED_GATE, FIRST_VERSION, FORMAT_VERSION, GROUP_KIND, HEADER_SIZE,
    NO_GENERATOR, OPEN_GATE, PAYLOAD_MAX, SECOND_VERSION, SLOT_LIMIT,
};

/// The limits and the fixed bytes of the format.
pub fn numbers_of_the_format()
    ensures payload { PAYLOAD_MAX ≡ 2 ^ 30 }
    ensures header { HEADER_SIZE ≡ 5 }
    ensures overhead { BLOCK_OVERHEAD ≡ 37 }
    ensures slots { SLOT_LIMIT ≡ 65_536 }
    ensures no_generator { NO_GENERATOR ≡ 65_535 }
    ensures group { GROUP_KIND ≡ 6 }
    ensures versions { (FIRST_VERSION ≡ 1) × (SECOND_VERSION ≡ 2) }
    ensures version { FORMAT_VERSION ≡ FIRST_VERSION }
    ensures gates { (OPEN_GATE ≡ 0x5A) × (CLOSED_GATE ≡ 0) }
{}
