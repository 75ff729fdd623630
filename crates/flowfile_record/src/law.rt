//! The limits as numbers. Clauses and definitions name them; these laws say which numbers they are. And what the kin is
//! that an event tells.
ghost use Rattle.std.specs.Prelude.{◌≡◌, ℕ, ◌*◌, ◌^◌, All, map, codes};
ghost use Rattle.uuid.specs.Text.{hyphenated_text, lower};
ghost use Rattle.flowfile_record.specs.Attributes.{pair_size};
ghost use Rattle.flowfile_record.specs.Identifier.{identifier};
ghost use Rattle.flowfile_record.specs.Kin.{kin_of, pairs_named};
ghost use Rattle.flowfile_record.specs.declared.event.Event.{Event};

use crate::attributes::{COUNT_SIZE, PAIR_SIZE};
use crate::{
    ATTRIBUTES_MAX, CONTENT_MAX, DIGEST_SIZE, EVENTS_PER_FILE, FILENAME_SIZE, FILES_MAX, KEY_MAX,
    LIVE_BYTES_MAX, LIVE_FILES_MAX, NAME_MAX, NUMBER_LIMIT, SESSION_ATTRIBUTES_MAX, STORE_LIMIT,
    TAKEN_MAX, WRITTEN_MAX,
};

/// The limits of a flow file.
pub fn limits_of_a_file()
    ensures key { KEY_MAX ≡ 255 }
    ensures count { COUNT_SIZE ≡ 2 }
    ensures pair { PAIR_SIZE ≡ 6 }
    ensures attributes { ATTRIBUTES_MAX ≡ 65_536 }
    ensures name { NAME_MAX ≡ 255 }
    ensures content { CONTENT_MAX ≡ 16 * 2 ^ 20 }
    ensures digest { DIGEST_SIZE ≡ 32 }
    ensures numbers { NUMBER_LIMIT ≡ 2 ^ 62 }
    ensures stores { STORE_LIMIT ≡ 2 ^ 60 }
{}

/// The limits of a session. What a file without a `filename` counts is the size of the pair that it is given later.
pub fn limits_of_a_session()
    ensures files { FILES_MAX ≡ 10_000 }
    ensures taken { TAKEN_MAX ≡ 1_000 }
    ensures attributes { SESSION_ATTRIBUTES_MAX ≡ 64 * 2 ^ 20 }
    ensures written { WRITTEN_MAX ≡ 64 * 2 ^ 20 }
    ensures filename { (store number : ℕ)
        → pair_size (codes "filename", hyphenated_text lower (identifier store number)) ≡ FILENAME_SIZE }
{}

/// The limits of a state.
pub fn limits_of_a_state()
    ensures files { LIVE_FILES_MAX ≡ 2 ^ 20 }
    ensures bytes { LIVE_BYTES_MAX ≡ 2 ^ 30 }
    ensures events { EVENTS_PER_FILE ≡ 10 ^ 4 }
{}

/// The kin that an event tells is the pairs of a child and a parent that it names, each with the event's number.
pub fn kin_is_numbered_pairs()
    ensures pairs { (event : Event) → map (λ kin. (kin.0, kin.1)) (kin_of event) ≡ pairs_named event }
    ensures number { (event : Event) → All (λ kin. kin.2 ≡ event.number) (kin_of event) }
{}
