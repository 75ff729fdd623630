//! The number of the format, and what reading owes to the encoding.
ghost use Rattle.std.specs.Prelude.{◌≡◌, ℕ, List, Ok};
ghost use Rattle.flowfile_record.specs.Field.{IsBytes, IsField, HasOneEncoding};
ghost use Rattle.flowfile_record.specs.Reading.{whole};
ghost use Rattle.flowfile_record.specs.declared.event.Event.{Event};
ghost use Rattle.prov_event.specs.Encoding.{event, IsEvent};
ghost use Rattle.prov_event.specs.EventReading.{event_at};

use crate::EVENT_KIND;

/// The kind of an event's block.
pub fn numbers_of_the_format()
    ensures { EVENT_KIND ≡ 20 }
{}

/// What is read stood there encoded so, and what is encoded so is read, whatever follows it. The same of all of some
/// bytes.
pub fn events_are_read_as_encoded()
    ensures field { IsField event_at event IsEvent }
    ensures found { (bytes : List ℕ) (value : Event) → IsBytes bytes → whole event_at bytes ≡ Ok value
        → IsEvent value × (bytes ≡ event value) }
    ensures only { (value : Event) → IsEvent value → whole event_at (event value) ≡ Ok value }
{}

/// One event has one encoding, and no encoding is a proper front of another.
pub fn events_have_one_encoding()
    ensures { HasOneEncoding event IsEvent }
{}
