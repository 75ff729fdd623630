//! Ids that stand twice.
ghost use Rattle.std.specs.Prelude.{◌≡◌, map};
ghost use Rattle.std.specs.List.{list_any};
ghost use Rattle.std.specs.Option.{option_map};
ghost use Rattle.serde_json.specs.View.{view};
ghost use Rattle.flow_definition.specs.Looks.{has_text};
ghost use Rattle.flow_definition.specs.Places.{part_path};
ghost use Rattle.flow_definition.specs.Rules.{doubled_id, is_doubled};

use crate::field::Field;
use crate::look::{has_text, text_at};
use crate::place::Part;
use serde_json::Value;

/// An id that stands in an object before this one.
pub(crate) fn doubled_id(earlier: &[Value], object: &Value) -> Option<Part<'static>>
    ensures { option_map part_path result ≡ doubled_id (map view earlier.now) (view object.now) }
{
    if is_doubled(earlier, object) {
        Some(Part::Field(Field::Id))
    } else {
        None
    }
}

fn is_doubled(earlier: &[Value], object: &Value) -> bool
    ensures { result ≡ is_doubled (map view earlier.now) (view object.now) }
{
    match text_at(object, Field::Id) {
        Some(id) => any_has_id(id, earlier),
        None => false,
    }
}

fn any_has_id(id: &str, items: &[Value]) -> bool
    ensures { result ≡ list_any (has_text Field.Id id.now) (map view items.now) }
{
    items.iter().any(|item| has_text(Field::Id, id, item))
}
