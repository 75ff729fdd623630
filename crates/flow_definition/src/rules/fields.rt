//! Fields that are missing, that hold another kind of value or a wrong number, and that are none.
ghost use Rattle.std.specs.Prelude.{◌≡◌, find, string_bytes};
ghost use Rattle.std.specs.Option.{option_map};
ghost use Rattle.serde_json.specs.View.{view, members_view};
ghost use Rattle.flow_definition.specs.Fields.{fields_of};
ghost use Rattle.flow_definition.specs.Looks.{member_list, member_names};
ghost use Rattle.flow_definition.specs.Places.{part_path};
ghost use Rattle.flow_definition.specs.Rules.{missing_field, misshapen_field, bad_number, unknown_field, in_field, in_unknown, is_missing, is_misshapen, is_bad_number, is_unknown};

use crate::field::{Field, Level};
use crate::look::value_at;
use crate::place::Part;
use crate::shape::{has_shape, is_in_range};
use serde_json::{Map, Value};

fn in_field(field: Option<Field>) -> Option<Part<'static>>
    ensures { option_map part_path result ≡ option_map in_field field }
{
    match field {
        Some(field) => Some(Part::Field(field)),
        None => None,
    }
}

pub(crate) fn missing_field(level: Level, object: &Value) -> Option<Part<'_>>
    ensures { option_map part_path result ≡ missing_field level (view object.now) }
{
    in_field(first_missing(level, object))
}

fn first_missing(level: Level, object: &Value) -> Option<Field>
    ensures { result ≡ find (is_missing (view object.now)) (fields_of level) }
{
    level
        .fields()
        .iter()
        .copied()
        .find(|field| is_missing(object, *field))
}

fn is_missing(object: &Value, field: Field) -> bool
    ensures { result ≡ is_missing (view object.now) field }
{
    field.is_required() && value_at(object, field).is_none()
}

pub(crate) fn misshapen_field(level: Level, object: &Value) -> Option<Part<'_>>
    ensures { option_map part_path result ≡ misshapen_field level (view object.now) }
{
    in_field(first_misshapen(level, object))
}

fn first_misshapen(level: Level, object: &Value) -> Option<Field>
    ensures { result ≡ find (is_misshapen (view object.now)) (fields_of level) }
{
    level
        .fields()
        .iter()
        .copied()
        .find(|field| is_misshapen(object, *field))
}

fn is_misshapen(object: &Value, field: Field) -> bool
    ensures { result ≡ is_misshapen (view object.now) field }
{
    match value_at(object, field) {
        Some(value) => !has_shape(field.shape(), value),
        None => false,
    }
}

pub(crate) fn bad_number(level: Level, object: &Value) -> Option<Part<'_>>
    ensures { option_map part_path result ≡ bad_number level (view object.now) }
{
    in_field(first_bad_number(level, object))
}

fn first_bad_number(level: Level, object: &Value) -> Option<Field>
    ensures { result ≡ find (is_bad_number (view object.now)) (fields_of level) }
{
    level
        .fields()
        .iter()
        .copied()
        .find(|field| is_bad_number(object, *field))
}

fn is_bad_number(object: &Value, field: Field) -> bool
    ensures { result ≡ is_bad_number (view object.now) field }
{
    match value_at(object, field) {
        Some(value) => value.is_number() && !is_in_range(field.shape(), value),
        None => false,
    }
}

pub(crate) fn unknown_field(level: Level, object: &Value) -> Option<Part<'_>>
    ensures { option_map part_path result ≡ unknown_field level (view object.now) }
{
    match object.as_object() {
        Some(members) => in_unknown(first_unknown(level, members)),
        None => None,
    }
}

fn first_unknown(level: Level, members: &Map<String, Value>) -> Option<&String>
    ensures { option_map (λ name. string_bytes name.now) result
        ≡ find (is_unknown level) (member_names (member_list (members_view members.now.entries))) }
{
    members.keys().find(|name| is_unknown(level, name.as_str()))
}

fn in_unknown(name: Option<&String>) -> Option<Part<'_>>
    ensures { option_map part_path result ≡ option_map (λ name. in_unknown (string_bytes name.now)) name.entry }
{
    match name {
        Some(name) => Some(Part::Unknown(name.as_str())),
        None => None,
    }
}

fn is_unknown(level: Level, name: &str) -> bool
    ensures { result ≡ is_unknown level name.now }
{
    !level.fields().iter().any(|field| field.name() == name)
}
