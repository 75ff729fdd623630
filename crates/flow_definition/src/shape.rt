//! Which values a field and a property may have: of which kind, and within which range.
ghost use Rattle.std.specs.Prelude.{◌≡◌, ◌≤◌, nat_le, length, map, IsTrue};
ghost use Rattle.std.specs.Char.{is_ascii_digit};
ghost use Rattle.std.specs.List.{list_all};
ghost use Rattle.std.specs.Str.Parse.{digits_value};
ghost use Rattle.serde_json.specs.View.{view};
ghost use Rattle.machine_model.specs.Sound.{is_id, are_distinct_texts, is_id_byte, within};
ghost use Rattle.flow_definition.specs.Looks.{is_object, list_items, text_or_empty};
ghost use Rattle.flow_definition.specs.Shapes.{has_shape, is_in_range, is_list_of_texts, are_prioritizers, is_prioritizer, is_of_set, number_of_digits, is_number_text, conflict_named, conflict_name, destination_named, destination_name, replace_strategy_named, replace_strategy_name, requirement_named, requirement_name, merge_strategy_named, merge_strategy_name, prioritizer_named};

use crate::field::Shape;
use crate::look::{are_texts, is_among, items_of, names_in, text_of};
use crate::processor_type::{Form, ReplaceStrategy};
use machine_model::{Conflict, Destination, MatchRequirement, MergeStrategy};
use prioritizer::Prioritizer;
use serde_json::Value;

/// Whether a value is of the kind that a field has.
pub(crate) fn has_shape(shape: Shape, value: &Value) -> bool
    ensures { result ≡ has_shape shape (view value.now) }
{
    match shape {
        Shape::Objects => value.is_array() && are_objects(items_of(value)),
        Shape::Id => match value.as_str() {
            Some(text) => is_id(text),
            None => false,
        },
        Shape::Text => value.is_string(),
        Shape::Number { .. } => value.is_number(),
        Shape::Properties => value.is_object(),
        Shape::Names => is_list_of_texts(value),
        Shape::SomeNames => is_list_of_texts(value) && has_items(value),
        Shape::Prioritizers => is_list_of_texts(value) && are_prioritizers(items_of(value)),
    }
}

/// Whether a number is a whole one, without sign, point and exponent, and within a field's range.
pub(crate) fn is_in_range(shape: Shape, value: &Value) -> bool
    ensures { result ≡ is_in_range shape (view value.now) }
{
    match shape {
        Shape::Number { least, most, .. } => match value.as_u64() {
            Some(number) => is_within(least, number, most),
            None => false,
        },
        _ => true,
    }
}

pub(crate) fn is_within(least: u64, number: u64, most: u64) -> bool
    ensures { result ≡ within least number most }
{
    least <= number && number <= most
}

fn is_id(text: &str) -> bool
    ensures { result ≡ is_id text.now }
{
    is_within(1, text.len() as u64, 64) && are_id_bytes(text.as_bytes())
}

fn are_id_bytes(bytes: &[u8]) -> bool
    ensures { result ≡ list_all is_id_byte bytes.now }
{
    bytes.iter().all(|c| is_id_byte(*c))
}

fn is_id_byte(c: u8) -> bool
    ensures { result ≡ is_id_byte c }
{
    (b'A' <= c && c <= b'Z')
        || (b'a' <= c && c <= b'z')
        || (b'0' <= c && c <= b'9')
        || c == b'_'
        || c == b'.'
        || c == b'-'
}

fn is_list_of_texts(value: &Value) -> bool
    ensures { result ≡ is_list_of_texts (view value.now) }
{
    value.is_array() && are_texts(items_of(value))
}

fn are_objects(items: &[Value]) -> bool
    ensures { result ≡ list_all is_object (map view items.now) }
{
    items.iter().all(|item| item.is_object())
}

fn has_items(value: &Value) -> bool
    ensures { result ≡ nat_le 1 (length (list_items (view value.now))) }
{
    items_of(value).len() >= 1
}

/// Whether the texts of a list are names of prioritizers, each once.
fn are_prioritizers(items: &[Value]) -> bool
    ensures { result ≡ are_prioritizers (map view items.now) }
{
    let names = names_in(items);
    are_all_prioritizers(names) && are_distinct(names)
}

fn are_all_prioritizers(names: &[Value]) -> bool
    ensures { result ≡ list_all is_prioritizer (map text_or_empty (map view names.now)) }
{
    names
        .iter()
        .all(|name| prioritizer_named(text_of(name)).is_some())
}

/// The prioritizer of this name.
pub(crate) fn prioritizer_named(name: &str) -> Option<Prioritizer>
    ensures { result ≡ prioritizer_named name.now }
{
    PRIORITIZERS
        .iter()
        .copied()
        .find(|prioritizer| prioritizer.name() == name)
}

const PRIORITIZERS: [Prioritizer; 4] = [
    Prioritizer::FirstInFirstOut,
    Prioritizer::NewestFlowFileFirst,
    Prioritizer::OldestFlowFileFirst,
    Prioritizer::PriorityAttribute,
];

/// Whether each text of a list stands once.
fn are_distinct(names: &[Value]) -> bool
    ensures { result ≡ are_distinct_texts (map text_or_empty (map view names.now)) }
{
    'names: for k in 0..names.len() {
        if is_among(text_of(&names[k]), &names[k + 1..]) {
            return false;
        }
    }
    true
}

/// Whether a text is of the set that a property has.
pub(crate) fn is_of_set(form: Form, text: &str) -> bool
    ensures { result ≡ is_of_set form text.now }
{
    match form {
        Form::Conflict => conflict_named(text).is_some(),
        Form::Destination => destination_named(text).is_some(),
        Form::ReplaceStrategy => replace_strategy_named(text).is_some(),
        Form::Requirement => requirement_named(text).is_some(),
        Form::MergeStrategy => merge_strategy_named(text).is_some(),
        _ => true,
    }
}

/// The way to settle a conflict that has this name.
pub(crate) fn conflict_named(name: &str) -> Option<Conflict>
    ensures { result ≡ conflict_named name.now }
{
    CONFLICTS
        .iter()
        .copied()
        .find(|conflict| conflict_name(*conflict) == name)
}

const CONFLICTS: [Conflict; 3] = [Conflict::Replace, Conflict::Ignore, Conflict::Fail];

fn conflict_name(conflict: Conflict) -> &'static str
    ensures { result.now ≡ conflict_name conflict }
{
    match conflict {
        Conflict::Replace => "replace",
        Conflict::Ignore => "ignore",
        Conflict::Fail => "fail",
    }
}

/// The place of this name where attributes are written.
pub(crate) fn destination_named(name: &str) -> Option<Destination>
    ensures { result ≡ destination_named name.now }
{
    DESTINATIONS
        .iter()
        .copied()
        .find(|destination| destination_name(*destination) == name)
}

const DESTINATIONS: [Destination; 2] = [Destination::Attribute, Destination::Content];

fn destination_name(destination: Destination) -> &'static str
    ensures { result.now ≡ destination_name destination }
{
    match destination {
        Destination::Attribute => "flowfile-attribute",
        Destination::Content => "flowfile-content",
    }
}

/// The way to replace that has this name.
pub(crate) fn replace_strategy_named(name: &str) -> Option<ReplaceStrategy>
    ensures { result ≡ replace_strategy_named name.now }
{
    REPLACE_STRATEGIES
        .iter()
        .copied()
        .find(|strategy| replace_strategy_name(*strategy) == name)
}

const REPLACE_STRATEGIES: [ReplaceStrategy; 2] = [ReplaceStrategy::Regex, ReplaceStrategy::Literal];

fn replace_strategy_name(strategy: ReplaceStrategy) -> &'static str
    ensures { result.now ≡ replace_strategy_name strategy }
{
    match strategy {
        ReplaceStrategy::Regex => "Regex Replace",
        ReplaceStrategy::Literal => "Literal Replace",
    }
}

/// The way to match a pattern that has this name.
pub(crate) fn requirement_named(name: &str) -> Option<MatchRequirement>
    ensures { result ≡ requirement_named name.now }
{
    REQUIREMENTS
        .iter()
        .copied()
        .find(|requirement| requirement_name(*requirement) == name)
}

const REQUIREMENTS: [MatchRequirement; 2] = [MatchRequirement::Exactly, MatchRequirement::Contains];

fn requirement_name(requirement: MatchRequirement) -> &'static str
    ensures { result.now ≡ requirement_name requirement }
{
    match requirement {
        MatchRequirement::Exactly => "content must match exactly",
        MatchRequirement::Contains => "content must contain match",
    }
}

/// The way to find the files that are joined that has this name.
pub(crate) fn merge_strategy_named(name: &str) -> Option<MergeStrategy>
    ensures { result ≡ merge_strategy_named name.now }
{
    MERGE_STRATEGIES
        .iter()
        .copied()
        .find(|strategy| merge_strategy_name(*strategy) == name)
}

const MERGE_STRATEGIES: [MergeStrategy; 2] = [MergeStrategy::BinPacking, MergeStrategy::Defragment];

fn merge_strategy_name(strategy: MergeStrategy) -> &'static str
    ensures { result.now ≡ merge_strategy_name strategy }
{
    match strategy {
        MergeStrategy::BinPacking => "Bin-Packing Algorithm",
        MergeStrategy::Defragment => "Defragment",
    }
}

/// Whether a text is 1 to 10 digits, and a number within a property's range.
pub(crate) fn is_number_text(form: Form, text: &str) -> bool
    ensures { result ≡ is_number_text form text.now }
{
    match form {
        Form::Number { least, most } => match number_in(text) {
            Some(number) => is_within(least, number, most),
            None => false,
        },
        _ => true,
    }
}

/// The number that 1 to 10 digits write.
pub(crate) fn number_in(text: &str) -> Option<u64>
    ensures { result ≡ number_of_digits text.now }
{
    if is_within(1, text.len() as u64, 10) && are_digits(text.as_bytes()) {
        Some(parsed(text))
    } else {
        None
    }
}

fn are_digits(bytes: &[u8]) -> bool
    ensures { result ≡ list_all is_ascii_digit bytes.now }
{
    bytes.iter().all(|c| c.is_ascii_digit())
}

fn parsed(text: &str) -> u64
    requires some { 1 ≤ length text.now }
    requires few { length text.now ≤ 10 }
    requires digits { IsTrue (list_all is_ascii_digit text.now) }
    ensures { result ≡ digits_value 10 text.now }
{
    text.parse::<u64>().unwrap()
}
