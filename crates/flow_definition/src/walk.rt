//! The walk through a text: the first place at which a rule is broken, and the first broken rule.
ghost use Rattle.std.specs.Prelude.{◌≡◌, [], map};
ghost use Rattle.std.specs.Option.{option_map, option_or};
ghost use Rattle.serde_json.specs.View.{view};
ghost use Rattle.flow_definition.specs.Looks.{list_items_at};
ghost use Rattle.flow_definition.specs.Places.{part_path, place_path, broken_path};
ghost use Rattle.flow_definition.specs.Walk.{in_top, in_processor, in_connection, in_level, in_object, in_list_item, first_broken_in, first_broken_place, first_broken};

use crate::field::{Field, Level};
use crate::look::items_at;
use crate::place::{Broken, Part, Place};
use crate::rule::Rule;
use crate::rules::{
    bad_number, bad_number_property, bad_property, doubled_id, misshapen_field, missing_field,
    missing_property, not_of_source, too_many, too_many_own, unconnected, unknown_end,
    unknown_field, unknown_type,
};
use serde_json::Value;

/// The first of some rules that is broken, and where.
pub(crate) fn first_of<'a>(rules: &[Rule], top: &'a Value) -> Option<Broken<'a>>
    ensures { option_map broken_path result ≡ first_broken rules.now (view top.now) }
{
    'rules: for rule in rules {
        if let Some(place) = first_place(*rule, top) {
            return Some(Broken { rule: *rule, place });
        }
    }
    None
}

/// The first place at which a rule is broken.
fn first_place(rule: Rule, top: &Value) -> Option<Place<'_>>
    ensures { option_map place_path result ≡ first_broken_place rule (view top.now) }
{
    if let Some(part) = in_top(rule, top) {
        return Some(Place { item: None, part });
    }
    let processors = items_at(top, Field::Processors);
    if let Some(place) = first_in(Level::Processor, Field::Processors, rule, top, processors) {
        return Some(place);
    }
    let connections = items_at(top, Field::Connections);
    first_in(
        Level::Connection,
        Field::Connections,
        rule,
        top,
        connections,
    )
}

fn in_top(rule: Rule, top: &Value) -> Option<Part<'_>>
    ensures { option_map part_path result ≡ in_top rule (view top.now) }
{
    match rule {
        Rule::MissingField => missing_field(Level::Top, top),
        Rule::BadProperty => misshapen_field(Level::Top, top),
        Rule::TooMany => too_many(top),
        Rule::UnknownField => unknown_field(Level::Top, top),
        _ => None,
    }
}

fn first_in<'a>(
    level: Level,
    list: Field,
    rule: Rule,
    top: &'a Value,
    items: &'a [Value],
) -> Option<Place<'a>>
    ensures { option_map place_path result
        ≡ first_broken_in (in_level level rule (view top.now)) list [] (map view items.now) }
{
    'items: for (place, item) in items.iter().enumerate() {
        if let Some(part) = in_object(level, rule, top, &items[..place], item) {
            return Some(Place {
                item: Some((list, place)),
                part,
            });
        }
    }
    None
}

fn in_object<'a>(
    level: Level,
    rule: Rule,
    top: &Value,
    earlier: &[Value],
    item: &'a Value,
) -> Option<Part<'a>>
    ensures { option_map part_path result
        ≡ in_object (in_level level rule (view top.now)) (map view earlier.now) (view item.now) }
{
    if !item.is_object() {
        return None;
    }
    match level {
        Level::Top => None,
        Level::Processor => in_processor(rule, top, earlier, item),
        Level::Connection => in_connection(rule, top, earlier, item),
    }
}

fn in_processor<'a>(
    rule: Rule,
    top: &Value,
    earlier: &[Value],
    processor: &'a Value,
) -> Option<Part<'a>>
    ensures { option_map part_path result
        ≡ in_processor rule (view top.now) (map view earlier.now) (view processor.now) }
{
    match rule {
        Rule::MissingField => either(
            missing_field(Level::Processor, processor),
            missing_property(processor),
        ),
        Rule::UnknownType => unknown_type(processor),
        Rule::DoubleId => doubled_id(earlier, processor),
        Rule::RelationshipUnconnected => unconnected(top, processor),
        Rule::BadProperty => either(
            misshapen_field(Level::Processor, processor),
            bad_property(processor),
        ),
        Rule::TooMany => too_many_own(processor),
        Rule::UnknownField => unknown_field(Level::Processor, processor),
        Rule::BadNumber => either(
            bad_number(Level::Processor, processor),
            bad_number_property(processor),
        ),
        _ => None,
    }
}

fn either<'a>(first: Option<Part<'a>>, second: Option<Part<'a>>) -> Option<Part<'a>>
    ensures { option_map part_path result
        ≡ option_or (option_map part_path first.entry) (option_map part_path second.entry) }
{
    match first {
        Some(part) => Some(part),
        None => second,
    }
}

fn in_connection<'a>(
    rule: Rule,
    top: &Value,
    earlier: &[Value],
    connection: &'a Value,
) -> Option<Part<'a>>
    ensures { option_map part_path result
        ≡ in_connection rule (view top.now) (map view earlier.now) (view connection.now) }
{
    match rule {
        Rule::MissingField => missing_field(Level::Connection, connection),
        Rule::DoubleId => doubled_id(earlier, connection),
        Rule::UnknownEnd => unknown_end(top, connection),
        Rule::RelationshipUnconnected => not_of_source(top, connection),
        Rule::BadProperty => misshapen_field(Level::Connection, connection),
        Rule::UnknownField => unknown_field(Level::Connection, connection),
        Rule::BadNumber => bad_number(Level::Connection, connection),
        _ => None,
    }
}
