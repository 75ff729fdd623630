//! Relationships that lead nowhere or twice, and names of relationships that there aren't.
ghost use Rattle.std.specs.Prelude.{◌≡◌, [], map};
ghost use Rattle.std.specs.List.{list_any};
ghost use Rattle.std.specs.Option.{option_map};
ghost use Rattle.machine_model.specs.Kinds.{is_among};
ghost use Rattle.serde_json.specs.View.{view, members_view};
ghost use Rattle.flow_definition.specs.Looks.{text_or_empty, member_names, member_list, others, others_in, own_relationships_in, properties_in, relationships_in};
ghost use Rattle.flow_definition.specs.Places.{part_path};
ghost use Rattle.flow_definition.specs.Rules.{leaves, connection_carries, is_connected, is_loose, in_item, is_wrong, wrong_name, wrong_item, unconnected, not_of_source};

use crate::field::Field;
use crate::look::{
    fixed_relationships, given_at, has_text, is_among, is_fixed, is_one_of, items_at, names_at,
    own_in, own_relationships, processor_named, properties_in, text_at, text_of, type_of,
};
use crate::place::Part;
use crate::processor_type::Own;
use serde_json::{Map, Value};

/// A processor with a relationship that leads nowhere or is terminated and leads somewhere, or the place of a name
/// in its list of terminated relationships that is wrong.
pub(crate) fn unconnected(top: &Value, processor: &Value) -> Option<Part<'static>>
    ensures { option_map part_path result ≡ unconnected (view top.now) (view processor.now) }
{
    if has_loose(top, processor) {
        Some(Part::Whole)
    } else {
        wrong_item(Field::Terminated, Some(processor), processor)
    }
}

/// The place of a name in a connection's list of relationships that is wrong.
pub(crate) fn not_of_source(top: &Value, connection: &Value) -> Option<Part<'static>>
    ensures { option_map part_path result ≡ not_of_source (view top.now) (view connection.now) }
{
    match text_at(connection, Field::From) {
        Some(id) => wrong_item(Field::Relationships, processor_named(top, id), connection),
        None => None,
    }
}

fn has_loose(top: &Value, processor: &Value) -> bool
    ensures { result ≡ list_any (is_loose (view top.now) (view processor.now)) (relationships_in (view processor.now)) }
{
    has_loose_own(top, processor) || any_loose(top, processor, fixed_relationships(processor))
}

fn has_loose_own(top: &Value, processor: &Value) -> bool
    ensures { result
        ≡ list_any (is_loose (view top.now) (view processor.now)) (own_relationships_in (view processor.now)) }
{
    match own_relationships(processor) {
        Some(members) => any_own_loose(top, processor, members),
        None => false,
    }
}

fn any_own_loose(top: &Value, processor: &Value, members: &Map<String, Value>) -> bool
    ensures { result ≡ list_any (is_loose (view top.now) (view processor.now))
        (member_names (others (properties_in (view processor.now)) (member_list (members_view members.now.entries)))) }
{
    let fixed = properties_in(processor);
    members.keys().any(|name| !is_fixed(name.as_str(), fixed)
        && is_loose(top, processor, name.as_str()))
}

fn any_loose(top: &Value, processor: &Value, names: &[&'static str]) -> bool
    ensures { result ≡ list_any (is_loose (view top.now) (view processor.now)) (map (λ name. name.now) names.now) }
{
    names.iter().any(|name| is_loose(top, processor, name))
}

fn is_loose(top: &Value, processor: &Value, name: &str) -> bool
    ensures { result ≡ is_loose (view top.now) (view processor.now) name.now }
{
    if is_among(name, names_at(processor, Field::Terminated)) {
        is_connected(top, processor, name)
    } else {
        !is_connected(top, processor, name)
    }
}

fn is_connected(top: &Value, processor: &Value, name: &str) -> bool
    ensures { result ≡ is_connected (view top.now) (view processor.now) name.now }
{
    any_carries(processor, name, items_at(top, Field::Connections))
}

fn any_carries(processor: &Value, name: &str, connections: &[Value]) -> bool
    ensures { result ≡ list_any (connection_carries (view processor.now) name.now) (map view connections.now) }
{
    connections
        .iter()
        .any(|connection| carries(processor, name, connection))
}

/// Whether a connection leads from a processor, and this relationship with it.
pub(crate) fn carries(processor: &Value, name: &str, connection: &Value) -> bool
    ensures { result ≡ connection_carries (view processor.now) name.now (view connection.now) }
{
    leaves(processor, connection) && is_among(name, names_at(connection, Field::Relationships))
}

fn leaves(processor: &Value, connection: &Value) -> bool
    ensures { result ≡ leaves (view processor.now) (view connection.now) }
{
    match text_at(processor, Field::Id) {
        Some(id) => has_text(Field::From, id, connection),
        None => false,
    }
}

/// The place of the first name in a field that is no relationship of a processor, or that stands earlier there.
fn wrong_item(field: Field, processor: Option<&Value>, object: &Value) -> Option<Part<'static>>
    ensures { option_map part_path result
        ≡ wrong_item field (option_map (λ processor. view processor.now) processor.entry) (view object.now) }
{
    match processor {
        Some(processor) => match type_of(processor) {
            Some(_) => in_item(field, wrong_name(processor, names_at(object, field))),
            None => None,
        },
        None => None,
    }
}

fn in_item(field: Field, place: Option<usize>) -> Option<Part<'static>>
    ensures { option_map part_path result ≡ option_map (in_item field) place }
{
    match place {
        Some(place) => Some(Part::Item(field, place)),
        None => None,
    }
}

fn wrong_name(processor: &Value, names: &[Value]) -> Option<usize>
    ensures { result
        ≡ wrong_name (relationships_in (view processor.now)) [] (map text_or_empty (map view names.now)) }
{
    'names: for (place, name) in names.iter().enumerate() {
        if is_wrong(processor, &names[..place], text_of(name)) {
            return Some(place);
        }
    }
    None
}

/// Whether a name is no relationship, or stands earlier.
fn is_wrong(processor: &Value, earlier: &[Value], name: &str) -> bool
    ensures { result ≡ is_wrong
        (relationships_in (view processor.now)) (map text_or_empty (map view earlier.now)) name.now }
{
    !is_relationship(name, processor) || is_among(name, earlier)
}

fn is_relationship(name: &str, processor: &Value) -> bool
    ensures { result ≡ is_among name.now (relationships_in (view processor.now)) }
{
    is_own_relationship(name, processor) || is_one_of(name, fixed_relationships(processor))
}

/// Whether a processor gives a property of this name that is none of its type.
fn is_other(name: &str, processor: &Value) -> bool
    ensures { result ≡ is_among name.now (member_names (others_in (view processor.now))) }
{
    !is_fixed(name, properties_in(processor)) && given_at(name, processor).is_some()
}

fn is_own_relationship(name: &str, processor: &Value) -> bool
    ensures { result ≡ is_among name.now (own_relationships_in (view processor.now)) }
{
    match own_in(processor) {
        Own::Nothing => false,
        Own::Attributes => false,
        Own::Relationships => is_other(name, processor),
        Own::AttributePatterns => false,
        Own::RelationshipPatterns => is_other(name, processor),
    }
}
