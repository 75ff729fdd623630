//! Too many processors, connections, connections of one relationship, or properties of a processor's own.
ghost use Rattle.std.specs.Prelude.{◌≡◌, ◌&&◌, not, count_by, length, map};
ghost use Rattle.std.specs.List.{list_any};
ghost use Rattle.std.specs.Option.{option_map};
ghost use Rattle.serde_json.specs.View.{view, members_view};
ghost use Rattle.flow_definition.specs.Looks.{is_fixed, others, own_relationships_in, own_properties_in, properties_in, member_names, member_list};
ghost use Rattle.flow_definition.specs.Places.{part_path};
ghost use Rattle.flow_definition.specs.Rules.{too_many, too_many_own, are_connections_too_many, is_crowded, connection_carries, has_crowded};

use super::connected::carries;
use crate::field::Field;
use crate::look::{
    fixed_relationships, is_fixed, items_at, own_properties, own_relationships, properties_in,
};
use crate::place::Part;
use crate::processor_type::Property;
use machine_model::{CONNECTIONS_MAX, FAN_OUT_MAX, OWN_PROPERTIES_MAX, PROCESSORS_MAX};
use serde_json::{Map, Value};

/// A list that is too long, or that has too many connections of one relationship.
pub(crate) fn too_many(top: &Value) -> Option<Part<'static>>
    ensures { option_map part_path result ≡ too_many (view top.now) }
{
    if items_at(top, Field::Processors).len() as u64 > PROCESSORS_MAX {
        Some(Part::Field(Field::Processors))
    } else if are_connections_too_many(top) {
        Some(Part::Field(Field::Connections))
    } else {
        None
    }
}

/// The properties of a processor, where too many are its own.
pub(crate) fn too_many_own(processor: &Value) -> Option<Part<'static>>
    ensures { option_map part_path result ≡ too_many_own (view processor.now) }
{
    if own_count(processor) > OWN_PROPERTIES_MAX {
        Some(Part::Field(Field::Properties))
    } else {
        None
    }
}

fn own_count(processor: &Value) -> u64
    ensures { result ≡ length (own_properties_in (view processor.now)) }
{
    match own_properties(processor) {
        Some(members) => count_others(properties_in(processor), members),
        None => 0,
    }
}

fn count_others(properties: &[Property], members: &Map<String, Value>) -> u64
    ensures { result ≡ length (others properties.now (member_list (members_view members.now.entries))) }
{
    members
        .keys()
        .filter(|name| !is_fixed(name.as_str(), properties))
        .count() as u64
}

fn are_connections_too_many(top: &Value) -> bool
    ensures { result ≡ are_connections_too_many (view top.now) }
{
    items_at(top, Field::Connections).len() as u64 > CONNECTIONS_MAX
        || any_has_crowded(top, items_at(top, Field::Processors))
}

fn any_has_crowded(top: &Value, processors: &[Value]) -> bool
    ensures { result ≡ list_any (has_crowded (view top.now)) (map view processors.now) }
{
    processors
        .iter()
        .any(|processor| has_crowded(top, processor))
}

fn has_crowded(top: &Value, processor: &Value) -> bool
    ensures { result ≡ has_crowded (view top.now) (view processor.now) }
{
    has_crowded_own(top, processor) || any_crowded(top, processor, fixed_relationships(processor))
}

fn has_crowded_own(top: &Value, processor: &Value) -> bool
    ensures { result
        ≡ list_any (is_crowded (view top.now) (view processor.now)) (own_relationships_in (view processor.now)) }
{
    match own_relationships(processor) {
        Some(members) => any_own_crowded(top, processor, members),
        None => false,
    }
}

fn any_own_crowded(top: &Value, processor: &Value, members: &Map<String, Value>) -> bool
    ensures { result ≡ list_any (is_crowded (view top.now) (view processor.now))
        (member_names (others (properties_in (view processor.now)) (member_list (members_view members.now.entries)))) }
{
    let fixed = properties_in(processor);
    members.keys().any(|name| is_other_crowded(top, processor, fixed, name.as_str()))
}

/// Whether a name that is no property's is that of a relationship with too many connections.
fn is_other_crowded(top: &Value, processor: &Value, fixed: &[Property], name: &str) -> bool
    ensures { result ≡ (not (is_fixed fixed.now name.now) && is_crowded (view top.now) (view processor.now) name.now) }
{
    !is_fixed(name, fixed) && is_crowded(top, processor, name)
}

fn any_crowded(top: &Value, processor: &Value, names: &[&'static str]) -> bool
    ensures { result ≡ list_any (is_crowded (view top.now) (view processor.now)) (map (λ name. name.now) names.now) }
{
    names.iter().any(|name| is_crowded(top, processor, name))
}

fn is_crowded(top: &Value, processor: &Value, name: &str) -> bool
    ensures { result ≡ is_crowded (view top.now) (view processor.now) name.now }
{
    count(processor, name, items_at(top, Field::Connections)) > FAN_OUT_MAX
}

#[tactic(auto, using(crate::proofs::Lists::count_by_map))]
fn count(processor: &Value, name: &str, connections: &[Value]) -> u64
    ensures { result ≡ count_by (connection_carries (view processor.now) name.now) (map view connections.now) }
{
    count_carrying(processor, name, connections) as u64
}

fn count_carrying(processor: &Value, name: &str, connections: &[Value]) -> usize
    ensures { result ≡ count_by
        (λ connection. connection_carries (view processor.now) name.now (view connection)) connections.now }
{
    connections
        .iter()
        .filter(|connection| carries(processor, name, connection))
        .count()
}
