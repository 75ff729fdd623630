//! Reading the parts of a flow.
ghost use Rattle.std.specs.Prelude.{◌≡◌, ◌≤◌, ◌<◌, position, map, IfOk, string_bytes};
ghost use Rattle.std.specs.List.{filter_map};
ghost use Rattle.serde_json.specs.View.{view};
ghost use Rattle.flow_definition.specs.Looks.{text_or_empty, has_text, names_at, property_text, list_items_at};
ghost use Rattle.flow_definition.specs.Reading.{number_in_range, shape_number, field_number, id_at, generated_count, conflict_in, copies_in, destination_in, number_held, property_number, replace_strategy_in, requirement_in, merge_strategy_in, place_below, place_at, connection_of};
ghost use Rattle.flow_definition.specs.Shapes.{prioritizer_named};

use crate::field::{Field, Shape};
use crate::look::{given_text, has_text, items_at, names_at, text_at, text_of, value_at};
use crate::processor_type::{Form, Property, ReplaceStrategy};
use crate::shape::{
    conflict_named, destination_named, is_within, merge_strategy_named, number_in,
    prioritizer_named, replace_strategy_named, requirement_named,
};
use flowfile_record::{Text, TextList};
use machine_model::{
    COPIES_MAX, Conflict, Connection, Destination, GENERATED_MAX, MatchRequirement, MergeStrategy,
    PROCESSORS_MAX, QueueLimits,
};
use prioritizer::{Order, Prioritizer};
use serde_json::Value;
use std::alloc::{AllocError, Global};

fn number_or(default: u64, least: u64, most: u64, given: Option<u64>) -> u64
    requires { default ≤ most }
    ensures value { result ≡ number_in_range default least most given }
    ensures most { result ≤ most }
{
    match given {
        Some(number) if is_within(least, number, most) => number,
        _ => default,
    }
}

/// The number in a field, or what a missing one stands for.
fn number_at(object: &Value, field: Field) -> u64
    ensures { result ≡ field_number field (view object.now) }
{
    let given = match value_at(object, field) {
        Some(value) => value.as_u64(),
        None => None,
    };
    number_of(field.shape(), given)
}

fn number_of(shape: Shape, given: Option<u64>) -> u64
    ensures { result ≡ shape_number shape given }
{
    match shape {
        Shape::Number {
            least,
            most,
            default,
        } => match given {
            Some(number) if is_within(least, number, most) => number,
            _ => default,
        },
        _ => 0,
    }
}

pub(crate) fn tasks_at(processor: &Value) -> u8
    ensures { result ≡ field_number Field.Tasks (view processor.now) }
{
    number_at(processor, Field::Tasks) as u8
}

pub(crate) fn penalty_at(processor: &Value) -> u64
    ensures { result ≡ field_number Field.Penalty (view processor.now) }
{
    number_at(processor, Field::Penalty)
}

/// The text in a field.
pub(crate) fn id_at(alloc: Global, object: &Value, field: Field) -> Result<Text, AllocError>
    ensures { IfOk result (λ text. text ≡ id_at field (view object.now)) }
{
    match text_at(object, field) {
        Some(text) => Text::from_str(alloc, text),
        None => Text::from_str(alloc, ""),
    }
}

/// The texts of the list in a field.
pub(crate) fn texts_at(alloc: Global, object: &Value, field: Field) -> Result<TextList, AllocError>
    ensures { IfOk result (λ texts. texts ≡ names_at field (view object.now)) }
{
    let texts = copied(alloc, names_at(object, field))?;
    Ok(TextList::from(texts))
}

fn copied(alloc: Global, names: &[Value]) -> Result<Vec<Text>, AllocError>
    ensures { IfOk result (λ texts. texts.items ≡ map text_or_empty (map view names.now)) }
{
    let mut texts = Vec::new(alloc);
    'names: for name in names {
        texts.push(Text::from_str(alloc, text_of(name))?)?;
    }
    Ok(texts)
}

/// The text of a property, or what a missing one stands for.
pub(crate) fn property_text(property: Property, processor: &Value) -> &str
    ensures { result.now ≡ property_text property (view processor.now) }
{
    match given_text(property, processor) {
        Some(text) => text,
        None => property.default().unwrap_or(""),
    }
}

pub(crate) fn count_in(processor: &Value) -> u32
    ensures { result ≡ generated_count (view processor.now) }
{
    number_or(
        0,
        0,
        GENERATED_MAX,
        number_in(property_text(Property::Count, processor)),
    ) as u32
}

pub(crate) fn conflict_in(processor: &Value) -> Conflict
    ensures { result ≡ conflict_in (view processor.now) }
{
    conflict_named(property_text(Property::ConflictResolution, processor)).unwrap_or(Conflict::Fail)
}

pub(crate) fn copies_in(processor: &Value) -> u16
    ensures { result ≡ copies_in (view processor.now) }
{
    number_or(
        100,
        1,
        COPIES_MAX,
        number_in(property_text(Property::Copies, processor)),
    ) as u16
}

/// The number that a property holds.
pub(crate) fn number_by(property: Property, processor: &Value) -> u64
    ensures { result ≡ property_number property (view processor.now) }
{
    number_held(
        property.form(),
        number_in(property_text(property, processor)),
    )
}

fn number_held(form: Form, given: Option<u64>) -> u64
    ensures { result ≡ number_held form given }
{
    match form {
        Form::Number { least, most } => match given {
            Some(number) if is_within(least, number, most) => number,
            _ => least,
        },
        _ => 0,
    }
}

/// How many lines a part of a text has.
pub(crate) fn lines_in(processor: &Value) -> u32
    ensures { result ≡ property_number Property.LineSplitCount (view processor.now) }
{
    number_by(Property::LineSplitCount, processor) as u32
}

pub(crate) fn destination_in(processor: &Value) -> Destination
    ensures { result ≡ destination_in (view processor.now) }
{
    destination_named(property_text(Property::JsonDestination, processor)).unwrap_or(
        Destination::Attribute,
    )
}

pub(crate) fn replace_strategy_in(processor: &Value) -> ReplaceStrategy
    ensures { result ≡ replace_strategy_in (view processor.now) }
{
    replace_strategy_named(property_text(Property::ReplacementStrategy, processor)).unwrap_or(
        ReplaceStrategy::Regex,
    )
}

pub(crate) fn requirement_in(processor: &Value) -> MatchRequirement
    ensures { result ≡ requirement_in (view processor.now) }
{
    requirement_named(property_text(Property::Requirement, processor)).unwrap_or(
        MatchRequirement::Exactly,
    )
}

pub(crate) fn merge_strategy_in(processor: &Value) -> MergeStrategy
    ensures { result ≡ merge_strategy_in (view processor.now) }
{
    merge_strategy_named(property_text(Property::MergeStrategy, processor)).unwrap_or(
        MergeStrategy::BinPacking,
    )
}

/// How many files are joined at least.
pub(crate) fn minimum_in(processor: &Value) -> u32
    ensures { result ≡ property_number Property.MinimumEntries (view processor.now) }
{
    number_by(Property::MinimumEntries, processor) as u32
}

/// How many files are joined at most.
pub(crate) fn maximum_in(processor: &Value) -> u32
    ensures { result ≡ property_number Property.MaximumEntries (view processor.now) }
{
    number_by(Property::MaximumEntries, processor) as u32
}

/// The place of the processor with the id in a field.
fn place_at(top: &Value, object: &Value, field: Field) -> u16
    ensures { result ≡ place_at (view top.now) field (view object.now) }
{
    match text_at(object, field) {
        Some(id) => place_named(top, id),
        None => place_named(top, ""),
    }
}

fn place_named(top: &Value, id: &str) -> u16
    ensures { result
        ≡ place_below (position (has_text Field.Id id.now) (list_items_at Field.Processors (view top.now))) }
{
    place_below(place_of(id, items_at(top, Field::Processors)))
}

fn place_below(place: Option<usize>) -> u16
    ensures { result ≡ place_below place }
{
    match place {
        Some(place) if (place as u64) < PROCESSORS_MAX => place as u16,
        _ => 0,
    }
}

fn place_of(id: &str, items: &[Value]) -> Option<usize>
    ensures { result ≡ position (has_text Field.Id id.now) (map view items.now) }
{
    place_in(id, items)
}

fn place_in(id: &str, items: &[Value]) -> Option<usize>
    ensures { result ≡ position (λ item. has_text Field.Id id.now (view item)) items.now }
{
    items.iter().position(|item| has_text(Field::Id, id, item))
}

fn order_at(alloc: Global, connection: &Value) -> Result<Order, AllocError>
    ensures { IfOk result (λ order. order
        ≡ filter_map prioritizer_named (names_at Field.Prioritizers (view connection.now))) }
{
    let list = prioritizers(alloc, names_at(connection, Field::Prioritizers))?;
    Ok(Order::new(list))
}

fn prioritizers(alloc: Global, names: &[Value]) -> Result<Vec<Prioritizer>, AllocError>
    ensures { IfOk result (λ list. list.items ≡ filter_map prioritizer_named (map text_or_empty (map view names.now))) }
{
    let mut list = Vec::new(alloc);
    'names: for name in names {
        if let Some(prioritizer) = prioritizer_named(text_of(name)) {
            list.push(prioritizer)?;
        }
    }
    Ok(list)
}

fn limits_at(connection: &Value) -> QueueLimits
    ensures { result ≡ record {
      expiration = field_number Field.Expiration (view connection.now);
      objects = field_number Field.Objects (view connection.now);
      bytes = field_number Field.Bytes (view connection.now);
      swap = field_number Field.Swap (view connection.now);
    } }
{
    QueueLimits {
        expiration: number_at(connection, Field::Expiration),
        objects: number_at(connection, Field::Objects),
        bytes: number_at(connection, Field::Bytes),
        swap: swap_at(connection),
    }
}

fn swap_at(connection: &Value) -> u32
    ensures { result ≡ field_number Field.Swap (view connection.now) }
{
    number_at(connection, Field::Swap) as u32
}

/// The connections of a flow.
pub(crate) fn connections_of(alloc: Global, top: &Value) -> Result<Vec<Connection>, AllocError>
    ensures { IfOk result (λ list. list.items
        ≡ map (connection_of (view top.now)) (list_items_at Field.Connections (view top.now))) }
{
    connections_in(alloc, top, items_at(top, Field::Connections))
}

fn connections_in(
    alloc: Global,
    top: &Value,
    items: &[Value],
) -> Result<Vec<Connection>, AllocError>
    ensures { IfOk result (λ list. list.items ≡ map (connection_of (view top.now)) (map view items.now)) }
{
    let mut list = Vec::new(alloc);
    'items: for item in items {
        list.push(connection_of(alloc, top, item)?)?;
    }
    Ok(list)
}

fn connection_of(alloc: Global, top: &Value, connection: &Value) -> Result<Connection, AllocError>
    ensures { IfOk result (λ made. made ≡ connection_of (view top.now) (view connection.now)) }
{
    let id = id_at(alloc, connection, Field::Id)?;
    let relationships = texts_at(alloc, connection, Field::Relationships)?;
    let order = order_at(alloc, connection)?;
    Ok(Connection {
        id,
        source: place_at(top, connection, Field::From),
        relationships,
        target: place_at(top, connection, Field::To),
        order,
        limits: limits_at(connection),
    })
}
