//! Looking into the objects of a flow's text.
ghost use Rattle.std.specs.Prelude.{◌≡◌, [], map};
ghost use Rattle.machine_model.specs.Kinds.{is_among};
ghost use Rattle.std.specs.List.{list_all};
ghost use Rattle.std.specs.Option.{option_map, option_map_or};
ghost use Rattle.serde_json.specs.View.{view, members_view};
ghost use Rattle.flow_definition.specs.Looks.{value_at, is_text, text_or_empty, field_text, has_text, list_items, list_items_at, texts_in, names_at, type_of, properties_in, fixed_relationships_in, processor_named, member_list, given_properties, given_value, given_text, own_in, is_fixed, others, own_properties_in, own_relationships_in, member_names};

use crate::field::Field;
use crate::processor_type::{Own, ProcessorType, Property};
use serde_json::{Map, Value};

/// What stands in a field.
pub(crate) fn value_at(object: &Value, field: Field) -> Option<&Value>
    ensures { option_map (λ value. view value.now) result ≡ value_at field (view object.now) }
{
    object.get(field.name())
}

/// The text in a field, where one stands there.
pub(crate) fn text_at(object: &Value, field: Field) -> Option<&str>
    ensures { option_map (λ text. text.now) result ≡ field_text field (view object.now) }
{
    match value_at(object, field) {
        Some(value) => value.as_str(),
        None => None,
    }
}

/// The items of a list, and none where it is no list.
#[tactic(auto, using(crate::proofs::Lists::list_of_view))]
pub(crate) fn items_of(value: &Value) -> &[Value]
    ensures { map view result.now ≡ list_items (view value.now) }
{
    match value.as_array() {
        Some(list) => list.as_slice(),
        None => &[],
    }
}

/// The items of the list in a field, where one stands there.
pub(crate) fn items_at(object: &Value, field: Field) -> &[Value]
    ensures { map view result.now ≡ list_items_at field (view object.now) }
{
    match value_at(object, field) {
        Some(value) => items_of(value),
        None => &[],
    }
}

/// Whether an object has this text in this field.
pub(crate) fn has_text(field: Field, text: &str, object: &Value) -> bool
    ensures { result ≡ has_text field text.now (view object.now) }
{
    match text_at(object, field) {
        Some(other) => text == other,
        None => false,
    }
}

/// A text, and nothing where it is none.
pub(crate) fn text_of(value: &Value) -> &str
    ensures { result.now ≡ text_or_empty (view value.now) }
{
    match value.as_str() {
        Some(text) => text,
        None => "",
    }
}

/// The items of a list of texts, and none where it has something else.
pub(crate) fn names_in(items: &[Value]) -> &[Value]
    ensures { map text_or_empty (map view result.now) ≡ texts_in (map view items.now) }
{
    if are_texts(items) { items } else { &[] }
}

/// Whether all items of a list are texts.
pub(crate) fn are_texts(items: &[Value]) -> bool
    ensures { result ≡ list_all is_text (map view items.now) }
{
    items.iter().all(|item| item.is_string())
}

/// The texts of the list in a field, where a list of texts stands there.
pub(crate) fn names_at(object: &Value, field: Field) -> &[Value]
    ensures { map text_or_empty (map view result.now) ≡ names_at field (view object.now) }
{
    names_in(items_at(object, field))
}

/// Whether a name is among the texts of a list.
pub(crate) fn is_among(name: &str, names: &[Value]) -> bool
    ensures { result ≡ is_among name.now (map text_or_empty (map view names.now)) }
{
    names.iter().any(|other| name == text_of(other))
}

/// The first processor with this id.
pub(crate) fn processor_named<'a>(top: &'a Value, id: &str) -> Option<&'a Value>
    ensures { option_map (λ processor. view processor.now) result ≡ processor_named (view top.now) id.now }
{
    items_at(top, Field::Processors)
        .iter()
        .find(|processor| has_text(Field::Id, id, processor))
}

/// The properties that a processor gives, where they are an object.
pub(crate) fn given(processor: &Value) -> Option<&Map<String, Value>>
    ensures { option_map_or (λ members. member_list (members_view members.now.entries)) result []
        ≡ given_properties (view processor.now) }
{
    match value_at(processor, Field::Properties) {
        Some(properties) => properties.as_object(),
        None => None,
    }
}

/// The value that a processor gives a property of this name.
pub(crate) fn given_at<'a>(name: &str, processor: &'a Value) -> Option<&'a Value>
    ensures { option_map (λ value. view value.now) result ≡ given_value name.now (view processor.now) }
{
    match value_at(processor, Field::Properties) {
        Some(properties) => properties.get(name),
        None => None,
    }
}

/// The text that a processor gives a property.
pub(crate) fn given_text(property: Property, processor: &Value) -> Option<&str>
    ensures { option_map (λ text. text.now) result ≡ given_text property (view processor.now) }
{
    match given_at(property.name(), processor) {
        Some(value) => value.as_str(),
        None => None,
    }
}

/// The properties of a processor's type, and none where it has no type.
pub(crate) fn properties_in(processor: &Value) -> &'static [Property]
    ensures { result.now ≡ properties_in (view processor.now) }
{
    match type_of(processor) {
        Some(kind) => kind.properties(),
        None => &[],
    }
}

/// The names of the fixed relationships of a processor's type, and none where it has no type.
pub(crate) fn fixed_relationships(processor: &Value) -> &'static [&'static str]
    ensures { map (λ name. name.now) result.now ≡ fixed_relationships_in (view processor.now) }
{
    match type_of(processor) {
        Some(kind) => kind.relationships(),
        None => &[],
    }
}

pub(crate) fn type_of(processor: &Value) -> Option<ProcessorType>
    ensures { result ≡ type_of (view processor.now) }
{
    match text_at(processor, Field::TypeName) {
        Some(name) => ProcessorType::named(name),
        None => None,
    }
}

/// What properties of a processor's own are, and nothing where it has no type.
pub(crate) fn own_in(processor: &Value) -> Own
    ensures { result ≡ own_in (view processor.now) }
{
    match type_of(processor) {
        Some(kind) => kind.own(),
        None => Own::Nothing,
    }
}

/// What a processor gives, where those beside the properties of its type are its own.
pub(crate) fn own_properties(processor: &Value) -> Option<&Map<String, Value>>
    ensures { option_map_or (λ members. others (properties_in (view processor.now))
        (member_list (members_view members.now.entries))) result [] ≡ own_properties_in (view processor.now) }
{
    match own_in(processor) {
        Own::Nothing => None,
        Own::Attributes => given(processor),
        Own::Relationships => given(processor),
        Own::AttributePatterns => given(processor),
        Own::RelationshipPatterns => given(processor),
    }
}

/// What a processor gives, where those beside the properties of its type make relationships.
pub(crate) fn own_relationships(processor: &Value) -> Option<&Map<String, Value>>
    ensures { option_map_or (λ members. member_names (others (properties_in (view processor.now))
        (member_list (members_view members.now.entries)))) result [] ≡ own_relationships_in (view processor.now) }
{
    match own_in(processor) {
        Own::Nothing => None,
        Own::Attributes => None,
        Own::Relationships => given(processor),
        Own::AttributePatterns => None,
        Own::RelationshipPatterns => given(processor),
    }
}

/// Whether a property of the type has this name.
pub(crate) fn is_fixed(name: &str, properties: &[Property]) -> bool
    ensures { result ≡ is_fixed properties.now name.now }
{
    properties.iter().any(|property| property.name() == name)
}

/// Whether a name is among some names.
pub(crate) fn is_one_of(name: &str, names: &[&'static str]) -> bool
    ensures { result ≡ is_among name.now (map (λ name. name.now) names.now) }
{
    names.iter().any(|other| name == *other)
}
