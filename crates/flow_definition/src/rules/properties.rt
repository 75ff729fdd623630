//! Types that there aren't, and properties that are missing, none of the type, or out of their set or range.
ghost use Rattle.std.specs.Prelude.{◌≡◌, bytes_eq, false, find, map, not};
ghost use Rattle.std.specs.Option.{option_map, option_map_or};
ghost use Rattle.serde_json.specs.Find.{as_str};
ghost use Rattle.serde_json.specs.View.{view, members_view};
ghost use Rattle.flow_definition.specs.Looks.{given_text, member_list};
ghost use Rattle.flow_definition.specs.Places.{part_path};
ghost use Rattle.flow_definition.specs.Rules.{unknown_type, may_give, is_missing_property, missing_property, is_bad_property, is_empty_search, property_may_hold, is_own_property, may_be_own, bad_property, is_above, is_above_most, is_bad_number_property, bad_number_property, in_property};
ghost use Rattle.flow_definition.specs.Shapes.{is_number_text};
ghost use Rattle.flow_definition.specs.Types.{property_name, form_of};

use crate::field::Field;
use crate::look::{
    fixed_relationships, given, given_at, given_text, is_one_of, own_in, properties_in, text_at,
    type_of, value_at,
};
use crate::place::Part;
use crate::processor_type::{Form, Own, Property, ReplaceStrategy};
use crate::reading::{merge_strategy_in, number_by, replace_strategy_in};
use crate::shape::{is_number_text, is_of_set, is_within};
use machine_model::{MergeStrategy, OWN_NAME_MAX};
use serde_json::{Map, Value};

/// A type that there isn't.
pub(crate) fn unknown_type(processor: &Value) -> Option<Part<'static>>
    ensures { option_map part_path result ≡ unknown_type (view processor.now) }
{
    if text_at(processor, Field::TypeName).is_some() && type_of(processor).is_none() {
        Some(Part::Field(Field::TypeName))
    } else {
        None
    }
}

/// A property that may not be missing, and is. Where the properties are no object none is.
pub(crate) fn missing_property(processor: &Value) -> Option<Part<'static>>
    ensures { option_map part_path result ≡ missing_property (view processor.now) }
{
    in_property(first_missing(processor, properties_in(processor)))
}

fn in_property(property: Option<Property>) -> Option<Part<'static>>
    ensures { option_map part_path result ≡ option_map (λ p. in_property (property_name p)) property }
{
    match property {
        Some(property) => Some(Part::Property(property.name())),
        None => None,
    }
}

fn first_missing(processor: &Value, properties: &[Property]) -> Option<Property>
    ensures { result ≡ find (is_missing_property (view processor.now)) properties.now }
{
    properties
        .iter()
        .copied()
        .find(|property| is_missing_property(processor, *property))
}

fn is_missing_property(processor: &Value, property: Property) -> bool
    ensures { result ≡ is_missing_property (view processor.now) property }
{
    may_give(processor)
        && property.default().is_none()
        && given_at(property.name(), processor).is_none()
}

fn may_give(processor: &Value) -> bool
    ensures { result ≡ may_give (view processor.now) }
{
    match value_at(processor, Field::Properties) {
        Some(properties) => properties.is_object(),
        None => true,
    }
}

/// A property that isn't one of the type and may be none of the processor's own, that is no text, or that is outside
/// its set.
pub(crate) fn bad_property(processor: &Value) -> Option<Part<'_>>
    ensures { option_map part_path result ≡ bad_property (view processor.now) }
{
    match given(processor) {
        Some(members) => first_bad(processor, members),
        None => None,
    }
}

fn first_bad<'a>(processor: &Value, members: &'a Map<String, Value>) -> Option<Part<'a>>
    ensures { option_map part_path result
        ≡ option_map (λ given. in_property given.0)
        (find (is_bad_property (view processor.now)) (member_list (members_view members.now.entries))) }
{
    'members: for (name, value) in members {
        if is_bad_property(processor, name.as_str(), value) {
            return Some(Part::Property(name.as_str()));
        }
    }
    None
}

fn is_bad_property(processor: &Value, name: &str, value: &Value) -> bool
    ensures { result ≡ is_bad_property (view processor.now) (name.now, view value.now) }
{
    match property_named(name, properties_in(processor)) {
        Some(property) => is_bad_value(processor, value, property),
        None => !is_own_property(processor, name, value),
    }
}

fn is_bad_value(processor: &Value, value: &Value, property: Property) -> bool
    ensures { result
        ≡ not (option_map_or (property_may_hold (view processor.now) property) (as_str (view value.now)) false) }
{
    match value.as_str() {
        Some(text) => !may_hold(processor, property, text),
        None => true,
    }
}

fn may_hold(processor: &Value, property: Property, text: &str) -> bool
    ensures { result ≡ property_may_hold (view processor.now) property text.now }
{
    is_of_set(property.form(), text)
        && !is_empty_search(replace_strategy_in(processor), property.form(), text)
}

/// Whether nothing is sought as it stands.
fn is_empty_search(strategy: ReplaceStrategy, form: Form, text: &str) -> bool
    ensures { result ≡ is_empty_search strategy form text.now }
{
    match (strategy, form) {
        (ReplaceStrategy::Literal, Form::Search) => text.is_empty(),
        _ => false,
    }
}

/// Whether a processor may have a property of its own of this name and value.
fn is_own_property(processor: &Value, name: &str, value: &Value) -> bool
    ensures { result ≡ is_own_property (view processor.now) (name.now, view value.now) }
{
    is_within(1, name.len() as u64, OWN_NAME_MAX)
        && may_be_own(own_in(processor), fixed_relationships(processor), name)
        && value.is_string()
}

fn may_be_own(own: Own, fixed: &[&'static str], name: &str) -> bool
    ensures { result ≡ may_be_own own (map (λ name. name.now) fixed.now) name.now }
{
    match own {
        Own::Nothing => false,
        Own::Attributes | Own::AttributePatterns => true,
        Own::Relationships | Own::RelationshipPatterns => !is_one_of(name, fixed),
    }
}

fn property_named(name: &str, properties: &[Property]) -> Option<Property>
    ensures { result ≡ find (λ p. bytes_eq (property_name p) name.now) properties.now }
{
    properties
        .iter()
        .copied()
        .find(|property| property.name() == name)
}

/// A property that has to be a number within a range, and isn't.
pub(crate) fn bad_number_property(processor: &Value) -> Option<Part<'static>>
    ensures { option_map part_path result ≡ bad_number_property (view processor.now) }
{
    in_property(first_bad_number(processor, properties_in(processor)))
}

fn first_bad_number(processor: &Value, properties: &[Property]) -> Option<Property>
    ensures { result ≡ find (is_bad_number_property (view processor.now)) properties.now }
{
    properties
        .iter()
        .copied()
        .find(|property| is_bad_number_property(processor, *property))
}

fn is_bad_number_property(processor: &Value, property: Property) -> bool
    ensures { result ≡ is_bad_number_property (view processor.now) property }
{
    is_no_number(processor, property) || is_above_most(processor, property)
}

fn is_no_number(processor: &Value, property: Property) -> bool
    ensures { result ≡ option_map_or (λ text. not (is_number_text (form_of property) text))
        (given_text property (view processor.now)) false }
{
    match given_text(property, processor) {
        Some(text) => !is_number_text(property.form(), text),
        None => false,
    }
}

/// Whether of files that are joined by number the least is above the most.
fn is_above_most(processor: &Value, property: Property) -> bool
    ensures { result ≡ is_above_most (view processor.now) property }
{
    match property {
        Property::MinimumEntries => is_above(
            merge_strategy_in(processor),
            number_by(Property::MinimumEntries, processor),
            number_by(Property::MaximumEntries, processor),
        ),
        _ => false,
    }
}

fn is_above(strategy: MergeStrategy, minimum: u64, maximum: u64) -> bool
    ensures { result ≡ is_above strategy minimum maximum }
{
    match strategy {
        MergeStrategy::BinPacking => maximum < minimum,
        MergeStrategy::Defragment => false,
    }
}
