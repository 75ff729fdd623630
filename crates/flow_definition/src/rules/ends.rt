//! Ends of connections that are no processors, or sources.
ghost use Rattle.std.specs.Prelude.{◌≡◌};
ghost use Rattle.std.specs.Option.{option_map};
ghost use Rattle.serde_json.specs.View.{view};
ghost use Rattle.flow_definition.specs.Places.{part_path};
ghost use Rattle.flow_definition.specs.Rules.{unknown_end, is_unknown_source, is_unknown_target, may_be_end};

use crate::field::Field;
use crate::look::{processor_named, text_at, type_of};
use crate::place::Part;
use serde_json::Value;

/// An end of a connection that is no processor, or to which no connection may lead.
pub(crate) fn unknown_end(top: &Value, connection: &Value) -> Option<Part<'static>>
    ensures { option_map part_path result ≡ unknown_end (view top.now) (view connection.now) }
{
    if is_unknown_source(top, connection) {
        Some(Part::Field(Field::From))
    } else if is_unknown_target(top, connection) {
        Some(Part::Field(Field::To))
    } else {
        None
    }
}

fn is_unknown_source(top: &Value, connection: &Value) -> bool
    ensures { result ≡ is_unknown_source (view top.now) (view connection.now) }
{
    match text_at(connection, Field::From) {
        Some(id) => processor_named(top, id).is_none(),
        None => false,
    }
}

fn is_unknown_target(top: &Value, connection: &Value) -> bool
    ensures { result ≡ is_unknown_target (view top.now) (view connection.now) }
{
    match text_at(connection, Field::To) {
        Some(id) => !may_be_end(processor_named(top, id)),
        None => false,
    }
}

fn may_be_end(processor: Option<&Value>) -> bool
    ensures { result ≡ may_be_end (option_map (λ processor. view processor.now) processor.entry) }
{
    match processor {
        Some(processor) => match type_of(processor) {
            Some(kind) => !kind.is_source(),
            None => true,
        },
        None => false,
    }
}
