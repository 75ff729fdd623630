//! The fields of a flow's text, and what each may hold.
ghost use Rattle.std.specs.Prelude.{◌≡◌};
ghost use Rattle.flow_definition.specs.Fields.{field_name, shape_of, is_required, fields_of};

use machine_model::{PENALTY_MAX, QUEUE_LIMIT_MAX, SWAP_MAX, SWAP_MIN, TASKS_MAX};

/// A field of the text's object, of a processor or of a connection.
#[derive(Clone, Copy, Debug, PartialEq, Eq)]
pub enum Field {
    Processors,
    Connections,
    Id,
    TypeName,
    Tasks,
    Penalty,
    Properties,
    Terminated,
    From,
    To,
    Relationships,
    Prioritizers,
    Expiration,
    Objects,
    Bytes,
    Swap,
}

/// What a field may hold.
#[derive(Clone, Copy, Debug, PartialEq, Eq)]
pub enum Shape {
    /// A list of objects.
    Objects,
    /// A text of 1 to 64 letters, digits, underscores, dots and dashes.
    Id,
    Text,
    /// A whole number from `least` to `most`. A missing one stands for `default`.
    Number { least: u64, most: u64, default: u64 },
    /// An object.
    Properties,
    /// A list of texts.
    Names,
    /// A list of at least one text.
    SomeNames,
    /// A list of names of prioritizers, each at most once.
    Prioritizers,
}

/// Which object a field stands in.
#[derive(Clone, Copy, Debug, PartialEq, Eq)]
pub enum Level {
    Top,
    Processor,
    Connection,
}

impl Field {
    pub fn name(self) -> &'static str
        ensures { result.now ≡ field_name self }
    {
        match self {
            Field::Processors => "processors",
            Field::Connections => "connections",
            Field::Id => "id",
            Field::TypeName => "type",
            Field::Tasks => "tasks",
            Field::Penalty => "penalty",
            Field::Properties => "properties",
            Field::Terminated => "terminated",
            Field::From => "from",
            Field::To => "to",
            Field::Relationships => "relationships",
            Field::Prioritizers => "prioritizers",
            Field::Expiration => "expiration",
            Field::Objects => "objects",
            Field::Bytes => "bytes",
            Field::Swap => "swap",
        }
    }

    pub fn shape(self) -> Shape
        ensures { result ≡ shape_of self }
    {
        match self {
            Field::Processors | Field::Connections => Shape::Objects,
            Field::Id => Shape::Id,
            Field::TypeName | Field::From | Field::To => Shape::Text,
            Field::Tasks => number(1, TASKS_MAX, 1),
            Field::Penalty => number(0, PENALTY_MAX, 30_000),
            Field::Properties => Shape::Properties,
            Field::Terminated => Shape::Names,
            Field::Relationships => Shape::SomeNames,
            Field::Prioritizers => Shape::Prioritizers,
            Field::Expiration => number(0, QUEUE_LIMIT_MAX, 0),
            Field::Objects => number(0, QUEUE_LIMIT_MAX, 10_000),
            Field::Bytes => number(0, QUEUE_LIMIT_MAX, 1_073_741_824),
            Field::Swap => number(SWAP_MIN, SWAP_MAX, 20_000),
        }
    }

    pub fn is_required(self) -> bool
        ensures { result ≡ is_required self }
    {
        match self {
            Field::Processors | Field::Connections | Field::Id | Field::TypeName => true,
            Field::From | Field::To | Field::Relationships => true,
            _ => false,
        }
    }
}

fn number(least: u64, most: u64, default: u64) -> Shape
    ensures { result ≡ Shape.Number least most default }
{
    Shape::Number {
        least,
        most,
        default,
    }
}

impl Level {
    /// The fields of an object at this level, in the order in which they are looked at.
    pub fn fields(self) -> &'static [Field]
        ensures { result.now ≡ fields_of self }
    {
        match self {
            Level::Top => &[Field::Processors, Field::Connections],
            Level::Processor => &[
                Field::Id,
                Field::TypeName,
                Field::Tasks,
                Field::Penalty,
                Field::Properties,
                Field::Terminated,
            ],
            Level::Connection => &[
                Field::Id,
                Field::From,
                Field::To,
                Field::Relationships,
                Field::Prioritizers,
                Field::Expiration,
                Field::Objects,
                Field::Bytes,
                Field::Swap,
            ],
        }
    }
}
