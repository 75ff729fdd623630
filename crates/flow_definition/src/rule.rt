//! The rules of a flow's text.
ghost use Rattle.std.specs.Prelude.{◌≡◌};

/// What is wrong with a flow's text. Of several the lowest is named, at its first place.
#[derive(Clone, Copy, Debug, PartialEq, Eq)]
pub enum Rule {
    /// The text isn't JSON, or no object.
    NotJson,
    /// A required field or a required property is absent.
    MissingField,
    /// There is no type of processor of this name.
    UnknownType,
    /// An id stands earlier among the processors, or among the connections.
    DoubleId,
    /// A connection comes from or leads to no processor, or leads to a source.
    UnknownEnd,
    /// A relationship is neither terminated nor connected, or both; or a name is none of its processor's.
    RelationshipUnconnected,
    /// A value is of another kind than it has to be, or outside its set; a property isn't one of the type; or one of
    /// the processor's own may not have its name.
    BadProperty,
    /// A pattern can't be read, or nests too deep.
    BadPattern,
    /// An expression can't be read.
    BadExpression,
    /// The text is too long, or has too many processors, connections or properties of a processor's own.
    TooMany,
    /// An object has no field of this name.
    UnknownField,
    /// A number isn't a whole one without sign, point and exponent, or is out of range.
    BadNumber,
    /// The builder of patterns refuses one for its size.
    PatternTooBig,
}

impl Rule {
    ghost use Rattle.flow_definition.specs.Numbers.{rule_number};

    /// Its number, which the refusal of a flow prints.
    pub fn number(self) -> u8
        ensures { result ≡ rule_number self }
    {
        match self {
            Rule::NotJson => 1,
            Rule::MissingField => 2,
            Rule::UnknownType => 3,
            Rule::DoubleId => 4,
            Rule::UnknownEnd => 5,
            Rule::RelationshipUnconnected => 6,
            Rule::BadProperty => 7,
            Rule::BadPattern => 8,
            Rule::BadExpression => 9,
            Rule::TooMany => 10,
            Rule::UnknownField => 11,
            Rule::BadNumber => 12,
            Rule::PatternTooBig => 14,
        }
    }
}
