//! Where in a flow's text a rule is broken.
use crate::field::Field;
use crate::rule::Rule;

/// Where in an object.
#[derive(Clone, Copy)]
pub enum Part<'a> {
    Whole,
    Field(Field),
    /// An item of the list in a field.
    Item(Field, usize),
    Property(&'a str),
    /// A field that the object may not have.
    Unknown(&'a str),
}

/// Where in the text: in an item of a list of the text's object, or in this object itself.
#[derive(Clone, Copy)]
pub struct Place<'a> {
    pub item: Option<(Field, usize)>,
    pub part: Part<'a>,
}

/// A broken rule, and where.
#[derive(Clone, Copy)]
pub struct Broken<'a> {
    pub rule: Rule,
    pub place: Place<'a>,
}
