//! What a session made of the flow files that it took.
use crate::{Attributes, Bytes, Name, Numbers, Sequence};

/// The content of a file that a session ends with. `of` is the place of a taken file, whose content is meant as it
/// was taken.
#[derive(Debug, Drop)]
pub enum Body {
    /// That file's whole content.
    Whole { of: u32 },
    /// A part of that file's content, which isn't the whole.
    Part { of: u32, offset: u64, size: u64 },
    /// Bytes of its own.
    New(Bytes),
}

/// Where a file goes at the end of its session.
#[derive(Clone, Copy, Debug, PartialEq, Eq)]
pub enum End {
    /// To the relationship of this place.
    To(u16),
    /// Back into the queue that it was taken from.
    Back,
    /// Out of the flow.
    Removed,
}

/// Where a file of a session comes from. A number is the place of a file in the session's outcome.
#[derive(Debug, Drop)]
pub enum Origin {
    /// It was taken from a queue: the taken file of this place.
    Taken(u32),
    /// Made from nothing.
    Created,
    /// Received from outside the flow.
    Received,
    /// A child with a content of its own.
    Forked(u32),
    /// A child whose content is a part of its parent's.
    Part(u32),
    /// A copy of its parent.
    Cloned(u32),
    /// A child of these parents, each named once.
    Joined(Numbers),
}

/// A file that a session ends with.
#[derive(Debug, Drop)]
pub struct Worked {
    pub origin: Origin,
    pub attributes: Attributes,
    pub body: Body,
    pub end: End,
    /// Whether the session wrote its content.
    pub written: bool,
    pub penalised: bool,
    /// The relationship that it was noted as routed to.
    pub routed: Option<u16>,
}

/// Files that a session ends with, by their places.
pub type WorkedList = Sequence<Worked>;

/// What a session made: its files, the taken ones first, and what it sends to the outbox.
#[derive(Debug, Drop)]
pub struct Outcome {
    pub files: WorkedList,
    pub sent: Option<Sent>,
}

/// A put into the outbox: the place of the file whose content is put, and the name that it is put under.
#[derive(Debug, Drop)]
pub struct Sent {
    pub place: u32,
    pub name: Name,
}
