//! The rows of a session's events.

/// What each event of a row tells of its file, in the order in which the rows stand.
#[derive(Clone, Copy, Debug, PartialEq, Eq)]
pub enum Row {
    Created,
    Received,
    Forked,
    Joined,
    Cloned,
    ContentModified,
    AttributesModified,
    Routed,
    Dropped,
}
