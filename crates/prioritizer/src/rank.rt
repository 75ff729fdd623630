//! What an order looks at in a file.

/// What an order looks at in a file: its attribute `priority`, the moment at which its data entered, and
/// its arrival number, which no two files of a queue share.
#[derive(Clone, Copy, Debug, PartialEq, Eq)]
pub struct Rank<'a> {
    pub priority: Option<&'a str>,
    pub entered: u64,
    pub arrival: u64,
}
