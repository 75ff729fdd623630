//! The files of a session that has ended.
ghost use Rattle.std.specs.Prelude.{◌≡◌};

use flowfile_record::{ContentRef, Sequence, Text, Worked};

/// Where a file goes. Connections are named by their places in the flow.
#[derive(Drop)]
pub enum Goes {
    /// To the queue of the first connection, and a clone of it to each of the others.
    Queues { first: u16, others: Sequence<u16> },
    /// Back to where it was.
    Returns,
    /// Out of the flow, by a relationship that is terminated.
    Drops(Text),
    /// Out of the flow.
    Leaves,
}

/// A file of a session that has ended. Its attributes are those that it has from now on. Of a content that isn't in the
/// store yet the slot and the offset mean nothing.
#[derive(Drop)]
pub struct EndedFile {
    pub number: u64,
    pub worked: Worked,
    pub content: ContentRef,
    pub entered: u64,
    pub penalty_end: u64,
    pub goes: Goes,
}

impl Goes {
    ghost use Rattle.settlement.specs.Placing.{further};

    /// The connections that get clones.
    pub fn further(&self) -> &[u16]
        ensures { result.now ≡ further self.now }
    {
        match self {
            Goes::Queues { first: _, others } => others.as_slice(),
            _ => &[],
        }
    }
}
