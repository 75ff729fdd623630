//! A flow: processors, and the connections between them.
use crate::Kind;
use flowfile_record::{Sequence, Text, TextList};
use prioritizer::Order;

/// Processors and connections, each known by its place in its list, and the SHA-256 digest (FIPS 180-4) of the text
/// that the flow was read from.
#[derive(Drop)]
pub struct Flow {
    pub processors: ProcessorList,
    pub connections: ConnectionList,
    pub digest: [u8; 32],
}

/// A processor: its id, what it does, how many of its sessions may run at once, how long a file that it penalises
/// waits (in milliseconds), and the relationships whose files leave the flow.
#[derive(Drop)]
pub struct Processor {
    pub id: Text,
    pub kind: Kind,
    pub tasks: u8,
    pub penalty: u64,
    pub terminated: TextList,
}

pub type ProcessorList = Sequence<Processor>;

/// A connection from some relationships of a processor to a processor: its queue's order and limits.
#[derive(Drop)]
pub struct Connection {
    pub id: Text,
    pub source: u16,
    pub relationships: TextList,
    pub target: u16,
    pub order: Order,
    pub limits: QueueLimits,
}

pub type ConnectionList = Sequence<Connection>;

/// The limits of a queue. A file expires so many milliseconds after its data entered; a queue with so many files, or
/// with contents of so many bytes, is full; 0 means never. Past `swap` active files, batches of half as many are
/// swapped out.
#[derive(Clone, Copy, Debug, PartialEq, Eq)]
pub struct QueueLimits {
    pub expiration: u64,
    pub objects: u64,
    pub bytes: u64,
    pub swap: u32,
}
