//! The flow that a store is for.
use flowfile_record::{DIGEST_SIZE, TextList};
use std::marker::Model;

/// What a store keeps of its flow: the digest of the flow's text, the ids of its connections, and how many processors
/// it has.
#[derive(Drop)]
pub struct FlowIdentity<'a> {
    pub digest: [u8; DIGEST_SIZE],
    pub connections: &'a TextList,
    pub processors: u16,
}

impl<'a> Model for FlowIdentity<'a> {
    ghost use Rattle.store_core.specs.Flow.{Flow};

    ghost Value = { Flow };

    ghost view = { λ flow. record {
      digest = flow.digest;
      connections = flow.connections.now;
      processors = flow.processors;
    } };
}
