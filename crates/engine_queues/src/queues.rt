//! The queues of a flow.
ghost use Rattle.std.specs.Prelude.{◌≡◌, length};

use flow_queue::Queue;
use std::marker::Model;

/// The queues of a flow, one for each of its connections, by their places.
#[derive(Drop)]
pub struct Queues {
    pub(crate) list: Vec<Queue>,
    // Which of them have files, so that the others needn't be looked at.
    pub(crate) occupied: Vec<bool>,
}

impl Model for Queues {
    ghost use Rattle.std.specs.Prelude.{List};
    ghost use Rattle.std.specs.Coded.{codes};
    ghost use Rattle.flowfile_record.specs.contracts.attributes.Attributes as attributes;
    ghost use Rattle.flow_queue.specs.Queue.{QueueState};

    ghost Value = { List QueueState };

    ghost coded = { Prim.hlevel (codes, attributes.the_row.coded) };

    ghost view = { λ queues. queues.list.items };

    ghost use Rattle.std.specs.Prelude.{◌≡◌, map};
    ghost use Rattle.engine_queues.specs.Waiting.{has_files};

    ghost invariant = { λ queues. queues.occupied.items ≡ map has_files queues.list.items };
}

impl Queues {
    /// How many queues there are.
    pub fn count(&self) -> u64
        ensures { result ≡ length self.now }
    {
        self.list.len() as u64
    }
}
