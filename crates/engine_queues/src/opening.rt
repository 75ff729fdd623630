//! The queues of what a store keeps.
ghost use Rattle.std.specs.Prelude.{◌≡◌, [], length, map, IfOk, OnOk};
ghost use Rattle.flowfile_record.specs.Stored.{kept_of};
ghost use Rattle.checkpoint_store.specs.Consistent.{IsConsistent};
ghost use Rattle.flow_queue.specs.Queue.{IsApart, queue_with_file};
ghost use Rattle.engine_queues.specs.Queues.{AreQueuesOf};
ghost use Rattle.engine_queues.specs.Opening.{empty_queue};
ghost use Rattle.engine_queues.specs.Waiting.{has_files};

use crate::Queues;
use flow_queue::Queue;
use flowfile_record::{FlowFile, Stored};
use machine_model::{Connection, Flow};
use std::alloc::{AllocError, Global};

impl Queues {
    /// The queues of a flow, with the live files that a store keeps.
    pub fn open(alloc: Global, flow: &Flow, stored: &Stored) -> Result<Queues, AllocError>
        requires consistent { IsConsistent (kept_of stored.now) }
        requires count { length (kept_of stored.now).connections ≡ length flow.now.connections }
        ensures { IfOk result (AreQueuesOf flow.now (kept_of stored.now) []) }
    {
        let mut list = empty_queues(alloc, flow.connections.as_slice())?;
        for active in stored.files.iter() {
            put_copy(&mut list[usize::from(active.connection)], &active.file)?;
        }
        let occupied = occupied_by(alloc, &list)?;
        Ok(Queues { list, occupied })
    }
}

// Which of these queues have files.
fn occupied_by(alloc: Global, queues: &[Queue]) -> Result<Vec<bool>, AllocError>
    ensures { IfOk result (λ occupied. occupied.items ≡ map has_files queues.now) }
{
    let mut occupied = Vec::new(alloc);
    for queue in queues {
        occupied.push(queue.len() > 0)?;
    }
    Ok(occupied)
}

// A queue without files for each connection.
fn empty_queues(alloc: Global, connections: &[Connection]) -> Result<Vec<Queue>, AllocError>
    ensures { IfOk result (λ queues. queues.items ≡ map empty_queue connections.now) }
{
    let mut queues = Vec::new(alloc);
    for connection in connections {
        let order = connection.order.copy()?;
        queues.push(Queue::new(alloc, order, connection.limits))?;
    }
    Ok(queues)
}

// Puts a copy of a file into a queue.
fn put_copy(queue: &mut Queue, file: &FlowFile) -> Result<(), AllocError>
    requires { IsApart file.now queue.old.files }
    ensures { OnOk result
        (queue.new ≡ record queue.old {
          files = queue_with_file file.now queue.old.files;
          spare = queue.new.spare;
          batch_room = queue.new.batch_room;
        }) }
{
    let copy = file.copy()?;
    queue.reserve(1)?;
    queue.put(copy);
    Ok(())
}
