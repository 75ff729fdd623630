//! What a store keeps of a flow.
ghost use Rattle.std.specs.Prelude.{◌≡◌, map, IfOk};

use flowfile_record::TextList;
use machine_model::Flow;
use std::alloc::{AllocError, Global};

/// The ids of a flow's connections, by place.
pub fn connection_ids(alloc: Global, flow: &Flow) -> Result<TextList, AllocError>
    ensures { IfOk result (λ ids. ids ≡ map (λ connection. connection.id) flow.now.connections) }
{
    let mut ids = TextList::new(alloc);
    for connection in flow.connections.as_slice() {
        ids.push(connection.id.clone()?)?;
    }
    Ok(ids)
}
