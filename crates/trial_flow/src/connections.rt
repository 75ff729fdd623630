//! The connections of the flow.
ghost use Rattle.std.specs.Prelude.{◌≡◌, IfOk};
ghost use Rattle.trial_flow.specs.Trial.{trial_connection, connections};

use crate::defaults::{BYTES, EXPIRATION, OBJECTS, SWAP};
use flowfile_record::{Sequence, Text};
use machine_model::{Connection, ConnectionList, QueueLimits};
use prioritizer::Order;
use std::alloc::{AllocError, Global};

// The places of the processors.
const GENERATOR: u16 = 0;

const ROUTER: u16 = 1;

const SPLITTER: u16 = 2;

const MERGER: u16 = 3;

const PUTTER: u16 = 4;

pub(crate) fn connections(alloc: Global) -> Result<ConnectionList, AllocError>
    ensures { IfOk result (λ list. list ≡ connections) }
{
    let mut list = Vec::new(alloc);
    list.push(connection(alloc, "made", GENERATOR, "success", ROUTER)?)?;
    list.push(connection(alloc, "tens", ROUTER, "tens", SPLITTER)?)?;
    list.push(connection(alloc, "rest", ROUTER, "unmatched", PUTTER)?)?;
    list.push(connection(alloc, "parts", SPLITTER, "splits", MERGER)?)?;
    list.push(connection(alloc, "whole", MERGER, "merged", PUTTER)?)?;
    Ok(Sequence::from(list))
}

fn connection(
    alloc: Global,
    id: &str,
    source: u16,
    relationship: &str,
    target: u16,
) -> Result<Connection, AllocError>
    ensures { IfOk result (λ made. made ≡ trial_connection id.now source relationship.now target) }
{
    let id = Text::from_str(alloc, id)?;
    let relationships = vec![in alloc; Text::from_str(alloc, relationship)?]?;
    Ok(Connection {
        id,
        source,
        relationships: Sequence::from(relationships),
        target,
        order: Order::new(Vec::new(alloc)),
        limits: QueueLimits {
            expiration: EXPIRATION,
            objects: OBJECTS,
            bytes: BYTES,
            swap: SWAP,
        },
    })
}
