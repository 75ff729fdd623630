//! A flow, and which of its connections end at each processor and leave it.
ghost use Rattle.std.specs.Prelude.{◌≡◌, ◌<◌, Some, length, slice_get, IfOk};
ghost use Rattle.machine_model.specs.declared.flow.Processor.{Processor};
ghost use Rattle.machine_model.specs.Kinds.{take_rule_of};
ghost use Rattle.machine_model.specs.RouteOnAttribute.{places_where};
ghost use Rattle.engine_queues.specs.Linked.{IsLinked, ends_at, starts_at};

use machine_model::{Connection, Flow, TakeRule};
use std::alloc::{AllocError, Global};
use std::marker::Model;

/// A flow, and seen as one, that has at hand which connections end at each processor and which leave it: none has to be
/// looked for among all.
#[derive(Drop)]
pub struct LinkedFlow<'f> {
    flow: &'f Flow,
    // One for each processor, by their places.
    links: Vec<Links>,
}

// The places of the connections that end at a processor, and of those that leave it, ascending.
#[derive(Drop)]
struct Links {
    incoming: Vec<usize>,
    outgoing: Vec<usize>,
}

impl<'f> Model for LinkedFlow<'f> {
    ghost use Rattle.std.specs.Coded.{codes};
    ghost use Rattle.machine_model.specs.contracts.flow.Flow as the_flow;
    ghost use Rattle.machine_model.specs.declared.flow.Flow.{Flow as TheFlow};
    ghost use Rattle.engine_queues.specs.Linked.{AreLinksOf};

    ghost Value = { TheFlow };

    ghost coded = { Prim.hlevel (codes, the_flow.the_row.coded) };

    ghost view = { λ linked. linked.flow.now };

    ghost invariant = { λ linked. AreLinksOf linked.flow.now linked.links.items };
}

impl<'f> LinkedFlow<'f> {
    /// A flow with the connections of each processor at hand.
    pub(crate) fn new(alloc: Global, flow: &'f Flow) -> Result<LinkedFlow<'f>, AllocError>
        ensures { IfOk result (λ linked. linked ≡ flow.now) }
    {
        let mut links = Vec::new(alloc);
        for processor in 0..flow.processors.len() {
            links.push(links_of(alloc, flow.connections.as_slice(), processor)?)?;
        }
        Ok(LinkedFlow { flow, links })
    }

    /// The rule by which a processor takes files.
    pub(crate) fn take_rule(&self, processor: u16) -> TakeRule
        requires { processor < length self.now.processors }
        ensures { (p : Processor) → slice_get self.now.processors processor ≡ Some p → result ≡ take_rule_of p.kind }
    {
        self.flow.processors.as_slice()[usize::from(processor)]
            .kind
            .take_rule()
    }

    /// The places of the connections that end at a processor.
    pub(crate) fn incoming(&self, processor: u16) -> &[usize]
        requires { processor < length self.now.processors }
        ensures { result.now ≡ places_where (ends_at processor) self.now.connections }
    {
        self.links[usize::from(processor)].incoming.as_slice()
    }

    /// The places of the connections that leave a processor.
    pub(crate) fn outgoing(&self, processor: u16) -> &[usize]
        requires { processor < length self.now.processors }
        ensures { result.now ≡ places_where (starts_at processor) self.now.connections }
    {
        self.links[usize::from(processor)].outgoing.as_slice()
    }
}

fn links_of(alloc: Global, connections: &[Connection], processor: u64) -> Result<Links, AllocError>
    ensures { IfOk result (IsLinked connections.now processor) }
{
    let mut incoming = Vec::new(alloc);
    let mut outgoing = Vec::new(alloc);
    for (place, connection) in connections.iter().enumerate() {
        let target = u64::from(connection.target);
        let source = u64::from(connection.source);
        if target == processor {
            incoming.push(place)?;
        }
        if source == processor {
            outgoing.push(place)?;
        }
    }
    Ok(Links { incoming, outgoing })
}
