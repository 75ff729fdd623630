//! Where the files of a processor go.
ghost use Rattle.std.specs.Prelude.{◌≡◌, ◌<◌, ◌≤◌, ◌^◌, ◌∷◌, ◌++◌, [], ℕ, filter, length, map, IfOk, OnOk};
ghost use Rattle.machine_model.specs.Kinds.{is_among};
ghost use Rattle.machine_model.specs.Placing.{goes, leads, relationship_at, to_connections, to_relationship, connections_of};
ghost use Rattle.settlement.specs.Ending.{goes_to};

use crate::file::Goes;
use flowfile_record::{End, Sequence, Text};
use machine_model::{Connection, Flow, Processor};
use std::alloc::{AllocError, Global};

/// Where a file goes that ends so, of the processor at a place of the flow.
pub fn goes_by(
    alloc: Global,
    flow: &Flow,
    place: u16,
    processor: &Processor,
    end: End,
) -> Result<Goes, AllocError>
    requires { length flow.now.connections ≤ 2 ^ 16 }
    ensures { IfOk result (λ found. found ≡ goes_to (goes flow.now place processor.now end)) }
{
    match end {
        End::To(relationship) => {
            let relationship = relationship_at(processor, relationship);
            to_relationship(alloc, flow, place, processor, relationship)
        }
        End::Back => Ok(Goes::Returns),
        End::Removed => Ok(Goes::Leaves),
    }
}

/// The name of a processor's relationship at a place.
pub fn relationship_at(processor: &Processor, place: u16) -> &str
    ensures { result.now ≡ relationship_at processor.now place }
{
    match processor.kind.relationship(place) {
        Some(name) => name,
        None => "",
    }
}

fn to_relationship(
    alloc: Global,
    flow: &Flow,
    place: u16,
    processor: &Processor,
    relationship: &str,
) -> Result<Goes, AllocError>
    requires { length flow.now.connections ≤ 2 ^ 16 }
    ensures { IfOk result (λ found. found ≡ goes_to (to_relationship flow.now place processor.now relationship.now)) }
{
    if is_among(relationship, processor.terminated.as_slice()) {
        return drops(alloc, relationship);
    }
    let connections = connections_of(alloc, flow, place, relationship)?;
    to_connections(alloc, relationship, connections)
}

fn drops(alloc: Global, relationship: &str) -> Result<Goes, AllocError>
    ensures { IfOk result (λ found. found ≡ Goes.Drops relationship.now) }
{
    let relationship = Text::from_str(alloc, relationship)?;
    Ok(Goes::Drops(relationship))
}

fn to_connections(
    alloc: Global,
    relationship: &str,
    connections: Vec<u16>,
) -> Result<Goes, AllocError>
    ensures { IfOk result (λ found. found ≡ goes_to (to_connections relationship.now connections.items)) }
{
    let mut others = connections;
    if others.is_empty() {
        return drops(alloc, relationship);
    }
    let first = others.remove(0);
    Ok(Goes::Queues {
        first,
        others: Sequence::from(others),
    })
}

fn is_among(name: &str, names: &[Text]) -> bool
    ensures { result ≡ is_among name.now names.now }
{
    names.iter().any(|other| name == other.as_str())
}

/// The places of the connections that a relationship of the processor leads to.
fn connections_of(
    alloc: Global,
    flow: &Flow,
    processor: u16,
    relationship: &str,
) -> Result<Vec<u16>, AllocError>
    requires { length flow.now.connections ≤ 2 ^ 16 }
    ensures { IfOk result (λ found. found.items ≡ connections_of flow.now processor relationship.now) }
{
    let mut found = Vec::new(alloc);
    let mut place: u64 = 0;
    for connection in flow.connections.as_slice() {
        add_if_led_to(&mut found, processor, relationship, place, connection)?;
        place += 1;
    }
    Ok(found)
}

/// Adds the place of a connection that the relationship leads to.
fn add_if_led_to(
    found: &mut Vec<u16>,
    processor: u16,
    relationship: &str,
    place: u64,
    connection: &Connection,
) -> Result<(), AllocError>
    requires { place < 2 ^ 16 }
    ensures { OnOk result (found.new.items ≡ found.old.items
        ++ map (λ c. c.0) (filter (leads processor relationship.now) ((place, connection.now) ∷ []))) }
{
    if leads(processor, relationship, connection) {
        found.push(place as u16)?;
    }
    Ok(())
}

fn leads(processor: u16, relationship: &str, connection: &Connection) -> bool
    ensures { (place : ℕ) → result ≡ leads processor relationship.now (place, connection.now) }
{
    connection.source == processor && is_among(relationship, connection.relationships.as_slice())
}
