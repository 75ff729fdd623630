//! A change that is ready to be committed.
use flowfile_record::Settled;
use kept_state::PreparedEntry;
use prov_store::EventBlocks;
use std::marker::Model;

/// Files of a connection that expire, each with its event, as a settled session: it takes them and places none, and
/// what comes next stays.
#[derive(Debug, Drop)]
pub struct SettledExpiry {
    pub connection: u16,
    pub settled: Settled,
}

/// A settled session, or files that expire as one, with the entry that it makes, and all memory that its commit
/// takes. Its new contents stay where they were handed in.
#[derive(Drop)]
pub struct Prepared<'a> {
    pub(crate) entry: PreparedEntry,
    pub(crate) settled: &'a Settled,
    pub(crate) events: EventBlocks<'a>,
}

impl<'a> Model for Prepared<'a> {
    ghost use Rattle.store_core.specs.Committed.{PreparedChange};

    ghost Value = { PreparedChange };

    ghost use Rattle.std.specs.Coded.{codes};
    ghost use Rattle.flowfile_record.specs.contracts.attributes.Attributes as attributes;

    ghost coded = { Prim.hlevel (codes, attributes.the_row.coded) };

    ghost view = { λ prepared. record {
      entry = prepared.entry;
      settled = prepared.settled.now;
      events = prepared.events;
    } };
}
