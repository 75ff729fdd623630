//! What workers share.
use crate::cause::Cause;
use disk_trait::Disk;
use engine_steps::Engine;
use std::marker::Model;
use world_io::{Clock, Inbox, Outbox};

/// An engine, the devices that it runs on, and why the run has stopped, if it has. Contracts see what the devices are
/// now, and the names of what was lent.
pub(crate) struct Desk<'d, 'f, D: Disk, I: Inbox, O: Outbox, C: Clock> {
    pub(crate) engine: Engine<'f>,
    pub(crate) disk: &'d mut D,
    pub(crate) inbox: &'d mut I,
    pub(crate) outbox: &'d mut O,
    pub(crate) clock: &'d mut C,
    pub(crate) cause: Option<Cause>,
}

impl<'d, 'f, D: Disk, I: Inbox, O: Outbox, C: Clock> Model for Desk<'d, 'f, D, I, O, C> {
    ghost use Rattle.std.specs.Coded.{codes};
    ghost use Rattle.flowfile_record.specs.contracts.attributes.Attributes as attributes;
    ghost use Rattle.machine_model.specs.contracts.flow.Flow as the_flow;
    ghost use Rattle.flow_workers.specs.Seen.{AtDesk};

    ghost Value = { AtDesk D I O C };

    ghost coded = { Prim.hlevel (codes, attributes.the_row.coded, the_flow.the_row.coded) };

    ghost view = { λ desk. record {
      seen = record {
        engine = desk.engine;
        disk = desk.disk.now;
        inbox = desk.inbox.now;
        outbox = desk.outbox.now;
        clock = desk.clock.now;
        cause = desk.cause;
      };
      lent = (desk.disk.ghost_name, desk.inbox.ghost_name, desk.outbox.ghost_name, desk.clock.ghost_name);
    } };
}
