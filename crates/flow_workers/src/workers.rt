//! Workers run a flow.
ghost use Rattle.std.specs.Prelude.{◌≡◌, None, Some};
ghost use Rattle.engine_steps.specs.Leaving.{MayGoOn};
ghost use Rattle.flow_workers.specs.Going.{WorkGoesOn};
ghost use Rattle.flow_workers.specs.Held.{IsUnderLock};

use crate::cause::Cause;
use crate::desk::Desk;
use crate::held::{Held, Run};
use crate::shop::Shop;
use disk_trait::Disk;
use engine_steps::Engine;
use std::alloc::Global;
use std::marker::Brand;
use std::sync::{Condvar, Mutex, Wait};
use std::thread::Threads;
use world_io::{Clock, Gate, Inbox, Outbox};

/// The engine of a run that workers have brought to its end, and why it stopped.
#[derive(Drop)]
pub struct Worked<'f> {
    pub engine: Engine<'f>,
    pub cause: Cause,
}

// The devices that a run is lent.
struct Lent<'d, D: Disk, I: Inbox, O: Outbox, C: Clock> {
    disk: &'d mut D,
    inbox: &'d mut I,
    outbox: &'d mut O,
    clock: &'d mut C,
}

// What comes back of a run.
struct Driven<'d, 'f, D: Disk, I: Inbox, O: Outbox, C: Clock> {
    engine: Engine<'f>,
    cause: Option<Cause>,
    lent: Lent<'d, D, I, O, C>,
}

/// Has so many workers run an engine's flow, each in a thread of its own, until the flow is quiet or blocked, or an
/// error stops it. One at a time they call the engine and its devices, under a lock: they tend what is due, check
/// sessions out, read their jobs, and commit the work. A processor works without the lock, inside the gate. Where no
/// session is in flight, and files wait for the end of a penalty, they wait with them. With fewer than two workers, or
/// where no thread can be made, the caller's thread does it all.
pub fn run_workers<'f, D: Disk, I: Inbox, O: Outbox, C: Clock, G: Gate, T: Threads + Wait + Sync>(
    rt: &T,
    alloc: Global,
    engine: Engine<'f>,
    disk: &mut D,
    inbox: &mut I,
    outbox: &mut O,
    clock: &mut C,
    gate: &G,
    workers: usize,
) -> Worked<'f>
    requires { MayGoOn D.tells D.held D.moment D.images I.tells (I.left inbox.old) engine disk.old }
    // The run has gone on until this cause was noted.
    ensures { WorkGoesOn D.tells D.held D.moment D.images D.faults I.tells I.left I.faults O.tells O.standing O.puts
        O.faults C.time C.given
        (record {
          engine = engine.entry;
          disk = disk.old;
          inbox = inbox.old;
          outbox = outbox.old;
          clock = clock.old;
          cause = None;
        })
        (record {
          engine = result.engine;
          disk = disk.new;
          inbox = inbox.new;
          outbox = outbox.new;
          clock = clock.new;
          cause = Some result.cause;
        }) }
{
    let lent = Lent {
        disk,
        inbox,
        outbox,
        clock,
    };
    let Driven {
        engine,
        cause,
        lent,
    } = drive::<Brand, D, I, O, C, G, T>(rt, alloc, engine, lent, gate, workers);
    let Lent {
        disk,
        inbox,
        outbox,
        clock,
    } = lent;
    stay(disk, inbox, outbox, clock);
    let Some(cause) = cause else { unreachable!() };
    Worked { engine, cause }
}

// Has workers run the flow of one run.
fn drive<
    'd,
    'f,
    R: Run<D, I, O, C> + Send + Sync,
    D: Disk,
    I: Inbox,
    O: Outbox,
    C: Clock,
    G: Gate,
    T: Threads + Wait + Sync,
>(
    rt: &T,
    alloc: Global,
    engine: Engine<'f>,
    lent: Lent<'d, D, I, O, C>,
    gate: &G,
    workers: usize,
) -> Driven<'d, 'f, D, I, O, C>
    requires held { IsUnderLock D.tells D.held D.moment D.images D.faults I.tells I.left I.faults O.tells O.standing
        O.puts O.faults C.time C.given R.flow R.store R.files R.lent R.began (record {
          seen = record {
            engine = engine;
            disk = lent.disk.now;
            inbox = lent.inbox.now;
            outbox = lent.outbox.now;
            clock = lent.clock.now;
            cause = None;
          };
          lent = (lent.disk.ghost_name, lent.inbox.ghost_name, lent.outbox.ghost_name, lent.clock.ghost_name);
        }) }
    ensures held { IsUnderLock D.tells D.held D.moment D.images D.faults I.tells I.left I.faults O.tells O.standing
        O.puts O.faults C.time C.given R.flow R.store R.files R.lent R.began (record {
          seen = record {
            engine = result.engine;
            disk = result.lent.disk.now;
            inbox = result.lent.inbox.now;
            outbox = result.lent.outbox.now;
            clock = result.lent.clock.now;
            cause = result.cause;
          };
          lent = (
            result.lent.disk.ghost_name,
            result.lent.inbox.ghost_name,
            result.lent.outbox.ghost_name,
            result.lent.clock.ghost_name,
          );
        }) }
    ensures cause { result.cause ≡ None → ⊥ }
    ensures disk { result.lent.disk.ghost_name ≡ lent.entry.disk.ghost_name }
    ensures inbox { result.lent.inbox.ghost_name ≡ lent.entry.inbox.ghost_name }
    ensures outbox { result.lent.outbox.ghost_name ≡ lent.entry.outbox.ghost_name }
    ensures clock { result.lent.clock.ghost_name ≡ lent.entry.clock.ghost_name }
{
    let flow = engine.flow();
    let store = engine.store_id();
    let Lent {
        disk,
        inbox,
        outbox,
        clock,
    } = lent;
    let desk = Desk {
        engine,
        disk,
        inbox,
        outbox,
        clock,
        cause: None,
    };
    let shop: Shop<'_, 'f, R, D, I, O, C> = Shop {
        held: Mutex::new(Held::new(desk)),
        changed: Condvar::new(),
        flow,
        store,
    };
    if workers > 1 {
        shop.open(rt, alloc, gate, workers);
    }
    let mut held = shop.close();
    held.go_on_alone(alloc, flow, store, gate);
    let Desk {
        engine,
        disk,
        inbox,
        outbox,
        clock,
        cause,
    } = held.into_desk();
    Driven {
        engine,
        cause,
        lent: Lent {
            disk,
            inbox,
            outbox,
            clock,
        },
    }
}

// It does nothing: the devices are as they are.
fn stay<D: Disk, I: Inbox, O: Outbox, C: Clock>(
    disk: &mut D,
    inbox: &mut I,
    outbox: &mut O,
    clock: &mut C,
)
    ensures disk { disk.new ≡ disk.old }
    ensures inbox { inbox.new ≡ inbox.old }
    ensures outbox { outbox.new ≡ outbox.old }
    ensures clock { clock.new ≡ clock.old }
{}
