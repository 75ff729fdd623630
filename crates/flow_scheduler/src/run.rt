//! A flow runs over an opened store until nothing is left to do, and the store is closed.
ghost use Rattle.std.specs.Prelude.{◌≡◌, ℕ, ◌-◌, ◌^◌, ◌<◌, List, [], None, Option, OnOk, IfErr, IfSome, IsTrue, MatchOption};
ghost use Rattle.std.specs.Result.{result_ok};
ghost use Rattle.machine_model.specs.Sound.{IsSound};
ghost use Rattle.machine_model.specs.State.{State};
ghost use Rattle.machine_model.specs.declared.journal.Entry.{Entry as TheEntry};
ghost use Rattle.machine_model.specs.declared.journal.Step.{Step as TheStep};
ghost use Rattle.run_law.specs.Going.{IsRunningAt};
ghost use Rattle.run_law.specs.Run.{HasRun, machine_at};
ghost use Rattle.run_law.specs.Ending.{EndsForCause, EndsShort, IsQuietOrBlocked, IsFault};
ghost use Rattle.run_law.specs.Turns.{AreMadeAt, IsInTurn};
ghost use Rattle.engine_steps.specs.Errors.{ended_by};
ghost use Rattle.flow_scheduler.specs.Driving.{HandsOver};
ghost use Rattle.run_law.specs.Work.{IsAtWork, WritesLog};
ghost use Rattle.run_law.specs.Puts.{Start, outgoing};

use crate::driving::drive;
use disk_trait::Disk;
use engine_choice::Ending;
use engine_steps::{Closed, Engine, EngineError};
use machine_model::{Flow, names_are_lost_by_taking};
use run_law::{Ended, faults_end_a_run, run_ends};
use std::alloc::Global;
use store_core::Store;
use world_io::{Clock, Gate, Inbox, Outbox};

/// How a run ended; and what it left, where its store was closed.
#[derive(Drop)]
pub struct Ran {
    pub ended: Ended,
    pub closed: Option<Closed>,
}

/// Runs a flow over a store of it that was opened: session after session until nothing is left to do, all of it is
/// held back by full connections, or the journal has `most` entries. Then the store is closed. Where the log has
/// `checkpoint` entries, a new one begins behind a snapshot. Each session's processor works inside the gate, under the
/// session's number. It tells how the run ended; after a fault the store isn't closed, and is to be opened anew.
pub fn run_flow<D: Disk, I: Inbox, O: Outbox, C: Clock, G: Gate>(
    alloc: Global,
    flow: &Flow,
    store: Store,
    most: u64,
    checkpoint: u64,
    disk: &mut D,
    inbox: &mut I,
    outbox: &mut O,
    clock: &mut C,
    gate: &G,
) -> Ran
    requires sound { IsSound flow.now }
    requires most { most < 2 ^ 64 - 1 }
    requires work { IsAtWork flow.now D.tells D.held D.moment D.images store disk.old }
    // Where the devices tell, a journal of the machine's steps tells what the run did. Each step was made in its turn, at
    // a moment that the clock gave.
    ensures headline { IsTrue D.tells → IsTrue I.tells → IsTrue O.tells → (state : State) (first : D) (start : Start)
        → IsRunningAt flow.now start (C.time clock.old) D.moment D.images store.lot
        (machine_at state (I.left inbox.old) (O.standing outbox.old)) first disk.old []
        (machine_at state (I.left inbox.old) (O.standing outbox.old)) (I.left inbox.old)
        (outgoing O.standing O.puts outbox.old)
        → (journal : List TheEntry) × (next : Option TheStep) × (ran : HasRun flow.now result.ended start
        (C.time clock.new) D.tells D.held D.moment D.images store.lot
        (machine_at state (I.left inbox.old) (O.standing outbox.old)) first disk.new
        (I.left inbox.new) (outgoing O.standing O.puts outbox.new) journal next)
        × IsInTurn flow.now start.time (C.time clock.new)
        (machine_at state (I.left inbox.old) (O.standing outbox.old)) journal next
        × AreMadeAt C.given journal
        × IfSome result.closed (HandsOver flow.now ran.reached journal) }
    // At rest the time is one that the clock gave.
    ensures given { IsQuietOrBlocked result.ended → C.given (C.time clock.new) }
    // The store was closed unless something failed.
    ensures closed { MatchOption result.closed (IsFault result.ended) (λ closed. IsFault result.ended → ⊥) }
    // Whatever inbox and outbox tell.
    ensures checkpointed { EndsShort D.moment D.images checkpoint result.ended disk.new }
    ensures alone { WritesLog D.moment D.images store.log.number disk.old disk.new }
    ensures why { EndsForCause result.ended flow.now D.tells D.held D.moment D.images D.faults store.lot most
        disk.old disk.new (I.faults inbox.old) (I.faults inbox.new) (O.faults outbox.old) (O.faults outbox.new) }
{
    names_are_lost_by_taking();
    faults_end_a_run::<D>();
    run_ends::<D>();
    let mut engine = match Engine::new(alloc, flow, store, most, checkpoint, inbox) {
        Ok(engine) => engine,
        Err(error) => return fail(&error),
    };
    match drive(&mut engine, alloc, disk, inbox, outbox, clock, gate) {
        Ok(Ending::Blocked(connection)) => leave(engine.close(disk), Ended::Blocked(connection)),
        Ok(Ending::Quiet) => leave(engine.close(disk), Ended::Quiet),
        Ok(Ending::Rest { .. }) => unreachable!(),
        Err(error) => {
            let EngineError::Limit(limit) = error else {
                return fail(&error);
            };
            leave(engine.close(disk), Ended::Limit(limit))
        }
    }
}

// What a run leaves that failed.
fn fail(error: &EngineError) -> Ran
    ensures ended { result.ended ≡ ended_by error.now }
    ensures closed { result.closed ≡ None }
{
    Ran {
        ended: error.ended(),
        closed: None,
    }
}

// What a run leaves whose store was to be closed at this end.
fn leave(closed: Result<Closed, EngineError>, ended: Ended) -> Ran
    ensures ok { OnOk closed (result.ended ≡ ended) }
    ensures err { IfErr closed (λ error. result.ended ≡ ended_by error) }
    ensures closed { result.closed ≡ result_ok closed }
{
    match closed {
        Ok(closed) => Ran {
            ended,
            closed: Some(closed),
        },
        Err(error) => fail(&error),
    }
}
