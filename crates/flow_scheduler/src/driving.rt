//! An engine goes on until nothing is left to do.
ghost use Rattle.std.specs.Prelude.{◌≡◌, ℕ, None, Some, IfOk, OnOk};
ghost use Rattle.engine_choice.specs.declared.choice.Ending.{Ending as TheEnding};
ghost use Rattle.engine_steps.specs.Errors.{CountsEachFault};
ghost use Rattle.engine_steps.specs.Leaving.{MayGoOn};
ghost use Rattle.engine_steps.specs.Ready.{due_in};
ghost use Rattle.flow_scheduler.specs.Driving.{DrivesRun, GrowsAt, IsEnded, IsOnlySession, IsTurned, KeepsTime, LeavesRun, MayTurn, RunsInTurn};
ghost use Rattle.run_law.specs.Puts.{outgoing};
ghost use Rattle.run_law.specs.Work.{IsNoEarlier, IsShortOn};

use disk_trait::Disk;
use engine_choice::{Ending, choices_are_seen, choices_are_sessions, ends_are_machine_ends};
use engine_session::{sessions_are_steps, work};
use engine_steps::{Checkout, Engine, EngineError, Tended};
use run_law::{faults_end_a_run, run_goes_on, turns_go_on};
use std::alloc::Global;
use world_io::{Clock, Gate, Inbox, Outbox};

/// Tends what is due and runs session after session, until the flow is quiet or blocked. Where files wait for the
/// end of a penalty, it waits with them.
pub(crate) fn drive<D: Disk, I: Inbox, O: Outbox, C: Clock, G: Gate>(
    engine: &mut Engine<'_>,
    alloc: Global,
    disk: &mut D,
    inbox: &mut I,
    outbox: &mut O,
    clock: &mut C,
    gate: &G,
) -> Result<Ending, EngineError>
    requires may { MayTurn D.tells D.held D.moment D.images I.tells (I.left inbox.old) engine.old disk.old }
    // The run went on until nothing was left to do, or it was stopped.
    ensures run { DrivesRun result IsEnded D.tells I.tells O.tells D.held D.moment D.images engine.old engine.new
        (C.time clock.old) (C.time clock.new) disk.old disk.new (I.left inbox.old) (I.left inbox.new)
        (outgoing O.standing O.puts outbox.old) (outgoing O.standing O.puts outbox.new) }
    ensures no_rest { IfOk result (λ ending. (until : ℕ) → ending ≡ Ending.Rest until → ⊥) }
    ensures short { OnOk result (IsShortOn D.moment D.images engine.new.checkpoint disk.new) }
    // Whatever inbox and outbox tell.
    ensures leaves { LeavesRun result D.tells D.held D.moment D.images I.tells (I.left inbox.new) engine.old engine.new
        disk.old disk.new }
    // Each moment of a step, and that of the end, is one that the clock gave.
    ensures clock { KeepsTime result C.given (C.time clock.old) (C.time clock.new)
        engine.old.journal engine.new.journal }
    ensures cause { CountsEachFault result (D.faults disk.old) (D.faults disk.new)
        (I.faults inbox.old) (I.faults inbox.new) (O.faults outbox.old) (O.faults outbox.new) }
{
    faults_end_a_run::<D>();
    turns_go_on();
    for _turn in 0..u64::MAX {
        let moment = clock.now();
        match turn(engine, alloc, disk, inbox, outbox, moment, gate)? {
            None => {}
            Some(Ending::Rest { until }) => clock.wait(until),
            Some(Ending::Blocked(connection)) => return Ok(Ending::Blocked(connection)),
            Some(Ending::Quiet) => return Ok(Ending::Quiet),
        }
    }
    // No machine takes so many turns.
    Err(EngineError::Memory)
}

// Tends what is due, or else runs the next session. Where none comes, it tells how it ends.
fn turn<D: Disk, I: Inbox, O: Outbox, G: Gate>(
    engine: &mut Engine<'_>,
    alloc: Global,
    disk: &mut D,
    inbox: &mut I,
    outbox: &mut O,
    moment: u64,
    gate: &G,
) -> Result<Option<Ending>, EngineError>
    requires may { MayTurn D.tells D.held D.moment D.images I.tells (I.left inbox.old) engine.old disk.old }
    ensures run { DrivesRun result IsTurned D.tells I.tells O.tells D.held D.moment D.images engine.old engine.new
        moment moment disk.old disk.new (I.left inbox.old) (I.left inbox.new)
        (outgoing O.standing O.puts outbox.old) (outgoing O.standing O.puts outbox.new) }
    ensures short { IfOk result (λ ending. (end : TheEnding) → ending ≡ Some end
        → IsShortOn D.moment D.images engine.new.checkpoint disk.new) }
    ensures leaves { LeavesRun result D.tells D.held D.moment D.images I.tells (I.left inbox.new) engine.old engine.new
        disk.old disk.new }
    ensures grows { GrowsAt moment engine.old.journal engine.new.journal }
    ensures log { OnOk result (IsNoEarlier engine.old.store.log.number engine.new.store.log.number) }
    ensures cause { CountsEachFault result (D.faults disk.old) (D.faults disk.new)
        (I.faults inbox.old) (I.faults inbox.new) (O.faults outbox.old) (O.faults outbox.new) }
{
    engine.shows_its_state(disk);
    turns_go_on();
    match engine.tend(alloc, disk, moment)? {
        Tended::Nothing => go_on(engine, alloc, disk, inbox, outbox, moment, gate),
        Tended::Expired | Tended::Checkpointed | Tended::Reclaimed(_) => Ok(None),
    }
}

// Runs the next session. Where none comes, it tells how it ends.
fn go_on<D: Disk, I: Inbox, O: Outbox, G: Gate>(
    engine: &mut Engine<'_>,
    alloc: Global,
    disk: &mut D,
    inbox: &mut I,
    outbox: &mut O,
    moment: u64,
    gate: &G,
) -> Result<Option<Ending>, EngineError>
    requires may { MayTurn D.tells D.held D.moment D.images I.tells (I.left inbox.old) engine.old disk.old }
    requires tended { due_in engine.old moment ≡ None }
    requires short { IsShortOn D.moment D.images engine.old.checkpoint disk.old }
    ensures run { DrivesRun result IsTurned D.tells I.tells O.tells D.held D.moment D.images engine.old engine.new
        moment moment disk.old disk.new (I.left inbox.old) (I.left inbox.new)
        (outgoing O.standing O.puts outbox.old) (outgoing O.standing O.puts outbox.new) }
    ensures short { IfOk result (λ ending. (end : TheEnding) → ending ≡ Some end
        → IsShortOn D.moment D.images engine.new.checkpoint disk.new) }
    ensures leaves { LeavesRun result D.tells D.held D.moment D.images I.tells (I.left inbox.new) engine.old engine.new
        disk.old disk.new }
    ensures grows { GrowsAt moment engine.old.journal engine.new.journal }
    ensures log { engine.new.store.log.number ≡ engine.old.store.log.number }
    ensures cause { CountsEachFault result (D.faults disk.old) (D.faults disk.new)
        (I.faults inbox.old) (I.faults inbox.new) (O.faults outbox.old) (O.faults outbox.new) }
{
    engine.shows_its_state(disk);
    choices_are_sessions();
    choices_are_seen();
    sessions_are_steps();
    ends_are_machine_ends();
    turns_go_on();
    run_goes_on::<D>();
    faults_end_a_run::<D>();
    match engine.checkout(alloc, moment)? {
        // All that is due was tended before.
        Checkout::Due => unreachable!(),
        Checkout::Session(session) => {
            run_session(engine, alloc, disk, inbox, outbox, moment, session, gate)?;
            Ok(None)
        }
        // No session is in flight between two turns.
        Checkout::Wait { .. } => unreachable!(),
        Checkout::Limit(limit) => Err(EngineError::Limit(limit)),
        Checkout::Rest { until } => Ok(Some(Ending::Rest { until })),
        Checkout::Blocked(connection) => Ok(Some(Ending::Blocked(connection))),
        Checkout::Quiet => Ok(Some(Ending::Quiet)),
    }
}

// Runs a session that was checked out as the only one in flight: its job is read, worked on and committed. Where the
// job has changed, the session has ended, and nothing is done.
fn run_session<D: Disk, I: Inbox, O: Outbox, G: Gate>(
    engine: &mut Engine<'_>,
    alloc: Global,
    disk: &mut D,
    inbox: &mut I,
    outbox: &mut O,
    moment: u64,
    session: u64,
    gate: &G,
) -> Result<(), EngineError>
    requires may { MayGoOn D.tells D.held D.moment D.images I.tells (I.left inbox.old) engine.old disk.old }
    requires chosen { IsOnlySession D.tells D.moment D.images moment session engine.old disk.old }
    ensures run { DrivesRun result (λ done. RunsInTurn) D.tells I.tells O.tells D.held D.moment D.images
        engine.old engine.new moment moment disk.old disk.new (I.left inbox.old) (I.left inbox.new)
        (outgoing O.standing O.puts outbox.old) (outgoing O.standing O.puts outbox.new) }
    ensures leaves { LeavesRun result D.tells D.held D.moment D.images I.tells (I.left inbox.new) engine.old engine.new
        disk.old disk.new }
    ensures grows { GrowsAt moment engine.old.journal engine.new.journal }
    ensures log { engine.new.store.log.number ≡ engine.old.store.log.number }
    ensures cause { CountsEachFault result (D.faults disk.old) (D.faults disk.new)
        (I.faults inbox.old) (I.faults inbox.new) (O.faults outbox.old) (O.faults outbox.new) }
{
    choices_are_seen();
    turns_go_on();
    run_goes_on::<D>();
    faults_end_a_run::<D>();
    let job = engine.read(alloc, disk, inbox, outbox, session)?;
    let done = work(alloc, engine.flow(), engine.store_id(), job, gate)?;
    engine.commit(alloc, disk, inbox, outbox, done)?;
    Ok(())
}
