//! The calls of the engine under the lock. Each notes why it stops the run, if it does.
ghost use Rattle.std.specs.Prelude.{◌≡◌, ℕ, true, List, None, Ok, IfOk};
ghost use Rattle.run_law.specs.Puts.{outgoing};
ghost use Rattle.engine_steps.specs.Flights.{is_in_flight, names_to_come};
ghost use Rattle.engine_session.specs.Done.{WorkIsDone};
ghost use Rattle.flowfile_record.specs.NamedFile.{NamedFile};
ghost use Rattle.store_core.specs.Store.{kept_by};
ghost use Rattle.flow_workers.specs.Going.{WorkGoesOn, DeskIsInOrder, IsTended};
ghost use Rattle.flow_workers.specs.Jobs.{AreAsListed, IsReadJob};
ghost use Rattle.flow_workers.specs.Seen.{ended_by_checkout, stopped_by};
ghost use Rattle.engine_steps.specs.declared.checkout.Checkout.TheVariants.{Session};
ghost use Rattle.engine_steps.specs.declared.tending.Tended.TheVariants.{Nothing};

use crate::cause::{Cause, ended_by_checkout, stopped_by};
use crate::desk::Desk;
use disk_trait::Disk;
use engine_session::{Done, Job};
use engine_steps::{Checkout, EngineError, Tended};
use session_history::{calls_play_on, played_runs_begin, played_runs_end};
use std::alloc::Global;
use world_io::{Clock, Inbox, Outbox};

impl<D: Disk, I: Inbox, O: Outbox, C: Clock> Desk<'_, '_, D, I, O, C> {
    /// Tends the first thing that is due now, and answers the moment with what was.
    pub(crate) fn tend(&mut self, alloc: Global) -> (u64, Result<Tended, EngineError>)
        requires order { DeskIsInOrder D.tells D.held D.moment D.images I.tells I.left C.time C.given self.old.seen }
        requires none { self.old.seen.cause ≡ None }
        ensures goes { WorkGoesOn D.tells D.held D.moment D.images D.faults I.tells I.left I.faults O.tells O.standing
            O.puts O.faults C.time C.given self.old.seen self.new.seen }
        ensures cause { self.new.seen.cause ≡ stopped_by result.1 }
        ensures lent { self.new.lent ≡ self.old.lent }
        ensures tended { result.1 ≡ Ok Nothing
            → IsTended D.moment D.images C.time C.given result.0 self.new.seen }
    {
        self.engine.shows_its_state(self.disk);
        calls_play_on::<D>();
        played_runs_begin::<D>();
        let moment = self.clock.now();
        let tended = self.engine.tend(alloc, self.disk, moment);
        self.cause = stopped_by(&tended);
        (moment, tended)
    }

    /// What comes next at the moment at which all was tended. A session is in flight from then on.
    pub(crate) fn check_out(&mut self, alloc: Global, moment: u64) -> Result<Checkout, EngineError>
        requires order { DeskIsInOrder D.tells D.held D.moment D.images I.tells I.left C.time C.given self.old.seen }
        requires tended { IsTended D.moment D.images C.time C.given moment self.old.seen }
        ensures goes { WorkGoesOn D.tells D.held D.moment D.images D.faults I.tells I.left I.faults O.tells O.standing
            O.puts O.faults C.time C.given self.old.seen self.new.seen }
        ensures cause { self.new.seen.cause ≡ ended_by_checkout result }
        ensures lent { self.new.lent ≡ self.old.lent }
        ensures flying { (session : ℕ) → result ≡ Ok (Session session)
            → is_in_flight session self.new.seen.engine.out ≡ true }
    {
        self.engine.shows_its_state(self.disk);
        calls_play_on::<D>();
        played_runs_end::<D>();
        let next = self.engine.checkout(alloc, moment);
        self.cause = ended_by_checkout(&next);
        next
    }

    /// Reads the job of a session in flight.
    pub(crate) fn read(&mut self, alloc: Global, session: u64) -> Result<Job, EngineError>
        requires order { DeskIsInOrder D.tells D.held D.moment D.images I.tells I.left C.time C.given self.old.seen }
        requires none { self.old.seen.cause ≡ None }
        requires flying { is_in_flight session self.old.seen.engine.out ≡ true }
        ensures goes { WorkGoesOn D.tells D.held D.moment D.images D.faults I.tells I.left I.faults O.tells O.standing
            O.puts O.faults C.time C.given self.old.seen self.new.seen }
        ensures cause { self.new.seen.cause ≡ stopped_by result }
        ensures lent { self.new.lent ≡ self.old.lent }
        ensures job { IfOk result (λ job. (files : List NamedFile)
            → AreAsListed I.tells files (I.left self.old.seen.inbox) (names_to_come self.old.seen.engine)
            → IsReadJob self.old.seen.engine.flow (kept_by self.old.seen.engine.store).store I.tells files job) }
    {
        calls_play_on::<D>();
        let job = self
            .engine
            .read(alloc, self.disk, self.inbox, self.outbox, session);
        self.cause = stopped_by(&job);
        job
    }

    /// Waits until a moment has come.
    pub(crate) fn rest(&mut self, until: u64)
        requires order { DeskIsInOrder D.tells D.held D.moment D.images I.tells I.left C.time C.given self.old.seen }
        requires none { self.old.seen.cause ≡ None }
        ensures goes { WorkGoesOn D.tells D.held D.moment D.images D.faults I.tells I.left I.faults O.tells O.standing
            O.puts O.faults C.time C.given self.old.seen self.new.seen }
        ensures lent { self.new.lent ≡ self.old.lent }
    {
        played_runs_begin::<D>();
        self.clock.wait(until);
    }

    /// Makes the work on a job part of the run, if the job still stands.
    pub(crate) fn commit(&mut self, alloc: Global, done: Done)
        requires order { DeskIsInOrder D.tells D.held D.moment D.images I.tells I.left C.time C.given self.old.seen }
        requires none { self.old.seen.cause ≡ None }
        requires done { (files : List NamedFile)
            × AreAsListed I.tells files (I.left self.old.seen.inbox) (names_to_come self.old.seen.engine)
            × WorkIsDone self.old.seen.engine.flow (kept_by self.old.seen.engine.store).store I.tells files done }
        ensures goes { WorkGoesOn D.tells D.held D.moment D.images D.faults I.tells I.left I.faults O.tells O.standing
            O.puts O.faults C.time C.given self.old.seen self.new.seen }
        ensures lent { self.new.lent ≡ self.old.lent }
    {
        calls_play_on::<D>();
        let committed = self
            .engine
            .commit(alloc, self.disk, self.inbox, self.outbox, done);
        self.cause = stopped_by(&committed);
    }

    /// Ends a session that isn't to be committed.
    pub(crate) fn end(&mut self, session: u64)
        requires order { DeskIsInOrder D.tells D.held D.moment D.images I.tells I.left C.time C.given self.old.seen }
        ensures goes { WorkGoesOn D.tells D.held D.moment D.images D.faults I.tells I.left I.faults O.tells O.standing
            O.puts O.faults C.time C.given self.old.seen self.new.seen }
        ensures cause { self.new.seen.cause ≡ self.old.seen.cause }
        ensures lent { self.new.lent ≡ self.old.lent }
    {
        calls_play_on::<D>();
        self.engine.end(session);
    }

    /// Notes that memory was wanting, unless the run has stopped.
    pub(crate) fn want(&mut self)
        requires order { DeskIsInOrder D.tells D.held D.moment D.images I.tells I.left C.time C.given self.old.seen }
        ensures goes { WorkGoesOn D.tells D.held D.moment D.images D.faults I.tells I.left I.faults O.tells O.standing
            O.puts O.faults C.time C.given self.old.seen self.new.seen }
        ensures cause { self.new.seen.cause ≡ None → ⊥ }
        ensures lent { self.new.lent ≡ self.old.lent }
    {
        played_runs_begin::<D>();
        if self.cause.is_none() {
            self.cause = Some(Cause::Stopped(EngineError::Memory));
        }
    }
}
