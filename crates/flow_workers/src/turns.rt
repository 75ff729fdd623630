//! What a worker does while it holds the lock.
ghost use Rattle.std.specs.Prelude.{◌≡◌, true, List, None};
ghost use Rattle.engine_steps.specs.Flights.{is_in_flight, names_to_come};
ghost use Rattle.engine_session.specs.Done.{WorkIsDone};
ghost use Rattle.flowfile_record.specs.NamedFile.{NamedFile};
ghost use Rattle.store_core.specs.Store.{kept_by};
ghost use Rattle.flow_workers.specs.Going.{WorkGoesOn, DeskIsInOrder, IsTended};
ghost use Rattle.flow_workers.specs.Jobs.{AreAsListed, IsReadJob};
ghost use Rattle.flow_workers.specs.declared.turns.Turn.TheVariants as turn;
ghost use Rattle.engine_session.specs.declared.job.Job.{Job as TheJob};

use crate::desk::Desk;
use disk_trait::Disk;
use engine_session::{Done, Job};
use engine_steps::{Checkout, Tended};
use std::alloc::Global;
use world_io::{Clock, Inbox, Outbox};

/// What a worker does next.
#[derive(Drop)]
pub(crate) enum Turn {
    /// It works on this job.
    Job(Job),
    /// It waits until another worker's session has ended.
    Wait,
    /// It takes another turn.
    Again,
    /// It stops: the run's cause is noted.
    Over,
}

impl<D: Disk, I: Inbox, O: Outbox, C: Clock> Desk<'_, '_, D, I, O, C> {
    /// Tends what is due, or else hands out the next session's job.
    pub(crate) fn turn(&mut self, alloc: Global) -> Turn
        requires order { DeskIsInOrder D.tells D.held D.moment D.images I.tells I.left C.time C.given self.old.seen }
        ensures goes { WorkGoesOn D.tells D.held D.moment D.images D.faults I.tells I.left I.faults O.tells O.standing
            O.puts O.faults C.time C.given self.old.seen self.new.seen }
        ensures lent { self.new.lent ≡ self.old.lent }
        ensures over { result ≡ turn.Over → self.new.seen.cause ≡ None → ⊥ }
        ensures job { (job : TheJob) → result ≡ turn.Job job → (files : List NamedFile) → (self.old.seen.cause ≡ None
            → AreAsListed I.tells files (I.left self.old.seen.inbox) (names_to_come self.old.seen.engine))
            → IsReadJob self.old.seen.engine.flow (kept_by self.old.seen.engine.store).store I.tells files job }
    {
        if self.cause.is_some() {
            return Turn::Over;
        }
        let (moment, tended) = self.tend(alloc);
        match tended {
            Ok(Tended::Nothing) => self.go_on(alloc, moment),
            Ok(Tended::Expired | Tended::Checkpointed | Tended::Reclaimed(_)) => Turn::Again,
            Err(_) => Turn::Over,
        }
    }

    // Hands out the next session's job at the moment at which all was tended. Where files wait for the end of a
    // penalty, and no session is in flight, it waits with them.
    fn go_on(&mut self, alloc: Global, moment: u64) -> Turn
        requires order { DeskIsInOrder D.tells D.held D.moment D.images I.tells I.left C.time C.given self.old.seen }
        requires tended { IsTended D.moment D.images C.time C.given moment self.old.seen }
        ensures goes { WorkGoesOn D.tells D.held D.moment D.images D.faults I.tells I.left I.faults O.tells O.standing
            O.puts O.faults C.time C.given self.old.seen self.new.seen }
        ensures lent { self.new.lent ≡ self.old.lent }
        ensures over { result ≡ turn.Over → self.new.seen.cause ≡ None → ⊥ }
        ensures job { (job : TheJob) → result ≡ turn.Job job → (files : List NamedFile)
            → AreAsListed I.tells files (I.left self.old.seen.inbox) (names_to_come self.old.seen.engine)
            → IsReadJob self.old.seen.engine.flow (kept_by self.old.seen.engine.store).store I.tells files job }
    {
        match self.check_out(alloc, moment) {
            Ok(Checkout::Session(session)) => self.hand_out(alloc, session),
            Ok(Checkout::Wait { .. }) => Turn::Wait,
            Ok(Checkout::Due) => Turn::Again,
            Ok(Checkout::Rest { until }) => {
                self.rest(until);
                Turn::Again
            }
            Ok(Checkout::Limit(_) | Checkout::Blocked(_) | Checkout::Quiet) | Err(_) => Turn::Over,
        }
    }

    // Hands out the job of a session that was checked out.
    fn hand_out(&mut self, alloc: Global, session: u64) -> Turn
        requires order { DeskIsInOrder D.tells D.held D.moment D.images I.tells I.left C.time C.given self.old.seen }
        requires none { self.old.seen.cause ≡ None }
        requires flying { is_in_flight session self.old.seen.engine.out ≡ true }
        ensures goes { WorkGoesOn D.tells D.held D.moment D.images D.faults I.tells I.left I.faults O.tells O.standing
            O.puts O.faults C.time C.given self.old.seen self.new.seen }
        ensures lent { self.new.lent ≡ self.old.lent }
        ensures over { result ≡ turn.Over → self.new.seen.cause ≡ None → ⊥ }
        ensures job { (job : TheJob) → result ≡ turn.Job job → (files : List NamedFile)
            → AreAsListed I.tells files (I.left self.old.seen.inbox) (names_to_come self.old.seen.engine)
            → IsReadJob self.old.seen.engine.flow (kept_by self.old.seen.engine.store).store I.tells files job }
    {
        match self.read(alloc, session) {
            Ok(job) => Turn::Job(job),
            Err(_) => Turn::Over,
        }
    }

    /// Makes the work on a job part of the run, unless the run has stopped.
    pub(crate) fn finish(&mut self, alloc: Global, done: Done)
        requires order { DeskIsInOrder D.tells D.held D.moment D.images I.tells I.left C.time C.given self.old.seen }
        requires done { (files : List NamedFile) × (self.old.seen.cause ≡ None
            → AreAsListed I.tells files (I.left self.old.seen.inbox) (names_to_come self.old.seen.engine))
            × WorkIsDone self.old.seen.engine.flow (kept_by self.old.seen.engine.store).store I.tells files done }
        ensures goes { WorkGoesOn D.tells D.held D.moment D.images D.faults I.tells I.left I.faults O.tells O.standing
            O.puts O.faults C.time C.given self.old.seen self.new.seen }
        ensures lent { self.new.lent ≡ self.old.lent }
    {
        if self.cause.is_none() {
            self.commit(alloc, done);
        } else {
            self.end(done.session);
        }
    }

    /// Gives up a session for whose work memory was wanting: that stops the run.
    pub(crate) fn give_up(&mut self, session: u64)
        requires order { DeskIsInOrder D.tells D.held D.moment D.images I.tells I.left C.time C.given self.old.seen }
        ensures goes { WorkGoesOn D.tells D.held D.moment D.images D.faults I.tells I.left I.faults O.tells O.standing
            O.puts O.faults C.time C.given self.old.seen self.new.seen }
        ensures lent { self.new.lent ≡ self.old.lent }
    {
        self.end(session);
        self.want();
    }
}
