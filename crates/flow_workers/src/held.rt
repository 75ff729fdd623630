//! The engine and its devices under the lock, for one run.
ghost use Rattle.std.specs.Prelude.{◌≡◌, None, IfOk};
ghost use Rattle.engine_session.specs.Done.{WorkIsDone};
ghost use Rattle.engine_session.specs.declared.job.Job.{Job as TheJob};
ghost use Rattle.flow_workers.specs.Held.{IsUnderLock};
ghost use Rattle.flow_workers.specs.Jobs.{IsReadJob};
ghost use Rattle.flow_workers.specs.declared.turns.Turn.TheVariants as turn;

use crate::desk::Desk;
use crate::turns::Turn;
use disk_trait::Disk;
use engine_session::{Done, Job, work};
use machine_model::Flow;
use std::alloc::{AllocError, Global};
use std::marker::{Brand, Model, PhantomData};
use world_io::{Clock, Gate, Inbox, Outbox};

/// A run's flow, the id of its store, the files that were left in the inbox as it began, and the names of the devices
/// that were lent to it.
pub(crate) trait Named {
    ghost use Rattle.std.specs.Prelude.{ℕ, List};
    ghost use Rattle.flowfile_record.specs.NamedFile.{NamedFile};
    ghost use Rattle.machine_model.specs.declared.flow.Flow.{Flow};
    ghost use Rattle.flow_workers.specs.Seen.{LentNames};

    ghost flow: { Flow };

    ghost store: { ℕ };

    ghost files: { List NamedFile };

    ghost lent: { LentNames };
}

impl Named for Brand {
    ghost use Rattle.std.specs.Prelude.{[]};

    ghost flow = { record { processors = []; connections = []; digest = [] } };

    ghost store = { 0 };

    ghost files = { [] };

    ghost lent = { (0, 0, 0, 0) };
}

/// What engine and devices were as it began.
pub(crate) trait Run<D, I, O, C>: Named {
    ghost use Rattle.std.specs.Prelude.{Option};
    ghost use Rattle.flow_workers.specs.Seen.{Seen};

    ghost began: { Option (Seen D I O C) };
}

impl<D, I, O, C> Run<D, I, O, C> for Brand {
    ghost use Rattle.std.specs.Prelude.{None};

    ghost began = { None };
}

/// What workers of one run share. Whoever takes the lock finds that the run has gone on since it began.
pub(crate) struct Held<'d, 'f, R: Run<D, I, O, C>, D: Disk, I: Inbox, O: Outbox, C: Clock> {
    desk: Desk<'d, 'f, D, I, O, C>,
    of: PhantomData<R>,
}

impl<'d, 'f, R: Run<D, I, O, C>, D: Disk, I: Inbox, O: Outbox, C: Clock> Model
    for Held<'d, 'f, R, D, I, O, C> {
    ghost use Rattle.std.specs.Coded.{codes};
    ghost use Rattle.flowfile_record.specs.contracts.attributes.Attributes as attributes;
    ghost use Rattle.machine_model.specs.contracts.flow.Flow as the_flow;
    ghost use Rattle.flow_workers.specs.Held.{IsUnderLock};
    ghost use Rattle.flow_workers.specs.Seen.{AtDesk};

    ghost Value = { AtDesk D I O C };

    ghost coded = { Prim.hlevel (codes, attributes.the_row.coded, the_flow.the_row.coded) };

    ghost view = { λ held. held.desk };

    ghost invariant = { λ held. IsUnderLock D.tells D.held D.moment D.images D.faults I.tells I.left I.faults O.tells
        O.standing O.puts O.faults C.time C.given R.flow R.store R.files R.lent R.began held.desk };
}

impl<'d, 'f, R: Run<D, I, O, C>, D: Disk, I: Inbox, O: Outbox, C: Clock> Held<
    'd,
    'f,
    R,
    D,
    I,
    O,
    C,
> {
    /// What these are under the lock.
    pub(crate) fn new(desk: Desk<'d, 'f, D, I, O, C>) -> Held<'d, 'f, R, D, I, O, C>
        requires { IsUnderLock D.tells D.held D.moment D.images D.faults I.tells I.left I.faults O.tells O.standing
            O.puts O.faults C.time C.given R.flow R.store R.files R.lent R.began desk }
        ensures { result ≡ desk.entry }
    {
        Held {
            desk,
            of: PhantomData,
        }
    }

    /// Takes them out.
    pub(crate) fn into_desk(self) -> Desk<'d, 'f, D, I, O, C>
        ensures same { result ≡ self.entry }
        ensures held { IsUnderLock D.tells D.held D.moment D.images D.faults I.tells I.left I.faults O.tells O.standing
            O.puts O.faults C.time C.given R.flow R.store R.files R.lent R.began result }
    {
        let Held {
            desk,
            of: PhantomData,
        } = self;
        desk
    }

    /// Tends what is due, or else hands out the next session's job.
    pub(crate) fn turn(&mut self, alloc: Global) -> Turn
        ensures over { result ≡ turn.Over → self.new.seen.cause ≡ None → ⊥ }
        ensures job { (job : TheJob) → result ≡ turn.Job job → IsReadJob R.flow R.store I.tells R.files job }
    {
        self.desk.turn(alloc)
    }

    /// Makes the work on a job part of the run, unless the run has stopped.
    pub(crate) fn finish(&mut self, alloc: Global, done: Done)
        requires { WorkIsDone R.flow R.store I.tells R.files done }
    {
        self.desk.finish(alloc, done);
    }

    /// Gives up a session for whose work memory was wanting: that stops the run.
    pub(crate) fn give_up(&mut self, session: u64) {
        self.desk.give_up(session);
    }

    // Notes that memory was wanting, unless the run has stopped.
    fn want(&mut self)
        ensures { self.new.seen.cause ≡ None → ⊥ }
    {
        self.desk.want();
    }

    /// Goes on in this thread alone, until the run has stopped.
    pub(crate) fn go_on_alone<G: Gate>(&mut self, alloc: Global, flow: &Flow, store: u64, gate: &G)
        requires flow { flow.now ≡ R.flow }
        requires store { store ≡ R.store }
        ensures { self.new.seen.cause ≡ None → ⊥ }
    {
        for _ in 0..u64::MAX {
            match self.turn(alloc) {
                Turn::Job(job) => self.work_on(alloc, flow, store, job, gate),
                Turn::Again => {}
                Turn::Over => return,
                // Nobody else has a session that could end.
                Turn::Wait => break,
            }
        }
        self.want();
    }

    // Works on a job that was handed out, and makes that part of the run.
    fn work_on<G: Gate>(&mut self, alloc: Global, flow: &Flow, store: u64, job: Job, gate: &G)
        requires flow { flow.now ≡ R.flow }
        requires store { store ≡ R.store }
        requires job { IsReadJob R.flow R.store I.tells R.files job }
    {
        let session = job.session;
        match work(alloc, flow, store, job, gate) {
            Ok(done) => self.finish(alloc, done),
            Err(AllocError) => self.give_up(session),
        }
    }
}
