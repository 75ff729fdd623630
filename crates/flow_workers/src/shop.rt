//! The lock, and what a worker does outside of it.
ghost use Rattle.std.specs.Prelude.{◌≡◌, IfSome};
ghost use Rattle.flow_workers.specs.Jobs.{IsReadJob};

use crate::held::{Held, Run};
use crate::turns::Turn;
use disk_trait::Disk;
use engine_session::{Job, work};
use machine_model::Flow;
use std::alloc::{AllocError, Global};
use std::sync::{Condvar, Mutex, Wait};
use std::thread;
use std::thread::Threads;
use world_io::{Clock, Gate, Inbox, Outbox};

/// What the workers of a run share, whoever of them wakes whom, the flow, and the id of its store.
pub(crate) struct Shop<'d, 'f, R: Run<D, I, O, C>, D: Disk, I: Inbox, O: Outbox, C: Clock> {
    pub(crate) held: Mutex<Held<'d, 'f, R, D, I, O, C>>,
    pub(crate) changed: Condvar,
    pub(crate) flow: &'f Flow,
    pub(crate) store: u64,
    pub(crate) ghost flow_is: { flow.now ≡ R.flow },
    pub(crate) ghost store_is: { store ≡ R.store },
}

impl<'d, 'f, R: Run<D, I, O, C>, D: Disk, I: Inbox, O: Outbox, C: Clock> Shop<
    'd,
    'f,
    R,
    D,
    I,
    O,
    C,
> {
    /// So many workers, each in a thread, run the flow until the run has stopped. Where their places can't be made,
    /// none does.
    pub(crate) fn open<G: Gate, T: Threads + Wait + Sync>(
        &self,
        rt: &T,
        alloc: Global,
        gate: &G,
        workers: usize,
    )
    where
        R: Send + Sync,
    {
        let mut places = Vec::new(alloc);
        let Ok(()) = places.resize(workers, 0u8) else {
            return;
        };
        if workers > 0 {
            thread::for_each_mut(
                rt,
                places.as_mut_slice(),
                workers,
                &|_, _| { self.serve(rt, alloc, gate) },
            );
        }
    }

    /// What the workers left.
    pub(crate) fn close(self) -> Held<'d, 'f, R, D, I, O, C> {
        let Shop {
            held,
            changed: _changed,
            flow: _flow,
            store: _store,
        } = self;
        held.into_inner()
    }

    // A worker: takes a job, works on it without the lock, and makes that part of the run, again and again.
    fn serve<G: Gate, T: Wait>(&self, rt: &T, alloc: Global, gate: &G) {
        for _ in rt.forever() {
            let Some(job) = self.next(rt, alloc) else {
                break;
            };
            let session = job.session;
            match work(alloc, self.flow, self.store, job, gate) {
                Ok(done) => self.held.lock(rt).finish(alloc, done),
                Err(AllocError) => self.held.lock(rt).give_up(session),
            }
            self.changed.notify_all();
        }
    }

    // The next job, as soon as there is one; none where the run has stopped.
    fn next<T: Wait>(&self, rt: &T, alloc: Global) -> Option<Job>
        ensures { IfSome result (IsReadJob R.flow R.store I.tells R.files) }
    {
        let mut held = self.held.lock(rt);
        for _ in rt.forever() {
            match held.turn(alloc) {
                Turn::Job(job) => return Some(job),
                Turn::Again => {}
                Turn::Wait => held = self.changed.wait(rt, held),
                Turn::Over => {
                    self.changed.notify_all();
                    return None;
                }
            }
        }
        unreachable!()
    }
}
