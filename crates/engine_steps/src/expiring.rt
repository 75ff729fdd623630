//! Files expire.
ghost use Rattle.content_repo.specs.Slots.{IsReclaimed};
ghost use Rattle.content_repo.specs.declared.reclaim.Reclaimed.{Reclaimed as TheCount};
ghost use Rattle.flowfile_record.specs.Encoding.{IsNumber};
ghost use Rattle.machine_model.specs.declared.flow.Flow.{Flow as TheFlow};
ghost use Rattle.machine_model.specs.declared.journal.TheConstants.{RECLAIM_ENTRIES};
ghost use Rattle.run_law.specs.Going.{IsSpared};
ghost use Rattle.engine_steps.specs.Errors.{RefusesToTend};
ghost use Rattle.std.specs.Prelude.{◌≡◌, ◌⊎◌, ℕ, ◌+◌, ◌-◌, ◌^◌, ◌<◌, ◌≤◌, nat_le, true, false, List, Option, Some, None, Ok, is_some, IfOk, OnOk, IfErr, IsErrOf, IsTrue};
ghost use Rattle.disk_trait.specs.Faults.{CountsFaults};
ghost use Rattle.flowfile_record.specs.NamedFile.{NamedFile};
ghost use Rattle.flowfile_wal.specs.Calls.{InEach};
ghost use Rattle.kept_state.specs.declared.limit.Limit.{Limit as TheLimit};
ghost use Rattle.machine_model.specs.declared.journal.Step.TheVariants.{Expire};
ghost use Rattle.machine_model.specs.Due.{due_expiry};
ghost use Rattle.machine_model.specs.Sound.{IsSound};
ghost use Rattle.machine_model.specs.State.{Machine};
ghost use Rattle.store_core.specs.Change.{HasLiveContents, MayExpire};
ghost use Rattle.store_core.specs.Flow.{flow_in};
ghost use Rattle.store_core.specs.Store.{kept_by};
ghost use Rattle.engine_change.specs.Committing.{identity_of};
ghost use Rattle.engine_change.specs.Expiring.{MayExpireIn};
ghost use Rattle.engine_queues.specs.Beside.{beside};
ghost use Rattle.engine_queues.specs.Queues.{AreQueuesOf, queue_seen};
ghost use Rattle.engine_queues.specs.Views.{kept_queues};
ghost use Rattle.run_law.specs.Ending.{journal_full};
ghost use Rattle.run_law.specs.Run.{IsAtStoreLimit, StandsFor};
ghost use Rattle.engine_steps.specs.Engine.{IsOfSameRun};
ghost use Rattle.engine_steps.specs.Errors.{IsJournalFull};
ghost use Rattle.engine_steps.specs.Ready.{EngineIsReady, IsUsable, due_behind, due_in, is_log_due};
ghost use Rattle.engine_steps.specs.Running.{IsRunning, Stops, TendsRun};
ghost use Rattle.engine_steps.specs.Tending.{GoesTo, HasExpired, HasTended, IsCheckpointed, IsCutOff, StepIsDone, MakesExpiry, TendsAlone, TendsFirst, counted_on};
ghost use Rattle.run_law.specs.Work.{IsAtWork, IsNoEarlier, IsRefused, IsShortOn, WritesLog};
ghost use Rattle.engine_steps.specs.declared.error.EngineError.{EngineError as TheError};
ghost use Rattle.run_law.specs.Puts.{Outgoing, Start};
ghost use Rattle.engine_steps.specs.Committing.{IsAtWorkWithQueues};
ghost use Rattle.engine_steps.specs.TendingParts.{CommitsExpiry, LeavesTended, LetsExpiredGo, RefusesExpiry, RunsOnTended, StepIsTaken, StoreRefusesExpiry};

use crate::EngineError;
use crate::engine::Engine;
use crate::journal::note;
use crate::memory::holds_its_state;
use disk_trait::Disk;
use engine_change::{due_expiries_may_expire, expire_files, held_contents_are_read};
use engine_queues::{Expiry, Queues, what_expires_is_at_rest, what_is_kept_is_seen};
use engine_session::taken_files_stay;
use flowfile_record::Numbers;
use machine_model::{Flow, Step};
use run_law::{faults_end_a_run, run_goes_on, worlds_follow_steps};
use std::alloc::{AllocError, Global};
use store_core::{SettledExpiry, Store};

impl Engine<'_> {
    // Lets the expired files of the first connection that has some go, and answers whether there were any.
    pub(crate) fn expire_due<D: Disk>(
        &mut self,
        alloc: Global,
        disk: &mut D,
        moment: u64,
    ) -> Result<bool, EngineError>
        requires ready { EngineIsReady D.tells D.held D.moment D.images self.old disk.old }
        ensures due { IfOk result (λ done.
            done ≡ is_some (due_expiry self.old.flow (queue_seen self.old.queues) moment)) }
        ensures wanted { (limit : TheLimit) → IsErrOf result (EngineError.Limit limit)
            → is_some (due_expiry self.old.flow (queue_seen self.old.queues) moment) ≡ true }
        ensures lets_go { LetsExpiredGo result moment (D.moment disk.new) self.old self.new disk.old disk.new }
        ensures run { IsTrue D.tells → RunsOnTended result true D.tells D.held D.moment D.images moment
            self.old self.new disk.old disk.new }
        ensures leaves { LeavesTended result D.tells D.held D.moment D.images D.faults self.old self.new
            disk.old disk.new }
        ensures log { self.new.store.log.number ≡ self.old.store.log.number }
        ensures refusal { RefusesExpiry result D.tells D.held D.moment D.images self.old self.new disk.new }
    {
        holds_its_state(&self.store, disk);
        what_is_kept_is_seen();
        what_expires_is_at_rest();
        taken_files_stay();
        due_expiries_may_expire();
        worlds_follow_steps();
        run_goes_on::<D>();
        faults_end_a_run::<D>();
        let Some(expiry) = self.queues.due_expiry(alloc, moment)? else {
            return Ok(false);
        };
        if self.entries() >= self.most {
            return Err(EngineError::Limit(self.journal_limit()));
        }
        let step = expiry_step(alloc, moment, &expiry)?;
        self.journal.reserve(1)?;
        self.tended = None;
        let expired = expire(
            alloc,
            self.flow,
            &mut self.store,
            &mut self.queues,
            disk,
            moment,
            expiry,
        );
        note(&mut self.journal, step, &expired);
        expired?;
        self.since_reclaim = self.since_reclaim.saturating_add(1);
        Ok(true)
    }
}

// The step by which files expire.
fn expiry_step(alloc: Global, moment: u64, expiry: &Expiry) -> Result<Step, AllocError>
    ensures { IfOk result (λ one. one ≡ Expire expiry.now.connection expiry.now.numbers moment) }
{
    Ok(Step::Expire {
        connection: expiry.connection,
        numbers: Numbers::from_slice(alloc, expiry.numbers.as_slice())?,
        moment,
    })
}

// Lets expired files go, which are due, and answers the moment of the acknowledgement. All memory is taken before the
// commit.
fn expire<D: Disk>(
    alloc: Global,
    flow: &Flow,
    store: &mut Store,
    queues: &mut Queues,
    disk: &mut D,
    moment: u64,
    expiry: Expiry,
) -> Result<u64, EngineError>
    requires sound { IsSound flow.now }
    requires work { (out : List ℕ)
        × IsAtWorkWithQueues flow.now D.tells D.held D.moment D.images store.old out queues.old disk.old }
    requires due { due_expiry flow.now (queue_seen queues.old) moment ≡ Some (expiry.connection, expiry.numbers) }
    ensures step { IsTrue D.tells → (before : Machine)
        → InEach (D.images disk.old (D.moment disk.old)) (StandsFor flow.now store.old.lot before)
        → StepIsTaken result flow.now D.tells D.held D.moment D.images store.old.lot before
        (Expire expiry.connection expiry.numbers moment) disk.old disk.new }
    ensures commits { CommitsExpiry result D.moment D.images expiry.numbers store.old store.new
        queues.old queues.new disk.old disk.new }
    ensures work { OnOk result ((out : List ℕ)
        → IsAtWorkWithQueues flow.now D.tells D.held D.moment D.images store.old out queues.old disk.old
        → IsAtWorkWithQueues flow.now D.tells D.held D.moment D.images store.new out queues.new disk.new) }
    ensures refusal { StoreRefusesExpiry result flow.now D.tells D.held D.moment D.images D.faults store.new
        disk.old disk.new }
{
    holds_its_state(store, disk);
    held_contents_are_read();
    what_is_kept_is_seen();
    what_expires_is_at_rest();
    let expiry = settle_expiry(alloc, flow, store, moment, expiry)?;
    let prepared = store.prepare_expiry(&expiry)?;
    let moment = store.commit(disk, prepared)?;
    queues.expire(expiry.connection, expiry.settled.gone.as_slice());
    Ok(moment)
}

// What expired files change that are due: the machine has a step for it.
fn settle_expiry(
    alloc: Global,
    flow: &Flow,
    store: &Store,
    moment: u64,
    expiry: Expiry,
) -> Result<SettledExpiry, AllocError>
    requires sound { IsSound flow.now }
    requires identity { flow_in (kept_by store.now) ≡ identity_of flow.now }
    requires due { (out : List ℕ) × (due_expiry flow.now (beside out (kept_queues (kept_by store.now))) moment
        ≡ Some (expiry.connection, expiry.numbers)) }
    ensures may { IfOk result (MayExpire (kept_by store.now)) }
    ensures live { IfOk result (λ settled. HasLiveContents store.now settled.settled) }
    ensures gone { IfOk result (λ settled. settled.settled.gone ≡ expiry.numbers) }
    ensures there { IfOk result (λ settled.
        MayExpireIn flow.now (kept_by store.now) settled.connection settled.settled.gone) }
    ensures step { IfOk result (λ settled.
        MakesExpiry flow.now (kept_by store.now) expiry.connection expiry.numbers moment settled.settled) }
{
    what_is_kept_is_seen();
    due_expiries_may_expire();
    let _stored = store.state();
    let Expiry {
        connection,
        numbers,
    } = expiry;
    expire_files(alloc, flow, store, moment, connection, numbers)
}
