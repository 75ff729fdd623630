//! What an engine does between two sessions: files expire, a new log begins, and claims are reclaimed.
ghost use Rattle.machine_model.specs.declared.journal.Step.TheVariants.{Expire};
ghost use Rattle.machine_model.specs.Due.{due_expiry};
ghost use Rattle.machine_model.specs.Sound.{IsSound};
ghost use Rattle.store_core.specs.Change.{HasLiveContents, MayExpire};
ghost use Rattle.store_core.specs.Flow.{flow_in};
ghost use Rattle.engine_change.specs.Committing.{identity_of};
ghost use Rattle.engine_change.specs.Expiring.{MayExpireIn};
ghost use Rattle.engine_queues.specs.Queues.{AreQueuesOf, queue_seen};
ghost use Rattle.engine_queues.specs.Views.{kept_queues};
ghost use Rattle.std.specs.Prelude.{◌≡◌, ◌⊎◌, ℕ, ◌+◌, ◌-◌, ◌^◌, ◌<◌, ◌≤◌, nat_le, true, false, List, Option, Some, None, Ok, is_some, IfOk, OnOk, IfErr, IsErrOf, IsTrue};
ghost use Rattle.disk_trait.specs.Faults.{CountsFaults};
ghost use Rattle.content_repo.specs.Slots.{IsReclaimed};
ghost use Rattle.content_repo.specs.declared.reclaim.Reclaimed.{Reclaimed as TheCount};
ghost use Rattle.flowfile_record.specs.Encoding.{IsNumber};
ghost use Rattle.flowfile_record.specs.NamedFile.{NamedFile};
ghost use Rattle.flowfile_wal.specs.Calls.{InEach};
ghost use Rattle.kept_state.specs.declared.limit.Limit.{Limit as TheLimit};
ghost use Rattle.machine_model.specs.declared.flow.Flow.{Flow as TheFlow};
ghost use Rattle.machine_model.specs.declared.journal.TheConstants.{RECLAIM_ENTRIES};
ghost use Rattle.machine_model.specs.State.{Machine};
ghost use Rattle.store_core.specs.Store.{kept_by};
ghost use Rattle.run_law.specs.Ending.{journal_full};
ghost use Rattle.run_law.specs.Going.{IsSpared};
ghost use Rattle.run_law.specs.Run.{IsAtStoreLimit, StandsFor};
ghost use Rattle.engine_steps.specs.Engine.{IsOfSameRun};
ghost use Rattle.engine_steps.specs.Errors.{IsJournalFull, RefusesToTend};
ghost use Rattle.engine_steps.specs.Ready.{EngineIsReady, Expiry, IsUsable, due_behind, due_in, is_log_due};
ghost use Rattle.engine_steps.specs.Running.{IsRunning, Stops, TendsRun};
ghost use Rattle.engine_steps.specs.Tending.{GoesTo, HasExpired, HasTended, IsCheckpointed, IsCutOff, StepIsDone, MakesExpiry, TendsAlone, TendsFirst, counted_on};
ghost use Rattle.run_law.specs.Work.{IsAtWork, IsNoEarlier, IsRefused, IsShortOn, WritesLog};
ghost use Rattle.engine_steps.specs.declared.error.EngineError.{EngineError as TheError};
ghost use Rattle.engine_steps.specs.declared.tending.Tended.TheVariants.{Expired, Nothing};
ghost use Rattle.run_law.specs.Puts.{Outgoing, Start};
ghost use Rattle.engine_steps.specs.TendingParts.{BeginsLog, LeavesTended, LogIsBegun, ReclaimsClaims, RefusesExpiry, RunsOnSpared, RunsOnTended, SparesStore};

use crate::EngineError;
use crate::engine::Engine;
use content_repo::Reclaimed;
use disk_trait::Disk;
use flowfile_record::NUMBER_LIMIT;
use machine_model::RECLAIM_ENTRIES;
use run_law::{faults_end_a_run, run_goes_on};
use std::alloc::Global;
use store_core::Store;

/// What was due, and is done.
#[derive(Clone, Copy, Debug, PartialEq, Eq)]
pub enum Tended {
    /// Files of a connection had expired, and are gone.
    Expired,
    /// A new log has begun behind a snapshot.
    Checkpointed,
    /// The claims that no live content stands in are empty: so many.
    Reclaimed(Reclaimed),
    Nothing,
}

impl Engine<'_> {
    /// Does the first thing that is due at a moment: it lets the expired files of the first connection that has some go,
    /// or begins a new log behind a snapshot, or reclaims the claims. Inbox and outbox aren't called.
    pub fn tend<D: Disk>(
        &mut self,
        alloc: Global,
        disk: &mut D,
        moment: u64,
    ) -> Result<Tended, EngineError>
        requires usable { IsUsable D.tells D.held D.moment D.images self.old disk.old }
        ensures tended { TendsFirst result D.moment D.images moment self.old self.new disk.old disk.new }
        // The run goes on, at the time that it had where nothing expired, or it is stopped.
        ensures run { IsTrue D.tells
            → TendsRun result D.tells D.held D.moment D.images moment self.old self.new disk.old disk.new }
        // Whatever inbox and outbox tell.
        ensures usable { IsUsable D.tells D.held D.moment D.images self.new disk.new }
        ensures alone { TendsAlone result D.moment D.images self.old self.new disk.old disk.new }
        ensures refusal { RefusesToTend result D.tells D.held D.moment D.images D.faults self.old self.new
            disk.old disk.new }
    {
        if self.has_failed {
            return Err(EngineError::MustReopen);
        }
        let tended = self.tend_first(alloc, disk, moment);
        if let Err(EngineError::Disk) = &tended {
            self.has_failed = true;
        }
        tended
    }

    // Does the first thing that is due, by a store that works.
    fn tend_first<D: Disk>(
        &mut self,
        alloc: Global,
        disk: &mut D,
        moment: u64,
    ) -> Result<Tended, EngineError>
        requires ready { EngineIsReady D.tells D.held D.moment D.images self.old disk.old }
        ensures tended { TendsFirst result D.moment D.images moment self.old self.new disk.old disk.new }
        ensures run { IsTrue D.tells → RunsOnTended result Expired D.tells D.held D.moment D.images moment
            self.old self.new disk.old disk.new }
        ensures leaves { LeavesTended result D.tells D.held D.moment D.images D.faults self.old self.new
            disk.old disk.new }
        ensures log { OnOk result (IsNoEarlier self.old.store.log.number self.new.store.log.number) }
        ensures refusal { RefusesExpiry result D.tells D.held D.moment D.images self.old self.new disk.new }
    {
        if self.expire_due(alloc, disk, moment)? {
            return Ok(Tended::Expired);
        }
        if self.checkpoint_due(disk)? {
            return Ok(Tended::Checkpointed);
        }
        if let Some(reclaimed) = self.reclaim_due(disk)? {
            return Ok(Tended::Reclaimed(reclaimed));
        }
        self.tended = Some(moment);
        Ok(Tended::Nothing)
    }

    // Begins a new log behind a snapshot where that is due, and answers whether it was. All memory is taken before the
    // first call of the disk.
    fn checkpoint_due<D: Disk>(&mut self, disk: &mut D) -> Result<bool, EngineError>
        requires { EngineIsReady D.tells D.held D.moment D.images self.old disk.old }
        ensures due { IfOk result (λ made. made ≡ is_log_due self.old.checkpoint self.old.store) }
        ensures begins { BeginsLog result D.moment D.images self.old self.new disk.old disk.new }
        ensures run { RunsOnSpared result D.tells D.held D.moment D.images self.old self.new disk.old disk.new }
        ensures leaves { LeavesTended result D.tells D.held D.moment D.images D.faults self.old self.new
            disk.old disk.new }
        ensures log { OnOk result (IsNoEarlier self.old.store.log.number self.new.store.log.number) }
        ensures kinds { IfErr result (λ error. (error ≡ EngineError.Disk) ⊎ (error ≡ EngineError.Memory)) }
    {
        if !wants_checkpoint(&self.store, self.checkpoint) {
            return Ok(false);
        }
        run_goes_on::<D>();
        faults_end_a_run::<D>();
        self.tended = None;
        checkpoint(&mut self.store, disk)?;
        Ok(true)
    }

    // Reclaims the claims where that is due, and answers how many became empty.
    fn reclaim_due<D: Disk>(&mut self, disk: &mut D) -> Result<Option<Reclaimed>, EngineError>
        requires { EngineIsReady D.tells D.held D.moment D.images self.old disk.old }
        ensures due { IfOk result (λ answer. is_some answer ≡ nat_le RECLAIM_ENTRIES self.old.since_reclaim) }
        ensures reclaims { ReclaimsClaims result self.old self.new disk.old disk.new }
        ensures run { RunsOnSpared result D.tells D.held D.moment D.images self.old self.new disk.old disk.new }
        ensures leaves { LeavesTended result D.tells D.held D.moment D.images D.faults self.old self.new
            disk.old disk.new }
        ensures log { self.new.store.log.number ≡ self.old.store.log.number }
        ensures kinds { IfErr result (λ error. error ≡ EngineError.Disk) }
    {
        if self.since_reclaim < RECLAIM_ENTRIES {
            return Ok(None);
        }
        run_goes_on::<D>();
        faults_end_a_run::<D>();
        self.tended = None;
        let reclaimed = reclaim(&mut self.store, disk)?;
        self.since_reclaim = 0;
        Ok(Some(reclaimed))
    }
}

/// Whether the log has entries, as many as it takes, and another one can follow it.
pub(crate) fn wants_checkpoint(store: &Store, checkpoint: u64) -> bool
    ensures due { result ≡ is_log_due checkpoint store.now }
    ensures next { result ≡ true → (number : ℕ) → store.now.log.number ≡ Some number → IsNumber (number + 1) }
    ensures counted { checkpoint < 2 ^ 64 }
{
    let entries = store.log_entries();
    entries > 0 && entries >= checkpoint && store.log_number() < NUMBER_LIMIT - 1
}

// Begins a new log behind a snapshot. Whatever a stop leaves stands for the same state.
fn checkpoint<D: Disk>(store: &mut Store, disk: &mut D) -> Result<(), EngineError>
    requires work { (flow : TheFlow) × IsAtWork flow D.tells D.held D.moment D.images store.old disk.old }
    requires number { (number : ℕ) → store.old.log.number ≡ Some number → IsNumber (number + 1) }
    ensures spares { SparesStore result D.tells D.held D.moment D.images store.old store.new disk.old disk.new }
    ensures begun { LogIsBegun result D.moment D.images store.old store.new disk.old disk.new }
    ensures kinds { IfErr result (λ error. (error ≡ EngineError.Disk) ⊎ (error ≡ EngineError.Memory)) }
    ensures cause { CountsFaults (D.faults disk.old) (D.faults disk.new) (IsErrOf result EngineError.Disk) }
{
    let _number = store.log_number();
    store.checkpoint(disk)?;
    Ok(())
}

// Empties the claims that no live content stands in. Whatever a stop leaves stands for the same state.
fn reclaim<D: Disk>(store: &mut Store, disk: &mut D) -> Result<Reclaimed, EngineError>
    requires { (flow : TheFlow) × IsAtWork flow D.tells D.held D.moment D.images store.old disk.old }
    ensures spares { SparesStore result D.tells D.held D.moment D.images store.old store.new disk.old disk.new }
    ensures log { store.new.log.number ≡ store.old.log.number }
    ensures reclaimed { IfOk result (IsReclaimed store.old.slots store.new.slots) }
    ensures kinds { IfErr result (λ error. error ≡ EngineError.Disk) }
    ensures cause { CountsFaults (D.faults disk.old) (D.faults disk.new) (IsErrOf result EngineError.Disk) }
{
    let reclaimed = store.reclaim(disk)?;
    Ok(reclaimed)
}
