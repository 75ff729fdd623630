//! The store: what a flow keeps, in memory and on a disk.
ghost use Rattle.std.specs.Prelude.{◌≡◌, ◌⊎◌, [], true, false, Some, None, IfOk, OnOk, IsErrOf, IfErr, Contains, IsTrue};
ghost use Rattle.disk_trait.specs.Images.{Since, Stays, IsOnly, After};
ghost use Rattle.disk_trait.specs.declared.damage.Damage.{Damage as TheDamage};
ghost use Rattle.flowfile_record.specs.Stored.{kept_of};
ghost use Rattle.flowfile_record.specs.declared.change.Change.TheVariants as change;
ghost use Rattle.checkpoint_store.specs.Consistent.{IsConsistent};
ghost use Rattle.content_repo.specs.Claims.{AreEmptied, IsRead, IdleShortened};
ghost use Rattle.content_repo.specs.Slots.{IsReclaimed};
ghost use Rattle.kept_state.specs.Changes.{entry_of_change, expiry_entry};
ghost use Rattle.kept_state.specs.Limits.{live_limit, numbers_limit};
ghost use Rattle.kept_state.specs.declared.limit.Limit.{Limit as TheLimit};
ghost use Rattle.store_core.specs.Calls.{KeepsMeaning, RefusesToRead, StopsOnFault};
ghost use Rattle.store_core.specs.Change.{MayChange, MayExpire, ChangeIsWithinLimits, IsLimitOf, kept_with};
ghost use Rattle.store_core.specs.Committed.{IsPreparedChange};
ghost use Rattle.store_core.specs.Store.{kept_by, live_in, IsKeptOn, IsTidy};
ghost use Rattle.store_core.specs.Touched.{Frees};

use crate::contents::{fresh_sizes, let_go};
use crate::{Prepared, SettledExpiry, StoreError};
use content_repo::{Content, ContentError, Reclaimed};
use disk_trait::Disk;
use flowfile_record::{ContentRef, EventCounts, Settled, Stored};
use flowfile_wal::Log;
use kept_state::KeptState;
use prov_store::{EventBlocks, Events};
use std::alloc::Global;
use std::marker::Model;

/// What a flow keeps, in memory and on a disk. It holds no disk: each call takes it, and it is the one that the store
/// was opened on.
#[derive(Drop)]
pub struct Store {
    pub(crate) alloc: Global,
    pub(crate) state: KeptState,
    pub(crate) log: Log,
    // How many entries stand in the log behind its Begin.
    pub(crate) entries: u64,
    pub(crate) contents: Content,
    // The contents that the store was opened with, which are held once more until it is closed.
    pub(crate) opened: Vec<ContentRef>,
    pub(crate) events: Events,
    pub(crate) lot: u64,
    pub(crate) has_failed: bool,
}

impl Model for Store {
    ghost use Rattle.store_core.specs.Store.{StoreState, store_in, IsSoundStore};
    ghost use Rattle.std.specs.Coded.{codes};
    ghost use Rattle.flowfile_record.specs.contracts.attributes.Attributes as attributes;

    ghost Value = { StoreState };

    ghost coded = { Prim.hlevel (codes, attributes.the_row.coded) };

    ghost view = { λ store. store_in store.state store.log store.entries store.contents store.opened.items store.events
        store.lot store.has_failed };

    ghost invariant = { λ store. IsSoundStore (store_in store.state store.log store.entries store.contents
        store.opened.items store.events store.lot store.has_failed) };
}

impl Store {
    /// What is kept.
    pub fn state(&self) -> &Stored
        ensures kept { kept_of result.now ≡ kept_by self.now }
        ensures consistent { IsConsistent (kept_by self.now) }
        ensures no_batches { (kept_by self.now).batches ≡ [] }
        ensures last_event { self.now.failed ≡ false → (kept_by self.now).last_event ≡ self.now.events.end }
    {
        self.state.stored()
    }

    /// The disk's present moment.
    pub fn moment<D: Disk>(&self, disk: &D) -> u64
        ensures { result ≡ D.moment disk.now }
    {
        disk.moment()
    }

    /// The number of the current log.
    pub fn log_number(&self) -> u64
        ensures { self.now.log.number ≡ Some result }
    {
        let Some(number) = self.log.number() else {
            unreachable!()
        };
        number
    }

    /// How many entries stand in the current log behind its Begin.
    pub fn log_entries(&self) -> u64
        ensures { result ≡ self.now.entries }
    {
        self.entries
    }

    /// How many events there are of each kind.
    pub fn event_counts(&self) -> EventCounts
        ensures { result.counts ≡ self.now.events.counts }
    {
        self.events.counts()
    }

    /// Takes all memory that the commit of a settled session wants, and makes no call of the disk. The session's new
    /// contents are written by the commit from where they are, its events are encoded here.
    pub fn prepare<'a>(&mut self, settled: &'a Settled) -> Result<Prepared<'a>, StoreError>
        requires { MayChange (kept_by self.old) settled.now }
        ensures prepared { IfOk result
            (λ prepared. (prepared.settled ≡ settled.now) × IsPreparedChange self.new prepared) }
        ensures entry { IfOk result (λ prepared.
            prepared.entry ≡ entry_of_change (kept_by self.old) (change.Session settled.now)) }
        // Limit comes exactly where a limit would be passed, and it is the first.
        ensures within { OnOk result (ChangeIsWithinLimits self.old settled.now) }
        ensures limit { (limit : TheLimit) → IsErrOf result (StoreError.Limit limit)
            → IsLimitOf self.old settled.now limit }
        // Those of the live files are looked at before memory is taken.
        ensures first { (limit : TheLimit) → live_limit (kept_with self.old settled.now) ≡ Some limit
            → IsErrOf result (StoreError.Limit limit) }
        ensures others { IfErr result (λ error. (error ≡ StoreError.Memory)
            ⊎ ((limit : TheLimit) × (error ≡ StoreError.Limit limit))) }
        // But for the room for more files, nothing changes.
        ensures same { self.new
            ≡ record self.old { memory = record { kept = kept_by self.old; room = self.new.memory.room } } }
    {
        if let Some(limit) = self.state.live_limit(settled) {
            return Err(StoreError::Limit(limit));
        }
        let sizes = fresh_sizes(self.alloc, settled.placed.as_slice())?;
        self.contents.room(sizes.as_slice())?;
        if let Some(limit) = self.state.numbers_limit(settled) {
            return Err(StoreError::Limit(limit));
        }
        let first = self.state.stored().last_event + 1;
        let entry = self.state.prepare(self.alloc, settled)?;
        let events = EventBlocks::new(self.alloc, first, settled.events.as_slice())?;
        Ok(Prepared {
            entry,
            settled,
            events,
        })
    }

    /// Takes all memory that the commit of files that expire wants, and makes no call of the disk.
    pub fn prepare_expiry<'a>(&self, expiry: &'a SettledExpiry) -> Result<Prepared<'a>, StoreError>
        requires { MayExpire (kept_by self.now) expiry.now }
        ensures prepared { IfOk result (λ prepared. (prepared.settled ≡ expiry.now.settled)
            × IsPreparedChange self.now prepared) }
        ensures entry { IfOk result (λ prepared. prepared.entry
            ≡ expiry_entry (kept_by self.now) expiry.now.connection expiry.now.settled) }
        // Limit comes exactly where the last event would pass its limit.
        ensures within { OnOk result (ChangeIsWithinLimits self.now expiry.now.settled) }
        ensures limit { (limit : TheLimit) → IsErrOf result (StoreError.Limit limit)
            → numbers_limit (kept_with self.now expiry.now.settled) ≡ Some limit }
        // It is looked at before memory is taken.
        ensures first { (limit : TheLimit) → numbers_limit (kept_with self.now expiry.now.settled) ≡ Some limit
            → IsErrOf result (StoreError.Limit limit) }
        ensures others { IfErr result (λ error. (error ≡ StoreError.Memory)
            ⊎ ((limit : TheLimit) × (error ≡ StoreError.Limit limit))) }
    {
        let settled = &expiry.settled;
        let first = self.state.stored().last_event + 1;
        if let Some(limit) = self.state.numbers_limit(settled) {
            return Err(StoreError::Limit(limit));
        }
        let entry = self
            .state
            .prepare_expiry(self.alloc, expiry.connection, settled)?;
        let events = settled.events.as_slice();
        let blocks = EventBlocks::new(self.alloc, first, events)?;
        Ok(Prepared {
            entry,
            settled,
            events: blocks,
        })
    }

    /// The bytes of a live content.
    pub fn read<D: Disk>(&mut self, disk: &mut D, at: &ContentRef) -> Result<Vec<u8>, StoreError>
        requires kept { IsKeptOn D.tells D.held D.moment D.images self.old disk.old }
        requires live { Contains (live_in self.old) at.now }
        ensures read { IfOk result (λ bytes. IsRead D.tells (D.held disk.old) at.now bytes.items) }
        // A disk that tells holds each live content.
        ensures undamaged { (damage : TheDamage) → IsErrOf result (StoreError.Damaged damage) → IsTrue D.tells
            → self.old.failed ≡ true }
        ensures same { (self.new ≡ self.old) ⊎ (self.new ≡ record self.old { failed = true }) }
        ensures kept { Stays D.held D.moment D.images disk.old disk.new
            × IsKeptOn D.tells D.held D.moment D.images self.new disk.new }
        ensures refusal { RefusesToRead result at.now self.old self.new D.faults disk.old disk.new }
    {
        if self.has_failed {
            return Err(StoreError::MustReopen);
        }
        match self.contents.read(self.alloc, disk, at) {
            Ok(bytes) => Ok(bytes),
            Err(ContentError::Disk) => {
                self.has_failed = true;
                Err(StoreError::Disk)
            }
            Err(ContentError::Damaged(damage)) => Err(StoreError::Damaged(damage)),
            Err(_) => Err(StoreError::Memory),
        }
    }

    /// Empties the claims that no live content and none of the opening stands in. It takes no memory.
    pub fn reclaim<D: Disk>(&mut self, disk: &mut D) -> Result<Reclaimed, StoreError>
        requires { IsKeptOn D.tells D.held D.moment D.images self.old disk.old }
        // Each idle claim is emptied, and its slot is free.
        ensures reclaimed { IfOk result (IsReclaimed self.old.slots self.new.slots) }
        ensures emptied { OnOk result (IsTrue D.tells
            → AreEmptied self.old.slots self.new.slots (D.held disk.old) (D.held disk.new)) }
        ensures meaning { self.old.failed ≡ false → KeepsMeaning D.moment D.images self.old disk.old disk.new }
        ensures alone { Since D.moment D.images disk.old disk.new
            (After (IdleShortened self.old.slots) (D.images disk.old (D.moment disk.old))) }
        ensures kept { IsKeptOn D.tells D.held D.moment D.images self.new disk.new }
        ensures rest { self.new ≡ record self.old { slots = self.new.slots; failed = self.new.failed } }
        ensures refusal { StopsOnFault result self.old self.new D.faults disk.old disk.new }
    {
        if self.has_failed {
            return Err(StoreError::MustReopen);
        }
        let Ok(reclaimed) = self.contents.reclaim(disk) else {
            self.has_failed = true;
            return Err(StoreError::Disk);
        };
        Ok(reclaimed)
    }

    /// Lets go of the contents of the opening, empties the claims that no live content stands in, and syncs the disk.
    /// It takes no memory.
    pub fn close<D: Disk>(&mut self, disk: &mut D) -> Result<(), StoreError>
        requires { IsKeptOn D.tells D.held D.moment D.images self.old disk.old }
        ensures meaning { self.old.failed ≡ false → KeepsMeaning D.moment D.images self.old disk.old disk.new }
        // Only claims change: those that no live content stands in get shorter.
        ensures alone { Since D.moment D.images disk.old disk.new
            (After (Frees (live_in self.old)) (D.images disk.old (D.moment disk.old))) }
        // One image alone is left.
        ensures synced { OnOk result (IsOnly (D.held disk.new) (D.images disk.new (D.moment disk.new))) }
        // What stands in the claims is needed.
        ensures tidy { OnOk result (IsTrue D.tells → IsTidy (kept_by self.new) (D.held disk.new)) }
        ensures kept { IsKeptOn D.tells D.held D.moment D.images self.new disk.new }
        ensures rest { self.new ≡ record self.old
            { slots = self.new.slots; opened = self.new.opened; failed = self.new.failed } }
        ensures refusal { StopsOnFault result self.old self.new D.faults disk.old disk.new }
    {
        if self.has_failed {
            return Err(StoreError::MustReopen);
        }
        let_go(&mut self.contents, self.opened.as_slice());
        self.opened.clear();
        let Ok(_) = self.contents.reclaim(disk) else {
            self.has_failed = true;
            return Err(StoreError::Disk);
        };
        let Ok(()) = disk.sync() else {
            self.has_failed = true;
            return Err(StoreError::Disk);
        };
        Ok(())
    }

    /// What is kept, once the store isn't wanted any more.
    pub fn into_state(self) -> Stored
        ensures { kept_of result ≡ kept_by self }
    {
        self.state.into_stored()
    }
}
