//! A store is read without a write, for a query. A query knows no flow, and opens nothing.
ghost use Rattle.std.specs.Prelude.{◌≡◌, ◌↔◌, ◌<◌, ℕ, [], None, Some, Ok, Err, IsTrue, IfOk, IfErr, IsErr, IsErrOf, length, filter, map, max, min, nat_le, ◌&&◌, option_map};
ghost use Rattle.std.specs.Option.{option_copied};
ghost use Rattle.disk_trait.specs.Faults.{CountsFaults};
ghost use Rattle.disk_trait.specs.Images.{Stays};
ghost use Rattle.disk_trait.specs.declared.damage.Damage.{Damage as TheDamage};
ghost use Rattle.flowfile_record.specs.Stored.{Kept, kept_of};
ghost use Rattle.flowfile_record.specs.declared.stored.ActiveFile.{ActiveFile as TheFile};
ghost use Rattle.checkpoint_store.specs.Consistent.{IsConsistent};
ghost use Rattle.checkpoint_store.specs.Snapshot.{snapshot_file};
ghost use Rattle.content_repo.specs.Claims.{ContentIsWhole};
ghost use Rattle.flowfile_wal.specs.Calls.{HaveEncodings};
ghost use Rattle.flowfile_wal.specs.Current.{current_number};
ghost use Rattle.flowfile_wal.specs.Steps.{numbered_log};
ghost use Rattle.prov_store.specs.Scanning.{numbers_between, HasBetween};
ghost use Rattle.store_core.specs.Calls.{IsDiskMemoryOrDamage};
ghost use Rattle.store_core.specs.Kept.{snapshot_for, behind_snapshot, behind_log, kept_in};
ghost use Rattle.store_core.specs.Seen.{no_flow, or_anew, kept_seen, IsSeenOn, IsReadOf, OfTheState, live_file, IsContentRead, IsContentOf};
ghost use Rattle.store_core.specs.New.{kept_anew};
ghost use Rattle.store_core.specs.State.{state_of, stands_for};

use crate::StoreError;
use crate::reading::{apply_entries, read_contents, refuse_stray};
use checkpoint_store::Snapshot;
use content_repo::read_content;
use disk_trait::Disk;
use flowfile_record::{ActiveFile, DIGEST_SIZE, Event, EventCounts, Stored};
use flowfile_wal::{Log, LogEntries};
use kept_state::KeptState;
use prov_store::Events;
use record_codec::FORMAT_VERSION;
use std::alloc::Global;
use std::marker::Model;

/// What a query sees of a store. It holds no disk: each call takes it, and it is the one that the store was read from.
#[derive(Drop)]
pub struct Seen {
    // None where no store is made yet.
    state: Option<KeptState>,
    events: Events,
}

impl Model for Seen {
    ghost use Rattle.std.specs.Prelude.{◌≡◌};
    ghost use Rattle.store_core.specs.Seen.{SeenState, seen_in};
    ghost use Rattle.std.specs.Coded.{codes};
    ghost use Rattle.flowfile_record.specs.contracts.attributes.Attributes as attributes;

    ghost Value = { SeenState };

    ghost coded = { Prim.hlevel (codes, attributes.the_row.coded) };

    ghost view = { λ seen. seen_in seen.state seen.events };

    // No event is forgotten.
    ghost invariant = { λ seen. seen.events.line ≡ 0 };
}

/// Reads what the files of a store stand for, whatever its flow is, and writes nothing. Each live content and each event
/// is read once, so that damage is told.
pub fn read_store<D: Disk>(alloc: Global, disk: &mut D) -> Result<Seen, StoreError>
    ensures seen { IfOk result (λ seen. IsTrue D.tells → IsSeenOn (D.held disk.old) seen) }
    // Whatever the disk is, the events are known up to the last one that is kept.
    ensures last { IfOk result (λ seen. seen.events.end ≡ (kept_seen seen).last_event) }
    ensures damaged { (damage : TheDamage) → IsErrOf result (StoreError.Damaged damage) → IsTrue D.tells
        → stands_for no_flow 0 (D.held disk.old) ≡ Err damage }
    ensures refusal { IfErr result IsDiskMemoryOrDamage }
    ensures stays { Stays D.held D.moment D.images disk.old disk.new }
    ensures cause { CountsFaults (D.faults disk.old) (D.faults disk.new) (IsErrOf result StoreError.Disk) }
{
    let kept = see_kept(alloc, disk)?;
    match kept {
        Some(state) => see_made(alloc, disk, state),
        None => see_none(alloc, disk),
    }
}

// What is kept. None where no store is made yet.
fn see_kept<D: Disk>(alloc: Global, disk: &mut D) -> Result<Option<KeptState>, StoreError>
    ensures kept { IfOk result (λ state. IsTrue D.tells
        → kept_in no_flow 0 (D.held disk.old) ≡ Ok (or_anew (option_map (λ m. m.kept) state))) }
    ensures made { IfOk result (λ state. IsTrue D.tells
        → ((state ≡ None) ↔ (current_number (D.held disk.old) ≡ None))) }
    ensures damaged { (damage : TheDamage) → IsErrOf result (StoreError.Damaged damage) → IsTrue D.tells
        → kept_in no_flow 0 (D.held disk.old) ≡ Err damage }
    ensures refusal { IfErr result IsDiskMemoryOrDamage }
    ensures stays { Stays D.held D.moment D.images disk.old disk.new }
    ensures cause { CountsFaults (D.faults disk.old) (D.faults disk.new) (IsErrOf result StoreError.Disk) }
{
    let (log, entries) = Log::load(alloc, disk)?;
    see_behind(alloc, disk, log.number(), entries)
}

// What is kept by the current log. None where none is current, and the files are those of no store.
fn see_behind<D: Disk>(
    alloc: Global,
    disk: &mut D,
    current: Option<u64>,
    entries: LogEntries,
) -> Result<Option<KeptState>, StoreError>
    requires { HaveEncodings entries.items }
    ensures kept { IfOk result (λ state. IsTrue D.tells → (version end : ℕ)
        → behind_log no_flow 0 (D.held disk.old) (Ok (numbered_log current version entries.items end))
        ≡ Ok (or_anew (option_map (λ m. m.kept) state))) }
    ensures made { IfOk result (λ state. (state ≡ None) ↔ (current ≡ None)) }
    ensures damaged { (damage : TheDamage) → IsErrOf result (StoreError.Damaged damage) → IsTrue D.tells
        → (version end : ℕ) → behind_log no_flow 0 (D.held disk.old)
        (Ok (numbered_log current version entries.items end)) ≡ Err damage }
    ensures refusal { IfErr result IsDiskMemoryOrDamage }
    ensures stays { Stays D.held D.moment D.images disk.old disk.new }
    ensures cause { CountsFaults (D.faults disk.old) (D.faults disk.new) (IsErrOf result StoreError.Disk) }
{
    match current {
        Some(number) => {
            let state = see_state(alloc, disk, number, entries)?;
            Ok(Some(state))
        }
        None => {
            refuse_stray(alloc, disk)?;
            Ok(None)
        }
    }
}

// What the snapshot of a log's number says, with the log's entries applied.
fn see_state<D: Disk>(
    alloc: Global,
    disk: &mut D,
    number: u64,
    entries: LogEntries,
) -> Result<KeptState, StoreError>
    requires { HaveEncodings entries.items }
    ensures kept { IfOk result (λ state. IsTrue D.tells → (version end : ℕ)
        → behind_snapshot (D.held disk.old)
        (record { number = number; version = version; entries = entries.items; end = end })
        (snapshot_for no_flow (snapshot_file number) (D.held disk.old (snapshot_file number))) ≡ Ok state.kept) }
    ensures damaged { (damage : TheDamage) → IsErrOf result (StoreError.Damaged damage) → IsTrue D.tells
        → (version end : ℕ) → behind_snapshot (D.held disk.old)
        (record { number = number; version = version; entries = entries.items; end = end })
        (snapshot_for no_flow (snapshot_file number) (D.held disk.old (snapshot_file number))) ≡ Err damage }
    ensures refusal { IfErr result IsDiskMemoryOrDamage }
    ensures stays { Stays D.held D.moment D.images disk.old disk.new }
    ensures cause { CountsFaults (D.faults disk.old) (D.faults disk.new) (IsErrOf result StoreError.Disk) }
{
    let found = checkpoint_store::read(alloc, disk, number, FORMAT_VERSION)?;
    let Snapshot { stored, .. } = found;
    has_bytes(stored.flow);
    apply_entries(alloc, stored, number, entries)
}

// A digest has bytes. So a snapshot names a flow, and agrees with who knows none.
fn has_bytes(digest: [u8; DIGEST_SIZE])
    ensures { 0 < length digest }
{}

// What a query sees of a store that is made.
fn see_made<D: Disk>(alloc: Global, disk: &mut D, state: KeptState) -> Result<Seen, StoreError>
    ensures seen { IfOk result (IsReadOf D.tells (D.held disk.old) (Some state.kept)) }
    ensures damaged { (damage : TheDamage) → IsErrOf result (StoreError.Damaged damage) → IsTrue D.tells
        → state_of (D.held disk.old) state.kept ≡ Err damage }
    ensures refusal { IfErr result IsDiskMemoryOrDamage }
    ensures stays { Stays D.held D.moment D.images disk.old disk.new }
    ensures cause { CountsFaults (D.faults disk.old) (D.faults disk.new) (IsErrOf result StoreError.Disk) }
{
    let kept = state.stored();
    read_contents(alloc, disk, kept)?;
    let events = Events::load(alloc, disk, kept.last_event, 0)?;
    Ok(Seen {
        state: Some(state),
        events,
    })
}

// What a query sees where no store is made yet.
fn see_none<D: Disk>(alloc: Global, disk: &mut D) -> Result<Seen, StoreError>
    ensures seen { IfOk result (IsReadOf D.tells (D.held disk.old) None) }
    ensures damaged { (damage : TheDamage) → IsErrOf result (StoreError.Damaged damage) → IsTrue D.tells
        → state_of (D.held disk.old) (kept_anew no_flow 0) ≡ Err damage }
    ensures refusal { IfErr result IsDiskMemoryOrDamage }
    ensures stays { Stays D.held D.moment D.images disk.old disk.new }
    ensures cause { CountsFaults (D.faults disk.old) (D.faults disk.new) (IsErrOf result StoreError.Disk) }
{
    let events = Events::load(alloc, disk, 0, 0)?;
    Ok(Seen {
        state: None,
        events,
    })
}

impl Seen {
    /// What is kept. None where no store is made yet.
    pub fn state(&self) -> Option<&Stored>
        ensures stored { option_map kept_of (option_copied result) ≡ self.now.stored }
        ensures consistent { (k : Kept) → self.now.stored ≡ Some k → IsConsistent k × (k.batches ≡ []) }
    {
        match &self.state {
            Some(state) => Some(state.stored()),
            None => None,
        }
    }

    /// How many events there are of each kind.
    pub fn event_counts(&self) -> EventCounts
        ensures { result.counts ≡ self.now.events.counts }
    {
        self.events.counts()
    }

    /// All events, by their numbers.
    pub fn events<D: Disk>(&self, alloc: Global, disk: &mut D) -> Result<Vec<Event>, StoreError>
        ensures events { IfOk result (λ events. OfTheState D.tells (D.held disk.old) self.now
            (λ state. events.items ≡ state.events)) }
        // Whatever the disk holds, there is one of each number.
        ensures numbered { IfOk result (λ events. map (λ e. e.number) events.items
            ≡ numbers_between 1 self.now.events.end) }
        // Where there is no event, the disk isn't asked, and no memory is taken.
        ensures refused { IsErr result → 0 < self.now.events.end }
        ensures none { self.now.events.end ≡ 0 → disk.new ≡ disk.old }
        // A disk that tells, and still holds what was seen, gives no damage.
        ensures undamaged { (damage : TheDamage) → IsErrOf result (StoreError.Damaged damage) → IsTrue D.tells
            → IsSeenOn (D.held disk.old) self.now → ⊥ }
        ensures refusal { IfErr result IsDiskMemoryOrDamage }
        ensures stays { Stays D.held D.moment D.images disk.old disk.new }
        ensures cause { CountsFaults (D.faults disk.old) (D.faults disk.new) (IsErrOf result StoreError.Disk) }
    {
        let events = self.events.scan(alloc, disk, 1, self.events.end())?;
        Ok(events)
    }

    /// The events numbered from one to another, both included, as far as there are such, by their numbers.
    pub fn events_between<D: Disk>(
        &self,
        alloc: Global,
        disk: &mut D,
        from: u64,
        to: u64,
    ) -> Result<Vec<Event>, StoreError>
        ensures events { IfOk result (λ events. OfTheState D.tells (D.held disk.old) self.now
            (λ state. events.items ≡ filter (λ e. nat_le from e.number && nat_le e.number to) state.events)) }
        // Whatever the disk holds, there is one of each number between the two.
        ensures numbered { IfOk result (λ events. map (λ e. e.number) events.items
            ≡ numbers_between (max from 1) (min to self.now.events.end)) }
        // Where there is no such event, the disk isn't asked, and no memory is taken.
        ensures refused { IsErr result → HasBetween from to 0 self.now.events.end }
        ensures none { (HasBetween from to 0 self.now.events.end → ⊥) → disk.new ≡ disk.old }
        ensures undamaged { (damage : TheDamage) → IsErrOf result (StoreError.Damaged damage) → IsTrue D.tells
            → IsSeenOn (D.held disk.old) self.now → ⊥ }
        ensures refusal { IfErr result IsDiskMemoryOrDamage }
        ensures stays { Stays D.held D.moment D.images disk.old disk.new }
        ensures cause { CountsFaults (D.faults disk.old) (D.faults disk.new) (IsErrOf result StoreError.Disk) }
    {
        let events = self.events.scan(alloc, disk, from, to)?;
        Ok(events)
    }

    /// The bytes of a flow file's content. None exactly where no file of this number is live.
    pub fn content<D: Disk>(
        &self,
        alloc: Global,
        disk: &mut D,
        number: u64,
    ) -> Result<Option<Vec<u8>>, StoreError>
        ensures content { IfOk result (λ content. OfTheState D.tells (D.held disk.old) self.now
            (IsContentOf number (option_map (λ bytes. bytes.items) content))) }
        // Whatever the disk holds.
        ensures read { IfOk result (λ content. IsContentRead D.tells (D.held disk.old) (live_file number self.now)
            (option_map (λ bytes. bytes.items) content)) }
        // Where no file of this number is live, the disk isn't asked, and no memory is taken.
        ensures refused { IsErr result → live_file number self.now ≡ None → ⊥ }
        // Memory is taken only for its bytes.
        ensures memory { (active : TheFile) → live_file number self.now ≡ Some active → IsErrOf result StoreError.Memory
            → 0 < active.file.content.size }
        // Damage is told whether or not there is memory.
        ensures whole { (active : TheFile) → live_file number self.now ≡ Some active → IsErrOf result StoreError.Memory
            → IsTrue D.tells → ContentIsWhole (D.held disk.old) active.file.content }
        ensures none { live_file number self.now ≡ None → disk.new ≡ disk.old }
        ensures undamaged { (damage : TheDamage) → IsErrOf result (StoreError.Damaged damage) → IsTrue D.tells
            → IsSeenOn (D.held disk.old) self.now → ⊥ }
        ensures refusal { IfErr result IsDiskMemoryOrDamage }
        ensures stays { Stays D.held D.moment D.images disk.old disk.new }
        ensures cause { CountsFaults (D.faults disk.old) (D.faults disk.new) (IsErrOf result StoreError.Disk) }
    {
        match self.live(number) {
            Some(active) => {
                let bytes = read_content(alloc, disk, &active.file.content)?;
                Ok(Some(bytes))
            }
            None => Ok(None),
        }
    }

    // The live file of a number.
    fn live(&self, number: u64) -> Option<&ActiveFile>
        ensures live { option_copied result ≡ live_file number self.now }
        ensures consistent { (active : TheFile) → live_file number self.now ≡ Some active
            → IsConsistent (kept_seen self.now) }
    {
        match &self.state {
            Some(state) => state.stored().files.get(number),
            None => None,
        }
    }
}
