//! What the files of a store keep is read: the log, the snapshot of its number, and the live contents. Nothing is
//! written.
ghost use Rattle.std.specs.Prelude.{◌≡◌, ◌<◌, ◌^◌, ℕ, [], ◌∷◌, ◌++◌, Some, None, true, false, Ok, Err, IsTrue, IfOk, OnOk, IfErr, IsErrOf, All, map, fold};
ghost use Rattle.std.specs.List.{flat_map};
ghost use Rattle.disk_trait.specs.Files.{named};
ghost use Rattle.disk_trait.specs.Images.{Stays};
ghost use Rattle.disk_trait.specs.Faults.{CountsFaults};
ghost use Rattle.disk_trait.specs.declared.damage.Damage.{Damage as TheDamage};
ghost use Rattle.disk_trait.specs.declared.file_name.FileKind.TheVariants.{Log as LogKind};
ghost use Rattle.flowfile_record.specs.Stored.{kept_of};
ghost use Rattle.checkpoint_store.specs.Consistent.{IsConsistent};
ghost use Rattle.checkpoint_store.specs.Snapshot.{snapshot_file};
ghost use Rattle.content_repo.specs.Slots.{IsNamed};
ghost use Rattle.flowfile_wal.specs.Calls.{HaveEncodings};
ghost use Rattle.flowfile_wal.specs.Steps.{numbered_log};
ghost use Rattle.kept_state.specs.Applied.{batches_that_matter, batch_swapped_out};
ghost use Rattle.kept_state.specs.Changes.{no_files};
ghost use Rattle.kept_state.specs.Fits.{replayed};
ghost use Rattle.store_core.specs.Calls.{IsDiskMemoryOrDamage, IsDiskOrMemory};
ghost use Rattle.store_core.specs.Flow.{agrees_with, flow_in};
ghost use Rattle.store_core.specs.Found.{StoreIsFoundIn, IsStrayDamage};
ghost use Rattle.store_core.specs.Kept.{snapshot_for, with_least, least_of, unless_swapped, with_entries, fitted, behind_snapshot, behind_log, kept_in};
ghost use Rattle.store_core.specs.New.{kept_anew, first_from, first_stray};
ghost use Rattle.store_core.specs.Refusing.{RefusesBy};
ghost use Rattle.store_core.specs.State.{contents_damage, live_contents};

use crate::{FlowIdentity, StoreError};
use checkpoint_store::Snapshot;
use content_repo::read_content;
use disk_trait::{Damage, Disk, FileKind, FileName};
use flowfile_record::{ContentRef, STORE_LIMIT, Stored, TextList};
use flowfile_wal::{Log, LogEntries};
use kept_state::{KeptState, Replay, ReplayError, replays_go_on};
use record_codec::{FORMAT_VERSION, HEADER_SIZE, LogEntry};
use std::alloc::{AllocError, Global};

/// What was read: the current log, how many entries it has, and what is kept.
#[derive(Drop)]
pub struct Found {
    pub log: Log,
    pub entries: u64,
    pub state: KeptState,
}

/// Reads what is kept: the log, the snapshot of its number, and the entries on it. Where no log is current, a store
/// isn't made yet.
pub(crate) fn read_kept<D: Disk>(
    alloc: Global,
    disk: &mut D,
    flow: &FlowIdentity<'_>,
    lot: u64,
) -> Result<Found, StoreError>
    requires flow { IsConsistent (kept_anew flow.now lot) }
    ensures found { IfOk result (λ found. IsTrue D.tells → StoreIsFoundIn flow.now lot (D.held disk.old) found) }
    ensures log { IfOk result (λ found. (found.log.mended ≡ false) × (found.log.failed ≡ false)) }
    ensures flow { IfOk result (λ found. agrees_with flow.now found.state.kept ≡ true) }
    ensures empty { IfOk result (λ found. found.log.number ≡ None → found.entries ≡ 0) }
    ensures small { IfOk result (λ found. found.entries < 2 ^ 64) }
    ensures anew { IfOk result (λ found. found.log.number ≡ None → found.state.kept ≡ kept_anew flow.now lot) }
    ensures damaged { (damage : TheDamage) → IsErrOf result (StoreError.Damaged damage) → IsTrue D.tells
        → kept_in flow.now lot (D.held disk.old) ≡ Err damage }
    ensures stays { Stays D.held D.moment D.images disk.old disk.new }
    ensures refusal { RefusesBy IsDiskMemoryOrDamage result D.faults disk.old disk.new }
{
    let (log, entries) = Log::load(alloc, disk)?;
    let count = entries.len() as u64;
    let state = read_behind(alloc, disk, flow, lot, log.number(), entries)?;
    Ok(Found {
        log,
        entries: count,
        state,
    })
}

// What is kept by the current log, or what a new store keeps where none is current.
fn read_behind<D: Disk>(
    alloc: Global,
    disk: &mut D,
    flow: &FlowIdentity<'_>,
    lot: u64,
    current: Option<u64>,
    entries: LogEntries,
) -> Result<KeptState, StoreError>
    requires flow { IsConsistent (kept_anew flow.now lot) }
    requires encoded { HaveEncodings entries.items }
    ensures kept { IfOk result (λ state. IsTrue D.tells → (version end : ℕ)
        → behind_log flow.now lot (D.held disk.old) (Ok (numbered_log current version entries.items end))
        ≡ Ok state.kept) }
    ensures damaged { (damage : TheDamage) → IsErrOf result (StoreError.Damaged damage) → IsTrue D.tells
        → (version end : ℕ) → behind_log flow.now lot (D.held disk.old)
        (Ok (numbered_log current version entries.items end)) ≡ Err damage }
    ensures flow { IfOk result (λ state. agrees_with flow.now state.kept ≡ true) }
    ensures anew { IfOk result (λ state. current ≡ None → state.kept ≡ kept_anew flow.now lot) }
    ensures refusal { IfErr result IsDiskMemoryOrDamage }
    ensures stays { Stays D.held D.moment D.images disk.old disk.new }
    ensures cause { CountsFaults (D.faults disk.old) (D.faults disk.new) (IsErrOf result StoreError.Disk) }
{
    match current {
        Some(number) => read_state(alloc, disk, flow, number, entries),
        None => new_state(alloc, disk, flow, lot),
    }
}

// What a new store keeps, where the files are those of a store that isn't made yet.
fn new_state<D: Disk>(
    alloc: Global,
    disk: &mut D,
    flow: &FlowIdentity<'_>,
    lot: u64,
) -> Result<KeptState, StoreError>
    requires flow { IsConsistent (kept_anew flow.now lot) }
    ensures kept { IfOk result (λ state. state.kept ≡ kept_anew flow.now lot) }
    ensures none { OnOk result (IsTrue D.tells → first_stray (D.held disk.old) ≡ None) }
    ensures damaged { (damage : TheDamage) → IsErrOf result (StoreError.Damaged damage) → IsTrue D.tells
        → IsStrayDamage (D.held disk.old) damage }
    ensures refusal { IfErr result IsDiskMemoryOrDamage }
    ensures stays { Stays D.held D.moment D.images disk.old disk.new }
    ensures cause { CountsFaults (D.faults disk.old) (D.faults disk.new) (IsErrOf result StoreError.Disk) }
{
    refuse_stray(alloc, disk)?;
    let connections = copy_texts(alloc, flow.connections)?;
    let state = KeptState::new(
        alloc,
        lot % STORE_LIMIT,
        flow.digest,
        connections,
        u64::from(flow.processors),
    )?;
    Ok(state)
}

/// Where no log is current, the files are those of a store that isn't made yet, or the first other one is damaged.
pub(crate) fn refuse_stray<D: Disk>(alloc: Global, disk: &mut D) -> Result<(), StoreError>
    ensures none { OnOk result (IsTrue D.tells → first_stray (D.held disk.old) ≡ None) }
    ensures damaged { (damage : TheDamage) → IsErrOf result (StoreError.Damaged damage) → IsTrue D.tells
        → IsStrayDamage (D.held disk.old) damage }
    ensures refusal { IfErr result IsDiskMemoryOrDamage }
    ensures stays { Stays D.held D.moment D.images disk.old disk.new }
    ensures cause { CountsFaults (D.faults disk.old) (D.faults disk.new) (IsErrOf result StoreError.Disk) }
{
    if let Some(file) = find_stray(alloc, disk)? {
        return Err(StoreError::Damaged(Damage::Form { file, at: 0 }));
    }
    Ok(())
}

// The first file that a store which isn't made yet doesn't have.
fn find_stray<D: Disk>(alloc: Global, disk: &mut D) -> Result<Option<FileName>, StoreError>
    ensures stray { IfOk result (λ stray. IsTrue D.tells → stray ≡ first_stray (D.held disk.old)) }
    ensures refusal { IfErr result IsDiskOrMemory }
    ensures stays { Stays D.held D.moment D.images disk.old disk.new }
    ensures cause { CountsFaults (D.faults disk.old) (D.faults disk.new) (IsErrOf result StoreError.Disk) }
{
    if let Some(file) = find_from(alloc, disk, FileKind::Log, 2)? {
        return Ok(Some(file));
    }
    if let Some(file) = find_from(alloc, disk, FileKind::Snapshot, 2)? {
        return Ok(Some(file));
    }
    if let Some(file) = find_from(alloc, disk, FileKind::Swap, 0)? {
        return Ok(Some(file));
    }
    if let Some(file) = find_from(alloc, disk, FileKind::Claim, 0)? {
        return Ok(Some(file));
    }
    find_from(alloc, disk, FileKind::Events, 0)
}

// The first file of a kind that has this number or a greater one and isn't empty.
fn find_from<D: Disk>(
    alloc: Global,
    disk: &mut D,
    kind: FileKind,
    from: u64,
) -> Result<Option<FileName>, StoreError>
    ensures first { IfOk result (λ first. IsTrue D.tells → first ≡ first_from kind from (D.held disk.old)) }
    ensures refusal { IfErr result IsDiskOrMemory }
    ensures stays { Stays D.held D.moment D.images disk.old disk.new }
    ensures cause { CountsFaults (D.faults disk.old) (D.faults disk.new) (IsErrOf result StoreError.Disk) }
{
    let mut numbers = Vec::new(alloc);
    disk.files(kind, &mut numbers)?;
    for number in &numbers {
        if *number >= from {
            return Ok(Some(FileName {
                kind,
                number: *number,
            }));
        }
    }
    Ok(None)
}

// A copy of some texts.
fn copy_texts(alloc: Global, texts: &TextList) -> Result<TextList, AllocError>
    ensures { IfOk result (λ copy. copy ≡ texts.now) }
{
    let mut copy = TextList::new(alloc);
    for text in texts.as_slice() {
        copy.push(text.clone()?)?;
    }
    Ok(copy)
}

// What the snapshot of a log's number says, with the log's entries applied.
fn read_state<D: Disk>(
    alloc: Global,
    disk: &mut D,
    flow: &FlowIdentity<'_>,
    number: u64,
    entries: LogEntries,
) -> Result<KeptState, StoreError>
    requires { HaveEncodings entries.items }
    ensures kept { IfOk result (λ state. IsTrue D.tells → (version end : ℕ)
        → behind_snapshot (D.held disk.old)
        (record { number = number; version = version; entries = entries.items; end = end })
        (snapshot_for flow.now (snapshot_file number) (D.held disk.old (snapshot_file number))) ≡ Ok state.kept) }
    ensures damaged { (damage : TheDamage) → IsErrOf result (StoreError.Damaged damage) → IsTrue D.tells
        → (version end : ℕ) → behind_snapshot (D.held disk.old)
        (record { number = number; version = version; entries = entries.items; end = end })
        (snapshot_for flow.now (snapshot_file number) (D.held disk.old (snapshot_file number))) ≡ Err damage }
    ensures flow { IfOk result (λ state. agrees_with flow.now state.kept ≡ true) }
    ensures refusal { IfErr result IsDiskMemoryOrDamage }
    ensures stays { Stays D.held D.moment D.images disk.old disk.new }
    ensures cause { CountsFaults (D.faults disk.old) (D.faults disk.new) (IsErrOf result StoreError.Disk) }
{
    let found = checkpoint_store::read(alloc, disk, number, FORMAT_VERSION)?;
    let Snapshot { stored, .. } = found;
    if !agrees(flow, &stored) {
        let file = FileName {
            kind: FileKind::Snapshot,
            number,
        };
        return Err(StoreError::Damaged(Damage::Form { file, at: 0 }));
    }
    apply_entries(alloc, stored, number, entries)
}

// Whether what a snapshot says agrees with the flow.
fn agrees(flow: &FlowIdentity<'_>, stored: &Stored) -> bool
    ensures { result ≡ agrees_with flow.now (kept_of stored.now) }
{
    stored.flow != flow.digest
        || (stored.connections.as_slice() == flow.connections.as_slice()
            && stored.counts.len() == u64::from(flow.processors))
}

/// What a snapshot says with the log's entries applied. A batch that matters is damage, as where its file is absent.
pub(crate) fn apply_entries(
    alloc: Global,
    stored: Stored,
    number: u64,
    entries: LogEntries,
) -> Result<KeptState, StoreError>
    requires encoded { HaveEncodings entries.items }
    requires consistent { (kept_of stored).batches ≡ [] → IsConsistent (kept_of stored) }
    ensures kept { IfOk result (λ state. (version end : ℕ)
        → with_entries
        (record { number = number; version = version; entries = entries.items; end = end }) (kept_of stored)
        (unless_swapped (least_of (batches_that_matter (kept_of stored) entries.items))) ≡ Ok state.kept) }
    ensures damaged { (damage : TheDamage) → IsErrOf result (StoreError.Damaged damage) → (version end : ℕ)
        → with_entries
        (record { number = number; version = version; entries = entries.items; end = end }) (kept_of stored)
        (unless_swapped (least_of (batches_that_matter (kept_of stored) entries.items))) ≡ Err damage }
    ensures flow { IfOk result (λ state. flow_in state.kept ≡ flow_in (kept_of stored)) }
    ensures refusal { IfErr result IsDiskMemoryOrDamage }
    ensures works { IsErrOf result StoreError.Disk → ⊥ }
{
    let least = least_swapped(least_batch(&stored), entries.as_slice());
    match least {
        Some(batch) => Err(StoreError::Damaged(Damage::Short {
            file: FileName {
                kind: FileKind::Swap,
                number: batch,
            },
            at: 0,
            need: HEADER_SIZE,
            have: 0,
        })),
        None => replay_entries(alloc, stored, number, entries),
    }
}

fn with_least(least: Option<u64>, number: u64) -> Option<u64>
    ensures { result ≡ with_least least number }
{
    match least {
        Some(other) => Some(other.min(number)),
        None => Some(number),
    }
}

// The least of the batches that are swapped out of what is stored.
fn least_batch(stored: &Stored) -> Option<u64>
    ensures { result ≡ least_of (map (λ b. b.batch) (kept_of stored.now).batches) }
{
    let mut least = None;
    for batch in stored.batches.iter() {
        least = with_least(least, batch.batch);
    }
    least
}

// The least of a number and the batches that the entries swap out.
fn least_swapped(first: Option<u64>, entries: &[(u64, LogEntry)]) -> Option<u64>
    ensures { result ≡ fold with_least first (flat_map (λ e. batch_swapped_out e.1) entries.now) }
{
    let mut least = first;
    for (_, entry) in entries {
        if let LogEntry::SwapOut(swap) = entry {
            least = with_least(least, swap.batch);
        }
    }
    least
}

// What the entries of a log make of a snapshot, of which no batch matters.
fn replay_entries(
    alloc: Global,
    stored: Stored,
    number: u64,
    entries: LogEntries,
) -> Result<KeptState, StoreError>
    requires encoded { HaveEncodings entries.items }
    requires unswapped { All (λ e. batch_swapped_out e.1 ≡ []) entries.items }
    requires no_batches { (kept_of stored).batches ≡ [] }
    requires consistent { IsConsistent (kept_of stored) }
    ensures kept { IfOk result (λ state. replayed no_files (kept_of stored) entries.items ≡ Ok state.kept) }
    ensures damaged { (damage : TheDamage) → IsErrOf result (StoreError.Damaged damage)
        → fitted number (replayed no_files (kept_of stored) entries.items) ≡ Err damage }
    ensures flow { IfOk result (λ state. flow_in state.kept ≡ flow_in (kept_of stored)) }
    ensures refusal { IfErr result IsDiskMemoryOrDamage }
    ensures works { IsErrOf result StoreError.Disk → ⊥ }
{
    replays_go_on();
    let mut replay = Replay::new(alloc, stored)?;
    for (at, entry) in entries {
        replay = match replay.apply(entry) {
            Ok(replay) => replay,
            Err(ReplayError::Memory) => return Err(StoreError::Memory),
            Err(ReplayError::Unfit) => return Err(misfit(number, at)),
        };
    }
    Ok(replay.into_state())
}

// An entry that doesn't fit, as damage of its log.
fn misfit(log: u64, at: u64) -> StoreError
    ensures { result ≡ StoreError.Damaged (TheDamage.Form (named LogKind log) at) }
{
    StoreError::Damaged(Damage::Form {
        file: FileName {
            kind: FileKind::Log,
            number: log,
        },
        at,
    })
}

/// Reads each live content, one at a time, and gives the references to them by the files' numbers.
pub(crate) fn read_contents<D: Disk>(
    alloc: Global,
    disk: &mut D,
    stored: &Stored,
) -> Result<Vec<ContentRef>, StoreError>
    requires { IsConsistent (kept_of stored.now) }
    ensures contents { IfOk result (λ refs. refs.items ≡ live_contents (kept_of stored.now)) }
    ensures named { IfOk result (λ refs. All IsNamed refs.items) }
    ensures sound { OnOk result (IsTrue D.tells
        → contents_damage (D.held disk.old) (live_contents (kept_of stored.now)) ≡ None) }
    ensures damaged { (damage : TheDamage) → IsErrOf result (StoreError.Damaged damage) → IsTrue D.tells
        → contents_damage (D.held disk.old) (live_contents (kept_of stored.now)) ≡ Some damage }
    ensures refusal { IfErr result IsDiskMemoryOrDamage }
    ensures stays { Stays D.held D.moment D.images disk.old disk.new }
    ensures cause { CountsFaults (D.faults disk.old) (D.faults disk.new) (IsErrOf result StoreError.Disk) }
{
    let mut contents = Vec::new(alloc);
    for active in stored.files.iter() {
        let content = active.file.content;
        read_content(alloc, disk, &content)?;
        add_content(&mut contents, content)?;
    }
    Ok(contents)
}

fn add_content(contents: &mut Vec<ContentRef>, content: ContentRef) -> Result<(), AllocError>
    ensures { OnOk result (contents.new.items ≡ contents.old.items ++ content ∷ []) }
{
    contents.push(content)?;
    Ok(())
}
