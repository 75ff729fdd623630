//! What a stop left of a store's files is made whole again, or a store is made.
ghost use Rattle.std.specs.Prelude.{◌≡◌, ◌⊎◌, ◌+◌, ◌<◌, ◌≤◌, ℕ, [], true, false, None, Some, Ok, Err, IfOk, OnOk, IfErr, IsErrOf, IsTrue, All, length};
ghost use Rattle.disk_trait.specs.Files.{Files};
ghost use Rattle.disk_trait.specs.Images.{After, Since, IsOnly};
ghost use Rattle.flowfile_record.specs.Stored.{kept_of};
ghost use Rattle.content_repo.specs.Claims.{CutTo, HasSizes, IsCovered, ShortenedTo};
ghost use Rattle.content_repo.specs.Slots.{count_of, size_of, held_in, end_of, covered, references_to, IsNamed};
ghost use Rattle.flowfile_wal.specs.Calls.{InEach};
ghost use Rattle.flowfile_wal.specs.Steps.{IsCurrentIn};
ghost use Rattle.checkpoint_store.specs.Consistent.{IsConsistent};
ghost use Rattle.store_core.specs.Agreement.{Needs, IsPlain, Agrees, IsUnmade};
ghost use Rattle.store_core.specs.Calls.{IsDiskOrMemory};
ghost use Rattle.store_core.specs.Flow.{flow_in};
ghost use Rattle.store_core.specs.New.{kept_anew};
ghost use Rattle.store_core.specs.Opened.{HasNoLeftovers, IsReadWhole, IsRevived, SameMeaning, IsNewStore};
ghost use Rattle.store_core.specs.Refusing.{RefusesBy};
ghost use Rattle.store_core.specs.Revived.{IsLogWhole, KeepsOrMakes, RevivesOn, HoldsTwice};
ghost use Rattle.store_core.specs.State.{live_contents};
ghost use Rattle.store_core.specs.Store.{IsKeptOn};
ghost use Rattle.store_core.specs.Touched.{Revives, log_opened};

use crate::discard::discard;
use crate::reading::Found;
use crate::{Store, StoreError};
use content_repo::{Content, HELD_MAX};
use disk_trait::Disk;
use flowfile_record::{ContentRef, LIVE_FILES_MAX, Stored};
use flowfile_wal::Log;
use prov_store::Events;
use record_codec::FORMAT_VERSION;
use std::alloc::Global;

// The number of a new store's log and snapshot.
const FIRST_LOG: u64 = 1;

/// The store of what was read, on a disk with nothing pending.
pub(crate) fn revive<D: Disk>(
    alloc: Global,
    disk: &mut D,
    found: Found,
    opened: Vec<ContentRef>,
    mut events: Events,
    lot: u64,
) -> Result<Store, StoreError>
    requires synced { IsOnly (D.held disk.old) (D.images disk.old (D.moment disk.old)) }
    requires found { IsReadWhole D.tells lot (D.held disk.old) found events }
    requires opened { opened.items ≡ live_contents found.state.kept }
    requires named { All IsNamed opened.items }
    ensures revived { IfOk result (IsRevived lot found) }
    ensures kept { IfOk result (λ store. IsKeptOn D.tells D.held D.moment D.images store disk.new) }
    ensures tidy { IfOk result (λ store. IsTrue D.tells → HasNoLeftovers store (D.held disk.new)) }
    ensures images { Since D.moment D.images disk.old disk.new
        (SameMeaning (flow_in found.state.kept) lot (D.held disk.old)) }
    ensures alone { Since D.moment D.images disk.old disk.new (Revives found.log.number (D.held disk.old)) }
    ensures refusal { RefusesBy IsDiskOrMemory result D.faults disk.old disk.new }
{
    let Found {
        mut log,
        entries,
        state,
    } = found;
    make_whole(alloc, disk, &mut log, state.stored())?;
    let contents = hold_opened(alloc, disk, opened.as_slice())?;
    events.trim(disk)?;
    Ok(Store {
        alloc,
        state,
        log,
        entries,
        contents,
        opened,
        events,
        lot,
        has_failed: false,
    })
}

// Mends the current log, or makes a store where there is none.
fn make_whole<D: Disk>(
    alloc: Global,
    disk: &mut D,
    log: &mut Log,
    stored: &Stored,
) -> Result<(), StoreError>
    requires synced { IsOnly (D.held disk.old) (D.images disk.old (D.moment disk.old)) }
    requires works { log.old.failed ≡ false }
    requires current { (number : ℕ) → log.old.number ≡ Some number → IsTrue D.tells
        → IsCurrentIn log.old (D.held disk.old) }
    requires unmade { log.old.number ≡ None → IsTrue D.tells → IsUnmade (D.held disk.old) }
    requires consistent { IsConsistent (kept_of stored.now) }
    ensures whole { OnOk result (IsLogWhole D.tells D.held D.moment D.images (log_opened log.old.number) log.new
        disk.new) }
    ensures made { OnOk result (log.old.number ≡ None
        → InEach (D.images disk.new (D.moment disk.new)) (IsNewStore (kept_of stored.now))) }
    ensures images { KeepsOrMakes D.moment D.images log.old.number (kept_of stored.now) disk.old disk.new }
    ensures revives { RevivesOn D.moment D.images log.old.number disk.old disk.new }
    ensures refusal { RefusesBy IsDiskOrMemory result D.faults disk.old disk.new }
{
    match log.number() {
        Some(number) => mend(alloc, disk, log, number),
        None => make(alloc, disk, log, stored),
    }
}

// Mends the current log, and cuts all that doesn't matter beside it but claims and events.
fn mend<D: Disk>(alloc: Global, disk: &mut D, log: &mut Log, number: u64) -> Result<(), StoreError>
    requires synced { IsOnly (D.held disk.old) (D.images disk.old (D.moment disk.old)) }
    requires works { log.old.failed ≡ false }
    requires number { log.old.number ≡ Some number }
    requires current { IsTrue D.tells → IsCurrentIn log.old (D.held disk.old) }
    ensures log { OnOk result (log.new ≡ record log.old { mended = true }) }
    ensures whole { OnOk result (IsLogWhole D.tells D.held D.moment D.images number log.new disk.new) }
    // What matters beside it stays, wherever a stop comes.
    ensures images { (needs : Needs) → IsPlain needs number
        → Since D.moment D.images disk.old disk.new (After (Agrees needs) (D.images disk.old (D.moment disk.old))) }
    ensures revives { RevivesOn D.moment D.images (Some number) disk.old disk.new }
    ensures refusal { RefusesBy IsDiskOrMemory result D.faults disk.old disk.new }
{
    log.mend(disk)?;
    discard(alloc, disk, Some(number))
}

// Makes a store: a snapshot of what it keeps, and a log.
fn make<D: Disk>(
    alloc: Global,
    disk: &mut D,
    log: &mut Log,
    stored: &Stored,
) -> Result<(), StoreError>
    requires synced { IsOnly (D.held disk.old) (D.images disk.old (D.moment disk.old)) }
    requires works { log.old.failed ≡ false }
    requires unmade { IsTrue D.tells → IsUnmade (D.held disk.old) }
    requires consistent { IsConsistent (kept_of stored.now) }
    ensures whole { OnOk result (IsLogWhole D.tells D.held D.moment D.images FIRST_LOG log.new disk.new) }
    // Wherever a stop comes, no store is made yet, or it is made.
    ensures images { Since D.moment D.images disk.old disk.new (λ c. IsUnmade c ⊎ IsNewStore (kept_of stored.now) c) }
    ensures made { OnOk result (InEach (D.images disk.new (D.moment disk.new)) (IsNewStore (kept_of stored.now))) }
    ensures revives { RevivesOn D.moment D.images None disk.old disk.new }
    ensures refusal { RefusesBy IsDiskOrMemory result D.faults disk.old disk.new }
{
    discard(alloc, disk, None)?;
    checkpoint_store::write(alloc, disk, FIRST_LOG, FORMAT_VERSION, stored)?;
    checkpoint_store::begin(disk, FIRST_LOG, FORMAT_VERSION)?;
    log.begun(disk, FORMAT_VERSION, FIRST_LOG);
    Ok(())
}

// A repository of the contents that a store is opened with, each held twice. The claims are cut to what they cover.
fn hold_opened<D: Disk>(
    alloc: Global,
    disk: &mut D,
    opened: &[ContentRef],
) -> Result<Content, StoreError>
    requires few { length opened.now ≤ LIVE_FILES_MAX }
    requires named { All IsNamed opened.now }
    requires within { IsTrue D.tells → All (IsCovered (D.held disk.old)) opened.now }
    ensures holds { IfOk result (HoldsTwice opened.now) }
    ensures files { IfOk result (λ contents. IsTrue D.tells → HasSizes contents (D.held disk.new)) }
    ensures cut { OnOk result (IsTrue D.tells
        → CutTo (λ k. covered k opened.now) (D.held disk.old) (D.held disk.new)) }
    ensures images { Since D.moment D.images disk.old disk.new
        (After (ShortenedTo (λ k. covered k opened.now)) (D.images disk.old (D.moment disk.old))) }
    ensures refusal { RefusesBy IsDiskOrMemory result D.faults disk.old disk.new }
{
    let mut contents = Content::load(alloc, disk, opened)?;
    hold_all(&mut contents, opened);
    Ok(contents)
}

// Holds each of these contents once more.
fn hold_all(contents: &mut Content, refs: &[ContentRef])
    requires few { held_in contents.old + length refs.now < HELD_MAX }
    requires held { All (λ at. 0 < count_of contents.old at.slot) refs.now }
    ensures counts { (k : ℕ) → count_of contents.new k ≡ count_of contents.old k + references_to k refs.now }
    ensures held { held_in contents.new ≡ held_in contents.old + length refs.now }
    ensures sizes { (k : ℕ) → size_of contents.new k ≡ size_of contents.old k }
{
    for at in refs {
        contents.hold(at);
    }
}
