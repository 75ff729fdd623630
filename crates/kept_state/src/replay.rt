//! What the entries of a log make of a snapshot's state, one after the other.
ghost use Rattle.std.specs.Prelude.{◌≡◌, ℕ, ◌&&◌, not, [], true, false, is_some, List, map, IfOk, Err};
ghost use Rattle.std.specs.List.{list_all};
ghost use Rattle.std.specs.Ordering.{nat_cmp};
ghost use Rattle.std.specs.BTreeSet.{contains};
ghost use Rattle.flowfile_record.specs.Stored.{kept_of};
ghost use Rattle.flowfile_record.specs.declared.flow_file.FlowFile.{FlowFile as File};
ghost use Rattle.record_codec.specs.EntryEncoding.{IsEntry, IsSession, IsExpire};
ghost use Rattle.record_codec.specs.declared.entry.LogEntry.TheVariants as entries;
ghost use Rattle.checkpoint_store.specs.Consistent.{IsConsistent};
ghost use Rattle.kept_state.specs.Applied.{left_after, session_applied, applied, batch_swapped_out};
ghost use Rattle.kept_state.specs.Arrivals.{AreArrivalsOf, IsSetOf};
ghost use Rattle.kept_state.specs.Changes.{no_files};
ghost use Rattle.kept_state.specs.Fits.{active_of, are_new, has_count, has_place, keeps_counters, expire_fits, entry_suits};

use crate::KeptState;
use crate::arrivals::{add_all, arrivals_of, remove_arrivals, set_of};
use crate::files::{are_active_in, are_active_in_one};
use crate::prepared::placed_in;
use crate::size::bytes_of;
use flowfile_record::{ActiveFile, ActiveList, Stored};
use record_codec::{ExpireEntry, LogEntry, SessionEntry};
use std::alloc::{AllocError, Global};
use std::collections::BTreeSet;
use std::marker::Model;

/// Why an entry isn't applied.
#[derive(Clone, Copy, Debug, PartialEq, Eq)]
pub enum ReplayError {
    Memory,
    /// It doesn't fit what is kept before it.
    Unfit,
}

impl From<AllocError> for ReplayError {
    ghost use Rattle.kept_state.specs.declared.replay.ReplayError.TheVariants as replay_error;

    ghost from_gives = { λ _ error. error ≡ replay_error.Memory };

    fn from(_: AllocError) -> ReplayError {
        ReplayError::Memory
    }
}

/// What is kept after some entries, with the arrivals of its files, by which an entry is tested.
#[derive(Drop)]
pub struct Replay {
    alloc: Global,
    state: KeptState,
    arrivals: BTreeSet<u64>,
}

impl Model for Replay {
    ghost use Rattle.flowfile_record.specs.Stored.{Kept};
    ghost use Rattle.flowfile_record.specs.StoredCode.{kept_code};

    ghost Value = { Kept };

    ghost coded = { kept_code };

    ghost use Rattle.kept_state.specs.Arrivals.{AreArrivalsOf};

    ghost view = { λ replay. replay.state.kept };

    ghost invariant = { λ replay. AreArrivalsOf replay.arrivals replay.state.kept.files };
}

impl Replay {
    /// What a snapshot says, before any entry.
    pub fn new(alloc: Global, stored: Stored) -> Result<Replay, AllocError>
        requires consistent { IsConsistent (kept_of stored) }
        requires no_batches { (kept_of stored).batches ≡ [] }
        ensures { IfOk result (λ replay. replay ≡ kept_of stored) }
    {
        let arrivals = arrivals_of(alloc, &stored.files)?;
        Ok(Replay {
            alloc,
            state: KeptState::from_stored(stored),
            arrivals,
        })
    }

    /// What is kept after one entry more.
    pub fn apply(self, entry: LogEntry) -> Result<Replay, ReplayError>
        requires encoded { IsEntry entry }
        requires no_batch { batch_swapped_out entry ≡ [] }
        ensures fits { IfOk result (λ replay. (files : ℕ → List File) → entry_suits files self entry ≡ true) }
        ensures applied { IfOk result (λ replay. (files : ℕ → List File) → replay ≡ applied files self entry) }
        ensures unfit { result ≡ Err ReplayError.Unfit → (files : ℕ → List File)
            → entry_suits files self entry ≡ false }
    {
        let Replay {
            alloc,
            mut state,
            mut arrivals,
        } = self;
        if !entry_fits(alloc, &state, &mut arrivals, &entry)? {
            return Err(ReplayError::Unfit);
        }
        state.reserve(placed_in(&entry).len() as u64)?;
        state.apply(entry);
        Ok(Replay {
            alloc,
            state,
            arrivals,
        })
    }

    /// The state after the entries.
    pub fn into_state(self) -> KeptState
        ensures { result.kept ≡ self }
    {
        self.state
    }
}

// Whether an entry fits. Where it does, the arrivals are those of the state after it.
fn entry_fits(
    alloc: Global,
    state: &KeptState,
    arrivals: &mut BTreeSet<u64>,
    entry: &LogEntry,
) -> Result<bool, AllocError>
    requires encoded { IsEntry entry.now }
    requires no_batch { batch_swapped_out entry.now ≡ [] }
    requires arrivals { AreArrivalsOf arrivals.old state.now.kept.files }
    ensures fits { IfOk result (λ fit. fit ≡ entry_suits no_files state.now.kept entry.now) }
    ensures arrivals { IfOk result (λ fit. fit ≡ true
        → AreArrivalsOf arrivals.new (applied no_files state.now.kept entry.now).files) }
    ensures no_batches { state.now.kept.batches ≡ [] }
{
    let stored = state.stored();
    match entry {
        LogEntry::Session(session) => session_fits(alloc, state, arrivals, session),
        LogEntry::Expire(expire) => expire_fits(alloc, stored, arrivals, expire),
        // No batch is swapped out that could come in again.
        _ => Ok(false),
    }
}

// Whether a session's entry fits. Where it does, the arrivals are those of the state after it.
fn session_fits(
    alloc: Global,
    state: &KeptState,
    arrivals: &mut BTreeSet<u64>,
    session: &SessionEntry,
) -> Result<bool, AllocError>
    requires encoded { IsSession session.now }
    requires arrivals { AreArrivalsOf arrivals.old state.now.kept.files }
    ensures fits { IfOk result (λ fit. fit ≡ entry_suits no_files state.now.kept (entries.Session session.now)) }
    ensures arrivals { IfOk result (λ fit. fit ≡ true
        → AreArrivalsOf arrivals.new (session_applied state.now.kept session.now).files) }
{
    let stored = state.stored();
    let gone = session.gone.as_slice();
    let placed = session.placed.as_slice();
    let Some(gone_set) = set_of(alloc, gone)? else {
        return Ok(false);
    };
    if !are_active_in_one(&stored.files, gone) {
        return Ok(false);
    }
    if !numbers_are_new(alloc, &stored.files, &gone_set, placed)? {
        return Ok(false);
    }
    remove_arrivals(arrivals, &stored.files, gone);
    if !add_all(arrivals, arrivals_in(alloc, placed)?.as_slice())? {
        return Ok(false);
    }
    if !suits_counters(stored, session) {
        return Ok(false);
    }
    let limit = state.limit_with(gone, placed.len() as u64, bytes_of(placed));
    Ok(limit.is_none())
}

// Whether the placed files have numbers that no other file has once those that go are gone.
fn numbers_are_new(
    alloc: Global,
    files: &ActiveList,
    gone_set: &BTreeSet<u64>,
    placed: &[ActiveFile],
) -> Result<bool, AllocError>
    ensures { (gone : List ℕ) → IsSetOf gone_set.now gone
        → IfOk result (λ new. new ≡ are_new (λ f. f.number) (map (λ a. a.file.number) placed.now)
        (map (λ a. a.file) (left_after gone files.now.items))) }
{
    let numbers = numbers_in(alloc, placed)?;
    if set_of(alloc, numbers.as_slice())?.is_none() {
        return Ok(false);
    }
    Ok(none_is_left(files, gone_set, numbers.as_slice()))
}

// Whether no file has one of these numbers once those that go are gone.
fn none_is_left(files: &ActiveList, gone_set: &BTreeSet<u64>, numbers: &[u64]) -> bool
    ensures { result ≡ list_all
        (λ n. not (is_some (active_of n files.now.items) && not (contains nat_cmp gone_set.now n))) numbers.now }
{
    for number in numbers {
        if is_left(files, gone_set, *number) {
            return false;
        }
    }
    true
}

// Whether a file has this number once those that go are gone.
fn is_left(files: &ActiveList, gone_set: &BTreeSet<u64>, number: u64) -> bool
    ensures { result ≡ (is_some (active_of number files.now.items) && not (contains nat_cmp gone_set.now number)) }
{
    files.get(number).is_some() && !gone_set.contains(&number)
}

// The numbers of files.
fn numbers_in(alloc: Global, files: &[ActiveFile]) -> Result<Vec<u64>, AllocError>
    ensures { IfOk result (λ numbers. numbers.items ≡ map (λ a. a.file.number) files.now) }
{
    files.iter().map(|active| active.file.number).collect(alloc)
}

// The arrivals of files.
fn arrivals_in(alloc: Global, files: &[ActiveFile]) -> Result<Vec<u64>, AllocError>
    ensures { IfOk result (λ arrivals. arrivals.items ≡ map (λ a. a.file.arrival) files.now) }
{
    files
        .iter()
        .map(|active| active.file.arrival)
        .collect(alloc)
}

// Whether the placed files' connections are there and their numbers and arrivals below what comes next, the generator's
// processor is there, and no counter falls.
fn suits_counters(stored: &Stored, session: &SessionEntry) -> bool
    ensures { result ≡ (list_all (has_place (kept_of stored.now) session.now) session.now.placed
        && has_count stored.now.counts session.now.generator && keeps_counters (kept_of stored.now) session.now) }
{
    have_places(stored, session)
        && session.generator.map_or(true, |generator| {
            u64::from(generator.processor) < stored.counts.len()
        })
        && stored.next_number <= session.next_number
        && stored.next_arrival <= session.next_arrival
        && stored.last_event <= session.last_event
}

fn have_places(stored: &Stored, session: &SessionEntry) -> bool
    ensures { result ≡ list_all (has_place (kept_of stored.now) session.now) session.now.placed }
{
    for active in session.placed.as_slice() {
        let has_place = u64::from(active.connection) < stored.connections.len()
            && active.file.number < session.next_number
            && 0 < active.file.arrival
            && active.file.arrival < session.next_arrival;
        if !has_place {
            return false;
        }
    }
    true
}

// Whether an entry of expired files fits. Where it does, the arrivals are those of the state after it.
fn expire_fits(
    alloc: Global,
    stored: &Stored,
    arrivals: &mut BTreeSet<u64>,
    expire: &ExpireEntry,
) -> Result<bool, AllocError>
    requires encoded { IsExpire expire.now }
    requires consistent { IsConsistent (kept_of stored.now) }
    requires arrivals { AreArrivalsOf arrivals.old stored.now.files.items }
    ensures fits { IfOk result (λ fit. fit ≡ expire_fits (kept_of stored.now) expire.now) }
    ensures arrivals { IfOk result (λ fit. fit ≡ true
        → AreArrivalsOf arrivals.new (left_after expire.now.numbers stored.now.files.items)) }
{
    let numbers = expire.numbers.as_slice();
    remove_arrivals(arrivals, &stored.files, numbers);
    Ok(
        set_of(alloc, numbers)?.is_some()
            && are_active_in(&stored.files, expire.connection, numbers)
            && expire.last_event == stored.last_event + numbers.len() as u64,
    )
}
