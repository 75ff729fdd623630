//! The state of a store, in memory.
ghost use Rattle.std.specs.Prelude.{◌≡◌, ◌+◌, ◌<◌, ◌≤◌, ◌^◌, true, [], length, map, IfOk, OnOk, IsOk, None};
ghost use Rattle.std.specs.List.{sum};
ghost use Rattle.std.specs.Option.{option_or};
ghost use Rattle.flowfile_record.specs.Stored.{kept_of};
ghost use Rattle.flowfile_record.specs.declared.change.Change.TheVariants as change;
ghost use Rattle.flowfile_record.specs.declared.limits.TheConstants.{LIVE_FILES_MAX as FILES_MOST, LIVE_BYTES_MAX as BYTES_MOST};
ghost use Rattle.record_codec.specs.EntryEncoding.{IsEntry, IsSession, IsExpire};
ghost use Rattle.record_codec.specs.declared.entry.LogEntry.TheVariants as entries;
ghost use Rattle.checkpoint_store.specs.Consistent.{IsConsistent, record_size};
ghost use Rattle.kept_state.specs.Applied.{left_after, session_applied, applied, batch_swapped_out};
ghost use Rattle.flowfile_record.specs.Counts.{with_count};
ghost use Rattle.kept_state.specs.Changes.{entry_of_session, entry_of_change, expiry_entry, placed_in, no_files, MaySettleAs, MayExpireAs};
ghost use Rattle.kept_state.specs.Fits.{are_distinct_numbers, entry_suits, has_count};
ghost use Rattle.kept_state.specs.Limits.{limit_passed, live_limit, numbers_limit};
ghost use Rattle.kept_state.specs.Moves.{are_all_active};
ghost use Rattle.kept_state.specs.New.{new_kept};
ghost use Rattle.kept_state.specs.declared.limit.Which.TheVariants as which;

use crate::files::{bytes_at, put_all, take_all};
use crate::records::records_of;
use crate::size::{bytes_of, bytes_of_files, bytes_of_placed};
use crate::{Limit, PreparedEntry};
use flowfile_record::{
    ActiveFile, ActiveList, BatchList, Counted, DIGEST_SIZE, Numbers, Sequence, Settled, Stored,
    TextList,
};
use record_codec::{ExpireEntry, LogEntry, SessionEntry};
use std::alloc::{AllocError, Global};
use std::marker::Model;

/// What a store keeps, and room for more files. It is consistent, and no batch is swapped out. A call looks at the
/// files that it names alone, each in a time that grows with the logarithm of how many there are.
#[derive(Drop)]
pub struct KeptState {
    stored: Stored,
    // How many bytes the records of the files have.
    bytes: u64,
}

impl Model for KeptState {
    ghost use Rattle.kept_state.specs.Memory.{InMemory, in_memory_code, IsHeldState};
    ghost use Rattle.flowfile_record.specs.Stored.{kept_of};

    ghost Value = { InMemory };

    ghost coded = { in_memory_code };

    ghost view = { λ state. record { kept = kept_of state.stored; room = state.stored.files.room } };

    ghost invariant = { λ state. IsHeldState state.stored state.bytes };
}

impl KeptState {
    /// The state of a new store, for a flow with these connections and so many processors.
    pub fn new(
        alloc: Global,
        store: u64,
        flow: [u8; DIGEST_SIZE],
        connections: TextList,
        processors: u64,
    ) -> Result<KeptState, AllocError>
        requires { IsConsistent (new_kept store flow connections processors) }
        ensures { IfOk result (λ state. state.kept ≡ new_kept store flow connections processors) }
    {
        let counts = Vec::from_elem(alloc, 0, processors as usize)?;
        let stored = Stored {
            store,
            flow,
            connections,
            processors: TextList::new(alloc),
            counts: Numbers::from(counts),
            next_number: 1,
            next_arrival: 1,
            last_event: 0,
            line: 0,
            next_batch: 1,
            files: ActiveList::new(alloc),
            batches: BatchList::new(alloc),
        };
        Ok(KeptState { stored, bytes: 0 })
    }

    /// The state that a snapshot says.
    pub(crate) fn from_stored(stored: Stored) -> KeptState
        requires consistent { IsConsistent (kept_of stored) }
        requires no_batches { stored.batches.items ≡ [] }
        ensures { result.kept ≡ kept_of stored }
    {
        let bytes = bytes_of_files(&stored.files);
        KeptState { stored, bytes }
    }

    pub fn stored(&self) -> &Stored
        ensures kept { kept_of result.now ≡ self.now.kept }
        ensures consistent { IsConsistent self.now.kept }
        ensures no_batches { self.now.kept.batches ≡ [] }
    {
        &self.stored
    }

    pub fn into_stored(self) -> Stored
        ensures kept { kept_of result ≡ self.kept }
        ensures consistent { IsConsistent self.kept }
        ensures no_batches { self.kept.batches ≡ [] }
    {
        self.stored
    }

    /// The limit of what lives that the state would pass with a settled session, the number of files before their
    /// bytes.
    pub fn live_limit(&self, settled: &Settled) -> Option<Limit>
        requires { MaySettleAs self.now.kept settled.now }
        ensures { result ≡ live_limit (session_applied self.now.kept (entry_of_session self.now.kept settled.now)) }
    {
        let bytes = bytes_of_placed(settled.placed.as_slice());
        self.limit_with(settled.gone.as_slice(), settled.placed.len(), bytes)
    }

    // The limit that is passed where these files go, and so many with so many bytes are placed.
    pub(crate) fn limit_with(&self, gone: &[u64], placed: u64, bytes: u64) -> Option<Limit>
        requires distinct { are_distinct_numbers gone.now ≡ true }
        requires active { are_all_active self.now.kept.files gone.now ≡ true }
        requires few { length gone.now < 2 ^ 32 }
        requires placed { placed < 2 ^ 32 }
        requires bytes { bytes < 2 ^ 49 }
        ensures limit { let left = left_after gone.now self.now.kept.files in
            result ≡ option_or (limit_passed which.Files FILES_MOST (length left + placed))
            (limit_passed which.FileBytes BYTES_MOST (sum (map record_size left) + bytes)) }
        ensures no_batches { self.now.kept.batches ≡ [] }
    {
        let files = self.stored.files.len() - gone.len() as u64 + placed;
        Limit::of_live(files, self.bytes_with(gone, bytes))
    }

    // How many bytes the records have where these files go, and files with so many bytes are placed.
    fn bytes_with(&self, gone: &[u64], bytes: u64) -> u64
        requires distinct { are_distinct_numbers gone.now ≡ true }
        requires active { are_all_active self.now.kept.files gone.now ≡ true }
        requires few { length gone.now < 2 ^ 32 }
        requires bytes { bytes < 2 ^ 49 }
        ensures { result ≡ sum (map record_size (left_after gone.now self.now.kept.files)) + bytes }
    {
        self.bytes - bytes_at(&self.stored.files, gone) + bytes
    }

    /// The first counter that would pass the limit of numbers with a settled session.
    pub fn numbers_limit(&self, settled: &Settled) -> Option<Limit>
        requires { MaySettleAs self.now.kept settled.now }
        ensures { result ≡ numbers_limit (session_applied self.now.kept (entry_of_session self.now.kept settled.now)) }
    {
        Limit::of_numbers(
            settled.next_number,
            settled.next_arrival,
            self.last_event_with(settled),
            self.stored.next_batch,
        )
    }

    // The number of the last event behind a session's events.
    fn last_event_with(&self, settled: &Settled) -> u64
        requires { length settled.now.events < 2 ^ 32 }
        ensures { result ≡ self.now.kept.last_event + length settled.now.events }
    {
        self.stored.last_event + settled.events.len()
    }

    /// The entry of a settled session, with the memory that writing it takes, and room for its files.
    pub fn prepare(&mut self, alloc: Global, settled: &Settled) -> Result<PreparedEntry, AllocError>
        requires may { MaySettleAs self.old.kept settled.now }
        requires numbers { numbers_limit
            (session_applied self.old.kept (entry_of_session self.old.kept settled.now)) ≡ None }
        ensures entry { IfOk result
            (λ prepared. prepared ≡ entry_of_change self.old.kept (change.Session settled.now)) }
        ensures room { OnOk result (length settled.now.placed ≤ self.new.room) }
        ensures kept { self.new.kept ≡ self.old.kept }
        ensures more { self.old.room ≤ self.new.room }
    {
        let session = self.session_of(alloc, settled)?;
        let prepared = PreparedEntry::new(alloc, LogEntry::Session(session))?;
        self.reserve(settled.placed.len())?;
        Ok(prepared)
    }

    // The entry of a settled session.
    fn session_of(&self, alloc: Global, settled: &Settled) -> Result<SessionEntry, AllocError>
        requires { length settled.now.events < 2 ^ 32 }
        ensures { IfOk result (λ session. session ≡ entry_of_session self.now.kept settled.now) }
    {
        let gone = Numbers::from_slice(alloc, settled.gone.as_slice())?;
        let placed = records_of(alloc, settled.placed.as_slice())?;
        Ok(SessionEntry {
            processor: settled.processor,
            moment: settled.moment,
            gone,
            placed: Sequence::from(placed),
            next_number: settled.next_number,
            next_arrival: settled.next_arrival,
            last_event: self.last_event_with(settled),
            generator: settled.count,
        })
    }

    /// The entry of the files of a connection that expire, with the memory that writing it takes.
    pub fn prepare_expiry(
        &self,
        alloc: Global,
        connection: u16,
        settled: &Settled,
    ) -> Result<PreparedEntry, AllocError>
        requires may { MayExpireAs self.now.kept connection settled.now }
        requires numbers { numbers_limit
            (session_applied self.now.kept (entry_of_session self.now.kept settled.now)) ≡ None }
        ensures { IfOk result (λ prepared. prepared ≡ expiry_entry self.now.kept connection settled.now) }
    {
        // It says of what is kept that it is consistent.
        let _stored = self.stored();
        let numbers = Numbers::from_slice(alloc, settled.gone.as_slice())?;
        let entry = LogEntry::Expire(ExpireEntry {
            connection,
            moment: settled.moment,
            numbers,
            last_event: self.last_event_with(settled),
        });
        PreparedEntry::new(alloc, entry)
    }

    /// Makes room for so many more files.
    pub(crate) fn reserve(&mut self, count: u64) -> Result<(), AllocError>
        ensures kept { self.new.kept ≡ self.old.kept }
        ensures room { OnOk result (count ≤ self.new.room) }
        ensures more { self.old.room ≤ self.new.room }
    {
        self.stored.files.reserve(count)
    }

    /// The state after an entry that fits. It takes no memory.
    pub fn apply(&mut self, entry: LogEntry)
        requires encoded { IsEntry entry }
        requires no_batch { batch_swapped_out entry ≡ [] }
        requires fits { entry_suits no_files self.old.kept entry ≡ true }
        requires room { length (placed_in entry) ≤ self.old.room }
        ensures kept { self.new.kept ≡ applied no_files self.old.kept entry }
        ensures room { self.old.room ≤ self.new.room + length (placed_in entry) }
    {
        // No batch is swapped out, so none comes in.
        let _ = &self.stored;
        match entry {
            LogEntry::Session(session) => self.apply_session(session),
            LogEntry::Expire(expire) => self.apply_expire(expire),
            _ => unreachable!(),
        }
    }

    pub(crate) fn apply_session(&mut self, session: SessionEntry)
        requires encoded { IsSession session }
        requires fits { entry_suits no_files self.old.kept (entries.Session session) ≡ true }
        requires room { length session.placed ≤ self.old.room }
        ensures kept { self.new.kept ≡ session_applied self.old.kept session }
        ensures room { self.old.room ≤ self.new.room + length session.placed }
    {
        let placed = bytes_of(session.placed.as_slice());
        let bytes = self.bytes_with(session.gone.as_slice(), placed);
        take_all(&mut self.stored.files, session.gone.as_slice());
        put_all(&mut self.stored.files, session.placed.into_vec());
        set_count(&mut self.stored.counts, session.generator);
        self.stored.next_number = session.next_number;
        self.stored.next_arrival = session.next_arrival;
        self.stored.last_event = session.last_event;
        self.bytes = bytes;
    }

    pub(crate) fn apply_expire(&mut self, expire: ExpireEntry)
        requires encoded { IsExpire expire }
        requires fits { entry_suits no_files self.old.kept (entries.Expire expire) ≡ true }
        ensures kept { self.new.kept ≡ applied no_files self.old.kept (entries.Expire expire) }
        ensures room { self.old.room ≤ self.new.room }
    {
        let bytes = self.bytes_with(expire.numbers.as_slice(), 0);
        take_all(&mut self.stored.files, expire.numbers.as_slice());
        self.stored.last_event = expire.last_event;
        self.bytes = bytes;
    }
}

// Sets the count of a generator.
fn set_count(counts: &mut Numbers, generator: Option<Counted>)
    requires { has_count counts.old generator ≡ true }
    ensures { counts.new ≡ with_count generator counts.old }
{
    if let Some(generator) = generator {
        counts.set(u64::from(generator.processor), generator.count);
    }
}
