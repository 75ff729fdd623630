//! A snapshot that is read as far as some block.
ghost use Rattle.std.specs.Prelude.{◌≡◌, ℕ, ◌∷◌, ◌++◌, ◌==◌, ◌||◌, not, [], IfOk, OnOk, IsErr, IsErrOf, true, false};
ghost use Rattle.std.specs.Ordering.{nat_cmp};
ghost use Rattle.std.specs.BTreeSet.{contains, IsOrdered};
ghost use Rattle.flowfile_record.specs.Stored.{kept_of};
ghost use Rattle.record_codec.specs.ActiveFile.{IsActiveFile};
ghost use Rattle.record_codec.specs.Snapshot.{IsBatch};
ghost use Rattle.checkpoint_store.specs.Consistent.{IsConsistentIn};
ghost use Rattle.checkpoint_store.specs.Reading.{file_has_place, file_may_join, batch_may_follow, kept_of_head};
ghost use Rattle.checkpoint_store.specs.Snapshot.{blocks_in, files_end};
ghost use Rattle.checkpoint_store.specs.SoFar.{IsSoFar};
ghost use Rattle.checkpoint_store.specs.Unfit.{unfit_of};
ghost use Rattle.checkpoint_store.specs.declared.so_far.Unfit.TheVariants as unfit;

use flowfile_record::{
    ActiveFile, ActiveList, BatchList, CodecError, LIVE_BYTES_MAX, LIVE_FILES_MAX, Stored,
    SwapBatch,
};
use record_codec::{BLOCK_OVERHEAD, Head, file_size, head_size};
use std::alloc::{AllocError, Global};
use std::collections::BTreeSet;

/// Why a block doesn't join those before it.
#[derive(Drop)]
pub enum Unfit {
    Memory,
    /// It has no reading, or doesn't fit those before it.
    Form,
}

impl From<AllocError> for Unfit {
    ghost from_gives = { λ _ error. error ≡ unfit.Memory };

    fn from(_: AllocError) -> Unfit {
        Unfit::Memory
    }
}

impl From<CodecError> for Unfit {
    ghost from_gives = { λ error unfit. unfit ≡ unfit_of error };

    fn from(error: CodecError) -> Unfit {
        match error {
            CodecError::Memory => Unfit::Memory,
            CodecError::Form { .. } => Unfit::Form,
        }
    }
}

// How many bytes the block of a file has beside the file's record, with the connection in two.
const FILE_OVERHEAD: u64 = BLOCK_OVERHEAD + 2;

/// What the blocks up to some block say.
#[derive(Drop)]
pub struct SoFar {
    /// The version of the Head.
    pub version: u8,
    pub state: Stored,
    /// Where the Head ends.
    head_end: u64,
    /// The number of the last file, 0 for none.
    last_file: u64,
    /// The number of the last batch, 0 for none.
    last_batch: u64,
    /// The arrivals of the files.
    arrivals: BTreeSet<u64>,
    /// How many bytes the records of the files have.
    bytes: u64,
}

impl SoFar {
    /// What a Head alone says.
    pub fn new(alloc: Global, head: Head) -> SoFar
        requires consistent { IsConsistentIn head.version (kept_of_head head) }
        ensures kept { kept_of result.state ≡ kept_of_head head }
        ensures version { result.version ≡ head.version }
        ensures so_far { IsSoFar result }
    {
        let head_end = head_size(&head) + BLOCK_OVERHEAD;
        let flow = head.flow;
        SoFar {
            version: head.version,
            head_end,
            state: Stored {
                store: head.store,
                flow,
                connections: head.connections,
                processors: head.processors,
                counts: head.counts,
                next_number: head.next_number,
                next_arrival: head.next_arrival,
                last_event: head.last_event,
                line: head.line,
                next_batch: head.next_batch,
                files: ActiveList::new(alloc),
                batches: BatchList::new(alloc),
            },
            last_file: 0,
            last_batch: 0,
            arrivals: BTreeSet::new(alloc),
            bytes: 0,
        }
    }

    /// A file joins those before it.
    pub fn add_file(&mut self, active: ActiveFile) -> Result<(), Unfit>
        requires file { IsActiveFile active }
        requires so_far { IsSoFar self.old }
        ensures joined { OnOk result ((file_may_join (kept_of self.old.state) active ≡ true)
            × (kept_of self.new.state
            ≡ record (kept_of self.old.state) { files = (kept_of self.old.state).files ++ active ∷ [] })) }
        ensures so_far { OnOk result (IsSoFar self.new) }
        ensures version { self.new.version ≡ self.old.version }
        ensures unfit { IsErrOf result Unfit.Form → file_may_join (kept_of self.old.state) active ≡ false }
        ensures memory { IsErrOf result Unfit.Memory → file_may_join (kept_of self.old.state) active ≡ true }
    {
        let number = active.file.number;
        let arrival = active.file.arrival;
        let size = file_size(&active.file);
        if !self.has_place(&active) || self.bytes + size > LIVE_BYTES_MAX {
            return Err(Unfit::Form);
        }
        if !add_arrival(&mut self.arrivals, arrival)? {
            return Err(Unfit::Form);
        }
        self.state.files.reserve(1)?;
        self.state.files.put(active);
        self.last_file = number;
        self.bytes += size;
        Ok(())
    }

    // Whether the file has a place behind the others, and is known to the Head.
    fn has_place(&self, active: &ActiveFile) -> bool
        requires { IsSoFar self.now }
        ensures { result ≡ file_has_place (kept_of self.now.state) active.now }
    {
        let state = &self.state;
        state.batches.is_empty()
            && self.last_file < active.file.number
            && u64::from(active.connection) < state.connections.len()
            && active.file.number < state.next_number
            && 0 < active.file.arrival
            && active.file.arrival < state.next_arrival
            && state.files.len() < LIVE_FILES_MAX
    }

    /// A batch joins those before it.
    pub fn add_batch(&mut self, batch: SwapBatch) -> Result<(), Unfit>
        requires batch { IsBatch batch }
        requires so_far { IsSoFar self.old }
        ensures joined { OnOk result ((batch_may_follow (kept_of self.old.state) batch ≡ true)
            × (kept_of self.new.state
            ≡ record (kept_of self.old.state) { batches = (kept_of self.old.state).batches ++ batch ∷ [] })) }
        ensures so_far { OnOk result (IsSoFar self.new) }
        ensures version { self.new.version ≡ self.old.version }
        ensures unfit { IsErrOf result Unfit.Form → batch_may_follow (kept_of self.old.state) batch ≡ false }
        ensures memory { IsErrOf result Unfit.Memory → batch_may_follow (kept_of self.old.state) batch ≡ true }
    {
        if self.last_batch >= batch.batch {
            return Err(Unfit::Form);
        }
        self.state.batches.reserve(1)?;
        self.state.batches.put(batch);
        self.last_batch = batch.batch;
        Ok(())
    }

    /// Where the files end, and the first batch begins.
    pub fn files_end(&self) -> u64
        requires { IsSoFar self.now }
        ensures { result ≡ files_end self.now.version (kept_of self.now.state) }
    {
        self.head_end + FILE_OVERHEAD * self.state.files.len() + self.bytes
    }

    /// How many blocks there were.
    pub fn blocks(&self) -> u64
        requires { IsSoFar self.now }
        ensures { result ≡ blocks_in (kept_of self.now.state) }
    {
        1 + self.state.files.len() + self.state.batches.len()
    }
}

// Adds an arrival. Answers whether it wasn't there.
fn add_arrival(arrivals: &mut BTreeSet<u64>, arrival: u64) -> Result<bool, AllocError>
    requires { IsOrdered nat_cmp arrivals.old }
    ensures added { IfOk result (λ added. added ≡ not (contains nat_cmp arrivals.old arrival)) }
    ensures absent { IsErr result → contains nat_cmp arrivals.old arrival ≡ false }
    ensures now { OnOk result ((n : ℕ) → contains nat_cmp arrivals.new n
        ≡ (contains nat_cmp arrivals.old n || (arrival == n))) }
    ensures ordered { OnOk result (IsOrdered nat_cmp arrivals.new) }
{
    Ok(arrivals.insert(arrival)?)
}
