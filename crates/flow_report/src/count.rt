//! How many files the connections have, and how many bytes these have together.
ghost use Rattle.std.specs.Prelude.{◌≡◌, ℕ, ◌==◌, ◌+◌, ◌<◌, ◌^◌, filter, length, if◌then◌else◌};
ghost use Rattle.std.specs.List.{sum_by};
ghost use Rattle.flow_report.specs.Counts.{counted_bytes, files_at};

use flowfile_record::{ActiveList, BatchList};

/// How many connections are counted in one pass over the files.
pub(crate) const COUNTED: usize = 1_024;

/// How many files, and the sum of their contents' sizes in bytes.
#[derive(Clone, Copy)]
pub(crate) struct Count {
    pub(crate) files: u128,
    pub(crate) bytes: u128,
}

/// The counts of the connections at places that follow one another.
#[derive(Drop)]
pub(crate) struct Counts {
    first: usize,
    counts: [Count; COUNTED],
}

/// The active files of the connections from a place on.
pub(crate) fn count_active(files: &ActiveList, first: usize) -> Counts
    ensures files { (at : ℕ) → at < COUNTED → files_at result at
        ≡ length (filter (λ active. active.connection == first + at) files.now.items) }
    ensures bytes { (at : ℕ) → at < COUNTED → counted_bytes result at ≡ sum_by (λ active. active.file.content.size)
        (filter (λ active. active.connection == first + at) files.now.items) }
{
    // There are fewer than 2^64, so that the sums fit.
    let _length = files.len();
    let mut counts = Counts::new(first);
    for active in files.iter() {
        counts.add(active.connection, 1, active.file.content.size);
    }
    counts
}

/// The swapped out files of the connections from a place on.
pub(crate) fn count_swapped(batches: &BatchList, first: usize) -> Counts
    ensures files { (at : ℕ) → at < COUNTED → files_at result at
        ≡ sum_by (λ batch. batch.files) (filter (λ batch. batch.connection == first + at) batches.now.items) }
    ensures bytes { (at : ℕ) → at < COUNTED → counted_bytes result at
        ≡ sum_by (λ batch. batch.bytes) (filter (λ batch. batch.connection == first + at) batches.now.items) }
{
    let _length = batches.len();
    let mut counts = Counts::new(first);
    for batch in batches.iter() {
        counts.add(batch.connection, batch.files, batch.bytes);
    }
    counts
}

impl Counts {
    // Nothing yet, of the connections from a place on.
    fn new(first: usize) -> Counts
        ensures first { result.first ≡ first }
        ensures files { (at : ℕ) → at < COUNTED → files_at result at ≡ 0 }
        ensures bytes { (at : ℕ) → at < COUNTED → counted_bytes result at ≡ 0 }
    {
        Counts {
            first,
            counts: [Count { files: 0, bytes: 0 }; COUNTED],
        }
    }

    // Counts so many files and bytes more of a connection, unless it stands before or behind those that are counted.
    fn add(&mut self, connection: u16, files: u64, bytes: u64)
        requires files { (at : ℕ) → at < COUNTED → files_at self.old at + files < 2 ^ 128 }
        requires bytes { (at : ℕ) → at < COUNTED → counted_bytes self.old at + bytes < 2 ^ 128 }
        ensures first { self.new.first ≡ self.old.first }
        ensures files { (at : ℕ) → at < COUNTED → files_at self.new at
            ≡ (if connection == self.old.first + at then files_at self.old at + files else files_at self.old at) }
        ensures bytes { (at : ℕ) → at < COUNTED → counted_bytes self.new at
            ≡ (if connection == self.old.first + at then counted_bytes self.old at + bytes else counted_bytes self.old
            at) }
    {
        let Some(at) = usize::from(connection).checked_sub(self.first) else {
            return;
        };
        if at < COUNTED {
            let count = &mut self.counts[at];
            count.files += u128::from(files);
            count.bytes += u128::from(bytes);
        }
    }

    /// The count of the connection at this place behind the first.
    pub(crate) fn at(&self, at: usize) -> Count
        requires { at < COUNTED }
        ensures files { result.files ≡ files_at self.now at }
        ensures bytes { result.bytes ≡ counted_bytes self.now at }
    {
        self.counts[at]
    }
}
