//! Batches of a queue's files: which one is due, and how it goes and comes back.
ghost use Rattle.std.specs.Prelude.{◌≡◌, ◌+◌, ◌-◌, ◌≤◌, [], None, min, true, false, drop, filter, length, map, sum_by, IfOk, IsOk, IsSome, OnOk, OnErr, is_some};
ghost use Rattle.std.specs.List.{reduce};
ghost use Rattle.std.specs.Option.{unwrap_or};
ghost use Rattle.machine_model.specs.Due.{batch_size, lowest_batch};
ghost use Rattle.flow_queue.specs.Picking.{Picks, PicksAll};
ghost use Rattle.flow_queue.specs.Queue.{queue_as_seen};
ghost use Rattle.flow_queue.specs.Ranked.{numbers_noted};
ghost use Rattle.flow_queue.specs.Swapping.{batch_due, batch_in, last_of, number_of_batch, with_batch, MayGoOut, swapped_out_of, IsBatchOf, MayComeIn, swapped_into, is_resting, resting_among, without_batch};

use super::Queue;
use super::ranked::Note;
use crate::batch::Batch;
use crate::held::Held;
use flowfile_record::{FlowFile, NumberedList};
use machine_model::QueueLimits;
use std::alloc::AllocError;
use std::collections::VecDeque;

impl Queue {
    /// The numbers of the files that have to go out as a batch: those that go last of the files that no session works
    /// on, where there are enough of these. `false` where none have to.
    pub fn out_batch(&self, list: &mut Vec<u64>) -> Result<bool, AllocError>
        requires { list.old.items ≡ [] }
        ensures answer { IfOk result (λ answer. answer ≡ is_some (batch_due self.now)) }
        ensures numbers { OnOk result (list.new.items ≡ unwrap_or (batch_due self.now) []) }
        ensures may_go { MayGoOut self.now list.new.items }
        ensures failed { OnErr result (list.new.items ≡ []) }
        // Memory is taken where a batch has to go.
        ensures free { batch_due self.now ≡ None → IsOk result }
    {
        let least = least_of(&self.limits);
        if self.files.len() < least {
            return Ok(false);
        }
        let resting = count_resting(&self.files);
        pick_last(&self.by_rank, &self.files, &self.limits, resting, list)
    }

    /// The batch that has to come back: the lowest, where fewer files than the threshold are active.
    pub fn in_due(&self) -> Option<u64>
        ensures { result ≡ lowest_batch self.now.limits (queue_as_seen self.now) }
    {
        let most = u64::from(self.limits.swap);
        if self.files.len() < most {
            return lowest_number(&self.batches);
        }
        None
    }

    /// Swaps files out as a batch, which leaves room for as many. There is room for the batch.
    pub fn swap_out(&mut self, batch: u64, numbers: &[u64])
        requires files { MayGoOut self.old numbers.now }
        requires new { batch_in self.old batch ≡ None }
        requires room { self.old.batch_room ≡ true }
        ensures { self.new ≡ swapped_out_of self.old batch numbers.now }
    {
        let bytes = self.leave_together(numbers);
        self.batches.put(Batch {
            number: batch,
            files: numbers.len() as u64,
            bytes,
        });
        self.batch_room = false;
    }

    /// Enters a batch that was swapped out before the queue was made. There is room for it.
    pub fn known_batch(&mut self, batch: u64, files: u64, bytes: u64)
        requires new { batch_in self.old batch ≡ None }
        requires room { self.old.batch_room ≡ true }
        ensures { self.new ≡ record self.old {
          batches = with_batch (record { number = batch; files = files; bytes = bytes }) self.old.batches;
          batch_room = false;
        } }
    {
        self.batches.put(Batch {
            number: batch,
            files,
            bytes: u128::from(bytes),
        });
        self.batch_room = false;
    }

    /// Puts the files of a batch back into the queue. There is room for them, and no memory is taken.
    pub fn swap_in(&mut self, batch: u64, files: Vec<FlowFile>)
        requires batch { IsBatchOf self.old batch files.items }
        requires files { MayComeIn self.old files.items }
        requires room { length files.items ≤ self.old.spare }
        ensures { self.new ≡ swapped_into self.old batch files.items }
    {
        self.leave_batch(batch);
        self.put_all(files);
    }

    // A batch goes, which leaves room for one.
    fn leave_batch(&mut self, batch: u64)
        requires { IsSome (batch_in self.old batch) }
        ensures { self.new ≡ record self.old {
          batches = without_batch batch self.old.batches;
          batch_room = true;
        } }
    {
        let _ = self.batches.take(batch);
        self.batch_room = true;
    }
}

// How many files have to be there that no session works on, for a batch to go out.
fn least_of(limits: &QueueLimits) -> u64
    ensures { result ≡ limits.now.swap + batch_size limits.now }
{
    u64::from(limits.swap) + u64::from(limits.swap / 2)
}

// The last numbers of files that no session works on, where there are enough of these.
fn pick_last(
    notes: &VecDeque<Note>,
    files: &NumberedList<Held>,
    limits: &QueueLimits,
    resting: u64,
    list: &mut Vec<u64>,
) -> Result<bool, AllocError>
    requires count { resting ≡ length (resting_among files.now.items (numbers_noted notes.now.items)) }
    requires empty { list.old.items ≡ [] }
    ensures picks { Picks (last_of limits.now (resting_among files.now.items (numbers_noted notes.now.items)))
        result list.new.items }
    ensures free { last_of limits.now (resting_among files.now.items (numbers_noted notes.now.items)) ≡ None
        → IsOk result }
{
    let least = least_of(limits);
    if resting < least {
        return Ok(false);
    }
    let size = u64::from(limits.swap / 2);
    list_resting(notes, files, resting - size, list)?;
    Ok(true)
}

// How many files there are but for those that a session works on.
fn count_resting(files: &NumberedList<Held>) -> u64
    ensures { result ≡ length files.now.items - length (filter (λ held. held.in_flight) files.now.items) }
{
    let mut resting = files.len();
    for held in files.iter() {
        if held.in_flight {
            resting = resting.saturating_sub(1);
        }
    }
    resting
}

// The numbers of the files that no session works on, in the order in which they are noted, but for the first ones.
fn list_resting(
    notes: &VecDeque<Note>,
    files: &NumberedList<Held>,
    skipped: u64,
    list: &mut Vec<u64>,
) -> Result<(), AllocError>
    requires { list.old.items ≡ [] }
    ensures { PicksAll (drop skipped (resting_among files.now.items (numbers_noted notes.now.items)))
        result list.new.items }
{
    let mut left = skipped;
    for note in notes.iter() {
        if !is_resting(note.number, files) {
            continue;
        }
        if left > 0 {
            left -= 1;
            continue;
        }
        if let Err(error) = list.push(note.number) {
            list.clear();
            return Err(error.into());
        }
    }
    Ok(())
}

// Whether a number is that of a file that no session works on.
fn is_resting(number: u64, files: &NumberedList<Held>) -> bool
    ensures { result ≡ is_resting files.now.items number }
{
    match files.get(number) {
        Some(held) => !held.in_flight,
        None => false,
    }
}

fn lowest_number(batches: &NumberedList<Batch>) -> Option<u64>
    ensures { result ≡ reduce min (map number_of_batch batches.now.items) }
{
    batches.iter().map(|batch| batch.number).min()
}

// How many files may come before there are so many, with those of these batches.
pub(super) fn files_short_of(limit: u64, batches: &NumberedList<Batch>) -> u64
    ensures { result ≡ limit - sum_by (λ batch. batch.files) batches.now.items }
{
    let mut left = limit;
    for batch in batches.iter() {
        left = left.saturating_sub(batch.files);
    }
    left
}

// How many bytes may come before there are so many, with those of these batches.
pub(super) fn bytes_short_of(limit: u64, batches: &NumberedList<Batch>) -> u128
    ensures { result ≡ limit - sum_by (λ batch. batch.bytes) batches.now.items }
{
    let mut left = u128::from(limit);
    for batch in batches.iter() {
        left = left.saturating_sub(batch.bytes);
    }
    left
}
