//! Many files come into a queue at once.
ghost use Rattle.std.specs.Prelude.{◌≡◌, ◌+◌, ◌<◌, ◌≤◌, ◌++◌, false, length, map};
ghost use Rattle.std.specs.VecDeque.{deque_capacity};
ghost use Rattle.flow_queue.specs.Ages.{HasAgeRoom};
ghost use Rattle.flow_queue.specs.Entering.{AreKept, MayComeTogether, files_with, queue_joined_by};
ghost use Rattle.flow_queue.specs.Queue.{IsApart, queue_with_file};
ghost use Rattle.flow_queue.specs.Ranked.{noted_file};

use super::Queue;
use super::counts::Counts;
use super::ranked::{Note, sort_notes};
use crate::held::Held;
use flowfile_record::{FlowFile, NumberedList};
use machine_model::QueueLimits;
use std::collections::VecDeque;

// A file that comes alone searches for its places in the orders, and moves the notes on one side of them. A sort compares
// each note with as many others as a queue's length has binary digits, and looks up both files each time. So it is for a
// batch of at least one file for so many that are there.
const SORT_SHARE: u64 = 16;

impl Queue {
    // Puts files into the queue that no session works on. There is room for them.
    pub(super) fn put_all(&mut self, files: Vec<FlowFile>)
        requires may { MayComeTogether self.old.files files.items }
        requires room { length files.items ≤ self.old.spare }
        ensures { self.new ≡ queue_joined_by files.items self.old }
    {
        if (files.len() as u64) < self.files.len() / SORT_SHARE {
            self.put_each(files);
        } else {
            self.put_together(files);
        }
    }

    fn put_each(&mut self, files: Vec<FlowFile>)
        requires may { MayComeTogether self.old.files files.items }
        requires room { length files.items ≤ self.old.spare }
        ensures { self.new ≡ queue_joined_by files.items self.old }
    {
        for file in files {
            self.put(file);
        }
    }

    // Sorts the notes once.
    fn put_together(&mut self, files: Vec<FlowFile>)
        requires may { MayComeTogether self.old.files files.items }
        requires room { length files.items ≤ self.old.spare }
        ensures { self.new ≡ queue_joined_by files.items self.old }
    {
        note_all(&mut self.by_rank, &files);
        note_ages(&mut self.by_age, &self.limits, &files);
        put_files(&mut self.files, &mut self.counts, &mut self.bytes, files);
        sort_notes(&mut self.by_rank, &self.files, &self.order);
        sort_notes(&mut self.by_age, &self.files, &self.oldest_first);
    }
}

// Notes files at the end.
fn note_all(notes: &mut VecDeque<Note>, files: &[FlowFile])
    requires room { length notes.old.items + length files.now ≤ deque_capacity notes.old }
    ensures notes { notes.new.items ≡ notes.old.items ++ map noted_file files.now }
    ensures capacity { deque_capacity notes.new ≡ deque_capacity notes.old }
{
    for file in files {
        notes.push_back_reserved(Note {
            number: file.number,
            penalty_end: file.penalty_end,
        });
    }
}

fn note_ages(ages: &mut VecDeque<Note>, limits: &QueueLimits, files: &[FlowFile])
    requires room { HasAgeRoom limits.now (length ages.old.items + length files.now) (deque_capacity ages.old) }
    ensures ages { 0 < limits.now.expiration → ages.new.items ≡ ages.old.items ++ map noted_file files.now }
    ensures capacity { deque_capacity ages.new ≡ deque_capacity ages.old }
{
    if limits.expiration > 0 {
        note_all(ages, files);
    }
}

fn put_files(
    files: &mut NumberedList<Held>,
    counts: &mut Counts,
    bytes: &mut u128,
    coming: Vec<FlowFile>,
)
    requires kept { AreKept files.old.items files.old.room counts.old bytes.old }
    requires may { MayComeTogether files.old.items coming.items }
    requires room { length coming.items ≤ files.old.room }
    ensures kept { AreKept files.new.items files.new.room counts.new bytes.new }
    ensures files { files.new.items ≡ files_with coming.items files.old.items }
    ensures room { files.new.room + length coming.items ≡ files.old.room }
{
    for file in coming {
        let held = Held {
            file,
            in_flight: false,
        };
        put_file(files, counts, bytes, held);
    }
}

// Puts a file among the others, and counts it.
pub(super) fn put_file(
    files: &mut NumberedList<Held>,
    counts: &mut Counts,
    bytes: &mut u128,
    held: Held,
)
    requires kept { AreKept files.old.items files.old.room counts.old bytes.old }
    requires apart { IsApart held.file files.old.items }
    requires rests { held.in_flight ≡ false }
    requires room { 0 < files.old.room }
    ensures kept { AreKept files.new.items files.new.room counts.new bytes.new }
    ensures files { files.new.items ≡ queue_with_file held.file files.old.items }
    ensures room { files.new.room + 1 ≡ files.old.room }
{
    let size = held.size();
    counts.enter(&held);
    files.put(held);
    *bytes += u128::from(size);
}
