//! Many files leave a queue at once.
ghost use Rattle.std.specs.Prelude.{◌≡◌, ◌+◌, ◌<◌, ◌^◌, Some, true, All, IsSome, filter, length, sum_by};
ghost use Rattle.std.specs.VecDeque.{deque_capacity};
ghost use Rattle.flowfile_record.specs.NumberedItems.{item_of};
ghost use Rattle.machine_model.specs.Files.{are_distinct};
ghost use Rattle.flow_queue.specs.Counts.{AreCountsOf, count_places};
ghost use Rattle.flow_queue.specs.Leaving.{files_going, files_staying, queue_left_by, is_held, MayLeaveTogether};
ghost use Rattle.flow_queue.specs.Queue.{flight_of, held_number, held_bytes, without_file};

use super::Queue;
use super::counts::Counts;
use super::ranked::Note;
use crate::held::Held;
use flowfile_record::NumberedList;
use std::collections::VecDeque;

// A file that leaves alone searches for its notes, by as many look-ups as a queue's length has binary digits, and moves
// others. A pass looks up each noted file once. So the pass pays where one file of so many leaves, or more.
const PASS_SHARE: u64 = 16;

impl Queue {
    /// Takes files out of the queue, whether sessions work on them or not.
    pub fn leave_all(&mut self, numbers: &[u64])
        requires there { All (λ number. IsSome (flight_of number self.old.files)) numbers.now }
        requires distinct { are_distinct numbers.now ≡ true }
        ensures { self.new ≡ queue_left_by numbers.now self.old }
    {
        if (numbers.len() as u64) < self.files.len() / PASS_SHARE {
            self.leave_each(numbers);
        } else {
            self.leave_together(numbers);
        }
    }

    fn leave_each(&mut self, numbers: &[u64])
        requires there { All (λ number. IsSome (flight_of number self.old.files)) numbers.now }
        requires distinct { are_distinct numbers.now ≡ true }
        ensures { self.new ≡ queue_left_by numbers.now self.old }
    {
        for number in numbers {
            self.leave(*number);
        }
    }

    // Passes over the notes once, and tells how many bytes the contents of the files have together.
    pub(super) fn leave_together(&mut self, numbers: &[u64]) -> u128
        requires there { All (λ number. IsSome (flight_of number self.old.files)) numbers.now }
        requires distinct { are_distinct numbers.now ≡ true }
        ensures bytes { result ≡ sum_by held_bytes (files_going numbers.now self.old.files) }
        ensures left { self.new ≡ queue_left_by numbers.now self.old }
    {
        let bytes = take_files(&mut self.files, &mut self.counts, numbers);
        keep_standing(&mut self.by_rank, &self.files);
        keep_standing(&mut self.by_age, &self.files);
        self.bytes -= bytes;
        bytes
    }
}

// Takes files out, and tells how many bytes their contents have together.
fn take_files(files: &mut NumberedList<Held>, counts: &mut Counts, numbers: &[u64]) -> u128
    requires counted { AreCountsOf counts.old files.old.items }
    requires few { length files.old.items < 2 ^ 63 }
    requires may { MayLeaveTogether files.old.items numbers.now }
    requires sum { sum_by held_bytes files.old.items < 2 ^ 128 }
    ensures files { files.new.items ≡ files_staying numbers.now files.old.items }
    ensures room { files.new.room ≡ files.old.room + length numbers.now }
    ensures count { length files.new.items + length numbers.now ≡ length files.old.items }
    ensures bytes { sum_by held_bytes files.old.items ≡ result + sum_by held_bytes files.new.items }
    ensures counted { AreCountsOf counts.new files.new.items }
    ensures places { count_places counts.new ≡ count_places counts.old }
{
    let mut bytes = 0;
    for number in numbers {
        let held = take_held(files, *number);
        counts.leave(&held);
        bytes += u128::from(held.size());
    }
    bytes
}

// Takes a file out that is there.
fn take_held(files: &mut NumberedList<Held>, number: u64) -> Held
    requires { IsSome (item_of held_number number files.old.items) }
    ensures held { item_of held_number number files.old.items ≡ Some result }
    ensures files { files.new.items ≡ without_file number files.old.items }
    ensures room { files.new.room ≡ files.old.room + 1 }
{
    let Some(held) = files.take(number) else {
        unreachable!()
    };
    held
}

// Keeps what is noted of files that are there.
fn keep_standing(notes: &mut VecDeque<Note>, files: &NumberedList<Held>)
    ensures notes { notes.new.items ≡ filter (is_held files.now.items) notes.old.items }
    ensures capacity { deque_capacity notes.new ≡ deque_capacity notes.old }
{
    notes.retain(
        |note: &Note| -> bool
            ensures { result ≡ is_held files.entry.now.items note.now }
        { files.get(note.number).is_some() },
    );
}
