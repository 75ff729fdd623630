//! How many of a queue's files each whole has: so that none is looked for where none is all there.
ghost use Rattle.std.specs.Prelude.{◌≡◌, ◌+◌, ◌<◌, ◌≤◌, ◌^◌, nat_lt, [], ◌∷◌, None, List, length, OnErr, OnOk};
ghost use Rattle.flowfile_record.specs.NumberedItems.{item_of, with_item, without_item};
ghost use Rattle.machine_model.specs.Fragments.{fragment_seen};
ghost use Rattle.flow_queue.specs.declared.held.Held.{Held as TheHeld};
ghost use Rattle.flow_queue.specs.Counts.{AreCountsOf, CanEnter, HasTally, StillTallies, count_number, count_places, files_counted, files_under, has_enough, number_of_whole, whole_number};

use crate::held::Held;
use flowfile_record::{Attributes, Numbered, NumberedList};
use machine_model::{Fragment, fragment_of};
use std::alloc::{AllocError, Global};
use std::hash::{DefaultHasher, Hasher};

// The rest by this of a whole's number is how many files the whole needs. It is past the most that a session takes.
const NEEDED_LIMIT: u64 = 1_024;

// The number of a file that is no fragment: it needs no other.
const ALONE: u64 = 1;

// How many files belong to the whole of a number, or to the wholes that happen to share it.
#[derive(Debug, Drop)]
struct WholeCount {
    number: u64,
    files: u64,
}

impl Numbered for WholeCount {
    ghost number = { λ count. count.number };

    fn number(&self) -> u64 {
        self.number
    }
}

impl WholeCount {
    fn has_enough(&self) -> bool
        ensures { result ≡ has_enough self.now }
    {
        self.number % NEEDED_LIMIT <= self.files
    }
}

// What is counted of some files.
#[derive(Drop)]
pub(super) struct Counts {
    // One for each number that a file has.
    wholes: NumberedList<WholeCount>,
    // How many of these have enough files.
    enough: u64,
    // How many files have an end of a penalty.
    penalised: u64,
}

impl Counts {
    pub(super) fn new(alloc: Global) -> Counts
        ensures counted { AreCountsOf result [] }
        ensures places { count_places result ≡ 0 }
    {
        Counts {
            wholes: NumberedList::new(alloc),
            enough: 0,
            penalised: 0,
        }
    }

    // Makes room for so many files in all. It fails only where there was less.
    pub(super) fn reserve(&mut self, files: u64) -> Result<(), AllocError>
        ensures counted { (list : List TheHeld) → AreCountsOf self.old list → AreCountsOf self.new list }
        ensures room { OnOk result (files ≤ count_places self.new) }
        ensures none_lost { count_places self.old ≤ count_places self.new }
        ensures fails { OnErr result (count_places self.old < files) }
    {
        let room = files.saturating_sub(self.wholes.len());
        self.wholes.reserve(room)
    }

    // Counts a file that comes.
    pub(super) fn enter(&mut self, held: &Held)
        requires tally { HasTally self.old }
        requires room { CanEnter self.old }
        ensures counted { (files : List TheHeld) → AreCountsOf self.old files → AreCountsOf self.new (held.now ∷ files) }
        ensures places { count_places self.new ≡ count_places self.old }
    {
        let number = whole_number(&held.file.attributes);
        let files = self.take(number) + 1;
        self.put(WholeCount { number, files });
        self.penalised += u64::from(held.has_penalty());
    }

    // Counts a file that goes no more.
    pub(super) fn leave(&mut self, held: &Held)
        requires tally { HasTally self.old }
        requires few { files_counted self.old.wholes.items < 2 ^ 63 }
        ensures counted { (files : List TheHeld) → AreCountsOf self.old (held.now ∷ files) → AreCountsOf self.new files }
        ensures places { count_places self.new ≡ count_places self.old }
    {
        let number = whole_number(&held.file.attributes);
        let files = self.take(number);
        if files > 1 {
            self.put(WholeCount {
                number,
                files: files - 1,
            });
        }
        let penalised = u64::from(held.has_penalty());
        self.penalised = self.penalised.saturating_sub(penalised);
    }

    // Whether a whole may be all there, or a file that is no fragment.
    pub(super) fn may_have_whole(&self) -> bool
        ensures { result ≡ nat_lt 0 self.now.enough }
    {
        self.enough > 0
    }

    // Whether a file has an end of a penalty.
    pub(super) fn has_penalties(&self) -> bool
        ensures { result ≡ nat_lt 0 self.now.penalised }
    {
        self.penalised > 0
    }

    // Takes out how many files have a number.
    fn take(&mut self, number: u64) -> u64
        requires { HasTally self.old }
        ensures files { result ≡ files_under number self.old.wholes.items }
        ensures wholes { self.new.wholes.items ≡ without_item count_number number self.old.wholes.items }
        ensures tally { StillTallies self.old self.new }
        ensures few { self.new.enough ≤ self.old.enough }
        ensures room { 0 < result → 0 < self.new.wholes.room }
        ensures room_kept { self.old.wholes.room ≤ self.new.wholes.room }
    {
        let Some(count) = self.wholes.take(number) else {
            return 0;
        };
        self.enough -= u64::from(count.has_enough());
        count.files
    }

    // Puts how many files have a number that none is counted under.
    fn put(&mut self, count: WholeCount)
        requires tally { HasTally self.old }
        requires new { item_of count_number count.number self.old.wholes.items ≡ None }
        requires files { 0 < count.files }
        requires room { 0 < self.old.wholes.room }
        requires few { self.old.enough < 2 ^ 63 }
        ensures wholes { self.new.wholes.items ≡ with_item count_number count self.old.wholes.items }
        ensures tally { StillTallies self.old self.new }
    {
        self.enough += u64::from(count.has_enough());
        self.wholes.put(count);
    }
}

fn whole_number(attributes: &Attributes) -> u64
    ensures { result ≡ whole_number attributes.now }
{
    match fragment_of(attributes) {
        Some(fragment) => number_of_whole(fragment),
        None => ALONE,
    }
}

// A number that few wholes share.
#[tactic(auto, unfolding(crate::specs::Counts::number_of_whole))]
fn number_of_whole(fragment: Fragment<'_>) -> u64
    ensures { result ≡ number_of_whole (fragment_seen fragment.entry) }
{
    let mut hasher = DefaultHasher::new();
    hasher.write(fragment.whole.identifier.as_bytes());
    let hash = hasher.finish() / NEEDED_LIMIT * NEEDED_LIMIT;
    hash + fragment.whole.count % NEEDED_LIMIT
}
