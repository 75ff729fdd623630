//! A queue's files in its order, by what is noted of each.
ghost use Rattle.std.specs.Prelude.{◌≡◌, ◌<◌, ◌≤◌, [], Some, false, true, length, take, slice_get, IfOk, IsOk};
ghost use Rattle.std.specs.List.Sorted.{IsPermutation, IsSortedBy};
ghost use Rattle.std.specs.Option.{option_map};
ghost use Rattle.std.specs.Ordering.{is_lt};
ghost use Rattle.std.specs.VecDeque.{deque_capacity, deque_len};
ghost use Rattle.flowfile_record.specs.NumberedItems.{item_of};
ghost use Rattle.machine_model.specs.Order.{in_order};
ghost use Rattle.flow_queue.specs.Picking.{views_at};
ghost use Rattle.flow_queue.specs.Queue.{AreApart, IsApart, held_number, held_view, queue_with_file, views_of, without_file};
ghost use Rattle.flow_queue.specs.Ranked.{IsBehindLast, IsFirst, IsRanked, IsRankOf, eligible_among, eligible_at, goes_ahead, is_before};

use crate::held::Held;
use flowfile_record::NumberedList;
use machine_model::QueueLimits;
use prioritizer::Order;
use std::alloc::{AllocError, Global};
use std::cmp::Ordering;
use std::collections::VecDeque;

// What an order notes of a file: by the end of its penalty it is passed over without a look at the file.
#[derive(Debug, Drop)]
pub(super) struct Note {
    pub(super) number: u64,
    pub(super) penalty_end: u64,
}

// Notes a file that comes.
pub(super) fn put_note(
    notes: &mut VecDeque<Note>,
    files: &NumberedList<Held>,
    order: &Order,
    held: &Held,
)
    requires apart { AreApart files.now.items }
    requires ranked { IsRanked order.now files.now.items notes.old.items }
    requires new { IsApart held.now.file files.now.items }
    requires rests { held.now.in_flight ≡ false }
    requires room { length notes.old.items < deque_capacity notes.old }
    ensures ranked { IsRanked order.now (queue_with_file held.now.file files.now.items) notes.new.items }
    ensures capacity { deque_capacity notes.old ≤ deque_capacity notes.new }
{
    let place = place_to_come(notes, files, order, held);
    let note = Note {
        number: held.file.number,
        penalty_end: held.file.penalty_end,
    };
    let Ok(()) = notes.insert(place, note) else {
        unreachable!()
    };
}

// Takes out what is noted of a file that goes.
pub(super) fn take_note(
    notes: &mut VecDeque<Note>,
    files: &NumberedList<Held>,
    order: &Order,
    held: &Held,
)
    requires apart { AreApart files.now.items }
    requires ranked { IsRanked order.now files.now.items notes.old.items }
    requires there { item_of held_number (held_number held.now) files.now.items ≡ Some held.now }
    ensures ranked { IsRanked order.now (without_file (held_number held.now) files.now.items) notes.new.items }
    ensures capacity { deque_capacity notes.new ≡ deque_capacity notes.old }
{
    let place = place_to_leave(notes, files, order, held);
    notes.remove(place);
}

// How many files go before one that comes: no search where all do.
fn place_to_come(
    notes: &VecDeque<Note>,
    files: &NumberedList<Held>,
    order: &Order,
    held: &Held,
) -> usize
    requires apart { AreApart files.now.items }
    requires ranked { IsRanked order.now files.now.items notes.now.items }
    ensures bound { result ≤ deque_len notes.now }
    ensures rank { IsRankOf order.now (held_view held.now) (in_order order.now (views_of files.now.items)) result }
{
    if goes_last(notes, files, order, held) {
        return notes.len();
    }
    place_in_order(notes, files, order, held)
}

// How many files go before one that is there: no search where none does.
fn place_to_leave(
    notes: &VecDeque<Note>,
    files: &NumberedList<Held>,
    order: &Order,
    held: &Held,
) -> usize
    requires apart { AreApart files.now.items }
    requires ranked { IsRanked order.now files.now.items notes.now.items }
    requires there { item_of held_number (held_number held.now) files.now.items ≡ Some held.now }
    ensures bound { result ≤ deque_len notes.now }
    ensures rank { IsRankOf order.now (held_view held.now) (in_order order.now (views_of files.now.items)) result }
{
    if is_first(notes, held.file.number) {
        return 0;
    }
    place_in_order(notes, files, order, held)
}

// Whether the last of some files goes before one.
fn goes_last(notes: &VecDeque<Note>, files: &NumberedList<Held>, order: &Order, held: &Held) -> bool
    ensures { result ≡ true → IsBehindLast order.now (held_view held.now) files.now.items notes.now.items }
{
    match notes.back() {
        Some(last) => goes_ahead(last.number, files, order, held),
        None => false,
    }
}

// Whether the file of a number is noted first.
fn is_first(notes: &VecDeque<Note>, number: u64) -> bool
    ensures { result ≡ true → IsFirst number notes.now.items }
{
    match notes.front() {
        Some(first) => first.number == number,
        None => false,
    }
}

// How many files go before one.
fn place_in_order(
    by_rank: &VecDeque<Note>,
    files: &NumberedList<Held>,
    order: &Order,
    held: &Held,
) -> usize
    requires apart { AreApart files.now.items }
    requires ranked { IsRanked order.now files.now.items by_rank.now.items }
    ensures bound { result ≤ deque_len by_rank.now }
    ensures rank { IsRankOf order.now (held_view held.now) (in_order order.now (views_of files.now.items)) result }
{
    by_rank.partition_point(|note| goes_ahead(note.number, files, order, held))
}

// Whether the file of a number goes before one.
fn goes_ahead(number: u64, files: &NumberedList<Held>, order: &Order, held: &Held) -> bool
    ensures { result ≡ goes_ahead order.now (held_view held.now) files.now.items number }
{
    match files.get(number) {
        Some(other) => other.goes_before(held, order),
        None => false,
    }
}

// Sorts what is noted of files that are there.
pub(super) fn sort_notes(notes: &mut VecDeque<Note>, files: &NumberedList<Held>, order: &Order)
    ensures permutation { IsPermutation notes.old.items notes.new.items }
    ensures sorted { IsSortedBy (is_before order.now files.now.items) notes.new.items }
    ensures capacity { deque_capacity notes.new ≡ deque_capacity notes.old }
{
    notes.make_contiguous().sort_unstable_by(
        |one: &Note, other: &Note| -> Ordering
            ensures { is_lt result ≡ is_before order.entry.now files.entry.now.items one.now other.now }
        { compare_noted(one, other, files, order) },
    );
}

// Which of two noted files goes first. One that isn't there goes last.
fn compare_noted(one: &Note, other: &Note, files: &NumberedList<Held>, order: &Order) -> Ordering
    ensures { is_lt result ≡ is_before order.now files.now.items one.now other.now }
{
    match (files.get(one.number), files.get(other.number)) {
        (Some(one), Some(other)) => one.compare(other, order),
        (Some(_), None) => Ordering::Less,
        (None, Some(_)) => Ordering::Greater,
        (None, None) => Ordering::Equal,
    }
}

// The first file that may be taken of those that are noted.
pub(super) fn best_of<'a>(
    by_rank: &VecDeque<Note>,
    files: &'a NumberedList<Held>,
    limits: &QueueLimits,
    moment: u64,
) -> Option<&'a Held>
    ensures { option_map (λ held. held_view held.now) result
        ≡ slice_get (eligible_among limits.now moment files.now.items by_rank.now.items) 0 }
{
    for note in by_rank.iter() {
        if let Some(held) = eligible(note, files, limits, moment) {
            return Some(held);
        }
    }
    None
}

// The first files that may be taken of those that are noted, at most so many.
pub(super) fn first_eligible<'a>(
    alloc: Global,
    by_rank: &VecDeque<Note>,
    files: &'a NumberedList<Held>,
    limits: &QueueLimits,
    moment: u64,
    most: usize,
) -> Result<Vec<&'a Held>, AllocError>
    ensures files { IfOk result (λ list. views_at list.items
        ≡ take most (eligible_among limits.now moment files.now.items by_rank.now.items)) }
    ensures free { eligible_among limits.now moment files.now.items by_rank.now.items ≡ [] → IsOk result }
{
    let mut list = Vec::new(alloc);
    for note in by_rank.iter() {
        if list.len() == most {
            return Ok(list);
        }
        if let Some(held) = eligible(note, files, limits, moment) {
            list.push(held)?;
        }
    }
    Ok(list)
}

// The file that is noted, where it may be taken.
fn eligible<'a>(
    note: &Note,
    files: &'a NumberedList<Held>,
    limits: &QueueLimits,
    moment: u64,
) -> Option<&'a Held>
    ensures { option_map (λ held. held_view held.now) result ≡ eligible_at limits.now moment files.now.items note.now }
{
    if moment < note.penalty_end {
        return None;
    }
    let held = files.get(note.number)?;
    if !held.is_eligible(limits, moment) {
        return None;
    }
    Some(held)
}
