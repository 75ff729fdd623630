//! Elements in the order of their numbers, each number once.
ghost use Rattle.std.specs.Prelude.{◌≡◌, ◌==◌, ◌+◌, ◌<◌, ◌≤◌, ◌++◌, ℕ, [], None, Some, length, map, max, filter, IsTrue, IsOk, IfOk, IfErr, OnOk, OnErr, is_some, vec_len, vec_capacity, if◌then◌else◌};
ghost use Rattle.std.specs.Option.{option_copied};
ghost use Rattle.std.specs.Ordering.{nat_cmp};
ghost use Rattle.std.specs.FinMap.{put, is_sorted};
ghost use Rattle.std.specs.List.Sorted.{IsPermutation, IsSortedByKey};
ghost use Rattle.std.specs.Iterator.{YieldsFirstBy, item_count};
ghost use Rattle.flowfile_record.specs.NumberedItems.{item_of, with_item, with_items, with_replaced, without_item, AreNew, AscendsByNumber};
ghost use Rattle.flowfile_record.specs.Places.{IsAt, IsGap};
ghost use Rattle.flowfile_record.specs.Slots.{number_and_item, slot_of, items_of, AreSlots};

use crate::Numbered;
use std::alloc::{AllocError, Global};
use std::marker::Model;

/// Elements in the order of their numbers, each number once, and room for more. A put at the end is cheap, one before
/// others moves these. A taken element leaves an empty place. A put that finds no capacity left sweeps the empty
/// places out: that is at least half of all, so it comes seldom.
#[derive(Debug, Drop)]
pub struct NumberedList<T: Numbered> {
    // Their capacity is at least twice what the elements and the room need.
    slots: Vec<Slot<T>>,
    held: usize,
    room: usize,
}

/// The place of an element by its number, which is empty once the element is taken.
#[derive(Debug, Drop)]
struct Slot<T> {
    number: u64,
    item: Option<T>,
}

impl<T: Numbered> Model for NumberedList<T> {
    ghost use Rattle.flowfile_record.specs.NumberedItems.{NumberedItems};

    ghost Value = { NumberedItems T };

    ghost use Rattle.std.specs.Prelude.{◌+◌, ◌*◌, ◌≤◌, vec_capacity};
    ghost use Rattle.flowfile_record.specs.Slots.{items_of, AreSlots};

    ghost view = { λ list. record { items = items_of list.slots.items; room = list.room } };

    ghost invariant = { λ list. AreSlots T.number list.slots.items list.held
        × (2 * (list.held + list.room) ≤ vec_capacity list.slots) };
}

impl<T: Numbered> NumberedList<T> {
    /// No elements, and no room.
    pub fn new(alloc: Global) -> NumberedList<T>
        ensures items { result.items ≡ [] }
        ensures room { result.room ≡ 0 }
    {
        NumberedList {
            slots: Vec::new(alloc),
            held: 0,
            room: 0,
        }
    }

    /// How many elements there are.
    pub fn len(&self) -> u64
        ensures len { result ≡ length self.now.items }
        ensures ascends { AscendsByNumber T.number self.now.items }
    {
        self.held as u64
    }

    pub fn is_empty(&self) -> bool
        ensures { result ≡ (length self.now.items == 0) }
    {
        self.held == 0
    }

    /// The element of a number.
    pub fn get(&self, number: u64) -> Option<&T>
        ensures { option_copied result ≡ item_of T.number number self.now.items }
    {
        match place_of(&self.slots, number) {
            Ok(place) => self.slots[place].item.as_ref(),
            Err(_) => None,
        }
    }

    /// The elements in the order of their numbers.
    pub fn iter(&self) -> NumberedIter<'_, T>
        ensures { result ≡ self.now.items }
    {
        NumberedIter {
            slots: self.slots.as_slice(),
        }
    }
}

impl<T: Numbered + Drop> NumberedList<T> {
    /// Makes room for so many more elements, where there is less. It fails only there, and nothing changes then.
    pub fn reserve(&mut self, count: u64) -> Result<(), AllocError>
        ensures items { self.new.items ≡ self.old.items }
        ensures ok { OnOk result (self.new.room ≡ max count self.old.room) }
        ensures err { OnErr result (self.new.room ≡ self.old.room) }
        ensures fits { count ≤ self.old.room → IsOk result }
    {
        let count = count as usize;
        if count <= self.room {
            return Ok(());
        }
        let elements = self.held.checked_add(count).ok_or(AllocError)?;
        let capacity = elements.checked_mul(2).ok_or(AllocError)?;
        self.slots
            .reserve(capacity.saturating_sub(self.slots.len()))?;
        self.room = count;
        Ok(())
    }

    /// Puts an element of a new number into its place. There is room for it, and no memory is taken.
    pub fn put(&mut self, item: T)
        requires room { 0 < self.old.room }
        requires new { item_of T.number (T.number item) self.old.items ≡ None }
        ensures items { self.new.items ≡ with_item T.number item self.old.items }
        ensures room { self.new.room + 1 ≡ self.old.room }
    {
        let number = item.number();
        free_place(&mut self.slots);
        let place = place_of(&self.slots, number);
        fill(&mut self.slots, place, number, item);
        self.held += 1;
        self.room -= 1;
    }

    /// Puts many elements of new numbers, each different, into their places, all in one sort. There is room for them,
    /// and no memory is taken.
    pub fn put_all(&mut self, items: Vec<T>)
        requires room { length items.items ≤ self.old.room }
        requires new { AreNew T.number items.items self.old.items }
        ensures items { self.new.items ≡ with_items T.number items.items self.old.items }
        ensures room { self.new.room + length items.items ≡ self.old.room }
    {
        let count = items.len();
        sweep(&mut self.slots);
        append(&mut self.slots, items);
        sort(&mut self.slots);
        self.held += count;
        self.room -= count;
    }

    /// Takes the element of a number out, which leaves room for one more.
    pub fn take(&mut self, number: u64) -> Option<T>
        ensures item { result ≡ item_of T.number number self.old.items }
        ensures items { self.new.items ≡ without_item T.number number self.old.items }
        ensures room { self.new.room ≡ (if is_some result then self.old.room + 1 else self.old.room) }
    {
        match place_of(&self.slots, number) {
            Ok(place) => {
                let item = self.slots[place].item.take();
                if item.is_some() {
                    self.held -= 1;
                    self.room += 1;
                }
                item
            }
            Err(_) => None,
        }
    }

    /// Puts an element in place of the one of its number, and gives that back. Where there is none, nothing changes.
    pub fn replace(&mut self, item: T) -> Option<T>
        ensures item { result ≡ item_of T.number (T.number item) self.old.items }
        ensures items { self.new.items ≡ with_replaced T.number item self.old.items }
        ensures room { self.new.room ≡ self.old.room }
    {
        match place_of(&self.slots, item.number()) {
            Ok(place) => {
                if self.slots[place].item.is_none() {
                    return None;
                }
                self.slots[place].item.replace(item)
            }
            Err(_) => None,
        }
    }
}

// Where the slot of a number stands, or where it would.
fn place_of<T>(slots: &[Slot<T>], number: u64) -> Result<usize, usize>
    requires { IsTrue (is_sorted nat_cmp (map number_and_item slots.now)) }
    ensures found { IfOk result (IsAt nat_cmp (map number_and_item slots.now) number) }
    ensures absent { IfErr result (IsGap nat_cmp (map number_and_item slots.now) number) }
{
    slots.binary_search_by_key(&number, |slot| slot.number)
}

// Puts an element into the slot of its number, whose place `place_of` gave.
fn fill<T: Drop>(slots: &mut Vec<Slot<T>>, place: Result<usize, usize>, number: u64, item: T)
    requires found { IfOk place (IsAt nat_cmp (map number_and_item slots.old.items) number) }
    requires absent { IfErr place (IsGap nat_cmp (map number_and_item slots.old.items) number) }
    requires room { vec_len slots.old < vec_capacity slots.old }
    ensures slots { map number_and_item slots.new.items
        ≡ put nat_cmp number (Some item) (map number_and_item slots.old.items) }
    ensures len { vec_len slots.new ≤ vec_len slots.old + 1 }
    ensures capacity { vec_capacity slots.new ≡ vec_capacity slots.old }
{
    match place {
        Ok(place) => slots[place].item = Some(item),
        Err(place) => {
            let slot = Slot {
                number,
                item: Some(item),
            };
            let Ok(()) = slots.insert(place, slot) else {
                unreachable!()
            };
        }
    }
}

// Sweeps the empty places out of slots that have no capacity left.
fn free_place<T: Drop>(slots: &mut Vec<Slot<T>>)
    ensures items { items_of slots.new.items ≡ items_of slots.old.items }
    ensures slots { (number : T → ℕ) (count : ℕ) → AreSlots number slots.old.items count
        → AreSlots number slots.new.items count }
    ensures room { length (items_of slots.old.items) < vec_capacity slots.old
        → vec_len slots.new < vec_capacity slots.new }
    ensures capacity { vec_capacity slots.new ≡ vec_capacity slots.old }
{
    if slots.len() >= slots.capacity() {
        sweep(slots);
    }
}

// Sweeps the empty places out.
fn sweep<T: Drop>(slots: &mut Vec<Slot<T>>)
    ensures slots { slots.new.items ≡ filter (λ slot. is_some slot.item) slots.old.items }
    ensures capacity { vec_capacity slots.new ≡ vec_capacity slots.old }
{
    slots.retain(
        |slot: &Slot<T>| -> bool
            ensures { result ≡ is_some slot.now.item }
        { slot.item.is_some() },
    );
}

// Adds a slot for each of these elements. There is capacity for them.
fn append<T: Numbered + Drop>(slots: &mut Vec<Slot<T>>, items: Vec<T>)
    requires { length slots.old.items + length items.items ≤ vec_capacity slots.old }
    ensures slots { slots.new.items ≡ slots.old.items ++ map (slot_of T.number) items.items }
    ensures capacity { vec_capacity slots.old ≤ vec_capacity slots.new }
{
    for item in items {
        let slot = Slot {
            number: item.number(),
            item: Some(item),
        };
        let Ok(()) = slots.push(slot) else {
            unreachable!()
        };
    }
}

// Sorts slots by their numbers.
fn sort<T>(slots: &mut Vec<Slot<T>>)
    ensures permutation { IsPermutation slots.old.items slots.new.items }
    ensures sorted { IsSortedByKey (λ slot. slot.number) nat_cmp slots.new.items }
    ensures capacity { vec_capacity slots.new ≡ vec_capacity slots.old }
{
    slots.sort_unstable_by_key(|slot| slot.number);
}

/// The elements of a `NumberedList` in their order, seen as the list of those that are left.
#[derive(Drop)]
pub struct NumberedIter<'a, T> {
    slots: &'a [Slot<T>],
}

impl<'a, T> Model for NumberedIter<'a, T> {
    ghost use Rattle.std.specs.Prelude.{List};

    ghost Value = { List T };

    ghost use Rattle.flowfile_record.specs.Slots.{items_of};

    ghost view = { λ iter. items_of iter.slots.now };
}

impl<'a, T> Iterator for NumberedIter<'a, T> {
    type Item = &'a T;

    ghost next_gives = { YieldsFirstBy (λ item. item.now) (λ rest. rest) };

    ghost remaining = { item_count (λ rest. rest) };

    fn next(&mut self) -> Option<&'a T> {
        while let Some((slot, rest)) = self.slots.split_first() {
            self.slots = rest;
            if let Some(item) = &slot.item {
                return Some(item);
            }
        }
        None
    }
}

#[cfg(test)]
mod tests {
    use super::*;
    use crate::{BatchList, SwapBatch};
    use std::test::Fail;

    enum Step {
        Put(u64),
        Take(u64),
    }

    // A step, and how many places and how much room there are behind it. The put of 6 finds four places and no capacity
    // for more, and sweeps three of them.
    const STEPS: [(Step, usize, usize); 11] = [
        (Step::Put(3), 1, 0),
        (Step::Take(3), 1, 1),
        (Step::Put(3), 1, 0),
        (Step::Put(1), 2, 0),
        (Step::Take(3), 2, 1),
        (Step::Put(4), 3, 0),
        (Step::Take(4), 3, 1),
        (Step::Put(5), 4, 0),
        (Step::Take(5), 4, 1),
        (Step::Put(6), 2, 0),
        (Step::Put(2), 3, 0),
    ];

    fn put(list: &mut BatchList, batch: u64) -> Result<(), Fail> {
        list.reserve(1)?;
        if list.get(batch).is_some() {
            return Err(Fail::from("the number is there already"));
        }
        list.put(SwapBatch {
            connection: 0,
            batch,
            files: 1,
            bytes: 2,
            encoded: 3,
        });
        Ok(())
    }

    #[test]
    fn places_are_emptied_filled_and_swept(rt: HostRuntime) -> Result<(), Fail> {
        let mut list = BatchList::new(rt.alloc());
        for (step, places, room) in STEPS.iter() {
            match step {
                Step::Put(number) => put(&mut list, *number)?,
                Step::Take(number) => assert!(rt; list.take(*number).is_some()),
            }
            assert_eq!(rt; list.slots.len(), *places);
            assert_eq!(rt; list.room, *room);
        }
        let mut numbers = Vec::new(rt.alloc());
        for batch in list.iter() {
            numbers.push(batch.number())?;
        }
        assert_eq!(rt; numbers.as_slice(), [1, 2, 6].as_slice());
        assert_eq!(rt; list.len(), 3);
        assert!(rt; list.take(3).is_none());
        assert_eq!(rt; list.room, 0);
        Ok(())
    }
}
