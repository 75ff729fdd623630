//! The slots of a repository, and the counts of references to them.
ghost use Rattle.std.specs.Prelude.{◌≡◌, ◌≢◌, ℕ, ◌+◌, ◌-◌, ◌^◌, ◌<◌, ◌≤◌, true, false, length, slice_set, Some, IfOk, IfSome};
ghost use Rattle.content_repo.specs.SlotSet.{has};
ghost use Rattle.content_repo.specs.declared.slot.TheConstants.{OPEN_SIZE};
ghost use Rattle.content_repo.specs.Slots.{unused, slot_numbered, count_of, size_of, is_live, held_in, next_slot, taken, slot_with_count, HasUnused};

use crate::slot_set::SlotSet;
use crate::{SLOTS, Slot};
use flowfile_record::ContentRef;
use std::alloc::{AllocError, Global};
use std::marker::Model;

/// Fewer references than this are held when one more is to be held: 2^26 - 1.
pub const HELD_MAX: u64 = 67_108_863;

/// A repository of contents, seen as the list of its slots by number. It holds no disk: each call is handed the one
/// that it was loaded from.
#[derive(Debug, Drop)]
pub struct Content {
    slots: Vec<Slot>,
    // Those whose claims take contents.
    open_slots: SlotSet,
    free_slots: SlotSet,
}

impl Model for Content {
    ghost use Rattle.std.specs.Prelude.{List};
    ghost use Rattle.content_repo.specs.declared.slot.Slot.{Slot as TheSlot};

    ghost Value = { List TheSlot };

    ghost use Rattle.content_repo.specs.Slots.{AreSorted};

    ghost view = { λ content. content.slots.items };

    ghost invariant = { λ content. AreSorted content.slots.items content.open_slots content.free_slots };
}

impl Content {
    /// No contents.
    pub(crate) fn new(alloc: Global) -> Result<Content, AllocError>
        ensures none { IfOk result (λ content. (k : ℕ) → slot_numbered content k ≡ unused) }
        ensures held { IfOk result (λ content. held_in content ≡ 0) }
    {
        let slots = unused_slots(alloc)?;
        let open_slots = SlotSet::new(alloc)?;
        let free_slots = all_slots(alloc)?;
        Ok(Content {
            slots,
            open_slots,
            free_slots,
        })
    }

    /// How many slots there are.
    pub(crate) fn len(&self) -> u32
        ensures len { result ≡ length self.now }
        ensures slots { result ≡ SLOTS }
        ensures unused { HasUnused self.now }
    {
        self.slots.len() as u32
    }

    pub(crate) fn slot(&self, number: u32) -> Slot
        requires { number < SLOTS }
        ensures slot { result ≡ slot_numbered self.now number }
        ensures count { result.count ≤ held_in self.now }
        ensures long { length self.now ≡ SLOTS }
    {
        self.slots[number as usize]
    }

    /// A slot to which a reference is held.
    pub(crate) fn held_slot(&self, number: u32) -> Slot
        requires { 0 < count_of self.now number }
        ensures within { number < SLOTS }
        ensures slot { result ≡ slot_numbered self.now number }
        ensures live { result.live ≡ true }
        ensures count { result.count ≤ held_in self.now }
    {
        self.slots[number as usize]
    }

    /// The size of a slot's file, and 0 past the slots.
    pub(crate) fn size_at(&self, number: u64) -> u64
        ensures { result ≡ size_of self.now number }
    {
        if number < u64::from(SLOTS) {
            self.slots[number as usize].size
        } else {
            0
        }
    }

    /// The slot that the next content goes to.
    pub(crate) fn next(&self) -> Option<u32>
        ensures next { result ≡ next_slot self.now }
        ensures within { IfSome result (λ k. k < SLOTS) }
        ensures small { IfSome result (λ k. size_of self.now k < OPEN_SIZE) }
    {
        match self.open_slots.least() {
            Some(number) => Some(number),
            None => self.free_slots.least(),
        }
    }

    /// One more reference to a slot, which begins with it where it is free. Its file has this size now.
    pub(crate) fn take(&mut self, number: u32, size: u64)
        requires within { number < SLOTS }
        requires few { count_of self.old number + 1 < 2 ^ 32 }
        ensures value { self.new ≡ taken self.old number size }
        ensures held { held_in self.new ≡ held_in self.old + 1 }
    {
        let count = self.slot(number).count + 1;
        self.put(
            number,
            Slot {
                live: true,
                count,
                size,
            },
        );
    }

    /// One more reference to the slot of one that is held.
    pub fn hold(&mut self, at: &ContentRef)
        requires held { 0 < count_of self.old at.now.slot }
        requires few { held_in self.old < HELD_MAX }
        ensures value { self.new ≡ slot_with_count self.old at.now.slot (count_of self.old at.now.slot + 1) }
        ensures held { held_in self.new ≡ held_in self.old + 1 }
    {
        let slot = self.held_slot(at.slot);
        self.put(
            at.slot,
            Slot {
                live: slot.live,
                count: slot.count + 1,
                size: slot.size,
            },
        );
    }

    /// One reference less to a slot.
    pub fn unhold(&mut self, at: &ContentRef)
        requires { 0 < count_of self.old at.now.slot }
        ensures value { self.new ≡ slot_with_count self.old at.now.slot (count_of self.old at.now.slot - 1) }
        ensures held { held_in self.new + 1 ≡ held_in self.old }
    {
        let slot = self.held_slot(at.slot);
        self.put(
            at.slot,
            Slot {
                live: slot.live,
                count: slot.count - 1,
                size: slot.size,
            },
        );
    }

    /// Makes a slot free.
    pub(crate) fn retire(&mut self, number: u32)
        requires { number < SLOTS }
        ensures value { self.new ≡ slice_set self.old number unused }
        ensures held { held_in self.new + count_of self.old number ≡ held_in self.old }
    {
        self.put(number, Slot::unused());
    }

    // What is known of a slot is this now.
    fn put(&mut self, number: u32, slot: Slot)
        requires within { number < SLOTS }
        requires known { slot.live ≡ false → slot ≡ unused }
        ensures value { self.new ≡ slice_set self.old number slot }
        ensures held { held_in self.new + count_of self.old number ≡ held_in self.old + slot.count }
    {
        self.open_slots.put(number, slot.is_open());
        self.free_slots.put(number, !slot.live);
        self.slots[number as usize] = slot;
    }
}

// As many slots as there are, all free.
fn unused_slots(alloc: Global) -> Result<Vec<Slot>, AllocError>
    ensures long { IfOk result (λ slots. length slots.items ≡ SLOTS) }
    ensures unused { IfOk result (λ slots. (k : ℕ) → slot_numbered slots.items k ≡ unused) }
    ensures held { IfOk result (λ slots. held_in slots.items ≡ 0) }
{
    let mut slots = Vec::with_capacity(alloc, SLOTS as usize)?;
    for number in 0..SLOTS {
        slots.push(Slot::unused())?;
    }
    Ok(slots)
}

// The set of all slots.
fn all_slots(alloc: Global) -> Result<SlotSet, AllocError>
    ensures { IfOk result (λ set. (k : ℕ) → k < SLOTS → has set k ≡ 1) }
{
    let mut slots = SlotSet::new(alloc)?;
    for number in 0..SLOTS {
        slots.put(number, true);
    }
    Ok(slots)
}
