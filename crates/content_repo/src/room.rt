//! Whether contents find a slot each.
ghost use Rattle.std.specs.Prelude.{◌≡◌, ℕ, ◌+◌, ◌≤◌, true, length, drop, count_by, OnOk, OnErr, IfErr};
ghost use Rattle.content_repo.specs.declared.error.ContentError.TheVariants.{SlotsFull as Full};
ghost use Rattle.content_repo.specs.declared.slot_set.TheConstants.{SLOTS};
ghost use Rattle.content_repo.specs.Room.{left_behind, left_by_slot, left_by_live, left_by_new};
ghost use Rattle.content_repo.specs.Slots.{SlotsHaveRoom, HasUnused, is_free};

use crate::{Content, ContentError, OPEN_SIZE, Slot};

impl Content {
    /// Whether contents of these sizes, appended in this order, find a slot each. It takes no memory.
    pub fn room(&self, sizes: &[u64]) -> Result<(), ContentError>
        ensures room { OnOk result (SlotsHaveRoom self.now sizes.now) }
        ensures full { OnErr result (SlotsHaveRoom self.now sizes.now → ⊥) }
        // The refusal considers every slot: there are exactly SLOTS of them.
        ensures long { OnErr result (length self.now ≡ SLOTS) }
        ensures refusal { IfErr result (λ error. error ≡ Full) }
    {
        if self.fit_the_next_slot(sizes) {
            return Ok(());
        }
        let (next, free) = self.fill_live(sizes);
        if fill_new(sizes, next, free) < sizes.len() {
            return Err(ContentError::SlotsFull);
        }
        Ok(())
    }

    // Whether all go into the slot that the next content goes to, as one does. No other slot is looked at.
    fn fit_the_next_slot(&self, sizes: &[u64]) -> bool
        ensures { result ≡ true → SlotsHaveRoom self.now sizes.now }
    {
        // It says of each free slot that its claim is empty.
        let _slots = self.len();
        match self.next() {
            Some(number) => fill(sizes, 0, self.slot(number).size) == sizes.len(),
            None => false,
        }
    }

    // How many of the sizes go into live slots, and how many slots are free.
    fn fill_live(&self, sizes: &[u64]) -> (usize, u32)
        ensures within { result.0 ≤ length sizes.now }
        ensures left { drop result.0 sizes.now ≡ left_by_live self.now sizes.now }
        ensures free { result.1 ≡ count_by is_free self.now }
        ensures unused { HasUnused self.now }
        ensures long { length self.now ≡ SLOTS }
    {
        let mut next = 0;
        let mut free = 0;
        for number in 0..self.len() {
            let slot = self.slot(number);
            next = fill_slot(sizes, next, slot);
            free += u32::from(!slot.live);
        }
        (next, free)
    }
}

// How many of the sizes go into a slot where it is live, and the slots before.
fn fill_slot(sizes: &[u64], from: usize, slot: Slot) -> usize
    requires { from ≤ length sizes.now }
    ensures within { result ≤ length sizes.now }
    ensures left { drop result sizes.now ≡ left_by_slot slot (drop from sizes.now) }
{
    if slot.live {
        fill(sizes, from, slot.size)
    } else {
        from
    }
}

// How many of the sizes go into so many new slots, and the live ones before.
fn fill_new(sizes: &[u64], from: usize, count: u32) -> usize
    requires { from ≤ length sizes.now }
    ensures within { result ≤ length sizes.now }
    ensures left { drop result sizes.now ≡ left_by_new count (drop from sizes.now) }
{
    let mut next = from;
    for number in 0..count {
        next = fill(sizes, next, 0);
    }
    next
}

// How many of the sizes go into a claim of this size, and the slots before.
fn fill(sizes: &[u64], from: usize, size: u64) -> usize
    requires { from ≤ length sizes.now }
    ensures within { result ≤ length sizes.now }
    ensures left { drop result sizes.now ≡ left_behind size (drop from sizes.now) }
{
    let mut filled = size;
    for next in from..sizes.len() {
        if filled >= OPEN_SIZE {
            return next;
        }
        filled = filled.saturating_add(sizes[next]).min(OPEN_SIZE);
    }
    sizes.len()
}
