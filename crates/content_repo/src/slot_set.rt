//! A set of slots, whose least member is found in the same time whatever it holds.
ghost use Rattle.std.specs.Prelude.{◌≡◌, ◌≢◌, ℕ, ◌/◌, ◌<◌, ◌≤◌, true, false, length, IfOk, IfSome, IfNone, slice_index};
ghost use Rattle.content_repo.specs.SlotSet.{has, bit_of, IsChangedAt, IsFirstOf, IsLeast};

use std::alloc::{AllocError, Global};
use std::marker::Model;

/// How many slots there are, one for each claim.
pub const SLOTS: u32 = 65_536;

/// How many members a word tells of.
const WORD_SIZE: usize = 64;

/// How many words tell of all slots.
const WORDS: usize = 1_024;

/// How many words tell of all these words.
const GROUPS: usize = 16;

/// A set of slots, in three levels.
#[derive(Debug, Drop)]
pub struct SlotSet {
    // Whether a slot is a member.
    words: Vec<u64>,
    // Whether a word has members.
    groups: Vec<u64>,
    // Whether a word of the groups has members.
    top: [u64; 1],
}

impl Model for SlotSet {
    ghost use Rattle.std.specs.Prelude.{ℕ, List};

    ghost Value = { List ℕ };

    ghost use Rattle.content_repo.specs.SlotSet.{AreLevels};

    ghost view = { λ set. set.words.items };

    ghost invariant = { λ set. AreLevels set.words.items set.groups.items set.top };
}

impl SlotSet {
    /// No slots.
    pub fn new(alloc: Global) -> Result<SlotSet, AllocError>
        ensures { IfOk result (λ set. (slot : ℕ) → has set slot ≡ 0) }
    {
        Ok(SlotSet {
            words: vec![in alloc; 0u64; WORDS]?,
            groups: vec![in alloc; 0u64; GROUPS]?,
            top: [0],
        })
    }

    /// Makes a slot a member, or no member.
    pub fn put(&mut self, slot: u32, is_member: bool)
        requires { slot < SLOTS }
        ensures here { has self.new slot ≡ bit_of is_member }
        ensures others { (other : ℕ) → other ≢ slot → has self.new other ≡ has self.old other }
    {
        if is_member {
            self.insert(slot);
        } else {
            self.remove(slot);
        }
    }

    fn insert(&mut self, slot: u32)
        requires { slot < SLOTS }
        ensures here { has self.new slot ≡ 1 }
        ensures others { (other : ℕ) → other ≢ slot → has self.new other ≡ has self.old other }
    {
        let word = slot as usize / WORD_SIZE;
        set_bit(self.words.as_mut_slice(), slot as usize);
        set_bit(self.groups.as_mut_slice(), word);
        set_bit(&mut self.top, word / WORD_SIZE);
    }

    fn remove(&mut self, slot: u32)
        requires { slot < SLOTS }
        ensures here { has self.new slot ≡ 0 }
        ensures others { (other : ℕ) → other ≢ slot → has self.new other ≡ has self.old other }
    {
        let word = slot as usize / WORD_SIZE;
        if !clear_bit(self.words.as_mut_slice(), slot as usize) {
            return;
        }
        if !clear_bit(self.groups.as_mut_slice(), word) {
            return;
        }
        let _none_left = clear_bit(&mut self.top, word / WORD_SIZE);
    }

    /// The least member.
    pub fn least(&self) -> Option<u32>
        ensures least { IfSome result (IsLeast self.now) }
        ensures none { IfNone result ((slot : ℕ) → slot < SLOTS → has self.now slot ≡ 0) }
    {
        if self.top[0] == 0 {
            return None;
        }
        let group = first_of(&self.top, 0);
        let word = first_of(self.groups.as_slice(), group);
        Some(first_of(self.words.as_slice(), word) as u32)
    }
}

fn set_bit(words: &mut [u64], place: usize)
    requires { place / WORD_SIZE < length words.old }
    ensures here { has words.new place ≡ 1 }
    ensures changed { IsChangedAt place words.old words.new }
{
    words[place / WORD_SIZE] |= 1 << (place % WORD_SIZE);
}

// Clears a bit. Answers whether its word has none left.
fn clear_bit(words: &mut [u64], place: usize) -> bool
    requires { place / WORD_SIZE < length words.old }
    ensures here { has words.new place ≡ 0 }
    ensures changed { IsChangedAt place words.old words.new }
    ensures left { slice_index words.new (place / WORD_SIZE) ≤ slice_index words.old (place / WORD_SIZE) }
    ensures none { result ≡ true → slice_index words.new (place / WORD_SIZE) ≡ 0 }
    ensures some { result ≡ false → 0 < slice_index words.new (place / WORD_SIZE) }
{
    words[place / WORD_SIZE] &= !(1 << (place % WORD_SIZE));
    words[place / WORD_SIZE] == 0
}

// Where the first bit stands of a word that has one.
fn first_of(words: &[u64], word: usize) -> usize
    requires few { length words.now ≤ WORDS }
    requires within { word < length words.now }
    requires some { 0 < slice_index words.now word }
    ensures { IsFirstOf words.now word result }
{
    word * WORD_SIZE + words[word].trailing_zeros() as usize
}
