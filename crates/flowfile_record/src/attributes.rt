//! The attributes of a flow file, held in the order of their keys' bytes.
ghost use Rattle.std.specs.Prelude.{◌≡◌, ◌==◌, ◌+◌, ◌≤◌, length, sum_by, IsTrue, IfOk, IfErr, OnOk, OnErr, is_ok, Some, slice_get, not, ◌&&◌, ◌↔◌, if◌then◌else◌};
ghost use Rattle.std.specs.Prelude.{map as each};
ghost use Rattle.std.specs.List.{filter};
ghost use Rattle.std.specs.Option.{option_map};
ghost use Rattle.std.specs.Ordering.{nat_cmp};
ghost use Rattle.std.specs.Cmp.Lexicographic.{slice_cmp};
ghost use Rattle.std.specs.FinMap as map;
ghost use Rattle.std.specs.FinMap.{put, insert, is_sorted};
ghost use Rattle.flowfile_record.specs.Attributes.{encoded_size, pair_size, has_key_length, is_uuid, IsWithinLimits, IsPutAnswer, put_answer, after_put, shared};
ghost use Rattle.flowfile_record.specs.Outcome.{same_attributes};
ghost use Rattle.flowfile_record.specs.HeldPairs.{key_and_value};
ghost use Rattle.flowfile_record.specs.Places.{IsAt, IsGap};
ghost use Rattle.flowfile_record.specs.OptionalText.{same_text};

#[cfg(test)]
mod tests;

use crate::Text;
use std::alloc::{AllocError, AllocFailed, Global};
use std::cmp::Ordering;
use std::marker::Model;
use std::sync::Arc;
use thiserror::Error;

/// The greatest encoded size of a flow file's attributes, in bytes.
pub const ATTRIBUTES_MAX: u64 = 65_536;

/// The greatest length of a key, in bytes.
pub const KEY_MAX: u64 = 255;

/// Pairs of a key and a value, each key once, seen as a finite map. A key has 1 to 255 bytes and is never `uuid`.
/// Their encoded size is at most 65,536 bytes.
#[derive(Debug, Drop)]
pub struct Attributes {
    // Ascending by the bytes of the keys.
    pairs: Vec<SharedPair>,
    size: u64,
}

// A pair that copies of the attributes have in common. It never changes: a put over it makes another.
#[derive(Debug, Drop)]
struct SharedPair {
    pair: Arc<Pair>,
}

#[derive(Debug, Drop)]
struct Pair {
    key: Text,
    value: Text,
}

/// What a put did.
#[derive(Clone, Copy, Debug, PartialEq, Eq)]
pub enum Put {
    Stored,
    /// The key is `uuid`, which can't be set.
    Ignored,
}

/// Why a value couldn't be put under a key.
#[derive(Clone, Copy, Debug, PartialEq, Eq, Error)]
pub enum AttrError {
    #[error("an attribute's key has 1 to 255 bytes")]
    BadKey,
    /// The encoded size that the attributes would have with it, in bytes.
    #[error("the attributes would take {size} bytes")]
    TooLarge { size: u64 },
    #[error("out of memory")]
    Memory,
}

impl Model for Attributes {
    ghost use Rattle.std.specs.Prelude.{List, ℕ};
    ghost use Rattle.std.specs.Coded.{coded_ℕ, coded_list};
    ghost use Rattle.std.specs.FinMap.{code, from_sorted};
    ghost use Rattle.flowfile_record.specs.Attributes.{AttributeMap};

    ghost Value = { AttributeMap };

    ghost coded = { code (coded_list coded_ℕ) (coded_list coded_ℕ) };

    ghost use Rattle.flowfile_record.specs.HeldPairs.{map_of, IsHeld};

    ghost view = { λ attributes. map_of attributes.pairs.items };

    ghost invariant = { λ attributes. IsHeld attributes.pairs.items attributes.size };
}

impl Attributes {
    /// No attributes.
    pub fn new(alloc: Global) -> Attributes
        ensures { result ≡ map.empty }
    {
        Attributes {
            pairs: Vec::new(alloc),
            size: COUNT_SIZE,
        }
    }

    /// The value under a key.
    pub fn get(&self, key: &str) -> Option<&str>
        ensures value { option_map (λ value. value.now) result ≡ map.get self.now key.now }
        ensures limits { IsWithinLimits self.now }
    {
        match place_of(&self.pairs, key) {
            Ok(place) => Some(self.pairs[place].value()),
            Err(_) => None,
        }
    }

    /// How many pairs there are.
    pub fn len(&self) -> u64
        ensures { result ≡ map.len self.now }
    {
        self.pairs.len() as u64
    }

    pub fn is_empty(&self) -> bool
        ensures { result ≡ (map.len self.now == 0) }
    {
        self.pairs.is_empty()
    }

    /// The pair at a place, counted from 0 in the order of the keys' bytes.
    pub fn pair(&self, place: u64) -> Option<(&str, &str)>
        ensures pair { option_map (λ pair. (pair.0.now, pair.1.now)) result ≡ slice_get (map.entries self.now) place }
        ensures limits { IsWithinLimits self.now }
    {
        match self.pairs.get(place as usize) {
            Some(pair) => Some((pair.key(), pair.value())),
            None => None,
        }
    }

    /// The encoded size, in bytes: 2 for the count, and for each pair its key, its value and 6 more.
    pub fn size(&self) -> u64
        ensures size { result ≡ encoded_size self.now }
        ensures limits { IsWithinLimits self.now }
    {
        self.size
    }

    /// Puts a value under a key, in place of the one that stands there. The answer is `Ignored` exactly where the key
    /// is `uuid`; `BadKey` where the key is empty or longer than 255 bytes; `TooLarge` where the encoded size would
    /// pass 65,536 bytes; `Memory` only where it is none of these. Nothing changes unless it is `Stored`.
    pub fn put(&mut self, key: &str, value: &str) -> Result<Put, AttrError>
        ensures answer { IsPutAnswer result (put_answer self.old key.now value.now) }
        ensures after { self.new ≡ after_put result self.old key.now value.now }
    {
        if key == "uuid" {
            return Ok(Put::Ignored);
        }
        if key.is_empty() || key.len() as u64 > KEY_MAX {
            return Err(AttrError::BadKey);
        }
        let size = self.size_with(key, value);
        if size > ATTRIBUTES_MAX {
            return Err(AttrError::TooLarge { size });
        }
        self.store(key, value)?;
        Ok(Put::Stored)
    }

    /// Puts a value under a key that can be put. Memory alone refuses, and then nothing changes.
    pub fn store(&mut self, key: &str, value: &str) -> Result<(), AllocError>
        requires key { IsTrue (has_key_length key.now && not (is_uuid key.now)) }
        requires size { encoded_size (insert self.old key.now value.now) ≤ ATTRIBUTES_MAX }
        ensures ok { OnOk result (self.new ≡ insert self.old key.now value.now) }
        ensures err { OnErr result (self.new ≡ self.old) }
    {
        let place = place_of(&self.pairs, key);
        let size = size_with(&self.pairs, self.size, place, key, value);
        store(&mut self.pairs, place, key, value)?;
        self.size = size;
        Ok(())
    }

    /// The encoded size that a put of the value under the key would leave, in bytes.
    pub fn size_with(&self, key: &str, value: &str) -> u64
        requires { length key.now ≤ KEY_MAX }
        ensures { result ≡ encoded_size (insert self.now key.now value.now) }
    {
        let place = place_of(&self.pairs, key);
        size_with(&self.pairs, self.size, place, key, value)
    }

    /// The encoded size that a removal of the key would leave, in bytes.
    pub fn size_without(&self, key: &str) -> u64
        ensures { result ≡ encoded_size (map.remove self.now key.now) }
    {
        match place_of(&self.pairs, key) {
            Ok(place) => self.size - self.pairs[place].size(),
            Err(_) => self.size,
        }
    }

    /// Takes the pair of a key away, and says whether it was there.
    pub fn remove(&mut self, key: &str) -> bool
        ensures was_there { result ≡ map.contains_key self.old key.now }
        ensures after { self.new ≡ map.remove self.old key.now }
    {
        match place_of(&self.pairs, key) {
            Ok(place) => {
                let pair = self.pairs.remove(place);
                self.size -= pair.size();
                true
            }
            Err(_) => false,
        }
    }

    /// Keeps the pairs that stand in the others too.
    pub fn keep_shared(&mut self, others: &Attributes)
        ensures { self.new ≡ shared self.old others.now }
    {
        keep_standing_in(&mut self.pairs, others);
        self.size = size_of_all(&self.pairs);
    }

    /// Whether both are the same pairs.
    pub fn equals(&self, other: &Attributes) -> bool
        ensures same { result ≡ same_attributes self.now other.now }
        ensures equal { IsTrue result ↔ (self.now ≡ other.now) }
    {
        self.pairs == other.pairs
    }

    /// A copy of these attributes, which shares their texts.
    pub fn copy(&self) -> Result<Attributes, AllocError>
        ensures { IfOk result (λ copy. copy ≡ self.now) }
    {
        let pairs = self.pairs.clone()?;
        Ok(Attributes {
            pairs,
            size: self.size,
        })
    }
}

// The bytes of the count, and those of a pair beside its key and its value.
pub const COUNT_SIZE: u64 = 2;

pub const PAIR_SIZE: u64 = 6;

impl Model for SharedPair {
    ghost use Rattle.std.specs.Arc.{arc_value};
    ghost use Rattle.flowfile_record.specs.declared.attributes.Pair.{Pair};

    ghost Value = { Pair };

    ghost view = { λ shared. arc_value shared.pair };
}

impl Clone for SharedPair {
    ghost is_clone = { λ shared copy. copy ≡ shared };

    fn clone(&self) -> Result<SharedPair, AllocError> {
        let pair = Arc::try_clone(&self.pair)?;
        Ok(SharedPair { pair })
    }
}

impl PartialEq for SharedPair {
    ghost use Rattle.std.specs.Prelude.{bytes_eq};
    ghost use Rattle.std.specs.Cmp.{partial_equiv_from_equiv, on_per, and_per};
    ghost use Rattle.std.specs.Cmp.Lexicographic.{nat_list_eq_equiv};

    ghost eq = { λ pair other. bytes_eq pair.key other.key && bytes_eq pair.value other.value };

    ghost laws = { and_per
        (on_per (λ pair. pair.key) (partial_equiv_from_equiv nat_list_eq_equiv))
        (on_per (λ pair. pair.value) (partial_equiv_from_equiv nat_list_eq_equiv)) };

    fn eq(&self, other: &SharedPair) -> bool {
        self.key() == other.key() && self.value() == other.value()
    }
}

impl SharedPair {
    fn new(alloc: Global, key: &str, value: &str) -> Result<SharedPair, AllocError>
        ensures { IfOk result (λ pair. key_and_value pair ≡ (key.now, value.now)) }
    {
        let key = Text::from_str(alloc, key)?;
        let value = Text::from_str(alloc, value)?;
        let pair = Arc::new(alloc, Pair { key, value })?;
        Ok(SharedPair { pair })
    }

    fn key(&self) -> &str
        ensures { result.now ≡ self.now.key }
    {
        self.pair.key.as_str()
    }

    fn value(&self) -> &str
        ensures { result.now ≡ self.now.value }
    {
        self.pair.value.as_str()
    }

    fn size(&self) -> u64
        requires { pair_size (key_and_value self.now) ≤ ATTRIBUTES_MAX }
        ensures { result ≡ pair_size (key_and_value self.now) }
    {
        PAIR_SIZE + self.key().len() as u64 + self.value().len() as u64
    }
}

fn size_of_all(pairs: &[SharedPair]) -> u64
    requires { sum_by pair_size (each key_and_value pairs.now) + COUNT_SIZE ≤ ATTRIBUTES_MAX }
    ensures { result ≡ sum_by pair_size (each key_and_value pairs.now) + COUNT_SIZE }
{
    let mut size = COUNT_SIZE;
    for pair in pairs {
        size += pair.size();
    }
    size
}

// Where the pair of a key stands, or where it would.
fn place_of(pairs: &[SharedPair], key: &str) -> Result<usize, usize>
    requires { IsTrue (is_sorted (slice_cmp nat_cmp) (each key_and_value pairs.now)) }
    ensures found { IfOk result (IsAt (slice_cmp nat_cmp) (each key_and_value pairs.now) key.now) }
    ensures absent { IfErr result (IsGap (slice_cmp nat_cmp) (each key_and_value pairs.now) key.now) }
{
    pairs.binary_search_by(
        |pair: &SharedPair| -> Ordering
            ensures { result ≡ slice_cmp nat_cmp pair.now.key key.entry.now }
        { pair.key().cmp(key) },
    )
}

// The encoded size with a value under a key, whose place `place_of` gave.
fn size_with(
    pairs: &[SharedPair],
    size: u64,
    place: Result<usize, usize>,
    key: &str,
    value: &str,
) -> u64
    requires size_is { size ≡ sum_by pair_size (each key_and_value pairs.now) + COUNT_SIZE }
    requires size_within { size ≤ ATTRIBUTES_MAX }
    requires key_within { length key.now ≤ KEY_MAX }
    requires found { IfOk place (IsAt (slice_cmp nat_cmp) (each key_and_value pairs.now) key.now) }
    requires absent { IfErr place (IsGap (slice_cmp nat_cmp) (each key_and_value pairs.now) key.now) }
    ensures { result ≡ sum_by pair_size
        (put (slice_cmp nat_cmp) key.now value.now (each key_and_value pairs.now)) + COUNT_SIZE }
{
    match place {
        Ok(place) => size - pairs[place].value().len() as u64 + value.len() as u64,
        Err(_) => size + PAIR_SIZE + key.len() as u64 + value.len() as u64,
    }
}

// Puts a value under a key, whose place `place_of` gave.
fn store(
    pairs: &mut Vec<SharedPair>,
    place: Result<usize, usize>,
    key: &str,
    value: &str,
) -> Result<(), AllocError>
    requires found { IfOk place (IsAt (slice_cmp nat_cmp) (each key_and_value pairs.old.items) key.now) }
    requires absent { IfErr place (IsGap (slice_cmp nat_cmp) (each key_and_value pairs.old.items) key.now) }
    ensures { each key_and_value pairs.new.items
        ≡ (if is_ok result
        then put (slice_cmp nat_cmp) key.now value.now (each key_and_value pairs.old.items)
        else each key_and_value pairs.old.items) }
{
    let alloc = *pairs.allocator();
    let pair = SharedPair::new(alloc, key, value)?;
    match place {
        Ok(place) => pairs[place] = pair,
        Err(place) => pairs.insert(place, pair)?,
    }
    Ok(())
}

// Keeps the pairs that stand in the attributes.
fn keep_standing_in(pairs: &mut Vec<SharedPair>, attributes: &Attributes)
    ensures { pairs.new.items
        ≡ filter (λ pair. same_text (Some pair.value) (map.get attributes.now pair.key)) pairs.old.items }
{
    pairs.retain(
        |pair: &SharedPair| -> bool
            ensures { result ≡ same_text (Some pair.now.value) (map.get attributes.entry.now pair.now.key) }
        { stands_in(pair, attributes) },
    );
}

fn stands_in(pair: &SharedPair, attributes: &Attributes) -> bool
    ensures { result ≡ same_text (Some pair.now.value) (map.get attributes.now pair.now.key) }
{
    match attributes.get(pair.key()) {
        Some(value) => pair.value() == value,
        None => false,
    }
}

impl From<AllocError> for AttrError {
    ghost use Rattle.flowfile_record.specs.declared.attributes.AttrError.TheVariants.{Memory};

    ghost from_gives = { λ _ error. error ≡ Memory };

    fn from(_: AllocError) -> AttrError {
        AttrError::Memory
    }
}

impl<T: Drop> From<AllocFailed<T>> for AttrError {
    ghost use Rattle.flowfile_record.specs.declared.attributes.AttrError.TheVariants.{Memory};

    ghost from_gives = { λ _ error. error ≡ Memory };

    fn from(_: AllocFailed<T>) -> AttrError {
        AttrError::Memory
    }
}
