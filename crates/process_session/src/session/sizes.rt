//! What attributes take, and what they would take.
ghost use Rattle.std.specs.Prelude.{◌≡◌, ℕ, ◌+◌, ◌<◌, ◌≤◌, ◌^◌, List, codes, not, length};
ghost use Rattle.std.specs.FinMap.{contains_key, insert, remove};
ghost use Rattle.flowfile_record.specs.Attributes.{encoded_size};
ghost use Rattle.flowfile_record.specs.Outcome.{filename_to_come, is_made};
ghost use Rattle.process_session.specs.Bench.{attribute_size, bench_attributes, made_size, origin_at};

use super::Session;
use crate::FILENAME_SIZE;
use flowfile_record::{ATTRIBUTES_MAX, Attributes, KEY_MAX, Origin};

/// The attribute that a made file is given later where it has none.
const FILENAME: &str = "filename";

impl Session {
    /// The encoded size of a file's attributes.
    pub(super) fn size_at(&self, place: u32) -> u64
        requires { place < length self.now.files }
        ensures size { result ≡ encoded_size (bench_attributes self.now place) }
        ensures part { result ≤ attribute_size self.now }
        ensures small { result ≤ ATTRIBUTES_MAX }
    {
        self.files[place as usize].attributes.size()
    }

    /// Their encoded size with a value under a key.
    pub(super) fn size_with(&self, place: u32, key: &str, value: &str) -> u64
        requires there { place < length self.now.files }
        requires key { length key.now ≤ KEY_MAX }
        ensures size { result ≡ encoded_size (insert (bench_attributes self.now place) key.now value.now) }
        ensures small { result < 2 ^ 63 + 2 ^ 17 }
    {
        encoded_with(&self.files[place as usize].attributes, key, value)
    }

    /// Their encoded size without a key.
    pub(super) fn size_without(&self, place: u32, key: &str) -> u64
        requires { place < length self.now.files }
        ensures size { result ≡ encoded_size (remove (bench_attributes self.now place) key.now) }
        ensures part { result ≤ encoded_size (bench_attributes self.now place) }
        ensures small { result ≤ ATTRIBUTES_MAX }
    {
        encoded_without(&self.files[place as usize].attributes, key)
    }

    /// What a `filename` takes that the file is given later, with a value under a key.
    pub(super) fn filename_with(&self, place: u32, key: &str) -> u64
        requires { place < length self.now.files }
        ensures size { (value : List ℕ) → result
            ≡ filename_to_come (origin_at self.now place) (insert (bench_attributes self.now place) key.now value) }
        ensures small { result ≤ FILENAME_SIZE }
    {
        let file = &self.files[place as usize];
        if is_made(&file.origin) && lacks_filename_with(&file.attributes, key) {
            FILENAME_SIZE
        } else {
            0
        }
    }

    /// What a `filename` takes that the file is given later, without a key.
    pub(super) fn filename_without(&self, place: u32, key: &str) -> u64
        requires { place < length self.now.files }
        ensures size { result ≡ filename_to_come (origin_at self.now place) (remove
            (bench_attributes self.now place) key.now) }
        ensures small { result ≤ FILENAME_SIZE }
    {
        let file = &self.files[place as usize];
        if is_made(&file.origin) && lacks_filename_without(&file.attributes, key) {
            FILENAME_SIZE
        } else {
            0
        }
    }
}

pub(super) fn is_made(origin: &Origin) -> bool
    ensures { result ≡ is_made origin.now }
{
    !matches!(origin, Origin::Taken(_))
}

/// What attributes take as a made file's.
pub(super) fn made_size(attributes: &Attributes) -> u64
    ensures { result ≡ made_size attributes.now }
{
    let size = attributes.size();
    if attributes.get(FILENAME).is_none() {
        size + FILENAME_SIZE
    } else {
        size
    }
}

fn encoded_with(attributes: &Attributes, key: &str, value: &str) -> u64
    requires { length key.now ≤ KEY_MAX }
    ensures size { result ≡ encoded_size (insert attributes.now key.now value.now) }
    ensures small { result < 2 ^ 63 + 2 ^ 17 }
{
    let both = attributes.size() + key.len() as u64 + value.len() as u64;
    let size = attributes.size_with(key, value);
    prove!(size <= both + FILENAME_SIZE);
    size
}

fn encoded_without(attributes: &Attributes, key: &str) -> u64
    ensures size { result ≡ encoded_size (remove attributes.now key.now) }
    ensures part { result ≤ encoded_size attributes.now }
    ensures small { result ≤ ATTRIBUTES_MAX }
{
    let whole = attributes.size();
    let size = attributes.size_without(key);
    prove!(size <= whole);
    size
}

fn lacks_filename_with(attributes: &Attributes, key: &str) -> bool
    ensures { (value : List ℕ) → result ≡ not (contains_key (insert attributes.now key.now value) (codes "filename")) }
{
    key != FILENAME && attributes.get(FILENAME).is_none()
}

fn lacks_filename_without(attributes: &Attributes, key: &str) -> bool
    ensures { result ≡ not (contains_key (remove attributes.now key.now) (codes "filename")) }
{
    key == FILENAME || attributes.get(FILENAME).is_none()
}
