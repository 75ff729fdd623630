//! The attributes of a flow file.
ghost use Rattle.std.specs.Prelude.{◌≡◌, ◌+◌, ◌-◌, ◌<◌, ◌≤◌, ◌^◌, ◌++◌, length, vec_len, vec_capacity, IsTrue, is_ok, IsErrOf, slice_get};
ghost use Rattle.std.specs.Option.{option_map};
ghost use Rattle.std.specs.FinMap.{empty, entries, len};
ghost use Rattle.flowfile_record.specs.Attributes.{IsWithinLimits};
ghost use Rattle.flowfile_record.specs.Reading.{Gives};
ghost use Rattle.record_codec.specs.FileReading.{may_follow, pair_at, attribute_pairs_at, first_pair_at, attributes_at};
ghost use Rattle.record_codec.specs.FileEncoding as encoding;

use flowfile_record::fields::{
    FieldError, put_long, put_text, put_u16, read_long, read_text, read_u16,
};
use flowfile_record::{ATTRIBUTES_MAX, Attributes, KEY_MAX};
use std::alloc::Global;

#[tactic(auto, unfolding(crate::specs::FileReading::attributes_at))]
pub(crate) fn read_attributes(
    alloc: Global,
    bytes: &[u8],
) -> Result<(Attributes, &[u8]), FieldError>
    ensures read { Gives (λ x. (x.0, x.1.now)) result (attributes_at bytes.now) }
    ensures memory { IsErrOf result FieldError.Memory → IsTrue (is_ok (first_pair_at bytes.now)) }
{
    let (count, rest) = read_u16(bytes)?;
    read_pairs(alloc, count, rest)
}

fn read_pairs(alloc: Global, count: u16, bytes: &[u8]) -> Result<(Attributes, &[u8]), FieldError>
    ensures read { Gives (λ x. (x.0, x.1.now)) result (attribute_pairs_at count empty bytes.now) }
    ensures memory { IsErrOf result FieldError.Memory → (0 < count) × IsTrue (is_ok (pair_at empty bytes.now)) }
{
    let mut attributes = Attributes::new(alloc);
    let mut rest = bytes;
    for _ in 0..count {
        rest = read_pair(&mut attributes, rest)?;
    }
    Ok((attributes, rest))
}

// A pair whose key comes behind those that are there.
#[tactic(auto, unfolding(crate::specs::FileReading::pair_at, crate::specs::FileReading::may_hold), using(crate::proofs::Puts::may_be_stored))]
fn read_pair<'a>(attributes: &mut Attributes, bytes: &'a [u8]) -> Result<&'a [u8], FieldError>
    ensures read { Gives (λ rest. (attributes.new, rest.now)) result (pair_at attributes.old bytes.now) }
    ensures memory { IsErrOf result FieldError.Memory → IsTrue (is_ok (pair_at attributes.old bytes.now)) }
{
    let (key, value_bytes) = read_text(bytes)?;
    if !may_follow(attributes, key) {
        return Err(FieldError::Form {
            left: bytes.len() as u64,
        });
    }
    let (value, rest) = read_long(value_bytes)?;
    if attributes.size_with(key, value) > ATTRIBUTES_MAX {
        return Err(FieldError::Form {
            left: value_bytes.len() as u64,
        });
    }
    attributes.store(key, value)?;
    Ok(rest)
}

#[tactic(auto, unfolding(crate::specs::FileReading::may_follow))]
fn may_follow(attributes: &Attributes, key: &str) -> bool
    ensures { result ≡ may_follow attributes.now key.now }
{
    if key.is_empty() || key.len() as u64 > KEY_MAX || key == "uuid" {
        return false;
    }
    match last_key(attributes) {
        None => true,
        Some(last) => last < key,
    }
}

fn last_key(attributes: &Attributes) -> Option<&str>
    ensures { option_map (λ key. key.now) result
        ≡ option_map (λ pair. pair.0) (slice_get (entries attributes.now) (len attributes.now - 1)) }
{
    match attributes.pair(attributes.len().saturating_sub(1)) {
        Some((key, _)) => Some(key),
        None => None,
    }
}

#[tactic(auto, unfolding(crate::specs::FileEncoding::attributes))]
pub(crate) fn put_attributes(out: &mut Vec<u8>, attributes: &Attributes)
    requires attributes { IsWithinLimits attributes.now }
    requires room { vec_len out.old + length (encoding.attributes attributes.now) ≤ vec_capacity out.old }
    ensures items { out.new.items ≡ out.old.items ++ encoding.attributes attributes.now }
    ensures len { vec_len out.new ≡ vec_len out.old + length (encoding.attributes attributes.now) }
    ensures capacity { vec_capacity out.old ≤ vec_capacity out.new }
{
    put_u16(out, attributes.len() as u16);
    let mut place = 0;
    while let Some((key, value)) = attributes.pair(place) {
        put_pair(out, key, value);
        place += 1;
    }
}

fn put_pair(out: &mut Vec<u8>, key: &str, value: &str)
    requires key { length key.now < 2 ^ 16 }
    requires value { length value.now < 2 ^ 32 }
    requires room { vec_len out.old + length (encoding.pair (key.now, value.now)) ≤ vec_capacity out.old }
    ensures items { out.new.items ≡ out.old.items ++ encoding.pair (key.now, value.now) }
    ensures len { vec_len out.new ≡ vec_len out.old + length (encoding.pair (key.now, value.now)) }
    ensures capacity { vec_capacity out.old ≤ vec_capacity out.new }
{
    put_text(out, key);
    put_long(out, value);
}
