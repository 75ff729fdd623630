//! Groups: several entries behind one gate.
//!
//! The payload of a group's block is a list of items, and an item is an entry's kind and its encoding.
ghost use Rattle.std.specs.Prelude.{◌≡◌, ◌+◌, ◌<◌, ◌≤◌, ◌^◌, List, ◌++◌, length, vec_len, vec_capacity, IsTrue, is_ok, IfOk, IsErrOf, IsOk, OnOk, OnErr, Ok};
ghost use Rattle.flowfile_record.specs.Field.{HasOneEncoding};
ghost use Rattle.flowfile_record.specs.Reading.{Reads, Gives, Answers, answer, whole, items_at};
ghost use Rattle.record_codec.specs.Group as encoding;
ghost use Rattle.record_codec.specs.Group.{IsItem, IsGroup};
ghost use Rattle.record_codec.specs.GroupReading.{payload_at, item_kind_at, several_at, item_at, group_at, first_item_at};
ghost use Rattle.record_codec.specs.declared.group.Item.{Item as TheItem};

use crate::PAYLOAD_MAX;
use flowfile_record::fields::{FieldError, Unread, put, put_u8, put_u32, read_u8, read_u32};
use flowfile_record::{Bytes, CodecError, Sequence};
use std::alloc::{AllocError, Global};

/// The kind of a group's block.
pub const GROUP_KIND: u8 = 6;

// What an item has beside its payload, in bytes: the kind and the payload's length.
const ITEM_OVERHEAD: u64 = 5;

/// An entry in a group: its kind, from 2 to 5 or 7, and its encoding.
#[derive(Debug, Drop)]
pub struct Item {
    pub kind: u8,
    pub payload: Bytes,
}

/// The items of a group in their order.
pub type Items = Sequence<Item>;

/// How many bytes the encoding of a group has, the payload of its block.
#[tactic(auto, unfolding(crate::specs::Group::group), using(crate::proofs::Sizes::item_size))]
pub fn group_size(items: &[Item]) -> u64
    requires group { IsGroup items.now }
    requires size { length (encoding.group items.now) < 2 ^ 64 }
    ensures { result ≡ length (encoding.group items.now) }
{
    let mut size = 4;
    for item in items {
        size += ITEM_OVERHEAD + item.payload.len();
    }
    size
}

/// Appends the one encoding of a group, the payload of its block. It fails only where there is less room than
/// `group_size` tells, and then the bytes stay.
pub fn write_group(out: &mut Vec<u8>, items: &[Item]) -> Result<(), AllocError>
    requires group { IsGroup items.now }
    requires small { length (encoding.group items.now) ≤ PAYLOAD_MAX }
    ensures ok { OnOk result (out.new.items ≡ out.old.items ++ encoding.group items.now) }
    ensures err { OnErr result (out.new.items ≡ out.old.items) }
    ensures room { vec_len out.old + length (encoding.group items.now) ≤ vec_capacity out.old → IsOk result }
    ensures capacity { vec_capacity out.old ≤ vec_capacity out.new }
{
    out.reserve(group_size(items) as usize)?;
    put_group(out, items);
    Ok(())
}

/// The group that the bytes encode, all of them; else `Form`, at the first field that can't be read, or at what is left
/// over. A payload isn't read as an entry.
pub fn read_group(alloc: Global, bytes: &[u8]) -> Result<Items, CodecError>
    // What is read is encoded so.
    ensures found { IfOk result (λ items. IsGroup items × (bytes.now ≡ encoding.group items)) }
    // What is encoded so is read, unless memory runs out.
    ensures only { (items : List TheItem) → IsGroup items → bytes.now ≡ encoding.group items
        → Answers result (Ok items) }
    // Which offset can't be read.
    ensures exact { Answers result (answer (length bytes.now) (whole group_at bytes.now)) }
    // Memory is taken only for a first item that can be read.
    ensures memory { IsErrOf result CodecError.Memory → IsTrue (is_ok (first_item_at bytes.now)) }
{
    read_answer(alloc, bytes)
}

/// One group has one encoding, and no encoding is a proper front of another.
pub fn groups_have_one_encoding()
    ensures { HasOneEncoding encoding.group IsGroup }
{}

fn read_answer(alloc: Global, bytes: &[u8]) -> Result<Items, CodecError>
    ensures exact { Answers result (answer (length bytes.now) (whole group_at bytes.now)) }
    ensures memory { IsErrOf result CodecError.Memory → IsTrue (is_ok (first_item_at bytes.now)) }
{
    match read_all(alloc, bytes) {
        Ok(items) => Ok(items),
        Err(error) => Err(error.within(bytes)),
    }
}

fn read_all(alloc: Global, bytes: &[u8]) -> Result<Items, FieldError>
    ensures read { Gives (λ items. items) result (whole group_at bytes.now) }
    ensures memory { IsErrOf result FieldError.Memory → IsTrue (is_ok (first_item_at bytes.now)) }
{
    let (items, rest) = read_fields(alloc, bytes)?;
    if !rest.is_empty() {
        return Err(FieldError::Form {
            left: rest.len() as u64,
        });
    }
    Ok(items)
}

#[tactic(auto, unfolding(crate::specs::GroupReading::group_at))]
fn read_fields(alloc: Global, bytes: &[u8]) -> Result<(Items, &[u8]), FieldError>
    ensures read { Gives (λ x. (x.0, x.1.now)) result (group_at bytes.now) }
    ensures memory { IsErrOf result FieldError.Memory → IsTrue (is_ok (first_item_at bytes.now)) }
{
    let (count, rest) = read_count(bytes)?;
    let (items, rest) = read_items(alloc, count, rest)?;
    Ok((Items::from(items), rest))
}

// The count of a group's items, which is two at least.
#[tactic(auto, unfolding(crate::specs::GroupReading::several_at))]
fn read_count(bytes: &[u8]) -> Result<(u32, &[u8]), Unread>
    ensures { Reads (λ x. (x.0, x.1.now)) result (several_at bytes.now) }
{
    let (count, rest) = read_u32(bytes)?;
    if count < 2 {
        return Err(Unread {
            left: bytes.len() as u64,
        });
    }
    Ok((count, rest))
}

fn read_items(alloc: Global, count: u32, bytes: &[u8]) -> Result<(Vec<Item>, &[u8]), FieldError>
    ensures read { Gives (λ x. (x.0.items, x.1.now)) result (items_at item_at count bytes.now) }
    ensures memory { IsErrOf result FieldError.Memory → (0 < count) × IsTrue (is_ok (item_at bytes.now)) }
{
    let mut items = Vec::new(alloc);
    let mut rest = bytes;
    for _ in 0..count {
        let (item, after) = read_item(alloc, rest)?;
        items.push(item)?;
        rest = after;
    }
    Ok((items, rest))
}

#[tactic(auto, unfolding(crate::specs::GroupReading::item_at))]
fn read_item(alloc: Global, bytes: &[u8]) -> Result<(Item, &[u8]), FieldError>
    ensures read { Gives (λ x. (x.0, x.1.now)) result (item_at bytes.now) }
    ensures memory { IsErrOf result FieldError.Memory → IsTrue (is_ok (item_at bytes.now)) }
{
    let (kind, rest) = read_kind(bytes)?;
    let (payload, rest) = read_payload(rest)?;
    let payload = Bytes::from_slice(alloc, payload)?;
    Ok((Item { kind, payload }, rest))
}

#[tactic(auto, unfolding(crate::specs::GroupReading::item_kind_at))]
fn read_kind(bytes: &[u8]) -> Result<(u8, &[u8]), Unread>
    ensures { Reads (λ x. (x.0, x.1.now)) result (item_kind_at bytes.now) }
{
    let (kind, rest) = read_u8(bytes)?;
    if !matches!(kind, 2..=5 | 7) {
        return Err(Unread {
            left: bytes.len() as u64,
        });
    }
    Ok((kind, rest))
}

#[tactic(auto, unfolding(crate::specs::GroupReading::payload_at, flowfile_record::specs::Reading::raw_at))]
fn read_payload(bytes: &[u8]) -> Result<(&[u8], &[u8]), Unread>
    ensures { Reads (λ x. (x.0.now, x.1.now)) result (payload_at bytes.now) }
{
    let (size, rest) = read_u32(bytes)?;
    let size = size as usize;
    if rest.len() < size {
        return Err(Unread {
            left: rest.len() as u64,
        });
    }
    Ok(rest.split_at(size))
}

#[tactic(auto, unfolding(crate::specs::Group::group))]
fn put_group(out: &mut Vec<u8>, items: &[Item])
    requires group { IsGroup items.now }
    requires room { vec_len out.old + length (encoding.group items.now) ≤ vec_capacity out.old }
    ensures items { out.new.items ≡ out.old.items ++ encoding.group items.now }
    ensures capacity { vec_capacity out.old ≤ vec_capacity out.new }
{
    put_u32(out, items.len() as u32);
    for item in items {
        put_item(out, item);
    }
}

#[tactic(auto, unfolding(crate::specs::Group::item), using(crate::proofs::Sizes::item_size))]
fn put_item(out: &mut Vec<u8>, item: &Item)
    requires item { IsItem item.now }
    requires room { vec_len out.old + length (encoding.item item.now) ≤ vec_capacity out.old }
    ensures items { out.new.items ≡ out.old.items ++ encoding.item item.now }
    ensures len { vec_len out.new ≡ vec_len out.old + length (encoding.item item.now) }
    ensures capacity { vec_capacity out.old ≤ vec_capacity out.new }
{
    put_u8(out, item.kind);
    put_u32(out, item.payload.len() as u32);
    put(out, item.payload.as_slice());
}
