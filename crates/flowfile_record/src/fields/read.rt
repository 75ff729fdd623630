//! A field from the front of some bytes.
ghost use Rattle.std.specs.Prelude.{◌≡◌, ◌<◌, length, IsTrue, is_ok, IfOk, IsErrOf};
ghost use Rattle.std.specs.Int.{w16, w32, w64};
ghost use Rattle.flowfile_record.specs.Reading.{Reads, Gives, byte_at, raw_at, uint_at, number_at, text_at, long_at, chars_at, items_at, numbers_at, first_at};
ghost use Rattle.flowfile_record.specs.declared.fields.fault.FieldError.TheVariants.{Memory};

use crate::fields::{FieldError, Unread};
use crate::{DIGEST_SIZE, NUMBER_LIMIT, Numbers};
use std::alloc::Global;

fn unread(bytes: &[u8]) -> Unread
    ensures { result.left ≡ length bytes.now }
{
    Unread {
        left: bytes.len() as u64,
    }
}

// So many bytes from the front, and the others.
#[tactic(auto, unfolding(crate::specs::Reading::raw_at))]
fn read_bytes(bytes: &[u8], size: usize) -> Result<(&[u8], &[u8]), Unread>
    ensures read { Reads (λ x. (x.0.now, x.1.now)) result (raw_at size bytes.now) }
    ensures size { IfOk result (λ x. length x.0.now ≡ size) }
{
    if bytes.len() < size {
        return Err(unread(bytes));
    }
    Ok(bytes.split_at(size))
}

#[tactic(auto, unfolding(crate::specs::Reading::byte_at))]
pub fn read_u8(bytes: &[u8]) -> Result<(u8, &[u8]), Unread>
    ensures { Reads (λ x. (x.0, x.1.now)) result (byte_at bytes.now) }
{
    match bytes {
        [] => Err(Unread { left: 0 }),
        [byte, rest @ ..] => Ok((*byte, rest)),
    }
}

#[tactic(auto, unfolding(crate::specs::Reading::uint_at))]
pub fn read_u16(bytes: &[u8]) -> Result<(u16, &[u8]), Unread>
    ensures { Reads (λ x. (x.0, x.1.now)) result (uint_at w16 bytes.now) }
{
    if bytes.len() < 2 {
        return Err(unread(bytes));
    }
    let (front, rest) = bytes.split_at(2);
    Ok((u16::from_be_bytes([front[0], front[1]]), rest))
}

#[tactic(auto, unfolding(crate::specs::Reading::uint_at))]
pub fn read_u32(bytes: &[u8]) -> Result<(u32, &[u8]), Unread>
    ensures { Reads (λ x. (x.0, x.1.now)) result (uint_at w32 bytes.now) }
{
    if bytes.len() < 4 {
        return Err(unread(bytes));
    }
    let (front, rest) = bytes.split_at(4);
    let number = u32::from_be_bytes([front[0], front[1], front[2], front[3]]);
    Ok((number, rest))
}

#[tactic(auto, unfolding(crate::specs::Reading::uint_at))]
pub fn read_u64(bytes: &[u8]) -> Result<(u64, &[u8]), Unread>
    ensures { Reads (λ x. (x.0, x.1.now)) result (uint_at w64 bytes.now) }
{
    if bytes.len() < 8 {
        return Err(unread(bytes));
    }
    let (front, rest) = bytes.split_at(8);
    let number = u64::from_be_bytes([
        front[0], front[1], front[2], front[3], front[4], front[5], front[6], front[7],
    ]);
    Ok((number, rest))
}

/// A number of a file, an arrival, an event, a batch or a log, a counter of these, or a count: one below
/// `NUMBER_LIMIT`.
#[tactic(auto, unfolding(crate::specs::Reading::number_at))]
pub fn read_number(bytes: &[u8]) -> Result<(u64, &[u8]), Unread>
    ensures { Reads (λ x. (x.0, x.1.now)) result (number_at bytes.now) }
{
    let (number, rest) = read_u64(bytes)?;
    if number >= NUMBER_LIMIT {
        return Err(unread(bytes));
    }
    Ok((number, rest))
}

/// A text behind its length in two bytes.
#[tactic(auto, unfolding(crate::specs::Reading::utf8_at))]
pub fn read_text(bytes: &[u8]) -> Result<(&str, &[u8]), Unread>
    ensures { Reads (λ x. (x.0.now, x.1.now)) result (text_at bytes.now) }
{
    let (size, rest) = read_u16(bytes)?;
    read_utf8(bytes.len() as u64, size as usize, rest)
}

/// A text behind its length in four bytes.
#[tactic(auto, unfolding(crate::specs::Reading::utf8_at))]
pub fn read_long(bytes: &[u8]) -> Result<(&str, &[u8]), Unread>
    ensures { Reads (λ x. (x.0.now, x.1.now)) result (long_at bytes.now) }
{
    let (size, rest) = read_u32(bytes)?;
    read_utf8(bytes.len() as u64, size as usize, rest)
}

// So many bytes of UTF-8, of a field that begins where so many are left.
#[tactic(auto, unfolding(crate::specs::Reading::chars_at))]
fn read_utf8(left: u64, size: usize, bytes: &[u8]) -> Result<(&str, &[u8]), Unread>
    ensures { Reads (λ x. (x.0.now, x.1.now)) result (chars_at left size bytes.now) }
{
    if bytes.len() < size {
        return Err(Unread { left });
    }
    let (front, rest) = bytes.split_at(size);
    match str::from_utf8(front) {
        Ok(text) => Ok((text, rest)),
        Err(_) => Err(Unread { left }),
    }
}

/// The bytes of a digest.
pub fn read_digest(bytes: &[u8]) -> Result<([u8; DIGEST_SIZE], &[u8]), Unread>
    ensures { Reads (λ x. (x.0, x.1.now)) result (raw_at DIGEST_SIZE bytes.now) }
{
    let (front, rest) = read_bytes(bytes, DIGEST_SIZE)?;
    let mut digest = [0; DIGEST_SIZE];
    digest.copy_from_slice(front);
    Ok((digest, rest))
}

/// A list of numbers below `NUMBER_LIMIT`, behind its count in four bytes. An item that can't be read is a field of its
/// own. Memory is taken only where a first item can be read.
#[tactic(auto, unfolding(crate::specs::Reading::listed_at))]
pub fn read_numbers(alloc: Global, bytes: &[u8]) -> Result<(Numbers, &[u8]), FieldError>
    ensures read { Gives (λ x. (x.0, x.1.now)) result (numbers_at bytes.now) }
    ensures memory { IsErrOf result Memory → IsTrue (is_ok (first_at number_at bytes.now)) }
{
    let (count, rest) = read_u32(bytes)?;
    let (items, rest) = read_items(alloc, count, rest)?;
    Ok((Numbers::from(items), rest))
}

fn read_items(alloc: Global, count: u32, bytes: &[u8]) -> Result<(Vec<u64>, &[u8]), FieldError>
    ensures read { Gives (λ x. (x.0.items, x.1.now)) result (items_at number_at count bytes.now) }
    ensures memory { IsErrOf result Memory → (0 < count) × IsTrue (is_ok (number_at bytes.now)) }
{
    let mut items = Vec::new(alloc);
    let mut rest = bytes;
    for _ in 0..count {
        let (item, after) = read_number(rest)?;
        items.push(item)?;
        rest = after;
    }
    Ok((items, rest))
}
