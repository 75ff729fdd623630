//! Blocks: how a payload is encoded in a file of the store.
//!
//! A block is the payload's length in four bytes (big-endian), the kind, the payload, and the SHA-256
//! digest (FIPS 180-4) of the kind and the payload.
ghost use Rattle.std.specs.Prelude.{◌≡◌, ℕ, ◌+◌, ◌-◌, ◌<◌, ◌≤◌, List, [], ◌∷◌, ◌++◌, length, take, drop, slice_range, vec_len, vec_capacity, OnOk, OnErr, IfOk, IsOk, Ok};
ghost use Rattle.std.specs.List.{flat_map};
ghost use Rattle.std.specs.Int.{w32, to_be_bytes, from_be_bytes};
ghost use Rattle.sha2.specs.Sha256.{sha256};
ghost use Rattle.flowfile_record.specs.Field.{HasOneEncoding};
ghost use Rattle.record_codec.specs.Block.{block, block_of, IsBlock, Whole, reading_of, answer_at, sized};

use flowfile_record::DIGEST_SIZE;
use flowfile_record::fields::{put, put_u8, put_u32};
use sha2::{Digest, Sha256};
use std::alloc::AllocError;
use thiserror::Error;

/// The longest payload of a block, in bytes: 2^30.
pub const PAYLOAD_MAX: u64 = 1_073_741_824;

/// The header of a block, in bytes: the payload's length and the kind.
pub const HEADER_SIZE: u64 = 5;

/// What a block has beside its payload, in bytes: the header and the digest.
pub const BLOCK_OVERHEAD: u64 = HEADER_SIZE + DIGEST_SIZE as u64;

/// Where a whole block stands: its kind, the range of its payload, and the offset behind it.
#[derive(Clone, Copy, Debug, PartialEq, Eq)]
pub struct Block {
    pub kind: u8,
    pub start: u64,
    pub end: u64,
    pub next: u64,
}

/// Why no whole block stands at an offset.
#[derive(Clone, Copy, Debug, PartialEq, Eq, Error)]
pub enum BlockEnd {
    /// A header needs `HEADER_SIZE` bytes, and a block as many as its header says.
    #[error("a block needs {need} bytes and there are {have}")]
    Short {
        need: u64,
        have: u64,
    },
    #[error("a block names a payload of {length} bytes")]
    TooLong {
        length: u64,
    },
    #[error("a block's digest differs from the stored one")]
    Digest {
        stored: [u8; DIGEST_SIZE],
        found: [u8; DIGEST_SIZE],
    },
}

/// How many bytes a block has whose payload has this length.
pub fn block_size(payload: u64) -> u64
    requires { payload ≤ PAYLOAD_MAX }
    ensures size { result ≡ payload + BLOCK_OVERHEAD }
    ensures encoded { (kind : ℕ) (bytes : List ℕ) → length bytes ≡ payload → length (block kind bytes) ≡ result }
{
    payload + BLOCK_OVERHEAD
}

/// How many bytes the block has that begins with this header, where so many stand from the header on; or why no whole
/// block can stand there.
pub fn size_by_header(header: &[u8], have: u64) -> Result<u64, BlockEnd>
    requires { length header.now ≡ HEADER_SIZE }
    ensures { result ≡ sized (from_be_bytes w32 (take 4 header.now)) have }
{
    let length = u64::from(u32::from_be_bytes([header[0], header[1], header[2], header[3]]));
    if length > PAYLOAD_MAX {
        return Err(BlockEnd::TooLong { length });
    }
    let need = block_size(length);
    if have < need {
        return Err(BlockEnd::Short { need, have });
    }
    Ok(need)
}

/// Appends a block of this kind and payload. It fails only where there is less room than `block_size` tells, and then
/// the bytes stay.
pub fn append_block(out: &mut Vec<u8>, kind: u8, payload: &[u8]) -> Result<(), AllocError>
    requires { length payload.now ≤ PAYLOAD_MAX }
    ensures ok { OnOk result (out.new.items ≡ out.old.items ++ block kind payload.now) }
    ensures err { OnErr result (out.new.items ≡ out.old.items) }
    ensures room { vec_len out.old + length (block kind payload.now) ≤ vec_capacity out.old → IsOk result }
    ensures capacity { vec_capacity out.old ≤ vec_capacity out.new }
{
    append_parts(out, kind, &[payload])
}

/// Appends a block whose payload is these parts, one behind the other. It fails only where there is less room than
/// `block_size` tells, and then the bytes stay.
pub fn append_parts(out: &mut Vec<u8>, kind: u8, parts: &[&[u8]]) -> Result<(), AllocError>
    requires { length (flat_map (λ part. part.now) parts.now) ≤ PAYLOAD_MAX }
    ensures ok { OnOk result (out.new.items ≡ out.old.items ++ block kind (flat_map (λ part. part.now) parts.now)) }
    ensures err { OnErr result (out.new.items ≡ out.old.items) }
    ensures room { vec_len out.old + length (block kind (flat_map (λ part. part.now) parts.now)) ≤ vec_capacity out.old
        → IsOk result }
    ensures capacity { vec_capacity out.old ≤ vec_capacity out.new }
{
    // Room for the whole block is made first, so that each part is copied once.
    let start = begin_block(out, kind, size_of(parts))?;
    put_all(out, parts);
    end_block(out, start);
    Ok(())
}

// How many bytes these parts have.
fn size_of(parts: &[&[u8]]) -> u64
    requires { length (flat_map (λ part. part.now) parts.now) ≤ PAYLOAD_MAX }
    ensures { result ≡ length (flat_map (λ part. part.now) parts.now) }
{
    let mut size = 0;
    for part in parts {
        size += part.len() as u64;
    }
    size
}

// Makes room for a whole block whose payload has this size, so that nothing behind it can fail, and
// writes the header. Gives the offset of the kind.
fn begin_block(out: &mut Vec<u8>, kind: u8, size: u64) -> Result<usize, AllocError>
    requires { size ≤ PAYLOAD_MAX }
    ensures header { OnOk result (out.new.items ≡ out.old.items ++ to_be_bytes w32 size ++ kind ∷ []) }
    ensures start { IfOk result (λ start. start ≡ vec_len out.old + 4) }
    ensures behind { OnOk result (vec_len out.new + size + DIGEST_SIZE ≤ vec_capacity out.new) }
    ensures err { OnErr result (out.new.items ≡ out.old.items) }
    ensures room { vec_len out.old + size + BLOCK_OVERHEAD ≤ vec_capacity out.old → IsOk result }
    ensures capacity { vec_capacity out.old ≤ vec_capacity out.new }
{
    let start = out.len() + 4;
    out.reserve(block_size(size) as usize)?;
    put_u32(out, size as u32);
    put_u8(out, kind);
    Ok(start)
}

// Writes the digest of what stands from a block's kind on.
fn end_block(out: &mut Vec<u8>, start: usize)
    requires within { start ≤ vec_len out.old }
    requires room { vec_len out.old + DIGEST_SIZE ≤ vec_capacity out.old }
    ensures items { out.new.items ≡ out.old.items ++ sha256 (drop start out.old.items) }
    ensures capacity { vec_capacity out.old ≤ vec_capacity out.new }
{
    let digest = digest_of(&out[start..]);
    put(out, &digest);
}

// Appends parts, one behind the other, for which there is room.
fn put_all(out: &mut Vec<u8>, parts: &[&[u8]])
    requires { vec_len out.old + length (flat_map (λ part. part.now) parts.now) ≤ vec_capacity out.old }
    ensures items { out.new.items ≡ out.old.items ++ flat_map (λ part. part.now) parts.now }
    ensures capacity { vec_capacity out.old ≤ vec_capacity out.new }
{
    for part in parts {
        put(out, part);
    }
}

fn digest_of(bytes: &[u8]) -> [u8; DIGEST_SIZE]
    ensures { result ≡ sha256 bytes.now }
{
    Sha256::digest(bytes)
}

/// The whole block at an offset of some bytes, or why there is none: a header cut short, a payload longer than
/// any, a payload or a digest cut short, and another digest, in this order. It takes no memory.
pub fn read_block(bytes: &[u8], at: u64) -> Result<Block, BlockEnd>
    requires { at ≤ length bytes.now }
    ensures read { result ≡ answer_at at (reading_of (drop at bytes.now)) }
    // A block that was encoded is read, wherever it stands.
    ensures only { (front rest payload : List ℕ) (kind : ℕ) → length front ≡ at → length payload ≤ PAYLOAD_MAX
        → bytes.now ≡ front ++ block kind payload ++ rest → result ≡ answer_at at (Whole kind payload) }
    // What was read stands in these bytes, which are encoded as it is.
    ensures whole { IfOk result
        (λ found. reading_of (drop at bytes.now) ≡ Whole found.kind (slice_range bytes.now found.start found.end)) }
    ensures encoded { IfOk result
        (λ found. take (found.next - at) (drop at bytes.now)
        ≡ block found.kind (slice_range bytes.now found.start found.end)) }
    ensures within { IfOk result
        (λ found. (found.start ≤ found.end) × (found.end + DIGEST_SIZE ≡ found.next)
        × (found.next ≤ length bytes.now)) }
{
    read_whole(bytes, at)
}

/// One kind and payload have one block, and no block is a proper front of another.
pub fn blocks_have_one_encoding()
    ensures { HasOneEncoding block_of IsBlock }
{}

fn read_whole(bytes: &[u8], at: u64) -> Result<Block, BlockEnd>
    requires { at ≤ length bytes.now }
    ensures read { result ≡ answer_at at (reading_of (drop at bytes.now)) }
    ensures whole { IfOk result
        (λ found. reading_of (drop at bytes.now) ≡ Whole found.kind (slice_range bytes.now found.start found.end)) }
    ensures encoded { IfOk result
        (λ found. take (found.next - at) (drop at bytes.now)
        ≡ block found.kind (slice_range bytes.now found.start found.end)) }
    ensures within { IfOk result
        (λ found. (found.start ≤ found.end) × (found.end + DIGEST_SIZE ≡ found.next)
        × (found.next ≤ length bytes.now)) }
{
    let rest = &bytes[at as usize..];
    let have = rest.len() as u64;
    if have < HEADER_SIZE {
        return Err(BlockEnd::Short {
            need: HEADER_SIZE,
            have,
        });
    }
    let length = u64::from(u32::from_be_bytes([rest[0], rest[1], rest[2], rest[3]]));
    if length > PAYLOAD_MAX {
        return Err(BlockEnd::TooLong { length });
    }
    let need = block_size(length);
    if have < need {
        return Err(BlockEnd::Short { need, have });
    }
    let end = (HEADER_SIZE + length) as usize;
    let found = digest_of(&rest[4..end]);
    let mut stored = [0; DIGEST_SIZE];
    stored.copy_from_slice(&rest[end..end + DIGEST_SIZE]);
    if stored != found {
        return Err(BlockEnd::Digest { stored, found });
    }
    Ok(Block {
        kind: rest[4],
        start: at + HEADER_SIZE,
        end: at + HEADER_SIZE + length,
        next: at + need,
    })
}
