//! References to contents.
ghost use Rattle.std.specs.Prelude.{◌≡◌, ◌+◌, ◌≤◌, ◌++◌, length, vec_len, vec_capacity};
ghost use Rattle.flowfile_record.specs.Reading.{Reads};
ghost use Rattle.flowfile_record.specs.Encoding.{IsDigest};
ghost use Rattle.record_codec.specs.FileReading.{slot_at, range_at, size_at, content_ref_at};
ghost use Rattle.record_codec.specs.FileEncoding as encoding;

use flowfile_record::fields::{
    Unread, put, put_u32, put_u64, read_digest, read_number, read_u32, read_u64,
};
use flowfile_record::{CONTENT_MAX, ContentRef, NUMBER_LIMIT};

/// The slots of resource claims are below it.
pub const SLOT_LIMIT: u32 = 65_536;

#[tactic(auto, unfolding(crate::specs::FileReading::content_ref_at))]
pub(crate) fn read_content_ref(bytes: &[u8]) -> Result<(ContentRef, &[u8]), Unread>
    ensures { Reads (λ x. (x.0, x.1.now)) result (content_ref_at bytes.now) }
{
    let (slot, rest) = read_slot(bytes)?;
    let ((offset, size), rest) = read_range(rest)?;
    let (digest, rest) = read_digest(rest)?;
    let content = ContentRef {
        slot,
        offset,
        size,
        digest,
    };
    Ok((content, rest))
}

#[tactic(auto, unfolding(crate::specs::FileReading::slot_at))]
fn read_slot(bytes: &[u8]) -> Result<(u32, &[u8]), Unread>
    ensures { Reads (λ x. (x.0, x.1.now)) result (slot_at bytes.now) }
{
    let (slot, rest) = read_u32(bytes)?;
    if slot >= SLOT_LIMIT {
        return Err(Unread {
            left: bytes.len() as u64,
        });
    }
    Ok((slot, rest))
}

/// An offset and a size. Where the content ends is below the limit of numbers, so that a part of it has such an offset.
#[tactic(auto, unfolding(crate::specs::FileReading::range_at))]
fn read_range(bytes: &[u8]) -> Result<((u64, u64), &[u8]), Unread>
    ensures { Reads (λ x. (x.0, x.1.now)) result (range_at bytes.now) }
{
    let (offset, rest) = read_number(bytes)?;
    let (size, rest) = read_size(rest)?;
    if offset.saturating_add(size) >= NUMBER_LIMIT {
        return Err(Unread {
            left: bytes.len() as u64,
        });
    }
    Ok(((offset, size), rest))
}

#[tactic(auto, unfolding(crate::specs::FileReading::size_at))]
fn read_size(bytes: &[u8]) -> Result<(u64, &[u8]), Unread>
    ensures { Reads (λ x. (x.0, x.1.now)) result (size_at bytes.now) }
{
    let (size, rest) = read_u64(bytes)?;
    if size > CONTENT_MAX {
        return Err(Unread {
            left: bytes.len() as u64,
        });
    }
    Ok((size, rest))
}

#[tactic(auto, unfolding(crate::specs::FileEncoding::content_ref), using(crate::proofs::Sizes::content_ref_size))]
pub(crate) fn put_content_ref(out: &mut Vec<u8>, content: &ContentRef)
    requires digest { IsDigest content.now.digest }
    requires room { vec_len out.old + length (encoding.content_ref content.now) ≤ vec_capacity out.old }
    ensures items { out.new.items ≡ out.old.items ++ encoding.content_ref content.now }
    ensures len { vec_len out.new ≡ vec_len out.old + length (encoding.content_ref content.now) }
    ensures capacity { vec_capacity out.old ≤ vec_capacity out.new }
{
    put_u32(out, content.slot);
    put_u64(out, content.offset);
    put_u64(out, content.size);
    put(out, &content.digest);
}
