//! The contents of a session's files.
ghost use Rattle.std.specs.Prelude.{◌≡◌, ◌+◌, ◌<◌, ◌≤◌, ◌^◌, length, slice_range, unwrap_or, []};
ghost use Rattle.flowfile_record.specs.Ranges.{range_of};
ghost use Rattle.settlement.specs.Contents.{body_content, fresh_in, fresh_ref, kept_content, shared_in, source_bytes, BeginsWithin, IsBodyWithin};

use flowfile_record::{Body, ContentRef, DIGEST_SIZE, FlowFile, Fresh};
use process_session::Source;
use sha2::{Digest, Sha256};

/// A reference to the content of a body: that of the taken file whose whole content it is, a range of that whose part it
/// is, and else a new one.
pub fn content_in(taken: &[FlowFile], sources: &[Source], body: &Body) -> ContentRef
    requires within { IsBodyWithin sources.now body.now }
    requires begins { BeginsWithin taken.now body.now }
    ensures { result ≡ body_content taken.now sources.now body.now }
{
    match body {
        Body::Whole { of } => kept_content(taken, *of),
        Body::Part { of, offset, size } => {
            let digest = Sha256::digest(part_of(sources, *of, *offset, *size));
            range_of(kept_content(taken, *of), *offset, *size, digest)
        }
        Body::New(bytes) => fresh_ref(bytes.as_slice()),
    }
}

/// A reference to so many bytes of a content from an offset in it on, which have this digest.
fn range_of(whole: ContentRef, offset: u64, size: u64, digest: [u8; DIGEST_SIZE]) -> ContentRef
    requires { whole.offset + offset < 2 ^ 64 }
    ensures { result ≡ range_of whole offset size digest }
{
    ContentRef {
        slot: whole.slot,
        offset: whole.offset + offset,
        size,
        digest,
    }
}

fn kept_content(taken: &[FlowFile], place: u32) -> ContentRef
    ensures { result ≡ kept_content taken.now place }
{
    match taken.get(place as usize) {
        Some(file) => file.content,
        None => fresh_ref(&[]),
    }
}

/// A reference to a content that isn't in the store yet.
fn fresh_ref(bytes: &[u8]) -> ContentRef
    ensures { result ≡ fresh_ref bytes.now }
{
    ContentRef {
        slot: 0,
        offset: 0,
        size: bytes.len() as u64,
        digest: Sha256::digest(bytes),
    }
}

/// Where the content of a body comes from. What the session wrote is moved.
pub fn fresh_of(body: Body) -> Fresh
    ensures { result ≡ fresh_in body }
{
    match body {
        Body::New(bytes) => Fresh::Bytes(bytes),
        Body::Whole { .. } | Body::Part { .. } => Fresh::No,
    }
}

/// Where the content of a clone comes from whose original is placed here. A new one is shared.
pub fn shared_in(place: u32, body: &Body) -> Fresh
    ensures { result ≡ shared_in place body.now }
{
    match body {
        Body::New(_) => Fresh::As(place),
        Body::Whole { .. } | Body::Part { .. } => Fresh::No,
    }
}

/// A part of the content of the taken file of a place.
fn part_of(sources: &[Source], place: u32, offset: u64, size: u64) -> &[u8]
    requires { offset + size ≤ length (source_bytes sources.now place) }
    ensures { result.now ≡ slice_range (source_bytes sources.now place) offset (offset + size) }
{
    let bytes = source_bytes(sources, place);
    &bytes[offset as usize..(offset + size) as usize]
}

fn source_bytes(sources: &[Source], place: u32) -> &[u8]
    ensures { result.now ≡ source_bytes sources.now place }
{
    match sources.get(place as usize) {
        Some(source) => bytes_of(source),
        None => &[],
    }
}

fn bytes_of(source: &Source) -> &[u8]
    ensures { result.now ≡ unwrap_or source.now.bytes [] }
{
    match &source.bytes {
        Some(bytes) => bytes.as_slice(),
        None => &[],
    }
}
