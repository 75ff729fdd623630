//! What the body of a file stands for.
ghost use Rattle.std.specs.Prelude.{◌≡◌, ◌+◌, ◌≤◌, ◌++◌, length, slice_range, IfOk, All};
ghost use Rattle.std.specs.Option.{option_map};
ghost use Rattle.process_session.specs.Bench.{body_bytes, body_size, HasItsSize, IsBodyOf};
ghost use Rattle.process_session.specs.Changes.{body_part};

use crate::file::Source;
use flowfile_record::{Body, Bytes};
use std::alloc::{AllocError, Global};

/// The bytes that a body stands for, where they are there.
pub(super) fn body_bytes<'a>(sources: &'a [Source], body: &'a Body) -> Option<&'a [u8]>
    requires whole { All (λ source. HasItsSize source.bytes source.size) sources.now }
    requires inside { IsBodyOf sources.now body.now }
    ensures bytes { option_map (λ bytes. bytes.now) result ≡ body_bytes sources.now body.now }
{
    match body {
        Body::Whole { of } => taken_bytes(&sources[*of as usize]),
        Body::Part { of, offset, size } => {
            let bytes = taken_bytes(&sources[*of as usize])?;
            let start = *offset as usize;
            Some(&bytes[start..start + *size as usize])
        }
        Body::New(bytes) => Some(bytes.as_slice()),
    }
}

fn taken_bytes(source: &Source) -> Option<&[u8]>
    ensures { option_map (λ bytes. bytes.now) result ≡ source.now.bytes }
{
    let bytes = source.bytes.as_ref()?;
    Some(bytes.as_slice())
}

pub(super) fn body_size(sources: &[Source], body: &Body) -> u64
    requires { IsBodyOf sources.now body.now }
    ensures { result ≡ body_size sources.now body.now }
{
    match body {
        Body::Whole { of } => sources[*of as usize].size,
        Body::Part { size, .. } => *size,
        Body::New(bytes) => bytes.len(),
    }
}

/// The same body. Only bytes of its own are copied.
pub(super) fn copy_body(alloc: Global, sources: &[Source], body: &Body) -> Result<Body, AllocError>
    requires { IsBodyOf sources.now body.now }
    ensures copy { IfOk result (λ copy. copy ≡ body.now) }
    ensures inside { IfOk result (IsBodyOf sources.now) }
{
    match body {
        Body::Whole { of } => Ok(Body::Whole { of: *of }),
        Body::Part { of, offset, size } => Ok(Body::Part {
            of: *of,
            offset: *offset,
            size: *size,
        }),
        Body::New(bytes) => Ok(Body::New(Bytes::from_slice(alloc, bytes.as_slice())?)),
    }
}

/// A part of what a body stands for. Only bytes of its own are copied.
pub(super) fn part_of_body(
    alloc: Global,
    sources: &[Source],
    body: &Body,
    offset: u64,
    size: u64,
) -> Result<Body, AllocError>
    requires body { IsBodyOf sources.now body.now }
    requires inside { offset + size ≤ body_size sources.now body.now }
    ensures part { IfOk result (λ part. part ≡ body_part body.now offset size) }
    ensures inside { IfOk result (IsBodyOf sources.now) }
{
    match body {
        Body::Whole { of } => Ok(Body::Part {
            of: *of,
            offset,
            size,
        }),
        Body::Part {
            of,
            offset: start,
            ..
        } => {
            // Where the part begins lies within the taken content, whose size fits.
            let taken = sources[*of as usize].size;
            prove!(*start <= taken);
            Ok(Body::Part {
                of: *of,
                offset: *start + offset,
                size,
            })
        }
        Body::New(bytes) => {
            let start = offset as usize;
            let part = &bytes.as_slice()[start..start + size as usize];
            Ok(Body::New(Bytes::from_slice(alloc, part)?))
        }
    }
}

/// These bytes, and more behind them.
pub(super) fn joined_bytes(alloc: Global, bytes: &[u8], more: &[u8]) -> Result<Bytes, AllocError>
    ensures { IfOk result (λ all. all ≡ bytes.now ++ more.now) }
{
    let mut all = Vec::with_capacity(alloc, bytes.len() + more.len())?;
    all.extend_from_slice(bytes)?;
    all.extend_from_slice(more)?;
    Ok(Bytes::from(all))
}
