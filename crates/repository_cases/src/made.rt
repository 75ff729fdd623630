//! Blocks of files and of events that a case gives by their numbers alone.
use anyhow::{Result, bail};
use prov_event::EVENT_KIND;
use record_codec::{PAYLOAD_MAX, SnapshotKind, append_block};
use sha2::{Digest, Sha256};
use std::alloc::{AllocError, Global};

// No case makes more files, or an event of a greater number.
const MADE_MAX: u64 = 1_000_000;

// How many contents stand in a claim, and how many bytes each has.
const CONTENTS_OF_A_CLAIM: u64 = 1_000;

const CONTENT_SIZE: u64 = 100;

// How many kinds of events there are.
const EVENT_KINDS: u64 = 12;

/// The swap file of a batch of so many files.
pub fn batch(alloc: Global, files: u64) -> Result<Vec<u8>> {
    if files > MADE_MAX {
        bail!("more files than a case makes");
    }
    let mut bytes = Vec::new(alloc);
    let mut payload = Vec::new(alloc);
    for place in 0..files {
        payload.clear();
        put_file(&mut payload, alloc, 3 * place + 2)?;
        put_block(&mut bytes, SnapshotKind::File.code(), payload.as_slice())?;
    }
    put_block(&mut bytes, SnapshotKind::End.code(), &files.to_be_bytes())?;
    Ok(bytes)
}

// Appends the payload of a file of a batch.
fn put_file(out: &mut Vec<u8>, alloc: Global, number: u64) -> Result<()> {
    let claim = (number / CONTENTS_OF_A_CLAIM % (1 << 16)) as u32;
    let offset = number % CONTENTS_OF_A_CLAIM * CONTENT_SIZE;
    let name = format!(in alloc; "file-{number}")?;
    // The connection is 0, and there is one attribute.
    out.extend_from_slice(&[0, 0])?;
    put_numbers(out, &[number])?;
    out.extend_from_slice(b"\0\x01\0\x08filename")?;
    put_long(out, name.as_str())?;
    out.extend_from_slice(&claim.to_be_bytes())?;
    put_numbers(out, &[offset, CONTENT_SIZE])?;
    out.extend_from_slice(&Sha256::digest(&number.to_be_bytes()))?;
    // When it entered, the end of its penalty, and its arrival.
    Ok(put_numbers(out, &[1_000, number % 2, number / 2])?)
}

/// Appends so many events, the first of which has this number.
pub fn put_events(out: &mut Vec<u8>, alloc: Global, first: u64, count: u64) -> Result<()> {
    if first > MADE_MAX || count > MADE_MAX {
        bail!("more events than a case makes");
    }
    let mut payload = Vec::new(alloc);
    for number in first..first + count {
        payload.clear();
        put_event(&mut payload, alloc, number)?;
        put_block(out, EVENT_KIND, payload.as_slice())?;
    }
    Ok(())
}

// Appends the payload of an event. The file that it is of has its number.
fn put_event(out: &mut Vec<u8>, alloc: Global, number: u64) -> Result<()> {
    let kind = (1 + number % EVENT_KINDS) as u8;
    let detail = format!(in alloc; "event-{number}")?;
    put_numbers(out, &[number])?;
    out.push(kind)?;
    put_numbers(out, &[number / 2])?;
    out.extend_from_slice(b"\0\x03get")?;
    put_numbers(out, &[number])?;
    // One parent, and no children.
    out.extend_from_slice(&1u32.to_be_bytes())?;
    put_numbers(out, &[number / 3])?;
    out.extend_from_slice(&0u32.to_be_bytes())?;
    put_long(out, detail.as_str())?;
    put_numbers(out, &[CONTENT_SIZE])?;
    Ok(out.extend_from_slice(&Sha256::digest(&number.to_be_bytes()))?)
}

// Appends numbers of eight bytes.
fn put_numbers(out: &mut Vec<u8>, numbers: &[u64]) -> Result<(), AllocError> {
    for number in numbers {
        out.extend_from_slice(&number.to_be_bytes())?;
    }
    Ok(())
}

// Appends a text behind its length in four bytes.
fn put_long(out: &mut Vec<u8>, text: &str) -> Result<()> {
    let size = u32::try_from(text.len())?;
    out.extend_from_slice(&size.to_be_bytes())?;
    Ok(out.extend_from_slice(text.as_bytes())?)
}

fn put_block(out: &mut Vec<u8>, kind: u8, payload: &[u8]) -> Result<()> {
    if payload.len() as u64 > PAYLOAD_MAX {
        bail!("a payload longer than any");
    }
    append_block(out, kind, payload)?;
    Ok(())
}
