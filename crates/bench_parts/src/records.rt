//! Bytes of records, as docs/STORE.md has them.
use crate::disk::CLAIM_BYTE;
use anyhow::{Result, bail};
use flowfile_record::{DIGEST_SIZE, EventKind};
use record_codec::{PAYLOAD_MAX, SnapshotKind, append_block};
use sha2::{Digest, Sha256};
use std::alloc::{AllocError, Global};

/// Two attributes, as a file from a folder has them.
const ATTRIBUTES: &[u8; 33] = b"\0\x02\0\x08filename\0\0\0\x05a.txt\0\x04path\0\0\0\x02./";

/// The size of a file's content, in bytes.
const CONTENT_SIZE: u64 = 100;

/// The kind of each event.
pub const RECORDED: EventKind = EventKind::Receive;

/// How many contents stand in each claim.
const CONTENTS_OF_A_CLAIM: u32 = 10_000;

/// The digest of the content that each file has.
pub fn digest_of_contents() -> [u8; DIGEST_SIZE] {
    Sha256::digest(&[CLAIM_BYTE; CONTENT_SIZE as usize])
}

/// The sizes of the claims in which the contents of files up to this number stand.
pub fn claims(alloc: Global, last: u32) -> Result<Vec<u64>, AllocError> {
    let mut sizes = Vec::new(alloc);
    for _ in 0..=last / CONTENTS_OF_A_CLAIM {
        sizes.push(u64::from(CONTENTS_OF_A_CLAIM) * CONTENT_SIZE)?;
    }
    Ok(sizes)
}

/// Appends numbers of eight bytes.
pub fn put_numbers(out: &mut Vec<u8>, numbers: &[u64]) -> Result<(), AllocError> {
    for number in numbers {
        out.extend_from_slice(&number.to_be_bytes())?;
    }
    Ok(())
}

/// Appends a file that waits in the first connection, with a content of this digest. Its arrival is its number.
pub fn put_file(
    out: &mut Vec<u8>,
    number: u32,
    digest: &[u8; DIGEST_SIZE],
) -> Result<(), AllocError> {
    let slot = number / CONTENTS_OF_A_CLAIM;
    let offset = u64::from(number % CONTENTS_OF_A_CLAIM) * CONTENT_SIZE;
    out.extend_from_slice(&[0, 0])?;
    put_numbers(out, &[u64::from(number)])?;
    out.extend_from_slice(ATTRIBUTES)?;
    out.extend_from_slice(&slot.to_be_bytes())?;
    put_numbers(out, &[offset, CONTENT_SIZE])?;
    out.extend_from_slice(digest)?;
    put_numbers(out, &[1_000, 0, u64::from(number)])
}

/// Appends the blocks of so many files, by their numbers from 1 on.
pub fn put_files(out: &mut Vec<u8>, alloc: Global, files: u32) -> Result<()> {
    let digest = digest_of_contents();
    let mut payload = Vec::new(alloc);
    for before in 0..files {
        payload.clear();
        put_file(&mut payload, before + 1, &digest)?;
        put_block(out, SnapshotKind::File.code(), payload.as_slice())?;
    }
    Ok(())
}

/// Appends the End behind so many blocks.
pub fn put_end(out: &mut Vec<u8>, blocks: u64) -> Result<()> {
    put_block(out, SnapshotKind::End.code(), &blocks.to_be_bytes())
}

/// Appends an event: a file with a content of this digest was received. It has the event's number.
pub fn put_event(
    out: &mut Vec<u8>,
    number: u64,
    digest: &[u8; DIGEST_SIZE],
) -> Result<(), AllocError> {
    put_numbers(out, &[number])?;
    out.push(RECORDED.code())?;
    put_numbers(out, &[1_000])?;
    out.extend_from_slice(b"\0\x03get")?;
    put_numbers(out, &[number])?;
    // No parents, no children, and no detail.
    out.extend_from_slice(&[0; 12])?;
    put_numbers(out, &[CONTENT_SIZE])?;
    out.extend_from_slice(digest)
}

/// Appends a block.
pub fn put_block(out: &mut Vec<u8>, kind: u8, payload: &[u8]) -> Result<()> {
    if payload.len() as u64 > PAYLOAD_MAX {
        bail!("a payload longer than any");
    }
    append_block(out, kind, payload)?;
    Ok(())
}
