//! Loading of a log.
use crate::disk::BenchDisk;
use crate::measured::{Measured, ROUNDS_MAX, Rounds, Watch};
use crate::records::{digest_of_contents, put_block, put_file, put_numbers};
use anyhow::{Result, bail};
use disk_trait::{FileKind, FileName};
use flowfile_record::DIGEST_SIZE;
use flowfile_wal::Log;
use record_codec::{CLOSED_GATE, FORMAT_VERSION, GROUP_KIND, NO_GENERATOR, OPEN_GATE};
use std::alloc::{Alloc, AllocError, Global};
use std::fs::Files;

/// The kind of the block that begins a log.
const BEGIN: u8 = 1;

/// The kind of a session's block.
const SESSION: u8 = 2;

/// How many sessions stand in a group, but for the last one.
const GROUP: u32 = 256;

pub const LOG: FileName = FileName {
    kind: FileKind::Log,
    number: 1,
};

/// The time that it takes to load a log of so many entries, each behind a gate of its own.
pub fn measure<R: Files + Alloc<A = Global>>(
    rt: &R,
    alloc: Global,
    entries: u32,
    rounds: Rounds,
) -> Result<Measured> {
    measure_loading(rt, alloc, log(alloc, 1, entries)?, rounds)
}

/// The time that it takes to load a log of so many entries in groups.
pub fn measure_groups<R: Files + Alloc<A = Global>>(
    rt: &R,
    alloc: Global,
    entries: u32,
    rounds: Rounds,
) -> Result<Measured> {
    measure_loading(rt, alloc, log_of_groups(alloc, entries)?, rounds)
}

fn measure_loading<R: Files + Alloc<A = Global>>(
    rt: &R,
    alloc: Global,
    log: Vec<u8>,
    rounds: Rounds,
) -> Result<Measured> {
    let mut disk = BenchDisk::of_file(alloc, LOG, log)?;
    let mut watch = Watch::start(rt, rounds);
    for _ in 0..ROUNDS_MAX {
        let (_log, read) = Log::load(alloc, &mut disk)?;
        if let Some(took) = watch.round(rt) {
            let count = read.len() as u64;
            return Ok(Measured { count, took });
        }
    }
    bail!("the clock stands still")
}

/// A log of so many sessions. Each takes the file of the greatest number, which is this one at first, and places one
/// of the next number.
pub fn log(alloc: Global, last: u32, sessions: u32) -> Result<Vec<u8>> {
    let digest = digest_of_contents();
    let mut bytes = begun(alloc)?;
    let mut payload = Vec::new(alloc);
    for session in 0..sessions {
        payload.clear();
        put_session(&mut payload, last.saturating_add(session), &digest)?;
        put_entries(&mut bytes, SESSION, payload.as_slice())?;
    }
    bytes.push(CLOSED_GATE)?;
    Ok(bytes)
}

// A log of the same sessions, behind one gate as many as a group has. Where one is left, it stands alone.
fn log_of_groups(alloc: Global, sessions: u32) -> Result<Vec<u8>> {
    let mut bytes = begun(alloc)?;
    let mut payload = Vec::new(alloc);
    for group in 0..sessions.div_ceil(GROUP) {
        let before = group * GROUP;
        payload.clear();
        let kind = put_group(
            &mut payload,
            alloc,
            before + 1,
            GROUP.min(sessions - before),
        )?;
        put_entries(&mut bytes, kind, payload.as_slice())?;
    }
    bytes.push(CLOSED_GATE)?;
    Ok(bytes)
}

// The first block of a log, behind its gate.
fn begun(alloc: Global) -> Result<Vec<u8>> {
    let mut payload = Vec::new(alloc);
    payload.push(FORMAT_VERSION)?;
    put_numbers(&mut payload, &[LOG.number])?;
    let mut bytes = Vec::new(alloc);
    put_entries(&mut bytes, BEGIN, payload.as_slice())?;
    Ok(bytes)
}

// Appends an open gate and a block.
fn put_entries(out: &mut Vec<u8>, kind: u8, payload: &[u8]) -> Result<()> {
    out.push(OPEN_GATE)?;
    put_block(out, kind, payload)
}

// Appends the payload of so many sessions, the first of which takes the file of this number. Answers its kind.
fn put_group(out: &mut Vec<u8>, alloc: Global, first: u32, sessions: u32) -> Result<u8> {
    let digest = digest_of_contents();
    if sessions == 1 {
        put_session(out, first, &digest)?;
        return Ok(SESSION);
    }
    out.extend_from_slice(&sessions.to_be_bytes())?;
    let mut payload = Vec::new(alloc);
    for session in 0..sessions {
        payload.clear();
        put_session(&mut payload, first.saturating_add(session), &digest)?;
        put_item(out, payload.as_slice())?;
    }
    Ok(GROUP_KIND)
}

// Appends a session of a group.
fn put_item(out: &mut Vec<u8>, payload: &[u8]) -> Result<()> {
    let size = u32::try_from(payload.len())?;
    out.push(SESSION)?;
    out.extend_from_slice(&size.to_be_bytes())?;
    Ok(out.extend_from_slice(payload)?)
}

// A session that takes the file of this number and places one of the next.
fn put_session(
    out: &mut Vec<u8>,
    number: u32,
    digest: &[u8; DIGEST_SIZE],
) -> Result<(), AllocError> {
    let placed = number.saturating_add(1);
    let next = u64::from(placed) + 1;
    out.extend_from_slice(&[0, 0])?;
    put_numbers(out, &[1_000])?;
    out.extend_from_slice(&1u32.to_be_bytes())?;
    put_numbers(out, &[u64::from(number)])?;
    out.extend_from_slice(&1u32.to_be_bytes())?;
    put_file(out, placed, digest)?;
    put_numbers(out, &[next, next, 0])?;
    out.extend_from_slice(&NO_GENERATOR.to_be_bytes())?;
    put_numbers(out, &[0])
}
