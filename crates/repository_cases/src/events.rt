//! Cases of events: which are found past a line, and what an aging leaves.
use crate::disks::{bytes, contents_of, failing_calls, put_digits};
use crate::json::{items, member, number, number_at};
use crate::made::put_events;
use anyhow::{Result, bail};
use disk_trait::{Disk, FileKind, FileName, MemoryDisk};
use flowfile_record::{EVENTS_PER_FILE, Event, NUMBER_LIMIT};
use prov_store::Events;
use serde_json::Value;
use sha2::{Digest, Sha256};
use std::alloc::Global;

// What a case asks for: the events past a line and up to a last one, those past a later line, where one is named, and
// those that are read of them.
#[derive(Clone, Copy)]
struct Asked {
    line: u64,
    last: u64,
    age: Option<u64>,
    from: u64,
    to: u64,
}

/// Loads the events of these files, trims the files, and lets the events age, where the case names a later line. Says
/// how many events of each kind there are past which line, what is then in the files, and which events are read of
/// them; or which call refused and why.
pub fn put_aged(out: &mut String, alloc: Global, files: &Value, case: &Value) -> Result<()> {
    let asked = asked_in(case)?;
    let mut disk = disk_of(alloc, files, case)?;
    match loaded_and_aged(alloc, &mut disk, asked) {
        Ok(events) => put_events_left(out, alloc, &mut disk, &events, asked)?,
        Err(error) => write!(out, "{error}")?,
    }
    Ok(())
}

fn asked_in(case: &Value) -> Result<Asked> {
    let last = number(member(case, "last")?)?;
    let age = match case.get("age") {
        Some(line) => Some(number(line)?),
        None => None,
    };
    let (from, to) = match case.get("scan") {
        Some(list) => (number_at(list, 0)?, number_at(list, 1)?),
        None => (1, last),
    };
    Ok(Asked {
        line: number(member(case, "line")?)?,
        last,
        age,
        from,
        to,
    })
}

// Each file is a list of its number and its parts.
fn disk_of(alloc: Global, files: &Value, case: &Value) -> Result<MemoryDisk> {
    let mut disk = MemoryDisk::new(failing_calls(alloc, case)?);
    for list in items(files)? {
        let file = file_named(number_at(list, 0)?);
        disk.write(file, 0, parts_of(alloc, list)?.as_slice())?;
    }
    Ok(disk)
}

// The parts behind a file's number, one after another.
fn parts_of(alloc: Global, list: &Value) -> Result<Vec<u8>> {
    let mut bytes = Vec::new(alloc);
    for part in items(list)?.iter().skip(1) {
        put_part(&mut bytes, alloc, part)?;
    }
    Ok(bytes)
}

// Appends bytes, or events by the number of the first and how many there are.
fn put_part(out: &mut Vec<u8>, alloc: Global, part: &Value) -> Result<()> {
    if part.as_str().is_some() {
        return Ok(out.extend_from_slice(bytes(alloc, part)?.as_slice())?);
    }
    put_events(out, alloc, number_at(part, 0)?, number_at(part, 1)?)
}

fn loaded_and_aged<D: Disk>(alloc: Global, disk: &mut D, asked: Asked) -> Result<Events> {
    if asked.last >= NUMBER_LIMIT || asked.line > asked.last || asked.line % EVENTS_PER_FILE != 0 {
        bail!("a line that no store has");
    }
    let mut events = Events::load(alloc, disk, asked.last, asked.line)?;
    events.trim(disk)?;
    if let Some(line) = asked.age {
        if line % EVENTS_PER_FILE != 0 || line <= events.line() || events.end() < line {
            bail!("a line that isn't past the one before it");
        }
        events.age(disk, line)?;
    }
    Ok(events)
}

fn put_events_left(
    out: &mut String,
    alloc: Global,
    disk: &mut MemoryDisk,
    events: &Events,
    asked: Asked,
) -> Result<()> {
    let (line, last) = (events.line(), events.end());
    write!(out, "past {line} up to {last}:")?;
    for count in &events.counts().counts {
        write!(out, " {count}")?;
    }
    let mut numbers = Vec::new(alloc);
    disk.files(FileKind::Events, &mut numbers)?;
    for number in &numbers {
        put_file(out, alloc, disk, *number)?;
    }
    let found = events.scan(alloc, disk, asked.from, asked.to)?;
    write!(out, "; {} read, ", found.len())?;
    put_read(out, alloc, found.as_slice())
}

// The digest of a line for each event.
fn put_read(out: &mut String, alloc: Global, events: &[Event]) -> Result<()> {
    let mut lines = String::new(alloc);
    for event in events {
        let (number, moment, file) = (event.number, event.moment, event.file);
        writeln!(lines, "{number} {moment} {file} {}", event.detail.as_str())?;
    }
    Ok(put_digits(out, alloc, &Sha256::digest(lines.as_bytes()))?)
}

// The size of a file, and the digest of its bytes.
fn put_file(out: &mut String, alloc: Global, disk: &mut MemoryDisk, number: u64) -> Result<()> {
    let bytes = contents_of(alloc, disk, file_named(number))?;
    write!(out, "; events-{number} has {} bytes, ", bytes.len())?;
    Ok(put_digits(out, alloc, &Sha256::digest(bytes.as_slice()))?)
}

fn file_named(number: u64) -> FileName {
    FileName {
        kind: FileKind::Events,
        number,
    }
}
