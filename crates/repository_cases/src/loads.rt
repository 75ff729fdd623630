//! Cases of a log's bytes: how it is loaded, and what mending leaves of it.
use crate::disks::{bytes, failing_calls, put_bytes, put_damage};
use anyhow::Result;
use block_file::BlockError;
use disk_trait::{Disk, FileKind, FileName, MemoryDisk};
use flowfile_wal::{LoadError, Log, LogEntries};
use serde_json::Value;
use std::alloc::Global;

const LOG: FileName = FileName {
    kind: FileKind::Log,
    number: 2,
};

const GREATER: FileName = FileName {
    kind: FileKind::Log,
    number: 7,
};

/// Loads and mends the current log, where log 2 has these bytes and a greater log those of the member `greater`. Says
/// the log's number, the kind of each entry with the offset of its gate, and what is then in the file of log 2; or why
/// no log was loaded.
pub fn put_loads(out: &mut String, alloc: Global, value: &Value, case: &Value) -> Result<()> {
    let mut disk = disk_of(alloc, value, case)?;
    match load_and_mend(alloc, &mut disk) {
        Ok((number, entries)) => put_mended(out, alloc, &mut disk, number, &entries)?,
        Err(LoadError::Block(BlockError::Damaged(damage))) => put_damage(out, alloc, &damage)?,
        Err(error) => write!(out, "{error}")?,
    }
    Ok(())
}

fn disk_of(alloc: Global, value: &Value, case: &Value) -> Result<MemoryDisk> {
    let mut disk = MemoryDisk::new(failing_calls(alloc, case)?);
    disk.write(LOG, 0, bytes(alloc, value)?.as_slice())?;
    if let Some(greater) = case.get("greater") {
        disk.write(GREATER, 0, bytes(alloc, greater)?.as_slice())?;
    }
    Ok(disk)
}

fn load_and_mend<D: Disk>(
    alloc: Global,
    disk: &mut D,
) -> Result<(Option<u64>, LogEntries), LoadError> {
    disk.sync()?;
    let (mut log, entries) = Log::load(alloc, disk)?;
    if log.number().is_some() {
        log.mend(disk)?;
    }
    Ok((log.number(), entries))
}

fn put_mended(
    out: &mut String,
    alloc: Global,
    disk: &mut MemoryDisk,
    number: Option<u64>,
    entries: &LogEntries,
) -> Result<()> {
    match number {
        Some(number) => write!(out, "log {number}, ")?,
        None => out.push_str("no log, ")?,
    }
    for (gate, entry) in entries.iter() {
        let kind = entry.kind();
        write!(out, "kind {kind} at {gate}, ")?;
    }
    put_bytes(out, alloc, disk, LOG)?;
    Ok(out.push_str(" there")?)
}
