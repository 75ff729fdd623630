//! Cases of logs: one is begun, and an entry appended to it.
ghost use Rattle.std.specs.Prelude.{◌≡◌, ◌<◌, ℕ, List, [], ◌∷◌, IsTrue, IfOk};
ghost use Rattle.disk_trait.specs.declared.file_name.FileName.{FileName as TheName};
ghost use Rattle.flowfile_wal.specs.Steps.{IsFrame};
ghost use Rattle.record_codec.specs.declared.entry.LogEntry.{LogEntry as Entry};
ghost use Rattle.record_codec.specs.declared.entry.LogEntry.TheVariants.{SwapIn};

use crate::disks::failing_calls;
use crate::json::number;
use anyhow::{Result, bail};
use checkpoint_store::begin;
use disk_trait::{Disk, MemoryDisk};
use flowfile_record::NUMBER_LIMIT;
use flowfile_wal::{Log, logs_that_were_begun};
use record_codec::{CLOSED_GATE, FORMAT_VERSION, LogEntry, append_block, write_entry};
use serde_json::Value;
use std::alloc::{AllocError, Global};

/// Begins log 1 on an empty disk, appends the entry of a batch that is swapped in, and loads the log again. Says which
/// call was refused, or the log and how many entries it has.
pub fn put_log(out: &mut String, alloc: Global, value: &Value, case: &Value) -> Result<()> {
    let batch = number(value)?;
    if batch >= NUMBER_LIMIT {
        bail!("a batch past every number");
    }
    let mut disk = MemoryDisk::new(failing_calls(alloc, case)?);
    let frame = frame_of(alloc, batch)?;
    match begun_and_appended(alloc, &mut disk, frame.as_slice()) {
        Ok(moment) => put_loaded(out, alloc, &mut disk, moment)?,
        Err(call) => write!(out, "{call} refused")?,
    }
    Ok(())
}

// The log that is loaded, and the moment at which its entry was acknowledged.
fn put_loaded(out: &mut String, alloc: Global, disk: &mut MemoryDisk, moment: u64) -> Result<()> {
    let (log, entries) = Log::load(alloc, disk)?;
    let number = log.number().unwrap_or(0);
    let count = entries.len();
    Ok(write!(
        out,
        "log {number}, {count} entries, acknowledged at {moment}"
    )?)
}

// The block of a batch that is swapped in, with a closed gate behind it.
fn frame_of(alloc: Global, batch: u64) -> Result<Vec<u8>, AllocError>
    requires { batch < NUMBER_LIMIT }
    ensures { IfOk result (λ frame. IsFrame FORMAT_VERSION (SwapIn 0 batch ∷ []) frame.items) }
{
    let entry = LogEntry::SwapIn {
        connection: 0,
        batch,
    };
    let mut payload = Vec::new(alloc);
    write_entry(&mut payload, &entry)?;
    let mut frame = Vec::new(alloc);
    append_block(&mut frame, entry.kind(), payload.as_slice())?;
    frame.push(CLOSED_GATE)?;
    Ok(frame)
}

// Answers the moment at which the entry was acknowledged, or which call was refused.
fn begun_and_appended<D: Disk>(
    alloc: Global,
    disk: &mut D,
    frame: &[u8],
) -> Result<u64, &'static str>
    requires empty { IsTrue D.tells → (file : TheName) → D.held disk.old file ≡ [] }
    requires frame { (entries : List Entry) × IsFrame FORMAT_VERSION entries frame.now }
{
    let Ok(()) = disk.sync() else {
        return Err("sync");
    };
    let Ok(loaded) = Log::load(alloc, disk) else {
        return Err("load");
    };
    let (mut log, _entries) = loaded;
    let Ok(()) = begin(disk, 1, FORMAT_VERSION) else {
        return Err("begin");
    };
    logs_that_were_begun();
    log.begun(disk, FORMAT_VERSION, 1);
    let Ok(moment) = log.append(disk, frame) else {
        return Err("append");
    };
    Ok(moment)
}
