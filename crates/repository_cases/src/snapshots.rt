//! Cases of snapshots: what their bytes say.
use crate::disks::{bytes, failing_calls, put_damage};
use crate::json::number;
use anyhow::Result;
use block_file::BlockError;
use checkpoint_store::{Snapshot, read};
use disk_trait::{Disk, FileKind, FileName, MemoryDisk};
use record_codec::FORMAT_VERSION;
use serde_json::Value;
use std::alloc::{AllocError, Global};

const SNAPSHOT: FileName = FileName {
    kind: FileKind::Snapshot,
    number: 1,
};

/// What the snapshot of these bytes says, in counts and with the place of the batches, or why nothing was read.
pub fn put_snapshot(out: &mut String, alloc: Global, value: &Value, case: &Value) -> Result<()> {
    let mut disk = disk_of(alloc, value, case)?;
    let version = version_of(case)?;
    match read(alloc, &mut disk, SNAPSHOT.number, version) {
        Ok(found) => put_counts(out, &found)?,
        Err(BlockError::Damaged(damage)) => put_damage(out, alloc, &damage)?,
        Err(error) => write!(out, "{error}")?,
    }
    Ok(())
}

fn disk_of(alloc: Global, value: &Value, case: &Value) -> Result<MemoryDisk> {
    let bytes = bytes(alloc, value)?;
    let mut disk = MemoryDisk::new(failing_calls(alloc, case)?);
    disk.write(SNAPSHOT, 0, bytes.as_slice())?;
    Ok(disk)
}

// The version that is asked for, which counts where the case names none.
fn version_of(case: &Value) -> Result<u8> {
    match case.get("version") {
        Some(version) => Ok(u8::try_from(number(version)?)?),
        None => Ok(FORMAT_VERSION),
    }
}

fn put_counts(out: &mut String, found: &Snapshot) -> Result<(), AllocError> {
    let state = &found.stored;
    let (connections, files) = (state.connections.len(), state.files.len());
    let (batches, at) = (state.batches.len(), found.batches_at);
    write!(
        out,
        "{connections} connections, {files} files, {batches} batches at {at}"
    )
}
