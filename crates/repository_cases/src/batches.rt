//! Cases of batches: what the bytes of a swap file say, and how its files are moved into another.
use crate::disks::{bytes, contents_of, failing_calls, put_bytes, put_damage, put_digits};
use crate::json::number;
use crate::made;
use anyhow::Result;
use block_file::BlockError;
use disk_trait::{Disk, FileKind, FileName, MemoryDisk};
use serde_json::Value;
use sha2::{Digest, Sha256};
use std::alloc::Global;
use swap_store::{FileBlocks, drop_batch, read_batch, write_batch};

// The batch that is read.
const READ: FileName = FileName {
    kind: FileKind::Swap,
    number: 1,
};

// The batch that its files are written as.
const WRITTEN: FileName = FileName {
    kind: FileKind::Swap,
    number: 3,
};

/// Reads the batch of these bytes, writes its files as another batch, and drops it. Says how many files there are, how
/// many bytes of the first batch are left, and those of the other; or why they weren't moved.
pub fn put_batch(out: &mut String, alloc: Global, value: &Value, case: &Value) -> Result<()> {
    let mut disk = MemoryDisk::new(failing_calls(alloc, case)?);
    disk.write(READ, 0, bytes(alloc, value)?.as_slice())?;
    match move_files(alloc, &mut disk) {
        Ok(files) => put_moved(out, alloc, &mut disk, files)?,
        Err(BlockError::Damaged(damage)) => put_damage(out, alloc, &damage)?,
        Err(error) => write!(out, "{error}")?,
    }
    Ok(())
}

// Answers how many files were moved.
fn move_files<D: Disk>(alloc: Global, disk: &mut D) -> Result<usize, BlockError> {
    let files = read_batch(alloc, disk, READ.number)?;
    let Ok(blocks) = FileBlocks::new(alloc, files.as_slice()) else {
        return Err(BlockError::Memory);
    };
    write_batch(disk, WRITTEN.number, &blocks)?;
    drop_batch(disk, READ.number)?;
    Ok(files.len())
}

fn put_moved(out: &mut String, alloc: Global, disk: &mut MemoryDisk, files: usize) -> Result<()> {
    let left = disk.size(READ)?;
    write!(out, "{files} files, {left} bytes left, ")?;
    put_bytes(out, alloc, disk, WRITTEN)?;
    Ok(out.push_str(" there")?)
}

/// The same with a batch of so many files, which are made by their numbers. Says how many files there are, how many
/// bytes of the first batch are left, and the digest of the other's.
pub fn put_made(out: &mut String, alloc: Global, count: &Value) -> Result<()> {
    let mut disk = MemoryDisk::new(Vec::new(alloc));
    disk.write(READ, 0, made::batch(alloc, number(count)?)?.as_slice())?;
    let files = move_files(alloc, &mut disk)?;
    let left = disk.size(READ)?;
    let written = contents_of(alloc, &mut disk, WRITTEN)?;
    write!(
        out,
        "{files} files, {left} bytes left, {} bytes there, ",
        written.len()
    )?;
    Ok(put_digits(out, alloc, &Sha256::digest(written.as_slice()))?)
}
