//! Reading and writing of a snapshot.
ghost use Rattle.std.specs.Prelude.{◌≡◌, ◌^◌, ◌<◌, [], IfOk};
ghost use Rattle.flowfile_record.specs.Stored.{kept_of};
ghost use Rattle.checkpoint_store.specs.Consistent.{IsConsistent};

use crate::disk::BenchDisk;
use crate::measured::{Measured, ROUNDS_MAX, Rounds, Watch};
use crate::records::{put_block, put_end, put_files, put_numbers};
use anyhow::{Result, bail};
use checkpoint_store::{read, write};
use disk_trait::{FileKind, FileName};
use flowfile_record::{DIGEST_SIZE, Stored};
use record_codec::{FORMAT_VERSION, SnapshotKind};
use std::alloc::{Alloc, AllocError, Global};
use std::fs::Files;

pub const SNAPSHOT: FileName = FileName {
    kind: FileKind::Snapshot,
    number: 1,
};

/// The time that it takes to read a snapshot of so many files.
pub fn measure_reading<R: Files + Alloc<A = Global>>(
    rt: &R,
    alloc: Global,
    files: u32,
    rounds: Rounds,
) -> Result<Measured> {
    let mut disk = BenchDisk::of_file(alloc, SNAPSHOT, snapshot(alloc, files)?)?;
    let mut watch = Watch::start(rt, rounds);
    for _ in 0..ROUNDS_MAX {
        let found = read(alloc, &mut disk, SNAPSHOT.number, FORMAT_VERSION)?;
        if let Some(took) = watch.round(rt) {
            let count = found.stored.files.len();
            return Ok(Measured { count, took });
        }
    }
    bail!("the clock stands still")
}

/// The time that it takes to write one, which is kept nowhere.
pub fn measure_writing<R: Files + Alloc<A = Global>>(
    rt: &R,
    alloc: Global,
    files: u32,
    rounds: Rounds,
) -> Result<Measured> {
    let state = state(alloc, files)?;
    if !state.batches.is_empty() {
        bail!("a snapshot without batches has some");
    }
    let mut disk = BenchDisk::of_file(alloc, SNAPSHOT, Vec::new(alloc))?;
    let count = state.files.len();
    let mut watch = Watch::start(rt, rounds);
    for _ in 0..ROUNDS_MAX {
        write(alloc, &mut disk, SNAPSHOT.number, FORMAT_VERSION, &state)?;
        if let Some(took) = watch.round(rt) {
            return Ok(Measured { count, took });
        }
    }
    bail!("the clock stands still")
}

// What a snapshot of so many files says.
fn state(alloc: Global, files: u32) -> Result<Stored>
    ensures { IfOk result (λ state. (kept_of state).batches ≡ [] → IsConsistent (kept_of state)) }
{
    let mut disk = BenchDisk::of_file(alloc, SNAPSHOT, snapshot(alloc, files)?)?;
    let found = read(alloc, &mut disk, SNAPSHOT.number, FORMAT_VERSION)?;
    Ok(found.stored)
}

/// A snapshot of so many files.
pub fn snapshot(alloc: Global, files: u32) -> Result<Vec<u8>> {
    let mut bytes = Vec::new(alloc);
    let head = head(alloc, u64::from(files))?;
    put_block(&mut bytes, SnapshotKind::Head.code(), head.as_slice())?;
    put_files(&mut bytes, alloc, files)?;
    put_end(&mut bytes, u64::from(files) + 1)?;
    Ok(bytes)
}

// One connection, no counts, and the numbers that come behind so many files.
fn head(alloc: Global, files: u64) -> Result<Vec<u8>, AllocError>
    requires { files < 2 ^ 32 }
{
    let mut bytes = Vec::new(alloc);
    bytes.push(FORMAT_VERSION)?;
    put_numbers(&mut bytes, &[7])?;
    bytes.extend_from_slice(&[0; DIGEST_SIZE])?;
    bytes.extend_from_slice(b"\0\0\0\x01\0\x02c1\0\0\0\0")?;
    put_numbers(&mut bytes, &[files + 1, files + 1, 0, 1])?;
    Ok(bytes)
}
