//! Batches of files: one is read, and one is written.
use crate::disk::BenchDisk;
use crate::measured::{Measured, ROUNDS_MAX, Rounds, Watch};
use crate::records::{put_end, put_files};
use anyhow::{Result, bail};
use disk_trait::{FileKind, FileName};
use std::alloc::{Alloc, Global};
use std::fs::Files;
use swap_store::{FileBlocks, read_batch, write_batch};

const BATCH: FileName = FileName {
    kind: FileKind::Swap,
    number: 1,
};

/// The time that it takes to read a batch of so many files.
pub fn measure_reading<R: Files + Alloc<A = Global>>(
    rt: &R,
    alloc: Global,
    files: u32,
    rounds: Rounds,
) -> Result<Measured> {
    let mut disk = BenchDisk::of_file(alloc, BATCH, batch(alloc, files)?)?;
    let mut watch = Watch::start(rt, rounds);
    for _ in 0..ROUNDS_MAX {
        let read = read_batch(alloc, &mut disk, BATCH.number)?;
        if let Some(took) = watch.round(rt) {
            let count = read.len() as u64;
            return Ok(Measured { count, took });
        }
    }
    bail!("the clock stands still")
}

/// The time that it takes to encode and write one, which is kept nowhere.
pub fn measure_writing<R: Files + Alloc<A = Global>>(
    rt: &R,
    alloc: Global,
    files: u32,
    rounds: Rounds,
) -> Result<Measured> {
    let mut disk = BenchDisk::of_file(alloc, BATCH, batch(alloc, files)?)?;
    let read = read_batch(alloc, &mut disk, BATCH.number)?;
    let count = read.len() as u64;
    let mut watch = Watch::start(rt, rounds);
    for _ in 0..ROUNDS_MAX {
        let blocks = FileBlocks::new(alloc, read.as_slice())?;
        write_batch(&mut disk, BATCH.number, &blocks)?;
        if let Some(took) = watch.round(rt) {
            return Ok(Measured { count, took });
        }
    }
    bail!("the clock stands still")
}

// A batch of so many files.
fn batch(alloc: Global, files: u32) -> Result<Vec<u8>> {
    let mut bytes = Vec::new(alloc);
    put_files(&mut bytes, alloc, files)?;
    put_end(&mut bytes, u64::from(files))?;
    Ok(bytes)
}
