//! Appends to a repository of contents.
ghost use Rattle.std.specs.Prelude.{◌≡◌, ◌+◌, ◌<◌, ◌≤◌, length, All, IfOk};
ghost use Rattle.content_repo.specs.Slots.{held_in, IsNamed};

use crate::disk::BenchDisk;
use crate::measured::{Measured, ROUNDS_MAX, Rounds, Watch};
use anyhow::{Result, bail};
use content_repo::{Content, ContentError, OPEN_SIZE, SLOTS};
use flowfile_record::{ContentRef, DIGEST_SIZE};
use sha2::{Digest, Sha256};
use std::alloc::{Alloc, AllocError, Global};
use std::fs::Files;

/// How many contents are appended.
const APPENDS: u32 = 1_000_000;

/// The size of a content, in bytes. All of them fit into the last claim, so that no other becomes live.
const CONTENT_SIZE: usize = 1;

/// The time that the appends take where so many claims are live.
pub fn measure<R: Files + Alloc<A = Global>>(
    rt: &R,
    alloc: Global,
    live: u32,
    rounds: Rounds,
) -> Result<Measured> {
    if live == 0 || live > SLOTS {
        bail!("there are 1 to {SLOTS} claims");
    }
    let references = references(alloc, live)?;
    let mut disk = BenchDisk::new(sizes(alloc, references.as_slice())?, Vec::new(alloc));
    let mut watch = Watch::start(rt, rounds);
    for _ in 0..ROUNDS_MAX {
        watch.pause(rt);
        let mut content = Content::load(alloc, &mut disk, references.as_slice())?;
        watch.go_on(rt);
        append_all(&mut content, &mut disk)?;
        if let Some(took) = watch.round(rt) {
            let count = u64::from(APPENDS);
            return Ok(Measured { count, took });
        }
    }
    bail!("the clock stands still")
}

// One content in each claim, which fills it but in the last one.
fn references(alloc: Global, live: u32) -> Result<Vec<ContentRef>, AllocError>
    requires { live ≤ SLOTS }
    ensures named { IfOk result (λ references. All IsNamed references.items) }
    ensures long { IfOk result (λ references. length references.items ≡ live) }
{
    let mut references = Vec::with_capacity(alloc, live as usize)?;
    for slot in 0..live {
        let size = if slot + 1 < live { OPEN_SIZE } else { 0 };
        references.push(reference(slot, size))?;
    }
    Ok(references)
}

// A content that stands at the beginning of a claim.
fn reference(slot: u32, size: u64) -> ContentRef
    requires { slot < SLOTS }
    ensures { IsNamed result }
{
    ContentRef {
        slot,
        offset: 0,
        size,
        digest: [0; DIGEST_SIZE],
    }
}

// The sizes of the claims, one for each slot.
fn sizes(alloc: Global, references: &[ContentRef]) -> Result<Vec<u64>, AllocError> {
    let mut sizes = Vec::with_capacity(alloc, SLOTS as usize)?;
    for at in references {
        sizes.push(at.size)?;
    }
    sizes.resize(SLOTS as usize, 0)?;
    Ok(sizes)
}

fn append_all(content: &mut Content, disk: &mut BenchDisk) -> Result<(), ContentError>
    requires { held_in content.old ≤ SLOTS }
{
    let bytes = [b'x'; CONTENT_SIZE];
    let digest = Sha256::digest(&bytes);
    for number in 0..APPENDS {
        content.room(&[CONTENT_SIZE as u64])?;
        content.append(disk, &bytes, digest)?;
    }
    Ok(())
}
