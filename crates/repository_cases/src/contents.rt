//! Cases of contents: where they are appended, and what is read.
ghost use Rattle.std.specs.Prelude.{◌≡◌, ◌+◌, ◌<◌, ◌≤◌, length, IsTrue, OnOk};
ghost use Rattle.content_repo.specs.Claims.{HasSizes};
ghost use Rattle.content_repo.specs.Slots.{count_of, held_in};

use crate::disks::{failing_calls, put_damage, put_digits};
use crate::json::{item, items, member, number_at, text};
use anyhow::{Result, bail};
use content_repo::{
    Content, ContentError, HELD_MAX, Reclaimed, appended_contents_are_held, counts_leave_the_sizes,
    read_content,
};
use disk_trait::{Disk, FileKind, FileName, MemoryDisk};
use flowfile_record::{CONTENT_MAX, ContentRef};
use serde_json::Value;
use sha2::{Digest, Sha256};
use std::alloc::{AllocError, Global};

// The first claim.
const CLAIM: FileName = FileName {
    kind: FileKind::Claim,
    number: 0,
};

/// What becomes of one content in an empty repository: it is appended, read, let go, and its claim emptied. The numbers
/// of the disk's calls that fail stand beside it.
pub fn put_content(out: &mut String, alloc: Global, value: &Value, case: &Value) -> Result<()> {
    let text = text(alloc, value)?;
    if text.len() as u64 > CONTENT_MAX {
        bail!("a content longer than any");
    }
    let mut disk = MemoryDisk::new(failing_calls(alloc, case)?);
    match kept_and_let_go(alloc, &mut disk, text.as_bytes()) {
        Ok(reclaimed) => {
            let (emptied, claimed) = (reclaimed.emptied, reclaimed.claimed);
            write!(out, "read, {emptied} emptied, {claimed} claimed")?;
        }
        Err(error) => put_refusal(out, alloc, &error)?,
    }
    Ok(())
}

fn kept_and_let_go<D: Disk>(
    alloc: Global,
    disk: &mut D,
    bytes: &[u8],
) -> Result<Reclaimed, ContentError>
    requires { length bytes.now ≤ CONTENT_MAX }
{
    let mut content = Content::load(alloc, disk, &[])?;
    content.room(&[bytes.len() as u64])?;
    let at = content.append(disk, bytes, Sha256::digest(bytes))?;
    appended_contents_are_held();
    let _bytes = content.read(alloc, disk, &at)?;
    let_go(&mut content, disk, &at)
}

// Lets a content go, and empties its claim.
fn let_go<D: Disk>(
    content: &mut Content,
    disk: &mut D,
    at: &ContentRef,
) -> Result<Reclaimed, ContentError>
    requires held { 0 < count_of content.old at.now.slot }
    requires sizes { IsTrue D.tells → HasSizes content.old (D.held disk.old) }
{
    counts_leave_the_sizes();
    content.unhold(at);
    content.reclaim(disk)
}

/// Where contents stand that are appended to an empty repository, one after the other.
pub fn put_appends(out: &mut String, alloc: Global, value: &Value) -> Result<()> {
    let texts = items(value)?;
    if texts.len() > 100 {
        bail!("more contents than a case has");
    }
    let mut disk = MemoryDisk::new(Vec::new(alloc));
    append_each(out, alloc, &mut disk, texts.as_slice())
}

fn append_each<D: Disk>(
    out: &mut String,
    alloc: Global,
    disk: &mut D,
    texts: &[Value],
) -> Result<()>
    requires { length texts.now ≤ 100 }
{
    let mut content = Content::load(alloc, disk, &[])?;
    for value in texts {
        let text = text(alloc, value)?;
        if text.len() as u64 > CONTENT_MAX {
            bail!("a content longer than any");
        }
        let at = appended(&mut content, disk, text.as_bytes())?;
        put_place(out, &at)?;
    }
    Ok(())
}

fn put_place(out: &mut String, at: &ContentRef) -> Result<(), AllocError> {
    let (slot, offset, size) = (at.slot, at.offset, at.size);
    write!(out, "slot {slot}, offset {offset}, size {size}; ")
}

fn appended<D: Disk>(
    content: &mut Content,
    disk: &mut D,
    bytes: &[u8],
) -> Result<ContentRef, ContentError>
    requires size { length bytes.now ≤ CONTENT_MAX }
    requires few { held_in content.old < HELD_MAX }
    requires sizes { IsTrue D.tells → HasSizes content.old (D.held disk.old) }
    ensures held { OnOk result (held_in content.new ≡ held_in content.old + 1) }
    ensures sizes { OnOk result (IsTrue D.tells → HasSizes content.new (D.held disk.new)) }
{
    content.room(&[bytes.len() as u64])?;
    content.append(disk, bytes, Sha256::digest(bytes))
}

/// What is read of a claim of these bytes, at an offset, of a size, by the digest of a text.
pub fn put_read(out: &mut String, alloc: Global, list: &Value, case: &Value) -> Result<()> {
    let at = reference(alloc, list)?;
    if at.offset.checked_add(at.size).is_none() {
        bail!("a reference past every number");
    }
    let claim = text(alloc, member(case, "claim")?)?;
    let mut disk = MemoryDisk::new(failing_calls(alloc, case)?);
    disk.write(CLAIM, 0, claim.as_bytes())?;
    match read_content(alloc, &mut disk, &at) {
        Ok(bytes) => put_digits(out, alloc, bytes.as_slice())?,
        Err(error) => put_refusal(out, alloc, &error)?,
    }
    Ok(())
}

// A content in the first slot.
fn reference(alloc: Global, list: &Value) -> Result<ContentRef> {
    let offset = number_at(list, 0)?;
    let size = number_at(list, 1)?;
    let text = text(alloc, item(list, 2)?)?;
    Ok(ContentRef {
        slot: 0,
        offset,
        size,
        digest: Sha256::digest(text.as_bytes()),
    })
}

/// Whether an empty repository has room for contents of these sizes, each so often.
pub fn put_room(out: &mut String, alloc: Global, value: &Value) -> Result<()> {
    let sizes = sizes(alloc, items(value)?.as_slice())?;
    let mut disk = MemoryDisk::new(Vec::new(alloc));
    let content = Content::load(alloc, &mut disk, &[])?;
    match content.room(sizes.as_slice()) {
        Ok(()) => out.push_str("room")?,
        Err(error) => put_refusal(out, alloc, &error)?,
    }
    Ok(())
}

fn sizes(alloc: Global, pairs: &[Value]) -> Result<Vec<u64>> {
    let mut sizes = Vec::new(alloc);
    for pair in pairs {
        push_often(&mut sizes, number_at(pair, 0)?, number_at(pair, 1)?)?;
    }
    Ok(sizes)
}

fn push_often(sizes: &mut Vec<u64>, size: u64, count: u64) -> Result<(), AllocError> {
    for _ in 0..count {
        sizes.push(size)?;
    }
    Ok(())
}

fn put_refusal(out: &mut String, alloc: Global, error: &ContentError) -> Result<(), AllocError> {
    match error {
        ContentError::Damaged(damage) => put_damage(out, alloc, damage),
        error => write!(out, "{error}"),
    }
}
