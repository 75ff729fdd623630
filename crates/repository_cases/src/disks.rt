//! The disk of a case, and what is told of its files.
use crate::json::{items, number, text};
use anyhow::{Result, bail};
use disk_trait::{Damage, Disk, FileKind, FileName, MemoryDisk};
use serde_json::Value;
use std::alloc::{AllocError, Global};

/// The bytes that a text of hexadecimal digits stands for.
pub fn bytes(alloc: Global, value: &Value) -> Result<Vec<u8>> {
    let digits = text(alloc, value)?;
    match hex::decode(alloc, digits.as_str()) {
        Ok(bytes) => Ok(bytes),
        Err(error) => bail!("{error}"),
    }
}

/// The numbers of the calls that fail, none where the case doesn't say.
pub fn failing_calls(alloc: Global, case: &Value) -> Result<Vec<u64>> {
    let mut numbers = Vec::new(alloc);
    if let Some(failing) = case.get("failing") {
        for value in items(failing)? {
            numbers.push(number(value)?)?;
        }
    }
    Ok(numbers)
}

fn name_of(kind: FileKind) -> &'static str {
    match kind {
        FileKind::Log => "log",
        FileKind::Snapshot => "snapshot",
        FileKind::Swap => "swap",
        FileKind::Claim => "claim",
        FileKind::Events => "events",
    }
}

/// Bytes in hexadecimal.
pub fn put_digits(out: &mut String, alloc: Global, bytes: &[u8]) -> Result<(), AllocError> {
    out.push_str(hex::encode(alloc, bytes)?.as_str())
}

/// The bytes of a file.
pub fn contents_of(alloc: Global, disk: &mut MemoryDisk, file: FileName) -> Result<Vec<u8>> {
    let size = disk.size(file)?;
    let mut bytes = vec![in alloc; 0u8; size as usize]?;
    disk.read(file, 0, bytes.as_mut_slice())?;
    Ok(bytes)
}

/// The bytes of a file, in hexadecimal.
pub fn put_bytes(
    out: &mut String,
    alloc: Global,
    disk: &mut MemoryDisk,
    file: FileName,
) -> Result<()> {
    let bytes = contents_of(alloc, disk, file)?;
    Ok(put_digits(out, alloc, bytes.as_slice())?)
}

/// The file, the offset, and the two digests or sizes.
pub fn put_damage(out: &mut String, alloc: Global, damage: &Damage) -> Result<(), AllocError> {
    match damage {
        Damage::Digest {
            file,
            at,
            stored,
            found,
        } => {
            put_place(out, file, *at)?;
            out.push_str("digest ")?;
            put_digits(out, alloc, stored)?;
            out.push_str(" stored, ")?;
            put_digits(out, alloc, found)?;
            out.push_str(" found")
        }
        Damage::Short {
            file,
            at,
            need,
            have,
        } => {
            put_place(out, file, *at)?;
            write!(out, "{need} bytes needed, {have} there")
        }
        Damage::Form { file, at } => {
            put_place(out, file, *at)?;
            out.push_str("no reading")
        }
    }
}

fn put_place(out: &mut String, file: &FileName, at: u64) -> Result<(), AllocError> {
    let (name, number) = (name_of(file.kind), file.number);
    write!(out, "{name}-{number} at {at}: ")
}
