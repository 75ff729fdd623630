//! Cases of the disk in memory: what its calls answer, and what a stop leaves.
use crate::encodings::put_digits;
use crate::json::{items, member, number, number_at, text_at, word, word_at};
use anyhow::{Result, bail};
use disk_trait::{Disk, FileKind, FileName, MemoryDisk, Pick};
use serde_json::Value;
use std::alloc::Global;

const KINDS: [FileKind; 5] = [
    FileKind::Log,
    FileKind::Snapshot,
    FileKind::Swap,
    FileKind::Claim,
    FileKind::Events,
];

/// What calls on an empty disk answer, one after the other, and the files of one image of a moment. The numbers of the
/// calls that fail come first.
pub fn put_stopped(out: &mut String, alloc: Global, failing: &Value, case: &Value) -> Result<()> {
    let calls = items(member(case, "calls")?)?;
    let mut disk = MemoryDisk::new(numbers(alloc, items(failing)?)?);
    put_answers(out, alloc, &mut disk, calls.as_slice())?;
    let mut image = image(&disk, case)?;
    put_files(out, alloc, &mut image)
}

fn numbers(alloc: Global, values: &[Value]) -> Result<Vec<u64>> {
    let mut numbers = Vec::new(alloc);
    for value in values {
        numbers.push(number(value)?)?;
    }
    Ok(numbers)
}

fn image(disk: &MemoryDisk, case: &Value) -> Result<MemoryDisk> {
    let moment = number(member(case, "moment")?)?;
    if moment > disk.moment() {
        bail!("a moment that is to come");
    }
    let pick = pick(member(case, "pick")?)?;
    Ok(disk.stopped(moment, pick)?)
}

fn put_answers(
    out: &mut String,
    alloc: Global,
    disk: &mut MemoryDisk,
    calls: &[Value],
) -> Result<()> {
    for call in calls {
        let answer = if is_done(alloc, disk, call)? {
            "done; "
        } else {
            "failed; "
        };
        out.push_str(answer)?;
    }
    Ok(())
}

// A write and a cut are two calls: the file's size is asked first.
fn is_done(alloc: Global, disk: &mut MemoryDisk, call: &Value) -> Result<bool> {
    let name = word_at(call, 0)?;
    if name == "sync" {
        return Ok(disk.sync().is_ok());
    }
    let file = file_of(call)?;
    let at = number_at(call, 3)?;
    let Ok(size) = disk.size(file) else {
        return Ok(false);
    };
    if at > size {
        bail!("a place past the end");
    }
    if name == "cut" {
        return Ok(disk.cut(file, at).is_ok());
    }
    let bytes = text_at(alloc, call, 4)?;
    Ok(disk.write(file, at, bytes.as_bytes()).is_ok())
}

// The second and the third item of a call are the file's kind and its number.
fn file_of(call: &Value) -> Result<FileName> {
    let name = word_at(call, 1)?;
    let number = number_at(call, 2)?;
    for kind in KINDS {
        if name_of(kind) == name {
            return Ok(FileName { kind, number });
        }
    }
    bail!("no kind of file")
}

fn name_of(kind: FileKind) -> &'static str {
    match kind {
        FileKind::Log => "log",
        FileKind::Snapshot => "snapshot",
        FileKind::Swap => "swap",
        FileKind::Claim => "claim",
        FileKind::Events => "events",
    }
}

// The seed of torn bytes, or one of two words.
fn pick(value: &Value) -> Result<Pick> {
    if let Some(seed) = value.as_u64() {
        return Ok(Pick::Torn(seed));
    }
    match word(value)? {
        "old" => Ok(Pick::Old),
        "new" => Ok(Pick::New),
        _ => bail!("no pick"),
    }
}

fn put_files(out: &mut String, alloc: Global, disk: &mut MemoryDisk) -> Result<()> {
    for kind in KINDS {
        put_files_of(out, alloc, disk, kind)?;
    }
    Ok(())
}

fn put_files_of(
    out: &mut String,
    alloc: Global,
    disk: &mut MemoryDisk,
    kind: FileKind,
) -> Result<()> {
    let mut numbers = Vec::new(alloc);
    disk.files(kind, &mut numbers)?;
    for number in &numbers {
        let number = *number;
        put_file(out, alloc, disk, FileName { kind, number })?;
    }
    Ok(())
}

fn put_file(out: &mut String, alloc: Global, disk: &mut MemoryDisk, file: FileName) -> Result<()> {
    let size = disk.size(file)?;
    let mut bytes = vec![in alloc; 0; size as usize]?;
    disk.read(file, 0, bytes.as_mut_slice())?;
    let (name, number) = (name_of(file.kind), file.number);
    write!(out, "{name}-{number} ")?;
    put_digits(out, alloc, bytes.as_slice())?;
    Ok(out.push(' ')?)
}
