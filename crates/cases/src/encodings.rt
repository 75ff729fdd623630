//! Cases of encodings: what is read, and what is written.
use crate::json::{item, member, number, text, word};
use crate::{events, groups};
use anyhow::{Context, Result, bail};
use flowfile_record::CodecError;
use record_codec::{
    Block, BlockEnd, PAYLOAD_MAX, append_block, read_active_file, read_block, read_entry,
    read_file, read_head, read_snapshot_end, read_swap_batch, write_active_file, write_entry,
    write_file, write_head, write_snapshot_end, write_swap_batch,
};
use serde_json::Value;
use std::alloc::{AllocError, Global};

/// A block of a kind and a payload, in hexadecimal.
pub fn put_block(out: &mut String, alloc: Global, pair: &Value) -> Result<()> {
    let kind = kind(item(pair, 0)?)?;
    let payload = bytes(alloc, item(pair, 1)?)?;
    if payload.len() as u64 > PAYLOAD_MAX {
        bail!("a payload longer than any");
    }
    let mut block = Vec::new(alloc);
    append_block(&mut block, kind, payload.as_slice())?;
    Ok(put_digits(out, alloc, block.as_slice())?)
}

/// Where the block at an offset of some bytes stands.
pub fn put_block_read(out: &mut String, alloc: Global, value: &Value, case: &Value) -> Result<()> {
    let offset = number(member(case, "at")?)?;
    let bytes = bytes(alloc, value)?;
    if offset > bytes.len() as u64 {
        bail!("the offset is past the end");
    }
    Ok(put_place(out, read_block(bytes.as_slice(), offset))?)
}

fn put_place(out: &mut String, found: Result<Block, BlockEnd>) -> Result<(), AllocError> {
    match found {
        Ok(found) => {
            let (kind, start, end, next) = (found.kind, found.start, found.end, found.next);
            write!(out, "kind {kind}, payload {start} to {end}, next {next}")
        }
        Err(error) => write!(out, "{error}"),
    }
}

/// Whether some bytes are a value's encoding, and whether that value is encoded so.
pub fn put_record(out: &mut String, alloc: Global, form: &Value, case: &Value) -> Result<()> {
    let form = word(form)?;
    let given = bytes(alloc, member(case, "bytes")?)?;
    let rewritten = rewritten(alloc, form, given.as_slice())?;
    Ok(put_rewritten(out, alloc, given.as_slice(), &rewritten)?)
}

fn put_rewritten(
    out: &mut String,
    alloc: Global,
    given: &[u8],
    rewritten: &Result<Vec<u8>, CodecError>,
) -> Result<(), AllocError> {
    match rewritten {
        Ok(bytes) if bytes.as_slice() == given => out.push_str("read, and written the same"),
        Ok(bytes) => put_digits(out, alloc, bytes.as_slice()),
        Err(error) => write!(out, "{error}"),
    }
}

/// Bytes in hexadecimal.
pub fn put_digits(out: &mut String, alloc: Global, bytes: &[u8]) -> Result<(), AllocError> {
    out.push_str(hex::encode(alloc, bytes)?.as_str())
}

// What reading a value, and writing what was read, gives.
fn rewritten(alloc: Global, form: &str, given: &[u8]) -> Result<Result<Vec<u8>, CodecError>> {
    match form {
        "flow file" => file_rewritten(alloc, given),
        "active file" => active_file_rewritten(alloc, given),
        "batch" => batch_rewritten(alloc, given),
        "end" => end_rewritten(alloc, given),
        "head" => head_rewritten(alloc, given),
        "entry" => entry_rewritten(alloc, given),
        "group" => groups::rewritten(alloc, given),
        "event" => events::rewritten(alloc, given),
        _ => bail!("no form of a record"),
    }
}

fn file_rewritten(alloc: Global, given: &[u8]) -> Result<Result<Vec<u8>, CodecError>> {
    let file = match read_file(alloc, given) {
        Ok(file) => file,
        Err(error) => return Ok(Err(error)),
    };
    let mut out = Vec::new(alloc);
    write_file(&mut out, &file)?;
    Ok(Ok(out))
}

fn active_file_rewritten(alloc: Global, given: &[u8]) -> Result<Result<Vec<u8>, CodecError>> {
    let active = match read_active_file(alloc, given) {
        Ok(active) => active,
        Err(error) => return Ok(Err(error)),
    };
    let mut out = Vec::new(alloc);
    write_active_file(&mut out, active.connection, &active.file)?;
    Ok(Ok(out))
}

fn batch_rewritten(alloc: Global, given: &[u8]) -> Result<Result<Vec<u8>, CodecError>> {
    let batch = match read_swap_batch(given) {
        Ok(batch) => batch,
        Err(error) => return Ok(Err(error)),
    };
    let mut out = Vec::new(alloc);
    write_swap_batch(&mut out, &batch)?;
    Ok(Ok(out))
}

fn end_rewritten(alloc: Global, given: &[u8]) -> Result<Result<Vec<u8>, CodecError>> {
    let blocks = match read_snapshot_end(given) {
        Ok(blocks) => blocks,
        Err(error) => return Ok(Err(error)),
    };
    let mut out = Vec::new(alloc);
    write_snapshot_end(&mut out, blocks)?;
    Ok(Ok(out))
}

fn head_rewritten(alloc: Global, given: &[u8]) -> Result<Result<Vec<u8>, CodecError>> {
    let head = match read_head(alloc, given) {
        Ok(head) => head,
        Err(error) => return Ok(Err(error)),
    };
    let mut out = Vec::new(alloc);
    write_head(&mut out, &head)?;
    Ok(Ok(out))
}

// The first byte is the kind.
fn entry_rewritten(alloc: Global, given: &[u8]) -> Result<Result<Vec<u8>, CodecError>> {
    let (kind, payload) = given.split_first().context("no kind")?;
    let entry = match read_entry(alloc, *kind, payload) {
        Ok(entry) => entry,
        Err(error) => return Ok(Err(error)),
    };
    let mut out = Vec::new(alloc);
    out.push(*kind)?;
    write_entry(&mut out, &entry)?;
    Ok(Ok(out))
}

fn kind(value: &Value) -> Result<u8> {
    match u8::try_from(number(value)?) {
        Ok(kind) => Ok(kind),
        Err(_) => bail!("no kind of a block"),
    }
}

/// The bytes of a case, which has them in hexadecimal.
pub fn bytes(alloc: Global, value: &Value) -> Result<Vec<u8>> {
    let digits = text(alloc, value)?;
    match hex::decode(alloc, digits.as_str()) {
        Ok(bytes) => Ok(bytes),
        Err(error) => bail!("{error}"),
    }
}
