//! Cases of groups, and of the entries that blocks hold.
ghost use Rattle.record_codec.specs.EntryEncoding.{IsEntry};

use crate::encodings::{bytes, put_digits};
use anyhow::{Context, Result, bail};
use flowfile_record::CodecError;
use record_codec::{LogEntry, PAYLOAD_MAX, read_entries, read_group, write_entry, write_group};
use serde_json::Value;
use std::alloc::{AllocError, Global};

/// What reading a group, and writing what was read, gives.
pub fn rewritten(alloc: Global, given: &[u8]) -> Result<Result<Vec<u8>, CodecError>> {
    if given.len() as u64 > PAYLOAD_MAX {
        bail!("a payload longer than any");
    }
    let items = match read_group(alloc, given) {
        Ok(items) => items,
        Err(error) => return Ok(Err(error)),
    };
    let mut out = Vec::new(alloc);
    write_group(&mut out, items.as_slice())?;
    Ok(Ok(out))
}

/// The entries that a block holds, whose kind is the first byte: of each the kind and the encoding.
pub fn put_entries(out: &mut String, alloc: Global, value: &Value) -> Result<()> {
    let given = bytes(alloc, value)?;
    let (kind, payload) = given.split_first().context("no kind")?;
    let Some(entries) = read_entries(alloc, *kind, payload)? else {
        return Ok(out.push_str("no entries")?);
    };
    let count = entries.len();
    write!(out, "{count}")?;
    for entry in entries.as_slice() {
        put_entry(out, alloc, entry)?;
    }
    Ok(())
}

fn put_entry(out: &mut String, alloc: Global, entry: &LogEntry) -> Result<(), AllocError>
    requires { IsEntry entry.now }
{
    let mut encoding = Vec::new(alloc);
    encoding.push(entry.kind())?;
    write_entry(&mut encoding, entry)?;
    out.push_str(", ")?;
    put_digits(out, alloc, encoding.as_slice())
}
