//! Cases of events: what is read, what is written, and which flow files come from which.
ghost use Rattle.prov_event.specs.Encoding.{IsEvent};

use crate::encodings::bytes;
use anyhow::{Result, bail};
use flowfile_record::{CodecError, Event};
use prov_event::{event_size, kin, read_event, write_event};
use serde_json::Value;
use std::alloc::{AllocError, Global};

/// What reading an event, and writing what was read, gives.
pub fn rewritten(alloc: Global, given: &[u8]) -> Result<Result<Vec<u8>, CodecError>> {
    let event = match read_event(alloc, given) {
        Ok(event) => event,
        Err(error) => return Ok(Err(error)),
    };
    let mut out = Vec::new(alloc);
    write_event(&mut out, &event)?;
    Ok(Ok(out))
}

/// The size of an event's encoding, and each child with each parent that it names.
pub fn put_kin(out: &mut String, alloc: Global, value: &Value) -> Result<()> {
    let given = bytes(alloc, value)?;
    let Ok(event) = read_event(alloc, given.as_slice()) else {
        bail!("no event")
    };
    Ok(put_kin_of(out, alloc, &event)?)
}

fn put_kin_of(out: &mut String, alloc: Global, event: &Event) -> Result<(), AllocError>
    requires { IsEvent event.now }
{
    let mut pairs = Vec::new(alloc);
    kin(event, &mut pairs)?;
    let size = event_size(event);
    write!(out, "{size} bytes")?;
    for pair in pairs.as_slice() {
        let (child, parent) = *pair;
        write!(out, ", {child} of {parent}")?;
    }
    Ok(())
}
