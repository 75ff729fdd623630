//! An outcome in words.
use anyhow::{Result, bail};
use flowfile_record::{Attributes, Body, End, Origin, Outcome, Worked};
use std::alloc::Global;

/// Of a longer text the size is told.
const LONG: usize = 64;

/// The files of an outcome, and what it sends.
pub fn outcome_in_words(alloc: Global, outcome: &Outcome) -> Result<String> {
    let mut told = files_in_words(alloc, outcome.files.as_slice())?;
    if let Some(sent) = &outcome.sent {
        let place = sent.place;
        let name = text_in_words(alloc, sent.name.text())?;
        told.push_str(format!(in alloc; " sends {place} as {name}")?.as_str())?;
    }
    Ok(told)
}

// Files that read the same and stand one behind the other are told once, with their number.
fn files_in_words(alloc: Global, files: &[Worked]) -> Result<String> {
    let mut told = String::new(alloc);
    let mut last = String::new(alloc);
    let mut count = 0u64;
    for file in files {
        let file = file_in_words(alloc, file)?;
        if file.as_str() != last.as_str() {
            told.push_str(times(alloc, count, last.as_str())?.as_str())?;
            count = 0;
        }
        count = count.saturating_add(1);
        last = file;
    }
    told.push_str(times(alloc, count, last.as_str())?.as_str())?;
    Ok(told)
}

fn times(alloc: Global, count: u64, file: &str) -> Result<String> {
    match count {
        0 => Ok(String::new(alloc)),
        1 => Ok(String::from_str(alloc, file)?),
        _ => Ok(format!(in alloc; "{count} times {file}")?),
    }
}

fn file_in_words(alloc: Global, file: &Worked) -> Result<String> {
    let origin = origin_in_words(alloc, &file.origin)?;
    let attributes = attributes_in_words(alloc, &file.attributes)?;
    let body = body_in_words(alloc, &file.body)?;
    let end = end_in_words(alloc, file.end)?;
    let written = if file.written { ", written" } else { "" };
    let penalised = if file.penalised { ", penalised" } else { "" };
    let routed = routed_in_words(alloc, file.routed)?;
    Ok(format!(in alloc;
        "[{origin}, {{{attributes} }}, {body}, {end}{written}{penalised}{routed}]"
    )?)
}

fn origin_in_words(alloc: Global, origin: &Origin) -> Result<String> {
    match origin {
        Origin::Taken(place) => Ok(format!(in alloc; "taken {place}")?),
        Origin::Created => Ok(String::from_str(alloc, "created")?),
        Origin::Received => Ok(String::from_str(alloc, "received")?),
        Origin::Cloned(place) => Ok(format!(in alloc; "a clone of {place}")?),
        Origin::Part(place) => Ok(format!(in alloc; "a part of {place}")?),
        Origin::Forked(place) => Ok(format!(in alloc; "a child of {place}")?),
        Origin::Joined(places) => {
            let count = places.len();
            Ok(format!(in alloc; "joined of {count}")?)
        }
    }
}

// The pairs in their order.
fn attributes_in_words(alloc: Global, attributes: &Attributes) -> Result<String> {
    let mut told = String::new(alloc);
    for place in 0..attributes.len() {
        let Some((key, value)) = attributes.pair(place) else {
            bail!("a pair is missing")
        };
        let value = text_in_words(alloc, value)?;
        told.push_str(format!(in alloc; " {key}={value}")?.as_str())?;
    }
    Ok(told)
}

fn body_in_words(alloc: Global, body: &Body) -> Result<String> {
    match body {
        Body::Whole { of } => Ok(format!(in alloc; "all of {of}")?),
        Body::Part { of, offset, size } => {
            Ok(format!(in alloc; "{size} bytes of {of} from {offset}")?)
        }
        Body::New(bytes) => bytes_in_words(alloc, bytes.as_slice()),
    }
}

// Bytes that are no text are told by their digits.
fn bytes_in_words(alloc: Global, bytes: &[u8]) -> Result<String> {
    let size = bytes.len();
    match std::str::from_utf8(bytes) {
        Ok(text) => text_in_words(alloc, text),
        Err(_) if size > LONG => Ok(format!(in alloc; "{size} bytes that are no text")?),
        Err(_) => {
            let digits = hex::encode(alloc, bytes)?;
            Ok(format!(in alloc; "bytes {digits}")?)
        }
    }
}

fn end_in_words(alloc: Global, end: End) -> Result<String> {
    match end {
        End::To(relationship) => Ok(format!(in alloc; "to {relationship}")?),
        End::Back => Ok(String::from_str(alloc, "back")?),
        End::Removed => Ok(String::from_str(alloc, "removed")?),
    }
}

fn routed_in_words(alloc: Global, routed: Option<u16>) -> Result<String> {
    match routed {
        Some(relationship) => Ok(format!(in alloc; ", routed to {relationship}")?),
        None => Ok(String::new(alloc)),
    }
}

fn text_in_words(alloc: Global, text: &str) -> Result<String> {
    let size = text.len();
    if size > LONG {
        return Ok(format!(in alloc; "{size} bytes")?);
    }
    Ok(format!(in alloc; "{text:?}")?)
}
