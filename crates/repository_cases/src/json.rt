//! Parts of a case.
use anyhow::{Context, Result};
use serde_json::Value;
use std::alloc::{AllocError, Global};

/// The member of this name.
pub fn member<'a>(case: &'a Value, name: &str) -> Result<&'a Value> {
    case.get(name).context("a member is missing")
}

/// The item at a place of a list.
pub fn item(list: &Value, place: usize) -> Result<&Value> {
    list.get(place).context("an item is missing")
}

pub fn items(list: &Value) -> Result<&Vec<Value>> {
    list.as_array().context("no list")
}

pub fn number(value: &Value) -> Result<u64> {
    value.as_u64().context("no number")
}

pub fn word(value: &Value) -> Result<&str> {
    value.as_str().context("no text")
}

/// The number at a place of a list.
pub fn number_at(list: &Value, place: usize) -> Result<u64> {
    number(item(list, place)?)
}

/// The word at a place of a list.
pub fn word_at(list: &Value, place: usize) -> Result<&str> {
    word(item(list, place)?)
}

/// A text: one, or a list of parts. A part is a text, or a list of a text, how often it stands there, and how often all
/// of that does.
pub fn text(alloc: Global, value: &Value) -> Result<String> {
    if let Some(text) = value.as_str() {
        return Ok(String::from_str(alloc, text)?);
    }
    let mut text = String::new(alloc);
    for part in items(value)? {
        push_part(&mut text, alloc, part)?;
    }
    Ok(text)
}

fn push_part(text: &mut String, alloc: Global, part: &Value) -> Result<()> {
    if let Some(once) = part.as_str() {
        return Ok(text.push_str(once)?);
    }
    let once = word_at(part, 0)?;
    let count = number_at(part, 1)?;
    let times = match part.get(2) {
        Some(times) => number(times)?,
        None => 1,
    };
    let mut run = String::new(alloc);
    push_repeated(&mut run, once, count)?;
    Ok(push_repeated(text, run.as_str(), times)?)
}

fn push_repeated(text: &mut String, run: &str, count: u64) -> Result<(), AllocError> {
    for _ in 0..count {
        text.push_str(run)?;
    }
    Ok(())
}
