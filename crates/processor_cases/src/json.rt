//! Parts of a case.
use anyhow::{Context, Result};
use serde_json::Value;
use std::alloc::Global;

/// The member of this name.
pub fn member<'a>(case: &'a Value, name: &str) -> Result<&'a Value> {
    case.get(name).context("a member is missing")
}

/// The item at a place of a list.
pub fn item(list: &Value, place: usize) -> Result<&Value> {
    list.get(place).context("an item is missing")
}

pub fn items(list: &Value) -> Result<&Vec<Value>> {
    list.as_array().context("no list")
}

pub fn number(value: &Value) -> Result<u64> {
    value.as_u64().context("no number")
}

pub fn word(value: &Value) -> Result<&str> {
    value.as_str().context("no text")
}

pub fn truth(value: &Value) -> Result<bool> {
    value.as_bool().context("no truth value")
}

/// Bytes: those of a text, or an object with their hexadecimal digits.
pub fn bytes(alloc: Global, value: &Value) -> Result<Vec<u8>> {
    match value.get("hex") {
        Some(digits) => Ok(hex::decode(alloc, word(digits)?)?),
        None => Ok(text(alloc, value)?.into_bytes()),
    }
}

/// A text: one, or a list of parts. A part is a text, or a list of a text, how often it stands there, and how often all
/// of that does.
pub fn text(alloc: Global, value: &Value) -> Result<String> {
    if let Some(text) = value.as_str() {
        return Ok(String::from_str(alloc, text)?);
    }
    let mut text = String::new(alloc);
    for part in items(value)? {
        text.push_str(part_text(alloc, part)?.as_str())?;
    }
    Ok(text)
}

fn part_text(alloc: Global, part: &Value) -> Result<String> {
    if let Some(once) = part.as_str() {
        return Ok(String::from_str(alloc, once)?);
    }
    let run = repeated(alloc, word(item(part, 0)?)?, number(item(part, 1)?)?)?;
    match part.get(2) {
        Some(times) => repeated(alloc, run.as_str(), number(times)?),
        None => Ok(run),
    }
}

fn repeated(alloc: Global, text: &str, count: u64) -> Result<String> {
    let mut all = String::new(alloc);
    for _ in 0..count {
        all.push_str(text)?;
    }
    Ok(all)
}
