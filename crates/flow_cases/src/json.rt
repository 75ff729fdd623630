//! Parts of a case.
use anyhow::{Context, Result};
use serde_json::Value;
use std::alloc::Global;

/// The bytes of a case's flow: its `bytes` in hexadecimal digits, or its `flow` as a text.
pub fn bytes(alloc: Global, case: &Value) -> Result<Vec<u8>> {
    if let Some(digits) = case.get("bytes") {
        return hex::decode(alloc, word(digits)?).context("no hexadecimal digits");
    }
    let text = text(alloc, case.get("flow").context("a case without a flow")?)?;
    Ok(Vec::from_slice(alloc, text.as_bytes())?)
}

/// The numbers of the calls that a case's builder refuses.
pub fn numbers(alloc: Global, case: &Value) -> Result<Vec<u64>> {
    let mut list = Vec::new(alloc);
    if let Some(numbers) = case.get("too big") {
        for number in numbers.as_array().context("no list")? {
            list.push(number.as_u64().context("no number")?)?;
        }
    }
    Ok(list)
}

fn word(value: &Value) -> Result<&str> {
    value.as_str().context("no text")
}

/// A text: one, or a list of parts. A part is a text, or a list of a text, how often it stands there, and how often all
/// of that does.
fn text(alloc: Global, value: &Value) -> Result<String> {
    if let Some(text) = value.as_str() {
        return Ok(String::from_str(alloc, text)?);
    }
    let mut text = String::new(alloc);
    for part in value.as_array().context("no list")? {
        text.push_str(part_text(alloc, part)?.as_str())?;
    }
    Ok(text)
}

fn part_text(alloc: Global, part: &Value) -> Result<String> {
    if let Some(once) = part.as_str() {
        return Ok(String::from_str(alloc, once)?);
    }
    let once = word(part.get(0).context("a part without a text")?)?;
    let count = part.get(1).and_then(Value::as_u64).context("no number")?;
    let run = repeated(alloc, once, count)?;
    match part.get(2).and_then(Value::as_u64) {
        Some(times) => repeated(alloc, run.as_str(), times),
        None => Ok(run),
    }
}

fn repeated(alloc: Global, text: &str, count: u64) -> Result<String> {
    let mut all = String::new(alloc);
    for _ in 0..count {
        all.push_str(text)?;
    }
    Ok(all)
}
