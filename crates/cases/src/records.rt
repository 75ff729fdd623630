//! Cases of names, identifiers and attributes.
use crate::json::{items, number_at, text, text_at, word_at};
use anyhow::{Result, bail};
use flowfile_record::{AttrError, Attributes, Name, Put, uuid_of};
use serde_json::Value;
use std::alloc::{AllocError, Global};

/// Whether a text is a name of a file.
pub fn put_named(out: &mut String, alloc: Global, value: &Value) -> Result<()> {
    let text = text(alloc, value)?;
    match Name::read(alloc, text.as_str()) {
        Ok(name) => {
            let size = name.text().len();
            write!(out, "a name of {size} bytes")?;
        }
        Err(error) => write!(out, "{error}")?,
    }
    Ok(())
}

/// The identifier of a store's flow file.
pub fn put_identified(out: &mut String, pair: &Value) -> Result<()> {
    let id = uuid_of(number_at(pair, 0)?, number_at(pair, 1)?);
    Ok(write!(out, "{id}")?)
}

/// What calls on attributes answer, one after the other, and the pairs and the size at the end.
pub fn put_attributes(out: &mut String, alloc: Global, calls: &Value) -> Result<()> {
    let calls = items(calls)?;
    let mut attributes = Attributes::new(alloc);
    for call in calls {
        put_call(out, alloc, &mut attributes, call)?;
        out.push_str("; ")?;
    }
    put_pairs(out, &attributes)?;
    let size = attributes.size();
    Ok(write!(out, ", {size} bytes")?)
}

fn put_call(
    out: &mut String,
    alloc: Global,
    attributes: &mut Attributes,
    call: &Value,
) -> Result<()> {
    let name = word_at(call, 0)?;
    let key = text_at(alloc, call, 1)?;
    match name {
        "put" => put_pair(out, alloc, attributes, key.as_str(), call),
        "get" => put_found(out, attributes.get(key.as_str())),
        "remove" => put_truth(out, attributes.remove(key.as_str())),
        "share" => put_shared(out, attributes, key.as_str()),
        _ => bail!("no call of attributes"),
    }
}

fn put_pair(
    out: &mut String,
    alloc: Global,
    attributes: &mut Attributes,
    key: &str,
    call: &Value,
) -> Result<()> {
    let value = text_at(alloc, call, 2)?;
    put_answer(out, attributes.put(key, value.as_str()))
}

/// A put's answer in words.
pub fn put_answer(out: &mut String, answer: Result<Put, AttrError>) -> Result<()> {
    match answer {
        Ok(put) => Ok(write!(out, "{put:?}")?),
        Err(error) => Ok(write!(out, "{error}")?),
    }
}

fn put_found(out: &mut String, value: Option<&str>) -> Result<()> {
    match value {
        Some(text) => Ok(write!(out, "{text:?}")?),
        None => Ok(out.push_str("none")?),
    }
}

/// A truth value in words.
pub fn put_truth(out: &mut String, truth: bool) -> Result<()> {
    Ok(write!(out, "{truth}")?)
}

// Lets the attributes share what others have, which lack a key.
fn put_shared(out: &mut String, attributes: &mut Attributes, key: &str) -> Result<()> {
    let mut others = attributes.copy()?;
    others.remove(key);
    attributes.keep_shared(&others);
    Ok(out.push_str("shared")?)
}

/// The pairs in their order.
pub fn put_pairs(out: &mut String, attributes: &Attributes) -> Result<()> {
    out.push_str("{")?;
    for place in 0..attributes.len() {
        let Some((key, value)) = attributes.pair(place) else {
            bail!("a pair is missing")
        };
        push_pair(out, key, value)?;
    }
    Ok(out.push_str(" }")?)
}

// Of a long value the size is told.
fn push_pair(out: &mut String, key: &str, value: &str) -> Result<(), AllocError> {
    let size = value.len();
    if size > LONG {
        write!(out, " {key}={size} bytes")
    } else {
        write!(out, " {key}={value:?}")
    }
}

const LONG: usize = 100;
