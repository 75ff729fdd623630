//! Parts of a case: its processor, the file that this takes, and what it is given.
ghost use Rattle.std.specs.Prelude.{◌≤◌, length, map, All, IfOk, IfSome, ◌≡◌};
ghost use Rattle.flowfile_record.specs.declared.TheConstants.{CONTENT_MAX};
ghost use Rattle.machine_model.specs.Sound.{IsSound};
ghost use Rattle.processor_api.specs.Acts.{AreRead, fit_a_content};
ghost use Rattle.processor_cases.specs.Cases.{IsReadFile, taken_without_bytes};

use crate::json::{bytes, item, items, member, number, text, truth, word};
use anyhow::{Result, bail};
use flow_definition::{Builder, FlowError, read_flow};
use flowfile_record::{Attributes, Bytes, CONTENT_MAX, Name, Text};
use machine_model::{Flow, Given};
use process_session::{Taken, TakenList};
use serde_json::{Value, json};
use std::alloc::{AllocError, Global};

/// The flow of a case's processor alone, which the case has as a flow's text has it.
pub fn flow(alloc: Global, case: &Value) -> Result<Flow>
    ensures { IfOk result IsSound }
{
    let processor = member(case, "processor")?;
    let text = json!(in alloc; {"processors": [processor], "connections": []})?.to_string(alloc)?;
    let mut patterns = Builder::new(Vec::new(alloc));
    match read_flow(alloc, text.as_bytes(), &mut patterns) {
        Ok(flow) => Ok(flow),
        Err(FlowError::Rule { rule, place }) => {
            bail!("rule {} at {}", rule.number(), place.as_str())
        }
        Err(FlowError::Memory) => bail!("out of memory"),
    }
}

/// The files that a case's processor takes. Their contents are read, unless together they are too long for one.
pub fn taken(alloc: Global, case: &Value) -> Result<TakenList>
    ensures { IfOk result AreRead }
{
    let files = files(alloc, case)?;
    if fit_a_content(files.as_slice()) {
        Ok(files)
    } else {
        Ok(without_bytes(alloc, files.as_slice())?)
    }
}

/// The files that a case names, one or a list, each with its content.
fn files(alloc: Global, case: &Value) -> Result<TakenList>
    ensures { IfOk result (λ files. All IsReadFile files) }
{
    let mut files = TakenList::new(alloc);
    let Some(taken) = case.get("taken") else {
        return Ok(files);
    };
    let Some(list) = taken.as_array() else {
        files.push(file(alloc, taken, 1)?)?;
        return Ok(files);
    };
    for (place, taken) in list.iter().enumerate() {
        files.push(file(alloc, taken, place as u64 + 1)?)?;
    }
    Ok(files)
}

/// Whether the contents of these files together are no longer than one may be.
fn fit_a_content(files: &[Taken]) -> bool
    ensures { result ≡ fit_a_content files.now }
{
    let mut room = CONTENT_MAX;
    for file in files {
        if file.size > room {
            return false;
        }
        room -= file.size;
    }
    true
}

/// These files without what was read of their contents.
fn without_bytes(alloc: Global, files: &[Taken]) -> Result<TakenList, AllocError>
    ensures { IfOk result (λ unread. unread ≡ map taken_without_bytes files.now) }
{
    let mut unread = TakenList::new(alloc);
    for file in files {
        unread.push(Taken {
            attributes: file.attributes.copy()?,
            uuid: Text::from_str(alloc, file.uuid.as_str())?,
            size: file.size,
            bytes: None,
        })?;
    }
    Ok(unread)
}

/// A file that is taken, whose uuid ends in a number.
fn file(alloc: Global, file: &Value, number: u64) -> Result<Taken>
    ensures { IfOk result IsReadFile }
{
    let bytes = content(alloc, member(file, "content")?)?;
    let uuid = format!(in alloc; "00000000-0000-8000-8000-{number:012}")?;
    Ok(Taken {
        attributes: attributes(alloc, member(file, "attributes")?)?,
        uuid: Text::from(uuid),
        size: bytes.len(),
        bytes: Some(bytes),
    })
}

/// The attributes of a list of pairs.
pub fn attributes(alloc: Global, pairs: &Value) -> Result<Attributes> {
    let mut attributes = Attributes::new(alloc);
    for pair in items(pairs)? {
        let value = text(alloc, item(pair, 1)?)?;
        attributes.put(word(item(pair, 0)?)?, value.as_str())?;
    }
    Ok(attributes)
}

fn content(alloc: Global, value: &Value) -> Result<Bytes>
    ensures { IfOk result (λ bytes. length bytes ≤ CONTENT_MAX) }
{
    let content = bytes(alloc, value)?;
    if content.len() as u64 > CONTENT_MAX {
        bail!("the content is too long");
    }
    Ok(Bytes::from_slice(alloc, content.as_slice())?)
}

/// What a case's processor is given. What the case doesn't name is 0, false or nothing.
pub fn given(alloc: Global, case: &Value) -> Result<Given>
    ensures { IfOk result (λ given. IfSome given.bytes (λ bytes. length bytes ≤ CONTENT_MAX)) }
{
    Ok(Given {
        moment: number_or_zero(case, "moment")?,
        index: number_or_zero(case, "index")?,
        there: match case.get("there") {
            Some(value) => truth(value)?,
            None => false,
        },
        file: file_name(alloc, case)?,
        bytes: file_bytes(alloc, case)?,
    })
}

/// The number of a member, or 0.
pub fn number_or_zero(case: &Value, name: &str) -> Result<u64> {
    match case.get(name) {
        Some(value) => number(value),
        None => Ok(0),
    }
}

fn file_name(alloc: Global, case: &Value) -> Result<Option<Name>> {
    let Some(value) = case.get("file") else {
        return Ok(None);
    };
    let name = text(alloc, value)?;
    Ok(Some(Name::read(alloc, name.as_str())?))
}

fn file_bytes(alloc: Global, case: &Value) -> Result<Option<Bytes>>
    ensures { IfOk result (λ bytes. IfSome bytes (λ bytes. length bytes ≤ CONTENT_MAX)) }
{
    match case.get("bytes") {
        Some(value) => Ok(Some(content(alloc, value)?)),
        None => Ok(None),
    }
}
