//! Tries the crates of the vocabulary on cases: each line of the input is one case, a JSON object, and each line of
//! the output says what came out of it.
#![tactic(auto)]

mod disks;
mod encodings;
mod events;
mod expressions;
mod groups;
mod json;
mod orders;
mod records;
mod sessions;

use anyhow::{Result, bail};
use serde_json::Value;
use std::alloc::Global;

fn main(rt: HostRuntime) -> Result<()> {
    let alloc = rt.alloc();
    for line in rt.lines(alloc) {
        let answer = answer_of(alloc, line?.as_str())?;
        println!(rt; "{answer}")?;
    }
    Ok(())
}

fn answer_of(alloc: Global, line: &str) -> Result<String> {
    let mut answer = String::new(alloc);
    let case = Value::from_str(alloc, line)?;
    put_answer(&mut answer, alloc, &case)?;
    Ok(answer)
}

// What came out of a case, by the one member that says what it tries.
fn put_answer(out: &mut String, alloc: Global, case: &Value) -> Result<()> {
    if let Some(list) = case.get("order") {
        return orders::put_sorted(out, alloc, list, case);
    }
    if let Some(pair) = case.get("priorities") {
        return orders::put_compared(out, alloc, pair);
    }
    if let Some(name) = case.get("prioritizer") {
        return orders::put_named(out, name);
    }
    if let Some(text) = case.get("parse") {
        return expressions::put_parsed(out, alloc, text);
    }
    if let Some(text) = case.get("value") {
        return expressions::put_valued(out, alloc, text, case);
    }
    put_answer_of_records(out, alloc, case)
}

fn put_answer_of_records(out: &mut String, alloc: Global, case: &Value) -> Result<()> {
    if let Some(text) = case.get("name") {
        return records::put_named(out, alloc, text);
    }
    if let Some(pair) = case.get("identifier") {
        return records::put_identified(out, pair);
    }
    if let Some(calls) = case.get("attributes") {
        return records::put_attributes(out, alloc, calls);
    }
    if let Some(pair) = case.get("block") {
        return encodings::put_block(out, alloc, pair);
    }
    if let Some(bytes) = case.get("block bytes") {
        return encodings::put_block_read(out, alloc, bytes, case);
    }
    if let Some(form) = case.get("record") {
        return encodings::put_record(out, alloc, form, case);
    }
    if let Some(bytes) = case.get("entries") {
        return groups::put_entries(out, alloc, bytes);
    }
    if let Some(bytes) = case.get("kin") {
        return events::put_kin(out, alloc, bytes);
    }
    if let Some(failing) = case.get("disk") {
        return disks::put_stopped(out, alloc, failing, case);
    }
    if let Some(content) = case.get("session") {
        return sessions::put_session(out, alloc, content, case);
    }
    bail!("a case that tries nothing")
}
