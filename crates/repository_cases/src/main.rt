//! Tries the repositories on cases: each line of the input is one case, a JSON object, and each line of the output says
//! what came out of it.
#![tactic(auto)]

mod batches;
mod contents;
mod disks;
mod events;
mod json;
mod loads;
mod logs;
mod made;
mod snapshots;

use anyhow::{Result, bail};
use serde_json::Value;
use std::alloc::Global;

fn main(rt: HostRuntime) -> Result<()> {
    let alloc = rt.alloc();
    for line in rt.lines(alloc) {
        let answer = answer_of(alloc, line?.as_str())?;
        println!(rt; "{answer}")?;
    }
    Ok(())
}

fn answer_of(alloc: Global, line: &str) -> Result<String> {
    let mut answer = String::new(alloc);
    let case = Value::from_str(alloc, line)?;
    put_answer(&mut answer, alloc, &case)?;
    Ok(answer)
}

// What came out of a case, by the one member that says what it tries.
fn put_answer(out: &mut String, alloc: Global, case: &Value) -> Result<()> {
    if let Some(bytes) = case.get("snapshot") {
        return snapshots::put_snapshot(out, alloc, bytes, case);
    }
    if let Some(bytes) = case.get("batch") {
        return batches::put_batch(out, alloc, bytes, case);
    }
    if let Some(count) = case.get("made_batch") {
        return batches::put_made(out, alloc, count);
    }
    if let Some(files) = case.get("events") {
        return events::put_aged(out, alloc, files, case);
    }
    if let Some(batch) = case.get("log") {
        return logs::put_log(out, alloc, batch, case);
    }
    if let Some(bytes) = case.get("loads") {
        return loads::put_loads(out, alloc, bytes, case);
    }
    if let Some(text) = case.get("content") {
        return contents::put_content(out, alloc, text, case);
    }
    if let Some(texts) = case.get("appends") {
        return contents::put_appends(out, alloc, texts);
    }
    if let Some(list) = case.get("read") {
        return contents::put_read(out, alloc, list, case);
    }
    if let Some(sizes) = case.get("room") {
        return contents::put_room(out, alloc, sizes);
    }
    bail!("a case that tries nothing")
}
