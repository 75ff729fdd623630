//! Measures what processors do with contents, and what a queue costs: a word says which, and the next one how much of it
//! there is.
#![tactic(auto)]

mod contents;
mod files;
mod loops;
mod measured;
mod processors;
mod queues;
mod texts;
mod waiting;

use anyhow::{Result, bail};
use flow_queue::TakeRule;
use measured::Compared;
use prioritizer::Prioritizer;
use std::alloc::{Alloc, Global};
use std::env;
use std::fs::Files;

/// What is measured, and how much of it there is where the word is `check`.
const PARTS: [(&str, u32); 14] = [
    ("split", 20_000),
    ("replace", 20_000),
    ("route", 20_000),
    ("merge", 20_000),
    ("picks", 200),
    ("waits", 200),
    ("put", 200),
    ("first", 200),
    ("newest", 200),
    ("oldest", 200),
    ("priority", 200),
    ("one", 200),
    ("bin", 200),
    ("expired", 200),
];

const BIN: TakeRule = TakeRule::Bin { min: 1, max: 1_000 };

fn main(rt: HostRuntime) -> Result<()> {
    let alloc = rt.alloc();
    let mut words = env::args(&rt)?;
    let _program = words.next();
    let Some(word) = words.next() else {
        bail!("the words are `check`, or a part and a count");
    };
    if word.as_str() == "check" {
        for (part, few) in &PARTS {
            let compared = measure(&rt, alloc, part, *few)?;
            println!(rt; "{part} {few}: {}", counts(alloc, &compared)?)?;
        }
        return Ok(());
    }
    let much = read_count(word.as_str(), words.next())?;
    let compared = measure(&rt, alloc, word.as_str(), much)?;
    println!(rt; "{word} {much}: {}", times(alloc, &compared)?)?;
    Ok(())
}

fn measure<R: Files + Alloc<A = Global>>(
    rt: &R,
    alloc: Global,
    part: &str,
    much: u32,
) -> Result<Compared> {
    match part {
        "split" => contents::measure_split(rt, alloc, much),
        "replace" => contents::measure_replace(rt, alloc, much),
        "route" => contents::measure_route(rt, alloc, much),
        "merge" => contents::measure_merge(rt, alloc, much),
        "picks" => queues::measure(rt, alloc, much, 0),
        "waits" => queues::measure(rt, alloc, much, 1),
        "put" => waiting::measure_put(rt, alloc, much),
        "first" => waiting::measure_drain(rt, alloc, Prioritizer::FirstInFirstOut, much),
        "newest" => waiting::measure_drain(rt, alloc, Prioritizer::NewestFlowFileFirst, much),
        "oldest" => waiting::measure_drain(rt, alloc, Prioritizer::OldestFlowFileFirst, much),
        "priority" => waiting::measure_drain(rt, alloc, Prioritizer::PriorityAttribute, much),
        "one" => waiting::measure_picks(rt, alloc, TakeRule::One, much),
        "bin" => waiting::measure_picks(rt, alloc, BIN, much),
        "expired" => waiting::measure_expiry(rt, alloc, much),
        _ => bail!("`{part}` measures nothing"),
    }
}

// How much came out.
fn counts(alloc: Global, compared: &Compared) -> Result<String> {
    let count = compared.engine.count;
    match compared.plain {
        Some(plain) => Ok(format!(in alloc; "{count}, beside it {}", plain.count)?),
        None => Ok(format!(in alloc; "{count}")?),
    }
}

// How much came out, and how long that took.
fn times(alloc: Global, compared: &Compared) -> Result<String> {
    let count = compared.engine.count;
    let microseconds = compared.engine.took / 1_000;
    match compared.plain {
        Some(plain) => {
            let beside = plain.took / 1_000;
            Ok(format!(in alloc;
                "{count} in {microseconds} microseconds, beside it {} in {beside}",
                plain.count
            )?)
        }
        None => Ok(format!(in alloc; "{count} in {microseconds} microseconds")?),
    }
}

// How much there is of a part, of these words.
fn read_count(part: &str, count: Option<String>) -> Result<u32> {
    let Some(count) = count else {
        bail!("`{part}` needs a count");
    };
    let Ok(much) = count.parse::<u32>() else {
        bail!("`{count}` is no count");
    };
    Ok(much)
}
