//! Measures parts of the store: behind a word that says which part stands how much of it there is.
#![tactic(auto)]

mod agings;
mod appends;
mod batches;
mod disk;
mod logs;
mod measured;
mod records;
mod snapshots;
mod stores;

use anyhow::{Result, bail};
use measured::{Measured, Rounds};
use std::alloc::{Alloc, AllocError, Global};
use std::env;
use std::fs::Files;

/// The parts that are measured.
const PARTS: [&str; 9] = [
    "appends",
    "loads",
    "groups",
    "opens",
    "reads",
    "writes",
    "swaps_in",
    "swaps_out",
    "ages",
];

/// How much there is of each where the word is `check`.
const FEW: u32 = 2;

fn main(rt: HostRuntime) -> Result<()> {
    let alloc = rt.alloc();
    let mut words = env::args(&rt)?;
    let _program = words.next();
    let Some(word) = words.next() else {
        bail!("the words are `check`, or a part and a count");
    };
    if word.as_str() == "check" {
        for part in PARTS {
            let measured = measure(&rt, alloc, part, FEW, FEW, Rounds::One)?;
            println!(rt; "{part} {FEW}: {}", measured.count)?;
        }
        return Ok(());
    }
    let part = word.as_str();
    let much = read_count(part, words.next())?;
    let live = match words.next() {
        Some(count) => read_count(part, Some(count))?,
        None => 0,
    };
    let measured = measure(&rt, alloc, part, much, live, Rounds::Enough)?;
    println!(rt; "{part} {much}: {}", told(alloc, measured)?)?;
    Ok(())
}

fn told(alloc: Global, measured: Measured) -> Result<String, AllocError> {
    let (count, microseconds) = (measured.count, measured.took / 1_000);
    format!(in alloc; "{count} in {microseconds} microseconds")
}

// Of a store there is so much behind so many live files.
fn measure<R: Files + Alloc<A = Global>>(
    rt: &R,
    alloc: Global,
    part: &str,
    much: u32,
    live: u32,
    rounds: Rounds,
) -> Result<Measured> {
    match part {
        "appends" => appends::measure(rt, alloc, much, rounds),
        "loads" => logs::measure(rt, alloc, much, rounds),
        "groups" => logs::measure_groups(rt, alloc, much, rounds),
        "opens" => stores::measure(rt, alloc, much, live, rounds),
        "reads" => snapshots::measure_reading(rt, alloc, much, rounds),
        "writes" => snapshots::measure_writing(rt, alloc, much, rounds),
        "swaps_in" => batches::measure_reading(rt, alloc, much, rounds),
        "swaps_out" => batches::measure_writing(rt, alloc, much, rounds),
        "ages" => agings::measure(rt, alloc, much, rounds),
        _ => bail!("`{part}` measures nothing"),
    }
}

// How much there is of a part, of these words.
fn read_count(part: &str, count: Option<String>) -> Result<u32> {
    let Some(count) = count else {
        bail!("`{part}` needs a count");
    };
    let Ok(much) = count.parse::<u32>() else {
        bail!("`{count}` is no count");
    };
    Ok(much)
}
