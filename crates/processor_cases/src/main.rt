//! Tries the processors and queues on cases: each line of the input is one case, a JSON object, and each line of the output says
//! what came out of it.
#![tactic(auto)]

mod case;
mod json;
mod queue;
mod words;
mod work;

use anyhow::Result;
use serde_json::Value;
use std::alloc::Global;

fn main(rt: HostRuntime) -> Result<()> {
    let alloc = rt.alloc();
    for line in rt.lines(alloc) {
        let line = line?;
        let case = Value::from_str(alloc, line.as_str())?;
        match answer_of(alloc, &case) {
            Ok(answer) => println!(rt; "{answer}")?,
            Err(error) => println!(rt; "can't be run: {error}")?,
        }
    }
    Ok(())
}

fn answer_of(alloc: Global, case: &Value) -> Result<String> {
    if case.get("rule").is_some() {
        return queue::answer_in_words(alloc, case);
    }
    let outcome = work::outcome_of(alloc, case)?;
    words::outcome_in_words(alloc, &outcome)
}
