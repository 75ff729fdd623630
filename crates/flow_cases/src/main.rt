//! Tries the reader of flows on cases: each line of the input is one case, a JSON object, and each line of the output
//! says which flow it stands for, or which rule it breaks and where.
#![tactic(auto)]

mod json;
mod told;

use anyhow::{Result, bail};
use flow_definition::{Builder, FlowError, read_flow};
use json::{bytes, numbers};
use serde_json::Value;
use std::alloc::Global;
use told::put_flow;

fn main(rt: HostRuntime) -> Result<()> {
    let alloc = rt.alloc();
    for line in rt.lines(alloc) {
        let answer = answer_of(alloc, line?.as_str())?;
        println!(rt; "{answer}")?;
    }
    Ok(())
}

fn answer_of(alloc: Global, line: &str) -> Result<String> {
    let mut answer = String::new(alloc);
    let case = Value::from_str(alloc, line)?;
    put_answer(&mut answer, alloc, &case)?;
    Ok(answer)
}

fn put_answer(out: &mut String, alloc: Global, case: &Value) -> Result<()> {
    let mut builder = Builder::new(numbers(alloc, case)?);
    let text = bytes(alloc, case)?;
    match read_flow(alloc, text.as_slice(), &mut builder) {
        Ok(flow) => put_flow(out, &flow)?,
        Err(FlowError::Rule { rule, place }) => {
            let number = rule.number();
            let place = place.as_str();
            write!(out, "rule {number} at {place}")?;
        }
        Err(FlowError::Memory) => bail!("out of memory"),
    }
    Ok(())
}
