//! The flow of a trial, beside the flow of a text that says the same.
use crate::trial_flow;
use flow_definition::{Builder, read_flow};
use machine_model::{Connection, Flow, Kind, OwnExpression, Processor};
use std::alloc::{AllocError, Global};
use std::test::Fail;

const FLOW: &str = r#"{
  "processors": [
    {
      "id": "gen",
      "type": "GenerateFlowFile",
      "properties": { "Count": "300", "Custom Text": "a${generate.index}\nb\nc\n" }
    },
    {
      "id": "route",
      "type": "RouteOnAttribute",
      "tasks": 4,
      "properties": { "tens": "${generate.index:endsWith('0')}" }
    },
    {
      "id": "split",
      "type": "SplitText",
      "tasks": 4,
      "properties": { "Line Split Count": "1" },
      "terminated": ["original", "failure"]
    },
    {
      "id": "merge",
      "type": "MergeContent",
      "properties": { "Merge Strategy": "Defragment" },
      "terminated": ["original", "failure"]
    },
    {
      "id": "put",
      "type": "PutFile",
      "tasks": 4,
      "properties": { "Conflict Resolution Strategy": "replace" },
      "terminated": ["success", "failure"]
    }
  ],
  "connections": [
    { "id": "made", "from": "gen", "to": "route", "relationships": ["success"] },
    { "id": "tens", "from": "route", "to": "split", "relationships": ["tens"] },
    { "id": "rest", "from": "route", "to": "put", "relationships": ["unmatched"] },
    { "id": "parts", "from": "split", "to": "merge", "relationships": ["splits"] },
    { "id": "whole", "from": "merge", "to": "put", "relationships": ["merged"] }
  ]
}"#;

fn put_kind(out: &mut String, kind: &Kind) -> Result<(), AllocError> {
    match kind {
        Kind::GenerateFlowFile { count, custom_text } => write!(out, "{count} {custom_text:?}"),
        Kind::RouteOnAttribute { own } => put_own(out, own.as_slice()),
        Kind::SplitText { lines } => write!(out, "{lines}"),
        Kind::MergeContent {
            strategy,
            minimum,
            maximum,
        } => write!(out, "{strategy:?} {minimum} {maximum}"),
        Kind::PutFile { conflict } => write!(out, "{conflict:?}"),
        _ => out.push_str("another kind"),
    }
}

fn put_own(out: &mut String, own: &[OwnExpression]) -> Result<(), AllocError> {
    for property in own {
        write!(out, "{:?} {:?}", property.name, property.expression)?;
    }
    Ok(())
}

fn put_processor(out: &mut String, processor: &Processor) -> Result<(), AllocError> {
    let (id, terminated) = (&processor.id, &processor.terminated);
    let (tasks, penalty) = (processor.tasks, processor.penalty);
    write!(out, "{id:?} {tasks} {penalty} {terminated:?} ")?;
    put_kind(out, &processor.kind)
}

fn put_connection(out: &mut String, connection: &Connection) -> Result<(), AllocError> {
    let (id, relationships) = (&connection.id, &connection.relationships);
    let (source, target) = (connection.source, connection.target);
    let limits = &connection.limits;
    write!(out, "{id:?} {source} {relationships:?} {target} {limits:?}")
}

// What a flow's processors and connections have, but for the orders of the queues.
fn told(alloc: Global, flow: &Flow) -> Result<String, AllocError> {
    let mut out = String::new(alloc);
    for processor in flow.processors.as_slice() {
        put_processor(&mut out, processor)?;
        out.push('\n')?;
    }
    for connection in flow.connections.as_slice() {
        put_connection(&mut out, connection)?;
        out.push('\n')?;
    }
    Ok(out)
}

#[test]
fn a_text_says_the_same(rt: HostRuntime) -> Result<(), Fail> {
    let alloc = rt.alloc();
    let mut patterns = Builder::new(Vec::new(alloc));
    let read = read_flow(alloc, FLOW.as_bytes(), &mut patterns)?;
    let made = trial_flow(alloc, 300)?;
    assert_eq!(rt; told(alloc, &made)?, told(alloc, &read)?);
    Ok(())
}
