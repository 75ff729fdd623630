//! What an accepted flow is told as.
use flowfile_record::Text;
use machine_model::{
    Conflict, Connection, Destination, Flow, Kind, MatchRequirement, MergeStrategy, OwnExpression,
    OwnPattern, Pattern, Processor, QueueLimits, Replacement,
};
use std::alloc::AllocError;

/// The processors and the connections of a flow, one after the other.
pub fn put_flow(out: &mut String, flow: &Flow) -> Result<(), AllocError> {
    for processor in flow.processors.as_slice() {
        put_behind(out)?;
        put_processor(out, processor)?;
    }
    for connection in flow.connections.as_slice() {
        put_behind(out)?;
        put_connection(out, connection)?;
    }
    if out.is_empty() {
        out.push_str("an empty flow")?;
    }
    Ok(())
}

fn put_behind(out: &mut String) -> Result<(), AllocError> {
    if out.is_empty() {
        return Ok(());
    }
    out.push_str("; ")
}

fn put_processor(out: &mut String, processor: &Processor) -> Result<(), AllocError> {
    let (id, tasks, penalty) = (processor.id.as_str(), processor.tasks, processor.penalty);
    write!(out, "{id} ")?;
    put_kind(out, &processor.kind)?;
    write!(out, " tasks {tasks} penalty {penalty}")?;
    put_names(out, processor.terminated.as_slice())
}

fn put_kind(out: &mut String, kind: &Kind) -> Result<(), AllocError> {
    match kind {
        Kind::GetFile { filter } => put_get_file(out, filter),
        Kind::GenerateFlowFile { count, .. } => write!(out, "GenerateFlowFile {count}"),
        Kind::PutFile { conflict } => put_words(out, "PutFile", conflict_told(*conflict)),
        Kind::UpdateAttribute { own } => put_own(out, "UpdateAttribute", own.as_slice()),
        Kind::RouteOnAttribute { own } => put_own(out, "RouteOnAttribute", own.as_slice()),
        Kind::AttributesToJson { destination, names } => {
            put_words(out, "AttributesToJSON", destination_told(*destination))?;
            put_listed(out, names.as_slice())
        }
        Kind::DuplicateFlowFile { copies } => write!(out, "DuplicateFlowFile {copies}"),
        Kind::CryptographicHashContent => out.push_str("CryptographicHashContent"),
        Kind::SplitText { lines } => write!(out, "SplitText {lines}"),
        Kind::ReplaceText { replacement } => put_replacement(out, replacement),
        Kind::ExtractText { own } => {
            out.push_str("ExtractText")?;
            put_patterns(out, own.as_slice())
        }
        Kind::RouteOnContent { requirement, own } => {
            put_words(out, "RouteOnContent", requirement_told(*requirement))?;
            put_patterns(out, own.as_slice())
        }
        Kind::MergeContent {
            strategy,
            minimum,
            maximum,
        } => {
            put_words(out, "MergeContent", strategy_told(*strategy))?;
            write!(out, " {minimum} {maximum}")
        }
        Kind::SegmentContent { size } => write!(out, "SegmentContent {size}"),
        Kind::ModifyBytes { start, end } => write!(out, "ModifyBytes {start} {end}"),
    }
}

fn put_words(out: &mut String, kind: &str, words: &str) -> Result<(), AllocError> {
    write!(out, "{kind} {words}")
}

fn put_get_file(out: &mut String, filter: &Option<Pattern>) -> Result<(), AllocError> {
    match filter {
        Some(pattern) => put_words(out, "GetFile", pattern.text.as_str()),
        None => out.push_str("GetFile"),
    }
}

fn put_replacement(out: &mut String, replacement: &Replacement) -> Result<(), AllocError> {
    let (kind, search, value) = match replacement {
        Replacement::Regex { search, template } => ("regex", &search.text, template),
        Replacement::Literal { search, value } => ("literal", search, value),
    };
    put_words(out, "ReplaceText", kind)?;
    put_bracketed(out, search.as_str())?;
    put_bracketed(out, value.as_str())
}

/// The name of each own property in brackets, behind a space, and its pattern behind another one.
fn put_patterns(out: &mut String, own: &[OwnPattern]) -> Result<(), AllocError> {
    for property in own {
        put_bracketed(out, property.name.as_str())?;
        put_behind_a_space(out, property.pattern.text.as_str())?;
    }
    Ok(())
}

fn requirement_told(requirement: MatchRequirement) -> &'static str {
    match requirement {
        MatchRequirement::Exactly => "exactly",
        MatchRequirement::Contains => "contains",
    }
}

fn strategy_told(strategy: MergeStrategy) -> &'static str {
    match strategy {
        MergeStrategy::BinPacking => "bin-packing",
        MergeStrategy::Defragment => "defragment",
    }
}

/// A kind, and the name of each own property in brackets, behind a space.
fn put_own(out: &mut String, kind: &str, own: &[OwnExpression]) -> Result<(), AllocError> {
    out.push_str(kind)?;
    for property in own {
        put_bracketed(out, property.name.as_str())?;
    }
    Ok(())
}

/// Each name in brackets, behind a space.
fn put_listed(out: &mut String, names: &[Text]) -> Result<(), AllocError> {
    for name in names {
        put_bracketed(out, name.as_str())?;
    }
    Ok(())
}

fn put_bracketed(out: &mut String, name: &str) -> Result<(), AllocError> {
    write!(out, " [{name}]")
}

fn destination_told(destination: Destination) -> &'static str {
    match destination {
        Destination::Attribute => "flowfile-attribute",
        Destination::Content => "flowfile-content",
    }
}

fn conflict_told(conflict: Conflict) -> &'static str {
    match conflict {
        Conflict::Replace => "replace",
        Conflict::Ignore => "ignore",
        Conflict::Fail => "fail",
    }
}

/// Each name behind a space.
fn put_names(out: &mut String, names: &[Text]) -> Result<(), AllocError> {
    for name in names {
        put_behind_a_space(out, name.as_str())?;
    }
    Ok(())
}

fn put_behind_a_space(out: &mut String, text: &str) -> Result<(), AllocError> {
    write!(out, " {text}")
}

fn put_connection(out: &mut String, connection: &Connection) -> Result<(), AllocError> {
    let id = connection.id.as_str();
    let (source, target) = (connection.source, connection.target);
    write!(out, "{id} {source} to {target}")?;
    put_names(out, connection.relationships.as_slice())?;
    put_limits(out, &connection.limits)
}

fn put_limits(out: &mut String, limits: &QueueLimits) -> Result<(), AllocError> {
    let (expiration, objects) = (limits.expiration, limits.objects);
    let (bytes, swap) = (limits.bytes, limits.swap);
    write!(out, ", {expiration} {objects} {bytes} {swap}")
}
