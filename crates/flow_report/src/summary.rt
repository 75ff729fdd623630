//! The summary of a run.
ghost use Rattle.std.specs.Prelude.{◌≡◌, ◌+◌, ◌≤◌, length, IsTrue, IsErr};
ghost use Rattle.disk_trait.specs.Faults.{CountsFaults};
ghost use Rattle.flowfile_record.specs.Stored.{kept_of};
ghost use Rattle.flow_report.specs.Counts.{lines_from};
ghost use Rattle.flow_report.specs.Summary.{connections_text, count_text, event_counts_text, summary};
ghost use Rattle.flow_report.specs.Texts.{connection_text};
ghost use Rattle.flow_report.specs.Writing.{Writes};

use crate::count::{COUNTED, Count, count_active, count_swapped};
use crate::part::{Part, write_parts};
use crate::words::word_of_event;
use disk_trait::Failed;
use flowfile_record::{EventCounts, EventKind, Stored};
use machine_model::{Connection, Flow};
use world_io::Sink;

// The kinds of events by their codes.
const KINDS: [EventKind; 12] = [
    EventKind::Create,
    EventKind::Receive,
    EventKind::Fork,
    EventKind::Join,
    EventKind::Clone,
    EventKind::ContentModified,
    EventKind::AttributesModified,
    EventKind::Route,
    EventKind::Send,
    EventKind::Drop,
    EventKind::Expire,
    EventKind::Replay,
];

/// Writes the summary of a run: how many live files each connection has, with the sum of their contents' sizes, how many
/// files are left in the inbox, and how many events of each kind there are.
pub fn write_summary<S: Sink>(
    sink: &mut S,
    flow: &Flow,
    state: &Stored,
    left: u64,
    events: &EventCounts,
) -> Result<(), Failed>
    ensures written { IsTrue S.tells → Writes (summary flow.now (kept_of state.now) left events.now)
        (S.written sink.old) (S.written sink.new) result }
    ensures cause { CountsFaults (S.faults sink.old) (S.faults sink.new) (IsErr result) }
{
    write_connections(sink, flow.connections.as_slice(), state)?;
    write_parts(sink, &[Part::Text("inbox "), Part::Number(left)])?;
    write_counts(sink, events)
}

// Writes the line of each connection.
fn write_connections<S: Sink>(
    sink: &mut S,
    connections: &[Connection],
    state: &Stored,
) -> Result<(), Failed>
    ensures written { IsTrue S.tells → Writes (connections_text connections.now (kept_of state.now))
        (S.written sink.old) (S.written sink.new) result }
    ensures cause { CountsFaults (S.faults sink.old) (S.faults sink.new) (IsErr result) }
{
    let mut first = 0;
    while first < connections.len() {
        let end = connections.len().min(first + COUNTED);
        write_some(sink, &connections[first..end], first, state)?;
        first = end;
    }
    Ok(())
}

// Writes the lines of connections, the first of which stands at a place of the flow, in one pass over the files.
fn write_some<S: Sink>(
    sink: &mut S,
    connections: &[Connection],
    first: usize,
    state: &Stored,
) -> Result<(), Failed>
    requires { length connections.now ≤ COUNTED }
    ensures written { IsTrue S.tells → Writes (lines_from first connections.now (kept_of state.now))
        (S.written sink.old) (S.written sink.new) result }
    ensures cause { CountsFaults (S.faults sink.old) (S.faults sink.new) (IsErr result) }
{
    let active = count_active(&state.files, first);
    let swapped = count_swapped(&state.batches, first);
    for (at, connection) in connections.iter().enumerate() {
        write_connection(sink, connection, active.at(at), swapped.at(at))?;
    }
    Ok(())
}

// Writes the line of a connection that has these active and swapped out files.
fn write_connection<S: Sink>(
    sink: &mut S,
    connection: &Connection,
    active: Count,
    swapped: Count,
) -> Result<(), Failed>
    ensures written { IsTrue S.tells → Writes
        (connection_text connection.now.id (active.files + swapped.files) (active.bytes + swapped.bytes))
        (S.written sink.old) (S.written sink.new) result }
    ensures cause { CountsFaults (S.faults sink.old) (S.faults sink.new) (IsErr result) }
{
    write_parts(
        sink,
        &[
            Part::Text("connection "),
            Part::Text(connection.id.as_str()),
            Part::Text(" "),
            Part::Sum(active.files, swapped.files),
            Part::Text(" "),
            Part::Sum(active.bytes, swapped.bytes),
        ],
    )
}

// Writes a line for each kind of events that there are.
fn write_counts<S: Sink>(sink: &mut S, events: &EventCounts) -> Result<(), Failed>
    ensures written { IsTrue S.tells
        → Writes (event_counts_text events.now) (S.written sink.old) (S.written sink.new) result }
    ensures cause { CountsFaults (S.faults sink.old) (S.faults sink.new) (IsErr result) }
{
    for kind in &KINDS {
        write_count(sink, *kind, events.counts[usize::from(kind.code()) - 1])?;
    }
    Ok(())
}

fn write_count<S: Sink>(sink: &mut S, kind: EventKind, count: u64) -> Result<(), Failed>
    ensures written { IsTrue S.tells → Writes (count_text kind count) (S.written sink.old) (S.written sink.new) result }
    ensures cause { CountsFaults (S.faults sink.old) (S.faults sink.new) (IsErr result) }
{
    if count == 0 {
        return Ok(());
    }
    write_parts(
        sink,
        &[
            Part::Text("event "),
            Part::Text(word_of_event(kind)),
            Part::Text(" "),
            Part::Number(count),
        ],
    )
}
