//! A query of a store: its answer, and the line and the status of a refusal.
ghost use Rattle.std.specs.Prelude.{◌≡◌, ◌≤◌, IsTrue};
ghost use Rattle.disk_trait.specs.Faults.{CountsFaults};
ghost use Rattle.disk_trait.specs.Images.{Stays};
ghost use Rattle.run_top.specs.Asking.{HasAnswered, absent_line, refusal_line, status_of_refusal};
ghost use Rattle.run_top.specs.Printing.{IsLine};

use crate::printing::tell_line;
use crate::status::{ABSENT, DAMAGED, DISK_FAULT, DONE, OUT_OF_MEMORY, SINK_FAULT};
use disk_trait::Disk;
use flow_query::{Query, QueryError, a_query_sees_the_state_of_a_run, answer};
use flow_report::Line;
use std::alloc::Global;
use world_io::Sink;

/// Answers a query of the store on a disk, and gives the status. It changes the sink alone.
///
/// What is asked is printed. Behind a refusal, but that of the sink, a line says why, and where the sink doesn't take
/// that line nothing more is told.
pub fn ask<D: Disk, S: Sink>(alloc: Global, query: &Query, disk: &mut D, sink: &mut S) -> u8
    ensures answered { HasAnswered query.now result D.tells S.tells (D.held disk.old) S.written S.faults sink.old sink.new }
    ensures stays { Stays D.held D.moment D.images disk.old disk.new }
    ensures disk { CountsFaults (D.faults disk.old) (D.faults disk.new) (result ≡ DISK_FAULT) }
{
    a_query_sees_the_state_of_a_run();
    match answer(alloc, *query, disk, sink) {
        Ok(()) => DONE,
        Err(error) => {
            tell(sink, query, &error);
            status_of_refusal(&error)
        }
    }
}

// Prints the line of a refusal, as far as the sink takes it.
fn tell<S: Sink>(sink: &mut S, query: &Query, error: &QueryError)
    ensures line { IsTrue S.tells → IsLine S.faults S.written (refusal_line query.now error.now) sink.old sink.new }
    ensures faults { S.faults sink.old ≤ S.faults sink.new }
{
    match error {
        QueryError::Absent => tell_absent(sink, query),
        QueryError::Disk => tell_line(sink, &Line::DiskFault),
        QueryError::Damaged(damage) => tell_line(sink, &Line::Damaged(damage)),
        QueryError::Memory => tell_line(sink, &Line::OutOfMemory),
        QueryError::Sink => {}
    }
}

fn tell_absent<S: Sink>(sink: &mut S, query: &Query)
    ensures line { IsTrue S.tells → IsLine S.faults S.written (absent_line query.now) sink.old sink.new }
    ensures faults { S.faults sink.old ≤ S.faults sink.new }
{
    match query {
        Query::Lineage(id) | Query::Content(id) => tell_line(sink, &Line::Absent(*id)),
        Query::Queues | Query::Events | Query::Check => {}
    }
}

fn status_of_refusal(error: &QueryError) -> u8
    ensures { result ≡ status_of_refusal error.now }
{
    match error {
        QueryError::Absent => ABSENT,
        QueryError::Disk => DISK_FAULT,
        QueryError::Sink => SINK_FAULT,
        QueryError::Damaged(_) => DAMAGED,
        QueryError::Memory => OUT_OF_MEMORY,
    }
}
