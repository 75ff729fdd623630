//! The connections of a store, each with its files by arrival.
ghost use Rattle.std.specs.Prelude.{true, IfErr, IsErrOf, IsTrue};
ghost use Rattle.disk_trait.specs.Faults.{CountsFaults};
ghost use Rattle.disk_trait.specs.Files.{Files};
ghost use Rattle.flowfile_record.specs.Stored.{kept_of};
ghost use Rattle.checkpoint_store.specs.Consistent.{IsConsistent};
ghost use Rattle.flow_query.specs.Asked.{AnswersQuery};
ghost use Rattle.flow_query.specs.Parts.{IsPrinted, IsSinkOrMemory, lines_text};
ghost use Rattle.flow_query.specs.declared.asking.Query.TheVariants as query;

use crate::QueryError;
use crate::waiting::{lists_of, queue_of, take_list, write_queue};
use flowfile_record::Stored;
use std::alloc::Global;
use store_core::Seen;
use world_io::Sink;

/// Writes the line of each connection, and behind it those of its files.
pub(crate) fn show_queues<S: Sink>(
    alloc: Global,
    seen: &Seen,
    sink: &mut S,
) -> Result<(), QueryError>
    ensures printed { (files : Files) → AnswersQuery true S.tells files seen.now query.Queues (S.written sink.old)
        (S.written sink.new) result }
    ensures refusal { IfErr result IsSinkOrMemory }
    ensures sink { CountsFaults (S.faults sink.old) (S.faults sink.new) (IsErrOf result QueryError.Sink) }
{
    match seen.state() {
        Some(stored) => write_queues(alloc, stored, sink),
        None => Ok(()),
    }
}

// Holds what is said of each file, and the order of the files of one queue at a time.
fn write_queues<S: Sink>(alloc: Global, stored: &Stored, sink: &mut S) -> Result<(), QueryError>
    requires { IsConsistent (kept_of stored.now) }
    ensures written { IsTrue S.tells → IsPrinted (lines_text (kept_of stored.now)) (S.written sink.old)
        (S.written sink.new) result }
    ensures refusal { IfErr result IsSinkOrMemory }
    ensures sink { CountsFaults (S.faults sink.old) (S.faults sink.new) (IsErrOf result QueryError.Sink) }
{
    let ids = stored.connections.as_slice();
    let mut lists = lists_of(alloc, &stored.files, ids.len())?;
    for (place, id) in ids.iter().enumerate() {
        let waiting = take_list(alloc, &mut lists, place);
        let queue = queue_of(alloc, waiting)?;
        write_queue(sink, stored.store, id.as_str(), &queue)?;
    }
    Ok(())
}
