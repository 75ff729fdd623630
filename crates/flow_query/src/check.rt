//! Whether all of a store is sound. It was read, so it is.
ghost use Rattle.std.specs.Prelude.{◌≡◌, ◌<◌, true, length, All, IfErr, IsErrOf};
ghost use Rattle.disk_trait.specs.Faults.{CountsFaults};
ghost use Rattle.disk_trait.specs.Files.{Files};
ghost use Rattle.store_core.specs.Seen.{kept_seen};
ghost use Rattle.flow_query.specs.Asked.{AnswersQuery};
ghost use Rattle.flow_query.specs.declared.asking.Query.TheVariants as query;

use crate::QueryError;
use crate::seen::last_event;
use flow_report::{Line, write_line};
use store_core::Seen;
use world_io::Sink;

/// Says that the store is sound, and how many files and events it has.
pub(crate) fn show_check<S: Sink>(seen: &Seen, sink: &mut S) -> Result<(), QueryError>
    ensures printed { (files : Files) → AnswersQuery true S.tells files seen.now query.Check (S.written sink.old)
        (S.written sink.new) result }
    ensures refusal { IfErr result (λ error. error ≡ QueryError.Sink) }
    ensures sink { CountsFaults (S.faults sink.old) (S.faults sink.new) (IsErrOf result QueryError.Sink) }
{
    let line = Line::Sound {
        files: file_count(seen),
        events: last_event(seen),
    };
    write_line(sink, &line)?;
    Ok(())
}

// How many live files there are.
fn file_count(seen: &Seen) -> u64
    ensures count { result ≡ length (kept_seen seen.now).files }
    // The connection of each is there.
    ensures placed { All (λ a. a.connection < length (kept_seen seen.now).connections) (kept_seen seen.now).files }
{
    match seen.state() {
        Some(stored) => stored.files.len(),
        None => 0,
    }
}
