//! How a session ends.
ghost use Rattle.std.specs.Prelude.{◌≡◌};
ghost use Rattle.flowfile_record.specs.Stored.{Kept};
ghost use Rattle.machine_model.specs.declared.flow.Flow.{Flow as TheFlow};
ghost use Rattle.machine_model.specs.declared.given.Given.{Given as TheGiven};
ghost use Rattle.processor_api.specs.Acts.{KeepsGiven};
ghost use Rattle.engine_change.specs.Committing.{MayCommit};
ghost use Rattle.engine_session.specs.Handing.{MayEndSession};

use flowfile_record::{FileList, Outcome};
use process_session::SourceList;
use settlement::Ended;

/// A session that has ended: the processor of this place worked on files of this connection, which it was handed as
/// they stood there, and did this. It may be settled over what is kept.
pub(crate) fn end_session(
    processor: u16,
    connection: u16,
    taken: FileList,
    done: (Outcome, SourceList),
) -> Ended
    ensures is { result ≡ record {
      processor = processor;
      connection = connection;
      taken = taken;
      sources = done.1;
      outcome = done.0;
    } }
    ensures may { (flow : TheFlow) (kept : Kept) (given left : TheGiven)
        → MayEndSession flow kept given processor connection taken done → KeepsGiven given left
        → MayCommit flow left kept result }
{
    let (outcome, sources) = done;
    Ended {
        processor,
        connection,
        taken,
        sources,
        outcome,
    }
}
