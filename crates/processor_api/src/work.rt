//! One session of a processor, from its beginning to its end.
ghost use Rattle.std.specs.Prelude.{◌≡◌, length, map, None, IfOk};
ghost use Rattle.flowfile_record.specs.Outcome.{IsOutcome};
ghost use Rattle.machine_model.specs.Kinds.{relationships_of};
ghost use Rattle.process_session.specs.Bench.{taken_source, sizes_of};
ghost use Rattle.process_session.specs.Finish.{outcome_of};
ghost use Rattle.process_session.specs.Refusals.{refusal_of_finish};
ghost use Rattle.processor_api.specs.Acts.{IsOutcomeOf, KeepsGiven, MayBeHandedTo};

use crate::{Acts, Given};
use flowfile_record::Outcome;
use process_session::{Session, SessionError, SourceList, TakenList};
use std::alloc::{AllocError, Global};

/// What a processor makes of these files, in a session with as many relationships as its kind names, and beside it what
/// stays of them. The bytes that it is given may be taken out.
pub fn work_on<P: Acts>(
    alloc: Global,
    processor: &P,
    relationships: u16,
    taken: TakenList,
    given: &mut Given,
) -> Result<(Outcome, SourceList), AllocError>
    requires relationships { relationships ≡ length (relationships_of (P.kind processor.now)) }
    requires handed { MayBeHandedTo (P.kind processor.now) taken given.old }
    ensures outcome { IfOk result (λ done. IsOutcomeOf (P.kind processor.now) taken given.old done.0) }
    ensures sound { IfOk result (λ done. IsOutcome relationships (sizes_of (map taken_source taken)) done.0) }
    ensures sources { IfOk result (λ done. done.1 ≡ map taken_source taken) }
    ensures given { KeepsGiven given.old given.new }
{
    let mut session = Session::new(alloc, relationships, taken)?;
    processor.act(alloc, &mut session, given)?;
    finished(session)
}

/// The outcome of a session that can be finished.
fn finished(session: Session) -> Result<(Outcome, SourceList), AllocError>
    requires { refusal_of_finish session ≡ None }
    ensures outcome { IfOk result (λ done. done.0 ≡ outcome_of session) }
    ensures sound { IfOk result (λ done. IsOutcome session.relationships (sizes_of session.sources) done.0) }
    ensures sources { IfOk result (λ done. done.1 ≡ session.sources) }
{
    let (session, error) = match session.finish_with_sources() {
        Ok(done) => return Ok(done),
        Err(refused) => refused,
    };
    session.rollback();
    match error {
        SessionError::Memory => Err(AllocError),
        _ => unreachable!(),
    }
}
