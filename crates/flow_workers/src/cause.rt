//! Why the workers of a run stop.
ghost use Rattle.std.specs.Prelude.{◌≡◌};
ghost use Rattle.flow_workers.specs.Seen.{ended_by_checkout, ended_of, stopped_by};

use engine_steps::{Checkout, EngineError};
use run_law::Ended;

/// Why the workers of a run stop.
#[derive(Clone, Copy, Debug, PartialEq, Eq)]
pub enum Cause {
    /// Nothing is left to do.
    Quiet,
    /// All that is left is held back; the full connection at this place is the first of those that hold it back.
    Blocked(u16),
    /// The engine refused a call, or its journal has no room for one more entry.
    Stopped(EngineError),
}

impl Cause {
    /// How a run ends by it.
    pub fn ended(&self) -> Ended
        ensures { result ≡ ended_of self.now }
    {
        match self {
            Cause::Quiet => Ended::Quiet,
            Cause::Blocked(connection) => Ended::Blocked(*connection),
            Cause::Stopped(error) => error.ended(),
        }
    }
}

/// A refusal stops a run.
pub(crate) fn stopped_by<A>(answer: &Result<A, EngineError>) -> Option<Cause>
    ensures { result ≡ stopped_by answer.now }
{
    match answer {
        Ok(_) => None,
        Err(error) => Some(Cause::Stopped(*error)),
    }
}

/// So does a checkout, where nothing is left to do, all of it is held back, or the journal is full.
pub(crate) fn ended_by_checkout(answer: &Result<Checkout, EngineError>) -> Option<Cause>
    ensures { result ≡ ended_by_checkout answer.now }
{
    match answer {
        Err(error) => Some(Cause::Stopped(*error)),
        Ok(Checkout::Limit(limit)) => Some(Cause::Stopped(EngineError::Limit(*limit))),
        Ok(Checkout::Blocked(connection)) => Some(Cause::Blocked(*connection)),
        Ok(Checkout::Quiet) => Some(Cause::Quiet),
        Ok(Checkout::Due | Checkout::Session(_) | Checkout::Wait { .. } | Checkout::Rest { .. }) =>
            { None }
    }
}
