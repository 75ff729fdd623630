//! All events of a store, a few at a time.
ghost use Rattle.std.specs.Prelude.{◌≤◌, ◌<◌, IsErrOf, IsTrue};
ghost use Rattle.disk_trait.specs.Faults.{CountsFaults};
ghost use Rattle.disk_trait.specs.Images.{Stays};
ghost use Rattle.disk_trait.specs.declared.damage.Damage.{Damage};
ghost use Rattle.store_core.specs.Seen.{IsSeenOn};
ghost use Rattle.flow_query.specs.Asked.{AnswersQuery};
ghost use Rattle.flow_query.specs.declared.asking.Query.TheVariants as query;

use crate::QueryError;
use crate::lines::write_events;
use crate::seen::{last_event, store_of};
use disk_trait::Disk;
use std::alloc::Global;
use store_core::Seen;
use world_io::Sink;

/// How many events are in memory at a time, where no more of them are needed.
pub(crate) const EVENTS_AT_A_TIME: u64 = 256;

/// Writes the line of each event, by their numbers.
pub(crate) fn show_events<D: Disk, S: Sink>(
    alloc: Global,
    seen: &Seen,
    disk: &mut D,
    sink: &mut S,
) -> Result<(), QueryError>
    ensures printed { AnswersQuery D.tells S.tells (D.held disk.old) seen.now query.Events (S.written sink.old)
        (S.written sink.new) result }
    ensures present { IsErrOf result QueryError.Absent → ⊥ }
    ensures undamaged { (damage : Damage) → IsErrOf result (QueryError.Damaged damage) → IsTrue D.tells
        → IsSeenOn (D.held disk.old) seen.now → ⊥ }
    ensures stays { Stays D.held D.moment D.images disk.old disk.new }
    ensures disk { CountsFaults (D.faults disk.old) (D.faults disk.new) (IsErrOf result QueryError.Disk) }
    ensures sink { CountsFaults (S.faults sink.old) (S.faults sink.new) (IsErrOf result QueryError.Sink) }
{
    let store = store_of(seen);
    let last = last_event(seen);
    let mut shown = 0;
    while shown < last {
        let to = next_stop(shown, last);
        let events = seen.events_between(alloc, disk, shown + 1, to)?;
        write_events(sink, store, &events)?;
        shown = to;
    }
    Ok(())
}

/// The number of the event up to which events are read next.
pub(crate) fn next_stop(shown: u64, last: u64) -> u64
    requires { shown < last }
    ensures more { shown < result }
    ensures within { result ≤ last }
{
    if last - shown < EVENTS_AT_A_TIME {
        return last;
    }
    shown + EVENTS_AT_A_TIME
}
