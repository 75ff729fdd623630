//! A question of a store, and its answer.
ghost use Rattle.std.specs.Prelude.{◌≡◌, Ok, IsTrue, IsErrOf};
ghost use Rattle.disk_trait.specs.Faults.{CountsFaults};
ghost use Rattle.disk_trait.specs.Images.{Stays};
ghost use Rattle.disk_trait.specs.declared.damage.Damage.{Damage};
ghost use Rattle.flowfile_record.specs.Stored.{Kept};
ghost use Rattle.machine_model.specs.State.{State};
ghost use Rattle.store_core.specs.Kept.{kept_in};
ghost use Rattle.store_core.specs.Seen.{IsSeenOn, no_flow};
ghost use Rattle.store_core.specs.State.{stands_for};
ghost use Rattle.flow_query.specs.Answers.{IsQueryAnswer, IsSoundAnswer, TellsAbsence};
ghost use Rattle.flow_query.specs.Asked.{AnswersQuery, IsRightOnAbsence};

use crate::QueryError;
use crate::check::show_check;
use crate::content::show_content;
use crate::events::show_events;
use crate::lineage::show_lineage;
use crate::queues::show_queues;
use disk_trait::Disk;
use std::alloc::Global;
use store_core::{Seen, read_store};
use uuid::Uuid;
use world_io::Sink;

/// What is asked of a store.
#[derive(Clone, Copy, Debug, PartialEq, Eq)]
pub enum Query {
    /// Its connections, each with its live files by arrival.
    Queues,
    /// All that has happened, by the events' numbers.
    Events,
    /// Where the file of an identifier came from, and what became of it.
    Lineage(Uuid),
    /// The bytes of the live file of an identifier.
    Content(Uuid),
    /// Whether all of it is sound.
    Check,
}

/// Reads a store whatever its flow is, and prints what is asked. It changes the sink alone.
pub fn answer<D: Disk, S: Sink>(
    alloc: Global,
    query: Query,
    disk: &mut D,
    sink: &mut S,
) -> Result<(), QueryError>
    ensures printed { IsTrue D.tells → IsTrue S.tells → (kept : Kept) → kept_in no_flow 0 (D.held disk.old) ≡ Ok kept
        → (state : State) → stands_for no_flow 0 (D.held disk.old) ≡ Ok state
        → IsQueryAnswer query kept.connections state (S.written sink.old) (S.written sink.new) result }
    // An answer comes only of a store that is sound. A damage is the first that its files have, and nothing is printed.
    ensures sound { IsTrue D.tells → IsSoundAnswer (D.held disk.old) sink.old sink.new result }
    // .. and whatever the sink tells, an absence is told exactly where it is one.
    ensures absence { IsTrue D.tells → (state : State) → stands_for no_flow 0 (D.held disk.old) ≡ Ok state
        → TellsAbsence query state result }
    ensures stays { Stays D.held D.moment D.images disk.old disk.new }
    ensures disk { CountsFaults (D.faults disk.old) (D.faults disk.new) (IsErrOf result QueryError.Disk) }
    ensures sink { CountsFaults (S.faults sink.old) (S.faults sink.new) (IsErrOf result QueryError.Sink) }
{
    let seen = read_store(alloc, disk)?;
    show(alloc, &seen, query, disk, sink)
}

// Prints what is asked of a store that was read.
fn show<D: Disk, S: Sink>(
    alloc: Global,
    seen: &Seen,
    query: Query,
    disk: &mut D,
    sink: &mut S,
) -> Result<(), QueryError>
    ensures printed { AnswersQuery D.tells S.tells (D.held disk.old) seen.now query (S.written sink.old)
        (S.written sink.new) result }
    ensures absence { IsRightOnAbsence D.tells (D.held disk.old) seen.now query result }
    ensures undamaged { (damage : Damage) → IsErrOf result (QueryError.Damaged damage) → IsTrue D.tells
        → IsSeenOn (D.held disk.old) seen.now → ⊥ }
    ensures stays { Stays D.held D.moment D.images disk.old disk.new }
    ensures disk { CountsFaults (D.faults disk.old) (D.faults disk.new) (IsErrOf result QueryError.Disk) }
    ensures sink { CountsFaults (S.faults sink.old) (S.faults sink.new) (IsErrOf result QueryError.Sink) }
{
    match query {
        Query::Queues => show_queues(alloc, seen, sink),
        Query::Events => show_events(alloc, seen, disk, sink),
        Query::Lineage(id) => show_lineage(alloc, seen, id, disk, sink),
        Query::Content(id) => show_content(alloc, seen, id, disk, sink),
        Query::Check => show_check(seen, sink),
    }
}
