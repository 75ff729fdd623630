//! Where a file came from, what became of it, and the events that tell of it.
ghost use Rattle.std.specs.Prelude.{◌≡◌, IfOk, IfErr, IsErrOf, IsTrue};
ghost use Rattle.disk_trait.specs.Faults.{CountsFaults};
ghost use Rattle.disk_trait.specs.Images.{Stays};
ghost use Rattle.disk_trait.specs.declared.damage.Damage.{Damage};
ghost use Rattle.flowfile_record.specs.NumberedItems.{AscendsByNumber};
ghost use Rattle.machine_model.specs.Lineage.{is_named};
ghost use Rattle.prov_index.specs.Index.{event_number};
ghost use Rattle.store_core.specs.Seen.{IsSeenOn, OfTheState, kept_seen};
ghost use Rattle.flow_query.specs.Asked.{AnswersQuery, IsRightOnAbsence};
ghost use Rattle.flow_query.specs.Parts.{IsFoundBy, IsReadingError};
ghost use Rattle.flow_query.specs.declared.asking.Query.TheVariants as query;

use crate::QueryError;
use crate::events::next_stop;
use crate::found::find_behind;
use crate::seen::{last_event, store_of};
use crate::told::{add_events, tell};
use disk_trait::Disk;
use prov_index::Index;
use std::alloc::Global;
use std::marker::Brand;
use std::sync::ledger::Blank;
use store_core::Seen;
use uuid::Uuid;
use world_io::Sink;

/// Writes the lineage of the file of an identifier.
pub(crate) fn show_lineage<D: Disk, S: Sink>(
    alloc: Global,
    seen: &Seen,
    id: Uuid,
    disk: &mut D,
    sink: &mut S,
) -> Result<(), QueryError>
    ensures printed { AnswersQuery D.tells S.tells (D.held disk.old) seen.now (query.Lineage id) (S.written sink.old)
        (S.written sink.new) result }
    ensures absence { IsRightOnAbsence D.tells (D.held disk.old) seen.now (query.Lineage id) result }
    ensures undamaged { (damage : Damage) → IsErrOf result (QueryError.Damaged damage) → IsTrue D.tells
        → IsSeenOn (D.held disk.old) seen.now → ⊥ }
    ensures stays { Stays D.held D.moment D.images disk.old disk.new }
    ensures disk { CountsFaults (D.faults disk.old) (D.faults disk.new) (IsErrOf result QueryError.Disk) }
    ensures sink { CountsFaults (S.faults sink.old) (S.faults sink.new) (IsErrOf result QueryError.Sink) }
{
    let named = read_events(alloc, seen, id, disk)?;
    let Some(file) = named.file else {
        return Err(QueryError::Absent);
    };
    tell::<Brand, S>(
        Blank::new(1),
        alloc,
        store_of(seen),
        &named.events,
        file,
        sink,
    )
}

/// The events of a store, and a file that they name and that has the identifier that was asked for.
#[derive(Drop)]
struct Named {
    events: Index,
    file: Option<u64>,
}

// Reads all events, a few at a time, and looks among them for the file of an identifier.
fn read_events<D: Disk>(
    alloc: Global,
    seen: &Seen,
    id: Uuid,
    disk: &mut D,
) -> Result<Named, QueryError>
    ensures events { IfOk result (λ named. OfTheState D.tells (D.held disk.old) seen.now
        (λ state. named.events ≡ state.events)) }
    ensures ascends { IfOk result (λ named. AscendsByNumber event_number named.events) }
    ensures file { IfOk result (λ named. IsFoundBy (kept_seen seen.now).store id (is_named named.events) named.file) }
    ensures undamaged { (damage : Damage) → IsErrOf result (QueryError.Damaged damage) → IsTrue D.tells
        → IsSeenOn (D.held disk.old) seen.now → ⊥ }
    ensures refusal { IfErr result IsReadingError }
    ensures stays { Stays D.held D.moment D.images disk.old disk.new }
    ensures disk { CountsFaults (D.faults disk.old) (D.faults disk.new) (IsErrOf result QueryError.Disk) }
{
    let store = store_of(seen);
    let last = last_event(seen);
    let mut index = Index::new(alloc);
    let mut file = None;
    let mut shown = 0;
    while shown < last {
        let to = next_stop(shown, last);
        let events = seen.events_between(alloc, disk, shown + 1, to)?;
        file = find_behind(file, store, id, &events);
        add_events(&mut index, events)?;
        shown = to;
    }
    Ok(Named {
        events: index,
        file,
    })
}
