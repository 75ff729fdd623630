//! A file that events name, by its identifier.
ghost use Rattle.std.specs.Prelude.{◌++◌, List};
ghost use Rattle.flowfile_record.specs.declared.event.Event.{Event};
ghost use Rattle.machine_model.specs.Files.{is_number_among};
ghost use Rattle.machine_model.specs.Lineage.{is_named, names};
ghost use Rattle.flow_query.specs.Parts.{IsFoundBy};

use flowfile_record::{Event, uuid_of};
use uuid::Uuid;

/// The file of an identifier that was found among earlier events, or is named by these.
pub(crate) fn find_behind(found: Option<u64>, store: u64, id: Uuid, events: &[Event]) -> Option<u64>
    ensures { (earlier : List Event) → IsFoundBy store id (is_named earlier) found
        → IsFoundBy store id (is_named (earlier ++ events.now)) result }
{
    match found {
        Some(file) => Some(file),
        None => find_named(store, id, events),
    }
}

fn find_named(store: u64, id: Uuid, events: &[Event]) -> Option<u64>
    ensures { IsFoundBy store id (is_named events.now) result }
{
    for event in events {
        let found = find_in_event(store, id, event);
        if found.is_some() {
            return found;
        }
    }
    None
}

fn find_in_event(store: u64, id: Uuid, event: &Event) -> Option<u64>
    ensures { IsFoundBy store id (λ file. names file event.now) result }
{
    if uuid_of(store, event.file) == id {
        return Some(event.file);
    }
    match find_in(store, id, event.parents.as_slice()) {
        Some(file) => Some(file),
        None => find_in(store, id, event.children.as_slice()),
    }
}

fn find_in(store: u64, id: Uuid, files: &[u64]) -> Option<u64>
    ensures { IsFoundBy store id (is_number_among files.now) result }
{
    for file in files {
        if uuid_of(store, *file) == id {
            return Some(*file);
        }
    }
    None
}
