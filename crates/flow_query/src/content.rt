//! The content of a file that stands in a queue.
ghost use Rattle.std.specs.Prelude.{◌≡◌, IfSome, IfNone, IsErrOf, IsTrue};
ghost use Rattle.disk_trait.specs.Faults.{CountsFaults};
ghost use Rattle.disk_trait.specs.Images.{Stays};
ghost use Rattle.disk_trait.specs.declared.damage.Damage.{Damage};
ghost use Rattle.flowfile_record.specs.Stored.{kept_of};
ghost use Rattle.store_core.specs.Seen.{IsSeenOn, kept_seen};
ghost use Rattle.flow_query.specs.Asked.{AnswersQuery, IsRightOnAbsence};
ghost use Rattle.flow_query.specs.Parts.{IsFileOfId, HasNoFile};
ghost use Rattle.flow_query.specs.declared.asking.Query.TheVariants as query;

use crate::QueryError;
use disk_trait::Disk;
use flow_report::write_bytes;
use flowfile_record::{Stored, uuid_of};
use std::alloc::Global;
use store_core::Seen;
use uuid::Uuid;
use world_io::Sink;

/// Writes the bytes of the file of an identifier.
pub(crate) fn show_content<D: Disk, S: Sink>(
    alloc: Global,
    seen: &Seen,
    id: Uuid,
    disk: &mut D,
    sink: &mut S,
) -> Result<(), QueryError>
    ensures printed { AnswersQuery D.tells S.tells (D.held disk.old) seen.now (query.Content id) (S.written sink.old)
        (S.written sink.new) result }
    ensures absence { IsRightOnAbsence D.tells (D.held disk.old) seen.now (query.Content id) result }
    ensures undamaged { (damage : Damage) → IsErrOf result (QueryError.Damaged damage) → IsTrue D.tells
        → IsSeenOn (D.held disk.old) seen.now → ⊥ }
    ensures stays { Stays D.held D.moment D.images disk.old disk.new }
    ensures disk { CountsFaults (D.faults disk.old) (D.faults disk.new) (IsErrOf result QueryError.Disk) }
    ensures sink { CountsFaults (S.faults sink.old) (S.faults sink.new) (IsErrOf result QueryError.Sink) }
{
    let Some(number) = find_file(seen, id) else {
        return Err(QueryError::Absent);
    };
    let Some(bytes) = seen.content(alloc, disk, number)? else {
        unreachable!()
    };
    write_bytes(sink, bytes.as_slice())?;
    Ok(())
}

// The number of the live file of an identifier.
fn find_file(seen: &Seen, id: Uuid) -> Option<u64>
    ensures found { IfSome result (IsFileOfId id (kept_seen seen.now)) }
    ensures none { IfNone result (HasNoFile id (kept_seen seen.now)) }
{
    match seen.state() {
        Some(stored) => find_live(stored, id),
        None => None,
    }
}

fn find_live(stored: &Stored, id: Uuid) -> Option<u64>
    ensures found { IfSome result (IsFileOfId id (kept_of stored.now)) }
    ensures none { IfNone result (HasNoFile id (kept_of stored.now)) }
{
    for active in stored.files.iter() {
        if uuid_of(stored.store, active.file.number) == id {
            return Some(active.file.number);
        }
    }
    None
}
