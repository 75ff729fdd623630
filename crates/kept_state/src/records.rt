//! The records of placed files.
ghost use Rattle.std.specs.Prelude.{◌≡◌, map, IfOk};
ghost use Rattle.kept_state.specs.Changes.{record_of};

use flowfile_record::{ActiveFile, Placed};
use std::alloc::{AllocError, Global};

/// The records of placed files, in their order.
pub(crate) fn records_of(alloc: Global, placed: &[Placed]) -> Result<Vec<ActiveFile>, AllocError>
    ensures { IfOk result (λ records. records.items ≡ map record_of placed.now) }
{
    let mut records = Vec::with_capacity(alloc, placed.len())?;
    for one in placed {
        records.push(record_of(one)?)?;
    }
    Ok(records)
}

// A placed file's record. Where its content will stand isn't known before it is written.
fn record_of(placed: &Placed) -> Result<ActiveFile, AllocError>
    ensures { IfOk result (λ active. active ≡ record_of placed.now) }
{
    let mut file = placed.file.copy()?;
    if !placed.fresh.is_stored() {
        file.content.slot = 0;
        file.content.offset = 0;
    }
    Ok(ActiveFile {
        connection: placed.connection,
        file,
    })
}
