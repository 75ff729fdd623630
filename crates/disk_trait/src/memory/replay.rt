//! A file of a disk in memory, made again from the calls that made it.
ghost use Rattle.std.specs.Prelude.{◌≡◌, ℕ, ◌<◌, ◌≤◌, [], length, take, true, IfOk, OnOk, slice_index_or};
ghost use Rattle.disk_trait.specs.Memory.{durable, after_call, state_after, fits};
ghost use Rattle.disk_trait.specs.MemoryStop.{IsSyncedCount};
ghost use Rattle.disk_trait.specs.declared.memory.call.DiskCall.TheVariants.{Sync};

use super::DiskCall;
use super::table::overwrite;
use crate::FileName;
use std::alloc::{AllocError, Global};

/// How many calls there are up to the last sync.
pub(crate) fn synced_count(calls: &[DiskCall]) -> usize
    ensures within { result ≤ length calls.now }
    ensures synced { IsSyncedCount calls.now result }
{
    let mut count = 0;
    for (i, call) in calls.iter().enumerate() {
        if let DiskCall::Sync = call {
            count = i + 1;
        }
    }
    count
}

/// The bytes of a file that began like this, after these calls.
pub(crate) fn replay(
    alloc: Global,
    first: &[u8],
    name: FileName,
    calls: &[DiskCall],
) -> Result<Vec<u8>, AllocError>
    requires { (n : ℕ) → n < length calls.now
        → fits name (slice_index_or calls.now n Sync) (state_after name (durable first.now) (take n calls.now)) ≡ true }
    ensures { IfOk result (λ bytes. bytes.items ≡ (state_after name (durable first.now) calls.now).held) }
{
    let mut bytes = Vec::from_slice(alloc, first)?;
    for call in calls {
        apply(&mut bytes, name, call)?;
    }
    Ok(bytes)
}

fn apply(bytes: &mut Vec<u8>, name: FileName, call: &DiskCall) -> Result<(), AllocError>
    requires { fits name call.now (durable bytes.old.items) ≡ true }
    ensures { OnOk result (bytes.new.items ≡ (after_call name call.now (durable bytes.old.items)).held) }
{
    match call {
        DiskCall::Write {
            file,
            at,
            bytes: written,
        } => {
            if *file == name {
                overwrite(bytes, *at as usize, written.as_slice())?;
            }
        }
        DiskCall::Cut { file, size } => {
            if *file == name {
                bytes.truncate(*size as usize);
            }
        }
        DiskCall::Sync => {}
    }
    Ok(())
}
