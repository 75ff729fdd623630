//! One call of a disk in memory: it is done and noted, or neither.
ghost use Rattle.std.specs.Prelude.{◌≡◌, ◌+◌, ◌^◌, ◌<◌, ◌≤◌, [], length, take, OnOk, OnErr, true, false};
ghost use Rattle.disk_trait.specs.declared.file_name.FileName.{FileName};
ghost use Rattle.disk_trait.specs.declared.memory.call.DiskCall.TheVariants.{Write, Cut, Sync};
ghost use Rattle.disk_trait.specs.Files.{At, Overwritten};
ghost use Rattle.disk_trait.specs.MemoryCalls.{Notes, HasSameCalls};
ghost use Rattle.disk_trait.specs.MemoryTable.{bytes_of, first_of, has_file};

use super::call_list::CallList;
use super::table::FileTable;
use super::{DiskBytes, DiskCall};
use crate::FileName;
use std::alloc::AllocError;

pub(crate) fn write_file(
    table: &mut FileTable,
    done: &mut CallList,
    moment: u64,
    file: FileName,
    at: u64,
    bytes: &[u8],
) -> Result<(), AllocError>
    requires { at ≤ length (bytes_of table.old file) }
    ensures number { file.number < 2 ^ 64 }
    ensures written { OnOk result (At file (Overwritten at bytes.now) (bytes_of table.old) (bytes_of table.new)) }
    ensures has { OnOk result (has_file table.new file ≡ true) }
    ensures noted { OnOk result (Notes done.old done.new (Write file at bytes.now) moment) }
    ensures held { OnErr result ((f : FileName) → bytes_of table.new f ≡ bytes_of table.old f) }
    ensures same { OnErr result (HasSameCalls done.old done.new) }
    ensures first { (f : FileName) → first_of table.new f ≡ first_of table.old f }
    ensures had { (f : FileName) → has_file table.new f ≡ false → has_file table.old f ≡ false }
{
    let copy = Vec::from_slice(table.alloc, bytes)?;
    done.reserve()?;
    table.write(file, at as usize, bytes)?;
    let bytes = DiskBytes::new(copy);
    done.note(DiskCall::Write { file, at, bytes }, moment);
    Ok(())
}

pub(crate) fn cut_file(
    table: &mut FileTable,
    done: &mut CallList,
    moment: u64,
    file: FileName,
    size: u64,
) -> Result<(), AllocError>
    requires { size ≤ length (bytes_of table.old file) }
    ensures number { file.number < 2 ^ 64 }
    ensures cut { OnOk result (At file (λ old new. new ≡ take size old) (bytes_of table.old) (bytes_of table.new)) }
    ensures noted { OnOk result (Notes done.old done.new (Cut file size) moment) }
    ensures held { OnErr result ((f : FileName) → bytes_of table.new f ≡ bytes_of table.old f) }
    ensures same { OnErr result (HasSameCalls done.old done.new) }
    ensures first { (f : FileName) → first_of table.new f ≡ first_of table.old f }
    ensures had { (f : FileName) → has_file table.new f ≡ has_file table.old f }
{
    done.reserve()?;
    table.cut(file, size as usize);
    done.note(DiskCall::Cut { file, size }, moment);
    Ok(())
}

pub(crate) fn note_sync(done: &mut CallList, moment: u64) -> Result<(), AllocError>
    ensures noted { OnOk result (Notes done.old done.new Sync moment) }
    ensures same { OnErr result (HasSameCalls done.old done.new) }
{
    done.reserve()?;
    done.note(DiskCall::Sync, moment);
    Ok(())
}
