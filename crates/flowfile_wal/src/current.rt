//! Which log is current.
ghost use Rattle.std.specs.Prelude.{◌≡◌, ◌<◌, length, slice_index, IsTrue, IfOk, IsErr, IsErrOf};
ghost use Rattle.disk_trait.specs.Images.{Stays};
ghost use Rattle.disk_trait.specs.Faults.{CountsFaults};
ghost use Rattle.disk_trait.specs.declared.damage.Damage.{Damage as TheDamage};
ghost use Rattle.record_codec.specs.Frames.{counts};
ghost use Rattle.flowfile_wal.specs.Reads.{IsFoundIn};

use crate::LoadError;
use block_file::BlockError;
use disk_trait::{Disk, Failed, FileKind, FileName};
use record_codec::OPEN_GATE;
use std::alloc::Global;

/// The current log, and the size of its file in bytes.
#[derive(Clone, Copy, Debug, PartialEq, Eq)]
pub struct Candidate {
    pub number: u64,
    pub size: u64,
}

/// The byte at an offset of a file.
pub fn read_gate<D: Disk>(disk: &mut D, file: FileName, at: u64) -> Result<u8, Failed>
    requires { IsTrue D.tells → at < length (D.held disk.old file) }
    ensures gate { IfOk result (λ gate. IsTrue D.tells → slice_index (D.held disk.old file) at ≡ gate) }
    ensures stays { Stays D.held D.moment D.images disk.old disk.new }
    ensures cause { CountsFaults (D.faults disk.old) (D.faults disk.new) (IsErr result) }
{
    let mut gate = [0u8; 1];
    disk.read(file, at, &mut gate)?;
    Ok(gate[0])
}

// Whether a log of this size isn't passed over.
fn is_counted<D: Disk>(disk: &mut D, file: FileName, size: u64) -> Result<bool, Failed>
    requires { IsTrue D.tells → size ≡ length (D.held disk.old file) }
    ensures counted { IfOk result (λ counted. IsTrue D.tells → counted ≡ counts (D.held disk.old file)) }
    ensures stays { Stays D.held D.moment D.images disk.old disk.new }
    ensures cause { CountsFaults (D.faults disk.old) (D.faults disk.new) (IsErr result) }
{
    if size < 2 {
        return Ok(false);
    }
    let gate = read_gate(disk, file, 0)?;
    Ok(gate == OPEN_GATE)
}

/// Looks for the current log, from the greatest number down.
pub fn find_current<D: Disk>(alloc: Global, disk: &mut D) -> Result<Option<Candidate>, LoadError>
    ensures found { IfOk result (λ found. IsTrue D.tells → IsFoundIn (D.held disk.old) found) }
    ensures undamaged { (damage : TheDamage) → IsErrOf result (LoadError.Block (BlockError.Damaged damage)) → ⊥ }
    // There is no memory but for the list.
    ensures memory { IsErrOf result (LoadError.Block BlockError.Memory) → ⊥ }
    ensures stays { Stays D.held D.moment D.images disk.old disk.new }
    ensures cause { CountsFaults (D.faults disk.old) (D.faults disk.new)
        (IsErrOf result (LoadError.Block BlockError.Disk)) }
{
    let mut logs = Vec::new(alloc);
    disk.files(FileKind::Log, &mut logs)?;
    while let Some(number) = logs.pop() {
        let file = FileName {
            kind: FileKind::Log,
            number,
        };
        let size = disk.size(file)?;
        if is_counted(disk, file, size)? {
            return Ok(Some(Candidate { number, size }));
        }
    }
    Ok(None)
}
