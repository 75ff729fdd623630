//! The end of a log is made whole again, whatever a stop left behind its last gate.
ghost use Rattle.std.specs.Prelude.{◌≡◌, ◌+◌, ◌^◌, ◌<◌, ◌≤◌, true, length, slice_index, IsTrue, IfOk, OnOk, IsErr};
ghost use Rattle.disk_trait.specs.Images.{After, Since, IsOnly, Stays};
ghost use Rattle.disk_trait.specs.Faults.{CountsFaults};
ghost use Rattle.flowfile_wal.specs.Current.{log_bytes};
ghost use Rattle.flowfile_wal.specs.Steps.{IsLogAt, EndsClosed, HasClosedGate, KeepsLog};

use crate::current::read_gate;
use disk_trait::{Disk, Failed, FileKind, FileName, cut_synced, write_synced};
use record_codec::CLOSED_GATE;

/// Cuts what stands behind the last gate of a log of this size, and closes the gate.
pub fn mend_log<D: Disk>(disk: &mut D, number: u64, end: u64) -> Result<(), Failed>
    requires synced { IsOnly (D.held disk.old) (D.images disk.old (D.moment disk.old)) }
    requires log { IsTrue D.tells → IsLogAt number end (log_bytes (D.held disk.old) number) }
    ensures images { Since D.moment D.images disk.old disk.new
        (After (KeepsLog number) (D.images disk.old (D.moment disk.old))) }
    ensures closed { OnOk result (IsTrue D.tells → EndsClosed end (log_bytes (D.held disk.new) number)) }
    ensures synced { OnOk result (IsOnly (D.held disk.new) (D.images disk.new (D.moment disk.new))) }
    ensures room { OnOk result (end + 1 < 2 ^ 64) }
    ensures cause { CountsFaults (D.faults disk.old) (D.faults disk.new) (IsErr result) }
{
    let file = FileName {
        kind: FileKind::Log,
        number,
    };
    let size = disk.size(file)?;
    cut_tail(disk, number, end, size)?;
    let closed = is_closed(disk, file, end, size)?;
    close_gate(disk, number, end, closed)
}

// Cuts what stands behind the last gate of a log of this size.
fn cut_tail<D: Disk>(disk: &mut D, number: u64, end: u64, size: u64) -> Result<(), Failed>
    requires synced { IsOnly (D.held disk.old) (D.images disk.old (D.moment disk.old)) }
    requires log { IsTrue D.tells → IsLogAt number end (log_bytes (D.held disk.old) number) }
    requires size { IsTrue D.tells → size ≡ length (log_bytes (D.held disk.old) number) }
    ensures images { Since D.moment D.images disk.old disk.new
        (After (KeepsLog number) (D.images disk.old (D.moment disk.old))) }
    ensures log { OnOk result (IsTrue D.tells → IsLogAt number end (log_bytes (D.held disk.new) number)) }
    ensures short { OnOk result (IsTrue D.tells → length (log_bytes (D.held disk.new) number) ≤ end + 1) }
    ensures there { OnOk result (IsTrue D.tells → end < size → end < length (log_bytes (D.held disk.new) number)) }
    ensures synced { OnOk result (IsOnly (D.held disk.new) (D.images disk.new (D.moment disk.new))) }
    ensures cause { CountsFaults (D.faults disk.old) (D.faults disk.new) (IsErr result) }
{
    let file = FileName {
        kind: FileKind::Log,
        number,
    };
    if size > end && size - end > 1 {
        cut_synced(disk, file, end + 1)?;
    }
    Ok(())
}

// Whether a closed gate stands there, in a file that had this size before what is behind the gate was cut.
fn is_closed<D: Disk>(disk: &mut D, file: FileName, end: u64, size: u64) -> Result<bool, Failed>
    requires { IsTrue D.tells → end < size → end < length (D.held disk.old file) }
    ensures closed { IfOk result (λ closed. closed ≡ true → IsTrue D.tells → HasClosedGate end (D.held disk.old file)) }
    ensures room { IfOk result (λ closed. closed ≡ true → end + 1 < 2 ^ 64) }
    ensures stays { Stays D.held D.moment D.images disk.old disk.new }
    ensures cause { CountsFaults (D.faults disk.old) (D.faults disk.new) (IsErr result) }
{
    if size <= end {
        return Ok(false);
    }
    let gate = read_gate(disk, file, end)?;
    Ok(gate == CLOSED_GATE)
}

// Writes a closed gate where nothing stands behind it, unless one stands there.
fn close_gate<D: Disk>(disk: &mut D, number: u64, end: u64, closed: bool) -> Result<(), Failed>
    requires synced { IsOnly (D.held disk.old) (D.images disk.old (D.moment disk.old)) }
    requires log { IsTrue D.tells → IsLogAt number end (log_bytes (D.held disk.old) number) }
    requires short { IsTrue D.tells → length (log_bytes (D.held disk.old) number) ≤ end + 1 }
    requires closed { closed ≡ true → IsTrue D.tells → HasClosedGate end (log_bytes (D.held disk.old) number) }
    requires room { closed ≡ true → end + 1 < 2 ^ 64 }
    ensures images { Since D.moment D.images disk.old disk.new
        (After (KeepsLog number) (D.images disk.old (D.moment disk.old))) }
    ensures closed { OnOk result (IsTrue D.tells → EndsClosed end (log_bytes (D.held disk.new) number)) }
    ensures synced { OnOk result (IsOnly (D.held disk.new) (D.images disk.new (D.moment disk.new))) }
    ensures room { OnOk result (end + 1 < 2 ^ 64) }
    ensures cause { CountsFaults (D.faults disk.old) (D.faults disk.new) (IsErr result) }
{
    let file = FileName {
        kind: FileKind::Log,
        number,
    };
    if !closed {
        write_synced(disk, file, end, &[CLOSED_GATE])?;
    }
    Ok(())
}
