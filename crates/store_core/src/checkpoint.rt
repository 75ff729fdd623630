//! What is kept is written as a snapshot, a new log begins behind it, and those of before go.
//!
//! The new log becomes the current one by the write of one byte. Until then the log and the snapshot of before stand
//! for what is kept, and from then on the new ones.
ghost use Rattle.std.specs.Prelude.{◌≡◌, ◌+◌, ℕ, [], false, Some, OnOk, IfErr, IsErr, IsErrOf, IsTrue};
ghost use Rattle.disk_trait.specs.Files.{At};
ghost use Rattle.disk_trait.specs.Faults.{CountsFaults};
ghost use Rattle.disk_trait.specs.Images.{After, Since, IsOnly};
ghost use Rattle.flowfile_record.specs.Encoding.{IsNumber};
ghost use Rattle.flowfile_record.specs.Stored.{kept_of};
ghost use Rattle.record_codec.specs.Frames.{IsPassedOver};
ghost use Rattle.checkpoint_store.specs.Begun.{log_file};
ghost use Rattle.checkpoint_store.specs.Consistent.{IsConsistent};
ghost use Rattle.flowfile_wal.specs.Calls.{InEach};
ghost use Rattle.store_core.specs.Calls.{IsDiskOrMemory, KeepsMeaning, StopsOrLacksMemory};
ghost use Rattle.store_core.specs.Checkpoint.{IsOfNumber, ArePassedOver, HasTakenOver, TakesOver, Drops, AreGone, Checkpoints};
ghost use Rattle.store_core.specs.Store.{kept_by, IsKeptOn};
ghost use Rattle.store_core.specs.Touched.{TouchesOnly};

use crate::discard::cut_file;
use crate::{Store, StoreError};
use disk_trait::{Disk, Failed, FileKind, FileName, cut_synced};
use flowfile_record::Stored;
use record_codec::FORMAT_VERSION;
use std::alloc::Global;

impl Store {
    /// Writes a snapshot of what is kept, begins a log of the next number behind it, and cuts the log and the snapshot
    /// of before to nothing. Memory is taken before the first call of the disk.
    pub fn checkpoint<D: Disk>(&mut self, disk: &mut D) -> Result<(), StoreError>
        requires kept { IsKeptOn D.tells D.held D.moment D.images self.old disk.old }
        requires number { (number : ℕ) → self.old.log.number ≡ Some number → IsNumber (number + 1) }
        // The log is the next one, and has no entries. Where the disk tells, that of before is gone with its snapshot.
        ensures next { OnOk result ((number : ℕ) → self.old.log.number ≡ Some number
            → (self.new.log.number ≡ Some (number + 1)) × (self.new.entries ≡ 0)
            × (IsTrue D.tells → AreGone number (D.held disk.new))) }
        ensures state { (kept_by self.new ≡ kept_by self.old) × (self.new.slots ≡ self.old.slots)
            × (self.new.opened ≡ self.old.opened) × (self.new.events ≡ self.old.events)
            × (self.new.lot ≡ self.old.lot) }
        ensures meaning { self.old.failed ≡ false → KeepsMeaning D.moment D.images self.old disk.old disk.new }
        ensures alone { (number : ℕ) → self.old.log.number ≡ Some number → Since D.moment D.images disk.old disk.new
            (After (Checkpoints number) (D.images disk.old (D.moment disk.old))) }
        ensures kept { IsKeptOn D.tells D.held D.moment D.images self.new disk.new }
        ensures refusal { StopsOrLacksMemory result self.old self.new D.faults disk.old disk.new }
    {
        if self.has_failed {
            return Err(StoreError::MustReopen);
        }
        let number = self.log_number();
        if let Err(error) = take_over(self.alloc, disk, self.state.stored(), number + 1) {
            self.has_failed = error == StoreError::Disk;
            return Err(error);
        }
        self.log.begun(disk, FORMAT_VERSION, number + 1);
        self.entries = 0;
        let Ok(()) = drop_log(disk, number) else {
            self.has_failed = true;
            return Err(StoreError::Disk);
        };
        Ok(())
    }
}

// Writes the snapshot of this number, and begins its log, which becomes the current one.
fn take_over<D: Disk>(
    alloc: Global,
    disk: &mut D,
    stored: &Stored,
    number: u64,
) -> Result<(), StoreError>
    requires number { IsNumber number }
    requires consistent { IsConsistent (kept_of stored.now) }
    requires passed { InEach (D.images disk.old (D.moment disk.old)) (ArePassedOver number) }
    ensures images { Since D.moment D.images disk.old disk.new
        (After (TakesOver number (kept_of stored.now)) (D.images disk.old (D.moment disk.old))) }
    ensures taken { OnOk result
        (InEach (D.images disk.new (D.moment disk.new)) (HasTakenOver number (kept_of stored.now))) }
    ensures held { OnOk result (IsTrue D.tells → TouchesOnly (IsOfNumber number) (D.held disk.old) (D.held disk.new)) }
    ensures spared { IsErrOf result StoreError.Memory → disk.new ≡ disk.old }
    ensures refusal { IfErr result IsDiskOrMemory }
    ensures cause { CountsFaults (D.faults disk.old) (D.faults disk.new) (IsErrOf result StoreError.Disk) }
{
    checkpoint_store::write(alloc, disk, number, FORMAT_VERSION, stored)?;
    empty_log(disk, number)?;
    checkpoint_store::begin(disk, number, FORMAT_VERSION)?;
    Ok(())
}

// Empties a log that is passed over. It is cut to one byte first: within a cut to nothing its first byte might become
// an open gate.
fn empty_log<D: Disk>(disk: &mut D, number: u64) -> Result<(), Failed>
    requires synced { IsOnly (D.held disk.old) (D.images disk.old (D.moment disk.old)) }
    ensures emptied { OnOk result (IsTrue D.tells
        → At (log_file number) (λ old new. new ≡ []) (D.held disk.old) (D.held disk.new)) }
    ensures synced { OnOk result (IsOnly (D.held disk.new) (D.images disk.new (D.moment disk.new))) }
    ensures images { Since D.moment D.images disk.old disk.new
        (After (At (log_file number) (λ old new. IsPassedOver old → IsPassedOver new))
        (D.images disk.old (D.moment disk.old))) }
    ensures cause { CountsFaults (D.faults disk.old) (D.faults disk.new) (IsErr result) }
{
    let file = FileName {
        kind: FileKind::Log,
        number,
    };
    if disk.size(file)? == 0 {
        return Ok(());
    }
    cut_synced(disk, file, 1)?;
    cut_synced(disk, file, 0)
}

// Cuts a log and its snapshot to nothing.
fn drop_log<D: Disk>(disk: &mut D, number: u64) -> Result<(), Failed>
    ensures images { Since D.moment D.images disk.old disk.new
        (After (Drops number) (D.images disk.old (D.moment disk.old))) }
    ensures held { OnOk result (IsTrue D.tells → Drops number (D.held disk.old) (D.held disk.new)) }
    ensures gone { OnOk result (IsTrue D.tells → AreGone number (D.held disk.new)) }
    ensures cause { CountsFaults (D.faults disk.old) (D.faults disk.new) (IsErr result) }
{
    let log = FileName {
        kind: FileKind::Log,
        number,
    };
    cut_file(disk, log, 0)?;
    let snapshot = FileName {
        kind: FileKind::Snapshot,
        number,
    };
    cut_file(disk, snapshot, 0)?;
    Ok(())
}
