//! Files that don't matter are cut to nothing.
//!
//! A log that is passed over is first cut to one byte: within a cut to nothing its first byte might become an open
//! gate.
ghost use Rattle.std.specs.Prelude.{◌≡◌, ◌≢◌, ◌⊎◌, ℕ, ◌≤◌, ◌<◌, length, true, IsTrue, OnOk, IfErr, IsErr, IsErrOf};
ghost use Rattle.disk_trait.specs.Files.{At, Shortened, named};
ghost use Rattle.disk_trait.specs.Images.{After, Since, IsOnly};
ghost use Rattle.disk_trait.specs.Faults.{CountsFaults};
ghost use Rattle.disk_trait.specs.declared.file_name.FileKind.TheVariants.{Log as LogKind};
ghost use Rattle.store_core.specs.Calls.{IsDiskOrMemory};
ghost use Rattle.store_core.specs.Discard.{spares, CutsKind, HasCut, HasNoOthers, IsAbove, Discards};

use crate::StoreError;
use disk_trait::{Disk, Failed, FileKind, FileName};
use std::alloc::Global;

/// Which files of a kind stay as they are: those up to a number, or that of a number; none, where there is no number.
#[derive(Clone, Copy)]
pub enum Spared {
    UpTo(Option<u64>),
    Only(Option<u64>),
}

impl Spared {
    fn spares(self, number: u64) -> bool
        ensures { result ≡ spares self number }
    {
        match self {
            Spared::UpTo(None) | Spared::Only(None) => false,
            Spared::UpTo(Some(last)) => number <= last,
            Spared::Only(Some(one)) => one == number,
        }
    }
}

/// Cuts all that doesn't matter beside this current log, but for claims and events. Where none is current, all but
/// these.
pub(crate) fn discard<D: Disk>(
    alloc: Global,
    disk: &mut D,
    current: Option<u64>,
) -> Result<(), StoreError>
    ensures images { Since D.moment D.images disk.old disk.new
        (After (Discards current) (D.images disk.old (D.moment disk.old))) }
    ensures others { OnOk result (IsTrue D.tells → HasNoOthers current (D.held disk.new)) }
    ensures held { OnOk result (IsTrue D.tells → Discards current (D.held disk.old) (D.held disk.new)) }
    ensures refusal { IfErr result IsDiskOrMemory }
    ensures cause { CountsFaults (D.faults disk.old) (D.faults disk.new) (IsErrOf result StoreError.Disk) }
{
    shorten_logs(alloc, disk, current)?;
    empty_files(alloc, disk, current)
}

// Cuts each log above the current one to one byte, and syncs the disk.
fn shorten_logs<D: Disk>(
    alloc: Global,
    disk: &mut D,
    current: Option<u64>,
) -> Result<(), StoreError>
    ensures images { Since D.moment D.images disk.old disk.new
        (After (Discards current) (D.images disk.old (D.moment disk.old))) }
    ensures held { OnOk result (IsTrue D.tells → Discards current (D.held disk.old) (D.held disk.new)) }
    ensures synced { OnOk result (IsOnly (D.held disk.new) (D.images disk.new (D.moment disk.new))) }
    ensures short { OnOk result (IsTrue D.tells
        → (n : ℕ) → IsAbove current n → length (D.held disk.new (named LogKind n)) ≤ 1) }
    ensures refusal { IfErr result IsDiskOrMemory }
    ensures cause { CountsFaults (D.faults disk.old) (D.faults disk.new) (IsErrOf result StoreError.Disk) }
{
    cut_kind(alloc, disk, FileKind::Log, Spared::UpTo(current), 1)?;
    disk.sync()?;
    Ok(())
}

// Empties all logs and snapshots but those of this number, and all files of batches.
fn empty_files<D: Disk>(alloc: Global, disk: &mut D, current: Option<u64>) -> Result<(), StoreError>
    requires synced { IsOnly (D.held disk.old) (D.images disk.old (D.moment disk.old)) }
    requires short { IsTrue D.tells → (n : ℕ) → IsAbove current n → length (D.held disk.old (named LogKind n)) ≤ 1 }
    ensures images { Since D.moment D.images disk.old disk.new
        (After (Discards current) (D.images disk.old (D.moment disk.old))) }
    ensures held { OnOk result (IsTrue D.tells → Discards current (D.held disk.old) (D.held disk.new)) }
    ensures others { OnOk result (IsTrue D.tells → HasNoOthers current (D.held disk.new)) }
    ensures refusal { IfErr result IsDiskOrMemory }
    ensures cause { CountsFaults (D.faults disk.old) (D.faults disk.new) (IsErrOf result StoreError.Disk) }
{
    cut_kind(alloc, disk, FileKind::Log, Spared::Only(current), 0)?;
    cut_kind(alloc, disk, FileKind::Snapshot, Spared::Only(current), 0)?;
    cut_kind(alloc, disk, FileKind::Swap, Spared::Only(None), 0)
}

// Cuts each file of a kind that isn't spared to a size, unless it is no longer.
fn cut_kind<D: Disk>(
    alloc: Global,
    disk: &mut D,
    kind: FileKind,
    spared: Spared,
    size: u64,
) -> Result<(), StoreError>
    ensures cut { OnOk result (IsTrue D.tells → HasCut kind (spares spared) size (D.held disk.old) (D.held disk.new)) }
    ensures images { Since D.moment D.images disk.old disk.new
        (After (CutsKind kind (spares spared) size) (D.images disk.old (D.moment disk.old))) }
    ensures refusal { IfErr result IsDiskOrMemory }
    ensures cause { CountsFaults (D.faults disk.old) (D.faults disk.new) (IsErrOf result StoreError.Disk) }
{
    let mut numbers = Vec::new(alloc);
    disk.files(kind, &mut numbers)?;
    for number in &numbers {
        cut_unless_spared(disk, kind, *number, spared, size)?;
    }
    Ok(())
}

// Cuts a file to a size, unless it is spared or no longer.
fn cut_unless_spared<D: Disk>(
    disk: &mut D,
    kind: FileKind,
    number: u64,
    spared: Spared,
    size: u64,
) -> Result<(), Failed>
    ensures cut { OnOk result (IsTrue D.tells
        → CutsKind kind (spares spared) size (D.held disk.old) (D.held disk.new)) }
    ensures short { OnOk result (IsTrue D.tells
        → (spares spared number ≡ true) ⊎ (length (D.held disk.new (named kind number)) ≤ size)) }
    ensures images { Since D.moment D.images disk.old disk.new
        (After (CutsKind kind (spares spared) size) (D.images disk.old (D.moment disk.old))) }
    ensures cause { CountsFaults (D.faults disk.old) (D.faults disk.new) (IsErr result) }
{
    if spared.spares(number) {
        return Ok(());
    }
    cut_file(disk, FileName { kind, number }, size)
}

// Cuts a file to a size, unless it is no longer.
pub(crate) fn cut_file<D: Disk>(disk: &mut D, file: FileName, size: u64) -> Result<(), Failed>
    ensures cut { OnOk result (IsTrue D.tells → At file (Shortened size) (D.held disk.old) (D.held disk.new)) }
    ensures short { OnOk result (IsTrue D.tells → length (D.held disk.new file) ≤ size) }
    ensures images { Since D.moment D.images disk.old disk.new
        (After (At file (Shortened size)) (D.images disk.old (D.moment disk.old))) }
    ensures cause { CountsFaults (D.faults disk.old) (D.faults disk.new) (IsErr result) }
{
    if size < disk.size(file)? {
        disk.cut(file, size)?;
    }
    Ok(())
}
