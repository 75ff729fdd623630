//! Writing a snapshot.
ghost use Rattle.std.specs.Prelude.{◌≡◌, ℕ, ◌+◌, ◌≤◌, List, [], ◌++◌, length, All, IsTrue, OnOk, IsErr, IsErrOf};
ghost use Rattle.std.specs.List.{flat_map};
ghost use Rattle.disk_trait.specs.Files.{At, Overwritten};
ghost use Rattle.disk_trait.specs.Images.{IsOnly};
ghost use Rattle.disk_trait.specs.Faults.{CountsFaults};
ghost use Rattle.disk_trait.specs.declared.damage.Damage.{Damage as TheDamage};
ghost use Rattle.flowfile_record.specs.Stored.{kept_of};
ghost use Rattle.record_codec.specs.ActiveFile.{IsActiveFile};
ghost use Rattle.record_codec.specs.Snapshot.{IsBatch};
ghost use Rattle.record_codec.specs.StoreHead.{head, head_of};
ghost use Rattle.checkpoint_store.specs.Consistent.{IsConsistentIn};
ghost use Rattle.checkpoint_store.specs.Output.{HasFreeRoom};
ghost use Rattle.checkpoint_store.specs.Put.{IsPut, Within};
ghost use Rattle.checkpoint_store.specs.Snapshot.{snapshot, snapshot_file, file_block, batch_block};

use crate::output::Output;
use block_file::BlockError;
use disk_trait::{Disk, Failed, FileKind, FileName};
use flowfile_record::{ActiveList, BatchList, Stored};
use std::alloc::Global;

/// Writes the snapshot of this number in a version over what stands in its file, in pieces of about 1 MiB, and syncs
/// the disk. What stands behind the snapshot's End doesn't matter. Memory is taken before the first call of the disk.
pub fn write<D: Disk>(
    alloc: Global,
    disk: &mut D,
    number: u64,
    version: u8,
    state: &Stored,
) -> Result<(), BlockError>
    requires { IsConsistentIn version (kept_of state.now) }
    // The file begins with the snapshot, and what stood behind it there and in other files is as it was.
    ensures written { OnOk result (IsTrue D.tells
        → At (snapshot_file number) (Overwritten 0 (snapshot version (kept_of state.now))) (D.held disk.old)
        (D.held disk.new)) }
    // Each image is that.
    ensures synced { OnOk result (IsOnly (D.held disk.new) (D.images disk.new (D.moment disk.new))) }
    // A stop within the call leaves all as it was but for the bytes that the snapshot has.
    ensures images { Within D.moment D.images (snapshot_file number) disk.old disk.new
        (length (snapshot version (kept_of state.now))) }
    ensures spared { IsErrOf result BlockError.Memory → disk.new ≡ disk.old }
    ensures kinds { (damage : TheDamage) → IsErrOf result (BlockError.Damaged damage) → ⊥ }
    ensures cause { CountsFaults (D.faults disk.old) (D.faults disk.new) (IsErrOf result BlockError.Disk) }
{
    let file = FileName {
        kind: FileKind::Snapshot,
        number,
    };
    let mut out = Output::new(alloc, file, version, state)?;
    write_blocks(disk, version, state, &mut out)?;
    disk.sync()?;
    Ok(())
}

// Writes the blocks of a snapshot, of which none is put yet.
fn write_blocks<D: Disk>(
    disk: &mut D,
    version: u8,
    state: &Stored,
    out: &mut Output,
) -> Result<(), Failed>
    requires state { IsConsistentIn version (kept_of state.now) }
    requires room { HasFreeRoom out.old }
    requires head { length (head (head_of version state.now)) ≤ out.old.longest }
    requires empty { (out.old.offset ≡ 0) × (out.old.piece.items ≡ []) }
    ensures written { OnOk result (IsTrue D.tells
        → At out.old.file (Overwritten 0 (snapshot version (kept_of state.now))) (D.held disk.old)
        (D.held disk.new)) }
    ensures images { Within D.moment D.images out.old.file disk.old disk.new
        (length (snapshot version (kept_of state.now))) }
    ensures cause { CountsFaults (D.faults disk.old) (D.faults disk.new) (IsErr result) }
{
    out.put_head(version, state);
    out.write_full(disk)?;
    write_files(disk, &state.files, out)?;
    write_batches(disk, &state.batches, out)?;
    out.put_end(1 + state.files.len() + state.batches.len());
    out.write_piece(disk)?;
    Ok(())
}

// Writes the blocks of files behind what is put.
fn write_files<D: Disk>(disk: &mut D, files: &ActiveList, out: &mut Output) -> Result<(), Failed>
    requires files { All IsActiveFile files.now.items }
    requires room { HasFreeRoom out.old }
    requires reaches { IsTrue D.tells → out.old.offset ≤ length (D.held disk.old out.old.file) }
    ensures room { OnOk result (HasFreeRoom out.new) }
    ensures reaches { OnOk result (IsTrue D.tells → out.new.offset ≤ length (D.held disk.new out.new.file)) }
    ensures put { OnOk result ((start : D) (bytes : List ℕ)
        → IsPut D.tells D.held D.moment D.images out.old.file start disk.old out.old.offset out.old.piece.items bytes
        → IsPut D.tells D.held D.moment D.images out.old.file start disk.new out.new.offset out.new.piece.items
        (bytes ++ flat_map file_block files.now.items)) }
    ensures left { (start : D) (bytes : List ℕ)
        → IsPut D.tells D.held D.moment D.images out.old.file start disk.old out.old.offset out.old.piece.items bytes
        → Within D.moment D.images out.old.file start disk.new
        (length (bytes ++ flat_map file_block files.now.items)) }
    ensures same { (out.new.file ≡ out.old.file) × (out.new.longest ≡ out.old.longest) }
    ensures cause { CountsFaults (D.faults disk.old) (D.faults disk.new) (IsErr result) }
{
    for active in files.iter() {
        out.put_file(active);
        out.write_full(disk)?;
    }
    Ok(())
}

// Writes the blocks of batches behind what is put.
fn write_batches<D: Disk>(disk: &mut D, batches: &BatchList, out: &mut Output) -> Result<(), Failed>
    requires batches { All IsBatch batches.now.items }
    requires room { HasFreeRoom out.old }
    requires reaches { IsTrue D.tells → out.old.offset ≤ length (D.held disk.old out.old.file) }
    ensures room { OnOk result (HasFreeRoom out.new) }
    ensures reaches { OnOk result (IsTrue D.tells → out.new.offset ≤ length (D.held disk.new out.new.file)) }
    ensures put { OnOk result ((start : D) (bytes : List ℕ)
        → IsPut D.tells D.held D.moment D.images out.old.file start disk.old out.old.offset out.old.piece.items bytes
        → IsPut D.tells D.held D.moment D.images out.old.file start disk.new out.new.offset out.new.piece.items
        (bytes ++ flat_map batch_block batches.now.items)) }
    ensures left { (start : D) (bytes : List ℕ)
        → IsPut D.tells D.held D.moment D.images out.old.file start disk.old out.old.offset out.old.piece.items bytes
        → Within D.moment D.images out.old.file start disk.new
        (length (bytes ++ flat_map batch_block batches.now.items)) }
    ensures same { (out.new.file ≡ out.old.file) × (out.new.longest ≡ out.old.longest) }
    ensures cause { CountsFaults (D.faults disk.old) (D.faults disk.new) (IsErr result) }
{
    for batch in batches.iter() {
        out.put_batch(batch);
        out.write_full(disk)?;
    }
    Ok(())
}
