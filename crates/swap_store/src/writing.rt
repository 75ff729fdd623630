//! Writing a batch, and dropping one.
ghost use Rattle.std.specs.Prelude.{◌≡◌, length, [], IsTrue, OnOk, IsErr, Ok};
ghost use Rattle.disk_trait.specs.Files.{At, Overwritten, Torn, Shortened};
ghost use Rattle.disk_trait.specs.Images.{After, Since, next_moment};
ghost use Rattle.disk_trait.specs.Faults.{CountsFaults};
ghost use Rattle.swap_store.specs.Batch.{swap_file, batch_bytes};
ghost use Rattle.swap_store.specs.Reading.{swapped_files_in};

use crate::FileBlocks;
use disk_trait::{Disk, Failed, FileKind, FileName};

/// Writes a batch over what stands in its swap file, by one write. What stands behind the batch's End doesn't matter. It
/// takes no memory.
pub fn write_batch<D: Disk>(disk: &mut D, batch: u64, blocks: &FileBlocks<'_>) -> Result<(), Failed>
    // The file begins with the batch, and all else is as it was.
    ensures written { OnOk result (IsTrue D.tells
        → At (swap_file batch) (Overwritten 0 (batch_bytes blocks.now)) (D.held disk.old) (D.held disk.new)) }
    ensures stands { OnOk result (IsTrue D.tells → swapped_files_in (D.held disk.new) batch ≡ Ok blocks.now) }
    ensures torn { IsTrue D.tells
        → At (swap_file batch) (Torn 0 (length (batch_bytes blocks.now))) (D.held disk.old) (D.held disk.new) }
    // A stop within the call leaves all as it was but for the bytes that the batch has.
    ensures images { Since D.moment D.images disk.old disk.new
        (After (At (swap_file batch) (Torn 0 (length (batch_bytes blocks.now))))
        (D.images disk.old (D.moment disk.old))) }
    ensures moment { D.moment disk.new ≡ next_moment (D.moment disk.old) }
    ensures cause { CountsFaults (D.faults disk.old) (D.faults disk.new) (IsErr result) }
{
    let file = FileName {
        kind: FileKind::Swap,
        number: batch,
    };
    disk.write(file, 0, blocks.bytes())?;
    Ok(())
}

/// Cuts the swap file of a batch to nothing. It takes no memory.
pub fn drop_batch<D: Disk>(disk: &mut D, batch: u64) -> Result<(), Failed>
    ensures dropped { OnOk result (IsTrue D.tells
        → At (swap_file batch) (λ old new. new ≡ []) (D.held disk.old) (D.held disk.new)) }
    ensures shortened { IsTrue D.tells → At (swap_file batch) (Shortened 0) (D.held disk.old) (D.held disk.new) }
    // A stop within the call leaves all other files as they were.
    ensures images { Since D.moment D.images disk.old disk.new
        (After (At (swap_file batch) (Shortened 0)) (D.images disk.old (D.moment disk.old))) }
    ensures moment { D.moment disk.new ≡ next_moment (D.moment disk.old) }
    ensures cause { CountsFaults (D.faults disk.old) (D.faults disk.new) (IsErr result) }
{
    let file = FileName {
        kind: FileKind::Swap,
        number: batch,
    };
    disk.cut(file, 0)?;
    Ok(())
}
