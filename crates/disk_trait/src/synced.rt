//! A change of one file and the sync behind it.
ghost use Rattle.std.specs.Prelude.{◌≡◌, ◌+◌, ◌^◌, ◌<◌, ◌≤◌, length, take, IsTrue, OnOk, IsErr};
ghost use Rattle.disk_trait.specs.Files.{At, Overwritten, Torn, Shortened};
ghost use Rattle.disk_trait.specs.Images.{After, Since, IsOnly, calls_later};
ghost use Rattle.disk_trait.specs.Faults.{CountsFaults};

use crate::{Disk, Failed, FileName};

/// Writes over a file and syncs the disk: a write and a sync.
pub fn write_synced<D: Disk>(
    disk: &mut D,
    file: FileName,
    at: u64,
    bytes: &[u8],
) -> Result<(), Failed>
    requires { IsTrue D.tells → at ≤ length (D.held disk.old file) }
    ensures synced { OnOk result (IsOnly (D.held disk.new) (D.images disk.new (D.moment disk.new))) }
    ensures written { OnOk result (IsTrue D.tells
        → At file (Overwritten at bytes.now) (D.held disk.old) (D.held disk.new)) }
    ensures images { Since D.moment D.images disk.old disk.new
        (After (At file (Torn at (length bytes.now))) (D.images disk.old (D.moment disk.old))) }
    ensures fits { OnOk result (at + length bytes.now < 2 ^ 64) }
    ensures calls { OnOk result (D.moment disk.new ≡ calls_later 2 (D.moment disk.old)) }
    ensures cause { CountsFaults (D.faults disk.old) (D.faults disk.new) (IsErr result) }
{
    disk.write(file, at, bytes)?;
    disk.sync()
}

/// Cuts a file and syncs the disk: a cut and a sync.
pub fn cut_synced<D: Disk>(disk: &mut D, file: FileName, size: u64) -> Result<(), Failed>
    requires { IsTrue D.tells → size ≤ length (D.held disk.old file) }
    ensures synced { OnOk result (IsOnly (D.held disk.new) (D.images disk.new (D.moment disk.new))) }
    ensures cut { OnOk result (IsTrue D.tells
        → At file (λ old new. new ≡ take size old) (D.held disk.old) (D.held disk.new)) }
    ensures images { Since D.moment D.images disk.old disk.new
        (After (At file (Shortened size)) (D.images disk.old (D.moment disk.old))) }
    ensures calls { OnOk result (D.moment disk.new ≡ calls_later 2 (D.moment disk.old)) }
    ensures cause { CountsFaults (D.faults disk.old) (D.faults disk.new) (IsErr result) }
{
    disk.cut(file, size)?;
    disk.sync()
}
