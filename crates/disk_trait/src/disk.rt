//! The contract of a disk: what its calls do to what it holds, and to what a stop may leave.
ghost use Rattle.std.specs.Prelude.{◌≡◌, ℕ, ◌+◌, ◌-◌, ◌^◌, ◌<◌, ◌≤◌, ◌↔◌, Bool, List, [], length, take, drop, All, Contains, IsTrue, IfOk, OnOk, OnErr, IsErr, IsErrOf};
ghost use Rattle.std.specs.List.Sorted.{IsStrictlyIncreasing};
ghost use Rattle.disk_trait.specs.Files.{Files, At, Overwritten, Torn, Shortened, named};
ghost use Rattle.disk_trait.specs.Images.{After, Since, IsOnly, Stays, next_moment};
ghost use Rattle.disk_trait.specs.Faults.{CountsFaults};
ghost use Rattle.disk_trait.specs.declared.file_name.FileName.{FileName as TheName};

use crate::{DiskError, Failed, FileKind, FileName};

/// Files by name, on a device that may stop at any moment.
///
/// Since the last `sync` that answered Ok each written range and all bytes at or past a cut may hold
/// any bytes in an image; all other bytes stay. A file of an image is never longer than the greatest
/// length that the file had since that sync, and never shorter than the least one.
pub trait Disk: Send {
    /// Whether clauses may speak of what this type of disk holds. An adapter over a real folder can't
    /// tell, and has no images.
    ghost tells: { Bool };

    /// What a read gives now, where the disk tells.
    ghost held: { Self → Files };

    /// What a stop at a moment up to now may leave.
    ghost images: { Self → ℕ → Files → Type 0 };

    /// How many calls of `write`, `cut` and `sync` there were, up to 2^64 - 1.
    ghost moment: { Self → ℕ };

    /// How often the disk has failed, up to 2^64 - 1. It never falls.
    ghost faults: { Self → ℕ };

    /// Fills an empty list with the numbers of the files of that kind that aren't empty, ascending.
    fn files(&mut self, kind: FileKind, list: &mut Vec<u64>) -> Result<(), DiskError>
        requires { list.old.items ≡ [] }
        ensures ascending { IsStrictlyIncreasing list.new.items }
        ensures below { All (λ n. n < 2 ^ 64) list.new.items }
        ensures listed { OnOk result (IsTrue tells → (n : ℕ) → n < 2 ^ 64
            → Contains list.new.items n ↔ (0 < length (held self.old (named kind n)))) }
        ensures emptied { OnErr result (list.new.items ≡ []) }
        ensures stays { Stays held moment images self.old self.new }
        ensures cause { CountsFaults (faults self.old) (faults self.new) (IsErrOf result DiskError.Failed) };

    /// The file's length in bytes; 0 where it is absent.
    fn size(&mut self, file: FileName) -> Result<u64, Failed>
        ensures size { IfOk result (λ size. IsTrue tells → size ≡ length (held self.old file)) }
        ensures stays { Stays held moment images self.old self.new }
        ensures cause { CountsFaults (faults self.old) (faults self.new) (IsErr result) };

    /// Fills `into` with the bytes from `at` on. After a failure `into` may hold anything.
    fn read(&mut self, file: FileName, at: u64, into: &mut [u8]) -> Result<(), Failed>
        requires { IsTrue tells → at + length into.old ≤ length (held self.old file) }
        ensures bytes { OnOk result (IsTrue tells → into.new ≡ take (length into.old) (drop at (held self.old file))) }
        ensures stays { Stays held moment images self.old self.new }
        ensures cause { CountsFaults (faults self.old) (faults self.new) (IsErr result) };

    /// Writes over what is there, and past the end. After a failure the range may hold anything.
    fn write(&mut self, file: FileName, at: u64, bytes: &[u8]) -> Result<(), Failed>
        requires { IsTrue tells → at ≤ length (held self.old file) }
        ensures written { OnOk result (IsTrue tells
            → At file (Overwritten at bytes.now) (held self.old) (held self.new)) }
        ensures torn { IsTrue tells → At file (Torn at (length bytes.now)) (held self.old) (held self.new) }
        ensures images { Since moment images self.old self.new
            (After (At file (Torn at (length bytes.now))) (images self.old (moment self.old))) }
        ensures fits { OnOk result (at + length bytes.now < 2 ^ 64) }
        ensures moment { moment self.new ≡ next_moment (moment self.old) }
        ensures last { moment self.old ≡ 2 ^ 64 - 1 → IsErr result }
        ensures cause { CountsFaults (faults self.old) (faults self.new) (IsErr result) };

    /// Cuts the file to a size of at most its own. A file cut to 0 is absent. After a failure the size
    /// lies between the two, and the bytes past the cut may be any.
    fn cut(&mut self, file: FileName, size: u64) -> Result<(), Failed>
        requires { IsTrue tells → size ≤ length (held self.old file) }
        ensures cut { OnOk result (IsTrue tells
            → At file (λ old new. new ≡ take size old) (held self.old) (held self.new)) }
        ensures shortened { IsTrue tells → At file (Shortened size) (held self.old) (held self.new) }
        ensures images { Since moment images self.old self.new
            (After (At file (Shortened size)) (images self.old (moment self.old))) }
        ensures moment { moment self.new ≡ next_moment (moment self.old) }
        ensures last { moment self.old ≡ 2 ^ 64 - 1 → IsErr result }
        ensures cause { CountsFaults (faults self.old) (faults self.new) (IsErr result) };

    /// Makes all that was written durable. After Ok a read gives what it gave before, and a stop leaves that; after a
    /// failure a read may give any of the images, and all that was pending is pending still.
    fn sync(&mut self) -> Result<(), Failed>
        ensures synced { OnOk result (IsOnly (held self.new) (images self.new (moment self.new))) }
        ensures held { OnOk result (held self.new ≡ held self.old) }
        ensures images { Since moment images self.old self.new (images self.old (moment self.old)) }
        ensures moment { moment self.new ≡ next_moment (moment self.old) }
        ensures last { moment self.old ≡ 2 ^ 64 - 1 → IsErr result }
        ensures cause { CountsFaults (faults self.old) (faults self.new) (IsErr result) };

    /// The present moment. No stop can tell it: it begins anew with each process.
    fn moment(&self) -> u64
        ensures { result ≡ moment self.now };

    /// What a read gives is one of the images.
    ghost held_is_left: { (disk : Self) → IsTrue tells → images disk (moment disk) (held disk) };

    /// A disk that doesn't tell has no images, so that no clause on images needs to ask.
    ghost left_is_told: { (disk : Self) (k : ℕ) (c : Files) → images disk k c → IsTrue tells };

    /// Nothing stands under a number that no call can name.
    ghost images_end: { (disk : Self) (k : ℕ) (c : Files) (file : TheName)
        → images disk k c → 2 ^ 64 ≤ file.number → c file ≡ [] };
}
