//! The disk of a measurement.
ghost use Rattle.std.specs.Prelude.{◌≡◌, ◌+◌, ◌-◌, ◌^◌, ◌<◌, ◌≤◌, ⊤, false, [], length, IsTrue, OnOk, IsSome, IsErr};
ghost use Rattle.std.specs.List.Sorted.{IsStrictlyIncreasing};
ghost use Rattle.disk_trait.specs.Faults.{CountsFaults};
ghost use Rattle.disk_trait.specs.Images.{next_moment};
ghost use Rattle.bench_parts.specs.Untold.{told_by_none, left_by_none};

mod kept;

use disk_trait::{Disk, DiskError, Failed, FileKind, FileName};
use kept::Kept;
pub use kept::{CLAIM_BYTE, KeptFile};
use std::alloc::{AllocError, Global};

/// Claims whose sizes alone are kept, and files that are read. It tells nothing of them, and no call fails but one that
/// asks for what isn't kept, for want of memory, or after the last moment.
#[derive(Drop)]
pub struct BenchDisk {
    kept: Kept,
    moment: u64,
    faults: u64,
}

impl BenchDisk {
    /// Claims of these sizes, by their numbers, and files.
    pub fn new(claims: Vec<u64>, files: Vec<KeptFile>) -> BenchDisk {
        BenchDisk {
            kept: Kept { claims, files },
            moment: 0,
            faults: 0,
        }
    }

    /// One file.
    pub fn of_file(alloc: Global, name: FileName, bytes: Vec<u8>) -> Result<BenchDisk, AllocError> {
        let files = vec![in alloc; KeptFile { name, bytes }]?;
        Ok(BenchDisk::new(Vec::new(alloc), files))
    }

    // Counts a call that changes something.
    fn begin(&mut self) -> Result<(), Failed>
        ensures moment { self.new.moment ≡ next_moment self.old.moment }
        ensures later { self.old.moment ≤ self.new.moment }
        ensures last { self.old.moment ≡ 2 ^ 64 - 1 → IsErr result }
        ensures cause { CountsFaults self.old.faults self.new.faults (IsErr result) }
        ensures ok { OnOk result (self.new.faults ≡ self.old.faults) }
    {
        if self.moment == u64::MAX {
            return Err(self.fault());
        }
        self.moment += 1;
        Ok(())
    }

    // Answers a call of what is kept.
    fn answer(&mut self, answer: Option<()>) -> Result<(), Failed>
        ensures some { OnOk result (IsSome answer) }
        ensures moment { self.new.moment ≡ self.old.moment }
        ensures cause { CountsFaults self.old.faults self.new.faults (IsErr result) }
    {
        match answer {
            Some(()) => Ok(()),
            None => Err(self.fault()),
        }
    }

    fn fault(&mut self) -> Failed
        ensures moment { self.new.moment ≡ self.old.moment }
        ensures cause { CountsFaults self.old.faults self.new.faults ⊤ }
    {
        self.faults = self.faults.saturating_add(1);
        Failed
    }
}

impl Disk for BenchDisk {
    ghost tells = { false };

    ghost held = { λ _ _. [] };

    ghost images = { λ _ _ _. ⊥ };

    ghost moment = { λ disk. disk.moment };

    ghost faults = { λ disk. disk.faults };

    ghost held_is_left = { λ _. told_by_none };

    ghost left_is_told = { λ _ _ _. left_by_none };

    ghost images_end = { λ _ _ _ _. left_by_none };

    fn files(&mut self, kind: FileKind, list: &mut Vec<u64>) -> Result<(), DiskError> {
        match self.kept.list(kind, list) {
            Ok(()) => Ok(()),
            Err(_) => {
                list.clear();
                Err(DiskError::Memory)
            }
        }
    }

    fn size(&mut self, file: FileName) -> Result<u64, Failed> {
        Ok(self.kept.size(file))
    }

    fn read(&mut self, file: FileName, at: u64, into: &mut [u8]) -> Result<(), Failed> {
        let answer = self.kept.read(file, at, into);
        self.answer(answer)
    }

    fn write(&mut self, file: FileName, at: u64, bytes: &[u8]) -> Result<(), Failed> {
        self.begin()?;
        let answer = self.kept.write(file, at, bytes);
        self.answer(answer)
    }

    fn cut(&mut self, file: FileName, size: u64) -> Result<(), Failed> {
        self.begin()?;
        self.kept.put(file, size);
        Ok(())
    }

    fn sync(&mut self) -> Result<(), Failed> {
        self.begin()
    }

    fn moment(&self) -> u64 {
        self.moment
    }
}
