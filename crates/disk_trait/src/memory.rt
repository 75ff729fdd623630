//! A disk in memory: it keeps a record of its calls, so a stop may be tried at each moment.
ghost use Rattle.std.specs.Prelude.{◌≡◌, ◌≤◌, [], true, refl};
ghost use Rattle.disk_trait.specs.MemoryHeld.{held_is_left, left_ends};
ghost use Rattle.disk_trait.specs.MemoryHistory.{past_of};

mod bytes;
mod call;
mod call_list;
mod history;
mod image;
mod replay;
mod steps;
mod table;
mod tear;

use crate::{Calls, Disk, DiskError, Failed, FileKind, FileName};
pub use bytes::DiskBytes;
pub use call::{DiskCall, Pick};
use history::History;
use std::alloc::AllocError;
use table::FileTable;

/// A disk in memory. Its calls but `moment` are numbered from 1, and those with given numbers fail; a
/// call that fails, or that memory refuses, changes nothing that is held.
#[derive(Drop)]
pub struct MemoryDisk {
    history: History,
    counted: Calls,
}

impl MemoryDisk {
    ghost use Rattle.std.specs.Prelude.{◌≡◌, ◌≤◌, [], IfOk};
    ghost use Rattle.disk_trait.specs.Files.{Files};
    ghost use Rattle.disk_trait.specs.Images.{IsOnly};
    ghost use Rattle.disk_trait.specs.MemoryDisk.{recorded, state_at, IsAnew};
    ghost use Rattle.disk_trait.specs.MemoryStop.{IsPicked};

    /// An empty disk, whose calls with these numbers fail. Its memory comes from their allocator.
    pub fn new(failing: Vec<u64>) -> MemoryDisk
        ensures held { ⟦<MemoryDisk as Disk>⟧.held result ≡ (λ _. []) }
        ensures synced { IsOnly (λ _. []) (⟦<MemoryDisk as Disk>⟧.images result 0) }
        ensures moment { ⟦<MemoryDisk as Disk>⟧.moment result ≡ 0 }
        ensures faults { ⟦<MemoryDisk as Disk>⟧.faults result ≡ 0 }
        ensures calls { recorded result ≡ [] }
        ensures counted { result.counted ≡ record { failing = failing; count = 0; faults = 0 } }
    {
        MemoryDisk {
            history: History::new(FileTable::new(*failing.allocator())),
            counted: Calls::new(failing),
        }
    }

    /// The calls of `write`, `cut` and `sync` that succeeded, in their order.
    pub fn calls(&self) -> &[DiskCall]
        ensures { result.now ≡ recorded self.now }
    {
        self.history.done.calls.as_slice()
    }

    /// What a stop at a moment up to now leaves: one image of that moment, on a new disk with no faults,
    /// no calls that fail, and nothing pending. An error is want of memory.
    pub fn stopped(&self, at: u64, pick: Pick) -> Result<MemoryDisk, AllocError>
        requires { at ≤ ⟦<MemoryDisk as Disk>⟧.moment self.now }
        ensures image { IfOk result (λ stopped. ⟦<MemoryDisk as Disk>⟧.images self.now at
            (⟦<MemoryDisk as Disk>⟧.held stopped)) }
        ensures picked { IfOk result (λ stopped. IsPicked pick (state_at self.now at)
            (⟦<MemoryDisk as Disk>⟧.held stopped)) }
        ensures present { pick ≡ Pick.New → at ≡ ⟦<MemoryDisk as Disk>⟧.moment self.now
            → IfOk result (λ stopped. ⟦<MemoryDisk as Disk>⟧.held stopped ≡ ⟦<MemoryDisk as Disk>⟧.held self.now) }
        ensures anew { IfOk result IsAnew }
    {
        let table = self.history.image(at, pick)?;
        let alloc = table.alloc;
        Ok(MemoryDisk {
            history: History::new(table),
            counted: Calls::new(Vec::new(alloc)),
        })
    }
}

#[tactic(auto, using(crate::proofs::Counts::counts_any))]
impl Disk for MemoryDisk {
    ghost use Rattle.std.specs.Prelude.{◌≡◌, ◌↔◌, ℕ, ◌+◌, ◌-◌, ◌^◌, ◌<◌, ◌≤◌, true, [], ◌∷◌, ◌++◌, length, take, drop, All, Contains, IfOk, OnOk, OnErr, IsErr, IsErrOf};
    ghost use Rattle.std.specs.List.Sorted.{IsStrictlyIncreasing};
    ghost use Rattle.disk_trait.specs.declared.memory.call.DiskCall.TheVariants.{Write, Cut, Sync};
    ghost use Rattle.disk_trait.specs.Called.{Called, FailsNext};
    ghost use Rattle.disk_trait.specs.Files.{At, Overwritten, Torn, Shortened, named};
    ghost use Rattle.disk_trait.specs.Images.{After, Since, IsOnly, Stays, next_moment};
    ghost use Rattle.disk_trait.specs.MemoryDisk.{held_by, left_by, moment_of, recorded, IsUndone};

    ghost tells = { true };

    ghost held = { held_by };

    ghost images = { left_by };

    ghost moment = { moment_of };

    ghost faults = { λ disk. disk.counted.faults };

    ghost held_is_left = { λ disk tells. held_is_left (past_of disk.history) disk.history.past };

    ghost left_is_told = { λ disk k files left. refl };

    ghost images_end = { λ disk k files file left big.
        left_ends (past_of disk.history) disk.history.past k files file left big };

    fn files(&mut self, kind: FileKind, list: &mut Vec<u64>) -> Result<(), DiskError>
        requires { list.old.items ≡ [] }
        ensures ascending { IsStrictlyIncreasing list.new.items }
        ensures below { All (λ n. n < 2 ^ 64) list.new.items }
        ensures listed { OnOk result ((n : ℕ) → n < 2 ^ 64
            → Contains list.new.items n ↔ (0 < length (held_by self.old (named kind n)))) }
        ensures emptied { OnErr result (list.new.items ≡ []) }
        ensures stays { Stays held_by moment_of left_by self.old self.new }
        ensures calls { recorded self.new ≡ recorded self.old }
        ensures fails { IsErrOf result DiskError.Failed ↔ FailsNext self.old.counted }
        ensures called { Called self.old.counted self.new.counted (IsErrOf result DiskError.Failed) }
    {
        self.counted.begin().map_err(|_| DiskError::Failed)?;
        match self.history.table.list(kind, list) {
            Ok(()) => Ok(()),
            Err(_) => Err(DiskError::Memory),
        }
    }

    fn size(&mut self, file: FileName) -> Result<u64, Failed>
        ensures size { IfOk result (λ size. size ≡ length (held_by self.old file)) }
        ensures stays { Stays held_by moment_of left_by self.old self.new }
        ensures calls { recorded self.new ≡ recorded self.old }
        ensures fails { IsErr result ↔ FailsNext self.old.counted }
        ensures called { Called self.old.counted self.new.counted (IsErr result) }
    {
        self.counted.begin()?;
        Ok(self.history.table.bytes(file).len() as u64)
    }

    fn read(&mut self, file: FileName, at: u64, into: &mut [u8]) -> Result<(), Failed>
        requires { at + length into.old ≤ length (held_by self.old file) }
        ensures bytes { OnOk result (into.new ≡ take (length into.old) (drop at (held_by self.old file))) }
        ensures stays { Stays held_by moment_of left_by self.old self.new }
        ensures calls { recorded self.new ≡ recorded self.old }
        ensures fails { IsErr result ↔ FailsNext self.old.counted }
        ensures called { Called self.old.counted self.new.counted (IsErr result) }
    {
        self.counted.begin()?;
        let at = at as usize;
        let bytes = self.history.table.bytes(file);
        into.copy_from_slice(&bytes[at..at + into.len()]);
        Ok(())
    }

    /// Where memory refuses to grow, the call fails. A failed call changes nothing that is held.
    fn write(&mut self, file: FileName, at: u64, bytes: &[u8]) -> Result<(), Failed>
        requires { at ≤ length (held_by self.old file) }
        ensures written { OnOk result (At file (Overwritten at bytes.now) (held_by self.old) (held_by self.new)) }
        ensures torn { At file (Torn at (length bytes.now)) (held_by self.old) (held_by self.new) }
        ensures images { Since moment_of left_by self.old self.new
            (After (At file (Torn at (length bytes.now))) (left_by self.old (moment_of self.old))) }
        ensures fits { OnOk result (at + length bytes.now < 2 ^ 64) }
        ensures moment { moment_of self.new ≡ next_moment (moment_of self.old) }
        ensures last { moment_of self.old ≡ 2 ^ 64 - 1 → IsErr result }
        ensures noted { OnOk result (recorded self.new ≡ recorded self.old ++ Write file at bytes.now ∷ []) }
        ensures undone { OnErr result (IsUndone self.old self.new) }
        ensures fails { FailsNext self.old.counted → IsErr result }
        ensures called { Called self.old.counted self.new.counted (IsErr result) }
    {
        if let Err(failed) = self.counted.begin() {
            self.history.pass();
            return Err(failed);
        }
        if self.history.moment == u64::MAX {
            self.history.pass();
            return Err(self.counted.fault());
        }
        match self.history.write(file, at, bytes) {
            Ok(()) => Ok(()),
            Err(_) => Err(self.counted.fault()),
        }
    }

    /// Where memory refuses to grow, the call fails. A failed call changes nothing that is held.
    fn cut(&mut self, file: FileName, size: u64) -> Result<(), Failed>
        requires { size ≤ length (held_by self.old file) }
        ensures cut { OnOk result (At file (λ old new. new ≡ take size old) (held_by self.old) (held_by self.new)) }
        ensures shortened { At file (Shortened size) (held_by self.old) (held_by self.new) }
        ensures images { Since moment_of left_by self.old self.new
            (After (At file (Shortened size)) (left_by self.old (moment_of self.old))) }
        ensures moment { moment_of self.new ≡ next_moment (moment_of self.old) }
        ensures last { moment_of self.old ≡ 2 ^ 64 - 1 → IsErr result }
        ensures noted { OnOk result (recorded self.new ≡ recorded self.old ++ Cut file size ∷ []) }
        ensures undone { OnErr result (IsUndone self.old self.new) }
        ensures fails { FailsNext self.old.counted → IsErr result }
        ensures called { Called self.old.counted self.new.counted (IsErr result) }
    {
        if let Err(failed) = self.counted.begin() {
            self.history.pass();
            return Err(failed);
        }
        if self.history.moment == u64::MAX {
            self.history.pass();
            return Err(self.counted.fault());
        }
        match self.history.cut(file, size) {
            Ok(()) => Ok(()),
            Err(_) => Err(self.counted.fault()),
        }
    }

    /// Where memory refuses to grow, the call fails. A read gives what it gave before, also after a failure.
    fn sync(&mut self) -> Result<(), Failed>
        ensures synced { OnOk result (IsOnly (held_by self.new) (left_by self.new (moment_of self.new))) }
        ensures held { held_by self.new ≡ held_by self.old }
        ensures images { Since moment_of left_by self.old self.new (left_by self.old (moment_of self.old)) }
        ensures moment { moment_of self.new ≡ next_moment (moment_of self.old) }
        ensures last { moment_of self.old ≡ 2 ^ 64 - 1 → IsErr result }
        ensures noted { OnOk result (recorded self.new ≡ recorded self.old ++ Sync ∷ []) }
        ensures undone { OnErr result (IsUndone self.old self.new) }
        ensures fails { FailsNext self.old.counted → IsErr result }
        ensures called { Called self.old.counted self.new.counted (IsErr result) }
    {
        if let Err(failed) = self.counted.begin() {
            self.history.pass();
            return Err(failed);
        }
        if self.history.moment == u64::MAX {
            self.history.pass();
            return Err(self.counted.fault());
        }
        match self.history.sync() {
            Ok(()) => Ok(()),
            Err(_) => Err(self.counted.fault()),
        }
    }

    fn moment(&self) -> u64
        ensures { result ≡ moment_of self.now }
    {
        self.history.moment
    }
}
