//! The files of a disk in memory, and the past that made them.
ghost use Rattle.disk_trait.specs.MemoryPast.{Past, IsPast};

use super::Pick;
use super::call_list::CallList;
use super::replay::synced_count;
use super::steps::{cut_file, note_sync, write_file};
use super::table::FileTable;
use crate::FileName;
use std::alloc::AllocError;

#[derive(Drop)]
pub(crate) struct History {
    pub(crate) table: FileTable,
    pub(crate) done: CallList,
    pub(crate) moment: u64,
    ghost past: { IsPast (record {
      table = table;
      calls = done.calls.items;
      moments = done.moments.items;
      now = moment;
    }) },
}

impl History {
    ghost use Rattle.std.specs.Prelude.{◌≡◌, ℕ, ◌+◌, ◌-◌, ◌<◌, ◌≤◌, ◌^◌, [], ◌∷◌, ◌++◌, IfOk, OnOk, OnErr, length, take};
    ghost use Rattle.disk_trait.specs.declared.file_name.FileName.{FileName};
    ghost use Rattle.disk_trait.specs.declared.memory.call.DiskCall.TheVariants.{Write, Cut, Sync};
    ghost use Rattle.disk_trait.specs.Files.{Files, At, Overwritten, Torn, Shortened};
    ghost use Rattle.disk_trait.specs.Images.{After, Since, IsOnly, Stays, next_moment};
    ghost use Rattle.disk_trait.specs.MemoryTable.{bytes_of, first_of};
    ghost use Rattle.disk_trait.specs.MemoryPast.{left_at};
    ghost use Rattle.disk_trait.specs.MemoryHistory.{past_of};
    ghost use Rattle.disk_trait.specs.MemoryStop.{IsPickedImage};

    /// A past with no calls.
    pub(crate) fn new(table: FileTable) -> History
        requires begins { (f : FileName) → bytes_of table f ≡ first_of table f }
        requires ends { (f : FileName) → 2 ^ 64 ≤ f.number → bytes_of table f ≡ [] }
        ensures table { result.table ≡ table }
        ensures calls { result.done.calls.items ≡ [] }
        ensures moment { result.moment ≡ 0 }
        ensures synced { IsOnly (bytes_of table) (left_at (past_of result) 0) }
    {
        let alloc = table.alloc;
        History {
            table,
            done: CallList::new(alloc),
            moment: 0,
        }
    }

    /// The files that a stop at a moment leaves, each beginning like that.
    pub(crate) fn image(&self, at: u64, pick: Pick) -> Result<FileTable, AllocError>
        ensures image { IfOk result (λ image. IsPickedImage (past_of self.now) at pick (bytes_of image)) }
        ensures first { IfOk result (λ image. (f : FileName) → bytes_of image f ≡ first_of image f) }
    {
        let calls = &self.done.calls[..self.done.count_until(at)];
        let synced = synced_count(calls);
        match pick {
            Pick::Old => self.table.image(&calls[..synced], &[], 0),
            Pick::New => self.table.image(calls, &[], 0),
            Pick::Torn(seed) => self.table.image(calls, &calls[synced..], seed),
        }
    }

    /// A moment passes, if one is left.
    pub(crate) fn pass(&mut self)
        ensures moment { self.new.moment ≡ next_moment self.old.moment }
        ensures held { bytes_of self.new.table ≡ bytes_of self.old.table }
        ensures calls { self.new.done.calls.items ≡ self.old.done.calls.items }
        ensures images { Since (λ past. past.now) left_at (past_of self.old) (past_of self.new)
            (left_at (past_of self.old) self.old.moment) }
    {
        self.moment = self.moment.saturating_add(1);
    }

    /// Writes at the next moment, or lets it pass where memory runs out.
    pub(crate) fn write(&mut self, file: FileName, at: u64, bytes: &[u8]) -> Result<(), AllocError>
        requires left { self.old.moment < 2 ^ 64 - 1 }
        requires inside { at ≤ length (bytes_of self.old.table file) }
        ensures moment { self.new.moment ≡ self.old.moment + 1 }
        ensures noted { OnOk result
            (self.new.done.calls.items ≡ self.old.done.calls.items ++ Write file at bytes.now ∷ []) }
        ensures unnoted { OnErr result (self.new.done.calls.items ≡ self.old.done.calls.items) }
        ensures written { OnOk result
            (At file (Overwritten at bytes.now) (bytes_of self.old.table) (bytes_of self.new.table)) }
        ensures held { OnErr result ((f : FileName) → bytes_of self.new.table f ≡ bytes_of self.old.table f) }
        ensures images { Since (λ past. past.now) left_at (past_of self.old) (past_of self.new)
            (After (At file (Torn at (length bytes.now))) (left_at (past_of self.old) self.old.moment)) }
    {
        self.moment += 1;
        write_file(
            &mut self.table,
            &mut self.done,
            self.moment,
            file,
            at,
            bytes,
        )
    }

    /// Cuts at the next moment, or lets it pass where memory runs out.
    pub(crate) fn cut(&mut self, file: FileName, size: u64) -> Result<(), AllocError>
        requires left { self.old.moment < 2 ^ 64 - 1 }
        requires inside { size ≤ length (bytes_of self.old.table file) }
        ensures moment { self.new.moment ≡ self.old.moment + 1 }
        ensures noted { OnOk result (self.new.done.calls.items ≡ self.old.done.calls.items ++ Cut file size ∷ []) }
        ensures unnoted { OnErr result (self.new.done.calls.items ≡ self.old.done.calls.items) }
        ensures cut { OnOk result
            (At file (λ old new. new ≡ take size old) (bytes_of self.old.table) (bytes_of self.new.table)) }
        ensures held { OnErr result ((f : FileName) → bytes_of self.new.table f ≡ bytes_of self.old.table f) }
        ensures images { Since (λ past. past.now) left_at (past_of self.old) (past_of self.new)
            (After (At file (Shortened size)) (left_at (past_of self.old) self.old.moment)) }
    {
        self.moment += 1;
        cut_file(&mut self.table, &mut self.done, self.moment, file, size)
    }

    /// Syncs all files at the next moment, or lets it pass where memory runs out.
    pub(crate) fn sync(&mut self) -> Result<(), AllocError>
        requires { self.old.moment < 2 ^ 64 - 1 }
        ensures moment { self.new.moment ≡ self.old.moment + 1 }
        ensures noted { OnOk result (self.new.done.calls.items ≡ self.old.done.calls.items ++ Sync ∷ []) }
        ensures unnoted { OnErr result (self.new.done.calls.items ≡ self.old.done.calls.items) }
        ensures synced { OnOk result (IsOnly (bytes_of self.new.table) (left_at (past_of self.new) self.new.moment)) }
        ensures held { bytes_of self.new.table ≡ bytes_of self.old.table }
        ensures images { Since (λ past. past.now) left_at (past_of self.old) (past_of self.new)
            (left_at (past_of self.old) self.old.moment) }
    {
        self.moment += 1;
        note_sync(&mut self.done, self.moment)
    }
}
