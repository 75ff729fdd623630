//! An image of a disk in memory, made from its calls.
ghost use Rattle.std.specs.Prelude.{◌≡◌, ℕ, ◌<◌, length, take, slice_index_or, true, false, [], IfOk};
ghost use Rattle.disk_trait.specs.declared.file_name.FileName.{FileName};
ghost use Rattle.disk_trait.specs.declared.memory.call.DiskCall.TheVariants.{Sync};
ghost use Rattle.disk_trait.specs.Memory.{durable, state_after, fits};
ghost use Rattle.disk_trait.specs.MemoryStop.{IsDrawn, touched_by, drawn, seed_after};
ghost use Rattle.disk_trait.specs.MemoryTable.{bytes_of, first_of};

use super::DiskCall;
use super::replay::replay;
use super::table::FileTable;
use super::tear::{tear, touched_offsets};
use crate::FileName;
use std::alloc::AllocError;

impl FileTable {
    /// Each file as the calls left it, but for the bytes that the `torn` ones touched.
    pub(crate) fn image(
        &self,
        calls: &[DiskCall],
        torn: &[DiskCall],
        seed: u64,
    ) -> Result<FileTable, AllocError>
        requires { (f : FileName) (n : ℕ) → n < length calls.now
            → fits f (slice_index_or calls.now n Sync)
            (state_after f (durable (first_of self.now f)) (take n calls.now)) ≡ true }
        ensures drawn { IfOk result (λ image. IsDrawn self.now
            (λ f. (state_after f (durable (first_of self.now f)) calls.now).held)
            (λ f i. touched_by f torn.now i) seed (bytes_of image)) }
        ensures first { IfOk result (λ image. (f : FileName) → bytes_of image f ≡ first_of image f) }
    {
        let mut image = FileTable::new(self.alloc);
        let mut x = seed;
        for name in self.files.keys() {
            let (bytes, next) = self.torn_file(*name, calls, torn, x)?;
            image.put(*name, bytes)?;
            x = next;
        }
        Ok(image)
    }

    // One of those files, and the seed for the next one.
    fn torn_file(
        &self,
        name: FileName,
        calls: &[DiskCall],
        torn: &[DiskCall],
        seed: u64,
    ) -> Result<(Vec<u8>, u64), AllocError>
        requires { (n : ℕ) → n < length calls.now
            → fits name (slice_index_or calls.now n Sync)
            (state_after name (durable (first_of self.now name)) (take n calls.now)) ≡ true }
        ensures bytes { IfOk result (λ file. file.0.items
            ≡ drawn (λ i. touched_by name torn.now i) 0 seed
            (state_after name (durable (first_of self.now name)) calls.now).held) }
        ensures seed { IfOk result (λ file. file.1
            ≡ seed_after (λ i. touched_by name torn.now i) 0 seed
            (state_after name (durable (first_of self.now name)) calls.now).held) }
    {
        let mut bytes = replay(self.alloc, self.first(name), name, calls)?;
        let marks = touched_offsets(self.alloc, name, torn, bytes.len())?;
        let next = tear(&mut bytes, &marks, seed);
        Ok((bytes, next))
    }
}
