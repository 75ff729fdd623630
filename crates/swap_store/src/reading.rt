//! Reading a batch.
ghost use Rattle.std.specs.Prelude.{◌≡◌, ◌≤◌, ℕ, suc, ◌++◌, List, drop, vec_capacity, IsTrue, IfOk, IsErrOf, Ok, Err, Some};
ghost use Rattle.disk_trait.specs.Images.{Stays};
ghost use Rattle.disk_trait.specs.Faults.{CountsFaults};
ghost use Rattle.disk_trait.specs.declared.damage.Damage.{Damage as TheDamage};
ghost use Rattle.disk_trait.specs.declared.file_name.FileName.{FileName as TheName};
ghost use Rattle.flowfile_record.specs.declared.flow_file.FlowFile.{FlowFile as TheFile};
ghost use Rattle.block_file.specs.Address.{reading_at, HasBlockPast, IsAddress, IsBlockAt};
ghost use Rattle.block_file.specs.Damage.{damage_in};
ghost use Rattle.swap_store.specs.Batch.{swap_file, batch_bytes, IsSwapBatch};
ghost use Rattle.swap_store.specs.Memory.{BatchWantsMemory, BatchBlockTakes};
ghost use Rattle.swap_store.specs.Reading.{files_from, swapped_files, swapped_files_in};
ghost use Rattle.swap_store.specs.Taken.{address_in, AreTakenFiles, HasReadBatch, HasReadStep};

use crate::taken::{Taken, Unfit};
use block_file::{BlockAddress, BlockError, read_block_at};
use disk_trait::{Damage, Disk, FileKind, FileName};
use flowfile_record::FlowFile;
use record_codec::Block;
use std::alloc::Global;

// A file that is read, of this size.
#[derive(Clone, Copy)]
pub struct Source {
    pub file: FileName,
    pub size: u64,
}

/// The files of this batch, by number. They are read block by block, with memory for one block beside them.
pub fn read_batch<D: Disk>(
    alloc: Global,
    disk: &mut D,
    batch: u64,
) -> Result<Vec<FlowFile>, BlockError>
    // Some bytes with right digests say just these files; if the disk tells, they are those of the file.
    ensures read { IfOk result
        (λ files. HasReadBatch D.tells (D.held disk.old) (swap_file batch) files.items) }
    ensures batch { IfOk result (λ files. IsSwapBatch files.items) }
    // The first damage is told, where there is one.
    ensures damaged { (damage : TheDamage) → IsErrOf result (BlockError.Damaged damage) → IsTrue D.tells
        → swapped_files_in (D.held disk.old) batch ≡ Err damage }
    // Damage before the block that memory is wanted for is reported, and of that block what can be seen without memory.
    ensures memory { IsErrOf result BlockError.Memory → IsTrue D.tells
        → BatchWantsMemory (D.held disk.old (swap_file batch)) }
    ensures stays { Stays D.held D.moment D.images disk.old disk.new }
    ensures cause { CountsFaults (D.faults disk.old) (D.faults disk.new) (IsErrOf result BlockError.Disk) }
{
    let file = FileName {
        kind: FileKind::Swap,
        number: batch,
    };
    let size = disk.size(file)?;
    let source = Source { file, size };
    let mut buffer = Vec::new(alloc);
    let mut taken = Taken::new(alloc);
    let mut at = 0;
    while let Some(next) = read_next(alloc, disk, source, at, &mut buffer, &mut taken)? {
        at = next;
    }
    Ok(taken.files)
}

// Reads the block at an offset, which joins those before it. Answers where the next one begins, and nothing behind the
// End.
#[tactic(auto, using(crate::proofs::Takes::part_takes))]
fn read_next<D: Disk>(
    alloc: Global,
    disk: &mut D,
    source: Source,
    at: u64,
    buffer: &mut Vec<u8>,
    taken: &mut Taken,
) -> Result<Option<u64>, BlockError>
    requires address { IsAddress D.tells (D.held disk.old) (address_in source.file source.size at) }
    requires taken { AreTakenFiles taken.old }
    ensures read { IfOk result
        (HasReadStep D.tells (D.held disk.old) source at (vec_capacity buffer.new) taken.old taken.new) }
    ensures capacity { vec_capacity buffer.old ≤ vec_capacity buffer.new }
    ensures damaged { (damage : TheDamage) → IsErrOf result (BlockError.Damaged damage) → IsTrue D.tells
        → (most : ℕ) → files_from (suc most) source.file at taken.old.files.items
        (drop at (D.held disk.old source.file)) ≡ Err damage }
    ensures memory { IsErrOf result BlockError.Memory → IsTrue D.tells
        → BatchBlockTakes (vec_capacity buffer.old) taken.old.files.items
        (reading_at (D.held disk.old) (address_in source.file source.size at)) }
    ensures stays { Stays D.held D.moment D.images disk.old disk.new }
    ensures cause { CountsFaults (D.faults disk.old) (D.faults disk.new) (IsErrOf result BlockError.Disk) }
{
    let block = read_block(disk, source, at, buffer)?;
    match taken.take_block(
        alloc,
        block.kind,
        &buffer[block.start as usize..block.end as usize],
    ) {
        Ok(true) => Ok(None),
        Ok(false) => Ok(Some(at + block.next)),
        Err(unfit) => Err(refused(source, at, unfit)),
    }
}

// The block at an offset. The answer's offsets are those of the buffer.
fn read_block<D: Disk>(
    disk: &mut D,
    source: Source,
    at: u64,
    buffer: &mut Vec<u8>,
) -> Result<Block, BlockError>
    requires { IsAddress D.tells (D.held disk.old) (address_in source.file source.size at) }
    ensures found { IfOk result
        (IsBlockAt D.tells (D.held disk.old) (address_in source.file source.size at) buffer.new.items) }
    ensures damaged { (damage : TheDamage) → IsErrOf result (BlockError.Damaged damage) → IsTrue D.tells
        → damage_in source.file at (reading_at (D.held disk.old) (address_in source.file source.size at))
        ≡ Some damage }
    ensures memory { IsErrOf result BlockError.Memory → IsTrue D.tells
        → HasBlockPast (D.held disk.old) (address_in source.file source.size at) (vec_capacity buffer.old) }
    ensures capacity { vec_capacity buffer.old ≤ vec_capacity buffer.new }
    ensures stays { Stays D.held D.moment D.images disk.old disk.new }
    ensures cause { CountsFaults (D.faults disk.old) (D.faults disk.new) (IsErrOf result BlockError.Disk) }
{
    let address = BlockAddress {
        file: source.file,
        size: source.size,
        offset: at,
        at,
    };
    read_block_at(disk, address, buffer)
}

// Why the block at an offset doesn't join those before it.
fn refused(source: Source, at: u64, unfit: Unfit) -> BlockError
    ensures form { unfit ≡ Unfit.Form → result ≡ BlockError.Damaged (TheDamage.Form source.file at) }
    ensures memory { unfit ≡ Unfit.Memory → result ≡ BlockError.Memory }
{
    match unfit {
        Unfit::Memory => BlockError::Memory,
        Unfit::Form => BlockError::Damaged(Damage::Form {
            file: source.file,
            at,
        }),
    }
}

/// What was written is read back, whatever stands behind it.
pub fn batches_are_read_back()
    ensures { (file : TheName) (files : List TheFile) (rest : List ℕ) → IsSwapBatch files
        → swapped_files file (batch_bytes files ++ rest) ≡ Ok files }
{}
