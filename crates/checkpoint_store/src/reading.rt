//! Reading a snapshot.
ghost use Rattle.std.specs.Prelude.{◌≡◌, ℕ, suc, ◌+◌, ◌<◌, ◌≤◌, List, [], ◌++◌, length, vec_capacity, IsTrue, IfOk, OnOk, IsErrOf, Ok, Err, Some};
ghost use Rattle.disk_trait.specs.Images.{Stays};
ghost use Rattle.disk_trait.specs.Faults.{CountsFaults};
ghost use Rattle.disk_trait.specs.declared.damage.Damage.{Damage as TheDamage};
ghost use Rattle.disk_trait.specs.declared.file_name.FileName.{FileName as TheName};
ghost use Rattle.flowfile_record.specs.Stored.{Kept, kept_of};
ghost use Rattle.block_file.specs.Address.{reading_at, HasBlockPast, IsAddress, IsBlockAt};
ghost use Rattle.block_file.specs.Damage.{damage_in};
ghost use Rattle.checkpoint_store.specs.Memory.{BlockTakes, FirstTakes, IsReadTo, MayWantMemory};
ghost use Rattle.checkpoint_store.specs.Reading.{address_of, blocks_in_file, snapshot_of, snapshot_in};
ghost use Rattle.checkpoint_store.specs.Snapshot.{snapshot, snapshot_file, files_end};
ghost use Rattle.checkpoint_store.specs.Consistent.{IsConsistentIn};
ghost use Rattle.checkpoint_store.specs.SoFar.{IsSoFar, HasReadBlock};

use crate::part::first_part;
use crate::so_far::{SoFar, Unfit};
use crate::unread::{SMALL_BLOCK_SIZE, check_head, check_is_file};
use block_file::{BlockAddress, BlockError, read_block_at};
use disk_trait::{Damage, Disk, FileKind, FileName};
use flowfile_record::Stored;
use record_codec::Block;
use std::alloc::Global;

// A file that is read, of this size.
#[derive(Clone, Copy)]
pub struct Source {
    pub file: FileName,
    pub size: u64,
}

/// What a snapshot says.
#[derive(Debug, Drop)]
pub struct Snapshot {
    pub stored: Stored,
    /// Where the files end, and the first batch begins.
    pub batches_at: u64,
}

/// What the snapshot of this number says, which has to be of this version. It is read block by block, with memory for
/// one block beside the state.
pub fn read<D: Disk>(
    alloc: Global,
    disk: &mut D,
    number: u64,
    version: u8,
) -> Result<Snapshot, BlockError>
    ensures read { IfOk result (λ found. IsTrue D.tells
        → snapshot_in version (D.held disk.old) (snapshot_file number) ≡ Ok (kept_of found.stored)) }
    ensures place { IfOk result (λ found. found.batches_at ≡ files_end version (kept_of found.stored)) }
    // Whatever the disk tells, a state without batches agrees with itself.
    ensures consistent { IfOk result (λ found. (kept_of found.stored).batches ≡ []
        → IsConsistentIn version (kept_of found.stored)) }
    // The first damage is told, where there is one.
    ensures damaged { (damage : TheDamage) → IsErrOf result (BlockError.Damaged damage) → IsTrue D.tells
        → snapshot_in version (D.held disk.old) (snapshot_file number) ≡ Err damage }
    // What is damaged before the block that memory is wanted for is told, and of that block what can be told without.
    ensures memory { IsErrOf result BlockError.Memory → IsTrue D.tells
        → MayWantMemory version (D.held disk.old (snapshot_file number)) }
    ensures stays { Stays D.held D.moment D.images disk.old disk.new }
    ensures cause { CountsFaults (D.faults disk.old) (D.faults disk.new) (IsErrOf result BlockError.Disk) }
{
    let file = FileName {
        kind: FileKind::Snapshot,
        number,
    };
    let size = disk.size(file)?;
    let source = Source { file, size };
    let mut buffer = Vec::new(alloc);
    let (mut so_far, mut at) = read_first(alloc, disk, source, version, &mut buffer)?;
    while let Some(next) = read_next(alloc, disk, source, at, &mut buffer, &mut so_far)? {
        at = next;
    }
    let batches_at = so_far.files_end();
    Ok(Snapshot {
        stored: so_far.state,
        batches_at,
    })
}

// Reads the first block. Answers where the next one begins, too.
fn read_first<D: Disk>(
    alloc: Global,
    disk: &mut D,
    source: Source,
    version: u8,
    buffer: &mut Vec<u8>,
) -> Result<(SoFar, u64), BlockError>
    requires size { IsTrue D.tells → source.size ≡ length (D.held disk.old source.file) }
    ensures found { IfOk result (λ first. IsTrue D.tells → snapshot_in version (D.held disk.old) source.file
        ≡ blocks_in_file (suc (length (D.held disk.old source.file))) (D.held disk.old) source.file
        first.1 (kept_of first.0.state)) }
    ensures so_far { IfOk result (λ first. IsSoFar first.0 × (first.0.version ≡ version)) }
    ensures within { IfOk result (λ first. first.1 ≤ source.size) }
    ensures damaged { (damage : TheDamage) → IsErrOf result (BlockError.Damaged damage) → IsTrue D.tells
        → snapshot_in version (D.held disk.old) source.file ≡ Err damage }
    ensures read_to { IfOk result (λ first. IsTrue D.tells
        → IsReadTo version (D.held disk.old source.file) first.1 (kept_of first.0.state)
        (vec_capacity buffer.new)) }
    ensures room { OnOk result (SMALL_BLOCK_SIZE ≤ vec_capacity buffer.new) }
    ensures memory { IsErrOf result BlockError.Memory → IsTrue D.tells
        → FirstTakes version (D.held disk.old source.file) }
    ensures stays { Stays D.held D.moment D.images disk.old disk.new }
    ensures cause { CountsFaults (D.faults disk.old) (D.faults disk.new) (IsErrOf result BlockError.Disk) }
{
    let block = read_head_block(disk, source, version, buffer)?;
    match first_part(
        alloc,
        version,
        block.kind,
        &buffer[block.start as usize..block.end as usize],
    ) {
        Ok(so_far) => Ok((so_far, block.next)),
        Err(unfit) => Err(refused(source, 0, unfit)),
    }
}

// Reads the block at an offset, which joins those before it. Answers where the next one begins, and nothing behind the
// End.
#[tactic(auto, using(crate::proofs::Takes::part_takes))]
fn read_next<D: Disk>(
    alloc: Global,
    disk: &mut D,
    source: Source,
    at: u64,
    buffer: &mut Vec<u8>,
    so_far: &mut SoFar,
) -> Result<Option<u64>, BlockError>
    requires address { IsAddress D.tells (D.held disk.old) (address_of source.file source.size at) }
    requires so_far { IsSoFar so_far.old }
    requires room { SMALL_BLOCK_SIZE ≤ vec_capacity buffer.old }
    ensures read { IfOk result
        (HasReadBlock D.tells (D.held disk.old) source at (vec_capacity buffer.new) so_far.old so_far.new) }
    ensures capacity { vec_capacity buffer.old ≤ vec_capacity buffer.new }
    ensures damaged { (damage : TheDamage) → IsErrOf result (BlockError.Damaged damage) → IsTrue D.tells
        → (most : ℕ) → blocks_in_file (suc most) (D.held disk.old) source.file at (kept_of so_far.old.state)
        ≡ Err damage }
    ensures memory { IsErrOf result BlockError.Memory → IsTrue D.tells
        → BlockTakes (vec_capacity buffer.old) (kept_of so_far.old.state)
        (reading_at (D.held disk.old) (address_of source.file source.size at)) }
    ensures stays { Stays D.held D.moment D.images disk.old disk.new }
    ensures cause { CountsFaults (D.faults disk.old) (D.faults disk.new) (IsErrOf result BlockError.Disk) }
{
    let block = read_part_block(disk, source, at, buffer)?;
    match so_far.take_part(
        alloc,
        block.kind,
        &buffer[block.start as usize..block.end as usize],
    ) {
        Ok(true) => Ok(None),
        Ok(false) => Ok(Some(at + block.next)),
        Err(unfit) => Err(refused(source, at, unfit)),
    }
}

// The first block. Where there is no memory for it, it is told all the same if it can't be a Head of this version.
fn read_head_block<D: Disk>(
    disk: &mut D,
    source: Source,
    version: u8,
    buffer: &mut Vec<u8>,
) -> Result<Block, BlockError>
    requires size { IsTrue D.tells → source.size ≡ length (D.held disk.old source.file) }
    ensures found { IfOk result
        (IsBlockAt D.tells (D.held disk.old) (address_of source.file source.size 0) buffer.new.items) }
    ensures damaged { (damage : TheDamage) → IsErrOf result (BlockError.Damaged damage) → IsTrue D.tells
        → snapshot_in version (D.held disk.old) source.file ≡ Err damage }
    ensures memory { IsErrOf result BlockError.Memory → IsTrue D.tells
        → FirstTakes version (D.held disk.old source.file) }
    ensures capacity { vec_capacity buffer.old ≤ vec_capacity buffer.new }
    ensures stays { Stays D.held D.moment D.images disk.old disk.new }
    ensures cause { CountsFaults (D.faults disk.old) (D.faults disk.new) (IsErrOf result BlockError.Disk) }
{
    match read_block(disk, source, 0, buffer) {
        Err(BlockError::Memory) => {
            check_head(disk, source, version)?;
            Err(BlockError::Memory)
        }
        read => read,
    }
}

// A later block. Where there is no memory for it, it is told all the same if it can't be a file's.
fn read_part_block<D: Disk>(
    disk: &mut D,
    source: Source,
    at: u64,
    buffer: &mut Vec<u8>,
) -> Result<Block, BlockError>
    requires address { IsAddress D.tells (D.held disk.old) (address_of source.file source.size at) }
    requires room { SMALL_BLOCK_SIZE ≤ vec_capacity buffer.old }
    ensures found { IfOk result
        (IsBlockAt D.tells (D.held disk.old) (address_of source.file source.size at) buffer.new.items) }
    ensures damaged { (damage : TheDamage) → IsErrOf result (BlockError.Damaged damage) → IsTrue D.tells
        → (k : Kept) (most : ℕ) → blocks_in_file (suc most) (D.held disk.old) source.file at k ≡ Err damage }
    ensures memory { IsErrOf result BlockError.Memory → IsTrue D.tells
        → (k : Kept) → BlockTakes (vec_capacity buffer.old) k
        (reading_at (D.held disk.old) (address_of source.file source.size at)) }
    ensures capacity { vec_capacity buffer.old ≤ vec_capacity buffer.new }
    ensures stays { Stays D.held D.moment D.images disk.old disk.new }
    ensures cause { CountsFaults (D.faults disk.old) (D.faults disk.new) (IsErrOf result BlockError.Disk) }
{
    match read_block(disk, source, at, buffer) {
        Err(BlockError::Memory) => {
            check_is_file(disk, source, at)?;
            Err(BlockError::Memory)
        }
        read => read,
    }
}

// The block at an offset. The answer's offsets are those of the buffer.
fn read_block<D: Disk>(
    disk: &mut D,
    source: Source,
    at: u64,
    buffer: &mut Vec<u8>,
) -> Result<Block, BlockError>
    requires { IsAddress D.tells (D.held disk.old) (address_of source.file source.size at) }
    ensures found { IfOk result
        (IsBlockAt D.tells (D.held disk.old) (address_of source.file source.size at) buffer.new.items) }
    ensures damaged { (damage : TheDamage) → IsErrOf result (BlockError.Damaged damage) → IsTrue D.tells
        → damage_in source.file at (reading_at (D.held disk.old) (address_of source.file source.size at))
        ≡ Some damage }
    ensures memory { IsErrOf result BlockError.Memory → IsTrue D.tells
        → HasBlockPast (D.held disk.old) (address_of source.file source.size at) (vec_capacity buffer.old) }
    ensures room { IsErrOf result BlockError.Memory → at + vec_capacity buffer.old < source.size }
    ensures capacity { vec_capacity buffer.old ≤ vec_capacity buffer.new }
    ensures stays { Stays D.held D.moment D.images disk.old disk.new }
    ensures cause { CountsFaults (D.faults disk.old) (D.faults disk.new) (IsErrOf result BlockError.Disk) }
{
    let address = BlockAddress {
        file: source.file,
        size: source.size,
        offset: at,
        at,
    };
    read_block_at(disk, address, buffer)
}

// Why the block at an offset doesn't join those before it.
fn refused(source: Source, at: u64, unfit: Unfit) -> BlockError
    ensures form { unfit ≡ Unfit.Form → result ≡ BlockError.Damaged (TheDamage.Form source.file at) }
    ensures memory { unfit ≡ Unfit.Memory → result ≡ BlockError.Memory }
{
    match unfit {
        Unfit::Memory => BlockError::Memory,
        Unfit::Form => BlockError::Damaged(Damage::Form {
            file: source.file,
            at,
        }),
    }
}

/// What was written is read back, whatever stands behind it.
pub fn snapshots_are_read_back()
    ensures { (version : ℕ) (file : TheName) (k : Kept) (rest : List ℕ) → IsConsistentIn version k
        → snapshot_of version file (snapshot version k ++ rest) ≡ Ok k }
{}
