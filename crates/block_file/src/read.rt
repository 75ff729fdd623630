//! The block at an offset of a file.
ghost use Rattle.std.specs.Prelude.{◌≡◌, ◌+◌, ◌<◌, ◌≤◌, length, vec_capacity, take, IsTrue, IfOk, OnOk, IfErr, IsErrOf, Some};
ghost use Rattle.disk_trait.specs.Images.{Stays};
ghost use Rattle.disk_trait.specs.Faults.{CountsFaults};
ghost use Rattle.disk_trait.specs.declared.damage.Damage.{Damage as TheDamage};
ghost use Rattle.record_codec.specs.Head.{IsWholeHead};
ghost use Rattle.block_file.specs.Address.{bytes_at, reading_at, IsAddress, IsBlockAt, IsBlockOfSize, IsBlockRefusal};
ghost use Rattle.block_file.specs.Damage.{damage_by, damage_in};

use crate::BlockError;
use crate::pieces::digest_at;
use disk_trait::{Damage, Disk, FileName};
use flowfile_record::DIGEST_SIZE;
use record_codec::{
    BLOCK_OVERHEAD, Block, BlockEnd, HEADER_SIZE, PAYLOAD_MAX, read_block, size_by_header,
};

/// Where a block stands: an offset of a file of this size. Damage is told at the offset `at`, which in a log is that of
/// the block's gate.
#[derive(Clone, Copy, Debug, PartialEq, Eq)]
pub struct BlockAddress {
    pub file: FileName,
    pub size: u64,
    pub offset: u64,
    pub at: u64,
}

/// Reads the block that stands there into the buffer, in place of what the buffer holds. The answer's offsets are those
/// of the buffer; `next` is the block's size. The buffer keeps the capacity that it has once got.
pub fn read_block_at<D: Disk>(
    disk: &mut D,
    address: BlockAddress,
    buffer: &mut Vec<u8>,
) -> Result<Block, BlockError>
    requires { IsAddress D.tells (D.held disk.old) address }
    ensures block { IfOk result (IsBlockAt D.tells (D.held disk.old) address buffer.new.items) }
    ensures refusal { IfErr result
        (IsBlockRefusal D.tells (D.held disk.old) address (vec_capacity buffer.old)) }
    ensures capacity { vec_capacity buffer.old ≤ vec_capacity buffer.new }
    ensures stays { Stays D.held D.moment D.images disk.old disk.new }
    ensures cause { CountsFaults (D.faults disk.old) (D.faults disk.new) (IsErrOf result BlockError.Disk) }
{
    let size = size_at(disk, address)?;
    read_bytes(disk, address, size, buffer)?;
    match read_block(buffer.as_slice(), 0) {
        Ok(block) => Ok(block),
        Err(end) => Err(BlockError::Damaged(damage_of(address, end))),
    }
}

// How many bytes the block there has, by its header; or why it can't be whole.
fn size_at<D: Disk>(disk: &mut D, address: BlockAddress) -> Result<u64, BlockError>
    requires { IsAddress D.tells (D.held disk.old) address }
    ensures whole { IfOk result (λ n. IsTrue D.tells → IsWholeHead n (bytes_at (D.held disk.old) address)) }
    ensures fits { IfOk result (λ n. (BLOCK_OVERHEAD ≤ n)
        × (address.offset + n ≤ address.size) × (n ≤ PAYLOAD_MAX + BLOCK_OVERHEAD)) }
    ensures damaged { (damage : TheDamage) → IsErrOf result (BlockError.Damaged damage) → IsTrue D.tells
        → damage_in address.file address.at (reading_at (D.held disk.old) address) ≡ Some damage }
    ensures kinds { IsErrOf result BlockError.Memory → ⊥ }
    ensures stays { Stays D.held D.moment D.images disk.old disk.new }
    ensures cause { CountsFaults (D.faults disk.old) (D.faults disk.new) (IsErrOf result BlockError.Disk) }
{
    let have = address.size - address.offset;
    if have < HEADER_SIZE {
        return Err(BlockError::Damaged(Damage::Short {
            file: address.file,
            at: address.at,
            need: HEADER_SIZE,
            have,
        }));
    }
    let mut header = [0u8; HEADER_SIZE as usize];
    disk.read(address.file, address.offset, &mut header)?;
    match size_by_header(&header, have) {
        Ok(size) => Ok(size),
        Err(end) => Err(BlockError::Damaged(damage_of(address, end))),
    }
}

// The bytes of the block there, which has this size by its header. Where there is no memory for them, the block's
// digest is compared all the same: damage is told as damage.
fn read_bytes<D: Disk>(
    disk: &mut D,
    address: BlockAddress,
    size: u64,
    buffer: &mut Vec<u8>,
) -> Result<(), BlockError>
    requires head { IsTrue D.tells → IsWholeHead size (bytes_at (D.held disk.old) address) }
    requires fits { (BLOCK_OVERHEAD ≤ size) × (address.offset + size ≤ address.size) }
    requires size { IsTrue D.tells → address.size ≡ length (D.held disk.old address.file) }
    ensures bytes { OnOk result (IsTrue D.tells → buffer.new.items ≡ take size (bytes_at (D.held disk.old) address)) }
    ensures len { OnOk result (length buffer.new.items ≡ size) }
    ensures refusal { IfErr result
        (IsBlockRefusal D.tells (D.held disk.old) address (vec_capacity buffer.old)) }
    ensures capacity { vec_capacity buffer.old ≤ vec_capacity buffer.new }
    ensures stays { Stays D.held D.moment D.images disk.old disk.new }
    ensures cause { CountsFaults (D.faults disk.old) (D.faults disk.new) (IsErrOf result BlockError.Disk) }
{
    if buffer.resize(size as usize, 0).is_err() {
        compare_digests(disk, address, size)?;
        return Err(BlockError::Memory);
    }
    disk.read(address.file, address.offset, buffer.as_mut_slice())?;
    Ok(())
}

// Compares the digest of the block there, which has this size by its header, with the one that is stored. It takes no
// memory.
fn compare_digests<D: Disk>(
    disk: &mut D,
    address: BlockAddress,
    size: u64,
) -> Result<(), BlockError>
    requires head { IsTrue D.tells → IsWholeHead size (bytes_at (D.held disk.old) address) }
    requires fits { (BLOCK_OVERHEAD ≤ size) × (address.offset + size ≤ address.size) }
    requires size { IsTrue D.tells → address.size ≡ length (D.held disk.old address.file) }
    ensures whole { OnOk result (IsTrue D.tells → IsBlockOfSize size (reading_at (D.held disk.old) address)) }
    ensures damaged { (damage : TheDamage) → IsErrOf result (BlockError.Damaged damage) → IsTrue D.tells
        → damage_in address.file address.at (reading_at (D.held disk.old) address) ≡ Some damage }
    ensures kinds { IsErrOf result BlockError.Memory → ⊥ }
    ensures stays { Stays D.held D.moment D.images disk.old disk.new }
    ensures cause { CountsFaults (D.faults disk.old) (D.faults disk.new) (IsErrOf result BlockError.Disk) }
{
    let kind_at = address.offset + (HEADER_SIZE - 1);
    let digest_offset = address.offset + (size - DIGEST_SIZE as u64);
    let found = digest_at(disk, address.file, kind_at, digest_offset - kind_at)?;
    let mut stored = [0u8; DIGEST_SIZE];
    disk.read(address.file, digest_offset, &mut stored)?;
    if stored != found {
        return Err(BlockError::Damaged(Damage::Digest {
            file: address.file,
            at: address.at,
            stored,
            found,
        }));
    }
    Ok(())
}

// What a block's refusal means of the file.
fn damage_of(address: BlockAddress, end: BlockEnd) -> Damage
    ensures { result ≡ damage_by address.file address.at end }
{
    match end {
        BlockEnd::Short { need, have } => Damage::Short {
            file: address.file,
            at: address.at,
            need,
            have,
        },
        BlockEnd::TooLong { .. } => Damage::Form {
            file: address.file,
            at: address.at,
        },
        BlockEnd::Digest { stored, found } => Damage::Digest {
            file: address.file,
            at: address.at,
            stored,
            found,
        },
    }
}
