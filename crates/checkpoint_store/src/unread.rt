//! Blocks that there is no memory for: what can be told of them without.
ghost use Rattle.std.specs.Prelude.{◌≡◌, ◌+◌, ◌<◌, ◌≤◌, ℕ, suc, List, length, take, drop, is_ok, IsTrue, IfOk, OnOk, IsErr, IsErrOf, Err};
ghost use Rattle.disk_trait.specs.Images.{Stays};
ghost use Rattle.disk_trait.specs.Faults.{CountsFaults};
ghost use Rattle.disk_trait.specs.declared.damage.Damage.{Damage as TheDamage};
ghost use Rattle.flowfile_record.specs.Stored.{Kept};
ghost use Rattle.block_file.specs.Address.{HasBlockPast, reading_at};
ghost use Rattle.record_codec.specs.Block.{Whole};
ghost use Rattle.record_codec.specs.Snapshot.{kind_code};
ghost use Rattle.record_codec.specs.declared.snapshot.SnapshotKind.TheVariants as kinds;
ghost use Rattle.checkpoint_store.specs.Memory.{FirstTakes, head_front_at};
ghost use Rattle.checkpoint_store.specs.Reading.{address_of, blocks_in_file, snapshot_in};

use crate::reading::Source;
use block_file::BlockError;
use disk_trait::{Damage, Disk, Failed};
use flowfile_record::fields::{read_digest, read_u8, read_u64};
use flowfile_record::{DIGEST_SIZE, STORE_LIMIT};
use record_codec::{
    BLOCK_OVERHEAD, FIRST_VERSION, HEADER_SIZE, SECOND_VERSION, SWAP_BATCH_SIZE, SnapshotKind,
};

/// Any longer block is a Head's or a file's, or of bad form: of the others, that of a batch is the longest.
pub const SMALL_BLOCK_SIZE: u64 = BLOCK_OVERHEAD + SWAP_BATCH_SIZE;

// How many bytes a Head has before its lists: the version of the format, the store and the digest of the flow.
const HEAD_FRONT_SIZE: usize = 9 + DIGEST_SIZE;

/// Whether the first block, for which there is no memory, may be a Head of this version: it is looked at up to the
/// lists of one.
pub fn check_head<D: Disk>(disk: &mut D, source: Source, version: u8) -> Result<(), BlockError>
    requires { IsTrue D.tells → HasBlockPast (D.held disk.old) (address_of source.file source.size 0) 0 }
    ensures front { OnOk result (IsTrue D.tells → FirstTakes version (D.held disk.old source.file)) }
    ensures damaged { (damage : TheDamage) → IsErrOf result (BlockError.Damaged damage) → IsTrue D.tells
        → snapshot_in version (D.held disk.old) source.file ≡ Err damage }
    ensures kinds { IsErrOf result BlockError.Memory → ⊥ }
    ensures stays { Stays D.held D.moment D.images disk.old disk.new }
    ensures cause { CountsFaults (D.faults disk.old) (D.faults disk.new) (IsErrOf result BlockError.Disk) }
{
    let mut header = [0u8; HEADER_SIZE as usize];
    disk.read(source.file, 0, &mut header)?;
    if header[4] != SnapshotKind::Head.code() {
        return Err(bad_form(source, 0));
    }
    let length = u32::from_be_bytes([header[0], header[1], header[2], header[3]]) as usize;
    let mut front = [0u8; HEAD_FRONT_SIZE];
    if !has_head_front(
        disk,
        source,
        version,
        &mut front[..length.min(HEAD_FRONT_SIZE)],
    )? {
        return Err(bad_form(source, 0));
    }
    Ok(())
}

// Whether as many bytes behind the first header as the buffer has are a Head's of this version up to its lists.
fn has_head_front<D: Disk>(
    disk: &mut D,
    source: Source,
    version: u8,
    buffer: &mut [u8],
) -> Result<bool, Failed>
    requires { IsTrue D.tells → HEADER_SIZE + length buffer.old ≤ length (D.held disk.old source.file) }
    ensures found { IfOk result (λ found. IsTrue D.tells → (n : ℕ) → n ≡ length buffer.old
        → found ≡ is_ok (head_front_at version (take n (drop HEADER_SIZE (D.held disk.old source.file))))) }
    ensures stays { Stays D.held D.moment D.images disk.old disk.new }
    ensures cause { CountsFaults (D.faults disk.old) (D.faults disk.new) (IsErr result) }
{
    disk.read(source.file, HEADER_SIZE, buffer)?;
    Ok(is_head_front(version, buffer))
}

// Whether these bytes are a Head's of this version up to its lists.
#[tactic(auto, unfolding(record_codec::specs::Version::version_at, record_codec::specs::StoreHeadReading::store_at))]
fn is_head_front(version: u8, bytes: &[u8]) -> bool
    ensures { result ≡ is_ok (head_front_at version bytes.now) }
{
    let Ok((found, rest)) = read_u8(bytes) else {
        return false;
    };
    if found != FIRST_VERSION && found != SECOND_VERSION {
        return false;
    }
    if found != version {
        return false;
    }
    let Ok((store, rest)) = read_u64(rest) else {
        return false;
    };
    if store >= STORE_LIMIT {
        return false;
    }
    read_digest(rest).is_ok()
}

/// Whether a later block, for which there is no memory, may be a file's.
pub fn check_is_file<D: Disk>(disk: &mut D, source: Source, at: u64) -> Result<(), BlockError>
    requires whole { IsTrue D.tells
        → HasBlockPast (D.held disk.old) (address_of source.file source.size at) SMALL_BLOCK_SIZE }
    requires size { IsTrue D.tells → source.size ≡ length (D.held disk.old source.file) }
    requires room { at + SMALL_BLOCK_SIZE < source.size }
    ensures file { OnOk result (IsTrue D.tells → (payload : List ℕ) (kind : ℕ)
        → reading_at (D.held disk.old) (address_of source.file source.size at) ≡ Whole kind payload
        → kind ≡ kind_code kinds.File) }
    ensures damaged { (damage : TheDamage) → IsErrOf result (BlockError.Damaged damage) → IsTrue D.tells
        → (k : Kept) (most : ℕ) → blocks_in_file (suc most) (D.held disk.old) source.file at k ≡ Err damage }
    ensures kinds { IsErrOf result BlockError.Memory → ⊥ }
    ensures stays { Stays D.held D.moment D.images disk.old disk.new }
    ensures cause { CountsFaults (D.faults disk.old) (D.faults disk.new) (IsErrOf result BlockError.Disk) }
{
    let mut kind = [0u8; 1];
    disk.read(source.file, at + (HEADER_SIZE - 1), &mut kind)?;
    if kind[0] != SnapshotKind::File.code() {
        return Err(bad_form(source, at));
    }
    Ok(())
}

// The block at an offset is of bad form.
fn bad_form(source: Source, at: u64) -> BlockError
    ensures { result ≡ BlockError.Damaged (TheDamage.Form source.file at) }
{
    BlockError::Damaged(Damage::Form {
        file: source.file,
        at,
    })
}
