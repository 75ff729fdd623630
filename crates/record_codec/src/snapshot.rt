//! The other blocks of a snapshot.
ghost use Rattle.std.specs.Prelude.{◌≡◌, ◌+◌, ◌≤◌, ◌++◌, ℕ, length, vec_len, vec_capacity, IfOk, IsOk, IfSome, IfNone, OnOk, OnErr, Ok};
ghost use Rattle.flowfile_record.specs.Field.{HasOneEncoding};
ghost use Rattle.flowfile_record.specs.Reading.{Reads, answer, whole};
ghost use Rattle.flowfile_record.specs.declared.stored.SwapBatch.{SwapBatch as Batch};
ghost use Rattle.record_codec.specs.declared.snapshot.SnapshotKind.{SnapshotKind as Kind};
ghost use Rattle.record_codec.specs.Snapshot.{kind_code, IsBatch, IsEnding};
ghost use Rattle.record_codec.specs.Snapshot as encoding;
ghost use Rattle.record_codec.specs.SnapshotReading.{batch_at, ending_at};

use flowfile_record::fields::{
    FieldError, Unread, put_u16, put_u64, read_number, read_u16, read_u64,
};
use flowfile_record::{CodecError, SwapBatch};
use std::alloc::AllocError;

/// What a block of a snapshot holds: the head, then the active flow files, the batches that are swapped out, and the
/// end.
#[derive(Clone, Copy, Debug, PartialEq, Eq)]
pub enum SnapshotKind {
    Head = 10,
    File = 11,
    Batch = 12,
    End = 13,
}

impl SnapshotKind {
    /// The kind of the block.
    pub fn code(self) -> u8
        ensures { result ≡ kind_code self }
    {
        self as u8
    }

    /// What a block of this kind holds, if it is one of a snapshot.
    pub fn from_code(kind: u8) -> Option<SnapshotKind>
        ensures found { IfSome result (λ holds. kind_code holds ≡ kind) }
        ensures none { IfNone result ((holds : Kind) → kind_code holds ≡ kind → ⊥) }
    {
        match kind {
            10 => Some(SnapshotKind::Head),
            11 => Some(SnapshotKind::File),
            12 => Some(SnapshotKind::Batch),
            13 => Some(SnapshotKind::End),
            _ => None,
        }
    }
}

/// How many bytes the encoding of a batch has.
pub const SWAP_BATCH_SIZE: u64 = 34;

/// How many bytes the encoding of an end has.
pub const SNAPSHOT_END_SIZE: u64 = 8;

/// Each batch and each end has an encoding of this size.
#[tactic(auto, using(crate::proofs::Sizes::swap_batch_size))]
pub fn sizes_of_batches_and_ends()
    ensures batches { (value : Batch) → length (encoding.swap_batch value) ≡ SWAP_BATCH_SIZE }
    ensures ends { (blocks : ℕ) → length (encoding.ending blocks) ≡ SNAPSHOT_END_SIZE }
{}

/// Appends the one encoding of a batch, whose number and count of files are below `NUMBER_LIMIT`. It fails only where
/// there is less room than `SWAP_BATCH_SIZE`, and then the bytes stay.
#[tactic(auto, unfolding(crate::specs::Snapshot::swap_batch))]
pub fn write_swap_batch(out: &mut Vec<u8>, batch: &SwapBatch) -> Result<(), AllocError>
    requires { IsBatch batch.now }
    ensures ok { OnOk result (out.new.items ≡ out.old.items ++ encoding.swap_batch batch.now) }
    ensures err { OnErr result (out.new.items ≡ out.old.items) }
    ensures room { vec_len out.old + SWAP_BATCH_SIZE ≤ vec_capacity out.old → IsOk result }
    ensures capacity { vec_capacity out.old ≤ vec_capacity out.new }
{
    out.reserve(SWAP_BATCH_SIZE as usize)?;
    put_u16(out, batch.connection);
    put_u64(out, batch.batch);
    put_u64(out, batch.files);
    put_u64(out, batch.bytes);
    put_u64(out, batch.encoded);
    Ok(())
}

/// The batch that the bytes encode, all of them; else `Form`, at the first field that can't be read, or at what is left
/// over.
pub fn read_swap_batch(bytes: &[u8]) -> Result<SwapBatch, CodecError>
    // What is read is encoded so.
    ensures found { IfOk result (λ value. IsBatch value × (bytes.now ≡ encoding.swap_batch value)) }
    // What is encoded so is read.
    ensures only { (value : Batch) → IsBatch value → bytes.now ≡ encoding.swap_batch value → result ≡ Ok value }
    // Which offset can't be read.
    ensures exact { result ≡ answer (length bytes.now) (whole batch_at bytes.now) }
{
    read_batch_answer(bytes)
}

/// One batch has one encoding, and no encoding is a proper front of another.
pub fn batches_have_one_encoding()
    ensures { HasOneEncoding encoding.swap_batch IsBatch }
{}

/// Appends the one encoding of an end behind so many blocks. It fails only where there is less room than
/// `SNAPSHOT_END_SIZE`, and then the bytes stay.
pub fn write_snapshot_end(out: &mut Vec<u8>, blocks: u64) -> Result<(), AllocError>
    ensures ok { OnOk result (out.new.items ≡ out.old.items ++ encoding.ending blocks) }
    ensures err { OnErr result (out.new.items ≡ out.old.items) }
    ensures room { vec_len out.old + SNAPSHOT_END_SIZE ≤ vec_capacity out.old → IsOk result }
    ensures capacity { vec_capacity out.old ≤ vec_capacity out.new }
{
    out.extend_from_slice(&blocks.to_be_bytes())
}

/// The number of the blocks before an end, which the bytes encode, all of them; else `Form`, at 0 where they are fewer
/// than 8, and at what is left over where they are more.
pub fn read_snapshot_end(bytes: &[u8]) -> Result<u64, CodecError>
    // What is read is encoded so.
    ensures found { IfOk result (λ blocks. IsEnding blocks × (bytes.now ≡ encoding.ending blocks)) }
    // What is encoded so is read.
    ensures only { (blocks : ℕ) → IsEnding blocks → bytes.now ≡ encoding.ending blocks → result ≡ Ok blocks }
    // Which offset can't be read.
    ensures exact { result ≡ answer (length bytes.now) (whole ending_at bytes.now) }
{
    read_end_answer(bytes)
}

/// One end has one encoding, and no encoding is a proper front of another.
pub fn ends_have_one_encoding()
    ensures { HasOneEncoding encoding.ending IsEnding }
{}

fn read_batch_answer(bytes: &[u8]) -> Result<SwapBatch, CodecError>
    ensures { result ≡ answer (length bytes.now) (whole batch_at bytes.now) }
{
    match read_whole_batch(bytes) {
        Ok(batch) => Ok(batch),
        Err(unread) => Err(FieldError::from(unread).within(bytes)),
    }
}

fn read_whole_batch(bytes: &[u8]) -> Result<SwapBatch, Unread>
    ensures { Reads (λ value. value) result (whole batch_at bytes.now) }
{
    let (batch, rest) = read_batch_fields(bytes)?;
    if !rest.is_empty() {
        return Err(Unread {
            left: rest.len() as u64,
        });
    }
    Ok(batch)
}

#[tactic(auto, unfolding(crate::specs::SnapshotReading::batch_at))]
fn read_batch_fields(bytes: &[u8]) -> Result<(SwapBatch, &[u8]), Unread>
    ensures { Reads (λ x. (x.0, x.1.now)) result (batch_at bytes.now) }
{
    let (connection, rest) = read_u16(bytes)?;
    let (batch, rest) = read_number(rest)?;
    let (files, rest) = read_number(rest)?;
    let (content_bytes, rest) = read_u64(rest)?;
    let (encoded, rest) = read_u64(rest)?;
    let batch = SwapBatch {
        connection,
        batch,
        files,
        bytes: content_bytes,
        encoded,
    };
    Ok((batch, rest))
}

fn read_end_answer(bytes: &[u8]) -> Result<u64, CodecError>
    ensures { result ≡ answer (length bytes.now) (whole ending_at bytes.now) }
{
    match read_whole_end(bytes) {
        Ok(blocks) => Ok(blocks),
        Err(unread) => Err(FieldError::from(unread).within(bytes)),
    }
}

fn read_whole_end(bytes: &[u8]) -> Result<u64, Unread>
    ensures { Reads (λ blocks. blocks) result (whole ending_at bytes.now) }
{
    let (blocks, rest) = read_u64(bytes)?;
    if !rest.is_empty() {
        return Err(Unread {
            left: rest.len() as u64,
        });
    }
    Ok(blocks)
}
