//! The blocks of a snapshot, gathered into pieces before they are written.
ghost use Rattle.std.specs.Prelude.{◌≡◌, ℕ, ◌+◌, ◌<◌, ◌≤◌, List, [], ◌++◌, length, vec_len, vec_capacity, IsTrue, IfOk, OnOk, IsErr};
ghost use Rattle.disk_trait.specs.Faults.{CountsFaults};
ghost use Rattle.flowfile_record.specs.Stored.{kept_of};
ghost use Rattle.record_codec.specs.ActiveFile.{IsActiveFile, active_file};
ghost use Rattle.record_codec.specs.Block.{block};
ghost use Rattle.record_codec.specs.Snapshot.{IsBatch, kind_code};
ghost use Rattle.record_codec.specs.StoreHead.{IsHead, head, head_of};
ghost use Rattle.checkpoint_store.specs.Put.{IsPut, Within};
ghost use Rattle.checkpoint_store.specs.Output.{OutputHasRoom, HasFreeRoom, SameBut};
ghost use Rattle.checkpoint_store.specs.Snapshot.{head_block, file_block, batch_block, end_block};

use disk_trait::{Disk, Failed, FileName};
use flowfile_record::{ATTRIBUTES_MAX, ActiveFile, Stored, SwapBatch};
use record_codec::{
    BLOCK_OVERHEAD, PAYLOAD_MAX, SnapshotKind, append_block, head_size_of, write_active_file,
    write_head_of, write_snapshot_end, write_swap_batch,
};
use std::alloc::{AllocError, Global};

/// How many bytes are gathered before they are written: 1 MiB.
pub const PIECE_SIZE: u64 = 1_048_576;

/// The longest payload of a block of a file, in bytes: with its attributes, and beside them the connection, the number,
/// the reference to the content, two times and the arrival.
pub const FILE_PAYLOAD_MAX: u64 = ATTRIBUTES_MAX + 86;

/// Blocks on their way into a file. It has room for a piece and for the longest block behind it, so that a put can't
/// fail.
#[derive(Drop)]
pub struct Output {
    pub file: FileName,
    /// Where the piece begins in the file.
    pub offset: u64,
    /// Blocks that aren't in the file yet.
    pub piece: Vec<u8>,
    /// The payload of a block that is put.
    payload: Vec<u8>,
    /// How long a payload there is room for.
    longest: u64,
}

impl Output {
    /// Nothing is put yet. There is room for the blocks of this state in a version.
    pub fn new(
        alloc: Global,
        file: FileName,
        version: u8,
        state: &Stored,
    ) -> Result<Output, AllocError>
        requires head { IsHead (head_of version state.now) }
        requires size { length (head (head_of version state.now)) ≤ PAYLOAD_MAX }
        ensures room { IfOk result
            (λ out. HasFreeRoom out × (length (head (head_of version state.now)) ≤ out.longest)) }
        ensures empty { IfOk result (λ out. (out.file ≡ file) × (out.offset ≡ 0) × (out.piece.items ≡ [])) }
    {
        let longest = head_size_of(version, state).max(FILE_PAYLOAD_MAX);
        let mut piece = Vec::new(alloc);
        piece.reserve((PIECE_SIZE + longest + BLOCK_OVERHEAD) as usize)?;
        let mut payload = Vec::new(alloc);
        payload.reserve(longest as usize)?;
        Ok(Output {
            file,
            offset: 0,
            piece,
            payload,
            longest,
        })
    }

    /// Puts the Head of this state in a version.
    pub fn put_head(&mut self, version: u8, state: &Stored)
        requires room { HasFreeRoom self.old }
        requires head { IsHead (head_of version state.now) }
        requires size { length (head (head_of version state.now)) ≤ self.old.longest }
        ensures piece { self.new.piece.items ≡ self.old.piece.items ++ head_block version (kept_of state.now) }
        ensures room { OutputHasRoom self.new }
        ensures same { SameBut self.old self.new }
    {
        self.payload.clear();
        write_head_of(&mut self.payload, version, state).unwrap();
        self.put_block(SnapshotKind::Head);
    }

    /// Puts the block of a file.
    pub fn put_file(&mut self, active: &ActiveFile)
        requires room { HasFreeRoom self.old }
        requires file { IsActiveFile active.now }
        ensures piece { self.new.piece.items ≡ self.old.piece.items ++ file_block active.now }
        ensures room { OutputHasRoom self.new }
        ensures same { SameBut self.old self.new }
    {
        self.payload.clear();
        write_active_file(&mut self.payload, active.connection, &active.file).unwrap();
        self.put_block(SnapshotKind::File);
    }

    /// Puts the block of a batch.
    pub fn put_batch(&mut self, batch: &SwapBatch)
        requires room { HasFreeRoom self.old }
        requires batch { IsBatch batch.now }
        ensures piece { self.new.piece.items ≡ self.old.piece.items ++ batch_block batch.now }
        ensures room { OutputHasRoom self.new }
        ensures same { SameBut self.old self.new }
    {
        self.payload.clear();
        write_swap_batch(&mut self.payload, batch).unwrap();
        self.put_block(SnapshotKind::Batch);
    }

    /// Puts the End behind so many blocks.
    pub fn put_end(&mut self, blocks: u64)
        requires room { HasFreeRoom self.old }
        ensures piece { self.new.piece.items ≡ self.old.piece.items ++ end_block blocks }
        ensures room { OutputHasRoom self.new }
        ensures same { SameBut self.old self.new }
    {
        self.payload.clear();
        write_snapshot_end(&mut self.payload, blocks).unwrap();
        self.put_block(SnapshotKind::End);
    }

    // Puts the block of this kind that has the payload.
    fn put_block(&mut self, kind: SnapshotKind)
        requires room { HasFreeRoom self.old }
        requires size { vec_len self.old.payload ≤ self.old.longest }
        ensures piece { self.new.piece.items ≡ self.old.piece.items ++ block (kind_code kind) self.old.payload.items }
        ensures room { OutputHasRoom self.new }
        ensures same { SameBut self.old self.new }
    {
        append_block(&mut self.piece, kind.code(), self.payload.as_slice()).unwrap();
    }

    /// Writes the piece behind what was written, where it has its size.
    pub fn write_full<D: Disk>(&mut self, disk: &mut D) -> Result<(), Failed>
        requires room { OutputHasRoom self.old }
        requires within { IsTrue D.tells → self.old.offset ≤ length (D.held disk.old self.old.file) }
        ensures room { OnOk result (HasFreeRoom self.new) }
        ensures reaches { OnOk result (IsTrue D.tells → self.new.offset ≤ length (D.held disk.new self.new.file)) }
        ensures put { OnOk result ((start : D) (bytes : List ℕ)
            → IsPut D.tells D.held D.moment D.images self.old.file start disk.old
            self.old.offset self.old.piece.items bytes
            → IsPut D.tells D.held D.moment D.images self.old.file start disk.new
            self.new.offset self.new.piece.items bytes) }
        ensures left { (start : D) (bytes : List ℕ)
            → IsPut D.tells D.held D.moment D.images self.old.file start disk.old
            self.old.offset self.old.piece.items bytes
            → Within D.moment D.images self.old.file start disk.new (length bytes) }
        ensures same { (self.new.file ≡ self.old.file) × (self.new.longest ≡ self.old.longest) }
        ensures cause { CountsFaults (D.faults disk.old) (D.faults disk.new) (IsErr result) }
    {
        if self.piece.len() as u64 >= PIECE_SIZE {
            self.write_piece(disk)?;
        }
        Ok(())
    }

    /// Writes the piece behind what was written.
    pub(crate) fn write_piece<D: Disk>(&mut self, disk: &mut D) -> Result<(), Failed>
        requires room { OutputHasRoom self.old }
        requires within { IsTrue D.tells → self.old.offset ≤ length (D.held disk.old self.old.file) }
        ensures room { OnOk result (HasFreeRoom self.new) }
        ensures empty { OnOk result (self.new.piece.items ≡ []) }
        ensures reaches { OnOk result (IsTrue D.tells → self.new.offset ≤ length (D.held disk.new self.new.file)) }
        ensures put { OnOk result ((start : D) (bytes : List ℕ)
            → IsPut D.tells D.held D.moment D.images self.old.file start disk.old
            self.old.offset self.old.piece.items bytes
            → IsPut D.tells D.held D.moment D.images self.old.file start disk.new
            self.new.offset self.new.piece.items bytes) }
        ensures left { (start : D) (bytes : List ℕ)
            → IsPut D.tells D.held D.moment D.images self.old.file start disk.old
            self.old.offset self.old.piece.items bytes
            → Within D.moment D.images self.old.file start disk.new (length bytes) }
        ensures same { (self.new.file ≡ self.old.file) × (self.new.longest ≡ self.old.longest) }
        ensures cause { CountsFaults (D.faults disk.old) (D.faults disk.new) (IsErr result) }
    {
        disk.write(self.file, self.offset, self.piece.as_slice())?;
        self.offset += self.piece.len() as u64;
        self.piece.clear();
        Ok(())
    }
}
