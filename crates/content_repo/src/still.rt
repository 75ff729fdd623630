//! Whether a content still stands as bytes that are at hand.
ghost use Rattle.std.specs.Prelude.{◌≡◌, ◌↔◌, ◌+◌, ◌^◌, ◌<◌, ◌≤◌, length, take, drop, IsTrue, IfOk, IsErr};
ghost use Rattle.disk_trait.specs.Images.{Stays};
ghost use Rattle.disk_trait.specs.Faults.{CountsFaults};
ghost use Rattle.content_repo.specs.Claims.{StandsAs};
ghost use Rattle.content_repo.specs.Slots.{count_of, size_of, end_of};

use crate::Content;
use crate::append::claim_file;
use disk_trait::{Disk, Failed, FileName};
use flowfile_record::ContentRef;

/// How many bytes are read at once. To zero four times as many takes longer than to read a small content.
const PIECE_SIZE: usize = 16_384;

impl Content {
    /// Whether a content, to whose slot a reference is held, still stands as these bytes. They are compared piece by
    /// piece, and no digest is made. It takes no memory.
    pub fn is_still<D: Disk>(
        &mut self,
        disk: &mut D,
        at: &ContentRef,
        bytes: &[u8],
    ) -> Result<bool, Failed>
        requires held { 0 < count_of self.old at.now.slot }
        requires within { end_of at.now ≤ size_of self.old at.now.slot }
        ensures still { IfOk result (λ still. IsTrue D.tells
            → IsTrue still ↔ StandsAs (D.held disk.old) at.now bytes.now) }
        ensures value { self.new ≡ self.old }
        ensures stays { Stays D.held D.moment D.images disk.old disk.new }
        ensures cause { CountsFaults (D.faults disk.old) (D.faults disk.new) (IsErr result) }
    {
        let _slot = self.held_slot(at.slot);
        if bytes.len() as u64 != at.size {
            return Ok(false);
        }
        let file = claim_file(at.slot);
        if disk.size(file)? < at.offset + at.size {
            return Ok(false);
        }
        are_at(disk, file, at.offset, bytes)
    }
}

// Whether a file has these bytes from an offset on. The first piece that differs ends it.
fn are_at<D: Disk>(disk: &mut D, file: FileName, offset: u64, bytes: &[u8]) -> Result<bool, Failed>
    requires numbers { offset + length bytes.now < 2 ^ 64 }
    requires within { IsTrue D.tells → offset + length bytes.now ≤ length (D.held disk.old file) }
    ensures same { IfOk result (λ same. IsTrue D.tells
        → IsTrue same ↔ (take (length bytes.now) (drop offset (D.held disk.old file)) ≡ bytes.now)) }
    ensures stays { Stays D.held D.moment D.images disk.old disk.new }
    ensures cause { CountsFaults (D.faults disk.old) (D.faults disk.new) (IsErr result) }
{
    let mut piece = [0u8; PIECE_SIZE];
    let mut done = 0;
    while done < bytes.len() {
        let count = (bytes.len() - done).min(PIECE_SIZE);
        let wanted = &bytes[done..done + count];
        let at = offset + done as u64;
        if !is_piece(disk, file, at, &mut piece[..count], wanted)? {
            return Ok(false);
        }
        done += count;
    }
    Ok(true)
}

// Fills the piece from an offset on, and compares it.
fn is_piece<D: Disk>(
    disk: &mut D,
    file: FileName,
    offset: u64,
    piece: &mut [u8],
    wanted: &[u8],
) -> Result<bool, Failed>
    requires within { IsTrue D.tells → offset + length piece.old ≤ length (D.held disk.old file) }
    ensures same { IfOk result (λ same. IsTrue D.tells
        → IsTrue same ↔ (take (length piece.old) (drop offset (D.held disk.old file)) ≡ wanted.now)) }
    ensures stays { Stays D.held D.moment D.images disk.old disk.new }
    ensures cause { CountsFaults (D.faults disk.old) (D.faults disk.new) (IsErr result) }
{
    disk.read(file, offset, piece)?;
    Ok(&*piece == wanted)
}
