//! The digest of a part of a file, read in pieces.
ghost use Rattle.std.specs.Prelude.{◌≡◌, ℕ, ◌+◌, ◌^◌, ◌<◌, ◌≤◌, List, ◌++◌, length, take, drop, IsTrue, IfOk, OnOk, IsErr};
ghost use Rattle.disk_trait.specs.Images.{Stays};
ghost use Rattle.disk_trait.specs.Faults.{CountsFaults};
ghost use Rattle.sha2.specs.Hashers.{Holds256};
ghost use Rattle.sha2.specs.Sha256.{sha256};

use disk_trait::{Disk, Failed, FileName};
use flowfile_record::DIGEST_SIZE;
use sha2::{Digest, Sha256};

/// How many bytes are read at once.
const PIECE_SIZE: usize = 4_096;

/// The SHA-256 digest of so many bytes of a file, from an offset on. It takes no memory.
pub fn digest_at<D: Disk>(
    disk: &mut D,
    file: FileName,
    offset: u64,
    size: u64,
) -> Result<[u8; DIGEST_SIZE], Failed>
    requires numbers { offset + size < 2 ^ 64 }
    requires within { IsTrue D.tells → offset + size ≤ length (D.held disk.old file) }
    ensures digest { IfOk result (λ digest. IsTrue D.tells
        → digest ≡ sha256 (take size (drop offset (D.held disk.old file)))) }
    ensures stays { Stays D.held D.moment D.images disk.old disk.new }
    ensures cause { CountsFaults (D.faults disk.old) (D.faults disk.new) (IsErr result) }
{
    let mut hasher = Sha256::new();
    let mut piece = [0u8; PIECE_SIZE];
    let mut done = 0;
    while done < size {
        let count = (size - done).min(PIECE_SIZE as u64);
        take_in(
            disk,
            file,
            offset + done,
            &mut piece[..count as usize],
            &mut hasher,
        )?;
        done += count;
    }
    Ok(hasher.finalize())
}

// Fills the piece from an offset on, and takes it into the digest.
fn take_in<D: Disk>(
    disk: &mut D,
    file: FileName,
    offset: u64,
    piece: &mut [u8],
    hasher: &mut Sha256,
) -> Result<(), Failed>
    requires { IsTrue D.tells → offset + length piece.old ≤ length (D.held disk.old file) }
    ensures taken { OnOk result (IsTrue D.tells → (bytes : List ℕ) → Holds256 hasher.old bytes
        → Holds256 hasher.new (bytes ++ take (length piece.old) (drop offset (D.held disk.old file)))) }
    ensures stays { Stays D.held D.moment D.images disk.old disk.new }
    ensures cause { CountsFaults (D.faults disk.old) (D.faults disk.new) (IsErr result) }
{
    disk.read(file, offset, piece)?;
    hasher.update(&*piece);
    Ok(())
}
