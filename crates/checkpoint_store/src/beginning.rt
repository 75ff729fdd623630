//! The beginning of a log: it becomes the current one by the write of one byte.
ghost use Rattle.std.specs.Prelude.{◌≡◌, ℕ, ◌+◌, ◌<◌, ◌≤◌, List, [], ◌∷◌, ◌++◌, length, IsTrue, OnOk, IsErr};
ghost use Rattle.disk_trait.specs.Files.{Files, At};
ghost use Rattle.disk_trait.specs.Images.{After, Since, IsOnly};
ghost use Rattle.disk_trait.specs.Faults.{CountsFaults};
ghost use Rattle.record_codec.specs.EntryEncoding.{IsEntry};
ghost use Rattle.record_codec.specs.Frames.{entry_frame, IsPassedOver};
ghost use Rattle.record_codec.specs.declared.entry.LogEntry.TheVariants.{Begin};
ghost use Rattle.checkpoint_store.specs.Begun.{log_file, IsBegunOrNot, MayBegin, IsBegun};

use disk_trait::{Disk, Failed, FileKind, FileName, write_synced};
use flowfile_record::DIGEST_SIZE;
use record_codec::{BLOCK_OVERHEAD, CLOSED_GATE, LogEntry, OPEN_GATE};
use sha2::{Digest, Sha256};

// How many bytes the entry has that begins a log: the version of the format, and the log's number.
const BEGIN_SIZE: u64 = 9;

// Its block with a closed gate behind it.
const FRAME_SIZE: usize = (BLOCK_OVERHEAD + BEGIN_SIZE) as usize + 1;

/// Begins the log of this number in a version, and makes it the current one. It takes no memory.
///
/// A closed gate is written and synced, then the block of the log's Begin with a closed gate behind it, and only then
/// the first gate is opened.
pub fn begin<D: Disk>(disk: &mut D, number: u64, version: u8) -> Result<(), Failed>
    requires number { IsEntry (Begin version number) }
    requires ready { (c : Files) → D.images disk.old (D.moment disk.old) c → MayBegin number c }
    // In each image the log is the current one.
    ensures begun { OnOk result ((c : Files) → D.images disk.new (D.moment disk.new) c → IsBegun version number c) }
    // No other file changes, and until the log is whole its first gate isn't open.
    ensures images { Since D.moment D.images disk.old disk.new
        (After (At (log_file number) (λ old new. IsBegunOrNot version number new))
        (D.images disk.old (D.moment disk.old))) }
    ensures synced { OnOk result (IsOnly (D.held disk.new) (D.images disk.new (D.moment disk.new))) }
    ensures cause { CountsFaults (D.faults disk.old) (D.faults disk.new) (IsErr result) }
{
    let file = FileName {
        kind: FileKind::Log,
        number,
    };
    stage(disk, file, &frame_of(number, version))?;
    write_synced(disk, file, 0, &[OPEN_GATE])?;
    Ok(())
}

// Writes a closed gate into an empty file, and then bytes behind it.
fn stage<D: Disk>(disk: &mut D, file: FileName, frame: &[u8]) -> Result<(), Failed>
    requires empty { (c : Files) → D.images disk.old (D.moment disk.old) c → c file ≡ [] }
    ensures staged { OnOk result (IsTrue D.tells
        → At file (λ old new. new ≡ CLOSED_GATE ∷ frame.now) (D.held disk.old) (D.held disk.new)) }
    ensures synced { OnOk result (IsOnly (D.held disk.new) (D.images disk.new (D.moment disk.new))) }
    ensures images { Since D.moment D.images disk.old disk.new
        (After (At file (λ old new. IsPassedOver new)) (D.images disk.old (D.moment disk.old))) }
    ensures cause { CountsFaults (D.faults disk.old) (D.faults disk.new) (IsErr result) }
{
    write_synced(disk, file, 0, &[CLOSED_GATE])?;
    write_synced(disk, file, 1, frame)?;
    Ok(())
}

// The block of the entry that begins this log, and a closed gate behind it.
fn frame_of(number: u64, version: u8) -> [u8; FRAME_SIZE]
    ensures { result ≡ entry_frame (Begin version number) }
{
    let begin = LogEntry::Begin {
        version,
        log: number,
    };
    let mut entry = [begin.kind(); 1 + BEGIN_SIZE as usize];
    entry[1] = version;
    entry[2..].copy_from_slice(&number.to_be_bytes());
    let digest: [u8; DIGEST_SIZE] = Sha256::digest(&entry);
    let mut frame = [CLOSED_GATE; FRAME_SIZE];
    frame[3] = BEGIN_SIZE as u8;
    frame[4..14].copy_from_slice(&entry);
    frame[14..46].copy_from_slice(&digest);
    frame
}
