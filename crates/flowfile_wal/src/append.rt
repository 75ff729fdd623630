//! A block is written behind a closed gate and synced, with a closed gate of its own behind it, and only then is the
//! gate opened, by a write of its own: a stop leaves all its entries or none, whatever a torn write leaves.
ghost use Rattle.std.specs.Prelude.{◌≡◌, ℕ, ◌+◌, ◌^◌, ◌<◌, List, length, IsTrue, OnOk, IsErr};
ghost use Rattle.disk_trait.specs.Images.{Since, IsOnly, calls_later};
ghost use Rattle.disk_trait.specs.Faults.{CountsFaults};
ghost use Rattle.record_codec.specs.declared.entry.LogEntry.{LogEntry};
ghost use Rattle.flowfile_wal.specs.Calls.{InEach, RestInEach, WithOrWithout};
ghost use Rattle.flowfile_wal.specs.Current.{log_bytes};
ghost use Rattle.flowfile_wal.specs.Steps.{IsFrame, AddsEntries};

use disk_trait::{Disk, Failed, FileKind, FileName, write_synced};
use record_codec::OPEN_GATE;

/// Adds the entries of one block to the log of this number, whose last gate stands at `end`. `frame` is the block with
/// a closed gate behind it.
pub fn append_frame<D: Disk>(
    disk: &mut D,
    number: u64,
    end: u64,
    frame: &[u8],
) -> Result<(), Failed>
    requires room { end + 1 < 2 ^ 64 }
    requires there { IsTrue D.tells → end < length (log_bytes (D.held disk.old) number) }
    // A stop within the call leaves a log of before it, or what was held with the entries.
    ensures images { (version : ℕ) (entries : List LogEntry)
        → RestInEach number version end (D.images disk.old (D.moment disk.old)) → IsFrame version entries frame.now
        → Since D.moment D.images disk.old disk.new
        (WithOrWithout number entries (length frame.now) (D.images disk.old (D.moment disk.old)) (D.held disk.old)) }
    // Once it has answered Ok, a stop leaves the entries.
    ensures added { OnOk result ((version : ℕ) (entries : List LogEntry)
        → RestInEach number version end (D.images disk.old (D.moment disk.old)) → IsFrame version entries frame.now
        → InEach (D.images disk.new (D.moment disk.new))
        (AddsEntries number entries (length frame.now) (D.held disk.old))) }
    ensures synced { OnOk result (IsOnly (D.held disk.new) (D.images disk.new (D.moment disk.new))) }
    ensures room { OnOk result (end + length frame.now + 1 < 2 ^ 64) }
    // There are two writes, each with its sync.
    ensures calls { OnOk result (D.moment disk.new ≡ calls_later 4 (D.moment disk.old)) }
    ensures cause { CountsFaults (D.faults disk.old) (D.faults disk.new) (IsErr result) }
{
    let file = FileName {
        kind: FileKind::Log,
        number,
    };
    write_synced(disk, file, end + 1, frame)?;
    write_synced(disk, file, end, &[OPEN_GATE])?;
    Ok(())
}
