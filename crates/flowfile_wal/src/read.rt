//! Reading a log, block by block.
ghost use Rattle.std.specs.Prelude.{◌≡◌, ℕ, ◌+◌, ◌<◌, ◌≤◌, ◌++◌, true, [], length, drop, slice_range, vec_capacity, All, IsTrue, IfOk, OnOk, IfSome, IsErrOf, Ok, Err, None, Some};
ghost use Rattle.std.specs.List.{list_all};
ghost use Rattle.disk_trait.specs.Images.{Stays};
ghost use Rattle.disk_trait.specs.Faults.{CountsFaults};
ghost use Rattle.disk_trait.specs.declared.damage.Damage.{Damage as TheDamage};
ghost use Rattle.record_codec.specs.Block.{reading_of};
ghost use Rattle.record_codec.specs.BlockEntries.{entries_in, entries_take_memory};
ghost use Rattle.record_codec.specs.EntryEncoding.{IsEntry};
ghost use Rattle.record_codec.specs.Frames.{counts};
ghost use Rattle.record_codec.specs.LogEntries.{belongs, entries_found, gated};
ghost use Rattle.flowfile_wal.specs.Calls.{HaveEncodings};
ghost use Rattle.flowfile_wal.specs.Current.{log_bytes, version_begun, log_in};
ghost use Rattle.flowfile_wal.specs.Reads.{named_at, EntriesTake, HasFirstBlock, IsDamagedAt, IsNextAt, IsNextWithin, LogIsReadTo};

use crate::current::read_gate;
use crate::log::LogEntries;
use block_file::{BlockAddress, BlockError, read_block_at};
use disk_trait::{Damage, Disk, FileKind, FileName};
use record_codec::{Block, FORMAT_VERSION, LogEntry, OPEN_GATE, SECOND_VERSION, read_entries};
use std::alloc::{AllocError, Global};

/// The entries of a block, in order, and the block's size in bytes.
#[derive(Debug, Drop)]
pub struct FoundBlock {
    pub entries: Vec<LogEntry>,
    pub size: u64,
}

/// What a log's bytes say: the version of its format, the entries behind its Begin, and the offset of its last gate.
#[derive(Debug, Drop)]
pub struct ReadLog {
    pub version: u8,
    pub entries: LogEntries,
    pub end: u64,
}

// What a log begins with: the version of its format, and the offset of the gate behind its Begin.
#[derive(Clone, Copy)]
struct Begun {
    version: u8,
    end: u64,
}

// The entries behind the open gate at `at`, and the size of their block.
fn read_entries_at<D: Disk>(
    alloc: Global,
    disk: &mut D,
    file: FileName,
    size: u64,
    at: u64,
    buffer: &mut Vec<u8>,
) -> Result<FoundBlock, BlockError>
    requires within { at < size }
    requires size { IsTrue D.tells → size ≡ length (D.held disk.old file) }
    ensures found { IfOk result (λ found. IsTrue D.tells
        → entries_found (reading_of (drop (at + 1) (D.held disk.old file))) ≡ Ok (found.entries.items, found.size)) }
    ensures encoded { IfOk result (λ found. All IsEntry found.entries.items) }
    ensures within { IfOk result (λ found. at + 1 + found.size ≤ size) }
    ensures damaged { (damage : TheDamage) → IsErrOf result (BlockError.Damaged damage) → IsTrue D.tells
        → named_at file at (entries_found (reading_of (drop (at + 1) (D.held disk.old file)))) ≡ Err damage }
    ensures memory { IsErrOf result BlockError.Memory → IsTrue D.tells
        → EntriesTake (vec_capacity buffer.old) (reading_of (drop (at + 1) (D.held disk.old file))) }
    ensures stays { Stays D.held D.moment D.images disk.old disk.new }
    ensures cause { CountsFaults (D.faults disk.old) (D.faults disk.new) (IsErrOf result BlockError.Disk) }
{
    let address = BlockAddress {
        file,
        size,
        offset: at + 1,
        at,
    };
    let block = read_block_at(disk, address, buffer)?;
    let entries = entries_of(alloc, address, buffer.as_slice(), block)?;
    Ok(FoundBlock {
        entries,
        size: block.next,
    })
}

// The entries of a block that stands in the buffer.
fn entries_of(
    alloc: Global,
    address: BlockAddress,
    buffer: &[u8],
    block: Block,
) -> Result<Vec<LogEntry>, BlockError>
    requires start { block.start ≤ block.end }
    requires end { block.end ≤ length buffer.now }
    ensures entries { IfOk result (λ entries.
        entries_in block.kind (slice_range buffer.now block.start block.end) ≡ Some entries.items) }
    ensures encoded { IfOk result (λ entries. All IsEntry entries.items) }
    ensures damaged { (damage : TheDamage) → IsErrOf result (BlockError.Damaged damage)
        → (damage ≡ TheDamage.Form address.file address.at)
        × (entries_in block.kind (slice_range buffer.now block.start block.end) ≡ None) }
    ensures memory { IsErrOf result BlockError.Memory
        → IsTrue (entries_take_memory block.kind (slice_range buffer.now block.start block.end)) }
    ensures kinds { IsErrOf result BlockError.Disk → ⊥ }
{
    let start = block.start as usize;
    let end = block.end as usize;
    let Some(entries) = read_entries(alloc, block.kind, &buffer[start..end])? else {
        return Err(BlockError::Damaged(Damage::Form {
            file: address.file,
            at: address.at,
        }));
    };
    Ok(entries)
}

// What stands at the gate at `at` of a log of this size.
fn next_block<D: Disk>(
    alloc: Global,
    disk: &mut D,
    file: FileName,
    size: u64,
    at: u64,
    buffer: &mut Vec<u8>,
) -> Result<Option<FoundBlock>, BlockError>
    requires within { at ≤ size }
    requires size { IsTrue D.tells → size ≡ length (D.held disk.old file) }
    ensures next { IfOk result (λ next. IsTrue D.tells → IsNextAt at (D.held disk.old file) next) }
    ensures encoded { IfOk result (λ next. IfSome next (λ found. All IsEntry found.entries.items)) }
    ensures within { IfOk result (λ next. IsNextWithin at size next) }
    ensures damaged { (damage : TheDamage) → IsErrOf result (BlockError.Damaged damage) → IsTrue D.tells
        → IsDamagedAt file at (D.held disk.old file) damage }
    ensures memory { IsErrOf result BlockError.Memory → IsTrue D.tells
        → EntriesTake (vec_capacity buffer.old) (reading_of (drop (at + 1) (D.held disk.old file))) }
    ensures stays { Stays D.held D.moment D.images disk.old disk.new }
    ensures cause { CountsFaults (D.faults disk.old) (D.faults disk.new) (IsErrOf result BlockError.Disk) }
{
    if size - at < 2 {
        return Ok(None);
    }
    let gate = read_gate(disk, file, at)?;
    if gate != OPEN_GATE {
        return Ok(None);
    }
    let found = read_entries_at(alloc, disk, file, size, at, buffer)?;
    Ok(Some(found))
}

// Reads the Begin of the log of this number and size.
fn read_begin<D: Disk>(
    alloc: Global,
    disk: &mut D,
    number: u64,
    size: u64,
    buffer: &mut Vec<u8>,
) -> Result<Begun, BlockError>
    requires size { IsTrue D.tells → size ≡ length (log_bytes (D.held disk.old) number) }
    requires counted { IsTrue D.tells → counts (log_bytes (D.held disk.old) number) ≡ true }
    ensures begun { IfOk result (λ begun. IsTrue D.tells
        → LogIsReadTo number begun.version begun.end [] (log_bytes (D.held disk.old) number)) }
    ensures within { IfOk result (λ begun. begun.end ≤ size) }
    ensures damaged { (damage : TheDamage) → IsErrOf result (BlockError.Damaged damage) → IsTrue D.tells
        → log_in number (log_bytes (D.held disk.old) number) ≡ Err damage }
    ensures whole { OnOk result (IsTrue D.tells → HasFirstBlock (log_bytes (D.held disk.old) number)) }
    // What is damaged there is told without memory, unless its block stands whole.
    ensures memory { IsErrOf result BlockError.Memory → IsTrue D.tells
        → HasFirstBlock (log_bytes (D.held disk.old) number) }
    ensures stays { Stays D.held D.moment D.images disk.old disk.new }
    ensures cause { CountsFaults (D.faults disk.old) (D.faults disk.new) (IsErrOf result BlockError.Disk) }
{
    let file = FileName {
        kind: FileKind::Log,
        number,
    };
    let misbegun = BlockError::Damaged(Damage::Form { file, at: 0 });
    let Some(found) = next_block(alloc, disk, file, size, 0, buffer)? else {
        return Err(misbegun);
    };
    let Some(version) = begun_version(number, found.entries.as_slice()) else {
        return Err(misbegun);
    };
    Ok(Begun {
        version,
        end: 1 + found.size,
    })
}

// The version of a log whose first block has these entries: they are the Begin of this number alone.
fn begun_version(number: u64, entries: &[LogEntry]) -> Option<u8>
    ensures { result ≡ version_begun number entries.now }
{
    match entries {
        [LogEntry::Begin { version, log }] if *log == number && *version == FORMAT_VERSION => {
            Some(*version)
        }
        _ => None,
    }
}

/// Reads the log of this number and size.
pub fn read_log<D: Disk>(
    alloc: Global,
    disk: &mut D,
    number: u64,
    size: u64,
) -> Result<ReadLog, BlockError>
    requires size { IsTrue D.tells → size ≡ length (log_bytes (D.held disk.old) number) }
    requires counted { IsTrue D.tells → counts (log_bytes (D.held disk.old) number) ≡ true }
    ensures read { IfOk result (λ read. IsTrue D.tells → log_in number (log_bytes (D.held disk.old) number)
        ≡ Ok (record { number = number; version = read.version; entries = read.entries.items; end = read.end })) }
    ensures encoded { IfOk result (λ read. HaveEncodings read.entries.items) }
    ensures damaged { (damage : TheDamage) → IsErrOf result (BlockError.Damaged damage) → IsTrue D.tells
        → log_in number (log_bytes (D.held disk.old) number) ≡ Err damage }
    ensures memory { IsErrOf result BlockError.Memory → IsTrue D.tells
        → HasFirstBlock (log_bytes (D.held disk.old) number) }
    ensures stays { Stays D.held D.moment D.images disk.old disk.new }
    ensures cause { CountsFaults (D.faults disk.old) (D.faults disk.new) (IsErrOf result BlockError.Disk) }
{
    let file = FileName {
        kind: FileKind::Log,
        number,
    };
    let mut buffer = Vec::new(alloc);
    let mut entries = Vec::new(alloc);
    let begun = read_begin(alloc, disk, number, size, &mut buffer)?;
    let mut end = begun.end;
    while let Some(found) = next_block(alloc, disk, file, size, end, &mut buffer)? {
        if !all_belong(begun.version, found.entries.as_slice()) {
            return Err(BlockError::Damaged(Damage::Form { file, at: end }));
        }
        push_all(&mut entries, end, found.entries)?;
        end += 1 + found.size;
    }
    Ok(ReadLog {
        version: begun.version,
        entries,
        end,
    })
}

// Whether each of these entries may stand in a log of this version.
fn all_belong(version: u8, entries: &[LogEntry]) -> bool
    ensures { result ≡ list_all (belongs version) entries.now }
{
    entries.iter().all(|entry| may_stand(version, entry))
}

// Whether an entry may stand in a log of this version.
fn may_stand(version: u8, entry: &LogEntry) -> bool
    ensures { result ≡ belongs version entry.now }
{
    match entry {
        LogEntry::Age { .. } => version == SECOND_VERSION,
        _ => true,
    }
}

// Adds the entries of one block, each with the offset of their gate.
fn push_all(all: &mut LogEntries, gate: u64, entries: Vec<LogEntry>) -> Result<(), AllocError>
    ensures { OnOk result (all.new.items ≡ all.old.items ++ gated gate entries.items) }
{
    for entry in entries {
        all.push((gate, entry))?;
    }
    Ok(())
}
