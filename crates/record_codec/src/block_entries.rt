//! The entries that a block of a log holds.
ghost use Rattle.std.specs.Prelude.{◌≡◌, List, [], ◌∷◌, map, All, IsTrue, IfOk, IfSome, IsErr, Some};
ghost use Rattle.std.specs.Option.{option_map};
ghost use Rattle.record_codec.specs.BlockEntries.{entry_read, entries_of, entries_in, entries_take_memory};
ghost use Rattle.record_codec.specs.EntryReading.{takes_memory};
ghost use Rattle.record_codec.specs.EntryEncoding.{entry as encoding, kind_of, IsEntry};
ghost use Rattle.record_codec.specs.Group.{group, as_item, IsGroup};
ghost use Rattle.record_codec.specs.declared.entry.LogEntry.{LogEntry as Entry};

use crate::entry::{LogEntry, read_entry};
use crate::group::{GROUP_KIND, Item, read_group};
use flowfile_record::CodecError;
use std::alloc::{AllocError, Global};

/// The entries that a block of this kind and payload holds: of a group those of its items in order, of another kind the
/// one entry. None comes where the payload can't be read so.
pub fn read_entries(
    alloc: Global,
    kind: u8,
    bytes: &[u8],
) -> Result<Option<Vec<LogEntry>>, AllocError>
    ensures exact { IfOk result
        (λ found. option_map (λ entries. entries.items) found ≡ entries_in kind bytes.now) }
    ensures encoded { IfOk result (λ found. IfSome found (λ entries. All IsEntry entries.items)) }
    // Memory is taken only for a group's first item, for an entry that can be read, or within it.
    ensures memory { IsErr result → IsTrue (entries_take_memory kind bytes.now) }
{
    if kind == GROUP_KIND {
        return read_of_group(alloc, bytes);
    }
    let Some(entry) = read_one(alloc, kind, bytes)? else {
        return Ok(None);
    };
    let mut entries = Vec::new(alloc);
    entries.push(entry)?;
    Ok(Some(entries))
}

/// The block of an entry holds that entry, and a group of entries holds them in order.
pub fn blocks_hold_their_entries()
    ensures one { (entry : Entry) → IsEntry entry → entries_in (kind_of entry) (encoding entry) ≡ Some (entry ∷ []) }
    ensures several { (entries : List Entry) → All IsEntry entries → IsGroup (map as_item entries)
        → entries_in GROUP_KIND (group (map as_item entries)) ≡ Some entries }
{}

fn read_of_group(alloc: Global, bytes: &[u8]) -> Result<Option<Vec<LogEntry>>, AllocError>
    ensures exact { IfOk result
        (λ found. option_map (λ entries. entries.items) found ≡ entries_in GROUP_KIND bytes.now) }
    ensures encoded { IfOk result (λ found. IfSome found (λ entries. All IsEntry entries.items)) }
    ensures memory { IsErr result → IsTrue (entries_take_memory GROUP_KIND bytes.now) }
{
    match read_group(alloc, bytes) {
        Ok(items) => read_items(alloc, items.as_slice()),
        Err(CodecError::Form { .. }) => Ok(None),
        Err(CodecError::Memory) => Err(AllocError),
    }
}

fn read_items(alloc: Global, items: &[Item]) -> Result<Option<Vec<LogEntry>>, AllocError>
    ensures exact { IfOk result (λ found. option_map (λ entries. entries.items) found ≡ entries_of items.now) }
    ensures encoded { IfOk result (λ found. IfSome found (λ entries. All IsEntry entries.items)) }
{
    let mut entries = Vec::new(alloc);
    for item in items {
        let Some(entry) = read_one(alloc, item.kind, item.payload.as_slice())? else {
            return Ok(None);
        };
        entries.push(entry)?;
    }
    Ok(Some(entries))
}

// The entry of this kind that the bytes encode, none where they encode none.
fn read_one(alloc: Global, kind: u8, bytes: &[u8]) -> Result<Option<LogEntry>, AllocError>
    ensures exact { IfOk result (λ found. found ≡ entry_read kind bytes.now) }
    ensures encoded { IfOk result (λ found. IfSome found IsEntry) }
    ensures memory { IsErr result → IsTrue (takes_memory kind bytes.now) }
{
    match read_entry(alloc, kind, bytes) {
        Ok(entry) => Ok(Some(entry)),
        Err(CodecError::Form { .. }) => Ok(None),
        Err(CodecError::Memory) => Err(AllocError),
    }
}
