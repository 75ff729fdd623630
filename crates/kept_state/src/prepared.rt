//! An entry that is ready to be written.
ghost use Rattle.std.specs.Prelude.{◌≡◌, ◌<◌, ◌≤◌, [], length, map, slice_get, vec_len, vec_capacity, IfOk, IfSome};
ghost use Rattle.record_codec.specs.EntryEncoding.{entry as encoding, IsEntry};
ghost use Rattle.record_codec.specs.FileEncoding.{IsContentRef};
ghost use Rattle.record_codec.specs.Placeless.{placeless_entry};
ghost use Rattle.kept_state.specs.Changes.{placed_in, with_content_at, entry_with_content, HasContentLike};
ghost use Rattle.record_codec.specs.Frames.{entry_frame};

use flowfile_record::{ActiveFile, ContentRef, Sequence};
use record_codec::{
    CLOSED_GATE, LogEntry, PAYLOAD_MAX, append_block, block_size, entry_size, write_entry,
};
use std::alloc::{AllocError, Global};
use std::marker::Model;
use std::mem;

/// The entry of a session, with the memory that writing it takes.
#[derive(Drop)]
pub struct PreparedEntry {
    alloc: Global,
    entry: LogEntry,
    // Both are empty until the entry is written.
    payload: Vec<u8>,
    frame: Vec<u8>,
}

impl Model for PreparedEntry {
    ghost use Rattle.std.specs.Coded.{codes};
    ghost use Rattle.flowfile_record.specs.contracts.attributes.Attributes as attributes;
    ghost use Rattle.record_codec.specs.declared.entry.LogEntry.{LogEntry as Entry};

    ghost Value = { Entry };

    ghost coded = { Prim.hlevel (codes, attributes.the_row.coded) };

    ghost use Rattle.kept_state.specs.Prepared.{IsPrepared};

    ghost view = { λ prepared. prepared.entry };

    ghost invariant = { IsPrepared };
}

impl PreparedEntry {
    /// An entry, with memory to write it.
    pub(crate) fn new(alloc: Global, entry: LogEntry) -> Result<PreparedEntry, AllocError>
        requires encoded { IsEntry entry }
        requires payload { length (encoding entry) ≤ PAYLOAD_MAX }
        ensures { IfOk result (λ prepared. prepared ≡ entry) }
    {
        let size = entry_size(&entry);
        let payload = Vec::with_capacity(alloc, size as usize)?;
        let frame = Vec::with_capacity(alloc, block_size(size) as usize + 1)?;
        Ok(PreparedEntry {
            alloc,
            entry,
            payload,
            frame,
        })
    }

    /// The files that it places.
    pub fn placed(&self) -> &[ActiveFile]
        ensures { result.now ≡ placed_in self.now }
    {
        placed_in(&self.entry)
    }

    /// The content of the placed file at a place, where there is one.
    pub fn content_at(&self, place: u64) -> Option<ContentRef>
        ensures content { result ≡ slice_get (map (λ a. a.file.content) (placed_in self.now)) place }
        ensures encoded { IfSome result IsContentRef }
    {
        let Some(active) = placed_in(&self.entry).get(place as usize) else {
            return None;
        };
        Some(active.file.content)
    }

    /// The content of the placed file at a place stands there from now on. Its size and its digest stay.
    pub fn set_content(&mut self, place: u64, at: ContentRef)
        requires encoded { IsContentRef at }
        requires like { HasContentLike at place (placed_in self.old) }
        ensures entry { self.new ≡ entry_with_content self.old place at }
        ensures same { placeless_entry self.new ≡ placeless_entry self.old }
    {
        set_content_of(self.alloc, &mut self.entry, place, at);
    }

    /// The entry, and its block with a closed gate behind it. It takes no memory.
    pub fn into_frame(self) -> (LogEntry, Vec<u8>)
        ensures entry { result.0 ≡ self }
        ensures encoded { IsEntry self }
        ensures frame { result.1.items ≡ entry_frame self }
    {
        let PreparedEntry {
            alloc: _,
            entry,
            mut payload,
            mut frame,
        } = self;
        write_block(&entry, &mut payload, &mut frame);
        (entry, frame)
    }
}

/// The files that an entry places.
pub(crate) fn placed_in(entry: &LogEntry) -> &[ActiveFile]
    ensures { result.now ≡ placed_in entry.now }
{
    match entry {
        LogEntry::Session(session) => session.placed.as_slice(),
        _ => &[],
    }
}

// Writes where the content of an entry's placed file stands.
fn set_content_of(alloc: Global, entry: &mut LogEntry, place: u64, at: ContentRef)
    requires { HasContentLike at place (placed_in entry.old) }
    ensures { entry.new ≡ entry_with_content entry.old place at }
{
    if let LogEntry::Session(session) = entry {
        set_content_at(alloc, &mut session.placed, place, at);
    }
}

// Writes where the content of the file at a place stands.
fn set_content_at(alloc: Global, placed: &mut Sequence<ActiveFile>, place: u64, at: ContentRef)
    requires { place < length placed.old }
    ensures { placed.new ≡ with_content_at place at placed.old }
{
    let mut files = mem::replace(placed, Sequence::new(alloc)).into_vec();
    let active = &mut files[place as usize];
    active.file.content = at;
    *placed = Sequence::from(files);
}

// Writes an entry's payload, and its block with a closed gate behind it, for which there is room.
fn write_block(entry: &LogEntry, payload: &mut Vec<u8>, out: &mut Vec<u8>)
    requires encoded { IsEntry entry.now }
    requires size { length (encoding entry.now) ≤ PAYLOAD_MAX }
    requires payload_room { length (encoding entry.now) ≤ vec_capacity payload.old }
    requires out_room { length (entry_frame entry.now) ≤ vec_capacity out.old }
    requires empty { (payload.old.items ≡ []) × (out.old.items ≡ []) }
    ensures { out.new.items ≡ entry_frame entry.now }
{
    let Ok(()) = write_entry(payload, entry) else {
        unreachable!()
    };
    let Ok(()) = append_block(out, entry.kind(), payload.as_slice()) else {
        unreachable!()
    };
    let Ok(()) = out.push(CLOSED_GATE) else {
        unreachable!()
    };
}
