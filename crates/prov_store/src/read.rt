//! The event at an offset of a file.
ghost use Rattle.std.specs.Prelude.{◌≡◌, ℕ, ◌+◌, ◌<◌, ◌≤◌, ◌^◌, length, drop, IsTrue, IfOk, IfErr, IsErr, IsErrOf, Ok, Err, Some, None};
ghost use Rattle.disk_trait.specs.Images.{Stays};
ghost use Rattle.disk_trait.specs.Faults.{CountsFaults};
ghost use Rattle.disk_trait.specs.declared.damage.Damage.{Damage as TheDamage};
ghost use Rattle.flowfile_record.specs.declared.event.Event.{Event as TheEvent};
ghost use Rattle.prov_event.specs.EventReading.{event_takes_memory};
ghost use Rattle.record_codec.specs.Block.{reading_of};
ghost use Rattle.prov_store.specs.Events.{events_file, event_in, event_by};
ghost use Rattle.prov_store.specs.Reading.{event_there, HasWhole, IsEventHead, IsThere};
ghost use Rattle.prov_store.specs.declared.read.EventHead.{EventHead as TheHead};

use block_file::{BlockAddress, BlockError, read_block_at};
use disk_trait::{Damage, Disk, Failed, FileName};
use flowfile_record::{CodecError, Event, EventKind};
use prov_event::{EVENT_KIND, read_event};
use record_codec::{BlockEnd, HEADER_SIZE, size_by_header};
use std::alloc::Global;

/// Where the event of a number is wanted: an offset of a file of this size.
#[derive(Clone, Copy)]
pub struct Cursor {
    pub file: FileName,
    pub size: u64,
    pub at: u64,
    pub number: u64,
}

impl Cursor {
    /// Behind a block of this size.
    pub fn behind(self, size: u64) -> Cursor
        requires within { self.at + size ≤ self.size }
        requires number { self.number + 1 < 2 ^ 64 }
        ensures { result ≡ record self { at = self.at + size; number = self.number + 1 } }
    {
        Cursor {
            at: self.at + size,
            number: self.number + 1,
            ..self
        }
    }
}

/// How many bytes of a block say its size and the event's kind: the header, the number and the kind.
const HEAD_SIZE: u64 = HEADER_SIZE + 9;

/// An event's kind, and the size of its block.
#[derive(Clone, Copy)]
pub struct EventHead {
    pub kind: EventKind,
    pub size: u64,
}

/// The event that stands there, and the size of its block.
pub fn read_event_at<D: Disk>(
    alloc: Global,
    disk: &mut D,
    cursor: Cursor,
    buffer: &mut Vec<u8>,
) -> Result<(Event, u64), BlockError>
    requires { IsThere D.tells (D.held disk.old) cursor }
    ensures found { IfOk result (λ found. IsTrue D.tells → event_there (D.held disk.old) cursor ≡ Ok found) }
    ensures number { IfOk result (λ found. found.0.number ≡ cursor.number) }
    ensures within { IfOk result (λ found. cursor.at + found.1 ≤ cursor.size) }
    ensures damaged { (damage : TheDamage) → IsErrOf result (BlockError.Damaged damage) → IsTrue D.tells
        → event_there (D.held disk.old) cursor ≡ Err damage }
    ensures memory { IsErrOf result BlockError.Memory → IsTrue D.tells
        → HasWhole (reading_of (drop cursor.at (D.held disk.old cursor.file))) }
    ensures stays { Stays D.held D.moment D.images disk.old disk.new }
    ensures cause { CountsFaults (D.faults disk.old) (D.faults disk.new) (IsErrOf result BlockError.Disk) }
{
    let address = BlockAddress {
        file: cursor.file,
        size: cursor.size,
        offset: cursor.at,
        at: cursor.at,
    };
    let block = read_block_at(disk, address, buffer)?;
    let payload = &buffer[block.start as usize..block.end as usize];
    let event = event_of(alloc, cursor, block.kind, payload)?;
    Ok((event, block.next))
}

// The event of a block.
fn event_of(alloc: Global, cursor: Cursor, kind: u8, payload: &[u8]) -> Result<Event, BlockError>
    ensures event { IfOk result (λ event. event_in cursor.number kind payload.now ≡ Some event) }
    ensures number { IfOk result (λ event. event.number ≡ cursor.number) }
    ensures damaged { (damage : TheDamage) → IsErrOf result (BlockError.Damaged damage)
        → (damage ≡ TheDamage.Form cursor.file cursor.at) × (event_in cursor.number kind payload.now ≡ None) }
    ensures memory { IsErrOf result BlockError.Memory → (kind ≡ EVENT_KIND) × IsTrue (event_takes_memory payload.now) }
    ensures kinds { IsErrOf result BlockError.Disk → ⊥ }
{
    let damaged = BlockError::Damaged(Damage::Form {
        file: cursor.file,
        at: cursor.at,
    });
    if kind != EVENT_KIND {
        return Err(damaged);
    }
    match read_event(alloc, payload) {
        Ok(event) => {
            if event.number != cursor.number {
                return Err(damaged);
            }
            Ok(event)
        }
        Err(CodecError::Memory) => Err(BlockError::Memory),
        Err(CodecError::Form { .. }) => Err(damaged),
    }
}

/// The size of the block that stands there, by its header. What it holds isn't read.
pub fn skip_event_at<D: Disk>(disk: &mut D, cursor: Cursor) -> Result<u64, BlockError>
    requires { IsThere D.tells (D.held disk.old) cursor }
    ensures size { IfOk result (λ size. IsTrue D.tells → (event : TheEvent) (whole : ℕ)
        → event_there (D.held disk.old) cursor ≡ Ok (event, whole) → size ≡ whole) }
    ensures within { IfOk result (λ size. cursor.at + size ≤ cursor.size) }
    ensures damaged { (damage : TheDamage) → IsErrOf result (BlockError.Damaged damage) → IsTrue D.tells
        → (event : TheEvent) (whole : ℕ) → event_there (D.held disk.old) cursor ≡ Ok (event, whole) → ⊥ }
    ensures stays { Stays D.held D.moment D.images disk.old disk.new }
    ensures cause { CountsFaults (D.faults disk.old) (D.faults disk.new) (IsErrOf result BlockError.Disk) }
{
    let have = cursor.size - cursor.at;
    if have < HEADER_SIZE {
        return Err(BlockError::Damaged(Damage::Short {
            file: cursor.file,
            at: cursor.at,
            need: HEADER_SIZE,
            have,
        }));
    }
    let mut header = [0u8; HEADER_SIZE as usize];
    disk.read(cursor.file, cursor.at, &mut header)?;
    match size_by_header(&header, have) {
        Ok(size) => Ok(size),
        Err(BlockEnd::Short { need, have }) => Err(BlockError::Damaged(Damage::Short {
            file: cursor.file,
            at: cursor.at,
            need,
            have,
        })),
        Err(_) => Err(BlockError::Damaged(Damage::Form {
            file: cursor.file,
            at: cursor.at,
        })),
    }
}

/// What the head of the block that stands there says of its event. None where no event can stand there.
pub fn read_head_at<D: Disk>(disk: &mut D, cursor: Cursor) -> Result<Option<EventHead>, Failed>
    requires { IsThere D.tells (D.held disk.old) cursor }
    ensures head { IfOk result (λ head. IsTrue D.tells → (event : TheEvent) (whole : ℕ)
        → event_there (D.held disk.old) cursor ≡ Ok (event, whole)
        → head ≡ Some (record { kind = event.kind; size = whole })) }
    ensures within { IfOk result (λ head. (h : TheHead) → head ≡ Some h → cursor.at + h.size ≤ cursor.size) }
    ensures stays { Stays D.held D.moment D.images disk.old disk.new }
    ensures cause { CountsFaults (D.faults disk.old) (D.faults disk.new) (IsErr result) }
{
    let have = cursor.size - cursor.at;
    if have < HEAD_SIZE {
        return Ok(None);
    }
    let mut head = [0u8; HEAD_SIZE as usize];
    disk.read(cursor.file, cursor.at, &mut head)?;
    Ok(head_of(&head, have))
}

// What these bytes say of the event whose block begins with them, where so many stand from there on.
fn head_of(bytes: &[u8], have: u64) -> Option<EventHead>
    requires long { length bytes.now ≡ HEAD_SIZE }
    ensures some { (head : TheHead) → result ≡ Some head → IsEventHead bytes.now have head }
    ensures none { result ≡ None → (head : TheHead) → IsEventHead bytes.now have head → ⊥ }
{
    let header = &bytes[..HEADER_SIZE as usize];
    let Ok(size) = size_by_header(header, have) else {
        return None;
    };
    let Some(kind) = EventKind::from_code(bytes[HEAD_SIZE as usize - 1]) else {
        return None;
    };
    Some(EventHead { kind, size })
}
