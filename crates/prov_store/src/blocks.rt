//! Events with their encoded blocks.
ghost use Rattle.std.specs.Prelude.{◌≡◌, ◌≤◌, ◌<◌, ◌+◌, ◌-◌, ◌%◌, ◌^◌, ◌++◌, min, All, length, IfOk, IsErr};
ghost use Rattle.prov_store.specs.Blocks.{blocks_of};
ghost use Rattle.prov_store.specs.State.{HasBlock, AreNumberedFrom};

use flowfile_record::{EVENTS_PER_FILE, Event};
use prov_event::{EVENT_KIND, event_size, write_event};
use record_codec::{append_block, block_size};
use std::alloc::{AllocError, Global};
use std::marker::Model;

/// Events that go to one file: how many there are, and how many bytes their blocks have.
#[derive(Clone, Copy, Debug, PartialEq, Eq)]
pub(crate) struct Part {
    pub(crate) count: u64,
    pub(crate) size: u64,
}

/// Events in a row with their encoded blocks, in order.
#[derive(Debug, Drop)]
pub struct EventBlocks<'a> {
    pub(crate) first: u64,
    pub(crate) events: &'a [Event],
    pub(crate) bytes: Vec<u8>,
    pub(crate) parts: Vec<Part>,
}

impl<'a> Model for EventBlocks<'a> {
    ghost use Rattle.prov_store.specs.State.{NumberedEvents};
    ghost use Rattle.prov_store.specs.Blocks.{AreEncoded};

    ghost Value = { NumberedEvents };

    ghost view = { λ blocks. record { first = blocks.first; events = blocks.events.now } };

    ghost invariant = { λ blocks. AreEncoded blocks.first blocks.events.now blocks.bytes.items blocks.parts.items };
}

impl<'a> EventBlocks<'a> {
    /// The blocks of these events, the first of which has this number. The room for all is made before the first is
    /// written.
    pub fn new(
        alloc: Global,
        first: u64,
        events: &'a [Event],
    ) -> Result<EventBlocks<'a>, AllocError>
        requires first { 1 ≤ first }
        requires numbered { AreNumberedFrom first events.now }
        requires blocks { All HasBlock events.now }
        ensures first { IfOk result (λ blocks. blocks.first ≡ first) }
        ensures events { IfOk result (λ blocks. blocks.events ≡ events.now) }
        ensures refused { IsErr result → 0 < length events.now }
    {
        let mut bytes = Vec::new(alloc);
        bytes.reserve(size_of_all(events) as usize)?;
        let mut payload = Vec::new(alloc);
        let mut parts = Vec::new(alloc);
        let mut done = 0;
        while done < events.len() {
            let count = part_len(first - 1 + done as u64, events.len() - done);
            let size = put_blocks(&mut bytes, &mut payload, &events[done..done + count])?;
            parts.push(Part {
                count: count as u64,
                size,
            })?;
            done += count;
        }
        Ok(EventBlocks {
            first,
            events,
            bytes,
            parts,
        })
    }
}

// How many of so many events that are added behind a last one its file takes.
fn part_len(last: u64, len: usize) -> usize
    requires { 0 < len }
    ensures some { 0 < result }
    ensures there { result ≤ len }
    ensures fits { last % EVENTS_PER_FILE + result ≤ EVENTS_PER_FILE }
    ensures full { result < len → last % EVENTS_PER_FILE + result ≡ EVENTS_PER_FILE }
{
    let room = (EVENTS_PER_FILE - last % EVENTS_PER_FILE) as usize;
    room.min(len)
}

// How many bytes the blocks of these events have, up to 2^64 - 1.
fn size_of_all(events: &[Event]) -> u64
    requires { All HasBlock events.now }
    ensures { result ≡ min (length (blocks_of events.now)) (2 ^ 64 - 1) }
{
    let mut size: u64 = 0;
    for event in events {
        size = size.saturating_add(block_size(event_size(event)));
    }
    size
}

// Appends the blocks of these events. Answers how many bytes they have.
fn put_blocks(
    bytes: &mut Vec<u8>,
    payload: &mut Vec<u8>,
    events: &[Event],
) -> Result<u64, AllocError>
    requires { All HasBlock events.now }
    ensures bytes { IfOk result (λ size. bytes.new.items ≡ bytes.old.items ++ blocks_of events.now) }
    ensures size { IfOk result (λ size. size ≡ length (blocks_of events.now)) }
{
    let start = bytes.len();
    for event in events {
        payload.clear();
        write_event(payload, event)?;
        append_block(bytes, EVENT_KIND, payload.as_slice())?;
    }
    Ok((bytes.len() - start) as u64)
}
