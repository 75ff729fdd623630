//! Queues of files, and what one of fragments picks.
ghost use Rattle.std.specs.Prelude.{◌≡◌};

use crate::measured::{Compared, processor_time, since};
use anyhow::Result;
use flow_queue::{Queue, QueueLimits, TakeRule};
use flowfile_record::{Attributes, ContentRef, DIGEST_SIZE, FlowFile};
use prioritizer::Order;
use std::alloc::{Alloc, Global};
use std::fs::Files;

/// How many wholes there are.
const WHOLES: u64 = 100;

/// Fragments stand as far from one another as this number tells. It has no divisor with their number.
const STRIDE: u64 = 7_919;

/// How often the same whole is picked.
const PICKS: u32 = 10;

/// When files are picked.
pub const MOMENT: u64 = 1;

pub const LIMITS: QueueLimits = QueueLimits {
    expiration: 0,
    objects: 0,
    bytes: 0,
    swap: 20_000,
};

/// What a file comes with.
#[derive(Drop)]
pub struct Coming {
    pub entered: u64,
    pub attributes: Attributes,
}

/// Picks a whole of so many fragments of 100 wholes, ten times. Of each whole so many are missing. The fragments that it
/// picks are counted.
pub fn measure<R: Files + Alloc<A = Global>>(
    rt: &R,
    alloc: Global,
    fragments: u32,
    missing: u32,
) -> Result<Compared> {
    let coming = fragments_of(alloc, fragments, missing)?;
    let queue = queue_of(alloc, Order::new(Vec::new(alloc)), LIMITS, coming)?;
    let start = processor_time(rt);
    let count = pick_often(alloc, &queue, TakeRule::Defragment, PICKS)?;
    let took = since(rt, start);
    Ok(Compared::alone(count, took))
}

/// Picks the same files so often. The files are counted.
pub fn pick_often(alloc: Global, queue: &Queue, rule: TakeRule, times: u32) -> Result<u64> {
    let mut count = 0u64;
    for _ in 0..times {
        let mut numbers = Vec::new(alloc);
        queue.pick(rule, MOMENT, &mut numbers)?;
        count = count.saturating_add(numbers.len() as u64);
    }
    Ok(count)
}

/// A queue of files that come one by one, the last of these first.
pub fn queue_of(
    alloc: Global,
    order: Order,
    limits: QueueLimits,
    mut coming: Vec<Coming>,
) -> Result<Queue> {
    let mut queue = Queue::new(alloc, order, limits);
    for place in 0..coming.len() as u64 {
        let Some(one) = coming.pop() else {
            break;
        };
        queue.reserve(1)?;
        queue.put(file(place, one));
    }
    Ok(queue)
}

// The file that comes at a place. Its number and its arrival are the place.
fn file(place: u64, coming: Coming) -> FlowFile
    ensures number { result.number ≡ place }
    ensures arrival { result.arrival ≡ place }
{
    let content = ContentRef {
        slot: 0,
        offset: 0,
        size: 1,
        digest: [0; DIGEST_SIZE],
    };
    FlowFile {
        number: place,
        attributes: coming.attributes,
        content,
        entered: coming.entered,
        penalty_end: 0,
        arrival: place,
    }
}

/// A place as far from the one before as `STRIDE` tells, among so many.
pub fn shuffled(place: u32, count: u32) -> u64 {
    u64::from(place).wrapping_mul(STRIDE) % u64::from(count).max(1)
}

// So many fragments, not in turn.
fn fragments_of(alloc: Global, fragments: u32, missing: u32) -> Result<Vec<Coming>> {
    let mut coming = Vec::new(alloc);
    for place in 0..fragments {
        let attributes = attributes(alloc, place, fragments, missing)?;
        coming.push(Coming {
            entered: 1,
            attributes,
        })?;
    }
    coming.reverse();
    Ok(coming)
}

// What tells of which whole it is a fragment.
fn attributes(alloc: Global, place: u32, fragments: u32, missing: u32) -> Result<Attributes> {
    let shuffled = shuffled(place, fragments);
    let whole = shuffled % WHOLES;
    let index = shuffled / WHOLES + 1;
    let count = u64::from(fragments) / WHOLES + u64::from(missing);
    let mut attributes = Attributes::new(alloc);
    put(alloc, &mut attributes, "fragment.count", "", count)?;
    put(
        alloc,
        &mut attributes,
        "fragment.identifier",
        "whole-",
        whole,
    )?;
    put(alloc, &mut attributes, "fragment.index", "", index)?;
    Ok(attributes)
}

/// A word and a number after it, under a key.
pub fn put(
    alloc: Global,
    attributes: &mut Attributes,
    key: &str,
    word: &str,
    number: u64,
) -> Result<()> {
    let text = format!(in alloc; "{word}{number}")?;
    attributes.put(key, text.as_str())?;
    Ok(())
}
