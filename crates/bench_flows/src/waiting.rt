//! What a queue costs by the order in which its files wait.
use crate::measured::{Compared, processor_time, since};
use crate::queues::{Coming, LIMITS, MOMENT, pick_often, put, queue_of, shuffled};
use anyhow::Result;
use flow_queue::{Queue, QueueLimits, TakeRule};
use flowfile_record::Attributes;
use prioritizer::{Order, Prioritizer};
use std::alloc::{Alloc, Global};
use std::fs::Files;

/// How often the same files are picked.
const PICKS: u32 = 1_000;

/// Files come one by one into a queue by their priorities. They are counted.
pub fn measure_put<R: Files + Alloc<A = Global>>(
    rt: &R,
    alloc: Global,
    files: u32,
) -> Result<Compared> {
    let coming = coming(alloc, files)?;
    let order = Order::new(vec![in alloc; Prioritizer::PriorityAttribute]?);
    let start = processor_time(rt);
    let queue = queue_of(alloc, order, LIMITS, coming)?;
    let took = since(rt, start);
    Ok(Compared::alone(queue.len(), took))
}

/// Files leave a queue one by one, always the best. They are counted.
pub fn measure_drain<R: Files + Alloc<A = Global>>(
    rt: &R,
    alloc: Global,
    by: Prioritizer,
    files: u32,
) -> Result<Compared> {
    let order = Order::new(vec![in alloc; by]?);
    let mut queue = queue_of(alloc, order, LIMITS, coming(alloc, files)?)?;
    let start = processor_time(rt);
    let count = drain(&mut queue);
    let took = since(rt, start);
    Ok(Compared::alone(count, took))
}

fn drain(queue: &mut Queue) -> u64 {
    let mut count = 0u64;
    for _ in 0..queue.len() {
        let Some(number) = queue.best(MOMENT) else {
            return count;
        };
        queue.leave(number);
        count = count.saturating_add(1);
    }
    count
}

/// A rule picks from files by their priorities, a thousand times. What it picks is counted.
pub fn measure_picks<R: Files + Alloc<A = Global>>(
    rt: &R,
    alloc: Global,
    rule: TakeRule,
    files: u32,
) -> Result<Compared> {
    let order = Order::new(vec![in alloc; Prioritizer::PriorityAttribute]?);
    let queue = queue_of(alloc, order, LIMITS, coming(alloc, files)?)?;
    let start = processor_time(rt);
    let count = pick_often(alloc, &queue, rule, PICKS)?;
    let took = since(rt, start);
    Ok(Compared::alone(count, took))
}

/// All files expire, and leave by one call. They are counted.
pub fn measure_expiry<R: Files + Alloc<A = Global>>(
    rt: &R,
    alloc: Global,
    files: u32,
) -> Result<Compared> {
    let limits = QueueLimits {
        expiration: 1,
        ..LIMITS
    };
    let order = Order::new(vec![in alloc; Prioritizer::PriorityAttribute]?);
    let mut queue = queue_of(alloc, order, limits, coming(alloc, files)?)?;
    let start = processor_time(rt);
    let count = expire(alloc, &mut queue, u64::from(files))?;
    let took = since(rt, start);
    Ok(Compared::alone(count, took))
}

fn expire(alloc: Global, queue: &mut Queue, moment: u64) -> Result<u64> {
    let before = queue.len();
    let mut numbers = Vec::new(alloc);
    queue.expired(moment, &mut numbers)?;
    queue.leave_all(numbers.as_slice());
    Ok(before.saturating_sub(queue.len()))
}

// So many files, each with a priority and a moment of entry of its own where the number has no divisor with `STRIDE`.
fn coming(alloc: Global, files: u32) -> Result<Vec<Coming>> {
    let mut coming = Vec::new(alloc);
    for place in 0..files {
        let entered = shuffled(place, files);
        let mut attributes = Attributes::new(alloc);
        put(alloc, &mut attributes, "priority", "", entered)?;
        coming.push(Coming {
            entered,
            attributes,
        })?;
    }
    Ok(coming)
}
