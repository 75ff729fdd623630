//! What a queue answers.
ghost use Rattle.std.specs.Prelude.{◌≡◌};

use crate::case::{attributes, number_or_zero};
use crate::json::{item, items, member, number};
use anyhow::{Result, bail};
use flow_queue::{Queue, QueueLimits, TakeRule};
use flowfile_record::{Attributes, ContentRef, DIGEST_SIZE, FlowFile};
use prioritizer::{Order, Prioritizer};
use serde_json::Value;
use std::alloc::Global;

/// The limits of each queue, which goes by priority.
const LIMITS: QueueLimits = QueueLimits {
    expiration: 10,
    objects: 5,
    bytes: 0,
    swap: 4,
};

/// What a case's queue answers at its moment: which files its rule picks, which one is the best, which expire and which
/// have to go out, each by its place, and whether it is full and which batch is due.
pub fn answer_in_words(alloc: Global, case: &Value) -> Result<String> {
    let queue = match case.get("batch") {
        Some(batch) => with_batch(alloc, batch)?,
        None => with_files(alloc, items(member(case, "queue")?)?.as_slice())?,
    };
    let moment = number_or_zero(case, "moment")?;
    let picked = picked(alloc, &queue, rule(case)?, moment)?;
    let due = due(alloc, &queue, moment)?;
    Ok(format!(in alloc; "picks{picked}{due}")?)
}

fn picked(alloc: Global, queue: &Queue, rule: TakeRule, moment: u64) -> Result<String> {
    let mut list = Vec::new(alloc);
    if !queue.pick(rule, moment, &mut list)? {
        return Ok(String::from_str(alloc, " none")?);
    }
    numbers_in_words(alloc, list.as_slice())
}

fn due(alloc: Global, queue: &Queue, moment: u64) -> Result<String> {
    let best = option_in_words(alloc, queue.best(moment))?;
    let mut list = Vec::new(alloc);
    queue.expired(moment, &mut list)?;
    let expired = numbers_in_words(alloc, list.as_slice())?;
    let mut list = Vec::new(alloc);
    queue.out_batch(&mut list)?;
    let out = numbers_in_words(alloc, list.as_slice())?;
    let due = option_in_words(alloc, queue.in_due())?;
    let full = if queue.is_full() { ", full" } else { "" };
    Ok(format!(in alloc; ", best{best}, expired{expired}, out{out}, due{due}{full}")?)
}

fn option_in_words(alloc: Global, option: Option<u64>) -> Result<String> {
    match option {
        Some(number) => Ok(format!(in alloc; " {number}")?),
        None => Ok(String::new(alloc)),
    }
}

fn numbers_in_words(alloc: Global, numbers: &[u64]) -> Result<String> {
    let mut told = String::new(alloc);
    for number in numbers {
        told.push_str(format!(in alloc; " {number}")?.as_str())?;
    }
    Ok(told)
}

// A rule by its name, or a bin by its least and its most files.
fn rule(case: &Value) -> Result<TakeRule> {
    let rule = member(case, "rule")?;
    match rule.as_str() {
        Some("source") => Ok(TakeRule::Source),
        Some("one") => Ok(TakeRule::One),
        Some("defragment") => Ok(TakeRule::Defragment),
        Some(_) => bail!("no rule"),
        None => Ok(TakeRule::Bin {
            min: small(item(rule, 0)?)?,
            max: small(item(rule, 1)?)?,
        }),
    }
}

fn small(value: &Value) -> Result<u32> {
    let Ok(small) = u32::try_from(number(value)?) else {
        bail!("too large a number");
    };
    Ok(small)
}

fn by_priority(alloc: Global) -> Result<Order> {
    let mut list = Vec::new(alloc);
    list.push(Prioritizer::PriorityAttribute)?;
    Ok(Order::new(list))
}

// A queue with a batch of a number, of so many files and bytes, which was swapped out before.
fn with_batch(alloc: Global, batch: &Value) -> Result<Queue> {
    let mut queue = Queue::new(alloc, by_priority(alloc)?, LIMITS);
    queue.reserve(0)?;
    queue.known_batch(
        number(item(batch, 0)?)?,
        number(item(batch, 1)?)?,
        number(item(batch, 2)?)?,
    );
    Ok(queue)
}

// A queue with these files. The number and the arrival of each are its place.
fn with_files(alloc: Global, files: &[Value]) -> Result<Queue> {
    let mut queue = Queue::new(alloc, by_priority(alloc)?, LIMITS);
    for (place, file) in files.iter().enumerate() {
        let attributes = attributes(alloc, member(file, "attributes")?)?;
        let size = number(member(file, "size")?)?;
        let file = waiting(place as u64, attributes, size);
        queue.reserve(1)?;
        queue.put(file);
    }
    Ok(queue)
}

// A file whose data entered at 1, and whose penalty ends at 5.
fn waiting(place: u64, attributes: Attributes, size: u64) -> FlowFile
    ensures number { result.number ≡ place }
    ensures arrival { result.arrival ≡ place }
{
    FlowFile {
        number: place,
        attributes,
        content: ContentRef {
            slot: 0,
            offset: 0,
            size,
            digest: [0; DIGEST_SIZE],
        },
        entered: 1,
        penalty_end: 5,
        arrival: place,
    }
}
