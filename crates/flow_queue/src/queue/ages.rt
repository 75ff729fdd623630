//! A queue's files from the oldest on, where files expire: so that none is looked at while none has.
ghost use Rattle.std.specs.Prelude.{◌≡◌, ◌+◌, ◌<◌, ◌≤◌, [], Some, false, length, OnErr, OnOk};
ghost use Rattle.std.specs.VecDeque.{deque_capacity};
ghost use Rattle.flowfile_record.specs.NumberedItems.{item_of};
ghost use Rattle.flow_queue.specs.Ages.{HasAges, HasAgeRoom};
ghost use Rattle.flow_queue.specs.Picking.{expiring};
ghost use Rattle.flow_queue.specs.Queue.{AreApart, IsApart, held_number, queue_with_file, views_of, without_file};

use super::ranked::{Note, put_note, take_note};
use crate::held::Held;
use flowfile_record::NumberedList;
use machine_model::QueueLimits;
use prioritizer::Order;
use std::alloc::AllocError;
use std::collections::VecDeque;

// Makes room for so many more files. It fails only where there was less.
pub(super) fn reserve_ages(
    ages: &mut VecDeque<Note>,
    limits: &QueueLimits,
    count: u32,
) -> Result<(), AllocError>
    ensures same { ages.new.items ≡ ages.old.items }
    ensures room { OnOk result (HasAgeRoom limits.now (length ages.old.items + count) (deque_capacity ages.new)) }
    ensures none_lost { deque_capacity ages.old ≤ deque_capacity ages.new }
    ensures fails { OnErr result (HasAgeRoom limits.now (length ages.old.items + count) (deque_capacity ages.old) → ⊥) }
{
    if limits.expiration == 0 {
        return Ok(());
    }
    ages.reserve(count as usize)?;
    Ok(())
}

// Notes a file that comes.
pub(super) fn put_age(
    ages: &mut VecDeque<Note>,
    limits: &QueueLimits,
    files: &NumberedList<Held>,
    oldest_first: &Order,
    held: &Held,
)
    requires oldest { oldest_first.now ≡ [] }
    requires apart { AreApart files.now.items }
    requires ages { HasAges limits.now files.now.items ages.old.items }
    requires new { IsApart held.now.file files.now.items }
    requires rests { held.now.in_flight ≡ false }
    requires room { HasAgeRoom limits.now (length ages.old.items + 1) (deque_capacity ages.old) }
    ensures ages { HasAges limits.now (queue_with_file held.now.file files.now.items) ages.new.items }
    ensures capacity { deque_capacity ages.old ≤ deque_capacity ages.new }
{
    if limits.expiration > 0 {
        put_note(ages, files, oldest_first, held);
    }
}

// Takes out what is noted of a file that goes.
pub(super) fn take_age(
    ages: &mut VecDeque<Note>,
    limits: &QueueLimits,
    files: &NumberedList<Held>,
    oldest_first: &Order,
    held: &Held,
)
    requires oldest { oldest_first.now ≡ [] }
    requires apart { AreApart files.now.items }
    requires ages { HasAges limits.now files.now.items ages.old.items }
    requires there { item_of held_number (held_number held.now) files.now.items ≡ Some held.now }
    ensures ages { HasAges limits.now (without_file (held_number held.now) files.now.items) ages.new.items }
    ensures capacity { deque_capacity ages.new ≡ deque_capacity ages.old }
{
    if limits.expiration > 0 {
        take_note(ages, files, oldest_first, held);
    }
}

// Whether a file may have expired: where the oldest one hasn't, none has.
pub(super) fn may_have_expired(
    ages: &VecDeque<Note>,
    limits: &QueueLimits,
    files: &NumberedList<Held>,
    moment: u64,
) -> bool
    requires apart { AreApart files.now.items }
    requires ages { HasAges limits.now files.now.items ages.now.items }
    ensures { result ≡ false → expiring limits.now moment (views_of files.now.items) ≡ [] }
{
    if limits.expiration == 0 {
        return false;
    }
    let Some(note) = ages.front() else {
        return false;
    };
    match files.get(note.number) {
        Some(oldest) => oldest.is_expired(limits, moment),
        None => true,
    }
}
