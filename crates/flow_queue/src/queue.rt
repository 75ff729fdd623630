//! A queue, and how it changes.
ghost use Rattle.std.specs.Prelude.{◌≡◌, ◌+◌, ◌-◌, ◌<◌, ◌≤◌, ◌⊎◌, [], Some, false, true, IsSome, OnOk, OnErr};
ghost use Rattle.flow_queue.specs.Queue.{IsApart, AreApart, queue_with_file, without_file, held_file, flight_of, with_flight, IsAtRest, IsInFlight};

mod ages;
mod bins;
mod choosing;
mod counts;
mod entering;
mod leaving;
mod ranked;
mod swapping;
mod wholes;

use self::ages::{put_age, reserve_ages, take_age};
use self::counts::Counts;
use self::entering::put_file;
use self::ranked::{Note, put_note, take_note};
use crate::batch::Batch;
use crate::held::Held;
use flowfile_record::{FlowFile, NumberedList};
use machine_model::QueueLimits;
use prioritizer::Order;
use std::alloc::{AllocError, Global};
use std::collections::VecDeque;
use std::marker::Model;

/// The files that wait at the end of a connection, those that a session works on too, the batches of its files that are
/// swapped out, and room for more.
#[derive(Drop)]
pub struct Queue {
    order: Order,
    limits: QueueLimits,
    files: NumberedList<Held>,
    // They are noted in the order of the queue, with capacity for as many more as there is room.
    by_rank: VecDeque<Note>,
    // Where files expire, from the oldest on, with the same capacity.
    by_age: VecDeque<Note>,
    oldest_first: Order,
    // How many belong to each whole, and have an end of a penalty.
    counts: Counts,
    // Those of their contents.
    bytes: u128,
    batches: NumberedList<Batch>,
    // Whether a batch may go out, or be entered, without taking memory.
    batch_room: bool,
}

impl Model for Queue {
    ghost use Rattle.std.specs.Coded.{codes};
    ghost use Rattle.flowfile_record.specs.contracts.attributes.Attributes as attributes;
    ghost use Rattle.flow_queue.specs.Queue.{QueueState};

    ghost Value = { QueueState };

    ghost coded = { Prim.hlevel (codes, attributes.the_row.coded) };

    ghost use Rattle.flow_queue.specs.Inside.{queue_in, IsSoundQueue};

    ghost view = { queue_in };

    ghost invariant = { IsSoundQueue };
}

impl Queue {
    /// A queue without files and batches, and without room.
    pub fn new(alloc: Global, order: Order, limits: QueueLimits) -> Queue
        ensures { result ≡ record {
          order = order;
          limits = limits;
          files = [];
          spare = 0;
          batches = [];
          batch_room = false;
        } }
    {
        Queue {
            order,
            limits,
            files: NumberedList::new(alloc),
            by_rank: VecDeque::new(alloc),
            by_age: VecDeque::new(alloc),
            oldest_first: Order::new(Vec::new(alloc)),
            counts: Counts::new(alloc),
            bytes: 0,
            batches: NumberedList::new(alloc),
            batch_room: false,
        }
    }

    /// Makes room for so many more files, and for one more batch. It fails only where there was less.
    pub fn reserve(&mut self, count: u32) -> Result<(), AllocError>
        ensures same { self.new
            ≡ record self.old { spare = self.new.spare; batch_room = self.new.batch_room } }
        ensures room { OnOk result (count ≤ self.new.spare) }
        ensures batch { OnOk result (self.new.batch_room ≡ true) }
        ensures none_lost { self.old.spare ≤ self.new.spare }
        ensures fails { OnErr result ((self.old.spare < count) ⊎ (self.old.batch_room ≡ false)) }
        ensures failed { OnErr result (self.new ≡ self.old) }
    {
        self.by_rank.reserve(count as usize)?;
        reserve_ages(&mut self.by_age, &self.limits, count)?;
        self.batches.reserve(1)?;
        self.counts.reserve(self.files.len() + u64::from(count))?;
        self.files.reserve(u64::from(count))?;
        self.batch_room = true;
        Ok(())
    }

    /// Puts a file that no session works on into the queue. There is room for it.
    pub fn put(&mut self, file: FlowFile)
        requires room { 0 < self.old.spare }
        requires apart { IsApart file self.old.files }
        ensures { self.new
            ≡ record self.old { files = queue_with_file file self.old.files; spare = self.old.spare - 1 } }
    {
        let held = Held {
            file,
            in_flight: false,
        };
        put_note(&mut self.by_rank, &self.files, &self.order, &held);
        put_age(
            &mut self.by_age,
            &self.limits,
            &self.files,
            &self.oldest_first,
            &held,
        );
        put_file(&mut self.files, &mut self.counts, &mut self.bytes, held);
    }

    /// A session takes a file, which stays in the queue.
    pub fn check_out(&mut self, number: u64)
        requires { IsAtRest self.old number }
        ensures { self.new ≡ record self.old { files = with_flight number true self.old.files } }
    {
        self.mark(number, true);
    }

    /// A session gives a file back.
    pub fn back(&mut self, number: u64)
        requires { IsInFlight self.old number }
        ensures { self.new ≡ record self.old { files = with_flight number false self.old.files } }
    {
        self.mark(number, false);
    }

    fn mark(&mut self, number: u64, in_flight: bool)
        requires { IsSome (flight_of number self.old.files) }
        ensures { self.new ≡ record self.old { files = with_flight number in_flight self.old.files } }
    {
        let Some(held) = self.files.take(number) else {
            unreachable!()
        };
        self.files.put(Held {
            file: held.file,
            in_flight,
        });
    }

    /// Takes a file out of the queue.
    pub fn leave(&mut self, number: u64) -> FlowFile
        requires { IsSome (flight_of number self.old.files) }
        ensures file { held_file number self.old.files ≡ Some result }
        ensures left { self.new
            ≡ record self.old { files = without_file number self.old.files; spare = self.old.spare + 1 } }
    {
        let Some(held) = self.files.get(number) else {
            unreachable!()
        };
        take_note(&mut self.by_rank, &self.files, &self.order, held);
        take_age(
            &mut self.by_age,
            &self.limits,
            &self.files,
            &self.oldest_first,
            held,
        );
        let Some(held) = self.files.take(number) else {
            unreachable!()
        };
        self.counts.leave(&held);
        self.bytes -= u128::from(held.size());
        held.file
    }
}
