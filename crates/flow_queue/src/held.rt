//! A file of a queue.
ghost use Rattle.std.specs.Prelude.{◌≡◌};
ghost use Rattle.prioritizer.specs.Order.{order_cmp};
ghost use Rattle.prioritizer.specs.Standing.{standing_of as standing};
ghost use Rattle.machine_model.specs.Order.{standing_of, goes_before, is_eligible};
ghost use Rattle.machine_model.specs.View.{is_penalised, is_expired};
ghost use Rattle.flow_queue.specs.Counts.{has_penalty};
ghost use Rattle.flow_queue.specs.Queue.{held_view, held_bytes};

use flowfile_record::{FlowFile, Numbered};
use machine_model::QueueLimits;
use prioritizer::{Order, Rank};
use std::cmp::Ordering;

/// A file of a queue, and whether a session works on it.
#[derive(Debug, Drop)]
pub(crate) struct Held {
    pub(crate) file: FlowFile,
    pub(crate) in_flight: bool,
}

impl Numbered for Held {
    ghost number = { λ held. held.file.number };

    fn number(&self) -> u64 {
        self.file.number
    }
}

impl Held {
    // How many bytes its content has.
    pub(crate) fn size(&self) -> u64
        ensures { result ≡ held_bytes self.now }
    {
        self.file.content.size
    }

    pub(crate) fn has_penalty(&self) -> bool
        ensures { result ≡ has_penalty self.now }
    {
        self.file.penalty_end > 0
    }

    fn rank(&self) -> Rank<'_>
        ensures { standing result ≡ standing_of (held_view self.now) }
    {
        Rank {
            priority: self.file.attributes.get("priority"),
            entered: self.file.entered,
            arrival: self.file.arrival,
        }
    }

    // Which of two files goes first: `Less` where this one does.
    pub(crate) fn compare(&self, other: &Held, order: &Order) -> Ordering
        ensures { result
            ≡ order_cmp order.now (standing_of (held_view self.now)) (standing_of (held_view other.now)) }
    {
        order.compare(&self.rank(), &other.rank())
    }

    pub(crate) fn goes_before(&self, other: &Held, order: &Order) -> bool
        ensures { result ≡ goes_before order.now (held_view self.now) (held_view other.now) }
    {
        self.compare(other, order).is_lt()
    }

    pub(crate) fn is_penalised(&self, moment: u64) -> bool
        ensures { result ≡ is_penalised moment (held_view self.now) }
    {
        moment < self.file.penalty_end
    }

    pub(crate) fn is_expired(&self, limits: &QueueLimits, moment: u64) -> bool
        ensures { result ≡ is_expired limits.now.expiration moment (held_view self.now) }
    {
        limits.expiration > 0 && limits.expiration <= moment.saturating_sub(self.file.entered)
    }

    pub(crate) fn is_eligible(&self, limits: &QueueLimits, moment: u64) -> bool
        ensures { result ≡ is_eligible limits.now moment (held_view self.now) }
    {
        !self.in_flight && !self.is_penalised(moment) && !self.is_expired(limits, moment)
    }
}
