//! An order of a queue's files, made of a list of prioritizers.
ghost use Rattle.std.specs.Prelude.{◌≡◌, IfOk};
ghost use Rattle.prioritizer.specs.Standing.{standing_of};
ghost use Rattle.prioritizer.specs.Order.{order_cmp, chain_cmp, prioritizers_of};

use crate::prioritizer::Prioritizer;
use crate::rank::Rank;
use std::alloc::AllocError;
use std::cmp::Ordering;
use std::marker::Model;

/// An order of the files of a queue: prioritizers that are asked in turn. An empty list stands for
/// `OldestFlowFileFirst`, and files that all tie go by their arrival numbers.
#[derive(Drop)]
pub struct Order {
    list: Vec<Prioritizer>,
}

impl Model for Order {
    ghost use Rattle.std.specs.Prelude.{List};
    ghost use Rattle.prioritizer.specs.declared.prioritizer.Prioritizer.{Prioritizer};

    ghost Value = { List Prioritizer };

    ghost view = { λ order. order.list.items };
}

impl Order {
    pub fn new(list: Vec<Prioritizer>) -> Order
        ensures { result ≡ list.items }
    {
        Order { list }
    }

    /// An order of the same list.
    pub fn copy(&self) -> Result<Order, AllocError>
        ensures { IfOk result (λ order. order ≡ self.now) }
    {
        let list = self.list.clone()?;
        Ok(Order { list })
    }

    /// Which of two files goes first: `Less` where `a` does. `Equal` comes only where the arrival numbers
    /// are equal.
    #[tactic(auto, unfolding(crate::specs::Order::order_cmp))]
    pub fn compare(&self, a: &Rank, b: &Rank) -> Ordering
        ensures { result ≡ order_cmp self.now (standing_of a.now) (standing_of b.now) }
    {
        compare_by(self.prioritizers(), a, b)
    }

    fn prioritizers(&self) -> &[Prioritizer]
        ensures { result.now ≡ prioritizers_of self.now }
    {
        if self.list.is_empty() {
            return &[Prioritizer::OldestFlowFileFirst];
        }
        &self.list
    }
}

fn compare_by(list: &[Prioritizer], a: &Rank, b: &Rank) -> Ordering
    ensures { result ≡ chain_cmp list.now (standing_of a.now) (standing_of b.now) }
{
    for prioritizer in list {
        let order = prioritizer.compare(a, b);
        if order.is_ne() {
            return order;
        }
    }
    a.arrival.cmp(&b.arrival)
}
