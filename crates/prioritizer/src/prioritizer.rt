//! One prioritizer: a rule by which files go before others.
ghost use Rattle.std.specs.Prelude.{◌≡◌, ◌≢◌, MatchOption};
ghost use Rattle.prioritizer.specs.Standing.{standing_of};
ghost use Rattle.prioritizer.specs.Order.{prioritizer_cmp, name_of};

use crate::priority::compare_priorities;
use crate::rank::Rank;
use std::cmp::Ordering;

/// A rule by which some files of a queue go before others.
#[derive(Clone, Copy, Debug, PartialEq, Eq)]
pub enum Prioritizer {
    /// The lower arrival number first.
    FirstInFirstOut,
    /// The later moment of entry first.
    NewestFlowFileFirst,
    /// The earlier moment of entry first.
    OldestFlowFileFirst,
    /// The lower value of the attribute `priority` first: numbers by value, then other texts by their
    /// bytes, then files without it. A number is an optional `+` or `-` and digits, within 64 signed bits.
    PriorityAttribute,
}

impl Prioritizer {
    /// Its name in NiFi.
    pub fn name(self) -> &'static str
        ensures { result.now ≡ name_of self }
    {
        match self {
            Prioritizer::FirstInFirstOut => "FirstInFirstOut",
            Prioritizer::NewestFlowFileFirst => "NewestFlowFileFirst",
            Prioritizer::OldestFlowFileFirst => "OldestFlowFileFirst",
            Prioritizer::PriorityAttribute => "PriorityAttribute",
        }
    }

    /// The one that has this name, and `None` exactly where none has.
    pub fn named(name: &str) -> Option<Prioritizer>
        ensures { MatchOption result ((other : Prioritizer) → name_of other ≢ name.now)
            (λ found. name_of found ≡ name.now) }
    {
        match name {
            "FirstInFirstOut" => Some(Prioritizer::FirstInFirstOut),
            "NewestFlowFileFirst" => Some(Prioritizer::NewestFlowFileFirst),
            "OldestFlowFileFirst" => Some(Prioritizer::OldestFlowFileFirst),
            "PriorityAttribute" => Some(Prioritizer::PriorityAttribute),
            _ => None,
        }
    }

    pub(crate) fn compare(self, a: &Rank, b: &Rank) -> Ordering
        ensures { result ≡ prioritizer_cmp self (standing_of a.now) (standing_of b.now) }
    {
        match self {
            Prioritizer::FirstInFirstOut => a.arrival.cmp(&b.arrival),
            Prioritizer::NewestFlowFileFirst => b.entered.cmp(&a.entered),
            Prioritizer::OldestFlowFileFirst => a.entered.cmp(&b.entered),
            Prioritizer::PriorityAttribute => compare_priorities(a.priority, b.priority),
        }
    }
}
