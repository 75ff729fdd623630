//! In which order the files of a queue go: prioritizers, and the orders that lists of them make.
#![tactic(auto)]

mod laws;
mod order;
mod prioritizer;
mod priority;
mod rank;

pub use laws::{
    first_teller_decides, numbers_go_by_value, only_one_arrival_ties, orders_are_total,
};
pub use order::Order;
pub use prioritizer::Prioritizer;
pub use rank::Rank;
