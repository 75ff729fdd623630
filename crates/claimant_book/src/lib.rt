//! How many claim each slot of a book, counted by threads that share it.
#![tactic(auto)]

mod keeper;
mod law;
mod opened;
mod plays;
mod reply;
mod share;
mod shares;
mod table;
#[cfg(test)]
mod tests;
mod token;
mod view;
mod word;

pub use keeper::Keeper;
pub use law::a_count_of_the_keepers_holds_leaves_no_other_hold;
pub use opened::Opened;
pub use reply::{Retire, ShareError, Stage, Take};
pub use share::{HELD_MAX, Share};
pub use shares::SHARES_MAX;
pub use table::Book;
pub use token::BookName;
pub use view::{Find, Role, Spot, View};
