//! One store over three repositories: the log of what happened, the contents, and the snapshot that both begin from.
//!
//! Whatever a stop leaves of its files stands for one state: that before the change that was under way, or that after.
#![tactic(auto)]

mod checkpoint;
mod commit;
mod contents;
mod discard;
mod error;
mod flow;
mod law;
mod load;
mod prepared;
mod reading;
mod revival;
mod seen;
mod still;
mod store;

pub use error::StoreError;
pub use flow::FlowIdentity;
pub use kept_state::{Limit, NUMBER_MAX, Which};
pub use law::{
    files_of_no_store_stand_for_a_new_one, files_that_agree_stand_for_the_same,
    what_is_kept_is_a_state,
};
pub use prepared::{Prepared, SettledExpiry};
pub use seen::{Seen, read_store};
pub use store::Store;
