//! The whole run of a flow: its text, its store, and from the inbox through the store to the outbox.
#![tactic(auto)]

mod answer;
mod asking;
mod command;
mod opening;
mod order;
mod printing;
mod status;
mod text;
mod trying;

pub use answer::Answer;
pub use asking::ask;
pub use command::run;
pub use order::{Order, order_of};
pub use printing::{OTHER_FLOW_RULE, tell_refusal};
pub use status::{
    ABSENT, BLOCKED, DAMAGED, DISK_FAULT, DONE, FLOW_REFUSED, INBOX_FAULT, LIMIT, OUT_OF_MEMORY,
    OUTBOX_FAULT, SINK_FAULT, SOURCE_FAULT, USAGE,
};
pub use trying::trial;

#[cfg(test)]
mod tests;
