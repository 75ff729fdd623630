//! What the sessions of an engine did, in the order in which it happened, whichever of them are in flight together.
//!
//! The definitions stand in `specs/`: a history is a list of moves (`specs/History.antt`), and an engine in memory is at a
//! point of it (`specs/Laws.antt`). Each law is the contract of a function that does nothing.
#![tactic(auto)]

mod laws;
mod runs;

pub use laws::{
    histories_are_replays, histories_begin, histories_come_in_turn, histories_go_on, moves_are_made,
};
pub use runs::{calls_play_on, played_runs_begin, played_runs_end};
