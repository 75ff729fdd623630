//! The words that a command is given, read.
#![tactic(auto)]

mod argument;
mod command;
mod error;
mod number;
mod reading;

pub use command::{
    CHECKPOINT_MAX, COMMITS_MAX, Command, DEFAULT_CHECKPOINT, DEFAULT_COMMITS, DEFAULT_THREADS,
    RunOptions, THREADS_MAX, TRIAL_MAX, numbers_of_commands,
};
pub use error::WordsError;
pub use number::DIGITS_MAX;
pub use reading::read_words;

#[cfg(test)]
mod tests;
