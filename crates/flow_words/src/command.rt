//! What the words may ask for, and the ranges and defaults of the numbers in it.
ghost use Rattle.std.specs.Prelude.{◌≡◌, ◌^◌};

use crate::number::DIGITS_MAX;
use uuid::Uuid;

/// What the words ask for.
#[derive(Clone, Copy, Debug, PartialEq, Eq)]
pub enum Command {
    /// Runs the flow.
    Run(RunOptions),
    /// Runs a flow of so many files in memory.
    Trial { count: u64, threads: u8 },
    /// Prints where the file came from and what came of it.
    Lineage(Uuid),
    /// Writes the content of the file.
    Content(Uuid),
    /// Prints the files in each queue.
    Queues,
    /// Prints the events.
    Events,
    /// Tests the store.
    Check,
}

/// How the flow is run.
#[derive(Clone, Copy, Debug, PartialEq, Eq)]
pub struct RunOptions {
    /// How many workers there are.
    pub threads: u8,
    /// How many entries the journal of a run has at most.
    pub max_commits: u64,
    /// With how many entries a log is followed by a new one.
    pub checkpoint: u64,
}

/// The number of workers where it isn't given.
pub const DEFAULT_THREADS: u8 = 4;

/// The greatest number of workers.
pub const THREADS_MAX: u8 = 16;

/// The limit of a journal's entries where it isn't given.
pub const DEFAULT_COMMITS: u64 = 1_048_576;

/// The greatest limit of a journal's entries.
pub const COMMITS_MAX: u64 = 4_194_304;

/// With how many entries a new log begins where that isn't given.
pub const DEFAULT_CHECKPOINT: u64 = 4_096;

/// The greatest number of entries with which a new log begins.
pub const CHECKPOINT_MAX: u64 = 1_000_000;

/// The greatest number of files of a trial.
pub const TRIAL_MAX: u64 = 10_000;

/// The defaults and the greatest numbers. This function does nothing: its contract is the law.
pub fn numbers_of_commands()
    ensures threads { (DEFAULT_THREADS ≡ 4) × (THREADS_MAX ≡ 16) }
    ensures commits { (DEFAULT_COMMITS ≡ 2 ^ 20) × (COMMITS_MAX ≡ 2 ^ 22) }
    ensures checkpoint { (DEFAULT_CHECKPOINT ≡ 2 ^ 12) × (CHECKPOINT_MAX ≡ 10 ^ 6) }
    ensures trial { TRIAL_MAX ≡ 10 ^ 4 }
    ensures digits { DIGITS_MAX ≡ 10 }
{}
