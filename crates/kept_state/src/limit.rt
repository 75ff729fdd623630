//! The limits that a change may pass.
ghost use Rattle.std.specs.Prelude.{◌≡◌};
ghost use Rattle.std.specs.Option.{option_or};
ghost use Rattle.kept_state.specs.Limits.{limit_passed};
ghost use Rattle.kept_state.specs.declared.limit.Which.TheVariants as which;

use flowfile_record::{LIVE_BYTES_MAX, LIVE_FILES_MAX, NUMBER_LIMIT};

/// The greatest number of a file, an arrival, an event or a batch, and of what comes next: 2^62 - 1.
pub const NUMBER_MAX: u64 = NUMBER_LIMIT - 1;

/// What is limited: the entries of a run's journal, the files that live, the bytes of their records, the claims of
/// contents, and the numbers of files, arrivals, events and batches.
#[derive(Clone, Copy, Debug, PartialEq, Eq)]
pub enum Which {
    Journal,
    Files,
    FileBytes,
    Claims,
    Numbers,
}

/// A limit that would be passed: its number, and how much was wanted.
#[derive(Clone, Copy, Debug, PartialEq, Eq)]
pub struct Limit {
    pub which: Which,
    pub number: u64,
    pub wanted: u64,
}

impl Limit {
    // The limit that a quantity passes.
    fn passed(which: Which, number: u64, wanted: u64) -> Option<Limit>
        ensures { result ≡ limit_passed which number wanted }
    {
        if wanted > number {
            return Some(Limit {
                which,
                number,
                wanted,
            });
        }
        None
    }

    /// The first limit of what lives that so many files with so many bytes pass.
    pub(crate) fn of_live(files: u64, bytes: u64) -> Option<Limit>
        ensures { result ≡ option_or (limit_passed which.Files LIVE_FILES_MAX files)
            (limit_passed which.FileBytes LIVE_BYTES_MAX bytes) }
    {
        Limit::passed(Which::Files, LIVE_FILES_MAX, files).or(Limit::passed(
            Which::FileBytes,
            LIVE_BYTES_MAX,
            bytes,
        ))
    }

    /// The first of these counters that passes the limit of numbers.
    pub(crate) fn of_numbers(files: u64, arrivals: u64, events: u64, batches: u64) -> Option<Limit>
        ensures { result ≡ option_or (limit_passed which.Numbers NUMBER_MAX files)
            (option_or (limit_passed which.Numbers NUMBER_MAX arrivals)
            (option_or (limit_passed which.Numbers NUMBER_MAX events)
            (limit_passed which.Numbers NUMBER_MAX batches))) }
    {
        Limit::passed(Which::Numbers, NUMBER_MAX, files)
            .or(Limit::passed(Which::Numbers, NUMBER_MAX, arrivals))
            .or(Limit::passed(Which::Numbers, NUMBER_MAX, events))
            .or(Limit::passed(Which::Numbers, NUMBER_MAX, batches))
    }
}
