//! What a measurement tells.
use std::alloc::{Alloc, Global};
use std::fs::{self, Files};

/// Where Linux tells how many nanoseconds of the processor a process has had; a blank stands behind them.
const PROCESSOR_TIME: &str = "/proc/self/schedstat";

/// A part is done so many times at most.
pub const ROUNDS_MAX: u64 = 1 << 20;

/// For how many nanoseconds of the processor a part is done again and again: some kernels report them in steps of a few
/// ms.
const LONG_ENOUGH: u64 = 100_000_000;

/// How often a part is done.
#[derive(Clone, Copy, Drop)]
pub enum Rounds {
    One,
    /// As often as it takes for the system's clock.
    Enough,
}

/// How much was done, and how much time of the processor that took, in nanoseconds.
#[derive(Clone, Copy, Drop)]
pub struct Measured {
    pub count: u64,
    pub took: u64,
}

/// A watch over the rounds of a part. It goes from the start on, but for its pauses.
#[derive(Drop)]
pub struct Watch {
    wanted: Rounds,
    done: u64,
    before: u64,
    start: Option<u64>,
}

impl Watch {
    pub fn start<R: Files + Alloc<A = Global>>(rt: &R, wanted: Rounds) -> Watch {
        Watch {
            wanted,
            done: 0,
            before: 0,
            start: processor_time(rt),
        }
    }

    /// What comes isn't measured.
    pub fn pause<R: Files + Alloc<A = Global>>(&mut self, rt: &R) {
        self.before = self.gone(rt).unwrap_or(0);
    }

    /// What comes is measured again.
    pub fn go_on<R: Files + Alloc<A = Global>>(&mut self, rt: &R) {
        self.start = processor_time(rt);
    }

    /// A round is over. Answers how long one took, once there were enough, and 0 where the system doesn't tell. It is
    /// asked after 1, 2, 4, 8 rounds and so on, so that asking takes no part of the time.
    pub fn round<R: Files + Alloc<A = Global>>(&mut self, rt: &R) -> Option<u64> {
        self.done = self.done.saturating_add(1);
        if !self.done.is_power_of_two() {
            return None;
        }
        let Some(gone) = self.gone(rt) else {
            return Some(0);
        };
        match self.wanted {
            Rounds::Enough if gone < LONG_ENOUGH => None,
            _ => Some(gone / self.done.max(1)),
        }
    }

    // How long all rounds took.
    fn gone<R: Files + Alloc<A = Global>>(&self, rt: &R) -> Option<u64> {
        let gone = processor_time(rt)?.saturating_sub(self.start?);
        Some(self.before.saturating_add(gone))
    }
}

// How many nanoseconds of the processor this process has had, where the system tells.
fn processor_time<R: Files + Alloc<A = Global>>(rt: &R) -> Option<u64> {
    let Ok(told) = fs::read_to_string(rt, PROCESSOR_TIME) else {
        return None;
    };
    told.split(' ').next()?.parse::<u64>().ok()
}
