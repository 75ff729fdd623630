//! What a measurement tells.
use std::alloc::{Alloc, Global};
use std::fs::{self, Files};

/// Where Linux tells how many nanoseconds of the processor a process has had; a blank stands behind them.
const PROCESSOR_TIME: &str = "/proc/self/schedstat";

/// How much came out, and how much time of the processor that took, in nanoseconds.
#[derive(Clone, Copy, Drop)]
pub struct Measured {
    pub count: u64,
    pub took: u64,
}

/// What a part of the engine did, and where there is something beside it, what that did: a plain loop over the same bytes,
/// or the same flow without expressions.
#[derive(Clone, Copy, Drop)]
pub struct Compared {
    pub engine: Measured,
    pub plain: Option<Measured>,
}

impl Compared {
    /// What a part of the engine did, with nothing beside it.
    pub fn alone(count: u64, took: u64) -> Compared {
        Compared {
            engine: Measured { count, took },
            plain: None,
        }
    }
}

/// How many nanoseconds of the processor this process has had, and 0 where the system doesn't tell.
pub fn processor_time<R: Files + Alloc<A = Global>>(rt: &R) -> u64 {
    let Ok(told) = fs::read_to_string(rt, PROCESSOR_TIME) else {
        return 0;
    };
    match told.split(' ').next() {
        Some(first) => first.parse::<u64>().unwrap_or(0),
        None => 0,
    }
}

/// How many of them since a time.
pub fn since<R: Files + Alloc<A = Global>>(rt: &R, start: u64) -> u64 {
    processor_time(rt).saturating_sub(start)
}
