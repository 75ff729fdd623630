//! The machine's clock.
ghost use Rattle.std.specs.Prelude.{◌≡◌, ⊤, ◌≤◌};

use std::time::{Duration, SystemTime, UNIX_EPOCH};
use std::{rt, thread};
use world_io::Clock;

/// The longest sleep of one wait, in milliseconds: a day.
const LONGEST_SLEEP: u64 = 86_400_000;

/// The milliseconds since 1970, by the system's clock. Where that goes back, or gives no time, the last
/// answer is repeated. A wait counts as having reached its moment, also where it ended after a day.
#[derive(Drop)]
pub struct MachineClock<'r, R> {
    rt: &'r R,
    last: u64,
}

impl<'r, R: rt::Clock + Sync> MachineClock<'r, R> {
    /// The clock, which has told no time yet.
    pub fn new(rt: &'r R) -> MachineClock<'r, R>
        ensures { ⟦<MachineClock<'r, R> as Clock>⟧.time result ≡ 0 }
    {
        MachineClock { rt, last: 0 }
    }
}

impl<'r, R: rt::Clock + Sync> Clock for MachineClock<'r, R> {
    ghost time = { λ clock. clock.last };

    ghost given = { λ _. ⊤ };

    fn now(&mut self) -> u64 {
        self.last = self.last.max(milliseconds(self.rt));
        self.last
    }

    fn wait(&mut self, until: u64) {
        let now = self.last.max(milliseconds(self.rt));
        let rest = until.saturating_sub(now).min(LONGEST_SLEEP);
        if rest > 0 {
            thread::sleep(self.rt, Duration::from_millis(rest));
        }
        self.last = now.max(until);
    }
}

/// The system's time, or 0 where it gives none.
fn milliseconds<R: rt::Clock>(rt: &R) -> u64 {
    let Ok(now) = SystemTime::now(rt) else {
        return 0;
    };
    let Ok(since) = now.duration_since(UNIX_EPOCH) else {
        return 0;
    };
    u64::try_from(since.as_millis()).unwrap_or(u64::MAX)
}
