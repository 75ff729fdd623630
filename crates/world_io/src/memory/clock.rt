//! A clock that goes on by a step at each look.
ghost use Rattle.std.specs.Prelude.{◌≡◌, ⊤, ◌+◌, ◌-◌, ◌^◌, ◌≤◌, min, max};

use crate::Clock;

/// A clock that no time moves: a call of `now` moves it by a step, and `wait` to the moment that it
/// waits for.
#[derive(Clone, Copy, Debug)]
pub struct MemoryClock {
    /// The last moment that it gave or waited for.
    pub time: u64,
    /// What the next `now` gives.
    pub next: u64,
    /// How far each `now` moves it.
    pub step: u64,
    ghost forward: { time ≤ next },
}

impl MemoryClock {
    /// The first `now` gives `start`.
    pub fn new(start: u64, step: u64) -> MemoryClock
        ensures time { ⟦<MemoryClock as Clock>⟧.time result ≡ start }
        ensures next { result.next ≡ start }
        ensures step { result.step ≡ step }
    {
        MemoryClock {
            time: start,
            next: start,
            step,
        }
    }
}

impl Clock for MemoryClock {
    ghost time = { λ clock. clock.time };

    ghost given = { λ _. ⊤ };

    fn now(&mut self) -> u64
        ensures given { result ≡ self.old.next }
        ensures moment { result ≡ self.new.time }
        ensures later { self.old.time ≤ self.new.time }
        ensures next { self.new.next ≡ min (self.old.next + self.old.step) (2 ^ 64 - 1) }
        ensures step { self.new.step ≡ self.old.step }
    {
        self.time = self.next;
        self.next = self.next.saturating_add(self.step);
        self.time
    }

    fn wait(&mut self, until: u64)
        ensures waited { until ≤ self.new.time }
        ensures later { self.old.time ≤ self.new.time }
        ensures time { self.new.time ≡ max self.old.time until }
        ensures next { self.new.next ≡ max self.old.next until }
        ensures step { self.new.step ≡ self.old.step }
    {
        self.next = self.next.max(until);
        self.time = self.time.max(until);
    }
}
