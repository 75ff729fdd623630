//! The time, and the gate round a processor's work.
ghost use Rattle.std.specs.Prelude.{◌≡◌, ◌≤◌, ℕ};

/// A clock in milliseconds that never goes back.
pub trait Clock: Send {
    /// The last moment that it gave or waited for.
    ghost time: { Self → ℕ };

    /// What holds of each moment that `now` answers. A type of clock may name any property that all its answers have, so
    /// who holds no answer can't tell it of a moment: not of a later one, nor of one that was waited for.
    ghost given: { ℕ → Type 0 };

    /// The present moment.
    fn now(&mut self) -> u64
        ensures answer { given result }
        ensures moment { result ≡ time self.new }
        ensures later { time self.old ≤ time self.new };

    /// Waits until a moment has come.
    fn wait(&mut self, until: u64)
        ensures waited { until ≤ time self.new }
        ensures later { time self.old ≤ time self.new };
}

/// What a processor's work passes on its way in and out. A test may hold a session here.
pub trait Gate: Sync {
    fn enter(&self, session: u64);

    fn leave(&self, session: u64);
}
