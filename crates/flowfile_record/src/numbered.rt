//! What has a number of its own.
ghost use Rattle.std.specs.Prelude.{◌≡◌, ℕ};

/// What has a number of its own, by which it is kept in a `NumberedList`.
pub trait Numbered {
    ghost number: { Self → ℕ };

    fn number(&self) -> u64
        ensures { result ≡ number self.now };
}
