//! The attributes that an expression is evaluated over.

/// Attributes by their names: those of a flow file, and whatever else has a name there.
pub trait Subject {
    ghost use Rattle.std.specs.Prelude.{◌≡◌, List, ℕ, Option};
    ghost use Rattle.std.specs.Option.{option_copied};

    ghost attributes: { Self → List ℕ → Option (List ℕ) };

    /// The value of the attribute of this name, or `None` where it is missing.
    fn find(&self, name: &str) -> Option<&str>
        ensures { option_copied result ≡ attributes self.now name.now };
}
