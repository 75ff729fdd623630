//! Where a flow puts its files.
ghost use Rattle.std.specs.Prelude.{◌≡◌, ◌≢◌, ◌⊎◌, ℕ, Bool, List, [], ◌∷◌, ◌++◌, Option, is_some, IsTrue, IfOk, OnOk, IsErr};
ghost use Rattle.disk_trait.specs.Faults.{CountsFaults};
ghost use Rattle.flowfile_record.specs.NamedFile.{NamedFile, with_file};

use crate::Name;
use disk_trait::Failed;

/// A folder that files are put into, each under its name.
pub trait Outbox: Send {
    /// Whether clauses may speak of what this type of outbox holds.
    ghost tells: { Bool };

    /// What stands under each name, where the outbox tells.
    ghost standing: { Self → List ℕ → Option (List ℕ) };

    /// The files that were put, in order, where the outbox tells: each call of `put`, also one that failed, unless it failed
    /// before it touched anything.
    ghost puts: { Self → List NamedFile };

    /// How often the outbox has failed, up to 2^64 - 1. It never falls.
    ghost faults: { Self → ℕ };

    /// Whether something stands under the name.
    fn holds(&mut self, name: &Name) -> Result<bool, Failed>
        ensures holds { IfOk result (λ answer. IsTrue tells → answer ≡ is_some (standing self.old name.now)) }
        ensures standing { standing self.new ≡ standing self.old }
        ensures puts { puts self.new ≡ puts self.old }
        ensures cause { CountsFaults (faults self.old) (faults self.new) (IsErr result) };

    /// Puts a file under a name, in place of what stands there. After a failure the name may hold
    /// anything.
    fn put(&mut self, name: &Name, bytes: &[u8]) -> Result<(), Failed>
        ensures put { OnOk result (IsTrue tells
            → standing self.new ≡ with_file (standing self.old) name.now bytes.now) }
        ensures others { IsTrue tells → (other : List ℕ) → other ≢ name.now
            → standing self.new other ≡ standing self.old other }
        ensures tried { IsTrue tells → (puts self.new ≡ puts self.old ++ record { name = name.now; bytes = bytes.now } ∷ [])
            ⊎ (IsErr result × (puts self.new ≡ puts self.old) × (standing self.new ≡ standing self.old)) }
        ensures cause { CountsFaults (faults self.old) (faults self.new) (IsErr result) };
}
