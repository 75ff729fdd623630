//! Where a flow takes its files from.
ghost use Rattle.std.specs.Prelude.{◌≡◌, ◌⊎◌, ℕ, ◌<◌, ◌≤◌, Bool, List, [], length, map, IsTrue, IsSome, IfSome, Some, IfOk, OnOk, OnErr, IsErr, IsErrOf};
ghost use Rattle.disk_trait.specs.Faults.{CountsFaults};
ghost use Rattle.flowfile_record.specs.NamedFile.{NamedFile, bytes_of, without};
ghost use Rattle.world_io.specs.Inbox.{IsAscending};

use crate::{CONTENT_MAX, Name, WorldError};
use disk_trait::Failed;

/// A folder of files that nobody else changes. The bytes of its files stay, and the files that are left
/// shrink by `remove` alone.
pub trait Inbox: Send {
    /// Whether clauses may speak of what this type of inbox holds.
    ghost tells: { Bool };

    /// The files that are left, ascending by the bytes of their names, where the inbox tells.
    ghost left: { Self → List NamedFile };

    /// How often the inbox has failed, up to 2^64 - 1. It never falls.
    ghost faults: { Self → ℕ };

    /// Fills an empty list with the names that are left, ascending by their bytes, each once.
    fn list(&mut self, names: &mut Vec<Name>) -> Result<(), WorldError>
        requires { names.old.items ≡ [] }
        ensures listed { OnOk result (IsTrue tells → names.new.items ≡ map (λ file. file.name) (left self.old)) }
        ensures ascending { IsAscending names.new.items }
        ensures emptied { OnErr result (names.new.items ≡ []) }
        ensures left { left self.new ≡ left self.old }
        ensures cause { CountsFaults (faults self.old) (faults self.new) (IsErrOf result WorldError.Failed) };

    /// The size of a file that is left, in bytes.
    fn size(&mut self, name: &Name) -> Result<u64, Failed>
        requires { IsTrue tells → IsSome (bytes_of (left self.old) name.now) }
        ensures size { IfOk result (λ size. IsTrue tells
            → IfSome (bytes_of (left self.old) name.now) (λ bytes. size ≡ length bytes)) }
        ensures left { left self.new ≡ left self.old }
        ensures cause { CountsFaults (faults self.old) (faults self.new) (IsErr result) };

    /// Fills an empty vector with the bytes of a file that is left and that has at most [`CONTENT_MAX`].
    /// After an error the vector may hold anything.
    fn read(&mut self, name: &Name, into: &mut Vec<u8>) -> Result<(), WorldError>
        requires empty { into.old.items ≡ [] }
        requires left { IsTrue tells → IsSome (bytes_of (left self.old) name.now) }
        requires size { IsTrue tells → IfSome (bytes_of (left self.old) name.now)
            (λ bytes. length bytes ≤ CONTENT_MAX) }
        ensures bytes { OnOk result (IsTrue tells → bytes_of (left self.old) name.now ≡ Some into.new.items) }
        ensures most { OnOk result (length into.new.items ≤ CONTENT_MAX) }
        ensures left { left self.new ≡ left self.old }
        ensures cause { CountsFaults (faults self.old) (faults self.new) (IsErrOf result WorldError.Failed) };

    /// Removes a file that is left. After a failure it is left or gone.
    fn remove(&mut self, name: &Name) -> Result<(), Failed>
        requires { IsTrue tells → IsSome (bytes_of (left self.old) name.now) }
        ensures removed { OnOk result (IsTrue tells → left self.new ≡ without name.now (left self.old)) }
        ensures failed { OnErr result (IsTrue tells → (left self.new ≡ left self.old)
            ⊎ (left self.new ≡ without name.now (left self.old))) }
        ensures cause { CountsFaults (faults self.old) (faults self.new) (IsErr result) };

    /// The names that are left ascend, each once.
    ghost left_ascends: { (inbox : Self) → IsTrue tells → IsAscending (map (λ file. file.name) (left inbox)) };
}
