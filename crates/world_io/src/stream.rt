//! Bytes in and bytes out.
ghost use Rattle.std.specs.Prelude.{◌≡◌, ℕ, ◌<◌, ◌≤◌, Bool, List, [], ◌++◌, length, take, IsTrue, IfOk, OnErr, IsErr};
ghost use Rattle.disk_trait.specs.Faults.{CountsFaults};

use disk_trait::Failed;

/// Where a text is read from, piece by piece.
pub trait Source {
    /// Whether clauses may speak of what this type of source holds.
    ghost tells: { Bool };

    /// The bytes that weren't read yet, where the source tells.
    ghost rest: { Self → List ℕ };

    /// How often the source has failed, up to 2^64 - 1. It never falls.
    ghost faults: { Self → ℕ };

    /// Reads into the front of a piece that isn't empty, and says how many bytes it read; 0 is the end.
    fn read(&mut self, into: &mut [u8]) -> Result<usize, Failed>
        requires { 0 < length into.old }
        ensures count { IfOk result (λ n. n ≤ length into.old) }
        ensures bytes { IfOk result (λ n. IsTrue tells → rest self.old ≡ take n into.new ++ rest self.new) }
        ensures end { IfOk result (λ n. IsTrue tells → n ≡ 0 → rest self.old ≡ []) }
        ensures failed { OnErr result (IsTrue tells → rest self.new ≡ rest self.old) }
        ensures cause { CountsFaults (faults self.old) (faults self.new) (IsErr result) };
}

/// Where a text is written to, piece by piece.
pub trait Sink {
    /// Whether clauses may speak of what this type of sink holds.
    ghost tells: { Bool };

    /// The bytes that were written, where the sink tells.
    ghost written: { Self → List ℕ };

    /// How often the sink has failed, up to 2^64 - 1. It never falls.
    ghost faults: { Self → ℕ };

    /// Writes the front of a piece that isn't empty, at least a byte of it, and says how many bytes.
    fn write(&mut self, bytes: &[u8]) -> Result<usize, Failed>
        requires { 0 < length bytes.now }
        ensures some { IfOk result (λ n. 0 < n) }
        ensures count { IfOk result (λ n. n ≤ length bytes.now) }
        ensures written { IfOk result (λ n. IsTrue tells → written self.new ≡ written self.old ++ take n bytes.now) }
        ensures failed { OnErr result (IsTrue tells → written self.new ≡ written self.old) }
        ensures cause { CountsFaults (faults self.old) (faults self.new) (IsErr result) };
}
