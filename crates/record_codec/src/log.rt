//! The gates of a log, and what its bytes say.
ghost use Rattle.std.specs.Prelude.{◌≡◌, ◌≢◌, ℕ, ◌≤◌, IsTrue, List, [], ◌∷◌, ◌++◌, length, take, Some, Ok, Err};
ghost use Rattle.std.specs.List.{list_all};
ghost use Rattle.record_codec.specs.Block.{block};
ghost use Rattle.record_codec.specs.BlockEntries.{entries_in};
ghost use Rattle.record_codec.specs.LogEntries.{LogRead, LogDamage, belongs, log_of, log_with_more, IsFirstDamage};
ghost use Rattle.record_codec.specs.declared.entry.LogEntry.{LogEntry as Entry};

use crate::PAYLOAD_MAX;

/// The byte before a block that counts.
pub const OPEN_GATE: u8 = 0x5A;

/// The byte at the end of a log. What stands behind it doesn't count.
pub const CLOSED_GATE: u8 = 0x00;

/// A log's entries end at its last gate: a gate that isn't open, or is the last byte, can stand there with anything
/// behind it, or be missing.
pub fn last_gates_end_a_log()
    ensures missing { (version : ℕ) (bytes : List ℕ) (read : LogRead) → log_of version bytes ≡ Ok read
        → log_of version (take read.end bytes) ≡ Ok read }
    ensures last_byte { (version : ℕ) (bytes : List ℕ) (read : LogRead) (gate : ℕ) → log_of version bytes ≡ Ok read
        → log_of version (take read.end bytes ++ gate ∷ []) ≡ Ok read }
    ensures not_open { (version : ℕ) (bytes : List ℕ) (read : LogRead) (gate : ℕ) (behind : List ℕ)
        → log_of version bytes ≡ Ok read → gate ≢ OPEN_GATE
        → log_of version (take read.end bytes ++ gate ∷ behind) ≡ Ok read }
{}

/// With a block behind the last gate that holds entries of the log's version, and a closed gate behind the block, a log
/// has these entries more as soon as that gate opens.
pub fn an_open_gate_adds_entries()
    ensures { (version : ℕ) (bytes : List ℕ) (read : LogRead) (kind : ℕ) (payload : List ℕ) (entries : List Entry)
        → log_of version bytes ≡ Ok read → entries_in kind payload ≡ Some entries
        → IsTrue (list_all (belongs version) entries) → length payload ≤ PAYLOAD_MAX
        → log_of version (take read.end bytes ++ OPEN_GATE ∷ (block kind payload ++ CLOSED_GATE ∷ []))
        ≡ Ok (log_with_more read entries (length (block kind payload))) }
{}

/// The damage of a log is the first one, and where there is a first damage, the log has it.
pub fn the_first_damage_is_told()
    ensures told { (version : ℕ) (bytes : List ℕ) (damage : LogDamage) → log_of version bytes ≡ Err damage
        → IsFirstDamage version bytes damage }
    ensures only { (version : ℕ) (bytes : List ℕ) (damage : LogDamage) → IsFirstDamage version bytes damage
        → log_of version bytes ≡ Err damage }
{}
