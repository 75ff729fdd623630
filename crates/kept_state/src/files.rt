//! The files of a state: those that go are taken, those that are placed are put.
ghost use Rattle.std.specs.Prelude.{◌≡◌, ◌+◌, ◌<◌, ◌≤◌, ◌^◌, true, length, map};
ghost use Rattle.std.specs.List.{sum};
ghost use Rattle.kept_state.specs.Applied.{left_after, with_files};
ghost use Rattle.kept_state.specs.Fits.{active_of, are_active_in, are_active_in_one};
ghost use Rattle.kept_state.specs.Moves.{record_size_of, AreAbsent};

use crate::size::size_of;
use flowfile_record::{ActiveFile, ActiveList};

/// Takes the files of these numbers.
pub(crate) fn take_all(files: &mut ActiveList, gone: &[u64])
    ensures items { files.new.items ≡ left_after gone.now files.old.items }
    ensures room { files.old.room ≤ files.new.room }
{
    for number in gone {
        let _ = files.take(*number);
    }
}

/// Puts these files, whose numbers are new. There is room for them.
pub(crate) fn put_all(files: &mut ActiveList, placed: Vec<ActiveFile>)
    requires absent { AreAbsent placed.items files.old.items }
    requires room { length placed.items ≤ files.old.room }
    ensures items { files.new.items ≡ with_files placed.items files.old.items }
    ensures room { files.old.room ≤ files.new.room + length placed.items }
{
    for active in placed {
        files.put(active);
    }
}

/// How many bytes the records of the files of these numbers have together.
pub(crate) fn bytes_at(files: &ActiveList, numbers: &[u64]) -> u64
    requires { length numbers.now < 2 ^ 32 }
    ensures bytes { result ≡ sum (map (λ n. record_size_of (active_of n files.now.items)) numbers.now) }
    ensures most { result < 2 ^ 49 }
{
    let mut bytes = 0;
    for number in numbers {
        if let Some(active) = files.get(*number) {
            bytes += size_of(&active.file);
        }
    }
    bytes
}

/// Whether the files of these numbers are active in a connection.
pub(crate) fn are_active_in(files: &ActiveList, connection: u16, numbers: &[u64]) -> bool
    ensures { result ≡ are_active_in files.now.items connection numbers.now }
{
    for number in numbers {
        match files.get(*number) {
            Some(active) if active.connection == connection => {}
            _ => return false,
        }
    }
    true
}

/// Whether the files of these numbers are active in one connection.
pub(crate) fn are_active_in_one(files: &ActiveList, numbers: &[u64]) -> bool
    ensures { result ≡ are_active_in_one files.now.items numbers.now }
{
    let Some(first) = numbers.first() else {
        return true;
    };
    match files.get(*first) {
        Some(active) => are_active_in(files, active.connection, numbers),
        None => false,
    }
}
