//! An inbox in memory.
ghost use Rattle.std.specs.Prelude.{◌≡◌, ◌↔◌, ◌≤◌, Some, true, [], length, map, IsSome, IfSome, IfOk, OnOk, OnErr, IsErr, IsErrOf, IsPermutation};
ghost use Rattle.flowfile_record.specs.NamedFile.{bytes_of, without};
ghost use Rattle.world_io.specs.Inbox.{IsAscending};
ghost use Rattle.world_io.specs.Ascending.{IsAscending-prop};
ghost use Rattle.world_io.specs.Memory.{EachOnce, file_of, names_of, IsPlaceOf};

use crate::memory::files::{copy_names, place_of};
use crate::{CONTENT_MAX, Inbox, Name, WorldError};
use disk_trait::{Calls, Failed};

/// Files that are taken by their names.
#[derive(Debug, Drop)]
pub struct MemoryInbox {
    files: Vec<(Name, Vec<u8>)>,
    /// Its calls so far.
    pub calls: Calls,
    ghost ascends: { IsAscending (map (λ file. file.name) (map file_of files.items)) } by { IsAscending-prop
        (map (λ file. file.name) (map file_of files.items)) },
}

impl MemoryInbox {
    /// An inbox of these files, in any order. Its calls with the listed numbers fail, counted from 1.
    pub fn new(mut files: Vec<(Name, Vec<u8>)>, failing: Vec<u64>) -> MemoryInbox
        requires { EachOnce (names_of files.items) }
        ensures left { IsPermutation (map file_of files.items) (⟦<MemoryInbox as Inbox>⟧.left result) }
        ensures faults { ⟦<MemoryInbox as Inbox>⟧.faults result ≡ 0 }
        ensures calls { result.calls ≡ record { failing = failing; count = 0; faults = 0 } }
    {
        files.sort_unstable_by(|a, b| a.0.cmp(&b.0));
        MemoryInbox {
            files,
            calls: Calls::new(failing),
        }
    }

    /// The names and the bytes of the files that are left, ascending by the names' bytes.
    pub fn files_left(&self) -> &[(Name, Vec<u8>)]
        ensures { map file_of result.now ≡ ⟦<MemoryInbox as Inbox>⟧.left self.now }
    {
        &self.files
    }
}

#[tactic(auto, using(disk_trait::proofs::Counts::counts_any))]
impl Inbox for MemoryInbox {
    ghost use Rattle.disk_trait.specs.Called.{Called, FailsNext};
    ghost use Rattle.world_io.specs.MemoryInbox.{files_left};

    ghost tells = { true };

    ghost left = { files_left };

    ghost faults = { λ inbox. inbox.calls.faults };

    ghost left_ascends = { λ inbox tells. inbox.ascends };

    fn list(&mut self, names: &mut Vec<Name>) -> Result<(), WorldError>
        requires { names.old.items ≡ [] }
        ensures listed { OnOk result (names.new.items ≡ map (λ file. file.name) (files_left self.old)) }
        ensures ascending { IsAscending names.new.items }
        ensures emptied { OnErr result (names.new.items ≡ []) }
        ensures left { files_left self.new ≡ files_left self.old }
        ensures fails { IsErrOf result WorldError.Failed ↔ FailsNext self.old.calls }
        ensures called { Called self.old.calls self.new.calls (IsErrOf result WorldError.Failed) }
    {
        self.calls.begin().map_err(|_| WorldError::Failed)?;
        match copy_names(&self.files, names) {
            Ok(()) => Ok(()),
            Err(_) => {
                names.clear();
                Err(WorldError::Memory)
            }
        }
    }

    fn size(&mut self, name: &Name) -> Result<u64, Failed>
        requires { IsSome (bytes_of (files_left self.old) name.now) }
        ensures size { IfOk result (λ size. IfSome (bytes_of (files_left self.old) name.now)
            (λ bytes. size ≡ length bytes)) }
        ensures left { files_left self.new ≡ files_left self.old }
        ensures fails { IsErr result ↔ FailsNext self.old.calls }
        ensures called { Called self.old.calls self.new.calls (IsErr result) }
    {
        self.calls.begin()?;
        Ok(bytes_left(&self.files, name).len() as u64)
    }

    fn read(&mut self, name: &Name, into: &mut Vec<u8>) -> Result<(), WorldError>
        requires empty { into.old.items ≡ [] }
        requires left { IsSome (bytes_of (files_left self.old) name.now) }
        requires size { IfSome (bytes_of (files_left self.old) name.now) (λ bytes. length bytes ≤ CONTENT_MAX) }
        ensures bytes { OnOk result (bytes_of (files_left self.old) name.now ≡ Some into.new.items) }
        ensures most { OnOk result (length into.new.items ≤ CONTENT_MAX) }
        ensures left { files_left self.new ≡ files_left self.old }
        ensures fails { IsErrOf result WorldError.Failed ↔ FailsNext self.old.calls }
        ensures called { Called self.old.calls self.new.calls (IsErrOf result WorldError.Failed) }
    {
        self.calls.begin().map_err(|_| WorldError::Failed)?;
        match into.extend_from_slice(bytes_left(&self.files, name)) {
            Ok(()) => Ok(()),
            Err(_) => Err(WorldError::Memory),
        }
    }

    fn remove(&mut self, name: &Name) -> Result<(), Failed>
        requires { IsSome (bytes_of (files_left self.old) name.now) }
        ensures removed { OnOk result (files_left self.new ≡ without name.now (files_left self.old)) }
        ensures failed { OnErr result (files_left self.new ≡ files_left self.old) }
        ensures fails { IsErr result ↔ FailsNext self.old.calls }
        ensures called { Called self.old.calls self.new.calls (IsErr result) }
    {
        self.calls.begin()?;
        let place = place_left(&self.files, name);
        drop(self.files.remove(place));
        Ok(())
    }
}

// Where a file of that name stands.
fn place_left(files: &[(Name, Vec<u8>)], name: &Name) -> usize
    requires { IsSome (bytes_of (map file_of files.now) name.now) }
    ensures { IsPlaceOf name.now files.now result }
{
    place_of(files, name).unwrap()
}

// The bytes of a file of that name.
fn bytes_left<'a>(files: &'a [(Name, Vec<u8>)], name: &Name) -> &'a [u8]
    requires { IsSome (bytes_of (map file_of files.now) name.now) }
    ensures { bytes_of (map file_of files.now) name.now ≡ Some result.now }
{
    let (_, bytes) = &files[place_left(files, name)];
    bytes
}
