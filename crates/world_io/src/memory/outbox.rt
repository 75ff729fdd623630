//! An outbox in memory.
ghost use Rattle.std.specs.Prelude.{◌≡◌, ◌≢◌, ◌⊎◌, ◌↔◌, true, ℕ, List, [], ◌∷◌, ◌++◌, length, map, is_some, IfOk, OnOk, OnErr, IsErr, bytes_eq};
ghost use Rattle.std.specs.List.{IsDistinct};
ghost use Rattle.std.specs.Option.{option_copied};
ghost use Rattle.std.proofs.lemmas.Map.Keys.{IsDistinct-prop};
ghost use Rattle.flowfile_record.specs.NamedFile.{bytes_of, with_file};
ghost use Rattle.world_io.specs.Memory.{EachOnce, Indexes, file_of, names_of};
ghost use Rattle.world_io.specs.Places.{Indexes-prop};

use crate::memory::places::{Places, note_place, place_among, places_of};
use crate::{Name, Outbox};
use disk_trait::{Calls, Failed};
use std::alloc::AllocError;

/// Keeps the files that are put into it, and a copy of each put.
#[derive(Debug, Drop)]
pub struct MemoryOutbox {
    files: Vec<(Name, Vec<u8>)>,
    // Where each file stands. Without memory for it, a call goes over all files.
    places: Option<Places>,
    puts: Vec<(Name, Vec<u8>)>,
    /// Its calls so far.
    pub calls: Calls,
    ghost once: { IsDistinct bytes_eq (names_of files.items) } by { IsDistinct-prop bytes_eq (names_of files.items) },
    ghost indexed: { Indexes places files.items } by { Indexes-prop places files.items },
}

impl MemoryOutbox {
    ghost use Rattle.world_io.specs.MemoryOutbox.{files_standing};

    /// An outbox in which these files stand. Its calls with the listed numbers fail, counted from 1.
    pub fn new(files: Vec<(Name, Vec<u8>)>, failing: Vec<u64>) -> MemoryOutbox
        requires { EachOnce (names_of files.items) }
        ensures files { files_standing result ≡ map file_of files.items }
        ensures standing { ⟦<MemoryOutbox as Outbox>⟧.standing result ≡ bytes_of (map file_of files.items) }
        ensures puts { ⟦<MemoryOutbox as Outbox>⟧.puts result ≡ [] }
        ensures faults { ⟦<MemoryOutbox as Outbox>⟧.faults result ≡ 0 }
        ensures calls { result.calls ≡ record { failing = failing; count = 0; faults = 0 } }
    {
        let alloc = *files.allocator();
        MemoryOutbox {
            places: places_of(alloc, &files).ok(),
            files,
            puts: Vec::new(alloc),
            calls: Calls::new(failing),
        }
    }

    /// What stands under the name.
    pub fn standing(&self, name: &Name) -> Option<&[u8]>
        ensures { option_copied result ≡ ⟦<MemoryOutbox as Outbox>⟧.standing self.now name.now }
    {
        let place = place_among(&self.files, &self.places, name)?;
        Some(&self.files[place].1)
    }

    /// How many files stand there.
    pub fn count(&self) -> usize
        ensures count { result ≡ length (files_standing self.now) }
        ensures files { ⟦<MemoryOutbox as Outbox>⟧.standing self.now ≡ bytes_of (files_standing self.now) }
        ensures once { EachOnce (map (λ file. file.name) (files_standing self.now)) }
    {
        self.files.len()
    }

    /// The files that were put into it, in order, also where a put failed behind its beginning.
    pub fn puts(&self) -> &[(Name, Vec<u8>)]
        ensures { map file_of result.now ≡ ⟦<MemoryOutbox as Outbox>⟧.puts self.now }
    {
        &self.puts
    }
}

#[tactic(auto, using(disk_trait::proofs::Counts::counts_any))]
impl Outbox for MemoryOutbox {
    ghost use Rattle.disk_trait.specs.Called.{Called, FailsNext};
    ghost use Rattle.world_io.specs.MemoryOutbox.{files_put, files_standing, standing_in};

    ghost tells = { true };

    ghost standing = { standing_in };

    ghost puts = { files_put };

    ghost faults = { λ outbox. outbox.calls.faults };

    fn holds(&mut self, name: &Name) -> Result<bool, Failed>
        ensures holds { IfOk result (λ answer. answer ≡ is_some (standing_in self.old name.now)) }
        ensures files { files_standing self.new ≡ files_standing self.old }
        ensures puts { files_put self.new ≡ files_put self.old }
        ensures fails { IsErr result ↔ FailsNext self.old.calls }
        ensures called { Called self.old.calls self.new.calls (IsErr result) }
    {
        self.calls.begin()?;
        Ok(place_among(&self.files, &self.places, name).is_some())
    }

    /// Where memory refuses to grow, the call fails. A failed call leaves the files that stand there.
    fn put(&mut self, name: &Name, bytes: &[u8]) -> Result<(), Failed>
        ensures put { OnOk result (standing_in self.new ≡ with_file (standing_in self.old) name.now bytes.now) }
        ensures others { (other : List ℕ) → other ≢ name.now → standing_in self.new other ≡ standing_in self.old other }
        ensures tried { (files_put self.new ≡ files_put self.old ++ record { name = name.now; bytes = bytes.now } ∷ [])
            ⊎ (IsErr result × (files_put self.new ≡ files_put self.old)) }
        ensures failed { OnErr result (files_standing self.new ≡ files_standing self.old) }
        ensures fails { FailsNext self.old.calls → IsErr result }
        ensures called { Called self.old.calls self.new.calls (IsErr result) }
    {
        self.calls.begin()?;
        let Ok(()) = note_file(&mut self.puts, name, bytes) else {
            return Err(self.calls.fault());
        };
        match put_file(&mut self.files, &mut self.places, name, bytes) {
            Ok(()) => Ok(()),
            Err(_) => Err(self.calls.fault()),
        }
    }
}

// Notes a file behind those that were put.
fn note_file(puts: &mut Vec<(Name, Vec<u8>)>, name: &Name, bytes: &[u8]) -> Result<(), AllocError>
    ensures noted { OnOk result (map file_of puts.new.items
        ≡ map file_of puts.old.items ++ record { name = name.now; bytes = bytes.now } ∷ []) }
    ensures err { OnErr result (puts.new.items ≡ puts.old.items) }
{
    let copy = Vec::from_slice(*puts.allocator(), bytes)?;
    puts.push((name.clone()?, copy))?;
    Ok(())
}

// Puts a file in place of the one of its name, or behind the others.
fn put_file(
    files: &mut Vec<(Name, Vec<u8>)>,
    places: &mut Option<Places>,
    name: &Name,
    bytes: &[u8],
) -> Result<(), AllocError>
    requires once { IsDistinct bytes_eq (names_of files.old.items) }
    requires places { Indexes places.old files.old.items }
    ensures put { OnOk result (bytes_of (map file_of files.new.items)
        ≡ with_file (bytes_of (map file_of files.old.items)) name.now bytes.now) }
    ensures once { IsDistinct bytes_eq (names_of files.new.items) }
    ensures places { Indexes places.new files.new.items }
    ensures err { OnErr result (files.new.items ≡ files.old.items) }
{
    let copy = Vec::from_slice(*files.allocator(), bytes)?;
    match place_among(files, places, name) {
        Some(place) => {
            let file = &mut files[place];
            file.1 = copy;
        }
        None => {
            let file = (name.clone()?, copy);
            files.reserve(1)?;
            note_place(places, name, files.len())?;
            files.push_reserved(file);
        }
    }
    Ok(())
}
