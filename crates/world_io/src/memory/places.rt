//! Where files stand, by their names.
ghost use Rattle.std.specs.Prelude.{◌≡◌, ℕ, List, [], ◌∷◌, ◌++◌, None, Some, Vec, length, position, IfOk, OnErr, OnOk, bytes_eq};
ghost use Rattle.std.specs.List.{IsDistinct};
ghost use Rattle.std.specs.declared.alloc.Global.{Global as TheGlobal};
ghost use Rattle.world_io.specs.Memory.{Indexes, names_of};

use crate::Name;
use crate::memory::files::place_of;
use std::alloc::{AllocError, Global};
use std::collections::BTreeMap;

/// The place of each file among others, by its name.
pub type Places = BTreeMap<Name, usize>;

/// The places of these files.
pub fn places_of(alloc: Global, files: &[(Name, Vec<u8>)]) -> Result<Places, AllocError>
    requires { IsDistinct bytes_eq (names_of files.now) }
    ensures { IfOk result (λ places. Indexes (Some places) files.now) }
{
    let mut places = BTreeMap::new(alloc);
    for (place, (name, _)) in files.iter().enumerate() {
        places.insert(name.clone()?, place)?;
    }
    Ok(places)
}

/// Where the first file of that name stands. Without an index the files are looked through.
pub fn place_among(files: &[(Name, Vec<u8>)], places: &Option<Places>, name: &Name) -> Option<usize>
    requires { Indexes places.now files.now }
    ensures { result ≡ position (λ file. bytes_eq file.0 name.now) files.now }
{
    match places {
        Some(places) => places.get(name).copied(),
        None => place_of(files, name),
    }
}

/// Notes the place of a new name behind the others.
pub fn note_place(places: &mut Option<Places>, name: &Name, place: usize) -> Result<(), AllocError>
    ensures ok { OnOk result ((files : List (List ℕ × Vec ℕ TheGlobal)) (bytes : Vec ℕ TheGlobal)
        → Indexes places.old files → length files ≡ place → position (λ file. bytes_eq file.0 name.now) files ≡ None
        → Indexes places.new (files ++ (name.now, bytes) ∷ [])) }
    ensures err { OnErr result ((files : List (List ℕ × Vec ℕ TheGlobal)) → Indexes places.old files
        → Indexes places.new files) }
{
    if let Some(places) = places {
        places.insert(name.clone()?, place)?;
    }
    Ok(())
}
