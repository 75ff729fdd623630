//! The origins of the files of an outcome.
ghost use Rattle.std.specs.Prelude.{◌≡◌, ◌≤◌, ◌++◌, ◌∷◌, All, List, length, map, IfOk, OnOk};
ghost use Rattle.process_session.specs.declared.file.File.{File as Held};
ghost use Rattle.process_session.specs.Finish.{joined_of, origin_in};
ghost use Rattle.process_session.specs.Finishing.{AreMarkedBelow, AreMarkedUpto, IsInside, kept_origins, only_one, origin_with, places_of};

use super::is_left_out;
use super::standing::{Stand, new_marks, standing_for_parents};
use crate::FILES_MAX;
use crate::file::File;
use crate::session::making::numbers_of;
use flowfile_record::Origin;
use std::alloc::{AllocError, Global};

/// The origins of the files that are kept, by the places of the outcome.
pub(super) fn origins_in(
    alloc: Global,
    stands: &[Stand],
    files: &[File],
) -> Result<Vec<Origin>, AllocError>
    requires few { length files.now ≤ FILES_MAX }
    requires inside { All (IsInside (length files.now)) stands.now }
    ensures { IfOk result (λ origins. origins.items ≡ kept_origins (map places_of stands.now) files.now) }
{
    let mut met = new_marks(alloc, files.len())?;
    origins_with(alloc, met.as_mut_slice(), stands, files)
}

fn origins_with(
    alloc: Global,
    met: &mut [u64],
    stands: &[Stand],
    files: &[File],
) -> Result<Vec<Origin>, AllocError>
    requires few { length files.now ≤ FILES_MAX }
    requires inside { All (IsInside (length met.old)) stands.now }
    requires upto { AreMarkedUpto met.old 0 }
    ensures { IfOk result (λ origins. origins.items ≡ kept_origins (map places_of stands.now) files.now) }
{
    let mut origins = Vec::new(alloc);
    let mut round = 0;
    for file in files {
        round += 1;
        add_origin(&mut origins, alloc, met, round, stands, file)?;
    }
    Ok(origins)
}

/// The origin of one more file is added, where it is kept.
fn add_origin(
    origins: &mut Vec<Origin>,
    alloc: Global,
    met: &mut [u64],
    round: u64,
    stands: &[Stand],
    file: &File,
) -> Result<(), AllocError>
    requires below { AreMarkedBelow met.old round }
    requires inside { All (IsInside (length met.old)) stands.now }
    ensures origins { OnOk result ((more : List Held)
        → origins.new.items ++ kept_origins (map places_of stands.now) more
        ≡ origins.old.items ++ kept_origins (map places_of stands.now) (file.now ∷ more)) }
    ensures upto { OnOk result (AreMarkedUpto met.new round) }
{
    if is_left_out(file) {
        return Ok(());
    }
    let origin = origin_in(alloc, met, round, stands, &file.origin)?;
    origins.push(origin)?;
    Ok(())
}

fn origin_in(
    alloc: Global,
    met: &mut [u64],
    round: u64,
    stands: &[Stand],
    origin: &Origin,
) -> Result<Origin, AllocError>
    requires below { AreMarkedBelow met.old round }
    requires inside { All (IsInside (length met.old)) stands.now }
    ensures origin { IfOk result (λ new. new ≡ origin_in (map places_of stands.now) origin.now) }
    ensures upto { OnOk result (AreMarkedUpto met.new round) }
{
    let left = standing_for_parents(alloc, met, round, stands, origin)?;
    origin_with(alloc, origin, &left)
}

/// An origin, of whose named parents these places are left.
fn origin_with(alloc: Global, origin: &Origin, left: &[u32]) -> Result<Origin, AllocError>
    ensures { IfOk result (λ new. new ≡ origin_with origin.now left.now) }
{
    match (origin, only_one(left)) {
        (Origin::Taken(place), _) => Ok(Origin::Taken(*place)),
        (Origin::Created, _) => Ok(Origin::Created),
        (Origin::Received, _) => Ok(Origin::Received),
        (Origin::Forked(_), Some(parent)) => Ok(Origin::Forked(parent)),
        (Origin::Part(_), Some(parent)) => Ok(Origin::Part(parent)),
        (Origin::Cloned(_), Some(parent)) => Ok(Origin::Cloned(parent)),
        _ => joined_of(alloc, left),
    }
}

fn only_one(places: &[u32]) -> Option<u32>
    ensures { result ≡ only_one places.now }
{
    match places {
        [place] => Some(*place),
        _ => None,
    }
}

fn joined_of(alloc: Global, places: &[u32]) -> Result<Origin, AllocError>
    ensures { IfOk result (λ origin. origin ≡ joined_of places.now) }
{
    if places.is_empty() {
        return Ok(Origin::Created);
    }
    Ok(Origin::Joined(numbers_of(alloc, places)?))
}
