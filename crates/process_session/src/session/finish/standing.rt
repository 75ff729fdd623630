//! Which files of the outcome stand for a file of the session.
ghost use Rattle.std.specs.Prelude.{◌≡◌, ℕ, ◌<◌, ◌≤◌, ◌==◌, [], All, List, length, map, slice_get, slice_index, unwrap_or, IfOk, OnOk};
ghost use Rattle.std.specs.List.{flat_map};
ghost use Rattle.process_session.specs.Finish.{place_in, standing_for, standing_from};
ghost use Rattle.flowfile_record.specs.Outcome.{parents_of};
ghost use Rattle.process_session.specs.Finishing.{IsInside, IsMarked, AreMarkedBelow, AreMarkedUpto, next_place, places_of, stand_at, stand_for, with_each, with_once};

use super::is_left_out;
use crate::FILES_MAX;
use crate::file::File;
use flowfile_record::Origin;
use std::alloc::{AllocError, Global};
use std::slice;

/// The files of the outcome that stand for a file of the session.
#[derive(Drop)]
pub(super) enum Stand {
    /// Itself, at this place of the outcome.
    Kept(u32),
    /// Those that stand for its parents, since it is left out.
    Gone(Vec<u32>),
}

impl Stand {
    fn places(&self) -> &[u32]
        ensures { result.now ≡ places_of self.now }
    {
        match self {
            Stand::Kept(place) => slice::from_ref(place),
            Stand::Gone(places) => places.as_slice(),
        }
    }
}

/// For each file, the files of the outcome that stand for it.
pub(super) fn stands_of(alloc: Global, files: &[File]) -> Result<Vec<Stand>, AllocError>
    requires { length files.now ≤ FILES_MAX }
    ensures stands { IfOk result (λ stands. map places_of stands.items ≡ standing_from [] 0 files.now) }
    ensures inside { IfOk result (λ stands. All (IsInside (length files.now)) stands.items) }
{
    let mut met = new_marks(alloc, files.len())?;
    stands_with(alloc, met.as_mut_slice(), files)
}

fn stands_with(alloc: Global, met: &mut [u64], files: &[File]) -> Result<Vec<Stand>, AllocError>
    requires few { length files.now ≤ FILES_MAX }
    requires length { length met.old ≡ length files.now }
    requires upto { AreMarkedUpto met.old 0 }
    ensures stands { IfOk result (λ stands. map places_of stands.items ≡ standing_from [] 0 files.now) }
    ensures inside { IfOk result (λ stands. All (IsInside (length files.now)) stands.items) }
{
    let mut stands = Vec::new(alloc);
    let mut next = 0;
    let mut round = 0;
    for file in files {
        round += 1;
        let stand = stand_for(alloc, met, round, &stands, next, file)?;
        stands.push(stand)?;
        next = next_after(next, file);
    }
    Ok(stands)
}

/// The next place of the outcome behind a file.
fn next_after(next: u32, file: &File) -> u32
    requires { next < FILES_MAX }
    ensures { result ≡ next_place next file.now }
{
    if is_left_out(file) { next } else { next + 1 }
}

/// A mark for each of so many places, of no round.
pub(super) fn new_marks(alloc: Global, places: usize) -> Result<Vec<u64>, AllocError>
    ensures length { IfOk result (λ met. length met.items ≡ places) }
    ensures upto { IfOk result (λ met. AreMarkedUpto met.items 0) }
{
    vec![in alloc; 0; places]
}

fn stand_for(
    alloc: Global,
    met: &mut [u64],
    round: u64,
    stands: &[Stand],
    next: u32,
    file: &File,
) -> Result<Stand, AllocError>
    requires below { AreMarkedBelow met.old round }
    requires inside { All (IsInside (length met.old)) stands.now }
    requires next { next < length met.old }
    ensures stand { IfOk result (λ stand. places_of stand ≡ stand_for (map places_of stands.now) next file.now) }
    ensures inside { IfOk result (IsInside (length met.new)) }
    ensures upto { OnOk result (AreMarkedUpto met.new round) }
{
    if !is_left_out(file) {
        return Ok(Stand::Kept(next));
    }
    let gone = standing_for_parents(alloc, met, round, stands, &file.origin)?;
    Ok(Stand::Gone(gone))
}

/// The files of the outcome that stand for the parents that an origin names, each once. A place counts as met where
/// its mark is the round's number.
pub(super) fn standing_for_parents(
    alloc: Global,
    met: &mut [u64],
    round: u64,
    stands: &[Stand],
    origin: &Origin,
) -> Result<Vec<u32>, AllocError>
    requires below { AreMarkedBelow met.old round }
    requires inside { All (IsInside (length met.old)) stands.now }
    ensures left { IfOk result (λ left. left.items ≡ standing_for (map places_of stands.now) (parents_of origin.now)) }
    ensures inside { IfOk result (λ left. All (λ place. place < length met.new) left.items) }
    ensures upto { OnOk result (AreMarkedUpto met.new round) }
{
    let mut left = Vec::new(alloc);
    add_parents_of(&mut left, met, round, stands, origin)?;
    Ok(left)
}

fn add_parents_of(
    left: &mut Vec<u32>,
    met: &mut [u64],
    round: u64,
    stands: &[Stand],
    origin: &Origin,
) -> Result<(), AllocError>
    requires marked { IsMarked met.old round left.old.items }
    requires inside { All (IsInside (length met.old)) stands.now }
    ensures marked { OnOk result (IsMarked met.new round left.new.items) }
    ensures left { OnOk result (left.new.items
        ≡ with_each left.old.items (flat_map (stand_at (map places_of stands.now)) (parents_of origin.now))) }
{
    match origin {
        Origin::Forked(parent) | Origin::Part(parent) | Origin::Cloned(parent) => {
            add_parents(left, met, round, stands, &[u64::from(*parent)])
        }
        Origin::Joined(parents) => add_parents(left, met, round, stands, parents.as_slice()),
        Origin::Taken(_) | Origin::Created | Origin::Received => Ok(()),
    }
}

fn add_parents(
    left: &mut Vec<u32>,
    met: &mut [u64],
    round: u64,
    stands: &[Stand],
    parents: &[u64],
) -> Result<(), AllocError>
    requires marked { IsMarked met.old round left.old.items }
    requires inside { All (IsInside (length met.old)) stands.now }
    ensures marked { OnOk result (IsMarked met.new round left.new.items) }
    ensures left { OnOk result (left.new.items
        ≡ with_each left.old.items (flat_map (stand_at (map places_of stands.now)) parents.now)) }
{
    for parent in parents {
        add_standing(left, met, round, stands, *parent as usize)?;
    }
    Ok(())
}

fn add_standing(
    left: &mut Vec<u32>,
    met: &mut [u64],
    round: u64,
    stands: &[Stand],
    parent: usize,
) -> Result<(), AllocError>
    requires marked { IsMarked met.old round left.old.items }
    requires inside { All (IsInside (length met.old)) stands.now }
    ensures marked { OnOk result (IsMarked met.new round left.new.items) }
    ensures left { OnOk result (left.new.items ≡ with_each left.old.items (stand_at
        (map places_of stands.now) parent)) }
{
    match stands.get(parent) {
        Some(stand) => add_each(left, met, round, stand.places()),
        None => Ok(()),
    }
}

fn add_each(
    left: &mut Vec<u32>,
    met: &mut [u64],
    round: u64,
    places: &[u32],
) -> Result<(), AllocError>
    requires marked { IsMarked met.old round left.old.items }
    requires inside { All (λ place. place < length met.old) places.now }
    ensures marked { OnOk result (IsMarked met.new round left.new.items) }
    ensures left { OnOk result (left.new.items ≡ with_each left.old.items places.now) }
{
    for place in places {
        add_once(left, met, round, *place)?;
    }
    Ok(())
}

fn add_once(left: &mut Vec<u32>, met: &mut [u64], round: u64, place: u32) -> Result<(), AllocError>
    requires marked { IsMarked met.old round left.old.items }
    requires inside { place < length met.old }
    ensures marked { OnOk result (IsMarked met.new round left.new.items) }
    ensures left { OnOk result (left.new.items ≡ with_once left.old.items place) }
{
    let at = place as usize;
    if met[at] == round {
        return Ok(());
    }
    left.push(place)?;
    met[at] = round;
    Ok(())
}

/// The place in the outcome of a file, where it isn't left out.
pub(super) fn place_in(stands: &[Stand], files: &[File], place: u32) -> Option<u32>
    ensures { result ≡ place_in (map places_of stands.now) files.now place }
{
    let file = files.get(place as usize)?;
    if is_left_out(file) {
        return None;
    }
    let stand = stands.get(place as usize)?;
    stand.places().first().copied()
}
