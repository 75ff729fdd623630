//! The first file that is whole: a file that is no fragment, or one that is there with all others of its whole.
ghost use Rattle.std.specs.Prelude.{◌≡◌, [], All, IfOk, IsOk, OnOk};
ghost use Rattle.machine_model.specs.declared.kind.TakeRule.TheVariants.{Defragment};
ghost use Rattle.flow_queue.specs.Fragments.{HasItsFragment, IsNoted, IsTry, AreFirst, candidate_views, part_numbers_from};
ghost use Rattle.flow_queue.specs.Picking.{Picks, numbers_picked, views_at};

use crate::held::Held;
use machine_model::{Fragment, Whole, fragment_of};
use std::alloc::{AllocError, Global};
use std::collections::{BTreeMap, BTreeSet};

// A file, and which fragment it is.
#[derive(Drop)]
struct Candidate<'a> {
    held: &'a Held,
    fragment: Option<Fragment<'a>>,
}

// Whether one of some files is whole, and the numbers of its parts, or its own.
pub(super) fn pick_whole(
    alloc: Global,
    files: &[&Held],
    list: &mut Vec<u64>,
) -> Result<bool, AllocError>
    requires { list.old.items ≡ [] }
    ensures picks { Picks (numbers_picked Defragment (views_at files.now)) result list.new.items }
    ensures free { views_at files.now ≡ [] → IsOk result }
{
    if files.is_empty() {
        return Ok(false);
    }
    let candidates = parse(alloc, files)?;
    let numbers = first_numbers(alloc, &candidates)?;
    first_whole(alloc, &candidates, &numbers, list)
}

fn parse<'a>(alloc: Global, files: &[&'a Held]) -> Result<Vec<Candidate<'a>>, AllocError>
    ensures files { IfOk result (λ list. candidate_views list.items ≡ views_at files.now) }
    ensures read { IfOk result (λ list. All HasItsFragment list.items) }
{
    let mut list = Vec::new(alloc);
    for held in files {
        list.push(Candidate {
            held,
            fragment: fragment_of(&held.file.attributes),
        })?;
    }
    Ok(list)
}

// The number of the first file that is a fragment, for each fragment that there is.
fn first_numbers<'a>(
    alloc: Global,
    candidates: &[Candidate<'a>],
) -> Result<BTreeMap<Fragment<'a>, u64>, AllocError>
    requires { All HasItsFragment candidates.now }
    ensures { IfOk result (λ numbers. AreFirst numbers (candidate_views candidates.now)) }
{
    let mut numbers = BTreeMap::new(alloc);
    for candidate in candidates {
        if let Some(fragment) = candidate.fragment {
            note_first(&mut numbers, fragment, candidate.held.file.number)?;
        }
    }
    Ok(numbers)
}

// Keeps the number that is there.
fn note_first<'a>(
    numbers: &mut BTreeMap<Fragment<'a>, u64>,
    fragment: Fragment<'a>,
    number: u64,
) -> Result<(), AllocError>
    ensures { OnOk result (IsNoted fragment.entry number numbers.old numbers.new) }
{
    if !numbers.contains_key(&fragment) {
        numbers.insert(fragment, number)?;
    }
    Ok(())
}

fn first_whole<'a>(
    alloc: Global,
    candidates: &[Candidate<'a>],
    numbers: &BTreeMap<Fragment<'a>, u64>,
    list: &mut Vec<u64>,
) -> Result<bool, AllocError>
    requires read { All HasItsFragment candidates.now }
    requires first { AreFirst numbers.now (candidate_views candidates.now) }
    requires empty { list.old.items ≡ [] }
    ensures { Picks (numbers_picked Defragment (candidate_views candidates.now)) result list.new.items }
{
    let mut tried = BTreeSet::new(alloc);
    for candidate in candidates {
        if pick_candidate(candidate, numbers, &mut tried, list)? {
            return Ok(true);
        }
    }
    Ok(false)
}

// Whether a file is whole, where none of the wholes that were tried is all there.
fn pick_candidate<'a>(
    candidate: &Candidate<'a>,
    numbers: &BTreeMap<Fragment<'a>, u64>,
    tried: &mut BTreeSet<Whole<'a>>,
    list: &mut Vec<u64>,
) -> Result<bool, AllocError>
    requires read { HasItsFragment candidate.now }
    requires empty { list.old.items ≡ [] }
    ensures { IsTry candidate.now numbers.now tried.old tried.new result list.new.items }
{
    let Some(fragment) = candidate.fragment else {
        list.push(candidate.held.file.number)?;
        return Ok(true);
    };
    if !tried.insert(fragment.whole)? {
        return Ok(false);
    }
    take_all(numbers, fragment.whole, list)
}

// Whether all parts of a whole are there, and their numbers by their indexes.
fn take_all<'a>(
    numbers: &BTreeMap<Fragment<'a>, u64>,
    whole: Whole<'a>,
    list: &mut Vec<u64>,
) -> Result<bool, AllocError>
    requires { list.old.items ≡ [] }
    ensures { Picks (part_numbers_from numbers.now whole.entry 0 whole.entry.count) result list.new.items }
{
    for place in 0..whole.count {
        let fragment = Fragment {
            whole,
            index: place + 1,
        };
        let Some(number) = numbers.get(&fragment) else {
            list.clear();
            return Ok(false);
        };
        if let Err(error) = list.push(*number) {
            list.clear();
            return Err(error.into());
        }
    }
    Ok(true)
}
