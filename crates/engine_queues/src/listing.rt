//! The names of an inbox that are left, and which of them each GetFile of a flow takes first.
ghost use Rattle.std.specs.Prelude.{◌≡◌, ℕ, ◌+◌, ◌^◌, ◌<◌, ◌≤◌, Option, true, false, length, map, replicate, All, Some, IfOk, slice_get, option_map};
ghost use Rattle.machine_model.specs.declared.flow.Processor.{Processor};
ghost use Rattle.machine_model.specs.Acting.{passes};
ghost use Rattle.engine_queues.specs.declared.listing.Source.{Source as TheSource};
ghost use Rattle.engine_queues.specs.Listing.{AreDistinct, filter_of, first_passed, names_left, with_mark, TakesFrom};
ghost use Rattle.engine_queues.specs.ListingInside.{IsFirstOpen, Suits, StillSuits, HasMarks};

use crate::LinkedFlow;
use flowfile_record::Name;
use machine_model::{Filter, Flow, Kind, Pattern};
use std::alloc::{AllocError, Global};
use std::marker::Model;

/// The names of an inbox that are left, in their order, for the processors of a flow, and how many others it has, whose
/// files are too large for any. However many are taken one after another, each name is looked at once for each GetFile,
/// and again once for each name that is given back before it.
#[derive(Drop)]
pub struct Listing<'f> {
    flow: LinkedFlow<'f>,
    names: Vec<Name>,
    too_large: u64,
    // Which of the names are taken.
    taken: Vec<bool>,
    // One for each GetFile, by the processors' places.
    sources: Vec<Option<Source>>,
}

// Which names a GetFile's filter passes, and the place of the first of these that is left.
#[derive(Drop)]
struct Source {
    passing: Vec<bool>,
    first: usize,
}

impl<'f> Model for Listing<'f> {
    ghost use Rattle.std.specs.Coded.{codes};
    ghost use Rattle.machine_model.specs.contracts.flow.Flow as the_flow;
    ghost use Rattle.engine_queues.specs.Listing.{Left};

    ghost Value = { Left };

    ghost coded = { Prim.hlevel (codes, the_flow.the_row.coded) };

    ghost use Rattle.engine_queues.specs.ListingInside.{listing_in, IsSoundListing};

    ghost view = { listing_in };

    ghost invariant = { IsSoundListing };
}

impl<'f> Listing<'f> {
    /// All of these names are left, and so many others.
    pub fn new(
        alloc: Global,
        flow: &'f Flow,
        names: Vec<Name>,
        too_large: u64,
    ) -> Result<Listing<'f>, AllocError>
        requires distinct { AreDistinct names.items }
        requires few { length names.items + too_large < 2 ^ 64 }
        ensures { IfOk result (λ listing. listing ≡ record {
          flow = flow.now;
          listed = names.items;
          taken = replicate (length names.items) false;
          too_large = too_large;
        }) }
    {
        let taken = vec![in alloc; false; names.len()]?;
        let mut sources = Vec::new(alloc);
        for processor in flow.processors.as_slice() {
            sources.push(source_of(alloc, &processor.kind, &names, &taken)?)?;
        }
        let linked = LinkedFlow::new(alloc, flow)?;
        Ok(Listing {
            flow: linked,
            names,
            too_large,
            taken,
            sources,
        })
    }

    /// The flow whose processors these are.
    pub fn flow(&self) -> &LinkedFlow<'f>
        ensures { result.now ≡ self.now.flow }
    {
        &self.flow
    }

    /// The name that a processor takes first of those that are left.
    pub fn first_for(&self, processor: u16) -> Option<&Name>
        requires { processor < length self.now.flow.processors }
        ensures { (p : Processor) → slice_get self.now.flow.processors processor ≡ Some p
            → option_map (λ name. name.now) result ≡ first_passed p.kind (names_left self.now) }
    {
        let Some(source) = &self.sources[usize::from(processor)] else {
            return None;
        };
        self.names.get(source.first)
    }

    /// How many names are left, those of files that are too large among them.
    pub fn count_left(&self) -> u64
        ensures { result ≡ length (names_left self.now) + self.now.too_large }
    {
        let mut count = self.too_large;
        for is_taken in self.taken.as_slice() {
            if !is_taken {
                count += 1;
            }
        }
        count
    }

    /// Takes the name that a processor takes first, if there is one, and answers its place among all that were listed.
    pub fn take_first(&mut self, processor: u16) -> Option<usize>
        requires { processor < length self.old.flow.processors }
        ensures { (p : Processor) → slice_get self.old.flow.processors processor ≡ Some p
            → TakesFrom p.kind result self.old self.new }
    {
        let Some(source) = &self.sources[usize::from(processor)] else {
            return None;
        };
        let place = source.first;
        if place >= self.names.len() {
            return None;
        }
        self.taken[place] = true;
        move_past(&mut self.sources, &self.taken, place);
        Some(place)
    }

    /// Gives back the name at a place, which was taken: it is left again, at its place in the order.
    pub fn give_back(&mut self, place: usize)
        requires { slice_get self.old.taken place ≡ Some true }
        ensures { self.new ≡ with_mark false place self.old }
    {
        self.taken[place] = false;
        move_back(&mut self.sources, &self.taken, place);
    }
}

// The source of a processor, where it is a GetFile.
fn source_of(
    alloc: Global,
    kind: &Kind,
    names: &[Name],
    taken: &[bool],
) -> Result<Option<Source>, AllocError>
    requires { length taken.now ≡ length names.now }
    ensures { IfOk result (Suits (filter_of kind.now) names.now taken.now) }
{
    let Kind::GetFile { filter } = kind else {
        return Ok(None);
    };
    let passing = passing_of(alloc, filter, names)?;
    let first = first_open(taken, &passing, 0);
    Ok(Some(Source { passing, first }))
}

fn passing_of(
    alloc: Global,
    filter: &Option<Pattern>,
    names: &[Name],
) -> Result<Vec<bool>, AllocError>
    ensures { IfOk result (λ passing. passing.items ≡ map (passes filter.now) names.now) }
{
    let mut test = Filter::new(alloc, filter)?;
    let mut passing = Vec::new(alloc);
    for name in names {
        passing.push(test.passes(name.text()))?;
    }
    Ok(passing)
}

// The first place from one on whose name is left and passes, or the end.
fn first_open(taken: &[bool], passing: &[bool], start: usize) -> usize
    requires marks { length passing.now ≡ length taken.now }
    requires start { start ≤ length taken.now }
    ensures { IsFirstOpen taken.now passing.now start result }
{
    for place in start..taken.len() {
        if !taken[place] && passing[place] {
            return place;
        }
    }
    taken.len()
}

// Moves each source past a place whose name has been taken.
fn move_past(sources: &mut [Option<Source>], taken: &[bool], place: usize)
    requires place { place < length taken.now }
    requires marks { All (HasMarks (length taken.now)) sources.old }
    ensures { (k : ℕ) (before after : Option TheSource) → slice_get sources.old k ≡ Some before
        → slice_get sources.new k ≡ Some after → StillSuits true taken.now place before after }
{
    for source in sources.iter_mut() {
        move_source(source, taken, place);
    }
}

// Moves a source to its next name where its first one stood at a place whose name has been taken.
fn move_source(source: &mut Option<Source>, taken: &[bool], place: usize)
    requires place { place < length taken.now }
    requires marks { HasMarks (length taken.now) source.old }
    ensures { StillSuits true taken.now place source.old source.new }
{
    if let Some(source) = source
        && source.first == place
    {
        source.first = first_open(taken, &source.passing, place + 1);
    }
}

// Moves each source back to a place whose name is left again.
fn move_back(sources: &mut [Option<Source>], taken: &[bool], place: usize)
    requires place { place < length taken.now }
    requires marks { All (HasMarks (length taken.now)) sources.old }
    ensures { (k : ℕ) (before after : Option TheSource) → slice_get sources.old k ≡ Some before
        → slice_get sources.new k ≡ Some after → StillSuits false taken.now place before after }
{
    for source in sources.iter_mut() {
        move_source_back(source, taken, place);
    }
}

// Moves a source back to a place whose name is left again, where it stands behind that and passes the name.
fn move_source_back(source: &mut Option<Source>, taken: &[bool], place: usize)
    requires place { place < length taken.now }
    requires marks { HasMarks (length taken.now) source.old }
    ensures { StillSuits false taken.now place source.old source.new }
{
    if let Some(source) = source
        && place < source.first
        && source.passing[place]
    {
        source.first = place;
    }
}
