//! Sessions of processors.
ghost use Rattle.std.specs.Prelude.{◌≡◌, length, IsTrue};
ghost use Rattle.machine_model.specs.Kinds.{relationships_of};
ghost use Rattle.machine_model.specs.Laws.{MayTake};
ghost use Rattle.machine_model.specs.Sound.{IsSoundKind};
ghost use Rattle.machine_model.specs.declared.given.Given.{Given as GivenTo};
ghost use Rattle.processor_api.specs.Acts.{AreRead, IsGivenTo};

use crate::files::taken;
use crate::measured::{processor_time, since};
use anyhow::{Result, bail};
use flowfile_record::{Body, End, Outcome, TAKEN_MAX};
use machine_model::{Given, TakeRule};
use process_session::TakenList;
use processor_api::{Acts, work_on};
use std::alloc::{Alloc, Global};
use std::fs::Files;

/// What a processor makes of these texts, each the content of a file, and how much time that took. It needs nothing
/// beside its files.
pub fn timed<R: Files + Alloc<A = Global>, P: Acts>(
    rt: &R,
    alloc: Global,
    processor: &P,
    relationships: u16,
    texts: &[String],
) -> Result<(Outcome, u64)>
    requires relationships { relationships ≡ length (relationships_of (P.kind processor.now)) }
    requires sound { IsSoundKind (P.kind processor.now) }
    requires alone { (given : GivenTo) → IsGivenTo (P.kind processor.now) given }
{
    let taken = taken(alloc, texts)?;
    let start = processor_time(rt);
    let outcome = work(alloc, processor, relationships, taken)?;
    let took = since(rt, start);
    Ok((outcome, took))
}

// What a processor makes of these files.
fn work<P: Acts>(
    alloc: Global,
    processor: &P,
    relationships: u16,
    taken: TakenList,
) -> Result<Outcome>
    requires relationships { relationships ≡ length (relationships_of (P.kind processor.now)) }
    requires sound { IsSoundKind (P.kind processor.now) }
    requires alone { (given : GivenTo) → IsGivenTo (P.kind processor.now) given }
    requires read { AreRead taken }
{
    let mut given = Given {
        moment: 0,
        index: 0,
        there: false,
        file: None,
        bytes: None,
    };
    if !may_take(processor.takes(), taken.len()) {
        bail!("it takes another number of files");
    }
    Ok(work_on(alloc, processor, relationships, taken, &mut given)?.0)
}

// Whether a rule may take so many files.
fn may_take(rule: TakeRule, count: u64) -> bool
    ensures { IsTrue result → MayTake rule count }
{
    match rule {
        TakeRule::Source => count == 0,
        TakeRule::One => count == 1,
        TakeRule::Bin { max, .. } => count >= 1 && count <= max as u64,
        TakeRule::Defragment => count >= 1 && count <= TAKEN_MAX,
    }
}

/// How many files go to a relationship.
pub fn count_to(outcome: &Outcome, relationship: u16) -> u64 {
    let mut count = 0u64;
    for file in outcome.files.as_slice() {
        if file.end == End::To(relationship) {
            count = count.saturating_add(1);
        }
    }
    count
}

/// How many bytes the files have that go to a relationship with contents of their own.
pub fn size_to(outcome: &Outcome, relationship: u16) -> u64 {
    let mut size = 0u64;
    for file in outcome.files.as_slice() {
        if let (Body::New(bytes), true) = (&file.body, file.end == End::To(relationship)) {
            size = size.saturating_add(bytes.len());
        }
    }
    size
}
