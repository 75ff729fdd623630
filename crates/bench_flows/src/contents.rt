//! Processors that work on contents, each beside a plain loop over the same texts.
ghost use Rattle.std.specs.Prelude.{◌≡◌, ◌∷◌, [], codes, map, IfOk, IsTrue};
ghost use Rattle.machine_model.specs.Sound.{is_replacement_sound};

use crate::loops;
use crate::measured::{Compared, Measured, processor_time, since};
use crate::processors::{count_to, size_to, timed};
use crate::texts::{LINES, parts, text};
use anyhow::{Result, bail};
use flowfile_record::Text;
use machine_model::{
    MatchRequirement, MergeStrategy, OwnPattern, OwnPatternList, Pattern, Replacement,
};
use proc_merge::MergeContent;
use proc_text::{ReplaceText, RouteOnContent, SplitText};
use std::alloc::{Alloc, Global};
use std::fs::Files;
use std::slice;

/// What is looked for in each line but the last.
const NAME: &str = "[a-z]+-[0-9]+";

/// What stands in its place.
const VALUE: &str = "worker";

/// What the last line alone has.
const GIVEN: &str = "[a-z]+-[0-9]+ gave";

/// The greatest size of a pattern's tables, in bytes.
const PATTERN_SIZE: u64 = 10 << 20;

/// How many files a MergeContent joins at most.
const ENTRIES: u32 = 1_000;

/// Splits a text of lines into parts of so many lines. The parts are counted.
pub fn measure_split<R: Files + Alloc<A = Global>>(
    rt: &R,
    alloc: Global,
    lines: u32,
) -> Result<Compared> {
    let split = SplitText { lines: LINES };
    let text = text(alloc, lines)?;
    let (outcome, took) = timed(rt, alloc, &split, 3, slice::from_ref(&text))?;
    let count = count_to(&outcome, 1);
    let engine = Measured { count, took };
    let start = processor_time(rt);
    let ends = loops::split(alloc, text.as_str(), LINES)?;
    let took = since(rt, start);
    let count = ends.len() as u64;
    let plain = Some(Measured { count, took });
    Ok(Compared { engine, plain })
}

/// Replaces what a pattern finds in each line but the last. The bytes of the result are counted.
pub fn measure_replace<R: Files + Alloc<A = Global>>(
    rt: &R,
    alloc: Global,
    lines: u32,
) -> Result<Compared> {
    let replacement = replacement(alloc)?;
    let replace = ReplaceText {
        replacement: &replacement,
    };
    let text = text(alloc, lines)?;
    let (outcome, took) = timed(rt, alloc, &replace, 2, slice::from_ref(&text))?;
    let count = size_to(&outcome, 0);
    let engine = Measured { count, took };
    let search = pattern(alloc, NAME)?;
    let start = processor_time(rt);
    let replaced = loops::replace(alloc, &search.regex, VALUE, text.as_str())?;
    let took = since(rt, start);
    let count = replaced.len() as u64;
    let plain = Some(Measured { count, took });
    Ok(Compared { engine, plain })
}

/// Routes a text of which a pattern finds something in the last line alone. The files that it routes are counted.
pub fn measure_route<R: Files + Alloc<A = Global>>(
    rt: &R,
    alloc: Global,
    lines: u32,
) -> Result<Compared> {
    let own = own_pattern(alloc)?;
    let route = RouteOnContent {
        requirement: MatchRequirement::Contains,
        own: &own,
    };
    let text = text(alloc, lines)?;
    let (outcome, took) = timed(rt, alloc, &route, 2, slice::from_ref(&text))?;
    let count = count_to(&outcome, 0);
    let engine = Measured { count, took };
    let search = pattern(alloc, GIVEN)?;
    let start = processor_time(rt);
    let found = loops::matches(alloc, &search.regex, text.as_str())?;
    let took = since(rt, start);
    let count = u64::from(found);
    let plain = Some(Measured { count, took });
    Ok(Compared { engine, plain })
}

/// Joins the parts of a text. The bytes of the result are counted.
pub fn measure_merge<R: Files + Alloc<A = Global>>(
    rt: &R,
    alloc: Global,
    lines: u32,
) -> Result<Compared> {
    let merge = MergeContent {
        strategy: MergeStrategy::BinPacking,
        minimum: 1,
        maximum: ENTRIES,
    };
    let parts = parts(alloc, lines)?;
    let (outcome, took) = timed(rt, alloc, &merge, 3, parts.as_slice())?;
    let count = size_to(&outcome, 0);
    let engine = Measured { count, took };
    let start = processor_time(rt);
    let joined = loops::join(alloc, parts.as_slice())?;
    let took = since(rt, start);
    let count = joined.len() as u64;
    let plain = Some(Measured { count, took });
    Ok(Compared { engine, plain })
}

// What a ReplaceText replaces, and by what.
fn replacement(alloc: Global) -> Result<Replacement>
    ensures { IfOk result (λ replacement. IsTrue (is_replacement_sound replacement)) }
{
    let search = pattern(alloc, NAME)?;
    let template = Text::from_str(alloc, VALUE)?;
    Ok(Replacement::Regex { search, template })
}

// The one property of a RouteOnContent.
fn own_pattern(alloc: Global) -> Result<OwnPatternList>
    ensures { IfOk result (λ own. map (λ property. property.name) own ≡ codes "given" ∷ []) }
{
    let name = Text::from_str(alloc, "given")?;
    let pattern = pattern(alloc, GIVEN)?;
    let own = vec![in alloc; OwnPattern { name, pattern }]?;
    Ok(OwnPatternList::from(own))
}

fn pattern(alloc: Global, text: &str) -> Result<Pattern> {
    let text = Text::from_str(alloc, text)?;
    match Pattern::new(alloc, text, PATTERN_SIZE) {
        Ok(pattern) => Ok(pattern),
        Err(_) => bail!("no such pattern"),
    }
}
