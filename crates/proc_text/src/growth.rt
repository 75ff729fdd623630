//! How long a text becomes whose matches are replaced, which is known before it is made.
ghost use Rattle.std.specs.Prelude.{◌≡◌, ◌+◌, ◌≤◌, length, nat_le, slice_range, IfOk};
ghost use Rattle.flowfile_record.specs.declared.TheConstants.{CONTENT_MAX};
ghost use Rattle.regex.specs.Locations.{location};
ghost use Rattle.regex.specs.Patterns.{find_all_str};
ghost use Rattle.regex.specs.Replace.{bytes_of, replaced_by};
ghost use Rattle.regex.specs.Strings.{regex_names, regex_pattern};
ghost use Rattle.proc_text.specs.Shapes.{IsWithin, group_sizes, written_at};

use crate::template::{Shape, shape_of};
use flowfile_record::CONTENT_MAX;
use regex::{CaptureLocations, Regex};
use std::alloc::{AllocError, Global};

/// Whether a text isn't too long for a content, once what a template stands for is in the place of each match.
pub(crate) fn fits(
    alloc: Global,
    text: &str,
    regex: &Regex,
    template: &str,
) -> Result<bool, AllocError>
    ensures { IfOk result (λ fits. fits ≡ nat_le (length (replaced_by
        (written_at (regex_names regex.now) template.now text.now)
        text.now 0 (find_all_str (regex_pattern regex.now) text.now))) CONTENT_MAX) }
{
    let shape = shape_of(alloc, regex, template)?;
    let mut matcher = regex.matcher(alloc)?;
    let mut locations = regex.capture_locations(alloc)?;
    let mut all = matcher.captures_iter(text);
    let mut size = 0;
    let mut last = 0;
    'matches: while let Some(found) = all.next_read(&mut locations) {
        let Some(more) = grown_by_match(size, text, last, found.start(), &shape, &locations) else {
            return Ok(false);
        };
        size = more;
        last = found.end();
    }
    Ok(grown(size, length_between(text, last, text.len())).is_some())
}

/// A size and what comes to it at a match: the text before it, from the last one on, and what takes its place.
fn grown_by_match(
    size: u64,
    text: &str,
    last: usize,
    start: usize,
    shape: &Shape,
    locations: &CaptureLocations,
) -> Option<u64>
    requires { size ≤ CONTENT_MAX }
    ensures { IsWithin ((size + length (slice_range text.now last start)) + (shape.now.own
        + group_sizes (λ n. bytes_of text.now (location locations.now n)) shape.now.groups.items)) result }
{
    let before = grown(size, length_between(text, last, start))?;
    let own = grown(before, shape.own)?;
    grown_by_groups(own, text, shape.groups.as_slice(), locations)
}

fn grown_by_groups(
    size: u64,
    text: &str,
    groups: &[usize],
    locations: &CaptureLocations,
) -> Option<u64>
    requires { size ≤ CONTENT_MAX }
    ensures { IsWithin (size + group_sizes (λ n. bytes_of text.now (location locations.now n)) groups.now) result }
{
    let mut size = size;
    let mut rest = groups;
    'groups: while let Some((group, behind)) = rest.split_first() {
        size = grown(size, group_len(text, locations, *group))?;
        rest = behind;
    }
    Some(size)
}

fn group_len(text: &str, locations: &CaptureLocations, group: usize) -> usize
    ensures { result ≡ length (bytes_of text.now (location locations.now group)) }
{
    match locations.get(group) {
        Some((start, end)) => length_between(text, start, end),
        None => 0,
    }
}

/// How many bytes of a text stand between two places.
fn length_between(text: &str, start: usize, end: usize) -> usize
    ensures { result ≡ length (slice_range text.now start end) }
{
    let (wanted, there) = (end.saturating_sub(start), text.len().saturating_sub(start));
    if wanted <= there { wanted } else { there }
}

/// A size and more, where a content may have both together.
fn grown(size: u64, more: usize) -> Option<u64>
    requires { size ≤ CONTENT_MAX }
    ensures { IsWithin (size + more) result }
{
    if more as u64 <= CONTENT_MAX - size {
        Some(size + more as u64)
    } else {
        None
    }
}
