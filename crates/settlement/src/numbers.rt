//! The numbers of a session's files.
ghost use Rattle.std.specs.Prelude.{◌≡◌, ◌+◌, ◌<◌, ◌≤◌, ◌^◌, length, map, slice_index, IfOk};
ghost use Rattle.flowfile_record.specs.Outcome.{is_made};
ghost use Rattle.machine_model.specs.Placing.{next_behind, number_by, numbers_from};

use flowfile_record::{FlowFile, Origin, Worked};
use std::alloc::{AllocError, Global};

/// The numbers of files by place: a taken file keeps its own, and a made one gets the next.
pub fn numbers_from(
    alloc: Global,
    next: u64,
    taken: &[FlowFile],
    files: &[Worked],
) -> Result<Vec<u64>, AllocError>
    requires { next + length files.now < 2 ^ 64 }
    ensures { IfOk result (λ numbers. numbers.items
        ≡ numbers_from next (map (λ file. file.number) taken.now) files.now) }
{
    let mut numbers = Vec::new(alloc);
    let mut next = next;
    for file in files {
        numbers.push(number_by(next, taken, &file.origin))?;
        next = next_behind(next, &file.origin);
    }
    Ok(numbers)
}

fn number_by(next: u64, taken: &[FlowFile], origin: &Origin) -> u64
    ensures { result ≡ number_by next (map (λ file. file.number) taken.now) origin.now }
{
    match origin {
        Origin::Taken(of) => number_of(taken, *of),
        _ => next,
    }
}

fn next_behind(next: u64, origin: &Origin) -> u64
    requires { next + 1 < 2 ^ 64 }
    ensures next { result ≡ next_behind next origin.now }
    ensures bound { result ≤ next + 1 }
{
    if is_made(origin) { next + 1 } else { next }
}

/// The number of the taken file of a place.
fn number_of(taken: &[FlowFile], place: u32) -> u64
    ensures { result ≡ slice_index (map (λ file. file.number) taken.now) place }
{
    match taken.get(place as usize) {
        Some(file) => file.number,
        None => 0,
    }
}

/// Whether the session made the file.
pub fn is_made(origin: &Origin) -> bool
    ensures { result ≡ is_made origin.now }
{
    !matches!(origin, Origin::Taken(_))
}
