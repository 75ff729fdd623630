//! When the oldest data of files entered.
ghost use Rattle.std.specs.Prelude.{◌≡◌, map, slice_index, IfOk};
ghost use Rattle.machine_model.specs.Placing.{entered_in, entered_by, least};
ghost use Rattle.settlement.specs.Ending.{least_with};

use flowfile_record::{FlowFile, Origin, Worked};
use std::alloc::{AllocError, Global};

/// The moments at which the oldest data of files entered, by place.
pub fn entered_in(
    alloc: Global,
    moment: u64,
    taken: &[FlowFile],
    files: &[Worked],
) -> Result<Vec<u64>, AllocError>
    ensures { IfOk result (λ entered. entered.items
        ≡ entered_in moment (map (λ file. file.entered) taken.now) files.now) }
{
    let mut entered = Vec::new(alloc);
    for file in files {
        let at = entered_by(moment, taken, &entered, &file.origin);
        entered.push(at)?;
    }
    Ok(entered)
}

fn entered_by(moment: u64, taken: &[FlowFile], before: &[u64], origin: &Origin) -> u64
    ensures { result ≡ entered_by moment (map (λ file. file.entered) taken.now) before.now origin.now }
{
    match origin {
        Origin::Taken(of) => entered_of(taken, *of),
        Origin::Created | Origin::Received => moment,
        Origin::Forked(parent) | Origin::Part(parent) | Origin::Cloned(parent) => {
            moment_at(before, u64::from(*parent))
        }
        Origin::Joined(parents) => least_of(before, parents.as_slice()),
    }
}

fn entered_of(taken: &[FlowFile], place: u32) -> u64
    ensures { result ≡ slice_index (map (λ file. file.entered) taken.now) place }
{
    match taken.get(place as usize) {
        Some(file) => file.entered,
        None => 0,
    }
}

fn moment_at(moments: &[u64], place: u64) -> u64
    ensures { result ≡ slice_index moments.now place }
{
    match moments.get(place as usize) {
        Some(moment) => *moment,
        None => 0,
    }
}

/// The least of the moments at some places.
fn least_of(moments: &[u64], places: &[u64]) -> u64
    ensures { result ≡ least (map (slice_index moments.now) places.now) }
{
    let mut least = None;
    for place in places {
        least = Some(least_with(least, moment_at(moments, *place)));
    }
    least.unwrap_or(0)
}

fn least_with(least: Option<u64>, moment: u64) -> u64
    ensures { result ≡ least_with least moment }
{
    match least {
        Some(least) => least.min(moment),
        None => moment,
    }
}
