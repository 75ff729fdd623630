//! Bins: as many files as fill a content.
ghost use Rattle.std.specs.Prelude.{◌≡◌, ◌≤◌, [], length, take, IfSome, IsOk};
ghost use Rattle.std.specs.Option.{option_map};
ghost use Rattle.machine_model.specs.Due.{numbers_of};
ghost use Rattle.machine_model.specs.Taking.{bin_of};
ghost use Rattle.machine_model.specs.declared.kind.TakeRule.TheVariants.{Bin};
ghost use Rattle.flow_queue.specs.Picking.{Picks, PicksAll, numbers_picked, views_at, size_by};

use crate::held::Held;
use flowfile_record::CONTENT_MAX;
use std::alloc::AllocError;

// Whether the first of some files make a bin, and their numbers.
pub(super) fn pick_bin(
    files: &[&Held],
    min: u32,
    max: u32,
    list: &mut Vec<u64>,
) -> Result<bool, AllocError>
    requires { list.old.items ≡ [] }
    ensures picks { Picks (numbers_picked (Bin min max) (views_at files.now)) result list.new.items }
    ensures free { views_at files.now ≡ [] → IsOk result }
{
    match bin_size(files, min, max) {
        Some(size) => {
            list_numbers(&files[..size], list)?;
            Ok(true)
        }
        None => Ok(false),
    }
}

// How many of the first of some files make a bin.
fn bin_size(files: &[&Held], min: u32, max: u32) -> Option<usize>
    ensures within { IfSome result (λ size. size ≤ length files.now) }
    ensures bin { option_map (λ size. take size (views_at files.now)) result
        ≡ bin_of min max (views_at files.now) }
{
    let mut room = CONTENT_MAX;
    let mut size = 0;
    for held in files {
        let is_filled = room < held.size();
        if is_filled || size == max as usize {
            return size_if(size, min, is_filled);
        }
        room -= held.size();
        size += 1;
    }
    size_if(size, min, false)
}

// The size of a bin, if it is at least `min`, or the next file would pass its room.
fn size_if(size: usize, min: u32, is_filled: bool) -> Option<usize>
    ensures { result ≡ size_by size min is_filled }
{
    (size > 0 && (min as usize <= size || is_filled)).then_some(size)
}

fn list_numbers(files: &[&Held], list: &mut Vec<u64>) -> Result<(), AllocError>
    requires { list.old.items ≡ [] }
    ensures { PicksAll (numbers_of (views_at files.now)) result list.new.items }
{
    for held in files {
        if let Err(error) = list.push(held.file.number) {
            list.clear();
            return Err(error.into());
        }
    }
    Ok(())
}
