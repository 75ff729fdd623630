//! The pending bytes of a file, drawn anew.
ghost use Rattle.std.specs.Prelude.{◌≡◌, ℕ, ◌^◌, ◌<◌, ◌≤◌, ◌&&◌, ◌||◌, nat_le, nat_lt, length, false, IfOk, slice_index_or};
ghost use Rattle.disk_trait.specs.MemoryStop.{touches, touched_by, drawn, seed_after, MarksOffsets};

use super::DiskCall;
use crate::FileName;
use std::alloc::{AllocError, Global};

const MULTIPLIER: u64 = 6364136223846793005;

const INCREMENT: u64 = 1442695040888963407;

/// For each offset of a file of this length whether one of the calls wrote over it or cut it off.
pub(crate) fn touched_offsets(
    alloc: Global,
    name: FileName,
    calls: &[DiskCall],
    len: usize,
) -> Result<Vec<bool>, AllocError>
    ensures len { IfOk result (λ marks. length marks.items ≡ len) }
    ensures marks { IfOk result (λ marks. MarksOffsets marks.items (touched_by name calls.now)) }
{
    let mut marks = vec![in alloc; false; len]?;
    touch_all(&mut marks, name, calls);
    Ok(marks)
}

fn touch_all(marks: &mut [bool], name: FileName, calls: &[DiskCall])
    requires { MarksOffsets marks.old (λ _. false) }
    ensures { MarksOffsets marks.new (touched_by name calls.now) }
{
    for call in calls {
        touch(marks, name, call);
    }
}

fn touch(marks: &mut [bool], name: FileName, call: &DiskCall)
    ensures { (i : ℕ) → i < length marks.old → slice_index_or marks.new i false
        ≡ (touches name call.now i || slice_index_or marks.old i false) }
{
    match call {
        DiskCall::Write { file, at, bytes } => {
            if *file == name {
                let from = *at as usize;
                mark(marks, from, from.saturating_add(bytes.as_slice().len()));
            }
        }
        DiskCall::Cut { file, size } => {
            if *file == name {
                mark(marks, *size as usize, usize::MAX);
            }
        }
        DiskCall::Sync => {}
    }
}

fn mark(marks: &mut [bool], from: usize, to: usize)
    ensures marked { (i : ℕ) → i < length marks.old → slice_index_or marks.new i false
        ≡ ((nat_le from i && nat_lt i to) || slice_index_or marks.old i false) }
    ensures short { length marks.old < 2 ^ 64 }
{
    let to = to.min(marks.len());
    if from < to {
        marks[from..to].fill(true);
    }
}

/// Draws the bytes at the marked offsets, and gives the seed for the next ones.
pub(crate) fn tear(bytes: &mut [u8], marks: &[bool], seed: u64) -> u64
    requires { length marks.now ≡ length bytes.old }
    ensures bytes { bytes.new ≡ drawn (λ i. slice_index_or marks.now i false) 0 seed bytes.old }
    ensures seed { result ≡ seed_after (λ i. slice_index_or marks.now i false) 0 seed bytes.old }
{
    let mut x = seed;
    for i in 0..bytes.len() {
        if marks[i] {
            x = x.wrapping_mul(MULTIPLIER).wrapping_add(INCREMENT);
            bytes[i] = (x >> 56) as u8;
        }
    }
    x
}
