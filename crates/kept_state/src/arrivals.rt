//! The arrivals of a state's files, and sets of numbers.
ghost use Rattle.std.specs.Prelude.{◌≡◌, ℕ, ◌==◌, ◌||◌, not, true, false, IfOk, OnOk, MatchOption};
ghost use Rattle.std.specs.List.{list_any};
ghost use Rattle.std.specs.Ordering.{nat_cmp};
ghost use Rattle.std.specs.BTreeSet.{contains, IsOrdered};
ghost use Rattle.flowfile_record.specs.NumberedItems.{AscendsByNumber};
ghost use Rattle.checkpoint_store.specs.Consistent.{AreDistinctBy};
ghost use Rattle.kept_state.specs.Applied.{active_number, left_after};
ghost use Rattle.kept_state.specs.Arrivals.{arrival_of, are_fresh, AreArrivalsOf, IsSetOf};
ghost use Rattle.kept_state.specs.Fits.{are_distinct_numbers};

use flowfile_record::ActiveList;
use std::alloc::{AllocError, Global};
use std::collections::BTreeSet;

/// The arrivals of files.
pub(crate) fn arrivals_of(alloc: Global, files: &ActiveList) -> Result<BTreeSet<u64>, AllocError>
    ensures { IfOk result (λ arrivals. AreArrivalsOf arrivals files.now.items) }
{
    let mut arrivals = BTreeSet::new(alloc);
    for active in files.iter() {
        arrivals.insert(active.file.arrival)?;
    }
    Ok(arrivals)
}

/// Takes the arrivals of the files of these numbers out.
pub(crate) fn remove_arrivals(arrivals: &mut BTreeSet<u64>, files: &ActiveList, gone: &[u64])
    requires arrivals { AreArrivalsOf arrivals.old files.now.items }
    requires numbers { AscendsByNumber active_number files.now.items }
    requires distinct { AreDistinctBy arrival_of files.now.items }
    ensures { AreArrivalsOf arrivals.new (left_after gone.now files.now.items) }
{
    for number in gone {
        if let Some(active) = files.get(*number) {
            arrivals.remove(&active.file.arrival);
        }
    }
}

/// Adds numbers to a set. Answers whether none of them was there, and none stands twice.
pub(crate) fn add_all(set: &mut BTreeSet<u64>, numbers: &[u64]) -> Result<bool, AllocError>
    requires ordered { IsOrdered nat_cmp set.old }
    ensures fresh { IfOk result (λ fresh. fresh ≡ are_fresh (contains nat_cmp set.old) numbers.now) }
    ensures ordered { IsOrdered nat_cmp set.new }
    ensures added { IfOk result (λ fresh. fresh ≡ true → (n : ℕ)
        → contains nat_cmp set.new n ≡ (contains nat_cmp set.old n || list_any (λ m. m == n) numbers.now)) }
{
    for number in numbers {
        if !add_one(set, *number)? {
            return Ok(false);
        }
    }
    Ok(true)
}

// Adds a number to a set. Answers whether it wasn't there.
fn add_one(set: &mut BTreeSet<u64>, number: u64) -> Result<bool, AllocError>
    requires ordered { IsOrdered nat_cmp set.old }
    ensures new { IfOk result (λ new. new ≡ not (contains nat_cmp set.old number)) }
    ensures added { OnOk result ((n : ℕ) → contains nat_cmp set.new n ≡ (contains nat_cmp set.old n || (number == n))) }
    ensures ordered { IsOrdered nat_cmp set.new }
{
    Ok(set.insert(number)?)
}

// A set without numbers.
fn empty_set(alloc: Global) -> BTreeSet<u64>
    ensures none { (n : ℕ) → contains nat_cmp result n ≡ false }
    ensures ordered { IsOrdered nat_cmp result }
{
    BTreeSet::new(alloc)
}

/// The set of numbers, or none where one of them stands twice.
pub(crate) fn set_of(alloc: Global, numbers: &[u64]) -> Result<Option<BTreeSet<u64>>, AllocError>
    ensures { IfOk result (λ set. MatchOption set (are_distinct_numbers numbers.now ≡ false)
        (λ s. (are_distinct_numbers numbers.now ≡ true) × IsSetOf s numbers.now)) }
{
    let mut set = empty_set(alloc);
    if !add_all(&mut set, numbers)? {
        return Ok(None);
    }
    Ok(Some(set))
}
