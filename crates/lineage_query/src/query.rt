//! The queries: ancestors, descendants, and the lineage of a file.
ghost use Rattle.std.specs.Prelude.{◌≡◌, ◌+◌, ◌*◌, ◌≤◌, ◌++◌, ◌∷◌, ◌↔◌, ℕ, List, false, IfOk, IsErrOf};
ghost use Rattle.machine_model.specs.Lineage.{IsAncestor, IsDescendant, IsLineage, Lists, is_named};
ghost use Rattle.lineage_query.specs.Told.{lineage_seen};
ghost use Rattle.lineage_query.specs.Work.{work};
ghost use Rattle.lineage_query.specs.declared.answer.LineageError.TheVariants as LineageError;

use crate::answer::{Lineage, LineageError};
use crate::kin::Way;
use crate::told::{tell, tell_all};
use crate::walk::walk;
use flowfile_record::Numbers;
use prov_index::{Index, Steps};
use std::alloc::{AllocError, Global};
use std::sync::ledger::Ledger;

/// The parents of a file, their parents, and so on. It asks at most for the events that name the file or an ancestor.
pub fn ancestors<L: Ledger>(
    alloc: Global,
    index: &Index,
    number: u64,
    steps: &mut Steps<L>,
) -> Result<Numbers, AllocError>
    ensures ancestors { IfOk result (λ list. Lists (IsAncestor index.now number) list) }
    ensures steps { (list : List ℕ) → Lists (IsAncestor index.now number) list
        → steps.new ≤ steps.old + work index.now (number ∷ list) }
{
    let files = walk(alloc, index, number, Way::Up, steps)?;
    Ok(Numbers::from(files))
}

/// The children of a file, their children, and so on. It asks at most for the events that name the file or a
/// descendant.
pub fn descendants<L: Ledger>(
    alloc: Global,
    index: &Index,
    number: u64,
    steps: &mut Steps<L>,
) -> Result<Numbers, AllocError>
    ensures descendants { IfOk result (λ list. Lists (IsDescendant index.now number) list) }
    ensures steps { (list : List ℕ) → Lists (IsDescendant index.now number) list
        → steps.new ≤ steps.old + work index.now (number ∷ list) }
{
    let files = walk(alloc, index, number, Way::Down, steps)?;
    Ok(Numbers::from(files))
}

/// Ancestors and descendants of a file that an event names, and the events of the file and of these. It asks at most
/// three times for each event that names one of them.
pub fn lineage<L: Ledger>(
    alloc: Global,
    index: &Index,
    number: u64,
    steps: &mut Steps<L>,
) -> Result<Lineage, LineageError>
    ensures lineage { IfOk result
        (λ lineage. (lineage.file ≡ number) × IsLineage index.now number (lineage_seen lineage)) }
    ensures absent { IsErrOf result LineageError.Absent ↔ (is_named index.now number ≡ false) }
    ensures steps { (up down : List ℕ) → Lists (IsAncestor index.now number) up
        → Lists (IsDescendant index.now number) down
        → steps.new ≤ steps.old + 3 * work index.now (number ∷ up ++ down) }
{
    if index.of(number).is_empty() {
        return Err(LineageError::Absent);
    }
    let lineage = lineage_of(alloc, index, number, steps)?;
    Ok(lineage)
}

fn lineage_of<L: Ledger>(
    alloc: Global,
    index: &Index,
    number: u64,
    steps: &mut Steps<L>,
) -> Result<Lineage, AllocError>
    ensures lineage { IfOk result
        (λ lineage. (lineage.file ≡ number) × IsLineage index.now number (lineage_seen lineage)) }
    ensures steps { (up down : List ℕ) → Lists (IsAncestor index.now number) up
        → Lists (IsDescendant index.now number) down
        → steps.new ≤ steps.old + 3 * work index.now (number ∷ up ++ down) }
{
    let ancestors = ancestors(alloc, index, number, steps)?;
    let descendants = descendants(alloc, index, number, steps)?;
    let mut events = Vec::new(alloc);
    tell(index, number, &mut events, steps)?;
    tell_all(index, ancestors.as_slice(), &mut events, steps)?;
    tell_all(index, descendants.as_slice(), &mut events, steps)?;
    events.sort_unstable();
    events.dedup();
    Ok(Lineage {
        file: number,
        ancestors,
        descendants,
        events: Numbers::from(events),
    })
}
