//! The walk from a file to all of its ancestors, or to all of its descendants.
ghost use Rattle.std.specs.Prelude.{◌≡◌, ◌+◌, ◌≤◌, ◌∷◌, ℕ, List, length, IfOk, OnOk};
ghost use Rattle.prov_index.specs.Index.{numbers_naming};
ghost use Rattle.machine_model.specs.Lineage.{Lists};
ghost use Rattle.lineage_query.specs.Work.{work};
ghost use Rattle.lineage_query.specs.Walk.{kin_in, with_all, Reaches};

use crate::found::Found;
use crate::kin::{Way, kin};
use prov_index::{Index, Steps};
use std::alloc::{AllocError, Global};
use std::sync::ledger::Ledger;

/// All files that steps of this way lead to from a file, ascending.
pub(crate) fn walk<L: Ledger>(
    alloc: Global,
    index: &Index,
    file: u64,
    way: Way,
    steps: &mut Steps<L>,
) -> Result<Vec<u64>, AllocError>
    ensures files { IfOk result (λ list. Lists (Reaches way index.now file) list.items) }
    ensures steps { (list : List ℕ) → Lists (Reaches way index.now file) list
        → steps.new ≤ steps.old + work index.now (file ∷ list) }
{
    let mut found = Found::new(alloc);
    look(index, file, way, &mut found, steps)?;
    let mut place = 0;
    while let Some(next) = found.get(place) {
        look(index, next, way, &mut found, steps)?;
        place += 1;
    }
    let mut files = found.into_vec();
    files.sort_unstable();
    Ok(files)
}

// Adds the files that one step leads to.
fn look<L: Ledger>(
    index: &Index,
    file: u64,
    way: Way,
    found: &mut Found,
    steps: &mut Steps<L>,
) -> Result<(), AllocError>
    ensures found { OnOk result (found.new ≡ with_all found.old (kin_in way index.now file)) }
    ensures steps { steps.new ≤ steps.old + length (numbers_naming index.now file) }
{
    let numbers = index.of(file);
    for number in numbers {
        let Some(event) = index.event(*number, steps) else {
            unreachable!()
        };
        found.add_all(kin(event, way, file))?;
    }
    Ok(())
}
