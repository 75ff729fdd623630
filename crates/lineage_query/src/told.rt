//! The events of files.
ghost use Rattle.std.specs.Prelude.{◌≡◌, ◌+◌, ◌≤◌, ◌++◌, length, OnOk};
ghost use Rattle.prov_index.specs.Index.{numbers_naming};
ghost use Rattle.lineage_query.specs.Work.{work};
ghost use Rattle.lineage_query.specs.Told.{own_event_numbers, numbers_of_all};

use prov_index::{Index, Steps};
use std::alloc::AllocError;
use std::sync::ledger::Ledger;

/// Appends the numbers of the events of files, file by file.
pub(crate) fn tell_all<L: Ledger>(
    index: &Index,
    files: &[u64],
    told: &mut Vec<u64>,
    steps: &mut Steps<L>,
) -> Result<(), AllocError>
    ensures told { OnOk result (told.new.items ≡ told.old.items ++ numbers_of_all index.now files.now) }
    ensures steps { steps.new ≤ steps.old + work index.now files.now }
{
    for file in files {
        tell(index, *file, told, steps)?;
    }
    Ok(())
}

/// Appends the numbers of the events of a file.
pub(crate) fn tell<L: Ledger>(
    index: &Index,
    file: u64,
    told: &mut Vec<u64>,
    steps: &mut Steps<L>,
) -> Result<(), AllocError>
    ensures told { OnOk result (told.new.items ≡ told.old.items ++ own_event_numbers index.now file) }
    ensures steps { steps.new ≤ steps.old + length (numbers_naming index.now file) }
{
    let numbers = index.of(file);
    for number in numbers {
        let Some(event) = index.event(*number, steps) else {
            unreachable!()
        };
        if event.file == file {
            told.push(*number)?;
        }
    }
    Ok(())
}
