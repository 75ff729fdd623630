//! What events tell of a file is written.
ghost use Rattle.std.specs.Prelude.{◌≡◌, ◌++◌, true, is_some, All, IfErr, OnOk, IsErr, IsErrOf, IsTrue};
ghost use Rattle.std.specs.List.{flat_map};
ghost use Rattle.disk_trait.specs.Faults.{CountsFaults};
ghost use Rattle.flowfile_record.specs.NumberedItems.{AscendsByNumber};
ghost use Rattle.flow_report.specs.Writing.{Writes};
ghost use Rattle.lineage_query.specs.Told.{lineage_seen as told_by};
ghost use Rattle.machine_model.specs.Lineage.{IsLineage, is_named};
ghost use Rattle.prov_index.specs.Index.{event_of, event_number};
ghost use Rattle.flow_query.specs.Parts.{IsSinkOrMemory, LineageIsPrinted, events_at};
ghost use Rattle.flow_query.specs.Texts.{event_text, lineage_text};

use crate::QueryError;
use crate::lines::write_kin;
use disk_trait::Failed;
use flow_report::{KinWord, Line, write_line};
use flowfile_record::Event;
use lineage_query::{Lineage, lineage};
use prov_index::{Index, Steps};
use std::alloc::{AllocError, Global};
use std::sync::ledger::{Blank, Ledger};
use world_io::Sink;

/// Moves events into an index.
pub(crate) fn add_events(index: &mut Index, events: Vec<Event>) -> Result<(), AllocError>
    requires { AscendsByNumber event_number (index.old ++ events.items) }
    ensures { OnOk result (index.new ≡ index.old ++ events.items) }
{
    for event in events {
        index.add(event)?;
    }
    Ok(())
}

/// Writes the lineage of a file that an event names.
pub(crate) fn tell<L: Ledger, S: Sink>(
    blank: Blank,
    alloc: Global,
    store: u64,
    events: &Index,
    file: u64,
    sink: &mut S,
) -> Result<(), QueryError>
    requires name { blank.name ≡ L.name }
    requires parts { blank.parts ≡ L.parts }
    requires one { blank.parts ≡ 1 }
    requires ascends { AscendsByNumber event_number events.now }
    requires named { is_named events.now file ≡ true }
    ensures told { IsTrue S.tells
        → LineageIsPrinted store events.now file (S.written sink.old) (S.written sink.new) result }
    ensures refusal { IfErr result IsSinkOrMemory }
    ensures sink { CountsFaults (S.faults sink.old) (S.faults sink.new) (IsErrOf result QueryError.Sink) }
{
    let mut steps = Steps::<L>::new(blank);
    let told = lineage(alloc, events, file, &mut steps)?;
    write_lineage(sink, store, events, &told, &mut steps)?;
    Ok(())
}

fn write_lineage<L: Ledger, S: Sink>(
    sink: &mut S,
    store: u64,
    events: &Index,
    told: &Lineage,
    steps: &mut Steps<L>,
) -> Result<(), Failed>
    requires ascends { AscendsByNumber event_number events.now }
    requires lineage { IsLineage events.now told.now.file (told_by told.now) }
    ensures written { IsTrue S.tells → Writes (lineage_text store events.now told.now.file (told_by told.now))
        (S.written sink.old) (S.written sink.new) result }
    ensures cause { CountsFaults (S.faults sink.old) (S.faults sink.new) (IsErr result) }
{
    write_kin(sink, store, KinWord::File, &[told.file])?;
    write_kin(sink, store, KinWord::Ancestor, told.ancestors.as_slice())?;
    write_kin(
        sink,
        store,
        KinWord::Descendant,
        told.descendants.as_slice(),
    )?;
    write_told(sink, store, events, told.events.as_slice(), steps)
}

// Writes the lines of the events of these numbers.
fn write_told<L: Ledger, S: Sink>(
    sink: &mut S,
    store: u64,
    events: &Index,
    numbers: &[u64],
    steps: &mut Steps<L>,
) -> Result<(), Failed>
    requires { All (λ number. is_some (event_of events.now number) ≡ true) numbers.now }
    ensures written { IsTrue S.tells → Writes (flat_map (event_text store) (events_at events.now numbers.now))
        (S.written sink.old) (S.written sink.new) result }
    ensures cause { CountsFaults (S.faults sink.old) (S.faults sink.new) (IsErr result) }
{
    for number in numbers {
        let Some(event) = events.event(*number, steps) else {
            unreachable!()
        };
        write_line(sink, &Line::Happened { store, event })?;
    }
    Ok(())
}
