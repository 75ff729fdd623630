//! The lines of events and of files.
ghost use Rattle.std.specs.Prelude.{IsErr, IsTrue};
ghost use Rattle.std.specs.List.{flat_map};
ghost use Rattle.disk_trait.specs.Faults.{CountsFaults};
ghost use Rattle.flow_report.specs.Writing.{Writes};
ghost use Rattle.flow_query.specs.Texts.{event_text, kin_text};

use disk_trait::Failed;
use flow_report::{KinWord, Line, write_line};
use flowfile_record::{Event, uuid_of};
use world_io::Sink;

/// Writes the lines of events.
pub(crate) fn write_events<S: Sink>(
    sink: &mut S,
    store: u64,
    events: &[Event],
) -> Result<(), Failed>
    ensures written { IsTrue S.tells → Writes (flat_map (event_text store) events.now) (S.written sink.old)
        (S.written sink.new) result }
    ensures cause { CountsFaults (S.faults sink.old) (S.faults sink.new) (IsErr result) }
{
    for event in events {
        write_line(sink, &Line::Happened { store, event })?;
    }
    Ok(())
}

/// Writes the lines of files of a lineage.
pub(crate) fn write_kin<S: Sink>(
    sink: &mut S,
    store: u64,
    word: KinWord,
    files: &[u64],
) -> Result<(), Failed>
    ensures written { IsTrue S.tells → Writes (flat_map (kin_text word store) files.now) (S.written sink.old)
        (S.written sink.new) result }
    ensures cause { CountsFaults (S.faults sink.old) (S.faults sink.new) (IsErr result) }
{
    for file in files {
        let line = Line::Kin {
            word,
            file: uuid_of(store, *file),
        };
        write_line(sink, &line)?;
    }
    Ok(())
}
