//! The line of an event.
ghost use Rattle.std.specs.Prelude.{◌≡◌, ◌++◌, IsTrue, IsErr};
ghost use Rattle.disk_trait.specs.Faults.{CountsFaults};
ghost use Rattle.serde_json.specs.Written.{compact_text};
ghost use Rattle.flow_report.specs.Events.{event_data};
ghost use Rattle.flow_report.specs.Texts.{line_end};
ghost use Rattle.flow_report.specs.Writing.{Writes};

use crate::part::{Part, write_parts};
use crate::words::word_of_event;
use disk_trait::Failed;
use flowfile_record::Event;
use world_io::Sink;

/// Writes the line of an event in the store of an id: a JSON object, its keys in the order of their bytes.
pub(crate) fn write_event<S: Sink>(sink: &mut S, store: u64, event: &Event) -> Result<(), Failed>
    ensures written { IsTrue S.tells → Writes (compact_text (event_data store event.now) ++ line_end)
        (S.written sink.old) (S.written sink.new) result }
    ensures cause { CountsFaults (S.faults sink.old) (S.faults sink.new) (IsErr result) }
{
    use Part::{Number, Quoted, QuotedDigest, QuotedUuid, Text, Uuids};
    let parts = [
        Text("{\"children\":"),
        Uuids(store, event.children.as_slice()),
        Text(",\"component\":"),
        Quoted(event.component.as_str()),
        Text(",\"detail\":"),
        Quoted(event.detail.as_str()),
        Text(",\"digest\":"),
        QuotedDigest(&event.digest),
        Text(",\"event\":"),
        Number(event.number),
        Text(",\"kind\":"),
        Quoted(word_of_event(event.kind)),
        Text(",\"moment\":"),
        Number(event.moment),
        Text(",\"parents\":"),
        Uuids(store, event.parents.as_slice()),
        Text(",\"size\":"),
        Number(event.size),
        Text(",\"uuid\":"),
        QuotedUuid(store, event.file),
        Text("}"),
    ];
    write_parts(sink, &parts)
}
