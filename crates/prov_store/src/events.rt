//! What is in memory of the events.
ghost use Rattle.std.specs.Prelude.{◌≡◌};
ghost use Rattle.prov_store.specs.Events.{events_file};

use disk_trait::{FileKind, FileName};
use flowfile_record::EventCounts;
use std::marker::Model;

/// A file of events that is longer than what is covered, and the size of that.
#[derive(Clone, Copy, Debug, PartialEq, Eq)]
pub struct Stale {
    pub file: u64,
    pub size: u64,
}

/// The events of a store, past a line and up to a last one. It holds no disk: each call is handed the one that it was
/// loaded from.
#[derive(Debug, Drop)]
pub struct Events {
    // The events up to this one are forgotten.
    pub(crate) line: u64,
    pub(crate) end: u64,
    // Where the next event goes in its file.
    pub(crate) offset: u64,
    pub(crate) counts: EventCounts,
    pub(crate) stale: Vec<Stale>,
}

impl Model for Events {
    ghost use Rattle.std.specs.Prelude.{◌≡◌, ◌≤◌, length, All};
    ghost use Rattle.flowfile_record.specs.Encoding.{IsNumber};
    ghost use Rattle.prov_store.specs.State.{EventsState, IsEventLine};

    ghost Value = { EventsState };

    ghost view = { λ events. record {
      line = events.line;
      end = events.end;
      offset = events.offset;
      counts = events.counts.counts;
      stale = events.stale.items;
    } };

    ghost invariant = { λ events. IsNumber events.end × IsEventLine events.line events.end
        × (length events.counts.counts ≡ 12) × All (λ count. count ≤ events.end) events.counts.counts };
}

impl Events {
    /// The line, up to which events are forgotten: a multiple of `EVENTS_PER_FILE`.
    pub fn line(&self) -> u64
        ensures { result ≡ self.now.line }
    {
        self.line
    }

    /// The number of the last event, 0 for none.
    pub fn end(&self) -> u64
        ensures { result ≡ self.now.end }
    {
        self.end
    }

    /// How many events past the line there are of each kind.
    pub fn counts(&self) -> EventCounts
        ensures { result.counts ≡ self.now.counts }
    {
        self.counts
    }
}

/// The file of events of this number.
pub(crate) fn file_named(number: u64) -> FileName
    ensures { result ≡ events_file number }
{
    FileName {
        kind: FileKind::Events,
        number,
    }
}
