//! Old files of events are forgotten.
ghost use Rattle.std.specs.Prelude.{◌≡◌, ℕ, ◌+◌, ◌*◌, ◌≤◌, ◌<◌, ◌^◌, List, [], filter, nat_lt, length, slice_index, IsTrue, OnOk, OnErr, IsErr, Ok};
ghost use Rattle.disk_trait.specs.Files.{At, Shortened};
ghost use Rattle.disk_trait.specs.Images.{Stays, next_moment};
ghost use Rattle.disk_trait.specs.Faults.{CountsFaults};
ghost use Rattle.flowfile_record.specs.declared.event.Event.{Event as TheEvent};
ghost use Rattle.prov_store.specs.Aging.{AreUncounted};
ghost use Rattle.prov_store.specs.Events.{events_file, events_from, events_in, first_event};
ghost use Rattle.prov_store.specs.Loading.{bytes_there};
ghost use Rattle.prov_store.specs.Reading.{IsThere};
ghost use Rattle.prov_store.specs.State.{AreFewer, ChangesBy, CutsStale, EventsAreReady, HasAged, HasCalledAtMost, HasNotAged, IsEventLine, files_between};

use crate::Events;
use crate::counts::uncount;
use crate::events::file_named;
use crate::read::{Cursor, read_head_at};
use disk_trait::{Disk, Failed};
use flowfile_record::{EVENTS_PER_FILE, EventCounts};

impl Events {
    /// Forgets the events up to a line: the counts are those of the later ones, and the files of the forgotten ones are
    /// cut to nothing, by one call each. It takes no memory: of each block that goes the head is read again.
    pub fn age<D: Disk>(&mut self, disk: &mut D, line: u64) -> Result<(), Failed>
        requires line { IsEventLine line self.old.end }
        requires past { self.old.line < line }
        requires ready { IsTrue D.tells → EventsAreReady self.old (D.held disk.old) }
        ensures kept { OnOk result (IsTrue D.tells → (before : List TheEvent)
            → events_in (D.held disk.old) self.old.line self.old.end ≡ Ok before
            → events_in (D.held disk.new) line self.old.end ≡ Ok (filter (λ e. nat_lt line e.number) before)) }
        ensures aged { OnOk result (HasAged D.tells D.held D.moment line self.old self.new disk.old disk.new) }
        ensures refused { OnErr result
            (HasNotAged line self.old self.new (D.moment disk.old) (D.moment disk.new)) }
        // Whatever a stop leaves, only files between the two lines are changed.
        ensures between { ChangesBy D.tells D.held D.moment D.images (CutsStale (files_between self.old.line line))
            disk.old disk.new }
        ensures cause { CountsFaults (D.faults disk.old) (D.faults disk.new) (IsErr result) }
    {
        let mut counts = self.counts;
        for number in self.line / EVENTS_PER_FILE..line / EVENTS_PER_FILE {
            forget_file(disk, number, &mut counts)?;
        }
        self.line = line;
        self.counts = counts;
        Ok(())
    }
}

// Takes the events of the file of this number, which is full, from the counts, and cuts it to nothing.
fn forget_file<D: Disk>(disk: &mut D, number: u64, counts: &mut EventCounts) -> Result<(), Failed>
    requires number { number * EVENTS_PER_FILE + EVENTS_PER_FILE + 1 < 2 ^ 64 }
    requires long { length counts.old.counts ≡ 12 }
    ensures uncounted { OnOk result (IsTrue D.tells → (events : List TheEvent)
        → events_from EVENTS_PER_FILE (events_file number) 0 (first_event number) (D.held disk.old (events_file number))
        ≡ Ok events → AreUncounted events counts.old.counts counts.new.counts) }
    ensures fewer { AreFewer counts.old.counts counts.new.counts }
    ensures cut { OnOk result (IsTrue D.tells
        → At (events_file number) (λ old new. new ≡ []) (D.held disk.old) (D.held disk.new)) }
    ensures shortened { ChangesBy D.tells D.held D.moment D.images (At (events_file number) (Shortened 0))
        disk.old disk.new }
    ensures moment { OnOk result (D.moment disk.new ≡ next_moment (D.moment disk.old)) }
    ensures refused { OnErr result (HasCalledAtMost 1 (D.moment disk.old) (D.moment disk.new)) }
    ensures cause { CountsFaults (D.faults disk.old) (D.faults disk.new) (IsErr result) }
{
    let file = file_named(number);
    let start = Cursor {
        file,
        size: disk.size(file)?,
        at: 0,
        number: number * EVENTS_PER_FILE + 1,
    };
    uncount_events(disk, start, EVENTS_PER_FILE, counts)?;
    disk.cut(file, 0)
}

// Takes so many events from there on from the counts, as far as heads of blocks stand there.
fn uncount_events<D: Disk>(
    disk: &mut D,
    start: Cursor,
    many: u64,
    counts: &mut EventCounts,
) -> Result<(), Failed>
    requires there { IsThere D.tells (D.held disk.old) start }
    requires numbers { start.number + many < 2 ^ 64 }
    requires long { length counts.old.counts ≡ 12 }
    ensures uncounted { OnOk result (IsTrue D.tells → (events : List TheEvent)
        → events_from many start.file start.at start.number (bytes_there (D.held disk.old) start) ≡ Ok events
        → AreUncounted events counts.old.counts counts.new.counts) }
    ensures fewer { AreFewer counts.old.counts counts.new.counts }
    ensures stays { Stays D.held D.moment D.images disk.old disk.new }
    ensures cause { CountsFaults (D.faults disk.old) (D.faults disk.new) (IsErr result) }
{
    let mut cursor = start;
    for _ in 0..many {
        let Some(head) = read_head_at(disk, cursor)? else {
            return Ok(());
        };
        uncount(counts, head.kind);
        cursor = cursor.behind(head.size);
    }
    Ok(())
}
