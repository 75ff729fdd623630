//! Events are written behind the last one.
ghost use Rattle.std.specs.Prelude.{◌≡◌, ◌+◌, ◌<◌, ◌≤◌, ◌^◌, List, [], ◌++◌, length, IsTrue, IfOk, OnOk, OnErr, IsErr, Ok};
ghost use Rattle.disk_trait.specs.Files.{At, Overwritten, Torn};
ghost use Rattle.disk_trait.specs.Images.{After, Since, HasCalled, calls_later, next_moment};
ghost use Rattle.disk_trait.specs.Faults.{CountsFaults};
ghost use Rattle.flowfile_record.specs.declared.event.Event.{Event as TheEvent};
ghost use Rattle.prov_store.specs.Blocks.{next_offset};
ghost use Rattle.prov_store.specs.Events.{events_file, events_in};
ghost use Rattle.prov_store.specs.Growing.{Stands};
ghost use Rattle.prov_store.specs.State.{EventsAreReady, GrowsBehind, ChangesBy, HasAppended, HasRefused, files_for, next_file};

use crate::blocks::Part;
use crate::counts::count_all;
use crate::events::file_named;
use crate::{EventBlocks, Events};
use disk_trait::{Disk, Failed};
use flowfile_record::EVENTS_PER_FILE;

// The number of the last event, and where the next one goes in its file.
#[derive(Clone, Copy)]
struct Place {
    end: u64,
    offset: u64,
}

impl Events {
    /// Writes events behind the last one, by one write for each file that gets some. It takes no memory.
    pub fn append<D: Disk>(&mut self, disk: &mut D, blocks: &EventBlocks<'_>) -> Result<(), Failed>
        requires next { blocks.now.first ≡ self.old.end + 1 }
        requires ready { IsTrue D.tells → EventsAreReady self.old (D.held disk.old) }
        ensures added { OnOk result (IsTrue D.tells → (before : List TheEvent)
            → events_in (D.held disk.old) self.old.line self.old.end ≡ Ok before
            → events_in (D.held disk.new) self.new.line self.new.end ≡ Ok (before ++ blocks.now.events)) }
        ensures appended { OnOk result (HasAppended D.tells D.held D.moment blocks.now.events self.old self.new
            disk.old disk.new) }
        ensures refused { OnErr result (HasRefused (files_for self.old.end (length blocks.now.events))
            self.old self.new (D.moment disk.old) (D.moment disk.new)) }
        // Whatever a stop leaves, the events before have their bytes.
        ensures behind { ChangesBy D.tells D.held D.moment D.images (GrowsBehind self.old) disk.old disk.new }
        ensures none { blocks.now.events ≡ [] → disk.new ≡ disk.old }
        ensures cause { CountsFaults (D.faults disk.old) (D.faults disk.new) (IsErr result) }
    {
        if blocks.events.is_empty() {
            return Ok(());
        }
        let place = self.write_parts(disk, blocks)?;
        self.end = place.end;
        self.offset = place.offset;
        count_all(&mut self.counts, blocks.events);
        Ok(())
    }

    // Writes the blocks of these events, part by part. Answers the place behind them.
    fn write_parts<D: Disk>(&self, disk: &mut D, blocks: &EventBlocks<'_>) -> Result<Place, Failed>
        requires next { blocks.now.first ≡ self.now.end + 1 }
        requires stands { IsTrue D.tells
            → (before : List TheEvent) × Stands self.now.line self.now.end self.now.offset (D.held disk.old) before }
        ensures stands { IfOk result (λ place. IsTrue D.tells → (before : List TheEvent)
            → Stands self.now.line self.now.end self.now.offset (D.held disk.old) before
            → Stands self.now.line place.end place.offset (D.held disk.new) (before ++ blocks.now.events)) }
        ensures end { IfOk result (λ place. place.end ≡ self.now.end + length blocks.now.events) }
        ensures behind { ChangesBy D.tells D.held D.moment D.images (GrowsBehind self.now) disk.old disk.new }
        ensures writes { OnOk result (D.moment disk.new
            ≡ calls_later (files_for self.now.end (length blocks.now.events)) (D.moment disk.old)) }
        ensures refused { OnErr result (HasCalled (files_for self.now.end (length blocks.now.events))
            (D.moment disk.old) (D.moment disk.new)) }
        ensures cause { CountsFaults (D.faults disk.old) (D.faults disk.new) (IsErr result) }
    {
        let mut place = Place {
            end: self.end,
            offset: self.offset,
        };
        let bytes = blocks.bytes.as_slice();
        let mut start = 0;
        for part in &blocks.parts {
            let end = start + part.size as usize;
            place = write_part(disk, place, *part, &bytes[start..end])?;
            start = end;
        }
        Ok(place)
    }
}

// Writes the blocks of events of one file. Answers the place behind them.
fn write_part<D: Disk>(
    disk: &mut D,
    place: Place,
    part: Part,
    bytes: &[u8],
) -> Result<Place, Failed>
    requires end { place.end + part.count < 2 ^ 64 }
    requires size { part.size ≡ length bytes.now }
    requires reaches { IsTrue D.tells → place.offset ≤ length (D.held disk.old (events_file (next_file place.end))) }
    ensures end { IfOk result (λ next. next.end ≡ place.end + part.count) }
    ensures offset { IfOk result
        (λ next. next.offset ≡ next_offset (place.end + part.count) (place.offset + part.size)) }
    ensures written { OnOk result (IsTrue D.tells
        → At (events_file (next_file place.end)) (Overwritten place.offset bytes.now) (D.held disk.old)
        (D.held disk.new)) }
    ensures torn { IsTrue D.tells
        → At (events_file (next_file place.end)) (Torn place.offset (length bytes.now)) (D.held disk.old)
        (D.held disk.new) }
    ensures images { Since D.moment D.images disk.old disk.new
        (After (At (events_file (next_file place.end)) (Torn place.offset (length bytes.now)))
        (D.images disk.old (D.moment disk.old))) }
    ensures moment { D.moment disk.new ≡ next_moment (D.moment disk.old) }
    ensures cause { CountsFaults (D.faults disk.old) (D.faults disk.new) (IsErr result) }
{
    let file = file_named(place.end / EVENTS_PER_FILE);
    disk.write(file, place.offset, bytes)?;
    Ok(place.behind(part))
}

impl Place {
    // Behind so many events more, whose blocks have this size and go to one file.
    fn behind(self, part: Part) -> Place
        requires end { self.end + part.count < 2 ^ 64 }
        requires offset { self.offset + part.size < 2 ^ 64 }
        ensures end { result.end ≡ self.end + part.count }
        ensures offset { result.offset ≡ next_offset (self.end + part.count) (self.offset + part.size) }
    {
        let end = self.end + part.count;
        let offset = if end % EVENTS_PER_FILE == 0 {
            0
        } else {
            self.offset + part.size
        };
        Place { end, offset }
    }
}
