//! A change becomes part of the store: its contents and its events first, then the log.
ghost use Rattle.std.specs.Prelude.{◌≡◌, ◌+◌, false, length, IfOk, OnOk, IsTrue};
ghost use Rattle.content_repo.specs.Claims.{HasSizes, content_in};
ghost use Rattle.machine_model.specs.Changing.{HaveDigests};
ghost use Rattle.prov_store.specs.State.{EventsAreReady, ChangesBy, files_for};
ghost use Rattle.store_core.specs.Calls.{StopsOnFault};
ghost use Rattle.store_core.specs.Change.{HasLiveContents};
ghost use Rattle.store_core.specs.Committed.{IsPreparedChange, IsAcknowledged, IsAllOrNothing};
ghost use Rattle.store_core.specs.Placing.{PlacesAll, AppendsEvents, GrowsAhead};
ghost use Rattle.store_core.specs.Refusing.{RefusesBy};
ghost use Rattle.store_core.specs.Store.{IsKeptOn};
ghost use Rattle.store_core.specs.Touched.{CommitsTo};
ghost use Rattle.store_core.specs.Writing.{fresh_count, KeepsEntry, LeavesSizes, MayPlaceIn};

use crate::contents::{give_up, place_contents};
use crate::{Prepared, Store, StoreError};
use content_repo::Content;
use disk_trait::Disk;
use flowfile_record::Placed;
use kept_state::PreparedEntry;
use prov_store::{EventBlocks, Events};

impl Store {
    /// Makes a prepared change. Answers the disk's moment at which it was acknowledged. Neither a commit nor a reclaim
    /// comes between the two. It takes no memory.
    ///
    /// After `Disk` the store in memory has the change too, a stop may leave it or not, and the store has to be opened
    /// anew.
    pub fn commit<D: Disk>(
        &mut self,
        disk: &mut D,
        prepared: Prepared<'_>,
    ) -> Result<u64, StoreError>
        requires kept { IsKeptOn D.tells D.held D.moment D.images self.old disk.old }
        requires prepared { IsPreparedChange self.old prepared }
        requires contents { HasLiveContents self.old prepared.settled }
        requires digests { IsTrue D.tells → HaveDigests (content_in (D.held disk.old)) prepared.settled.placed }
        // The change is made in memory, and once it is acknowledged whatever a stop leaves has it: see `kept`.
        ensures changed { self.old.failed ≡ false → IsAllOrNothing D.held D.moment D.images prepared.entry
            self.old self.new disk.old disk.new }
        ensures acknowledged { IfOk result (IsAcknowledged D.held D.moment D.images prepared.entry
            self.old self.new disk.old disk.new) }
        ensures kept { IsKeptOn D.tells D.held D.moment D.images self.new disk.new }
        // What stood in a claim stands there.
        ensures touched { CommitsTo D.tells D.held D.moment D.images self.old.log.number self.old.slots
            disk.old disk.new result }
        ensures refusal { StopsOnFault result self.old self.new D.faults disk.old disk.new }
    {
        if self.has_failed {
            return Err(StoreError::MustReopen);
        }
        // It says of what is kept that it is consistent.
        let _stored = self.state.stored();
        let Prepared {
            mut entry,
            settled,
            events,
        } = prepared;
        let Ok(()) = write_ahead(
            &mut self.contents,
            &mut self.events,
            disk,
            &mut entry,
            settled.placed.as_slice(),
            &events,
        ) else {
            let (entry, _) = entry.into_frame();
            self.state.apply(entry);
            self.has_failed = true;
            return Err(StoreError::Disk);
        };
        give_up(
            &mut self.contents,
            &self.state.stored().files,
            settled.gone.as_slice(),
        );
        let (entry, frame) = entry.into_frame();
        self.state.apply(entry);
        let Ok(moment) = self.log.append(disk, frame.as_slice()) else {
            self.has_failed = true;
            return Err(StoreError::Disk);
        };
        self.entries = self.entries.saturating_add(1);
        Ok(moment)
    }
}

// Writes what the entry of a change speaks of, ahead of the log: its new contents, and then its events.
fn write_ahead<D: Disk>(
    contents: &mut Content,
    events: &mut Events,
    disk: &mut D,
    entry: &mut PreparedEntry,
    placed: &[Placed],
    blocks: &EventBlocks<'_>,
) -> Result<(), StoreError>
    requires may { MayPlaceIn entry.old contents.old placed.now }
    requires sizes { IsTrue D.tells → HasSizes contents.old (D.held disk.old) }
    requires next { blocks.now.first ≡ events.old.end + 1 }
    requires ready { IsTrue D.tells → EventsAreReady events.old (D.held disk.old) }
    ensures placed { OnOk result (PlacesAll D.tells (D.held disk.new) placed.now contents.old contents.new entry.new) }
    ensures events { OnOk result
        (AppendsEvents D.tells blocks.now.events events.old events.new (D.held disk.old) (D.held disk.new)) }
    ensures written { OnOk result (LeavesSizes D.tells D.held D.moment contents.new
        (fresh_count placed.now + files_for events.old.end (length blocks.now.events)) disk.old disk.new) }
    ensures entry { KeepsEntry placed.now entry.old entry.new }
    ensures grows { ChangesBy D.tells D.held D.moment D.images (GrowsAhead contents.old events.old) disk.old disk.new }
    ensures refusal { RefusesBy (λ error. error ≡ StoreError.Disk) result D.faults disk.old disk.new }
{
    place_contents(contents, disk, entry, placed)?;
    events.append(disk, blocks)?;
    Ok(())
}
