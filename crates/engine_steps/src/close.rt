//! The end of an engine.
ghost use Rattle.std.specs.Prelude.{◌≡◌, ℕ, false, IsTrue, Ok, IfOk};
ghost use Rattle.disk_trait.specs.Images.{After, Since};
ghost use Rattle.flowfile_wal.specs.Calls.{InEach};
ghost use Rattle.machine_model.specs.State.{Machine, State};
ghost use Rattle.store_core.specs.Flow.{flow_in};
ghost use Rattle.store_core.specs.State.{stands_for};
ghost use Rattle.store_core.specs.Store.{kept_by, live_in, EachStandsFor};
ghost use Rattle.store_core.specs.Touched.{Frees};
ghost use Rattle.engine_steps.specs.Closing.{EngineIsClosed, RefusesToClose, ShowsState};
ghost use Rattle.run_law.specs.Run.{StandsFor};
ghost use Rattle.run_law.specs.Work.{IsShortOn};
ghost use Rattle.engine_steps.specs.Flights.{HaveNames, given_back};
ghost use Rattle.engine_steps.specs.Ready.{EngineIsReady};

use crate::EngineError;
use crate::engine::Engine;
use crate::flight::{InFlight, give_name_back};
use crate::memory::holds_its_state;
use disk_trait::Disk;
use engine_queues::{Listing, names_go_back};
use flowfile_record::{EventCounts, Stored};
use machine_model::EntryList;

/// What a run leaves whose store was closed: its journal, what is kept, how many of the names that the inbox listed at the
/// start are left there, those of files that are too large among them, and how many events there are of each kind.
#[derive(Drop)]
pub struct Closed {
    pub journal: EntryList,
    pub state: Stored,
    pub left: u64,
    pub events: EventCounts,
}

impl Engine<'_> {
    /// Closes the store: claims without references are emptied, and the disk is synced. Whatever a stop leaves stands for
    /// the same state. Sessions that are in flight have ended by that.
    pub fn close<D: Disk>(self, disk: &mut D) -> Result<Closed, EngineError>
        requires ready { self.failed ≡ false → EngineIsReady D.tells D.held D.moment D.images self disk.old }
        ensures closed { IfOk result (EngineIsClosed D.tells D.held D.moment D.images self.entry disk.new) }
        // Where the disk tells, the state that is handed over is the machine's.
        ensures shows { IfOk result (λ closed. IsTrue D.tells → (m : Machine)
            → InEach (D.images disk.old (D.moment disk.old)) (StandsFor self.entry.flow self.entry.store.lot m)
            → ShowsState self.entry.flow m closed) }
        ensures states { self.entry.failed ≡ false → (state : State)
            → EachStandsFor (flow_in (kept_by self.entry.store)) self.entry.store.lot state
            (D.images disk.old (D.moment disk.old))
            → Since D.moment D.images disk.old disk.new
            (λ c. stands_for (flow_in (kept_by self.entry.store)) self.entry.store.lot c ≡ Ok state) }
        ensures short { self.entry.failed ≡ false → (checkpoint : ℕ) → IsShortOn D.moment D.images checkpoint disk.old
            → IsShortOn D.moment D.images checkpoint disk.new }
        ensures alone { Since D.moment D.images disk.old disk.new
            (After (Frees (live_in self.entry.store)) (D.images disk.old (D.moment disk.old))) }
        ensures refusal { RefusesToClose result D.faults self.entry disk.old disk.new }
    {
        let Engine {
            mut store,
            mut listing,
            journal,
            has_failed,
            out,
            ..
        } = self;
        if has_failed {
            return Err(EngineError::MustReopen);
        }
        holds_its_state(&store, disk);
        let events = store.event_counts();
        let Ok(()) = store.close(disk) else {
            return Err(EngineError::Disk);
        };
        give_names_back(&mut listing, &out);
        Ok(Closed {
            journal: EntryList::from(journal),
            state: store.into_state(),
            left: listing.count_left(),
            events,
        })
    }
}

// Gives back the names of files that sessions in flight receive.
fn give_names_back(listing: &mut Listing<'_>, out: &[InFlight])
    requires { HaveNames listing.old out.now }
    ensures { listing.new ≡ given_back out.now listing.old }
{
    names_go_back();
    for flight in out {
        give_name_back(listing, flight.place);
    }
}
