//! What a store has in memory is what its disk holds.
ghost use Rattle.std.specs.Prelude.{◌≡◌, ℕ, List, [], IsTrue};
ghost use Rattle.checkpoint_store.specs.Consistent.{IsConsistent};
ghost use Rattle.content_repo.specs.Claims.{content_in};
ghost use Rattle.engine_change.specs.Committing.{AreEventsUpTo};
ghost use Rattle.engine_change.specs.Expiring.{HaveContents};
ghost use Rattle.flowfile_record.specs.declared.content.ContentRef.{ContentRef as TheRef};
ghost use Rattle.flowfile_record.specs.declared.event.Event.{Event as TheEvent};
ghost use Rattle.flowfile_wal.specs.Calls.{InEach};
ghost use Rattle.machine_model.specs.State.{Machine};
ghost use Rattle.machine_model.specs.Valid.{IsValid};
ghost use Rattle.machine_model.specs.declared.flow.Flow.{Flow as TheFlow};
ghost use Rattle.prov_store.specs.State.{counts_of};
ghost use Rattle.store_core.specs.State.{state_with};
ghost use Rattle.store_core.specs.Store.{FilesHold, kept_by};
ghost use Rattle.run_law.specs.Run.{IsStateOf, StandsFor};
ghost use Rattle.run_law.specs.Work.{IsAtWork};

use disk_trait::Disk;
use engine_change::held_contents_are_read;
use prov_store::events_up_to_the_last_are_in_a_row;
use run_law::memory_is_the_state;
use store_core::{Store, what_is_kept_is_a_state};

/// It does nothing: where the disk tells, the files hold what is kept, with the contents of its files, and it is that
/// state of the machine which the files stand for, with so many events of each kind. What is kept is a valid state of its
/// flow.
pub fn holds_its_state<D: Disk>(store: &Store, disk: &D)
    requires { (flow : TheFlow) × IsAtWork flow D.tells D.held D.moment D.images store.now disk.now }
    ensures held { IsTrue D.tells → FilesHold store.now (D.held disk.now) }
    ensures tied { IsTrue D.tells → (flow : TheFlow)
        → IsAtWork flow D.tells D.held D.moment D.images store.now disk.now
        → (m : Machine) → InEach (D.images disk.now (D.moment disk.now)) (StandsFor flow store.now.lot m)
        → IsStateOf m (content_in (D.held disk.now)) (kept_by store.now) }
    ensures counted { IsTrue D.tells → (flow : TheFlow)
        → IsAtWork flow D.tells D.held D.moment D.images store.now disk.now
        → (m : Machine) → InEach (D.images disk.now (D.moment disk.now)) (StandsFor flow store.now.lot m)
        → store.now.events.counts ≡ counts_of m.state.events }
    ensures read { IsTrue D.tells → HaveContents (content_in (D.held disk.now)) (kept_by store.now) }
    ensures kept { IsConsistent (kept_by store.now) × ((kept_by store.now).batches ≡ []) }
    ensures valid { (flow : TheFlow) → IsAtWork flow D.tells D.held D.moment D.images store.now disk.now
        → (contents : TheRef → List ℕ) (events : List TheEvent) → AreEventsUpTo (kept_by store.now).last_event events
        → IsValid flow (state_with contents events (kept_by store.now)) }
{
    what_is_kept_is_a_state();
    events_up_to_the_last_are_in_a_row();
    memory_is_the_state();
    held_contents_are_read();
    let _stored = store.state();
    let _ = disk;
}
