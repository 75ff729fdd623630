//! A store is opened, whatever a stop left of it.
ghost use Rattle.std.specs.Prelude.{◌≡◌, ◌⊎◌, ℕ, List, true, Err, IfOk, OnOk, IfErr, IsErrOf, IsTrue};
ghost use Rattle.disk_trait.specs.Files.{Files};
ghost use Rattle.disk_trait.specs.Images.{Since, Stays, IsOnly};
ghost use Rattle.disk_trait.specs.declared.damage.Damage.{Damage as TheDamage};
ghost use Rattle.flowfile_record.specs.Stored.{kept_of};
ghost use Rattle.flowfile_wal.specs.Current.{current_number};
ghost use Rattle.checkpoint_store.specs.Consistent.{IsConsistent};
ghost use Rattle.store_core.specs.Calls.{RefusesToOpen, SinceSync, IsUnsynced, IsUnwritten};
ghost use Rattle.store_core.specs.Flow.{agrees_with, flow_in};
ghost use Rattle.store_core.specs.New.{kept_anew};
ghost use Rattle.store_core.specs.Opened.{IsOpenedOn, IsOfOther, IsShut, IsToldDamaged, IsToldOther, SameMeaning};
ghost use Rattle.store_core.specs.State.{stands_for};
ghost use Rattle.store_core.specs.Touched.{Revives};

use crate::reading::{read_contents, read_kept};
use crate::revival::revive;
use crate::{FlowIdentity, Store, StoreError};
use disk_trait::Disk;
use flowfile_record::Stored;
use prov_store::Events;
use std::alloc::Global;

impl Store {
    /// Opens the store that stands on a disk, or makes one where there is none. The id of a new one is the low 60 bits
    /// of the lot.
    ///
    /// It begins with a sync, reads all that the files stand for, block by block and content by content, and then mends
    /// the log, cuts what doesn't matter, or makes the store. After any error open again.
    pub fn load<D: Disk>(
        alloc: Global,
        disk: &mut D,
        flow: &FlowIdentity<'_>,
        lot: u64,
    ) -> Result<Store, StoreError>
        requires { IsConsistent (kept_anew flow.now lot) }
        ensures opened { IfOk result (IsOpenedOn D.tells D.held D.moment D.images flow.now lot disk.old disk.new) }
        // From behind the first sync on, whatever a stop leaves keeps and stands for the same; or that sync failed.
        ensures images { SinceSync D.moment D.images disk.old disk.new (SameMeaning flow.now lot (D.held disk.old))
            ⊎ IsUnsynced D.moment D.images disk.old disk.new result }
        // The log alone is written; where a store is made, the first log and its snapshot. All else is only cut.
        ensures alone { SinceSync D.moment D.images disk.old disk.new
            (Revives (current_number (D.held disk.old)) (D.held disk.old))
            ⊎ IsUnsynced D.moment D.images disk.old disk.new result }
        ensures damaged { (damage : TheDamage) → IsErrOf result (StoreError.Damaged damage)
            → IsToldDamaged flow.now D.tells D.held D.moment lot damage disk.old disk.new }
        ensures other_flow { (digest asked : List ℕ) → IsErrOf result (StoreError.OtherFlow digest asked)
            → IsToldOther flow.now D.tells D.held D.moment lot digest asked disk.old disk.new }
        // Files that may not be opened are only read, whatever the answer, unless the first sync failed.
        ensures shut { IsTrue D.tells → IsShut flow.now lot (D.held disk.old)
            → IsUnwritten D.held D.moment disk.old disk.new ⊎ IsUnsynced D.moment D.images disk.old disk.new result }
        ensures refusal { RefusesToOpen result D.faults disk.old disk.new }
    {
        disk.sync()?;
        let store = restore(alloc, disk, flow, lot)?;
        Ok(store)
    }
}

// Opens the store on a disk with nothing pending.
fn restore<D: Disk>(
    alloc: Global,
    disk: &mut D,
    flow: &FlowIdentity<'_>,
    lot: u64,
) -> Result<Store, StoreError>
    requires synced { IsOnly (D.held disk.old) (D.images disk.old (D.moment disk.old)) }
    requires flow { IsConsistent (kept_anew flow.now lot) }
    ensures opened { IfOk result (IsOpenedOn D.tells D.held D.moment D.images flow.now lot disk.old disk.new) }
    ensures images { Since D.moment D.images disk.old disk.new (SameMeaning flow.now lot (D.held disk.old)) }
    ensures alone { Since D.moment D.images disk.old disk.new
        (Revives (current_number (D.held disk.old)) (D.held disk.old)) }
    ensures damaged { (damage : TheDamage) → IsErrOf result (StoreError.Damaged damage)
        → Stays D.held D.moment D.images disk.old disk.new
        × (IsTrue D.tells → stands_for flow.now lot (D.held disk.old) ≡ Err damage) }
    ensures other_flow { (digest other : List ℕ) → IsErrOf result (StoreError.OtherFlow digest other)
        → Stays D.held D.moment D.images disk.old disk.new × (other ≡ flow.now.digest)
        × (IsTrue D.tells → IsOfOther flow.now lot digest (D.held disk.old)) }
    ensures shut { IsTrue D.tells → IsShut flow.now lot (D.held disk.old)
        → Stays D.held D.moment D.images disk.old disk.new }
    ensures refusal { RefusesToOpen result D.faults disk.old disk.new }
{
    let found = read_kept(alloc, disk, flow, lot)?;
    let kept = found.state.stored();
    let opened = read_contents(alloc, disk, kept)?;
    let events = Events::load(alloc, disk, kept.last_event, 0)?;
    check_flow(kept, flow)?;
    revive(alloc, disk, found, opened, events, lot)
}

// What is kept is of this flow.
fn check_flow(stored: &Stored, flow: &FlowIdentity<'_>) -> Result<(), StoreError>
    requires { agrees_with flow.now (kept_of stored.now) ≡ true }
    ensures same { OnOk result (flow_in (kept_of stored.now) ≡ flow.now) }
    ensures other { IfErr result (λ error. ((kept_of stored.now).flow ≡ flow.now.digest → ⊥)
        × (error ≡ StoreError.OtherFlow (kept_of stored.now).flow flow.now.digest)) }
{
    if stored.flow == flow.digest {
        return Ok(());
    }
    Err(StoreError::OtherFlow {
        kept: stored.flow,
        found: flow.digest,
    })
}
