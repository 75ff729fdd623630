//! What files of a connection change of a store that expire there.
ghost use Rattle.std.specs.Prelude.{◌≡◌, ◌+◌, ◌<◌, ◌^◌, true, length, IfOk};
ghost use Rattle.flowfile_record.specs.Stored.{kept_of};
ghost use Rattle.kept_state.specs.Moves.{are_all_active};
ghost use Rattle.machine_model.specs.Sound.{IsSound};
ghost use Rattle.store_core.specs.Change.{HasLiveContents, MayExpire};
ghost use Rattle.store_core.specs.Flow.{flow_in};
ghost use Rattle.store_core.specs.Store.{kept_by};
ghost use Rattle.engine_change.specs.Committing.{identity_of};
ghost use Rattle.engine_change.specs.Expiring.{MayExpireIn, LeavesExpired, ExpiriesAreSteps, DueExpiriesMayExpire, HeldContentsAreRead, AscendingStay, expiry_event, expiry_events};

use crate::ended_session::have_texts;
use flowfile_record::{
    ActiveFile, Event, EventKind, EventList, Numbers, PlacedList, Settled, Stored, Text,
};
use machine_model::Flow;
use std::alloc::{AllocError, Global};
use store_core::{SettledExpiry, Store, what_is_kept_is_a_state};

/// What files of a connection change of a store that expire there: they are gone, and an event tells of each. It may be
/// prepared and committed.
pub fn expire_files(
    alloc: Global,
    flow: &Flow,
    store: &Store,
    moment: u64,
    connection: u16,
    numbers: Numbers,
) -> Result<SettledExpiry, AllocError>
    requires sound { IsSound flow.now }
    requires flow { flow_in (kept_by store.now) ≡ identity_of flow.now }
    requires may { MayExpireIn flow.now (kept_by store.now) connection numbers }
    // The store may be changed so.
    ensures may { IfOk result (MayExpire (kept_by store.now)) }
    ensures live { IfOk result (λ expiry. HasLiveContents store.now expiry.settled) }
    ensures these { IfOk result (λ expiry. (expiry.connection ≡ connection) × (expiry.settled.gone ≡ numbers)
        × (expiry.settled.moment ≡ moment)) }
    // The state behind it is the one in which the machine has them expired.
    ensures leaves { IfOk result (λ expiry.
        LeavesExpired flow.now (kept_by store.now) connection numbers moment expiry.settled) }
{
    what_is_kept_is_a_state();
    let state = store.state();
    let component = &flow.connections.as_slice()[usize::from(connection)].id;
    let events = expiry_events(alloc, component, moment, state, numbers.as_slice())?;
    have_texts(events.as_slice());
    Ok(SettledExpiry {
        connection,
        settled: Settled {
            processor: 0,
            moment,
            gone: numbers,
            placed: PlacedList::new(alloc),
            events: EventList::from(events),
            next_number: state.next_number,
            next_arrival: state.next_arrival,
            count: None,
        },
    })
}

/// The events of files that expire in the connection of an id.
fn expiry_events(
    alloc: Global,
    component: &Text,
    moment: u64,
    state: &Stored,
    numbers: &[u64],
) -> Result<Vec<Event>, AllocError>
    requires active { are_all_active (kept_of state.now).files numbers.now ≡ true }
    requires few { (kept_of state.now).last_event + length numbers.now < 2 ^ 64 }
    ensures { IfOk result (λ events. events.items
        ≡ expiry_events component.now moment (kept_of state.now) (kept_of state.now).last_event numbers.now) }
{
    let mut events = Vec::new(alloc);
    let mut last = state.last_event;
    for number in numbers {
        let Some(active) = state.files.get(*number) else {
            unreachable!()
        };
        last += 1;
        events.push(event_of(alloc, component, moment, last, active)?)?;
    }
    Ok(events)
}

/// The event of a file that expires.
fn event_of(
    alloc: Global,
    component: &Text,
    moment: u64,
    number: u64,
    active: &ActiveFile,
) -> Result<Event, AllocError>
    ensures { IfOk result (λ event. event ≡ expiry_event component.now moment active.now number) }
{
    Ok(Event {
        number,
        kind: EventKind::Expire,
        moment,
        component: component.clone()?,
        file: active.file.number,
        parents: Numbers::new(alloc),
        children: Numbers::new(alloc),
        detail: Text::from_str(alloc, "")?,
        size: active.file.content.size,
        digest: active.file.content.digest,
    })
}

/// There is a step of the machine for files that expire.
pub fn expiries_are_steps()
    ensures { ExpiriesAreSteps }
{
    what_is_kept_is_a_state();
}

/// What is due by queues that show the machine's files may expire, whichever files are in flight, and there is a step
/// for it.
pub fn due_expiries_may_expire()
    ensures { DueExpiriesMayExpire }
{
    what_is_kept_is_a_state();
}

/// In files that hold what a store has in memory, each live content has the size and the digest of its reference.
pub fn held_contents_are_read()
    ensures { HeldContentsAreRead }
{}

/// Numbers in their order stay in it.
pub fn ascending_numbers_stay()
    ensures { AscendingStay }
{}
