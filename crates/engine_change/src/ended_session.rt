//! What a session changes of the store that it worked on.
ghost use Rattle.std.specs.Prelude.{◌≡◌, ◌<◌, ◌≤◌, [], length, unwrap_or, All, IfOk, IfSome};
ghost use Rattle.flowfile_record.specs.declared.name.TheConstants.{NAME_MAX};
ghost use Rattle.machine_model.specs.Sound.{IsSound};
ghost use Rattle.store_core.specs.Change.{HasLiveContents, MayChange};
ghost use Rattle.store_core.specs.Flow.{flow_in};
ghost use Rattle.store_core.specs.Store.{kept_by};
ghost use Rattle.engine_change.specs.Committing.{identity_of, BringsWritten, HasTexts, LeavesDigests, LeavesState, MayCommit, TellsOfSession};

use flowfile_record::{Event, Outcome, Settled};
use machine_model::{Flow, Given};
use settlement::{Counters, Ended, settle};
use std::alloc::{AllocError, Global};
use store_core::{Store, what_is_kept_is_a_state};

/// What a session that has ended changes of a store: what it took is gone, what its outcome says is queued, and its
/// events tell of it. It may be prepared and committed.
pub fn settle_session(
    alloc: Global,
    flow: &Flow,
    store: &Store,
    given: &Given,
    ended: Ended,
) -> Result<Settled, AllocError>
    requires sound { IsSound flow.now }
    requires flow { flow_in (kept_by store.now) ≡ identity_of flow.now }
    requires may { MayCommit flow.now given.now (kept_by store.now) ended }
    // The store may be changed so.
    ensures may { IfOk result (MayChange (kept_by store.now)) }
    ensures live { IfOk result (HasLiveContents store.now) }
    ensures brings { IfOk result (BringsWritten (kept_by store.now).next_number ended.outcome) }
    ensures digests { IfOk result (LeavesDigests ended) }
    // It tells of this session.
    ensures tells { IfOk result (TellsOfSession ended.processor given.now.moment ended.taken) }
    // The state behind it is the one that the machine settles.
    ensures leaves { IfOk result (LeavesState flow.now given.now ended (kept_by store.now)) }
{
    what_is_kept_is_a_state();
    let state = store.state();
    let counters = Counters {
        store: state.store,
        next_number: state.next_number,
        next_arrival: state.next_arrival,
        last_event: state.last_event,
    };
    let _received = received_name(given);
    let _sent = sent_name(&ended.outcome);
    let settled = settle(alloc, flow, given, counters, ended)?;
    let _moment = moment_of(&settled);
    have_texts(settled.events.as_slice());
    Ok(settled)
}

// ---- what types say

/// When the session ended: a moment of 64 bits.
fn moment_of(settled: &Settled) -> u64
    ensures { result ≡ settled.now.moment }
{
    settled.moment
}

/// The name of the file that the session received, which is short.
fn received_name(given: &Given) -> &str
    ensures name { result.now ≡ unwrap_or given.now.file [] }
    ensures short { length result.now ≤ NAME_MAX }
{
    match &given.file {
        Some(name) => name.text(),
        None => "",
    }
}

/// The name under which the session sends a file, which is short.
fn sent_name(outcome: &Outcome) -> &str
    ensures { IfSome outcome.now.sent (λ sent. length sent.name ≤ NAME_MAX) }
{
    match &outcome.sent {
        Some(sent) => sent.name.text(),
        None => "",
    }
}

/// The texts of events are UTF-8.
pub(crate) fn have_texts(events: &[Event])
    ensures { All HasTexts events.now }
{
    for event in events {
        let _component = event.component.as_str();
        let _detail = event.detail.as_str();
    }
}
