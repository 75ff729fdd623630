//! What a session changes of the store, and what it sends.
ghost use Rattle.std.specs.Prelude.{◌≡◌, true, IfOk, OnOk};
ghost use Rattle.kept_state.specs.Fits.{are_active_in, are_active_in_one};
ghost use Rattle.machine_model.specs.Sound.{IsSound};
ghost use Rattle.settlement.specs.Contents.{source_bytes};
ghost use Rattle.store_core.specs.Change.{HasLiveContents, MayChange};
ghost use Rattle.store_core.specs.Flow.{flow_in};
ghost use Rattle.store_core.specs.Store.{kept_by};
ghost use Rattle.engine_change.specs.Committing.{identity_of};
ghost use Rattle.engine_session.specs.Change.{MakesStep, TellsDigests, TellsOfWork};
ghost use Rattle.engine_session.specs.Done.{IsWorkOn};
ghost use Rattle.engine_session.specs.Job.{MayHand};
ghost use Rattle.engine_session.specs.declared.job.Job.{Job as TheJob};
ghost use Rattle.engine_session.specs.Sending.{sending_of, sources_left, without_first_bytes};

use crate::done::Done;
use crate::ending::end_session;
use crate::laws::{sessions_are_steps, taken_files_are_handed};
use engine_change::settle_session;
use flowfile_record::{ActiveList, Bytes, Settled};
use machine_model::Flow;
use process_session::SourceList;
use run_law::worlds_follow_steps;
use settlement::Ended;
use std::alloc::{AllocError, Global};
use std::mem;
use store_core::Store;
use world_io::Name;

/// What a session sends to the outbox.
#[derive(Drop)]
pub struct Sending {
    pub name: Name,
    pub bytes: Bytes,
}

/// What a session changes of the store, the connection that what is gone was in, and what it sends.
#[derive(Drop)]
pub struct Changed {
    pub settled: Settled,
    pub connection: u16,
    pub sending: Option<Sending>,
}

/// What a session changes and sends: the work on its job, settled over what the store keeps.
pub fn session_change(
    alloc: Global,
    flow: &Flow,
    store: &Store,
    done: Done,
) -> Result<Changed, AllocError>
    requires sound { IsSound flow.now }
    requires identity { flow_in (kept_by store.now) ≡ identity_of flow.now }
    requires done { (job : TheJob) × MayHand flow.now (kept_by store.now) job
        × IsWorkOn flow.now (kept_by store.now).store job done }
    // The store may be changed so, and the files that are gone were in this connection.
    ensures may { IfOk result (λ changed. MayChange (kept_by store.now) changed.settled) }
    ensures live { IfOk result (λ changed. HasLiveContents store.now changed.settled) }
    ensures gone { IfOk result (λ changed.
        are_active_in (kept_by store.now).files changed.connection changed.settled.gone ≡ true) }
    // It tells of this session, and sends what its processor did.
    ensures tells { IfOk result (TellsOfWork done) }
    // It is a step of the machine.
    ensures step { IfOk result (λ changed. (job : TheJob) → MayHand flow.now (kept_by store.now) job
        → IsWorkOn flow.now (kept_by store.now).store job done
        → MakesStep flow.now (kept_by store.now) job changed) }
    ensures digests { IfOk result (λ changed. (job : TheJob) → MayHand flow.now (kept_by store.now) job
        → IsWorkOn flow.now (kept_by store.now).store job done
        → TellsDigests (kept_by store.now) job changed) }
{
    taken_files_are_handed();
    sessions_are_steps();
    worlds_follow_steps();
    let stored = store.state();
    let Done {
        session: _,
        processor,
        connection,
        numbers: _,
        files,
        given,
        outcome,
        sources,
    } = done;
    let mut ended = end_session(processor, connection, files, (outcome, sources));
    let sending = take_sending(alloc, &mut ended)?;
    let settled = settle_session(alloc, flow, store, &given, ended)?;
    let connection = connection_of(&stored.files, settled.gone.as_slice());
    Ok(Changed {
        settled,
        connection,
        sending,
    })
}

/// What a session sends. The bytes are taken out of what stays of its file, so that they are in memory once.
fn take_sending(alloc: Global, ended: &mut Ended) -> Result<Option<Sending>, AllocError>
    ensures is { IfOk result (λ sending. sending ≡ sending_of ended.old.outcome.sent ended.old.sources) }
    ensures left { OnOk result (ended.new
        ≡ record ended.old { sources = sources_left ended.old.outcome.sent ended.old.sources }) }
{
    let Some(sent) = &ended.outcome.sent else {
        return Ok(None);
    };
    let name = sent.name.clone()?;
    let bytes = take_first_bytes(alloc, &mut ended.sources);
    Ok(Some(Sending { name, bytes }))
}

/// The bytes of the first of these, which are taken out of it.
fn take_first_bytes(alloc: Global, sources: &mut SourceList) -> Bytes
    ensures bytes { result ≡ source_bytes sources.old 0 }
    ensures left { sources.new ≡ without_first_bytes sources.old }
{
    let mut list = mem::replace(sources, SourceList::new(alloc)).into_vec();
    let bytes = match list.get_mut(0) {
        Some(source) => source.bytes.take(),
        None => None,
    };
    *sources = SourceList::from(list);
    match bytes {
        Some(bytes) => bytes,
        None => Bytes::new(alloc),
    }
}

/// The connection that these files are active in; the first one, if there are none.
fn connection_of(files: &ActiveList, numbers: &[u64]) -> u16
    requires { are_active_in_one files.now.items numbers.now ≡ true }
    ensures { are_active_in files.now.items result numbers.now ≡ true }
{
    let Some(first) = numbers.first() else {
        return 0;
    };
    let Some(active) = files.get(*first) else {
        unreachable!()
    };
    active.connection
}
