//! Whether what a session was handed stands as it stood. No content is read into memory for that, and none is digested.
ghost use Rattle.std.specs.Prelude.{◌≡◌, [], None, Some, false, map, All, Contains, IfOk, IfErr, IsTrue};
ghost use Rattle.content_repo.specs.Claims.{content_in};
ghost use Rattle.machine_model.specs.declared.flow.Flow.{Flow as TheFlow};
ghost use Rattle.store_core.specs.Store.{kept_by, live_in};
ghost use Rattle.engine_steps.specs.Handing.{MayBeReceived, MayBeTaken, asks_at};
ghost use Rattle.engine_steps.specs.HandingParts.{AsksInbox, IsUncalled, LeavesAsRead, ReadsContents};
ghost use Rattle.engine_steps.specs.Standing.{HandedStands, IsOfFlight};
ghost use Rattle.run_law.specs.Work.{IsAtWork};

use crate::EngineError;
use crate::flight::InFlight;
use crate::handing_out::{asks_outbox, is_there};
use disk_trait::Disk;
use engine_choice::Taking;
use engine_session::{Done, are_same_files, live_files};
use flowfile_record::{ContentRef, FlowFile, Name};
use machine_model::{Flow, Given};
use process_session::Source;
use std::alloc::Global;
use store_core::{Store, StoreError};
use world_io::{Inbox, Outbox};

/// Whether the work is that of the session, and what it was handed stands. It may say no of work that had no contents
/// handed, where together they are too large: then the job has to be read again.
pub(crate) fn handed_stands<D: Disk, I: Inbox, O: Outbox>(
    alloc: Global,
    flow: &Flow,
    store: &mut Store,
    disk: &mut D,
    inbox: &mut I,
    outbox: &mut O,
    flight: &InFlight,
    done: &Done,
) -> Result<bool, EngineError>
    requires work { (of : TheFlow) × IsAtWork of D.tells D.held D.moment D.images store.old disk.old }
    requires taken { MayBeTaken (kept_by store.old) flight.now.choice.taking }
    requires received { IsTrue I.tells → MayBeReceived (I.left inbox.old) flight.now.choice.taking }
    ensures stands { IfOk result (λ stands. IsTrue stands
        → HandedStands D.tells O.tells flow.now (kept_by store.old) (content_in (D.held disk.old))
        (O.standing outbox.old) flight.now done.now) }
    ensures uncalled { asks_at flow.now flight.now.choice.processor ≡ false
        → IsUncalled result outbox.old outbox.new }
    ensures leaves { LeavesAsRead result D.tells D.held D.moment D.images D.faults I.left I.faults
        O.standing O.puts O.faults store.old store.new disk.old disk.new inbox.old inbox.new outbox.old outbox.new }
{
    if !is_of_flight(done, flight) {
        return Ok(false);
    }
    let files = live_files(alloc, store, done.numbers())?;
    if !are_same_files(done.files(), files.as_slice()) {
        return Ok(false);
    }
    if !contents_stand(store, disk, files.as_slice(), done.sources())? {
        return Ok(false);
    }
    let asks = asks_outbox(flow, flight.choice.processor);
    if is_there(alloc, outbox, asks, files.as_slice())? != done.given.there {
        return Ok(false);
    }
    ask_for_received(inbox, &flight.choice.taking)?;
    Ok(true)
}

// Whether the work is that of the session.
fn is_of_flight(done: &Done, flight: &InFlight) -> bool
    ensures { IsTrue result → IsOfFlight done.now flight.now }
{
    done.session == flight.session
        && done.processor == flight.choice.processor
        && done.given.moment == flight.moment
        && match &flight.choice.taking {
            Taking::Files {
                connection,
                numbers,
            } => {
                done.connection() == *connection
                    && done.numbers() == numbers.as_slice()
                    && is_given_index(&done.given, 0)
            }
            Taking::Generate { index } => {
                takes_no_files(done) && is_given_index(&done.given, *index)
            }
            Taking::Receive { name } => takes_no_files(done) && is_given_file(&done.given, name),
        }
}

fn takes_no_files(done: &Done) -> bool
    ensures { IsTrue result → (done.now.connection ≡ 0) × (done.now.numbers ≡ []) }
{
    done.connection() == 0 && done.numbers().is_empty()
}

// Whether a session is given this index, and no file.
fn is_given_index(given: &Given, index: u64) -> bool
    ensures { IsTrue result → (given.now.index ≡ index) × (given.now.file ≡ None) }
{
    given.index == index && given.file.is_none()
}

// Whether a session is given the file of this name, and no index.
fn is_given_file(given: &Given, name: &Name) -> bool
    ensures { IsTrue result → (given.now.index ≡ 0) × (given.now.file ≡ Some name.now) }
{
    match &given.file {
        Some(file) => given.index == 0 && *file == *name,
        None => false,
    }
}

// Whether each of these files has the content that its source has.
fn contents_stand<D: Disk>(
    store: &mut Store,
    disk: &mut D,
    files: &[FlowFile],
    sources: &[Source],
) -> Result<bool, EngineError>
    requires work { (flow : TheFlow) × IsAtWork flow D.tells D.held D.moment D.images store.old disk.old }
    requires live { All (λ file. Contains (live_in store.old) file.content) files.now }
    ensures stands { IfOk result (λ stands. IsTrue stands → IsTrue D.tells
        → map (λ source. source.bytes) sources.now
        ≡ map (λ file. Some (content_in (D.held disk.old) file.content)) files.now) }
    ensures contents { ReadsContents result D.tells D.held D.moment D.images D.faults store.old store.new
        disk.old disk.new }
    ensures kinds { IfErr result (λ error. error ≡ EngineError.Disk) }
{
    if files.len() != sources.len() {
        return Ok(false);
    }
    for place in 0..files.len() {
        let Some(bytes) = &sources[place].bytes else {
            return Ok(false);
        };
        if !content_stands(store, disk, &files[place].content, bytes.as_slice())? {
            return Ok(false);
        }
    }
    Ok(true)
}

// Whether a live content is these bytes.
fn content_stands<D: Disk>(
    store: &mut Store,
    disk: &mut D,
    at: &ContentRef,
    bytes: &[u8],
) -> Result<bool, EngineError>
    requires work { (flow : TheFlow) × IsAtWork flow D.tells D.held D.moment D.images store.old disk.old }
    requires live { Contains (live_in store.old) at.now }
    ensures stands { IfOk result (λ stands. IsTrue stands → IsTrue D.tells
        → content_in (D.held disk.old) at.now ≡ bytes.now) }
    ensures contents { ReadsContents result D.tells D.held D.moment D.images D.faults store.old store.new
        disk.old disk.new }
    ensures kinds { IfErr result (λ error. error ≡ EngineError.Disk) }
{
    match store.is_still(disk, at, bytes) {
        Ok(stands) => Ok(stands),
        Err(StoreError::Disk | StoreError::MustReopen) => Err(EngineError::Disk),
        // It takes no memory, tells no damage, passes no limit, and asks for no flow.
        Err(
            StoreError::Memory
            | StoreError::Damaged(_)
            | StoreError::Limit(_)
            | StoreError::OtherFlow { .. },
        ) => unreachable!(),
    }
}

// Asks for the file that is received: an inbox whose file changed since it was read answers with a failure.
fn ask_for_received<I: Inbox>(inbox: &mut I, taking: &Taking) -> Result<(), EngineError>
    requires { IsTrue I.tells → MayBeReceived (I.left inbox.old) taking.now }
    ensures inbox { AsksInbox result I.left I.faults inbox.old inbox.new }
    ensures kinds { IfErr result (λ error. error ≡ EngineError.Inbox) }
{
    if let Taking::Receive { name } = taking {
        let Ok(_) = inbox.size(name) else {
            return Err(EngineError::Inbox);
        };
    }
    Ok(())
}
