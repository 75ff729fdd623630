//! The job of a session is handed out: files of a queue with their contents, a file of the inbox, or an index.
ghost use Rattle.std.specs.Prelude.{◌≡◌, ◌⊎◌, ◌≤◌, ◌&&◌, Bool, false, find, length, List, Option, Some, None, true, is_some, IfOk, IfErr, IsErrOf, IsTrue, slice_get, []};
ghost use Rattle.std.specs.Option.{option_map_or};
ghost use Rattle.disk_trait.specs.Faults.{CountsFaults};
ghost use Rattle.disk_trait.specs.Images.{Stays};
ghost use Rattle.disk_trait.specs.declared.damage.Damage.{Damage as TheDamage};
ghost use Rattle.flowfile_record.specs.NamedFile.{NamedFile, bytes_of};
ghost use Rattle.flowfile_record.specs.declared.TheConstants.{CONTENT_MAX};
ghost use Rattle.content_repo.specs.Claims.{content_in};
ghost use Rattle.engine_choice.specs.declared.choice.Taking.TheVariants.{Files, Generate, Receive};
ghost use Rattle.kept_state.specs.declared.limit.Limit.{Limit as TheLimit};
ghost use Rattle.machine_model.specs.Acting.{name_in};
ghost use Rattle.machine_model.specs.declared.flow.Flow.{Flow as TheFlow};
ghost use Rattle.store_core.specs.Store.{kept_by};
ghost use Rattle.engine_session.specs.Done.{MayWorkOn};
ghost use Rattle.engine_steps.specs.Engine.{AreTakeable};
ghost use Rattle.engine_steps.specs.Flights.{has_session, is_in_flight, names_to_come};
ghost use Rattle.engine_steps.specs.declared.flight.InFlight.{InFlight as TheFlight};
ghost use Rattle.engine_steps.specs.Errors.{CountsEachFault, IsReadBy, OnlyReads, EngineRefusesToRead};
ghost use Rattle.engine_steps.specs.Handing.{JobIsHanded, IsHandedAs, MayBeReceived, MayBeTaken, asks_at};
ghost use Rattle.engine_steps.specs.OwnJob.{IsJobOf};
ghost use Rattle.engine_steps.specs.Ready.{EngineIsReady, IsUsableWith};
ghost use Rattle.run_law.specs.Work.{DoesNotTell, IsAtWork};
ghost use Rattle.run_law.specs.Puts.{outgoing};
ghost use Rattle.engine_steps.specs.HandingParts.{AsksInbox, AsksOutbox, IsUncalled, LeavesAsRead, ReadsContents};

use crate::EngineError;
use crate::engine::Engine;
use crate::flight::{InFlight, flight_in};
use crate::memory::holds_its_state;
use crate::reading::read_contents;
use disk_trait::Disk;
use engine_choice::Taking;
use engine_session::{Job, ReadList, live_files, taken_files_are_handed};
use flowfile_record::{Attributes, Bytes, FileList, FlowFile, NameError, Numbers};
use machine_model::{Flow, Given, Kind};
use std::alloc::Global;
use store_core::Store;
use world_io::{Inbox, Name, Outbox};

impl Engine<'_> {
    /// Reads the job of a session in flight: the contents of the files that it takes, or the file of the inbox. For a
    /// PutFile the outbox is asked whether it has the file's name; for any other it isn't called. Nothing is written.
    pub fn read<D: Disk, I: Inbox, O: Outbox>(
        &mut self,
        alloc: Global,
        disk: &mut D,
        inbox: &mut I,
        outbox: &mut O,
        session: u64,
    ) -> Result<Job, EngineError>
        requires usable { IsUsableWith D.tells D.held D.moment D.images I.tells (I.left inbox.old) self.old disk.old }
        ensures job { IfOk result (λ job. (flight : TheFlight) × (flight.session ≡ session)
            × IsJobOf D.tells I.tells O.tells self.old (content_in (D.held disk.old)) (I.left inbox.old)
            (O.standing outbox.old) flight job
            × MayWorkOn self.old.flow (kept_by self.old.store).store job) }
        ensures engine { OnlyReads result self.old self.new }
        ensures world { Stays D.held D.moment D.images disk.old disk.new × (I.left inbox.new ≡ I.left inbox.old)
            × (outgoing O.standing O.puts outbox.new ≡ outgoing O.standing O.puts outbox.old) }
        ensures usable { IsUsableWith D.tells D.held D.moment D.images I.tells (I.left inbox.new) self.new disk.new }
        ensures uncalled { (flight : TheFlight) → find (has_session session) self.old.out ≡ Some flight
            → asks_at self.old.flow flight.choice.processor ≡ false → IsUncalled result outbox.old outbox.new }
        ensures refusal { EngineRefusesToRead result session D.tells D.faults I.faults O.faults
            self.old self.new disk.old disk.new inbox.old inbox.new outbox.old outbox.new }
    {
        if self.flight(session).is_none() {
            return Err(EngineError::NoSession);
        }
        if self.has_failed {
            return Err(EngineError::MustReopen);
        }
        let job = self.read_job(alloc, disk, inbox, outbox, session);
        if let Err(EngineError::Disk) = &job {
            self.has_failed = true;
        }
        job
    }

    // Reads the job, by a store that works.
    pub(crate) fn read_job<D: Disk, I: Inbox, O: Outbox>(
        &mut self,
        alloc: Global,
        disk: &mut D,
        inbox: &mut I,
        outbox: &mut O,
        session: u64,
    ) -> Result<Job, EngineError>
        requires ready { EngineIsReady D.tells D.held D.moment D.images self.old disk.old }
        requires flying { is_in_flight session self.old.out ≡ true }
        requires left { IsTrue I.tells → AreTakeable (I.left inbox.old) (names_to_come self.old) }
        ensures job { IfOk result (λ job. (flight : TheFlight)
            → find (has_session session) self.old.out ≡ Some flight
            → IsJobOf D.tells I.tells O.tells self.old (content_in (D.held disk.old)) (I.left inbox.old)
            (O.standing outbox.old) flight job) }
        ensures may { IfOk result (MayWorkOn self.old.flow (kept_by self.old.store).store) }
        ensures uncalled { (flight : TheFlight) → find (has_session session) self.old.out ≡ Some flight
            → asks_at self.old.flow flight.choice.processor ≡ false → IsUncalled result outbox.old outbox.new }
        ensures rest { self.new ≡ record self.old { store = self.new.store } }
        ensures leaves { LeavesAsRead result D.tells D.held D.moment D.images D.faults I.left I.faults
            O.standing O.puts O.faults self.old.store self.new.store disk.old disk.new inbox.old inbox.new
            outbox.old outbox.new }
    {
        holds_its_state(&self.store, disk);
        taken_files_are_handed();
        let Some(flight) = flight_in(&self.out, session) else {
            unreachable!()
        };
        hand(
            alloc,
            self.flow,
            &mut self.store,
            disk,
            inbox,
            outbox,
            flight,
        )
    }
}

// What a session in flight is handed.
fn hand<D: Disk, I: Inbox, O: Outbox>(
    alloc: Global,
    flow: &Flow,
    store: &mut Store,
    disk: &mut D,
    inbox: &mut I,
    outbox: &mut O,
    flight: &InFlight,
) -> Result<Job, EngineError>
    requires work { (of : TheFlow) × IsAtWork of D.tells D.held D.moment D.images store.old disk.old }
    requires taken { MayBeTaken (kept_by store.old) flight.now.choice.taking }
    requires received { IsTrue I.tells → MayBeReceived (I.left inbox.old) flight.now.choice.taking }
    ensures handed { IfOk result (JobIsHanded (kept_by store.old) flight.now) }
    ensures told { IfOk result (IsHandedAs D.tells I.tells O.tells flow.now (kept_by store.old)
        (content_in (D.held disk.old)) (I.left inbox.old) (O.standing outbox.old) flight.now.choice) }
    ensures uncalled { asks_at flow.now flight.now.choice.processor ≡ false
        → IsUncalled result outbox.old outbox.new }
    ensures leaves { LeavesAsRead result D.tells D.held D.moment D.images D.faults I.left I.faults
        O.standing O.puts O.faults store.old store.new disk.old disk.new inbox.old inbox.new outbox.old outbox.new }
{
    match &flight.choice.taking {
        Taking::Files {
            connection,
            numbers,
        } => hand_files(
            alloc,
            flow,
            store,
            disk,
            outbox,
            flight,
            *connection,
            numbers.as_slice(),
        ),
        Taking::Generate { index } => Ok(without_files(
            alloc,
            flight,
            Given {
                moment: flight.moment,
                index: *index,
                there: false,
                file: None,
                bytes: None,
            },
        )),
        Taking::Receive { name } => {
            let file = name.clone()?;
            let bytes = receive(alloc, inbox, name)?;
            Ok(without_files(
                alloc,
                flight,
                Given {
                    moment: flight.moment,
                    index: 0,
                    there: false,
                    file: Some(file),
                    bytes: Some(bytes),
                },
            ))
        }
    }
}

// The job of a session that takes no files.
fn without_files(alloc: Global, flight: &InFlight, given: Given) -> Job
    ensures { result ≡ record {
      session = flight.now.session;
      processor = flight.now.choice.processor;
      connection = 0;
      numbers = [];
      files = [];
      contents = [];
      given = given;
    } }
{
    Job {
        session: flight.session,
        processor: flight.choice.processor,
        connection: 0,
        numbers: Numbers::new(alloc),
        files: FileList::new(alloc),
        contents: ReadList::new(alloc),
        given,
    }
}

// The bytes of a file of the inbox.
fn receive<I: Inbox>(alloc: Global, inbox: &mut I, name: &Name) -> Result<Bytes, EngineError>
    requires { IsTrue I.tells → MayBeReceived (I.left inbox.old) (Receive name.now) }
    ensures bytes { IfOk result (λ bytes. IsTrue I.tells → bytes_of (I.left inbox.old) name.now ≡ Some bytes) }
    ensures most { IfOk result (λ bytes. length bytes ≤ CONTENT_MAX) }
    ensures inbox { AsksInbox result I.left I.faults inbox.old inbox.new }
    ensures kinds { IfErr result (λ error. (error ≡ EngineError.Inbox) ⊎ (error ≡ EngineError.Memory)) }
{
    let mut bytes = Vec::new(alloc);
    inbox.read(name, &mut bytes)?;
    Ok(Bytes::from(bytes))
}

// The job of a session that takes these files of a connection.
fn hand_files<D: Disk, O: Outbox>(
    alloc: Global,
    flow: &Flow,
    store: &mut Store,
    disk: &mut D,
    outbox: &mut O,
    flight: &InFlight,
    connection: u16,
    numbers: &[u64],
) -> Result<Job, EngineError>
    requires work { (of : TheFlow) × IsAtWork of D.tells D.held D.moment D.images store.old disk.old }
    requires taking { flight.now.choice.taking ≡ Files connection numbers.now }
    requires taken { MayBeTaken (kept_by store.old) (Files connection numbers.now) }
    ensures handed { IfOk result (JobIsHanded (kept_by store.old) flight.now) }
    ensures told { IfOk result (λ job. (in_tells : Bool) (left : List NamedFile)
        → IsHandedAs D.tells in_tells O.tells flow.now (kept_by store.old) (content_in (D.held disk.old)) left
        (O.standing outbox.old) flight.now.choice job) }
    ensures contents { ReadsContents result D.tells D.held D.moment D.images D.faults store.old store.new
        disk.old disk.new }
    ensures outbox { AsksOutbox result O.standing O.puts O.faults outbox.old outbox.new }
    ensures uncalled { asks_at flow.now flight.now.choice.processor ≡ false
        → IsUncalled result outbox.old outbox.new }
    ensures kinds { IfErr result (λ error. (error ≡ EngineError.Disk) ⊎ (error ≡ EngineError.Memory)
        ⊎ (error ≡ EngineError.Outbox) ⊎ ((damage : TheDamage) × (error ≡ EngineError.Damaged damage))) }
{
    let files = live_files(alloc, store, numbers)?;
    let contents = read_contents(alloc, store, disk, files.as_slice())?;
    let asks = asks_outbox(flow, flight.choice.processor);
    let there = is_there(alloc, outbox, asks, files.as_slice())?;
    let given = Given {
        moment: flight.moment,
        index: 0,
        there,
        file: None,
        bytes: None,
    };
    Ok(Job {
        session: flight.session,
        processor: flight.choice.processor,
        connection,
        numbers: Numbers::from_slice(alloc, numbers)?,
        files,
        contents,
        given,
    })
}

/// Whether the processor at a place asks the outbox: by the machine's rules the answer is for a PutFile alone.
pub(crate) fn asks_outbox(flow: &Flow, processor: u16) -> bool
    ensures { result ≡ asks_at flow.now processor }
{
    match flow.processors.as_slice().get(usize::from(processor)) {
        Some(processor) => matches!(&processor.kind, Kind::PutFile { .. }),
        None => false,
    }
}

/// Whether the outbox has what the first file is named. It is called only for a processor that asks.
pub(crate) fn is_there<O: Outbox>(
    alloc: Global,
    outbox: &mut O,
    asks: bool,
    files: &[FlowFile],
) -> Result<bool, EngineError>
    ensures there { IfOk result (λ there. IsTrue O.tells → there ≡ asks && option_map_or (λ file.
        option_map_or (λ name. is_some (O.standing outbox.old name)) (name_in file.attributes) false)
        (slice_get files.now 0) false) }
    ensures unasked { IfOk result (λ there. asks ≡ false → there ≡ false) }
    ensures uncalled { asks ≡ false → IsUncalled result outbox.old outbox.new }
    ensures outbox { AsksOutbox result O.standing O.puts O.faults outbox.old outbox.new }
    ensures kinds { IfErr result (λ error. (error ≡ EngineError.Outbox) ⊎ (error ≡ EngineError.Memory)) }
{
    if !asks {
        return Ok(false);
    }
    match files.first() {
        Some(file) => has_file(alloc, outbox, &file.attributes),
        None => Ok(false),
    }
}

// Whether the outbox has what a file is named.
fn has_file<O: Outbox>(
    alloc: Global,
    outbox: &mut O,
    attributes: &Attributes,
) -> Result<bool, EngineError>
    ensures there { IfOk result (λ there. IsTrue O.tells
        → there ≡ option_map_or (λ name. is_some (O.standing outbox.old name)) (name_in attributes.now) false) }
    ensures outbox { AsksOutbox result O.standing O.puts O.faults outbox.old outbox.new }
    ensures kinds { IfErr result (λ error. (error ≡ EngineError.Outbox) ⊎ (error ≡ EngineError.Memory)) }
{
    let Some(name) = attributes.get("filename") else {
        return Ok(false);
    };
    let name = match Name::read(alloc, name) {
        Ok(name) => name,
        Err(NameError::BadName) => return Ok(false),
        Err(NameError::Memory) => return Err(EngineError::Memory),
    };
    let Ok(there) = outbox.holds(&name) else {
        return Err(EngineError::Outbox);
    };
    Ok(there)
}
