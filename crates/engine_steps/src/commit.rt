//! A session that was worked on becomes part of the run, if its job still stands.
ghost use Rattle.std.specs.Prelude.{◌≡◌, ◌⊎◌, ◌↔◌, ℕ, ◌-◌, ◌^◌, ◌<◌, ◌≤◌, true, false, find, List, None, Some, Ok, IfOk, OnOk, IsErrOf, IsTrue, slice_index};
ghost use Rattle.disk_trait.specs.Faults.{CountsFaults};
ghost use Rattle.disk_trait.specs.Images.{Stays};
ghost use Rattle.disk_trait.specs.declared.damage.Damage.{Damage as TheDamage};
ghost use Rattle.content_repo.specs.Claims.{content_in};
ghost use Rattle.kept_state.specs.Fits.{are_active_in};
ghost use Rattle.kept_state.specs.declared.limit.Limit.{Limit as TheLimit};
ghost use Rattle.machine_model.specs.Changing.{HaveDigests};
ghost use Rattle.machine_model.specs.State.{Machine};
ghost use Rattle.machine_model.specs.declared.flow.Flow.{Flow as TheFlow};
ghost use Rattle.store_core.specs.Change.{HasLiveContents, MayChange};
ghost use Rattle.store_core.specs.Store.{kept_by};
ghost use Rattle.engine_steps.specs.Commit.{CommitsAlone, IndexIsNext, IsEntered, IsInboxBehind, IsInboxLeft, IsJournaled, IsLeftOut, IsOutboxBehind, IsWorkFor, MakesEntry, StandsOtherwise, StandsSo, TakesWhatStands};
ghost use Rattle.engine_steps.specs.Committing.{HasWritten, IsAtWorkWithQueues, IsOutboxLeft};
ghost use Rattle.engine_session.specs.Done.{step_done};
ghost use Rattle.engine_steps.specs.Flights.{IsCheckedOutWithin, has_session, is_in_flight, names_to_come, without_session};
ghost use Rattle.engine_steps.specs.declared.flight.InFlight.{InFlight as TheFlight};
ghost use Rattle.engine_session.specs.Sending.{sending_of};
ghost use Rattle.engine_session.specs.Taken.{IsNextIndex};
ghost use Rattle.engine_steps.specs.Engine.{AreTakeable, IsOfSameRun};
ghost use Rattle.engine_steps.specs.Entering.{EntersRun, EntersSession, FailsToReread, IsReread, MayCommitChange, NotesStep};
ghost use Rattle.engine_steps.specs.Leaving.{LeavesEngine, MayGoOn};
ghost use Rattle.engine_steps.specs.Errors.{CountsEachFault, HasCause, IsReadBy, RefusesToCommit};
ghost use Rattle.engine_steps.specs.Journal.{journaled};
ghost use Rattle.engine_steps.specs.Ready.{EngineIsReady, IsUsableWith};
ghost use Rattle.engine_steps.specs.Running.{CommitsRun, IsRunning, Stops};
ghost use Rattle.engine_steps.specs.Tending.{counted_on};
ghost use Rattle.run_law.specs.Turns.{IsWithinRun};
ghost use Rattle.run_law.specs.Work.{DoesNotTell, WritesLog};
ghost use Rattle.engine_steps.specs.declared.error.EngineError.{EngineError as TheError};
ghost use Rattle.run_law.specs.Puts.{Start, outgoing};

use crate::EngineError;
use crate::engine::Engine;
use crate::flight::{InFlight, drop_session, flight_in};
use crate::journal::note;
use crate::memory::holds_its_state;
use crate::sending::{commit, remove};
use crate::standing::handed_stands;
use disk_trait::Disk;
use engine_choice::Taking;
use engine_queues::{names_go_back, what_is_kept_is_seen};
use engine_session::{
    Changed, Done, is_work_on, session_change, step_done, taken_files_are_live,
    taken_files_are_sessions, taken_files_stay,
};
use machine_model::{Given, Step};
use run_law::{faults_end_a_run, run_goes_on};
use std::alloc::{AllocError, Global};
use store_core::Store;
use world_io::{Inbox, Name, Outbox};

/// What became of a session.
#[derive(Clone, Copy, Debug, PartialEq, Eq)]
pub enum Committed {
    /// It is the journal's entry at this place, from 0 on, and was acknowledged at this moment of the disk.
    Acked { entry: u64, moment: u64 },
    /// Nothing: what its processor worked on isn't what stands now. The session has ended, and what it took may be taken
    /// again.
    Changed,
    /// Nothing: the session isn't in flight. It was committed before, has ended, or was never checked out.
    Dropped,
}

impl Engine<'_> {
    /// Makes a session in flight part of the run. First it looks whether its job still stands: where a generator's index
    /// isn't the next one by now, or the contents or the outbox aren't what was worked on, the session ends, and nothing
    /// else is done. The file that it received is read again only where something differs; else the inbox is asked for
    /// it, and answers with a failure where it changed. Then what the session sends is put into the outbox, its change
    /// is committed, and the file that it received is removed from the inbox. Before the put all its memory is taken.
    /// After a refusal that isn't of a device the session is still in flight.
    pub fn commit<D: Disk, I: Inbox, O: Outbox>(
        &mut self,
        alloc: Global,
        disk: &mut D,
        inbox: &mut I,
        outbox: &mut O,
        done: Done,
    ) -> Result<Committed, EngineError>
        requires usable { IsUsableWith D.tells D.held D.moment D.images I.tells (I.left inbox.old) self.old disk.old }
        requires done { IsWorkFor I.tells self.old (I.left inbox.old) done }
        // Acknowledged, the journal has one entry more, this session, and what it sends was put. Else all is as it was, but
        // at a failure of a device, and where the session has ended.
        ensures entered { MakesEntry result done (D.moment disk.new) I.tells O.tells self.old self.new
            (I.left inbox.old) (I.left inbox.new) (outgoing O.standing O.puts outbox.old)
            (outgoing O.standing O.puts outbox.new) }
        // Only what stands is made part of the run.
        ensures stands { TakesWhatStands result D.tells I.tells O.tells D.held D.moment
            D.images done self.old self.new disk.old disk.new (I.left inbox.old)
            (outgoing O.standing O.puts outbox.old) (outgoing O.standing O.puts outbox.new) }
        // The run goes on, unless a file that was received couldn't be removed, or it is stopped.
        ensures run { IsTrue D.tells → IsTrue I.tells → IsTrue O.tells
            → CommitsRun result D.tells D.held D.moment D.images done self.old self.new disk.old disk.new
            (I.left inbox.old) (I.left inbox.new) (outgoing O.standing O.puts outbox.old)
            (outgoing O.standing O.puts outbox.new) }
        // Whatever inbox and outbox tell.
        ensures usable { IsUsableWith D.tells D.held D.moment D.images I.tells (I.left inbox.new) self.new disk.new }
        ensures alone { CommitsAlone D.moment D.images self.old self.new disk.old disk.new }
        ensures refusal { RefusesToCommit result done.session D.tells D.held D.moment D.images D.faults I.faults
            O.faults self.old self.new disk.old disk.new inbox.old inbox.new outbox.old outbox.new }
    {
        if self.flight(done.session).is_none() {
            return Ok(Committed::Dropped);
        }
        if self.has_failed {
            return Err(EngineError::MustReopen);
        }
        let committed = self.commit_job(alloc, disk, inbox, outbox, done);
        if let Err(EngineError::Disk) = &committed {
            self.has_failed = true;
        }
        committed
    }

    // Commits the work on the job of a session in flight, by a store that works.
    fn commit_job<D: Disk, I: Inbox, O: Outbox>(
        &mut self,
        alloc: Global,
        disk: &mut D,
        inbox: &mut I,
        outbox: &mut O,
        done: Done,
    ) -> Result<Committed, EngineError>
        requires may { MayGoOn D.tells D.held D.moment D.images I.tells (I.left inbox.old) self.old disk.old }
        requires flying { is_in_flight done.session self.old.out ≡ true }
        requires done { IsWorkFor I.tells self.old (I.left inbox.old) done }
        ensures entered { MakesEntry result done (D.moment disk.new) I.tells O.tells self.old self.new
            (I.left inbox.old) (I.left inbox.new) (outgoing O.standing O.puts outbox.old)
            (outgoing O.standing O.puts outbox.new) }
        ensures stands { TakesWhatStands result D.tells I.tells O.tells D.held D.moment
            D.images done self.old self.new disk.old disk.new (I.left inbox.old)
            (outgoing O.standing O.puts outbox.old) (outgoing O.standing O.puts outbox.new) }
        ensures inbox { result ≡ Ok Committed.Changed → I.left inbox.new ≡ I.left inbox.old }
        ensures flying { result ≡ Ok Committed.Dropped → ⊥ }
        ensures run { IsTrue D.tells → IsTrue I.tells → IsTrue O.tells
            → EntersRun result D.tells D.held D.moment D.images (step_done done)
            (λ since until. IsCheckedOutWithin since until done.session self.old.out) self.old self.new disk.old disk.new
            (I.left inbox.old) (I.left inbox.new) (outgoing O.standing O.puts outbox.old)
            (outgoing O.standing O.puts outbox.new) }
        ensures leaves { LeavesEngine result D.tells D.held D.moment D.images I.tells (I.left inbox.new)
            self.old self.new disk.new }
        ensures alone { CommitsAlone D.moment D.images self.old self.new disk.old disk.new }
        ensures cause { CountsEachFault result (D.faults disk.old) (D.faults disk.new)
            (I.faults inbox.old) (I.faults inbox.new) (O.faults outbox.old) (O.faults outbox.new) }
    {
        faults_end_a_run::<D>();
        run_goes_on::<D>();
        if !self.stands(alloc, disk, inbox, outbox, &done)? {
            self.give_back(done.session);
            return Ok(Committed::Changed);
        }
        let entry = self.entries();
        let moment = self.enter(alloc, disk, inbox, outbox, done)?;
        Ok(Committed::Acked { entry, moment })
    }

    // Whether the job of this work still stands: whether a generator's index is the next one, and the session is handed
    // the same. Its job is read again only where that doesn't show without.
    fn stands<D: Disk, I: Inbox, O: Outbox>(
        &mut self,
        alloc: Global,
        disk: &mut D,
        inbox: &mut I,
        outbox: &mut O,
        done: &Done,
    ) -> Result<bool, EngineError>
        requires ready { EngineIsReady D.tells D.held D.moment D.images self.old disk.old }
        requires left { IsTrue I.tells → AreTakeable (I.left inbox.old) (names_to_come self.old) }
        requires flying { is_in_flight done.now.session self.old.out ≡ true }
        requires done { IsWorkFor I.tells self.old (I.left inbox.old) done.now }
        ensures so { result ≡ Ok true
            → StandsSo D.tells I.tells O.tells self.old (content_in (D.held disk.old))
            (I.left inbox.old) (O.standing outbox.old) done.now }
        ensures otherwise { result ≡ Ok false
            → StandsOtherwise D.tells I.tells O.tells self.old (content_in (D.held disk.old))
            (I.left inbox.old) (O.standing outbox.old) done.now }
        ensures reread { IsReread result D.held D.moment D.images self.old self.new disk.old disk.new
            (I.left inbox.old) (I.left inbox.new) (outgoing O.standing O.puts outbox.old)
            (outgoing O.standing O.puts outbox.new) }
        ensures refusal { FailsToReread result D.tells }
        ensures cause { CountsEachFault result (D.faults disk.old) (D.faults disk.new)
            (I.faults inbox.old) (I.faults inbox.new) (O.faults outbox.old) (O.faults outbox.new) }
    {
        let Some(flight) = flight_in(&self.out, done.session) else {
            unreachable!()
        };
        if !index_is_next(&self.store, flight) {
            return Ok(false);
        }
        if self.shows_to_stand(alloc, disk, inbox, outbox, done)? {
            return Ok(true);
        }
        self.stands_read_again(alloc, disk, inbox, outbox, done)
    }

    // Whether the job of this work shows to stand, without being read again.
    fn shows_to_stand<D: Disk, I: Inbox, O: Outbox>(
        &mut self,
        alloc: Global,
        disk: &mut D,
        inbox: &mut I,
        outbox: &mut O,
        done: &Done,
    ) -> Result<bool, EngineError>
        requires ready { EngineIsReady D.tells D.held D.moment D.images self.old disk.old }
        requires left { IsTrue I.tells → AreTakeable (I.left inbox.old) (names_to_come self.old) }
        requires flying { is_in_flight done.now.session self.old.out ≡ true }
        requires done { IsWorkFor I.tells self.old (I.left inbox.old) done.now }
        ensures so { result ≡ Ok true → (flight : TheFlight)
            → find (has_session done.now.session) self.old.out ≡ Some flight → IndexIsNext self.old flight
            → StandsSo D.tells I.tells O.tells self.old (content_in (D.held disk.old))
            (I.left inbox.old) (O.standing outbox.old) done.now }
        ensures reread { IsReread result D.held D.moment D.images self.old self.new disk.old disk.new
            (I.left inbox.old) (I.left inbox.new) (outgoing O.standing O.puts outbox.old)
            (outgoing O.standing O.puts outbox.new) }
        ensures refusal { FailsToReread result D.tells }
        ensures cause { CountsEachFault result (D.faults disk.old) (D.faults disk.new)
            (I.faults inbox.old) (I.faults inbox.new) (O.faults outbox.old) (O.faults outbox.new) }
    {
        holds_its_state(&self.store, disk);
        let Some(flight) = flight_in(&self.out, done.session) else {
            unreachable!()
        };
        handed_stands(
            alloc,
            self.flow,
            &mut self.store,
            disk,
            inbox,
            outbox,
            flight,
            done,
        )
    }

    // Whether the job of this work still stands, by a job that is read again.
    fn stands_read_again<D: Disk, I: Inbox, O: Outbox>(
        &mut self,
        alloc: Global,
        disk: &mut D,
        inbox: &mut I,
        outbox: &mut O,
        done: &Done,
    ) -> Result<bool, EngineError>
        requires ready { EngineIsReady D.tells D.held D.moment D.images self.old disk.old }
        requires left { IsTrue I.tells → AreTakeable (I.left inbox.old) (names_to_come self.old) }
        requires flying { is_in_flight done.now.session self.old.out ≡ true }
        requires done { IsWorkFor I.tells self.old (I.left inbox.old) done.now }
        ensures so { result ≡ Ok true → (flight : TheFlight)
            → find (has_session done.now.session) self.old.out ≡ Some flight → IndexIsNext self.old flight
            → StandsSo D.tells I.tells O.tells self.old (content_in (D.held disk.old))
            (I.left inbox.old) (O.standing outbox.old) done.now }
        ensures otherwise { result ≡ Ok false
            → StandsOtherwise D.tells I.tells O.tells self.old (content_in (D.held disk.old))
            (I.left inbox.old) (O.standing outbox.old) done.now }
        ensures reread { IsReread result D.held D.moment D.images self.old self.new disk.old disk.new
            (I.left inbox.old) (I.left inbox.new) (outgoing O.standing O.puts outbox.old)
            (outgoing O.standing O.puts outbox.new) }
        ensures refusal { FailsToReread result D.tells }
        ensures cause { CountsEachFault result (D.faults disk.old) (D.faults disk.new)
            (I.faults inbox.old) (I.faults inbox.new) (O.faults outbox.old) (O.faults outbox.new) }
    {
        let job = self.read_job(alloc, disk, inbox, outbox, done.session)?;
        Ok(is_work_on(done, &job))
    }

    // Enters a session in flight into the journal whose job stands, and answers the moment of the acknowledgement.
    fn enter<D: Disk, I: Inbox, O: Outbox>(
        &mut self,
        alloc: Global,
        disk: &mut D,
        inbox: &mut I,
        outbox: &mut O,
        done: Done,
    ) -> Result<u64, EngineError>
        requires may { MayGoOn D.tells D.held D.moment D.images I.tells (I.left inbox.old) self.old disk.old }
        requires stands { StandsSo D.tells I.tells O.tells self.old
            (content_in (D.held disk.old)) (I.left inbox.old) (O.standing outbox.old) done }
        ensures entered { EntersSession result done (D.moment disk.new) I.tells O.tells self.old self.new
            (I.left inbox.old) (I.left inbox.new) (outgoing O.standing O.puts outbox.old)
            (outgoing O.standing O.puts outbox.new) }
        ensures run { IsTrue D.tells → IsTrue I.tells → IsTrue O.tells
            → EntersRun result D.tells D.held D.moment D.images (step_done done)
            (λ since until. IsWithinRun since until (step_done done)) self.old self.new disk.old disk.new
            (I.left inbox.old) (I.left inbox.new) (outgoing O.standing O.puts outbox.old)
            (outgoing O.standing O.puts outbox.new) }
        ensures leaves { LeavesEngine result D.tells D.held D.moment D.images I.tells (I.left inbox.new)
            self.old self.new disk.new }
        ensures alone { CommitsAlone D.moment D.images self.old self.new disk.old disk.new }
        ensures undamaged { (damage : TheDamage) → IsErrOf result (EngineError.Damaged damage) → ⊥ }
        ensures cause { CountsEachFault result (D.faults disk.old) (D.faults disk.new)
            (I.faults inbox.old) (I.faults inbox.new) (O.faults outbox.old) (O.faults outbox.new) }
    {
        holds_its_state(&self.store, disk);
        taken_files_are_live();
        taken_files_are_sessions();
        taken_files_stay();
        what_is_kept_is_seen();
        names_go_back();
        run_goes_on::<D>();
        faults_end_a_run::<D>();
        let processor = done.processor;
        let session = done.session;
        let received = received(&done.given)?;
        let step = step_done(alloc, &done)?;
        let changed = session_change(alloc, self.flow, &self.store, done)?;
        if self.entries() >= self.most {
            return Err(EngineError::Limit(self.journal_limit()));
        }
        let moment = self.write(disk, outbox, changed, step)?;
        self.leave_flight(session, processor);
        remove(inbox, &received)?;
        Ok(moment)
    }

    // A session was acknowledged: it is no longer in flight, and its processor got the last session.
    fn leave_flight(&mut self, session: u64, processor: u16)
        ensures { self.new ≡ record self.old {
          out = without_session session self.old.out;
          last = Some processor;
          since_reclaim = counted_on self.old.since_reclaim;
        } }
    {
        drop_session(&mut self.out, session);
        self.last = Some(processor);
        self.since_reclaim = self.since_reclaim.saturating_add(1);
    }

    // Puts what a session sends, commits its change, and notes the step. It answers the moment of the acknowledgement.
    // From a put that failed on the store must be opened anew.
    fn write<D: Disk, O: Outbox>(
        &mut self,
        disk: &mut D,
        outbox: &mut O,
        changed: Changed,
        step: Step,
    ) -> Result<u64, EngineError>
        requires work { (flow : TheFlow) × (out : List ℕ)
            × IsAtWorkWithQueues flow D.tells D.held D.moment D.images self.old.store out self.old.queues disk.old }
        requires change { MayCommitChange D.tells D.held self.old.store changed.connection changed disk.old }
        ensures written { HasWritten result D.tells D.held D.moment D.images O.tells self.old.store self.new.store
            self.old.queues self.new.queues changed (outgoing O.standing O.puts outbox.old)
            (outgoing O.standing O.puts outbox.new) disk.old disk.new }
        ensures noted { NotesStep result step self.old self.new }
        ensures alone { WritesLog D.moment D.images self.old.store.log.number disk.old disk.new }
        ensures disk_cause { CountsFaults (D.faults disk.old) (D.faults disk.new) (IsErrOf result EngineError.Disk) }
        ensures outbox_cause { CountsFaults (O.faults outbox.old) (O.faults outbox.new)
            (IsErrOf result EngineError.Put) }
    {
        self.journal.reserve(1)?;
        self.tended = None;
        let connection = changed.connection;
        let written = commit(
            &mut self.store,
            &mut self.queues,
            disk,
            outbox,
            connection,
            changed,
        );
        note(&mut self.journal, step, &written);
        if let Err(EngineError::Put) = &written {
            self.has_failed = true;
        }
        written
    }
}

// The name of the file that a session received.
fn received(given: &Given) -> Result<Option<Name>, AllocError>
    ensures { IfOk result (λ name. name ≡ given.now.file) }
{
    match &given.file {
        Some(name) => Ok(Some(name.clone()?)),
        None => Ok(None),
    }
}

// Whether the index that a session was given is the one that comes next of its generator; so it is of any other session.
fn index_is_next(store: &Store, flight: &InFlight) -> bool
    ensures { IsTrue result
        ↔ IsNextIndex (kept_by store.now).counts flight.now.choice.processor flight.now.choice.taking }
{
    let Taking::Generate { index } = &flight.choice.taking else {
        return true;
    };
    let counts = store.state().counts.as_slice();
    let made = made_by(counts, flight.choice.processor);
    *index > 0 && *index - 1 == made
}

// How many files the generator at a place has made.
fn made_by(counts: &[u64], place: u16) -> u64
    ensures { result ≡ slice_index counts.now place }
{
    match counts.get(usize::from(place)) {
        Some(made) => *made,
        None => 0,
    }
}
