//! What comes next, and a session that is checked out.
ghost use Rattle.std.specs.Prelude.{◌≡◌, ◌⊎◌, ◌↔◌, ℕ, ◌-◌, ◌^◌, ◌<◌, ◌++◌, None, Some, true, false, List, map, length, IfOk, OnOk, IfErr, IsErrOf};
ghost use Rattle.flowfile_record.specs.Stored.{Kept};
ghost use Rattle.machine_model.specs.declared.flow.Flow.{Flow as TheFlow};
ghost use Rattle.engine_choice.specs.Laws.{numbers_in};
ghost use Rattle.engine_queues.specs.Queues.{AreQueuesOf};
ghost use Rattle.engine_queues.specs.Settling.{without_flights};
ghost use Rattle.run_law.specs.Ending.{journal_full};
ghost use Rattle.engine_steps.specs.Checkout.{ChecksOut, HasCheckedOut, MayTakeFiles, TakesPlace, checkout_in, choice_in, ending_in, checkout_of_ending, session_in, wait_or};
ghost use Rattle.engine_steps.specs.Flights.{busy_by};
ghost use Rattle.engine_steps.specs.Ready.{IsReadyInMemory, due_in};
ghost use Rattle.engine_steps.specs.declared.error.EngineError.TheVariants.{Memory, MustReopen};
ghost use Rattle.engine_steps.specs.declared.checkout.Checkout.TheVariants.{Session as TheSession};

use crate::EngineError;
use crate::engine::Engine;
use crate::flight::InFlight;
use crate::tending::wants_checkpoint;
use engine_choice::{Choice, Ending, Taking, choose, ending};
use engine_queues::{Listing, Queues, names_go_back};
use engine_session::chosen_files_are_taken;
use machine_model::RECLAIM_ENTRIES;
use std::alloc::{AllocError, Global};
use store_core::{Limit, Which};

/// What comes next.
#[derive(Clone, Copy, Debug, PartialEq, Eq)]
pub enum Checkout {
    /// Something that is to be tended before any session.
    Due,
    /// The session of this number, which is in flight from now on.
    Session(u64),
    /// No session at this moment, while so many are in flight. One may come once one of them is committed or has ended,
    /// or at a later moment: a penalty may end, or files may expire.
    Wait { in_flight: u64 },
    /// A session, for whose entry the journal has no room.
    Limit(Limit),
    /// No session before this moment, at which the next penalty of a file ends.
    Rest { until: u64 },
    /// No session: the full connection at this place, the first of them, holds back what wants to work.
    Blocked(u16),
    /// No session: nothing wants to work.
    Quiet,
}

impl Engine<'_> {
    /// What comes next at a moment: what is due, the session of the first processor in turn that is ready, or why none
    /// comes. A session is in flight from then on: no other one takes its files or its name, nor do these files expire.
    pub fn checkout(&mut self, alloc: Global, moment: u64) -> Result<Checkout, EngineError>
        requires ready { self.old.failed ≡ false → IsReadyInMemory self.old }
        ensures next { IfOk result (λ next. next ≡ checkout_in self.old moment) }
        ensures leaves { ChecksOut result moment self.old self.new }
        ensures ready { self.new.failed ≡ false → IsReadyInMemory self.new }
        ensures reopen { IsErrOf result MustReopen ↔ (self.old.failed ≡ true) }
        ensures kinds { IfErr result (λ error. (error ≡ MustReopen) ⊎ (error ≡ Memory)) }
    {
        if self.has_failed {
            return Err(EngineError::MustReopen);
        }
        Ok(self.next(alloc, moment)?)
    }

    // What comes next; a session is checked out.
    fn next(&mut self, alloc: Global, moment: u64) -> Result<Checkout, AllocError>
        requires ready { IsReadyInMemory self.old }
        ensures next { IfOk result (λ next. next ≡ checkout_in self.old moment) }
        ensures out { OnOk result ((session : ℕ) → result ≡ Ok (TheSession session)
            → HasCheckedOut moment session self.old self.new) }
        ensures rest { ((session : ℕ) → result ≡ Ok (TheSession session) → ⊥) → self.new ≡ self.old }
        ensures ready { IsReadyInMemory self.new }
    {
        if self.is_due(alloc, moment)? {
            return Ok(Checkout::Due);
        }
        let busy = self.busy(alloc)?;
        let Some(choice) = self.choice(alloc, &busy, moment)? else {
            let ending = self.ending(alloc, &busy, moment)?;
            return Ok(self.wait_or(Checkout::from(ending)));
        };
        let in_flight = self.out.len() as u64;
        if in_flight >= self.most || self.entries() >= self.most - in_flight {
            return Ok(self.wait_or(Checkout::Limit(self.journal_limit())));
        }
        Ok(Checkout::Session(self.begin(moment, choice)?))
    }

    // The session of a choice is in flight from now on. All memory is taken before.
    fn begin(&mut self, moment: u64, choice: Choice) -> Result<u64, AllocError>
        requires ready { IsReadyInMemory self.old }
        requires chosen { session_in self.old moment ≡ Some choice }
        ensures begun { IfOk result (λ session. (session ≡ self.old.next_session)
            × HasCheckedOut moment session self.old self.new) }
        ensures none { IfErr result (λ error. self.new ≡ self.old) }
        ensures ready { IsReadyInMemory self.new }
    {
        names_go_back();
        chosen_files_are_taken();
        let _stored = self.store.state();
        let session = self.next_session;
        if session == u64::MAX {
            return Err(AllocError);
        }
        self.out.reserve(1)?;
        let place = take(&mut self.queues, &mut self.listing, &choice);
        self.out.push_reserved(InFlight {
            session,
            moment,
            choice,
            place,
        });
        self.next_session = session + 1;
        self.tended = None;
        Ok(session)
    }

    // So many sessions in flight are waited for; with none, this comes.
    fn wait_or(&self, next: Checkout) -> Checkout
        ensures { result ≡ wait_or (length self.now.out) next }
    {
        let in_flight = self.out.len() as u64;
        if in_flight > 0 {
            Checkout::Wait { in_flight }
        } else {
            next
        }
    }

    // Whether anything is due. Where the engine knows that nothing is, the queues aren't searched.
    fn is_due(&self, alloc: Global, moment: u64) -> Result<bool, AllocError>
        requires { IsReadyInMemory self.now }
        ensures { IfOk result (λ due. (due ≡ false) ↔ (due_in self.now moment ≡ None)) }
    {
        if self.tended == Some(moment) {
            return Ok(false);
        }
        Ok(
            self.queues.due_expiry(alloc, moment)?.is_some()
                || wants_checkpoint(&self.store, self.checkpoint)
                || self.since_reclaim >= RECLAIM_ENTRIES,
        )
    }

    // The session of the first processor in turn that is ready.
    fn choice(&self, alloc: Global, busy: &[u16], moment: u64) -> Result<Option<Choice>, AllocError>
        requires ready { IsReadyInMemory self.now }
        requires busy { busy.now ≡ busy_by self.now.flow self.now.out }
        ensures { IfOk result (λ choice. choice ≡ choice_in self.now moment) }
    {
        let counts = self.store.state().counts.as_slice();
        choose(
            alloc,
            self.flow,
            &self.queues,
            counts,
            busy,
            &self.listing,
            self.last,
            moment,
        )
    }

    // How it ends where no session comes.
    fn ending(&self, alloc: Global, busy: &[u16], moment: u64) -> Result<Ending, AllocError>
        requires ready { IsReadyInMemory self.now }
        requires busy { busy.now ≡ busy_by self.now.flow self.now.out }
        ensures { IfOk result (λ ending. ending ≡ ending_in self.now moment) }
    {
        let counts = self.store.state().counts.as_slice();
        ending(
            alloc,
            self.flow,
            &self.queues,
            counts,
            busy,
            &self.listing,
            moment,
        )
    }

    /// That the journal has as many entries as it may have, and one more is wanted.
    pub(crate) fn journal_limit(&self) -> Limit
        requires { self.now.most < 2 ^ 64 - 1 }
        ensures { result ≡ journal_full self.now.most }
    {
        Limit {
            which: Which::Journal,
            number: self.most,
            wanted: self.most + 1,
        }
    }
}

// Takes the files of a choice, or the name of the file that it receives, and answers the name's place.
fn take(queues: &mut Queues, listing: &mut Listing, choice: &Choice) -> Option<usize>
    requires files { (flow : TheFlow) × (k : Kept) × (out : List ℕ)
        × MayTakeFiles flow k out choice.now.taking queues.old }
    requires processor { choice.now.processor < length listing.old.flow.processors }
    ensures same { map without_flights queues.new ≡ map without_flights queues.old }
    ensures out { (flow : TheFlow) (k : Kept) (out : List ℕ) → MayTakeFiles flow k out choice.now.taking queues.old
        → AreQueuesOf flow k (numbers_in choice.now.taking ++ out) queues.new }
    ensures place { TakesPlace listing.old choice.now.processor choice.now.taking result listing.new }
{
    match &choice.taking {
        Taking::Files {
            connection,
            numbers,
        } => {
            queues.check_out(*connection, numbers.as_slice());
            None
        }
        Taking::Generate { .. } => None,
        Taking::Receive { .. } => listing.take_first(choice.processor),
    }
}

impl From<Ending> for Checkout {
    ghost from_gives = { λ ending next. next ≡ checkout_of_ending ending };

    fn from(ending: Ending) -> Checkout {
        match ending {
            Ending::Rest { until } => Checkout::Rest { until },
            Ending::Blocked(connection) => Checkout::Blocked(connection),
            Ending::Quiet => Checkout::Quiet,
        }
    }
}
