//! The sessions in flight: checked out, and neither committed nor ended.
ghost use Rattle.std.specs.Prelude.{◌≡◌, ◌^◌, ◌<◌, ℕ, true, false, find, not, length, map, List, Some, option_map, slice_get, IfOk};
ghost use Rattle.flowfile_record.specs.Stored.{Kept};
ghost use Rattle.machine_model.specs.declared.flow.Flow.{Flow};
ghost use Rattle.engine_queues.specs.Beside.{out_without};
ghost use Rattle.engine_queues.specs.Queues.{AreQueuesOf};
ghost use Rattle.engine_queues.specs.Settling.{without_flights};
ghost use Rattle.engine_choice.specs.Laws.{numbers_in};
ghost use Rattle.engine_steps.specs.Ending.{EndsSession, SessionHasEnded, MayGiveFilesBack};
ghost use Rattle.engine_steps.specs.Flights.{busy_by, has_session, is_in_flight, sessions_of, with_name, without_session};
ghost use Rattle.engine_steps.specs.Ready.{IsReadyInMemory};

use crate::engine::Engine;
use engine_choice::{Choice, Taking};
use engine_queues::{Listing, Queues, names_go_back};
use std::alloc::{AllocError, Global};

/// A session in flight: its number, the moment at which it was checked out, what it takes, and where it receives a file
/// of the inbox, the place of that one's name among those that were listed.
#[derive(Debug, Drop)]
pub struct InFlight {
    pub session: u64,
    pub moment: u64,
    pub choice: Choice,
    pub place: Option<usize>,
}

impl Engine<'_> {
    /// How many sessions are in flight: checked out, and neither committed nor ended.
    pub fn in_flight(&self) -> u64
        ensures { result ≡ length self.now.out }
    {
        self.out.len() as u64
    }

    /// Ends a session that isn't to be committed, and answers whether it was in flight: its files and its name may be
    /// taken again. It takes no memory. Where the store must be opened anew, nothing is given back.
    pub fn end(&mut self, session: u64) -> bool
        requires ready { self.old.failed ≡ false → IsReadyInMemory self.old }
        ensures was { result ≡ is_in_flight session self.old.out }
        ensures ended { EndsSession session self.old self.new }
        ensures ready { self.new.failed ≡ false → IsReadyInMemory self.new }
    {
        if self.flight(session).is_none() {
            return false;
        }
        if self.has_failed {
            drop_session(&mut self.out, session);
        } else {
            self.give_back(session);
        }
        true
    }

    // The session of this number, where it is in flight.
    pub(crate) fn flight(&self, session: u64) -> Option<&InFlight>
        ensures { option_map (λ flight. flight.now) result ≡ find (has_session session) self.now.out }
    {
        flight_in(&self.out, session)
    }

    // Gives back what a session in flight took.
    pub(crate) fn give_back(&mut self, session: u64)
        requires ready { IsReadyInMemory self.old }
        requires flying { is_in_flight session self.old.out ≡ true }
        ensures ended { SessionHasEnded session self.old self.new }
        ensures ready { IsReadyInMemory self.new }
    {
        names_go_back();
        let _stored = self.store.state();
        let Some(flight) = flight_in(&self.out, session) else {
            unreachable!()
        };
        give_files_back(&mut self.queues, &flight.choice.taking);
        give_name_back(&mut self.listing, flight.place);
        drop_session(&mut self.out, session);
        self.tended = None;
    }

    // How many sessions of each processor are in flight, where there are any.
    pub(crate) fn busy(&self, alloc: Global) -> Result<Vec<u16>, AllocError>
        requires { IsReadyInMemory self.now }
        ensures { IfOk result (λ busy. busy.items ≡ busy_by self.now.flow self.now.out) }
    {
        let mut busy = Vec::new(alloc);
        if self.out.is_empty() {
            return Ok(busy);
        }
        for place in 0..self.flow.processors.len() as u16 {
            busy.push(sessions_of(&self.out, place))?;
        }
        Ok(busy)
    }
}

/// The session of this number, where it is in flight.
pub(crate) fn flight_in(out: &[InFlight], session: u64) -> Option<&InFlight>
    ensures { option_map (λ flight. flight.now) result ≡ find (has_session session) out.now }
{
    out.iter().find(|flight| flight.session == session)
}

/// Keeps the other sessions.
pub(crate) fn drop_session(out: &mut Vec<InFlight>, session: u64)
    ensures { out.new.items ≡ without_session session out.old.items }
{
    out.retain(
        |flight: &InFlight| -> bool
            ensures { result ≡ not (has_session session flight.now) }
        { flight.session != session },
    );
}

// How many sessions of the processor at a place there are.
fn sessions_of(out: &[InFlight], place: u16) -> u16
    requires few { sessions_of out.now place < 2 ^ 16 }
    ensures { result ≡ sessions_of out.now place }
{
    out.iter()
        .filter(|flight| flight.choice.processor == place)
        .count() as u16
}

// Gives back the files that a session took, if it took any.
fn give_files_back(queues: &mut Queues, taking: &Taking)
    requires { (flow : Flow) × (k : Kept) × (out : List ℕ) × MayGiveFilesBack flow k out taking.now queues.old }
    ensures same { map without_flights queues.new ≡ map without_flights queues.old }
    ensures back { (flow : Flow) (k : Kept) (out : List ℕ) → MayGiveFilesBack flow k out taking.now queues.old
        → AreQueuesOf flow k (out_without (numbers_in taking.now) out) queues.new }
{
    if let Taking::Files {
        connection,
        numbers,
    } = taking
    {
        queues.back(*connection, numbers.as_slice());
    }
}

/// Gives back the name at a place, where a session has one.
pub(crate) fn give_name_back(listing: &mut Listing<'_>, place: Option<usize>)
    requires { (taken : ℕ) → place ≡ Some taken → slice_get listing.old.taken taken ≡ Some true }
    ensures { listing.new ≡ with_name false place listing.old }
{
    if let Some(place) = place {
        listing.give_back(place);
    }
}
