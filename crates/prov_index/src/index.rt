//! The added events, found by their number and by the files that they name.
ghost use Rattle.std.specs.Prelude.{◌≡◌, ◌<◌, ◌++◌, ◌∷◌, ◌+◌, [], All, OnOk, OnErr};
ghost use Rattle.std.specs.Option.{option_copied};
ghost use Rattle.flowfile_record.specs.NumberedItems.{AscendsByNumber};
ghost use Rattle.prov_index.specs.Index.{event_number, numbers_naming, event_of};

use crate::Steps;
use crate::lists::{Lists, note_event, reserve_event};
use flowfile_record::Event;
use std::alloc::{AllocError, Global};
use std::collections::BTreeMap;
use std::marker::Model;
use std::sync::ledger::Ledger;

/// Events in the order of their numbers, seen as the list of those that were added.
#[derive(Drop)]
pub struct Index {
    alloc: Global,
    events: Vec<Event>,
    // The numbers of the events that name a file, by the number of the file.
    lists: Lists,
}

impl Model for Index {
    ghost use Rattle.std.specs.Prelude.{List};
    ghost use Rattle.flowfile_record.specs.declared.event.Event.{Event};

    ghost Value = { List Event };

    ghost use Rattle.prov_index.specs.Index.{event_number};
    ghost use Rattle.prov_index.specs.Lists.{AreListsOf};
    ghost use Rattle.flowfile_record.specs.NumberedItems.{AscendsByNumber};

    ghost view = { λ index. index.events.items };

    ghost invariant = { λ index. AscendsByNumber event_number index.events.items
        × AreListsOf index.lists index.events.items };
}

impl Index {
    /// No events.
    pub fn new(alloc: Global) -> Index
        ensures { result ≡ [] }
    {
        Index {
            alloc,
            events: Vec::new(alloc),
            lists: BTreeMap::new(alloc),
        }
    }

    /// Adds an event of a number above those of all before it. Where there is no memory for it, nothing changes.
    pub fn add(&mut self, event: Event) -> Result<(), AllocError>
        requires { All (λ earlier. earlier.number < event.number) self.old }
        ensures ok { OnOk result (self.new ≡ self.old ++ event ∷ []) }
        ensures err { OnErr result (self.new ≡ self.old) }
    {
        self.events.reserve(1)?;
        reserve_event(self.alloc, &mut self.lists, &event)?;
        note_event(&mut self.lists, &event);
        self.events.push_reserved(event);
        Ok(())
    }

    /// The numbers of the events that name a file, in their order.
    pub fn of(&self, number: u64) -> &[u64]
        ensures numbers { result.now ≡ numbers_naming self.now number }
        ensures ascends { AscendsByNumber event_number self.now }
    {
        match self.lists.get(&number) {
            Some(list) => list.as_slice(),
            None => &[],
        }
    }

    /// The event of a number, for one step.
    pub fn event<L: Ledger>(&self, number: u64, steps: &mut Steps<L>) -> Option<&Event>
        ensures event { option_copied result ≡ event_of self.now number }
        ensures steps { steps.new ≡ steps.old + 1 }
    {
        steps.tick();
        find(&self.events, number)
    }
}

fn find(events: &[Event], number: u64) -> Option<&Event>
    requires { AscendsByNumber event_number events.now }
    ensures { option_copied result ≡ event_of events.now number }
{
    match events.binary_search_by_key(&number, |event| event.number) {
        Ok(place) => Some(&events[place]),
        Err(_) => None,
    }
}
