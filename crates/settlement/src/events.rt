//! The events that tell of a session.
ghost use Rattle.std.specs.Prelude.{◌≡◌, ◌+◌, ◌<◌, ◌^◌, ◌∷◌, [], map, length, slice_get, IfOk, OnOk, Some, unwrap_or};
ghost use Rattle.machine_model.specs.Events.{ascending, is_removed};
ghost use Rattle.settlement.specs.Telling.{AddsDrafts, TellerIsReady, told_by, draft_of, draft_alone, create_drafts, receive_drafts, fork_drafts, join_drafts, clone_draft, modify_drafts, attributes_drafts, if_other, route_drafts, drop_drafts, row_at, row_drafts, send_drafts, ended_number, clone_events, made_rows, changed_rows, all_drafts};
ghost use Rattle.settlement.specs.Placing.{wanted, further};

use crate::file::{EndedFile, Goes};
use crate::goes::relationship_at;
use crate::rows::Row;
use flowfile_record::{End, Event, EventKind, FlowFile, Numbers, Origin, Sent, Text};
use machine_model::{Given, Processor};
use std::alloc::{AllocError, Global};

/// Who tells of a session: with what it was given, its processor, the files that it took and those with which it ended,
/// of each of these the numbers of its children and of its copies, and the number of its first event.
#[derive(Clone, Copy)]
pub struct Teller<'s> {
    pub alloc: Global,
    pub given: &'s Given,
    pub processor: &'s Processor,
    pub taken: &'s [FlowFile],
    pub files: &'s [EndedFile],
    pub forked: &'s [Numbers],
    pub cloned: &'s [Numbers],
    pub first: u64,
}

impl Teller<'_> {
    /// All events, of which the clones by connections have numbers from this one on.
    pub fn tell_all(&self, sent: &Option<Sent>, first_clone: u64) -> Result<Vec<Event>, AllocError>
        requires ready { TellerIsReady self.now }
        requires clones { first_clone + length (wanted self.now.files.now) < 2 ^ 64 }
        ensures { IfOk result
            (λ events. AddsDrafts self.now.first [] (all_drafts (told_by self.now) sent.now first_clone)
            events.items) }
    {
        let mut events = Vec::new(self.alloc);
        self.tell_made(&mut events)?;
        self.tell_changed(&mut events)?;
        self.tell_sent(&mut events, sent)?;
        self.tell_clones(&mut events, first_clone)?;
        self.tell_row(&mut events, Row::Dropped)?;
        Ok(events)
    }

    /// Which files were made, and from which.
    fn tell_made(&self, events: &mut Vec<Event>) -> Result<(), AllocError>
        requires { TellerIsReady self.now }
        ensures { OnOk result
            (AddsDrafts self.now.first events.old.items (made_rows (told_by self.now)) events.new.items) }
    {
        self.tell_row(events, Row::Created)?;
        self.tell_row(events, Row::Received)?;
        self.tell_row(events, Row::Forked)?;
        self.tell_row(events, Row::Joined)?;
        self.tell_row(events, Row::Cloned)?;
        Ok(())
    }

    /// What changed of the taken files, and which files were routed.
    fn tell_changed(&self, events: &mut Vec<Event>) -> Result<(), AllocError>
        requires { TellerIsReady self.now }
        ensures { OnOk result (AddsDrafts self.now.first events.old.items
            (changed_rows (told_by self.now)) events.new.items) }
    {
        self.tell_row(events, Row::ContentModified)?;
        self.tell_row(events, Row::AttributesModified)?;
        self.tell_row(events, Row::Routed)?;
        Ok(())
    }

    fn tell_row(&self, events: &mut Vec<Event>, row: Row) -> Result<(), AllocError>
        requires { TellerIsReady self.now }
        ensures { OnOk result
            (AddsDrafts self.now.first events.old.items (row_drafts (told_by self.now) row) events.new.items) }
    {
        for (place, file) in self.files.iter().enumerate() {
            self.tell_at(events, row, place, file)?;
        }
        Ok(())
    }

    /// What a row tells of the file at a place.
    fn tell_at(
        &self,
        events: &mut Vec<Event>,
        row: Row,
        place: usize,
        file: &EndedFile,
    ) -> Result<(), AllocError>
        requires ready { TellerIsReady self.now }
        requires there { place < length self.now.files.now }
        ensures { OnOk result
            (AddsDrafts self.now.first events.old.items (row_at (told_by self.now) row (place, file.now))
            events.new.items) }
    {
        match row {
            Row::Created => self.tell_created(events, file),
            Row::Received => self.tell_received(events, file),
            Row::Forked => self.tell_forked(events, file, self.forked[place].as_slice()),
            Row::Joined => self.tell_joined(events, file),
            Row::Cloned => self.tell_cloned(events, file, self.cloned[place].as_slice()),
            Row::ContentModified => self.tell_modified(events, file),
            Row::AttributesModified => self.tell_attributes(events, file),
            Row::Routed => self.tell_routed(events, file),
            Row::Dropped => self.tell_dropped(events, file),
        }
    }

    fn tell_created(&self, events: &mut Vec<Event>, file: &EndedFile) -> Result<(), AllocError>
        requires { TellerIsReady self.now }
        ensures { OnOk result (AddsDrafts self.now.first events.old.items
            (create_drafts (told_by self.now) file.now file.now.worked.origin) events.new.items) }
    {
        match file.worked.origin {
            Origin::Created => self.tell_alone(events, EventKind::Create, file, ""),
            _ => Ok(()),
        }
    }

    fn tell_received(&self, events: &mut Vec<Event>, file: &EndedFile) -> Result<(), AllocError>
        requires { TellerIsReady self.now }
        ensures { OnOk result (AddsDrafts self.now.first events.old.items
            (receive_drafts (told_by self.now) file.now file.now.worked.origin) events.new.items) }
    {
        match file.worked.origin {
            Origin::Received => {
                self.tell_alone(events, EventKind::Receive, file, name_of(self.given))
            }
            _ => Ok(()),
        }
    }

    fn tell_forked(
        &self,
        events: &mut Vec<Event>,
        parent: &EndedFile,
        children: &[u64],
    ) -> Result<(), AllocError>
        requires { TellerIsReady self.now }
        ensures { OnOk result
            (AddsDrafts self.now.first events.old.items (fork_drafts (told_by self.now) parent.now children.now)
            events.new.items) }
    {
        if children.is_empty() {
            return Ok(());
        }
        let parents = only(self.alloc, parent.number)?;
        let children = Numbers::from_slice(self.alloc, children)?;
        self.tell(events, EventKind::Fork, parent, parents, children, "")
    }

    fn tell_joined(&self, events: &mut Vec<Event>, file: &EndedFile) -> Result<(), AllocError>
        requires { TellerIsReady self.now }
        ensures { OnOk result (AddsDrafts self.now.first events.old.items
            (join_drafts (told_by self.now) file.now file.now.worked.origin) events.new.items) }
    {
        let Origin::Joined(parents) = &file.worked.origin else {
            return Ok(());
        };
        let parents = self.numbers_at(parents.as_slice())?;
        let parents = ascending(parents)?;
        let children = only(self.alloc, file.number)?;
        self.tell(events, EventKind::Join, file, parents, children, "")
    }

    /// The numbers of the files at some places.
    fn numbers_at(&self, places: &[u64]) -> Result<Vec<u64>, AllocError>
        ensures { IfOk result (λ numbers. numbers.items ≡ map (ended_number self.now.files.now) places.now) }
    {
        let files = self.files;
        places
            .iter()
            .map(|place| number_at(files, *place))
            .collect(self.alloc)
    }

    fn tell_cloned(
        &self,
        events: &mut Vec<Event>,
        original: &EndedFile,
        copies: &[u64],
    ) -> Result<(), AllocError>
        requires { TellerIsReady self.now }
        ensures { OnOk result (AddsDrafts self.now.first events.old.items
            (map (clone_draft (told_by self.now) original.now) copies.now) events.new.items) }
    {
        for copy in copies {
            self.tell_clone(events, original, *copy)?;
        }
        Ok(())
    }

    fn tell_clone(
        &self,
        events: &mut Vec<Event>,
        original: &EndedFile,
        clone: u64,
    ) -> Result<(), AllocError>
        requires { TellerIsReady self.now }
        ensures { OnOk result (AddsDrafts self.now.first events.old.items
            (clone_draft (told_by self.now) original.now clone ∷ []) events.new.items) }
    {
        let parents = only(self.alloc, original.number)?;
        let children = only(self.alloc, clone)?;
        self.tell(events, EventKind::Clone, original, parents, children, "")
    }

    fn tell_modified(&self, events: &mut Vec<Event>, file: &EndedFile) -> Result<(), AllocError>
        requires { TellerIsReady self.now }
        ensures { OnOk result (AddsDrafts self.now.first events.old.items
            (modify_drafts (told_by self.now) file.now file.now.worked.origin) events.new.items) }
    {
        match file.worked.origin {
            Origin::Taken(_) if !is_removed(file.worked.end) && file.worked.written => {
                self.tell_alone(events, EventKind::ContentModified, file, "")
            }
            _ => Ok(()),
        }
    }

    fn tell_attributes(&self, events: &mut Vec<Event>, file: &EndedFile) -> Result<(), AllocError>
        requires { TellerIsReady self.now }
        ensures { OnOk result (AddsDrafts self.now.first events.old.items
            (attributes_drafts (told_by self.now) file.now file.now.worked.origin) events.new.items) }
    {
        match file.worked.origin {
            Origin::Taken(of) if !is_removed(file.worked.end) && !file.worked.written => {
                self.tell_other_attributes(events, file, of)
            }
            _ => Ok(()),
        }
    }

    /// Tells of a file that was taken with other attributes.
    fn tell_other_attributes(
        &self,
        events: &mut Vec<Event>,
        file: &EndedFile,
        of: u32,
    ) -> Result<(), AllocError>
        requires { TellerIsReady self.now }
        ensures { OnOk result (AddsDrafts self.now.first events.old.items
            (if_other (told_by self.now) file.now (slice_get self.now.taken.now of)) events.new.items) }
    {
        match self.taken.get(of as usize) {
            Some(taken) if !taken.attributes.equals(&file.worked.attributes) => {
                self.tell_alone(events, EventKind::AttributesModified, file, "")
            }
            _ => Ok(()),
        }
    }

    fn tell_routed(&self, events: &mut Vec<Event>, file: &EndedFile) -> Result<(), AllocError>
        requires { TellerIsReady self.now }
        ensures { OnOk result (AddsDrafts self.now.first events.old.items
            (route_drafts (told_by self.now) file.now file.now.worked.routed) events.new.items) }
    {
        match file.worked.routed {
            Some(place) => {
                let relationship = relationship_at(self.processor, place);
                self.tell_alone(events, EventKind::Route, file, relationship)
            }
            None => Ok(()),
        }
    }

    fn tell_sent(&self, events: &mut Vec<Event>, put: &Option<Sent>) -> Result<(), AllocError>
        requires { TellerIsReady self.now }
        ensures { OnOk result (AddsDrafts self.now.first events.old.items
            (send_drafts (told_by self.now) put.now) events.new.items) }
    {
        match put {
            Some(put) => self.tell_put(events, put),
            None => Ok(()),
        }
    }

    fn tell_put(&self, events: &mut Vec<Event>, put: &Sent) -> Result<(), AllocError>
        requires { TellerIsReady self.now }
        ensures { OnOk result
            (AddsDrafts self.now.first events.old.items (send_drafts (told_by self.now) (Some put.now))
            events.new.items) }
    {
        match self.files.get(put.place as usize) {
            Some(file) => self.tell_alone(events, EventKind::Send, file, put.name.text()),
            None => Ok(()),
        }
    }

    fn tell_dropped(&self, events: &mut Vec<Event>, file: &EndedFile) -> Result<(), AllocError>
        requires { TellerIsReady self.now }
        ensures { OnOk result
            (AddsDrafts self.now.first events.old.items (drop_drafts (told_by self.now) file.now file.now.goes)
            events.new.items) }
    {
        match &file.goes {
            Goes::Drops(relationship) => {
                self.tell_alone(events, EventKind::Drop, file, relationship.as_str())
            }
            Goes::Leaves => self.tell_alone(events, EventKind::Drop, file, ""),
            _ => Ok(()),
        }
    }

    /// The clones that files get for their further connections, with numbers from this one on.
    fn tell_clones(&self, events: &mut Vec<Event>, first: u64) -> Result<(), AllocError>
        requires ready { TellerIsReady self.now }
        requires clones { first + length (wanted self.now.files.now) < 2 ^ 64 }
        ensures { OnOk result (AddsDrafts self.now.first events.old.items
            (clone_events (told_by self.now) first (wanted self.now.files.now)) events.new.items) }
    {
        let mut next = first;
        for file in self.files {
            next = self.tell_clones_of(events, file, next)?;
        }
        Ok(())
    }

    /// The same of one file, with the number of the next clone.
    fn tell_clones_of(
        &self,
        events: &mut Vec<Event>,
        file: &EndedFile,
        first: u64,
    ) -> Result<u64, AllocError>
        requires ready { TellerIsReady self.now }
        requires clones { first + length (further file.now.goes) < 2 ^ 64 }
        ensures next { IfOk result (λ next. next ≡ first + length (further file.now.goes)) }
        ensures adds { OnOk result (AddsDrafts self.now.first events.old.items
            (clone_events (told_by self.now) first (wanted (file.now ∷ []))) events.new.items) }
    {
        let mut next = first;
        for _connection in file.goes.further() {
            self.tell_clone(events, file, next)?;
            next += 1;
        }
        Ok(next)
    }

    fn tell_alone(
        &self,
        events: &mut Vec<Event>,
        kind: EventKind,
        file: &EndedFile,
        detail: &str,
    ) -> Result<(), AllocError>
        requires { TellerIsReady self.now }
        ensures { OnOk result (AddsDrafts self.now.first events.old.items
            (draft_alone (told_by self.now) kind file.now detail.now ∷ [])
            events.new.items) }
    {
        let none = Numbers::new(self.alloc);
        self.tell(events, kind, file, none, Numbers::new(self.alloc), detail)
    }

    /// One more event. Its number fits: those of events stay far below the limit of 64 bits.
    fn tell(
        &self,
        events: &mut Vec<Event>,
        kind: EventKind,
        file: &EndedFile,
        parents: Numbers,
        children: Numbers,
        detail: &str,
    ) -> Result<(), AllocError>
        requires { TellerIsReady self.now }
        ensures { OnOk result (AddsDrafts self.now.first events.old.items
            (draft_of (told_by self.now) kind file.now parents children detail.now ∷ []) events.new.items) }
    {
        let component = self.processor.id.clone()?;
        let detail = Text::from_str(self.alloc, detail)?;
        let number = self.first.wrapping_add(events.len() as u64);
        events.push(Event {
            number,
            kind,
            moment: self.given.moment,
            component,
            file: file.number,
            parents,
            children,
            detail,
            size: file.content.size,
            digest: file.content.digest,
        })?;
        Ok(())
    }
}

/// The name of the file that a session received.
fn name_of(given: &Given) -> &str
    ensures { result.now ≡ unwrap_or given.now.file [] }
{
    match &given.file {
        Some(name) => name.text(),
        None => "",
    }
}

fn is_removed(end: End) -> bool
    ensures { result ≡ is_removed end }
{
    matches!(end, End::Removed)
}

fn number_at(files: &[EndedFile], place: u64) -> u64
    ensures { result ≡ ended_number files.now place }
{
    match files.get(place as usize) {
        Some(file) => file.number,
        None => 0,
    }
}

fn only(alloc: Global, number: u64) -> Result<Numbers, AllocError>
    ensures { IfOk result (λ numbers. numbers ≡ number ∷ []) }
{
    Numbers::from_slice(alloc, &[number])
}

fn ascending(numbers: Vec<u64>) -> Result<Numbers, AllocError>
    ensures { IfOk result (λ sorted. sorted ≡ ascending numbers.items) }
{
    let mut sorted = numbers;
    sorted.sort()?;
    Ok(Numbers::from(sorted))
}
