//! Some events are read back.
ghost use Rattle.std.specs.Prelude.{◌≡◌, ◌+◌, ◌-◌, ◌/◌, ◌<◌, ◌≤◌, ◌^◌, ◌&&◌, ◌++◌, nat_le, max, min, map, All, List, [], filter, IsTrue, IfOk, OnOk, IsErr, IsErrOf, Ok, Err};
ghost use Rattle.disk_trait.specs.Images.{Stays};
ghost use Rattle.disk_trait.specs.Faults.{CountsFaults};
ghost use Rattle.disk_trait.specs.declared.damage.Damage.{Damage as TheDamage};
ghost use Rattle.flowfile_record.specs.declared.event.Event.{Event as TheEvent};
ghost use Rattle.prov_store.specs.Events.{events_from, events_of_file, events_in, first_event};
ghost use Rattle.prov_store.specs.Loading.{bytes_there};
ghost use Rattle.prov_store.specs.Reading.{IsThere};
ghost use Rattle.prov_store.specs.Scanning.{is_within, HasBetween, HasRead, HasSkipped, MayScan, SameScan, StandsInItsFile, numbers_between};

use crate::Events;
use crate::events::file_named;
use crate::read::{Cursor, read_event_at, skip_event_at};
use block_file::BlockError;
use disk_trait::Disk;
use flowfile_record::{EVENTS_PER_FILE, Event};
use std::alloc::Global;

// The events of a store past a line and up to a last one that are found between two numbers.
#[derive(Drop)]
struct Scan {
    line: u64,
    end: u64,
    first: u64,
    last: u64,
    buffer: Vec<u8>,
    found: Vec<Event>,
}

impl Events {
    /// The events past the line numbered from one to another, both included, as far as there are such. Of the files
    /// that have some it reads the headers of the blocks before them, and nothing behind them.
    pub fn scan<D: Disk>(
        &self,
        alloc: Global,
        disk: &mut D,
        from: u64,
        to: u64,
    ) -> Result<Vec<Event>, BlockError>
        // Where the disk holds the events that are known.
        ensures found { IfOk result (λ found. IsTrue D.tells → (events : List TheEvent)
            → events_in (D.held disk.old) self.now.line self.now.end ≡ Ok events
            → found.items ≡ filter (λ e. nat_le from e.number && nat_le e.number to) events) }
        // Whatever the disk is, each event between the two is there, once and in its place.
        ensures numbered { IfOk result (λ found. map (λ e. e.number) found.items
            ≡ numbers_between (max from (self.now.line + 1)) (min to self.now.end)) }
        // Whatever is damaged, each event that is found is that of a whole block of its file.
        ensures stand { IfOk result (λ found. IsTrue D.tells
            → All (StandsInItsFile (D.held disk.old)) found.items) }
        // Where no event lies between the two, nothing is asked of the disk, and no memory is taken.
        ensures refused { IsErr result → HasBetween from to self.now.line self.now.end }
        ensures none { (HasBetween from to self.now.line self.now.end → ⊥) → disk.new ≡ disk.old }
        // A disk that tells and holds the events up to the last one gives no damage.
        ensures undamaged { (damage : TheDamage) → IsErrOf result (BlockError.Damaged damage) → IsTrue D.tells
            → (events : List TheEvent) → events_in (D.held disk.old) self.now.line self.now.end ≡ Ok events → ⊥ }
        ensures stays { Stays D.held D.moment D.images disk.old disk.new }
        ensures cause { CountsFaults (D.faults disk.old) (D.faults disk.new) (IsErrOf result BlockError.Disk) }
    {
        let mut scan = Scan {
            line: self.line,
            end: self.end,
            first: from.max(self.line + 1),
            last: to.min(self.end),
            buffer: Vec::new(alloc),
            found: Vec::new(alloc),
        };
        if scan.first <= scan.last {
            scan.scan_files(alloc, disk)?;
        }
        Ok(scan.found)
    }
}

impl Scan {
    // Finds the events file by file.
    fn scan_files<D: Disk>(&mut self, alloc: Global, disk: &mut D) -> Result<(), BlockError>
        requires may { MayScan self.old }
        requires none { self.old.found.items ≡ [] }
        ensures numbered { OnOk result
            (map (λ e. e.number) self.new.found.items ≡ numbers_between self.old.first self.old.last) }
        ensures found { OnOk result (IsTrue D.tells → (events : List TheEvent)
            → events_in (D.held disk.old) self.old.line self.old.end ≡ Ok events
            → self.new.found.items ≡ filter (is_within self.old.first self.old.last) events) }
        ensures stand { OnOk result (IsTrue D.tells
            → All (StandsInItsFile (D.held disk.old)) self.new.found.items) }
        ensures undamaged { (damage : TheDamage) → IsErrOf result (BlockError.Damaged damage) → IsTrue D.tells
            → (events : List TheEvent) → events_in (D.held disk.old) self.old.line self.old.end ≡ Ok events → ⊥ }
        ensures stays { Stays D.held D.moment D.images disk.old disk.new }
        ensures cause { CountsFaults (D.faults disk.old) (D.faults disk.new) (IsErrOf result BlockError.Disk) }
    {
        let begin = (self.first - 1) / EVENTS_PER_FILE;
        let end = (self.last - 1) / EVENTS_PER_FILE + 1;
        for number in begin..end {
            self.scan_file(alloc, disk, number)?;
        }
        Ok(())
    }

    // Finds the events of the file of this number.
    fn scan_file<D: Disk>(
        &mut self,
        alloc: Global,
        disk: &mut D,
        number: u64,
    ) -> Result<(), BlockError>
        requires may { MayScan self.old }
        requires from { (self.old.first - 1) / EVENTS_PER_FILE ≤ number }
        requires to { number ≤ (self.old.last - 1) / EVENTS_PER_FILE }
        ensures found { OnOk result (IsTrue D.tells → (here : List TheEvent)
            → events_of_file self.old.line self.old.end number (D.held disk.old) ≡ Ok here
            → self.new.found.items ≡ self.old.found.items ++ filter (is_within self.old.first self.old.last) here) }
        ensures numbered { OnOk result (map (λ e. e.number) self.new.found.items
            ≡ map (λ e. e.number) self.old.found.items
            ++ numbers_between (max self.old.first (first_event number))
            (min self.old.last (first_event (number + 1) - 1))) }
        ensures stand { OnOk result (IsTrue D.tells → All (StandsInItsFile (D.held disk.old)) self.old.found.items
            → All (StandsInItsFile (D.held disk.old)) self.new.found.items) }
        ensures same { SameScan self.old self.new }
        ensures undamaged { (damage : TheDamage) → IsErrOf result (BlockError.Damaged damage) → IsTrue D.tells
            → (here : List TheEvent)
            → events_of_file self.old.line self.old.end number (D.held disk.old) ≡ Ok here → ⊥ }
        ensures stays { Stays D.held D.moment D.images disk.old disk.new }
        ensures cause { CountsFaults (D.faults disk.old) (D.faults disk.new) (IsErrOf result BlockError.Disk) }
    {
        let file = file_named(number);
        let before = number * EVENTS_PER_FILE;
        let start = Cursor {
            file,
            size: disk.size(file)?,
            at: 0,
            number: before + 1,
        };
        let cursor = skip_events(disk, start, self.first.saturating_sub(start.number))?;
        let last = self.last.min(before + EVENTS_PER_FILE);
        let many = last + 1 - cursor.number;
        read_events(alloc, disk, cursor, many, &mut self.buffer, &mut self.found)?;
        Ok(())
    }
}

// Skips so many events from there on. Answers where the next one stands.
fn skip_events<D: Disk>(disk: &mut D, start: Cursor, many: u64) -> Result<Cursor, BlockError>
    requires there { IsThere D.tells (D.held disk.old) start }
    requires numbers { start.number + many < 2 ^ 64 }
    ensures skipped { IfOk result (HasSkipped D.tells (D.held disk.old) start many) }
    ensures undamaged { (damage : TheDamage) → IsErrOf result (BlockError.Damaged damage) → IsTrue D.tells
        → (events : List TheEvent)
        → events_from many start.file start.at start.number (bytes_there (D.held disk.old) start) ≡ Ok events → ⊥ }
    ensures stays { Stays D.held D.moment D.images disk.old disk.new }
    ensures cause { CountsFaults (D.faults disk.old) (D.faults disk.new) (IsErrOf result BlockError.Disk) }
{
    let mut cursor = start;
    for _ in 0..many {
        let size = skip_event_at(disk, cursor)?;
        cursor = cursor.behind(size);
    }
    Ok(cursor)
}

// Reads so many events from there on.
fn read_events<D: Disk>(
    alloc: Global,
    disk: &mut D,
    start: Cursor,
    many: u64,
    buffer: &mut Vec<u8>,
    found: &mut Vec<Event>,
) -> Result<(), BlockError>
    requires there { IsThere D.tells (D.held disk.old) start }
    requires numbers { start.number + many < 2 ^ 64 }
    ensures read { OnOk result (HasRead D.tells (D.held disk.old) start many found.old.items found.new.items) }
    ensures damaged { (damage : TheDamage) → IsErrOf result (BlockError.Damaged damage) → IsTrue D.tells
        → events_from many start.file start.at start.number (bytes_there (D.held disk.old) start) ≡ Err damage }
    ensures stays { Stays D.held D.moment D.images disk.old disk.new }
    ensures cause { CountsFaults (D.faults disk.old) (D.faults disk.new) (IsErrOf result BlockError.Disk) }
{
    let mut cursor = start;
    for _ in 0..many {
        let (event, size) = read_event_at(alloc, disk, cursor, buffer)?;
        found.reserve(1)?;
        found.push_reserved(event);
        cursor = cursor.behind(size);
    }
    Ok(())
}
