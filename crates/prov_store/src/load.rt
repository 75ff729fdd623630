//! The events past a line and up to a last one are read, block by block.
ghost use Rattle.std.specs.Prelude.{◌≡◌, ℕ, suc, ◌+◌, ◌/◌, ◌<◌, ◌≤◌, ◌^◌, ◌++◌, length, All, IsTrue, IfOk, OnOk, IsErrOf, Err};
ghost use Rattle.disk_trait.specs.Images.{Stays};
ghost use Rattle.disk_trait.specs.Faults.{CountsFaults};
ghost use Rattle.disk_trait.specs.declared.damage.Damage.{Damage as TheDamage};
ghost use Rattle.flowfile_record.specs.Encoding.{IsNumber};
ghost use Rattle.prov_store.specs.Events.{events_from, events_of_files, events_in};
ghost use Rattle.prov_store.specs.Loading.{bytes_there, files_before, files_later, loaded_state, FilesAreRead, HasWholeBehind, HaveCounted, LoadWantsMemory, MayReadFile};
ghost use Rattle.prov_store.specs.Reading.{IsThere};
ghost use Rattle.prov_store.specs.State.{AreLonger, HasStale, IsEventLine, IsFoundOn};

use crate::counts::count;
use crate::events::file_named;
use crate::read::{Cursor, read_event_at};
use crate::{Events, Stale};
use block_file::BlockError;
use disk_trait::{Disk, FileKind};
use flowfile_record::{EVENTS_PER_FILE, EventCounts};
use std::alloc::{AllocError, Global};

// What is known of the files up to some file.
#[derive(Drop)]
struct Loading {
    line: u64,
    end: u64,
    offset: u64,
    counts: EventCounts,
    stale: Vec<Stale>,
    buffer: Vec<u8>,
}

impl Events {
    /// Reads the events up to a last one and past a line, and finds the files that are longer than these. Of the files
    /// before the line it asks for their names alone. It writes nothing, and beside its lists it takes memory for one
    /// block.
    pub fn load<D: Disk>(
        alloc: Global,
        disk: &mut D,
        end: u64,
        line: u64,
    ) -> Result<Events, BlockError>
        requires end { IsNumber end }
        requires line { IsEventLine line end }
        ensures found { IfOk result (IsFoundOn D.tells (D.held disk.old) line end) }
        // The first damage by the events' numbers is told, where there is one.
        ensures damaged { (damage : TheDamage) → IsErrOf result (BlockError.Damaged damage) → IsTrue D.tells
            → events_in (D.held disk.old) line end ≡ Err damage }
        // Damage before the block that memory is wanted for is reported.
        ensures memory { IsErrOf result BlockError.Memory → IsTrue D.tells
            → LoadWantsMemory (D.held disk.old) line end }
        ensures stays { Stays D.held D.moment D.images disk.old disk.new }
        ensures cause { CountsFaults (D.faults disk.old) (D.faults disk.new) (IsErrOf result BlockError.Disk) }
    {
        let mut loading = Loading {
            line,
            end,
            offset: 0,
            counts: EventCounts { counts: [0; 12] },
            stale: Vec::new(alloc),
            buffer: Vec::new(alloc),
        };
        for number in line / EVENTS_PER_FILE..end / EVENTS_PER_FILE + 1 {
            loading.read_file(alloc, disk, number)?;
        }
        let stale = loading.stale_files(alloc, disk)?;
        Ok(Events {
            line,
            end,
            offset: loading.offset,
            counts: loading.counts,
            stale,
        })
    }
}

impl Loading {
    // Reads the events of the file of this number.
    fn read_file<D: Disk>(
        &mut self,
        alloc: Global,
        disk: &mut D,
        number: u64,
    ) -> Result<(), BlockError>
        requires may { MayReadFile number self.old }
        requires read { FilesAreRead D.tells (D.held disk.old) number self.old }
        ensures read { OnOk result (FilesAreRead D.tells (D.held disk.old) (number + 1) self.new) }
        ensures same { (self.new.line ≡ self.old.line) × (self.new.end ≡ self.old.end) }
        ensures damaged { (damage : TheDamage) → IsErrOf result (BlockError.Damaged damage) → IsTrue D.tells
            → (more : ℕ)
            → events_of_files (number + suc more) self.old.line self.old.end 0 (D.held disk.old) ≡ Err damage }
        ensures memory { IsErrOf result BlockError.Memory → IsTrue D.tells
            → LoadWantsMemory (D.held disk.old) self.old.line self.old.end }
        ensures stays { Stays D.held D.moment D.images disk.old disk.new }
        ensures cause { CountsFaults (D.faults disk.old) (D.faults disk.new) (IsErrOf result BlockError.Disk) }
    {
        let file = file_named(number);
        let first = number * EVENTS_PER_FILE;
        let start = Cursor {
            file,
            size: disk.size(file)?,
            at: 0,
            number: first + 1,
        };
        let many = EVENTS_PER_FILE.min(self.end - first);
        let size = count_events(alloc, disk, start, many, &mut self.counts, &mut self.buffer)?;
        self.offset = size;
        if size < start.size {
            self.stale.reserve(1)?;
            self.stale.push_reserved(Stale { file: number, size });
        }
        Ok(())
    }

    // All files that are longer than what is covered, once those from the line on are read.
    fn stale_files<D: Disk>(&self, alloc: Global, disk: &mut D) -> Result<Vec<Stale>, BlockError>
        requires line { IsEventLine self.now.line self.now.end }
        requires read { FilesAreRead D.tells (D.held disk.old) (self.now.end / EVENTS_PER_FILE + 1) self.now }
        ensures longer { IfOk result (λ stale. AreLonger D.tells (D.held disk.old) stale.items) }
        ensures stale { IfOk result (λ stale. IsTrue D.tells
            → HasStale (loaded_state self.now stale.items) (D.held disk.old)) }
        ensures kinds { (damage : TheDamage) → IsErrOf result (BlockError.Damaged damage) → ⊥ }
        ensures stays { Stays D.held D.moment D.images disk.old disk.new }
        ensures cause { CountsFaults (D.faults disk.old) (D.faults disk.new) (IsErrOf result BlockError.Disk) }
    {
        let mut numbers = Vec::new(alloc);
        disk.files(FileKind::Events, &mut numbers)?;
        let mut stale = Vec::new(alloc);
        add_before(&mut stale, &numbers, self.line / EVENTS_PER_FILE)?;
        stale.extend_from_slice(&self.stale)?;
        add_later(&mut stale, &numbers, self.end / EVENTS_PER_FILE)?;
        Ok(stale)
    }
}

// Adds the files of these numbers that are before this one.
fn add_before(stale: &mut Vec<Stale>, numbers: &[u64], first: u64) -> Result<(), AllocError>
    ensures { OnOk result (stale.new.items ≡ stale.old.items ++ files_before first numbers.now) }
{
    for number in numbers {
        if *number < first {
            stale.reserve(1)?;
            stale.push_reserved(Stale {
                file: *number,
                size: 0,
            });
        }
    }
    Ok(())
}

// Adds the files of these numbers that are behind this one.
fn add_later(stale: &mut Vec<Stale>, numbers: &[u64], last: u64) -> Result<(), AllocError>
    ensures { OnOk result (stale.new.items ≡ stale.old.items ++ files_later last numbers.now) }
{
    for number in numbers {
        if *number > last {
            stale.reserve(1)?;
            stale.push_reserved(Stale {
                file: *number,
                size: 0,
            });
        }
    }
    Ok(())
}

// Reads and counts so many events from there on. Answers where they end.
fn count_events<D: Disk>(
    alloc: Global,
    disk: &mut D,
    start: Cursor,
    many: u64,
    counts: &mut EventCounts,
    buffer: &mut Vec<u8>,
) -> Result<u64, BlockError>
    requires there { IsThere D.tells (D.held disk.old) start }
    requires numbers { start.number + many < 2 ^ 64 }
    requires room { All (λ n. n + many < 2 ^ 64) counts.old.counts }
    requires long { length counts.old.counts ≡ 12 }
    ensures counted { IfOk result
        (HaveCounted D.tells (D.held disk.old) start many counts.old.counts counts.new.counts) }
    ensures damaged { (damage : TheDamage) → IsErrOf result (BlockError.Damaged damage) → IsTrue D.tells
        → events_from many start.file start.at start.number (bytes_there (D.held disk.old) start) ≡ Err damage }
    ensures memory { IsErrOf result BlockError.Memory → IsTrue D.tells
        → HasWholeBehind (D.held disk.old) start many }
    ensures stays { Stays D.held D.moment D.images disk.old disk.new }
    ensures cause { CountsFaults (D.faults disk.old) (D.faults disk.new) (IsErrOf result BlockError.Disk) }
{
    let mut cursor = start;
    for _ in 0..many {
        let (event, size) = read_event_at(alloc, disk, cursor, buffer)?;
        count(counts, event.kind);
        cursor = cursor.behind(size);
    }
    Ok(cursor.at)
}
