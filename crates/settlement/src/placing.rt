//! What a session puts into queues.
ghost use Rattle.std.specs.Prelude.{◌≡◌, ◌+◌, ◌*◌, ◌<◌, ◌≤◌, ◌^◌, ◌++◌, length, map, slice_index, vec_len, IfOk, OnOk};
ghost use Rattle.settlement.specs.Contents.{shared_in};
ghost use Rattle.settlement.specs.Placing.{PlacingFrom, taken_arrival, arrived, cloned_from, clones_of, first_newcomer, firsts, first_connection, further, is_returning, placed_as, placed_at, placed_from, placing_of, returned, returning, wanted};

use crate::content::{fresh_of, shared_in};
use crate::file::{EndedFile, Goes};
use flowfile_record::{FlowFile, Origin, Placed, Worked};
use std::alloc::{AllocError, Global};

/// Who places files: from which connection they were taken, how they were, and the next arrival.
#[derive(Clone, Copy)]
pub struct Placer<'s> {
    pub alloc: Global,
    pub connection: u16,
    pub taken: &'s [FlowFile],
    pub next_arrival: u64,
}

impl Placer<'_> {
    /// The files that return, those that go on, and the clones, with numbers from this one on.
    pub fn place_all(
        &self,
        first_clone: u64,
        files: Vec<EndedFile>,
    ) -> Result<Vec<Placed>, AllocError>
        requires few { length files.items < 2 ^ 32 }
        requires numbers { first_clone + length (wanted files.items) < 2 ^ 64 }
        requires arrivals { self.now.next_arrival + length files.items + length (wanted files.items) < 2 ^ 64 }
        ensures { IfOk result (λ placed. placed.items ≡ returned (placing_of self.now) files.items
            ++ arrived (placing_of self.now) first_clone files.items) }
    {
        let place = count_returned(&files);
        let arrival = self.next_arrival + count_firsts(&files);
        let mut clones = self.clones_of_all(place, first_clone, arrival, &files)?;
        let mut placed = self.place_each(files)?;
        placed.append(&mut clones)?;
        Ok(placed)
    }

    /// The files that return, then those that go on.
    fn place_each(&self, files: Vec<EndedFile>) -> Result<Vec<Placed>, AllocError>
        requires arrivals { self.now.next_arrival + length files.items < 2 ^ 64 }
        ensures { IfOk result (λ placed. placed.items ≡ returned (placing_of self.now) files.items
            ++ placed_from self.now.next_arrival (firsts files.items)) }
    {
        let mut returned = Vec::new(self.alloc);
        let mut arrived = Vec::new(self.alloc);
        for file in files {
            self.place_one(&mut returned, &mut arrived, file)?;
        }
        returned.append(&mut arrived)?;
        Ok(returned)
    }

    fn place_one(
        &self,
        returned: &mut Vec<Placed>,
        arrived: &mut Vec<Placed>,
        file: EndedFile,
    ) -> Result<(), AllocError>
        requires arrivals { self.now.next_arrival + vec_len arrived.old < 2 ^ 64 }
        ensures returned { OnOk result (returned.new.items
            ≡ returned.old.items ++ returning (placing_of self.now) file file.goes) }
        ensures arrived { OnOk result (arrived.new.items ≡ arrived.old.items
            ++ placed_from (self.now.next_arrival + vec_len arrived.old)
            (first_newcomer file file.goes)) }
    {
        if is_returning(&file.goes) {
            let arrival = self.arrival_of(&file.worked.origin);
            let back = placed_at(self.connection, arrival, file);
            returned.push(back)?;
        } else if let Some(first) = first_in(&file.goes) {
            let arrival = self.next_arrival + arrived.len() as u64;
            let newcomer = placed_at(first, arrival, file);
            arrived.push(newcomer)?;
        }
        Ok(())
    }

    /// The arrival of a taken file.
    fn arrival_of(&self, origin: &Origin) -> u64
        ensures { result ≡ taken_arrival self.now.taken.now origin.now }
    {
        match origin {
            Origin::Taken(of) => arrival_at(self.taken, *of),
            _ => 0,
        }
    }

    /// The clones of all files, with numbers and arrivals from these on. The first file that goes on is placed here.
    fn clones_of_all(
        &self,
        first_place: u32,
        number: u64,
        arrival: u64,
        files: &[EndedFile],
    ) -> Result<Vec<Placed>, AllocError>
        requires places { first_place + length (firsts files.now) < 2 ^ 32 }
        requires numbers { number + length (wanted files.now) < 2 ^ 64 }
        requires arrivals { arrival + length (wanted files.now) < 2 ^ 64 }
        ensures { IfOk result (λ clones. clones.items ≡ cloned_from first_place number arrival files.now) }
    {
        let mut clones = Vec::new(self.alloc);
        let mut place = first_place;
        for file in files {
            add_clones(&mut clones, place, number, arrival, file)?;
            place += count_first(file);
        }
        Ok(clones)
    }
}

/// A file in the queue of a connection, with an arrival.
fn placed_at(connection: u16, arrival: u64, file: EndedFile) -> Placed
    ensures { result ≡ placed_at arrival (connection, file.number, file) }
{
    let EndedFile {
        number,
        worked,
        content,
        entered,
        penalty_end,
        goes: _,
    } = file;
    let Worked {
        attributes,
        body,
        origin: _,
        end: _,
        written: _,
        penalised: _,
        routed: _,
    } = worked;
    Placed {
        connection,
        file: FlowFile {
            number,
            attributes,
            content,
            entered,
            penalty_end,
            arrival,
        },
        fresh: fresh_of(body),
    }
}

/// The clones of a file that is placed here, behind those of the files before it, of which the first has this number and
/// this arrival.
fn add_clones(
    clones: &mut Vec<Placed>,
    place: u32,
    number: u64,
    arrival: u64,
    file: &EndedFile,
) -> Result<(), AllocError>
    requires numbers { number + vec_len clones.old + length (further file.now.goes) < 2 ^ 64 }
    requires arrivals { arrival + vec_len clones.old + length (further file.now.goes) < 2 ^ 64 }
    ensures { OnOk result (clones.new.items ≡ clones.old.items
        ++ clones_of place (number + vec_len clones.old) (arrival + vec_len clones.old) file.now
        (further file.now.goes)) }
{
    for connection in file.goes.further() {
        let next = clones.len() as u64;
        let clone = clone_of(place, *connection, number + next, arrival + next, file)?;
        clones.push(clone)?;
    }
    Ok(())
}

/// A clone of a file that is placed here.
fn clone_of(
    place: u32,
    connection: u16,
    number: u64,
    arrival: u64,
    file: &EndedFile,
) -> Result<Placed, AllocError>
    ensures { IfOk result (λ placed. placed
        ≡ placed_as (shared_in place file.now.worked.body) arrival (connection, number, file.now)) }
{
    let attributes = file.worked.attributes.copy()?;
    Ok(Placed {
        connection,
        file: FlowFile {
            number,
            attributes,
            content: file.content,
            entered: file.entered,
            penalty_end: file.penalty_end,
            arrival,
        },
        fresh: shared_in(place, &file.worked.body),
    })
}

/// How many files return to where they were.
fn count_returned(files: &[EndedFile]) -> u32
    requires { length files.now < 2 ^ 32 }
    ensures { (from : PlacingFrom) → result ≡ length (returned from files.now) }
{
    let mut count = 0;
    for file in files {
        count += count_return(file);
    }
    count
}

fn count_return(file: &EndedFile) -> u32
    ensures count { (from : PlacingFrom) → result ≡ length (returning from file.now file.now.goes) }
    ensures bound { result ≤ 1 }
{
    match file.goes {
        Goes::Returns => 1,
        _ => 0,
    }
}

/// How many files go on into a queue.
pub fn count_firsts(files: &[EndedFile]) -> u64
    ensures count { result ≡ length (firsts files.now) }
    ensures bound { result ≤ length files.now }
{
    let mut count = 0;
    for file in files {
        count += u64::from(count_first(file));
    }
    count
}

fn count_first(file: &EndedFile) -> u32
    ensures count { result ≡ length (first_newcomer file.now file.now.goes) }
    ensures bound { result ≤ 1 }
{
    match file.goes {
        Goes::Queues { .. } => 1,
        _ => 0,
    }
}

/// How many clones files get.
pub fn count_clones(files: &[EndedFile]) -> u64
    requires { length (wanted files.now) < 2 ^ 64 }
    ensures { result ≡ length (wanted files.now) }
{
    let mut count = 0;
    for file in files {
        count += file.goes.further().len() as u64;
    }
    count
}

fn is_returning(goes: &Goes) -> bool
    ensures { result ≡ is_returning goes.now }
{
    matches!(goes, Goes::Returns)
}

fn first_in(goes: &Goes) -> Option<u16>
    ensures { result ≡ first_connection goes.now }
{
    match goes {
        Goes::Queues { first, .. } => Some(*first),
        _ => None,
    }
}

fn arrival_at(taken: &[FlowFile], place: u32) -> u64
    ensures { result ≡ slice_index (map (λ file. file.arrival) taken.now) place }
{
    match taken.get(place as usize) {
        Some(file) => file.arrival,
        None => 0,
    }
}
