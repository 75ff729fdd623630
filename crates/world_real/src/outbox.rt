//! An outbox over a folder.
ghost use Rattle.std.specs.Prelude.{◌≡◌, false, None, []};
ghost use Rattle.world_real.specs.Untold.{told_by_none};

use crate::aside::{Aside, sweep};
use crate::faults::counted;
use crate::folder::{Entry, Folder, Place, entry_at};
use crate::open_file::create_file;
use disk_trait::Failed;
use flowfile_record::Name;
use std::alloc::Global;
use std::fs::{self, File};
use std::rt::Files;
use std::{io, mem};
use world_io::Outbox;

/// A folder that files are put into.
///
/// A put that answered Ok is durable, and no reader sees a part of it: it is written in a folder aside,
/// synced, and given its name. That folder is `.flow-aside-N` in the outbox, N being the least number where
/// nothing stands. It has a marker, which is locked as long as the run goes on, and stays there for the
/// next put until `finish` removes it or a put fails; where something else took its place, another one is
/// made. A marked folder that no process holds is what a stop left: the first `put` or `holds` removes it,
/// and so does `sweep`. Any other folder of such a name stays as it is, and so does what somebody put into a
/// marked one.
#[derive(Drop)]
pub struct OutboxFolder<'r, R> {
    place: Place<'r, R>,
    /// Tells the parts of this run from those of others.
    lot: u64,
    aside: FoldersAside,
    faults: u64,
}

/// What is known of the folders aside.
#[derive(Drop)]
enum FoldersAside {
    /// Earlier puts may have left some.
    Unknown,
    /// There is none.
    Swept,
    /// There is this run's own, which an earlier put left empty for the next one.
    Kept(Aside),
}

impl<'r, R: Files<File = File> + Alloc + Sync> OutboxFolder<'r, R> {
    /// The outbox over a folder, with no fault. No other run has this lot, which is a random number.
    pub fn new(rt: &'r R, alloc: Global, folder: Folder<'r>, lot: u64) -> OutboxFolder<'r, R>
        ensures { ⟦<OutboxFolder<'r, R> as Outbox>⟧.faults result ≡ 0 }
    {
        OutboxFolder {
            place: Place { rt, alloc, folder },
            lot,
            aside: FoldersAside::Unknown,
            faults: 0,
        }
    }

    /// Removes what stops of earlier runs left aside, where no call did yet. What can't be removed stays,
    /// and that is no fault.
    pub fn sweep(&mut self)
        ensures { ⟦<OutboxFolder<'r, R> as Outbox>⟧.faults self.new
            ≡ ⟦<OutboxFolder<'r, R> as Outbox>⟧.faults self.old }
    {
        let _ = sweep_once(&self.place, &mut self.aside);
    }

    /// Removes the folder that stands there for the next put, at the end of a run. Where it can't be
    /// removed, as somebody put something there, it stays as behind a stop, and that is no fault. The
    /// removal isn't synced.
    pub fn finish(&mut self)
        ensures { ⟦<OutboxFolder<'r, R> as Outbox>⟧.faults self.new
            ≡ ⟦<OutboxFolder<'r, R> as Outbox>⟧.faults self.old }
    {
        if let FoldersAside::Kept(folder) = mem::replace(&mut self.aside, FoldersAside::Unknown) {
            let _ = folder.give_up(&self.place);
        }
    }
}

impl<'r, R: Files<File = File> + Alloc + Sync> Outbox for OutboxFolder<'r, R> {
    ghost tells = { false };

    ghost standing = { λ _ _. None };

    ghost puts = { λ _. [] };

    ghost faults = { λ outbox. outbox.faults };

    fn holds(&mut self, name: &Name) -> Result<bool, Failed> {
        let answer = holds(&self.place, &mut self.aside, name);
        counted(&mut self.faults, answer)
    }

    fn put(&mut self, name: &Name, bytes: &[u8]) -> Result<(), Failed> {
        let answer = put(&self.place, self.lot, &mut self.aside, name.text(), bytes);
        counted(&mut self.faults, answer)
    }
}

fn holds<R: Files<File = File> + Alloc>(
    place: &Place<'_, R>,
    aside: &mut FoldersAside,
    name: &Name,
) -> io::Result<bool> {
    sweep_once(place, aside)?;
    match entry_at(place.rt, place.entry(name.text())?.as_str())? {
        Entry::File(_) | Entry::Other => Ok(true),
        Entry::Folder(_) | Entry::Nothing => Ok(false),
    }
}

fn put<R: Files<File = File> + Alloc>(
    place: &Place<'_, R>,
    lot: u64,
    aside: &mut FoldersAside,
    name: &str,
    bytes: &[u8],
) -> io::Result<()> {
    sweep_once(place, aside)?;
    let path = place.entry(name)?;
    let folder = folder_of_a_put(place, aside, path.as_str())?;
    let answer = put_through(place, lot, &folder, path.as_str(), bytes);
    if answer.is_err() {
        // The next put looks again for what this one leaves.
        let _ = folder.give_up(place);
    } else {
        *aside = FoldersAside::Kept(folder);
    }
    answer
}

fn sweep_once<R: Files<File = File> + Alloc>(
    place: &Place<'_, R>,
    aside: &mut FoldersAside,
) -> io::Result<()> {
    if let FoldersAside::Unknown = aside {
        sweep(place)?;
        *aside = FoldersAside::Swept;
    }
    Ok(())
}

/// The folder in which a put at `path` is written: the one that is kept, where it still stands there, or
/// else a new one. It is taken out of what is known.
fn folder_of_a_put<R: Files<File = File> + Alloc>(
    place: &Place<'_, R>,
    aside: &mut FoldersAside,
    path: &str,
) -> io::Result<Aside> {
    match mem::replace(aside, FoldersAside::Unknown) {
        // Its name is the put's own.
        FoldersAside::Kept(folder) if folder.path() == path => folder.give_up(place)?,
        FoldersAside::Kept(folder) => match folder.still_stands(place.rt) {
            Ok(true) => return Ok(folder),
            Ok(false) => {}
            Err(error) => {
                *aside = FoldersAside::Kept(folder);
                return Err(error);
            }
        },
        FoldersAside::Swept | FoldersAside::Unknown => {}
    }
    Aside::make(place, path)
}

fn put_through<R: Files<File = File> + Alloc>(
    place: &Place<'_, R>,
    lot: u64,
    aside: &Aside,
    path: &str,
    bytes: &[u8],
) -> io::Result<()> {
    let part = aside.part(place.alloc, lot)?;
    let mut opened = create_file(place.rt, part.as_str())?;
    opened.write(0, bytes)?;
    opened.file.sync_all()?;
    drop(opened);
    // Only the outbox in which the folder aside stands has this part, so what the rename changes is synced. The system
    // refuses it where a folder stands under the name.
    fs::rename(place.rt, part.as_str(), path)?;
    aside.sync_outbox()
}
