//! How what is pending of a store becomes durable.
use crate::folder::{Place, open_folder};
use crate::lock::Lock;
use crate::open_files::OpenFiles;
use crate::pending::Pending;
use crate::renew::{renew, sweep_copy};
use crate::standing::{names_in, take_file};
use disk_trait::FileName;
use std::fs::File;
use std::io::{self, ErrorKind};
use std::mem;
use std::rt::Files;

/// Why something wasn't synced.
#[derive(Drop)]
pub(crate) enum Unsynced {
    /// The system wasn't asked to.
    Untried(io::Error),
    /// The system refused, and may have dropped what was written.
    Refused(io::Error),
}

impl From<io::Error> for Unsynced {
    fn from(error: io::Error) -> Unsynced {
        Unsynced::Untried(error)
    }
}

/// Syncs what is pending. Once the system refused, each later call fails, and the lock is marked: the next
/// process may be told that a sync of the same bytes went well.
pub(crate) fn sync_pending<R: Files<File = File> + Alloc>(
    place: &Place<'_, R>,
    lock: &Lock,
    open: &mut OpenFiles,
    pending: &mut Pending,
) -> io::Result<()> {
    let due = mem::replace(pending, Pending::Lost);
    match sync_due(place, lock, open, &due) {
        Ok(()) => {
            *pending = Pending::nothing(place.alloc);
            Ok(())
        }
        Err(Unsynced::Untried(error)) => {
            *pending = due;
            Err(error)
        }
        Err(Unsynced::Refused(error)) => {
            // Where this fails too, the mark is tried again at each later call.
            let _ = lock.mark();
            Err(error)
        }
    }
}

fn sync_due<R: Files<File = File> + Alloc>(
    place: &Place<'_, R>,
    lock: &Lock,
    open: &mut OpenFiles,
    due: &Pending,
) -> Result<(), Unsynced> {
    match due {
        Pending::Everything => sync_first(place, lock, open),
        Pending::Touched { files, entries } => {
            for name in files {
                sync_file(place, open, *name, due)?;
            }
            if *entries {
                sync_entries(place)?;
            }
            Ok(())
        }
        Pending::Lost => Err(Unsynced::Refused(ErrorKind::Other.into())),
    }
}

/// Syncs all that stands in the folder. Where the lock is marked, a read may give what the disk never got, and
/// so each file is written anew.
fn sync_first<R: Files<File = File> + Alloc>(
    place: &Place<'_, R>,
    lock: &Lock,
    open: &mut OpenFiles,
) -> Result<(), Unsynced> {
    sweep_copy(place)?;
    if !lock.is_marked()? {
        sync_standing(place, open)?;
        return sync_entries(place);
    }
    open.close_all();
    for name in names_in(place)? {
        renew(place, name)?;
    }
    sync_entries(place)?;
    lock.unmark()?;
    Ok(())
}

fn sync_standing<R: Files<File = File> + Alloc>(
    place: &Place<'_, R>,
    open: &mut OpenFiles,
) -> Result<(), Unsynced> {
    for name in names_in(place)? {
        sync_file(place, open, name, &Pending::Everything)?;
    }
    Ok(())
}

fn sync_file<R: Files<File = File>>(
    place: &Place<'_, R>,
    open: &mut OpenFiles,
    name: FileName,
    due: &Pending,
) -> Result<(), Unsynced> {
    let Some(opened) = take_file(place, open, name)? else {
        return Err(Unsynced::Untried(ErrorKind::NotFound.into()));
    };
    opened.file.sync_data().map_err(Unsynced::Refused)?;
    open.put(name, opened, due);
    Ok(())
}

/// Syncs which entries stand in the folder.
fn sync_entries<R: Files<File = File>>(place: &Place<'_, R>) -> Result<(), Unsynced> {
    let folder = open_folder(place.rt, place.path()?)?;
    folder.sync_all().map_err(Unsynced::Refused)
}
