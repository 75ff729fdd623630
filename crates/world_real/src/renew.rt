//! Writing a file of a store anew.
use crate::folder::{Entry, Place, entry_at};
use crate::open_file::{create_file, for_reading, open_file};
use crate::standing::path_of;
use crate::sync::Unsynced;
use disk_trait::FileName;
use std::fs::{self, File};
use std::io::{self, ErrorKind};
use std::rt::Files;

/// The name of a copy before it takes the file's. No file of a store is called so.
const COPY: &str = ".flow-aside";

/// Puts a copy that is synced in the place of a file. Whatever fails, the file stands.
pub(crate) fn renew<R: Files<File = File>>(
    place: &Place<'_, R>,
    name: FileName,
) -> Result<(), Unsynced> {
    let (path, copy) = (path_of(place, name)?, place.entry(COPY)?);
    let answer = renew_through(place.rt, path.as_str(), copy.as_str());
    if answer.is_err() {
        // Where this fails too, the next process sweeps.
        let _ = sweep_copy(place);
    }
    answer
}

/// Removes the copy that a stop left.
pub(crate) fn sweep_copy<R: Files>(place: &Place<'_, R>) -> io::Result<()> {
    let copy = place.entry(COPY)?;
    match entry_at(place.rt, copy.as_str())? {
        Entry::File(_) => fs::remove_file(place.rt, copy.as_str()),
        Entry::Nothing | Entry::Folder(_) | Entry::Other => Ok(()),
    }
}

fn renew_through<R: Files<File = File>>(rt: &R, path: &str, copy: &str) -> Result<(), Unsynced> {
    let Some(mut old) = open_file(rt, path, &for_reading())? else {
        return Err(Unsynced::Untried(ErrorKind::NotFound.into()));
    };
    let mut new = create_file(rt, copy)?;
    io::copy(&mut old.file, &mut new.file)?;
    let found = old.file.metadata()?;
    new.file.set_permissions(found.permissions())?;
    new.file.sync_all().map_err(Unsynced::Refused)?;
    fs::rename(rt, copy, path)?;
    Ok(())
}
