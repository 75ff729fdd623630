//! Folders aside in an outbox, in which a file stands before it gets its name.
use crate::folder::{Entry, Place, entry_at};
use crate::numbered::{is_no_text, read_number};
use crate::open_file::{FileId, OpenFile, OpenFolder, create_file, for_reading, open_named};
use std::alloc::Global;
use std::fs::{self, File, TryLockError};
use std::io::{self, ErrorKind};
use std::rt::Files;

/// What the name of a folder aside begins with. A number ends it.
const ASIDE: &str = ".flow-aside-";

/// What the name of a file begins with that a put writes there. The run's lot ends it.
const PART: &str = "part-";

/// The name of the file by which a folder aside is known from anybody else's. The process that puts files through the
/// folder holds a lock on it.
const MARKER: &str = "flow-marker";

/// All that the marker holds.
const MARK: &[u8] = b"A flow keeps a file here until it is whole.\n";

/// The folder aside of a run, which no other one takes for left behind as long as this stands.
#[derive(Drop)]
pub(crate) struct Aside {
    path: String,
    /// Itself: as long as it is open no other folder has its id.
    own: OpenFolder,
    /// The outbox in which it stands.
    outbox: OpenFolder,
    marker: OpenFile,
}

impl Aside {
    /// Makes a folder under the least number where nothing stands, and not at the path of the put that needs it.
    pub(crate) fn make<R: Files<File = File> + Alloc>(
        place: &Place<'_, R>,
        put: &str,
    ) -> io::Result<Aside> {
        for number in 0..u64::MAX {
            let name = format!(in place.alloc; "{ASIDE}{number}")?;
            let path = place.entry(name.as_str())?;
            if path.as_str() != put && is_made(place.rt, path.as_str())? {
                return with_marker(place, path);
            }
        }
        Err(ErrorKind::AlreadyExists.into())
    }

    pub(crate) fn path(&self) -> &str {
        self.path.as_str()
    }

    /// The path of the file that a put of a run writes.
    pub(crate) fn part(&self, alloc: Global, lot: u64) -> io::Result<String> {
        let path = self.path();
        Ok(format!(in alloc; "{path}/{PART}{lot}")?)
    }

    /// Whether it is what stands under its path.
    pub(crate) fn still_stands<R: Files>(&self, rt: &R) -> io::Result<bool> {
        match entry_at(rt, self.path())? {
            Entry::Folder(found) => Ok(self.own.is(&found)),
            Entry::Nothing | Entry::File(_) | Entry::Other => Ok(false),
        }
    }

    /// Syncs which entries stand in the outbox in which it stands.
    pub(crate) fn sync_outbox(&self) -> io::Result<()> {
        self.outbox.sync()
    }

    /// Removes it where it still stands and has nothing of anybody else's in it. Else it stays, as behind a stop.
    pub(crate) fn give_up<R: Files<File = File> + Alloc>(
        self,
        place: &Place<'_, R>,
    ) -> io::Result<()> {
        if self.still_stands(place.rt)? {
            let marker = FileId::of(&self.marker.file.metadata()?);
            clear(place, self.path(), marker)?;
        }
        Ok(())
    }
}

/// Makes a folder where nothing stands; false where anything does.
fn is_made<R: Files>(rt: &R, path: &str) -> io::Result<bool> {
    match fs::create_dir(rt, path) {
        Err(error) if error.kind() == ErrorKind::AlreadyExists => Ok(false),
        made => made.map(|()| true),
    }
}

/// The folder that was just made at a path, with a marker.
fn with_marker<R: Files<File = File>>(place: &Place<'_, R>, path: String) -> io::Result<Aside> {
    match open_and_mark(place, path.as_str()) {
        Ok((own, outbox, marker)) => Ok(Aside {
            path,
            own,
            outbox,
            marker,
        }),
        Err(error) => {
            // Where it isn't empty any more it stays.
            let _ = fs::remove_dir(place.rt, path.as_str());
            Err(error)
        }
    }
}

fn open_and_mark<R: Files<File = File>>(
    place: &Place<'_, R>,
    folder: &str,
) -> io::Result<(OpenFolder, OpenFolder, OpenFile)> {
    let outbox = OpenFolder::at(place.rt, place.path()?)?;
    let own = open_within(place, folder, &outbox)?;
    let marker = make_marker(place, folder)?;
    Ok((own, outbox, marker))
}

/// A folder of the outbox, open. It has to stand in the outbox that is open, whose place another one may have taken.
fn open_within<R: Files<File = File>>(
    place: &Place<'_, R>,
    folder: &str,
    outbox: &OpenFolder,
) -> io::Result<OpenFolder> {
    let Entry::Folder(found) = entry_at(place.rt, folder)? else {
        return Err(ErrorKind::NotADirectory.into());
    };
    let own = OpenFolder::at(place.rt, folder)?;
    let above = entry_in(place.alloc, folder, "..")?;
    if own.is(&found) && outbox.is(&fs::metadata(place.rt, above.as_str())?) {
        Ok(own)
    } else {
        Err(ErrorKind::ResourceBusy.into())
    }
}

fn make_marker<R: Files<File = File>>(place: &Place<'_, R>, folder: &str) -> io::Result<OpenFile> {
    let path = marker_in(place.alloc, folder)?;
    let mut marker = create_file(place.rt, path.as_str())?;
    match fill(&mut marker) {
        Ok(()) => Ok(marker),
        Err(error) => {
            let _ = fs::remove_file(place.rt, path.as_str());
            Err(error)
        }
    }
}

/// Locks a new marker and writes it. Its sync makes that a power cut leaves it, as soon as anything is put aside.
fn fill(marker: &mut OpenFile) -> io::Result<()> {
    // It is locked before it is whole: none but a whole one is ever tried. Where the system knows no locks, what a
    // stop leaves stays.
    if let Err(TryLockError::WouldBlock) = marker.file.try_lock() {
        return Err(ErrorKind::WouldBlock.into());
    }
    marker.write(0, MARK)?;
    marker.file.sync_all()
}

fn marker_in(alloc: Global, folder: &str) -> io::Result<String> {
    entry_in(alloc, folder, MARKER)
}

fn entry_in(alloc: Global, folder: &str, name: &str) -> io::Result<String> {
    Ok(format!(in alloc; "{folder}/{name}")?)
}

/// Removes the folders aside that stops of earlier runs left in an outbox: those that have a marker which no process
/// holds. What can't be removed stays, and so does a folder in which anything else stands.
pub(crate) fn sweep<R: Files<File = File> + Alloc>(place: &Place<'_, R>) -> io::Result<()> {
    for entry in fs::read_dir(&place.rt, place.path()?)? {
        match entry {
            Ok(entry) if is_aside(entry.file_name()) => {
                let path = place.entry(entry.file_name())?;
                let _ = sweep_folder(place, path.as_str());
            }
            Ok(_) => {}
            Err(error) if is_no_text(&error) => {}
            Err(error) => return Err(error),
        }
    }
    Ok(())
}

fn is_aside(name: &str) -> bool {
    is_numbered(name, ASIDE)
}

fn is_numbered(name: &str, front: &str) -> bool {
    match name.strip_prefix(front) {
        Some(digits) => read_number(digits).is_some(),
        None => false,
    }
}

fn sweep_folder<R: Files<File = File> + Alloc>(
    place: &Place<'_, R>,
    folder: &str,
) -> io::Result<()> {
    let Entry::Folder(_) = entry_at(place.rt, folder)? else {
        return Ok(());
    };
    match lock_left(place, folder)? {
        Some((marker, _locked)) => clear(place, folder, marker),
        None => Ok(()),
    }
}

/// The marker in a folder, locked, where it has one that no process holds.
fn lock_left<R: Files<File = File>>(
    place: &Place<'_, R>,
    folder: &str,
) -> io::Result<Option<(FileId, OpenFile)>> {
    let path = marker_in(place.alloc, folder)?;
    let Entry::File(named) = entry_at(place.rt, path.as_str())? else {
        return Ok(None);
    };
    let mut marker = open_named(place.rt, path.as_str(), &for_reading(), &named)?;
    if !is_whole(&mut marker)? || marker.file.try_lock().is_err() {
        return Ok(None);
    }
    // Who held it may have removed it meanwhile, and another process may have made the folder anew.
    match entry_at(place.rt, path.as_str())? {
        Entry::File(found) if FileId::of(&found) == FileId::of(&named) => {
            Ok(Some((FileId::of(&found), marker)))
        }
        Entry::Nothing | Entry::File(_) | Entry::Folder(_) | Entry::Other => Ok(None),
    }
}

fn is_whole(marker: &mut OpenFile) -> io::Result<bool> {
    if marker.size()? != MARK.len() as u64 {
        return Ok(false);
    }
    let mut mark = [0; MARK.len()];
    marker.read(0, &mut mark)?;
    Ok(mark.as_slice() == MARK)
}

/// Removes what puts left in a marked folder, and where nothing else stands in it, the folder.
fn clear<R: Files<File = File> + Alloc>(
    place: &Place<'_, R>,
    folder: &str,
    marker: FileId,
) -> io::Result<()> {
    if is_emptied(place, folder, marker)? {
        let path = marker_in(place.alloc, folder)?;
        let _ = fs::remove_file(place.rt, path.as_str());
        fs::remove_dir(place.rt, folder)?;
    }
    Ok(())
}

/// Removes the parts in a marked folder, and tells whether nothing but its marker is left.
fn is_emptied<R: Files<File = File> + Alloc>(
    place: &Place<'_, R>,
    folder: &str,
    marker: FileId,
) -> io::Result<bool> {
    let mut is_empty = true;
    for entry in fs::read_dir(&place.rt, folder)? {
        match entry {
            Ok(entry) => {
                let path = entry_in(place.alloc, folder, entry.file_name())?;
                let is_gone = is_passed(place.rt, path.as_str(), entry.file_name(), marker)?;
                is_empty = is_empty && is_gone;
            }
            Err(error) if is_no_text(&error) => is_empty = false,
            Err(error) => return Err(error),
        }
    }
    Ok(is_empty)
}

/// Whether an entry of a marked folder is its marker, or a part, which is removed.
fn is_passed<R: Files>(rt: &R, path: &str, name: &str, marker: FileId) -> io::Result<bool> {
    let Entry::File(found) = entry_at(rt, path)? else {
        return Ok(false);
    };
    if is_numbered(name, PART) {
        fs::remove_file(rt, path)?;
        return Ok(true);
    }
    Ok(name == MARKER && FileId::of(&found) == marker)
}
