//! How a file leaves an inbox: it is set aside under a name of ours, looked at, and removed.
use crate::folder::{Entry, Place, entry_at, open_folder, parent_of};
use crate::numbered::read_number;
use crate::open_file::{FileId, Look};
use flowfile_record::{NAME_MAX, Name};
use std::fs::{self, File};
use std::io::{self, ErrorKind};
use std::rt::Files;

/// What the name of a file that is set aside begins with. A number below [`NUMBERS`], a dash and the file's own name
/// come behind it.
const ASIDE: &str = ".flow-taken-";

/// How many files of one name may be aside. Each number is a digit.
const NUMBERS: u64 = 10;

/// The longest name that has room behind such a beginning, in bytes.
const LONGEST: usize = NAME_MAX - ASIDE.len() - 2;

/// The name that a file which is set aside has to get back; `None` for any other entry.
pub(crate) fn name_before(text: &str) -> Option<&str> {
    let (number, name) = text.strip_prefix(ASIDE)?.split_once('-')?;
    match name {
        "" | "." | ".." => None,
        _ if read_number(number)? < NUMBERS => Some(name),
        _ => None,
    }
}

/// Fails where the system wouldn't let a file's name go from its folder. It is asked to remove the file as if that were
/// a folder, which changes nothing: what it answers is that it is none where the name may go, and otherwise what keeps
/// it.
pub(crate) fn may_go<R: Files>(rt: &R, path: &str) -> io::Result<()> {
    match fs::remove_dir(rt, path) {
        Err(error) if error.kind() == ErrorKind::NotADirectory => Ok(()),
        Err(error) => Err(error),
        // An empty folder has just taken its place.
        Ok(()) => {
            fs::create_dir(rt, path)?;
            Err(ErrorKind::IsADirectory.into())
        }
    }
}

/// Removes the file of a name where it is the one that was looked at, and neither its size nor the time of its last
/// write changed since. Else what stands there stays, or gets its name back.
///
/// Between a look at the name and its removal another file might take it. So the name is changed first: what is looked
/// at then is what is removed, and who hands in another file meanwhile finds the name free.
pub(crate) fn take_away<R: Files<File = File>>(
    place: &Place<'_, R>,
    are_left: &mut bool,
    name: &Name,
    look: &Look,
) -> io::Result<()> {
    let path = place.entry(name.text())?;
    let Some(aside) = free_path(place, *are_left, name)? else {
        return remove_same(place.rt, path.as_str(), look);
    };
    fs::rename(place.rt, path.as_str(), aside.as_str())?;
    let answer = remove_same(place.rt, aside.as_str(), look);
    if answer.is_err() {
        *are_left = true;
        // Where that fails, the next listing tries again.
        let _ = give_back(place.rt, aside.as_str(), path.as_str());
    }
    answer
}

/// A path at which nothing stands, for a file to be set aside; `None` where no such name has room for its own, or all
/// are taken. Where none was left aside all are free: nobody else makes such names.
fn free_path<R: Files>(
    place: &Place<'_, R>,
    are_left: bool,
    name: &Name,
) -> io::Result<Option<String>> {
    let text = name.text();
    if text.len() > LONGEST {
        return Ok(None);
    }
    for number in 0..NUMBERS {
        let aside = format!(in place.alloc; "{ASIDE}{number}-{text}")?;
        let path = place.entry(aside.as_str())?;
        if !are_left || is_free(place.rt, path.as_str())? {
            return Ok(Some(path));
        }
    }
    Ok(None)
}

fn is_free<R: Files>(rt: &R, path: &str) -> io::Result<bool> {
    Ok(matches!(entry_at(rt, path)?, Entry::Nothing))
}

/// Removes what stands at a path where it is the file that was looked at, as it was then.
fn remove_same<R: Files>(rt: &R, path: &str, look: &Look) -> io::Result<()> {
    match entry_at(rt, path)? {
        Entry::File(found) if Look::at(&found) == *look => fs::remove_file(rt, path),
        Entry::Nothing => Err(ErrorKind::NotFound.into()),
        Entry::File(_) | Entry::Folder(_) | Entry::Other => Err(ErrorKind::ResourceBusy.into()),
    }
}

/// Gives the file at a path aside its name back, at another path. It stays aside where anything else stands there.
pub(crate) fn give_back<R: Files<File = File>>(rt: &R, aside: &str, path: &str) -> io::Result<()> {
    match fs::hard_link(rt, aside, path) {
        Ok(()) => drop_name(rt, aside),
        Err(error) if error.kind() == ErrorKind::AlreadyExists => {
            if is_same(rt, aside, path)? {
                // A stop came behind the link.
                return drop_name(rt, aside);
            }
            Ok(())
        }
        // The system gives no second name: not to a folder, on some file systems to nothing, and often not to a file
        // that is somebody else's.
        Err(_) if is_free(rt, path)? => fs::rename(rt, aside, path),
        Err(_) => Ok(()),
    }
}

/// Removes one of the two names that a file has in a folder. The other one is new, so the folder is synced before: a
/// power cut must not keep the removal and undo the link.
fn drop_name<R: Files<File = File>>(rt: &R, path: &str) -> io::Result<()> {
    open_folder(rt, parent_of(path))?.sync_all()?;
    fs::remove_file(rt, path)
}

/// Whether two paths are names of one file.
fn is_same<R: Files>(rt: &R, one: &str, other: &str) -> io::Result<bool> {
    match (entry_at(rt, one)?, entry_at(rt, other)?) {
        (Entry::File(one), Entry::File(other)) => Ok(FileId::of(&one) == FileId::of(&other)),
        _ => Ok(false),
    }
}
