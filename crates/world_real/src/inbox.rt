//! An inbox over a folder.
ghost use Rattle.std.specs.Prelude.{◌≡◌, ◌≤◌, false, [], ◌∷◌, ◌++◌, length, IsTrue, OnOk, IsOk, IsErrOf};
ghost use Rattle.disk_trait.specs.Faults.{CountsFaults};
ghost use Rattle.world_io.specs.Inbox.{IsAscending};
ghost use Rattle.world_real.specs.Untold.{told_by_none};

use crate::faults::{counted, is_out_of_memory};
use crate::folder::{Entry, Folder, Place, entry_at};
use crate::open_file::{Look, OpenFile, for_reading, open_named};
use crate::set_aside::{give_back, may_go, name_before, take_away};
use crate::settle::{is_settled, time_to_settle};
use disk_trait::Failed;
use flowfile_record::{CONTENT_MAX, Name, NameError};
use std::alloc::Global;
use std::fs::{self, File, Metadata};
use std::io::{self, ErrorKind};
use std::os::unix::fs::FileExt;
use std::rt::{Clock, Files};
use std::thread;
use std::time::Duration;
use world_io::{Inbox, WorldError};

/// The regular files of a folder. Links, folders, pipes and the like don't count. An entry whose name
/// isn't UTF-8 makes the listing fail.
///
/// A file that may still be written isn't taken. A listing waits for all such files together, a reading for its own;
/// what goes on being written meanwhile is left out of the listing, and makes the reading fail.
///
/// A file that the system wouldn't let go isn't read. Only the file that was read last is removed, and only where it
/// didn't change since. Where it changed, its size isn't told either. For that it is set aside for a moment, as `.flow-taken-0-` and its name: what a stop leaves so
/// gets its name back at the next listing, or at a later one where another file has that name.
#[derive(Drop)]
pub struct InboxFolder<'r, R> {
    place: Place<'r, R>,
    /// What the listing saw of the files whose size wasn't asked since, the last name first. It counts
    /// until a file is read or removed.
    listed: Vec<ListedFile>,
    /// The file that was read last since the last listing. It stays open: where it still stands under its
    /// name it is read again without being opened anew, and no other file has its id.
    seen: Option<SeenFile>,
    /// Whether files that were set aside may still be there.
    are_left: bool,
    faults: u64,
}

#[derive(Drop)]
pub(crate) struct ListedFile {
    name: Name,
    size: u64,
}

/// A file that was written to lately.
#[derive(Drop)]
struct YoungFile {
    name: Name,
    look: Look,
    rest: Duration,
}

/// What stands in the folder.
#[derive(Drop)]
struct Gathered {
    settled: Vec<ListedFile>,
    young: Vec<YoungFile>,
    /// The entries of the files that are set aside.
    aside: Vec<String>,
}

#[derive(Drop)]
pub(crate) struct SeenFile {
    name: Name,
    /// Before it was read.
    look: Look,
    file: OpenFile,
}

impl<'r, R: Files<File = File> + Alloc + Clock + Sync> InboxFolder<'r, R> {
    /// The inbox over a folder, with no fault.
    pub fn new(rt: &'r R, alloc: Global, folder: Folder<'r>) -> InboxFolder<'r, R>
        ensures { ⟦<InboxFolder<'r, R> as Inbox>⟧.faults result ≡ 0 }
    {
        InboxFolder {
            place: Place { rt, alloc, folder },
            listed: Vec::new(alloc),
            seen: None,
            are_left: true,
            faults: 0,
        }
    }
}

impl<'r, R: Files<File = File> + Alloc + Clock + Sync> Inbox for InboxFolder<'r, R> {
    ghost tells = { false };

    ghost left = { λ _. [] };

    ghost faults = { λ inbox. inbox.faults };

    ghost left_ascends = { λ _. told_by_none };

    fn list(&mut self, names: &mut Vec<Name>) -> Result<(), WorldError> {
        self.seen = None;
        self.listed.clear();
        self.are_left = true;
        match list_names(&self.place, &mut self.listed, &mut self.are_left, names) {
            Ok(()) => Ok(()),
            Err(error) => {
                names.clear();
                self.listed.clear();
                counted_world(&mut self.faults, Err(error))
            }
        }
    }

    fn size(&mut self, name: &Name) -> Result<u64, Failed> {
        let answer = match take_listed(&mut self.listed, name) {
            Some(size) => Ok(size),
            None => size_at(&self.place, &self.seen, name),
        };
        counted(&mut self.faults, answer)
    }

    fn read(&mut self, name: &Name, into: &mut Vec<u8>) -> Result<(), WorldError> {
        self.listed = Vec::new(self.place.alloc);
        let answer = read_whole(&self.place, &mut self.seen, name, into);
        counted_world(&mut self.faults, answer)
    }

    fn remove(&mut self, name: &Name) -> Result<(), Failed> {
        self.listed = Vec::new(self.place.alloc);
        let answer = remove(&self.place, &mut self.seen, &mut self.are_left, name);
        counted(&mut self.faults, answer)
    }
}

fn counted_world(faults: &mut u64, answer: io::Result<()>) -> Result<(), WorldError>
    ensures cause { CountsFaults faults.old faults.new (IsErrOf result WorldError.Failed) }
    ensures same { OnOk result (IsOk answer) }
{
    match answer {
        Err(error) if is_out_of_memory(&error) => Err(WorldError::Memory),
        other => counted(faults, other).map_err(|_| WorldError::Failed),
    }
}

fn list_names<R: Files<File = File> + Alloc + Clock>(
    place: &Place<'_, R>,
    listed: &mut Vec<ListedFile>,
    are_left: &mut bool,
    names: &mut Vec<Name>,
) -> io::Result<()>
    requires { names.old.items ≡ [] }
    ensures ascending { OnOk result (IsAscending names.new.items) }
{
    let mut found = gather(place)?;
    if !found.aside.is_empty() {
        give_all_back(place, found.aside.as_slice())?;
        found = gather(place)?;
    }
    *are_left = !found.aside.is_empty();
    *listed = found.settled;
    let_settle(place, found.young, listed)?;
    listed.sort_unstable_by(|a: &ListedFile, b: &ListedFile| a.name.text().cmp(b.name.text()));
    keep_ascending(listed.as_slice(), names)?;
    listed.reverse();
    Ok(())
}

/// The regular files of the folder.
fn gather<R: Files<File = File> + Alloc + Clock>(place: &Place<'_, R>) -> io::Result<Gathered> {
    let mut gathered = Gathered {
        settled: Vec::new(place.alloc),
        young: Vec::new(place.alloc),
        aside: Vec::new(place.alloc),
    };
    for entry in fs::read_dir(&place.rt, place.path()?)? {
        let entry = entry?;
        if let Entry::File(found) = entry_at(place.rt, entry.path())? {
            if name_before(entry.file_name()).is_some() {
                let name = String::from_str(place.alloc, entry.file_name())?;
                gathered.aside.push(name)?;
            } else if let Some(name) = read_name(place.alloc, entry.file_name())? {
                add_file(place.rt, &mut gathered, name, &found)?;
            }
        }
    }
    Ok(gathered)
}

fn add_file<R: Clock>(
    rt: &R,
    gathered: &mut Gathered,
    name: Name,
    found: &Metadata,
) -> io::Result<()> {
    match time_to_settle(rt, found) {
        Some(rest) => {
            let look = Look::at(found);
            gathered.young.push(YoungFile { name, look, rest })?;
        }
        None => {
            let size = found.len();
            gathered.settled.push(ListedFile { name, size })?;
        }
    }
    Ok(())
}

/// Waits until the youngest of these files is old enough, and lists those to which nobody wrote meanwhile.
fn let_settle<R: Files + Clock>(
    place: &Place<'_, R>,
    young: Vec<YoungFile>,
    listed: &mut Vec<ListedFile>,
) -> io::Result<()> {
    let Some(rest) = young.iter().map(|file| file.rest).max() else {
        return Ok(());
    };
    thread::sleep(place.rt, rest);
    for file in young {
        let path = place.entry(file.name.text())?;
        if let Entry::File(found) = entry_at(place.rt, path.as_str())? {
            if is_settled(place.rt, &file.look, &found) {
                let (name, size) = (file.name, found.len());
                listed.push(ListedFile { name, size })?;
            }
        }
    }
    Ok(())
}

/// Gives each of these entries its name back where nothing else has it.
fn give_all_back<R: Files<File = File>>(
    place: &Place<'_, R>,
    entries: &[String],
) -> io::Result<()> {
    for entry in entries {
        if let Some(name) = name_before(entry.as_str()) {
            let aside = place.entry(entry.as_str())?;
            let path = place.entry(name)?;
            give_back(place.rt, aside.as_str(), path.as_str())?;
        }
    }
    Ok(())
}

fn read_name(alloc: Global, text: &str) -> io::Result<Option<Name>> {
    match Name::read(alloc, text) {
        Ok(name) => Ok(Some(name)),
        Err(NameError::BadName) => Ok(None),
        Err(NameError::Memory) => Err(ErrorKind::OutOfMemory.into()),
    }
}

/// Hands out each name that comes after the last one: a folder has each once.
fn keep_ascending(listed: &[ListedFile], names: &mut Vec<Name>) -> io::Result<()>
    requires { names.old.items ≡ [] }
    ensures { OnOk result (IsAscending names.new.items) }
{
    for file in listed {
        if follows(names, &file.name) {
            names.push(file.name.clone()?)?;
        }
    }
    Ok(())
}

fn follows(names: &Vec<Name>, name: &Name) -> bool
    ensures { IsTrue result → IsAscending names.now.items → IsAscending (names.now.items ++ name.now ∷ []) }
{
    match names.as_slice().split_last() {
        Some((last, _)) => last.text().cmp(name.text()).is_lt(),
        None => true,
    }
}

/// The size that the listing saw, where the file is the next one whose size wasn't asked.
fn take_listed(listed: &mut Vec<ListedFile>, name: &Name) -> Option<u64> {
    if listed.last()?.name == *name {
        listed.pop().map(|file| file.size)
    } else {
        None
    }
}

/// The size of a file, which isn't opened for that. The file that was read last has to be as it was then.
fn size_at<R: Files>(
    place: &Place<'_, R>,
    seen: &Option<SeenFile>,
    name: &Name,
) -> io::Result<u64> {
    let path = place.entry(name.text())?;
    let found = found_at(place.rt, path.as_str())?;
    match seen {
        Some(last) if last.name == *name && last.look != Look::at(&found) => {
            Err(ErrorKind::ResourceBusy.into())
        }
        _ => Ok(found.len()),
    }
}

/// What the system tells of the regular file at a path.
fn found_at<R: Files>(rt: &R, path: &str) -> io::Result<Metadata> {
    match entry_at(rt, path)? {
        Entry::File(found) => Ok(found),
        Entry::Nothing => Err(ErrorKind::NotFound.into()),
        Entry::Folder(_) | Entry::Other => Err(ErrorKind::Unsupported.into()),
    }
}

/// What the system tells of the file at a path. One that was written to lately is waited for; where somebody goes on
/// writing to it, that is a failure.
fn settled_at<R: Files + Clock>(rt: &R, path: &str) -> io::Result<Metadata> {
    let found = found_at(rt, path)?;
    let Some(rest) = time_to_settle(rt, &found) else {
        return Ok(found);
    };
    thread::sleep(rt, rest);
    let again = found_at(rt, path)?;
    if is_settled(rt, &Look::at(&found), &again) {
        Ok(again)
    } else {
        Err(ErrorKind::ResourceBusy.into())
    }
}

/// The file, open, as it is before it is read: the one that was read last, where it still stands under its name. Another
/// one is opened only where the system would let it go.
fn open_at<R: Files<File = File> + Clock>(
    place: &Place<'_, R>,
    name: &Name,
    last: Option<SeenFile>,
) -> io::Result<(Look, OpenFile)> {
    let path = place.entry(name.text())?;
    let found = settled_at(place.rt, path.as_str())?;
    let look = Look::at(&found);
    if let Some(file) = still_open(last, &look) {
        return Ok((look, file.of_size(found.len())));
    }
    may_go(place.rt, path.as_str())?;
    let file = open_named(place.rt, path.as_str(), &for_reading(), &found)?;
    Ok((look, file))
}

/// The file that was read last, where it is the one that was looked at.
fn still_open(last: Option<SeenFile>, now: &Look) -> Option<OpenFile> {
    let SeenFile {
        name: _name,
        look,
        file,
    } = last?;
    if look.id == now.id { Some(file) } else { None }
}

/// Takes the file out where it was read last.
fn take_seen(seen: &mut Option<SeenFile>, name: &Name) -> Option<SeenFile> {
    let last = seen.take()?;
    if last.name == *name { Some(last) } else { None }
}

fn read_whole<R: Files<File = File> + Clock>(
    place: &Place<'_, R>,
    seen: &mut Option<SeenFile>,
    name: &Name,
    into: &mut Vec<u8>,
) -> io::Result<()>
    requires { into.old.items ≡ [] }
    ensures { OnOk result (length into.new.items ≤ CONTENT_MAX) }
{
    let last = take_seen(seen, name);
    let (look, mut file) = open_at(place, name, last)?;
    let size = file.size()?;
    if size > CONTENT_MAX {
        return Err(ErrorKind::FileTooLarge.into());
    }
    into.resize(size as usize + 1, 0)?;
    let count = read_once(&file, into.as_mut_slice())?;
    into.truncate(size as usize);
    if count as u64 != size {
        file.read(0, into.as_mut_slice())?;
        ends_at(&file, size)?;
    }
    let name = name.clone()?;
    *seen = Some(SeenFile { name, look, file });
    Ok(())
}

// One read of a byte more than there should be gives all of them, and tells that it is all.
fn read_once(file: &OpenFile, into: &mut [u8]) -> io::Result<usize> {
    match file.file.read_at(into, 0) {
        // Nothing was read.
        Err(error) if error.kind() == ErrorKind::Interrupted => Ok(0),
        read => read,
    }
}

// A file that grew since it was looked at is still being written.
fn ends_at(file: &OpenFile, size: u64) -> io::Result<()> {
    match file.read(size, &mut [0]) {
        Ok(()) => Err(ErrorKind::ResourceBusy.into()),
        Err(error) if error.kind() == ErrorKind::UnexpectedEof => Ok(()),
        Err(error) => Err(error),
    }
}

// The folder isn't synced, which would cost a sync for each file. A removal that a stop takes back
// makes the file be taken in a second time, which is allowed: it is never lost.
fn remove<R: Files<File = File>>(
    place: &Place<'_, R>,
    seen: &mut Option<SeenFile>,
    are_left: &mut bool,
    name: &Name,
) -> io::Result<()> {
    match take_seen(seen, name) {
        // It stays open until it is gone.
        Some(last) => take_away(place, are_left, name, &last.look),
        None => Err(ErrorKind::InvalidInput.into()),
    }
}
