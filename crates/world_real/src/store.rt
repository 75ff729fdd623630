//! A store's files in a folder.
ghost use Rattle.std.specs.Prelude.{◌≡◌, ◌+◌, ◌-◌, ◌^◌, ◌<◌, ◌≤◌, false, [], length, IsTrue, OnOk, IsErr};
ghost use Rattle.std.specs.List.Sorted.{IsStrictlyIncreasing};
ghost use Rattle.disk_trait.specs.Images.{next_moment};
ghost use Rattle.world_real.specs.Untold.{told_by_none, left_by_none};

use crate::faults::{counted, is_out_of_memory};
use crate::folder::{Folder, Place};
use crate::lock::{Access, Lock};
use crate::open_file::{OpenFile, create_file};
use crate::open_files::OpenFiles;
use crate::pending::Pending;
use crate::standing::{names_in, path_of, standing_size, take_file, take_to_read};
use crate::sync::sync_pending;
use crate::written::{Written, give_once, is_content};
use disk_trait::{Disk, DiskError, Failed, FileKind, FileName};
use std::alloc::Global;
use std::fs::{self, File};
use std::io::{self, ErrorKind};
use std::rt::{Clock, Files};

/// The files of a store in a folder, each under its kind, a dash and its number, as `log-1`.
///
/// Other entries don't count. One process has a store at a time, or several that only read have it: any other one
/// has each of its calls fail, and touches nothing. After a sync that the system refused each later one fails
/// too, and the first one of the next process writes all files anew.
#[derive(Drop)]
pub struct StoreFolder<'r, R> {
    place: Place<'r, R>,
    files: StoreFiles,
    faults: u64,
}

#[derive(Drop)]
pub(crate) struct StoreFiles {
    access: Access,
    lock: Lock,
    open: OpenFiles,
    pending: Pending,
    /// Nothing behind a cut, or a write or a sync that failed.
    written: Option<Written>,
    moment: u64,
}

impl<'r, R: Files<File = File> + Alloc + Clock + Sync> StoreFolder<'r, R> {
    /// The files of the store in a folder, at moment 0, with no fault. The first call takes the lock, and
    /// keeps it as long as this stands. Where only queries have the store, it waits for their end, at most half a minute.
    pub fn new(rt: &'r R, alloc: Global, folder: Folder<'r>) -> StoreFolder<'r, R>
        ensures moment { ⟦<StoreFolder<'r, R> as Disk>⟧.moment result ≡ 0 }
        ensures faults { ⟦<StoreFolder<'r, R> as Disk>⟧.faults result ≡ 0 }
    {
        StoreFolder::with_access(rt, alloc, folder, Access::Alone)
    }

    /// The same for a query, which shares the lock with other queries. A call that would change or sync something fails,
    /// and an absent folder has no files.
    pub fn to_read(rt: &'r R, alloc: Global, folder: Folder<'r>) -> StoreFolder<'r, R>
        ensures moment { ⟦<StoreFolder<'r, R> as Disk>⟧.moment result ≡ 0 }
        ensures faults { ⟦<StoreFolder<'r, R> as Disk>⟧.faults result ≡ 0 }
    {
        StoreFolder::with_access(rt, alloc, folder, Access::Shared)
    }

    fn with_access(
        rt: &'r R,
        alloc: Global,
        folder: Folder<'r>,
        access: Access,
    ) -> StoreFolder<'r, R>
        ensures moment { ⟦<StoreFolder<'r, R> as Disk>⟧.moment result ≡ 0 }
        ensures faults { ⟦<StoreFolder<'r, R> as Disk>⟧.faults result ≡ 0 }
    {
        StoreFolder {
            place: Place { rt, alloc, folder },
            files: StoreFiles {
                access,
                lock: Lock::Untried,
                open: OpenFiles::new(alloc),
                pending: Pending::Everything,
                written: None,
                moment: 0,
            },
            faults: 0,
        }
    }
}

impl<'r, R: Files<File = File> + Alloc + Clock + Sync> Disk for StoreFolder<'r, R> {
    ghost tells = { false };

    ghost held = { λ _ _. [] };

    ghost images = { λ _ _ _. ⊥ };

    ghost moment = { λ store. store.files.moment };

    ghost faults = { λ store. store.faults };

    ghost held_is_left = { λ _. told_by_none };

    ghost left_is_told = { λ _ _ _. left_by_none };

    ghost images_end = { λ _ _ _ _. left_by_none };

    fn files(&mut self, kind: FileKind, list: &mut Vec<u64>) -> Result<(), DiskError> {
        match list_numbers(&self.place, &mut self.files, kind, list) {
            Ok(()) => Ok(()),
            Err(error) => {
                list.clear();
                if is_out_of_memory(&error) {
                    return Err(DiskError::Memory);
                }
                counted(&mut self.faults, Err(error)).map_err(|_| DiskError::Failed)
            }
        }
    }

    fn size(&mut self, file: FileName) -> Result<u64, Failed> {
        let answer = size_of(&self.place, &mut self.files, file);
        counted(&mut self.faults, answer)
    }

    fn read(&mut self, file: FileName, at: u64, into: &mut [u8]) -> Result<(), Failed> {
        let answer = read_at(&self.place, &mut self.files, file, at, into);
        counted(&mut self.faults, answer)
    }

    fn write(&mut self, file: FileName, at: u64, bytes: &[u8]) -> Result<(), Failed> {
        let answer = write_at(&self.place, &mut self.files, file, at, bytes);
        counted(&mut self.faults, answer)
    }

    fn cut(&mut self, file: FileName, size: u64) -> Result<(), Failed> {
        let answer = cut_to(&self.place, &mut self.files, file, size);
        counted(&mut self.faults, answer)
    }

    fn sync(&mut self) -> Result<(), Failed> {
        let answer = sync_files(&self.place, &mut self.files);
        counted(&mut self.faults, answer)
    }

    fn moment(&self) -> u64 {
        self.files.moment
    }
}

fn list_numbers<R: Files<File = File> + Alloc + Clock>(
    place: &Place<'_, R>,
    files: &mut StoreFiles,
    kind: FileKind,
    list: &mut Vec<u64>,
) -> io::Result<()>
    ensures ascending { OnOk result (IsStrictlyIncreasing list.new.items) }
    ensures moment { files.new.moment ≡ files.old.moment }
{
    files.lock.hold(place, files.access)?;
    push_numbers(place, &mut files.open, &files.pending, kind, list)?;
    list.sort_unstable();
    list.dedup();
    Ok(())
}

fn push_numbers<R: Files<File = File> + Alloc>(
    place: &Place<'_, R>,
    open: &mut OpenFiles,
    pending: &Pending,
    kind: FileKind,
    list: &mut Vec<u64>,
) -> io::Result<()> {
    for name in names_in(place)? {
        if name.kind == kind && stored_size(place, open, pending, name)? > 0 {
            list.push(name.number)?;
        }
    }
    Ok(())
}

/// The size of a file; 0 where it is absent.
fn stored_size<R: Files<File = File>>(
    place: &Place<'_, R>,
    open: &mut OpenFiles,
    pending: &Pending,
    name: FileName,
) -> io::Result<u64> {
    let Some(mut file) = open.take(name) else {
        return standing_size(place, name);
    };
    let answer = file.size();
    open.put(name, file, pending);
    answer
}

fn size_of<R: Files<File = File> + Clock>(
    place: &Place<'_, R>,
    files: &mut StoreFiles,
    name: FileName,
) -> io::Result<u64>
    ensures moment { files.new.moment ≡ files.old.moment }
{
    files.lock.hold(place, files.access)?;
    stored_size(place, &mut files.open, &files.pending, name)
}

fn read_at<R: Files<File = File> + Clock>(
    place: &Place<'_, R>,
    files: &mut StoreFiles,
    name: FileName,
    at: u64,
    into: &mut [u8],
) -> io::Result<()>
    ensures moment { files.new.moment ≡ files.old.moment }
{
    files.lock.hold(place, files.access)?;
    if give_once(&mut files.written, name, at, into) {
        return Ok(());
    }
    let Some(mut file) = file_to_read(place, files, name)? else {
        return is_within(into.is_empty() && at == 0);
    };
    let answer = read_from(&mut file, at, into);
    files.open.put(name, file, &files.pending);
    answer
}

fn file_to_read<R: Files<File = File>>(
    place: &Place<'_, R>,
    files: &mut StoreFiles,
    name: FileName,
) -> io::Result<Option<OpenFile>>
    ensures moment { files.new.moment ≡ files.old.moment }
{
    match files.access {
        Access::Alone => take_file(place, &mut files.open, name),
        Access::Shared => take_to_read(place, &mut files.open, name),
    }
}

/// Takes the lock for a call that changes or syncs something. Who only reads makes none.
fn hold_alone<R: Files<File = File> + Clock>(
    place: &Place<'_, R>,
    files: &mut StoreFiles,
) -> io::Result<()>
    ensures moment { files.new.moment ≡ files.old.moment }
{
    match files.access {
        Access::Alone => files.lock.hold(place, Access::Alone),
        Access::Shared => Err(ErrorKind::PermissionDenied.into()),
    }
}

fn read_from(file: &mut OpenFile, at: u64, into: &mut [u8]) -> io::Result<()> {
    is_within(at <= file.size()?)?;
    file.read(at, into)
}

// What the caller of a disk owes, and what this one can't rely on.
fn is_within(holds: bool) -> io::Result<()>
    ensures { OnOk result (IsTrue holds) }
{
    if holds {
        Ok(())
    } else {
        Err(ErrorKind::InvalidInput.into())
    }
}

/// Counts a call that changes something. There is none after the last moment.
fn count_moment(moment: &mut u64) -> io::Result<()>
    ensures next { moment.new ≡ next_moment moment.old }
    ensures later { moment.old ≤ moment.new }
    ensures last { moment.old ≡ 2 ^ 64 - 1 → IsErr result }
{
    if *moment == u64::MAX {
        return Err(ErrorKind::QuotaExceeded.into());
    }
    *moment += 1;
    Ok(())
}

fn write_at<R: Files<File = File> + Clock>(
    place: &Place<'_, R>,
    files: &mut StoreFiles,
    name: FileName,
    at: u64,
    bytes: &[u8],
) -> io::Result<()>
    ensures fits { OnOk result (at + length bytes.now < 2 ^ 64) }
    ensures moment { files.new.moment ≡ next_moment files.old.moment }
    ensures later { files.old.moment ≤ files.new.moment }
    ensures last { files.old.moment ≡ 2 ^ 64 - 1 → IsErr result }
{
    count_moment(&mut files.moment)?;
    let last = files.written.take();
    is_within(at.checked_add(bytes.len() as u64).is_some())?;
    hold_alone(place, files)?;
    let mut file = match take_file(place, &mut files.open, name)? {
        Some(file) => file,
        None => {
            is_within(at == 0)?;
            if bytes.is_empty() {
                return Ok(());
            }
            files.pending.touch_entries();
            create_file(place.rt, path_of(place, name)?.as_str())?
        }
    };
    let answer = write_into(&mut file, name, at, bytes, &mut files.pending);
    files.open.put(name, file, &files.pending);
    answer?;
    files.written = if is_content(name) {
        Written::copy(place.alloc, name, at, bytes)
    } else {
        last
    };
    Ok(())
}

fn write_into(
    file: &mut OpenFile,
    name: FileName,
    at: u64,
    bytes: &[u8],
    pending: &mut Pending,
) -> io::Result<()> {
    is_within(at <= file.size()?)?;
    if bytes.is_empty() {
        return Ok(());
    }
    pending.touch(name)?;
    file.write(at, bytes)
}

fn cut_to<R: Files<File = File> + Clock>(
    place: &Place<'_, R>,
    files: &mut StoreFiles,
    name: FileName,
    size: u64,
) -> io::Result<()>
    ensures moment { files.new.moment ≡ next_moment files.old.moment }
    ensures later { files.old.moment ≤ files.new.moment }
    ensures last { files.old.moment ≡ 2 ^ 64 - 1 → IsErr result }
{
    count_moment(&mut files.moment)?;
    files.written = None;
    hold_alone(place, files)?;
    let Some(mut file) = take_file(place, &mut files.open, name)? else {
        return is_within(size == 0);
    };
    if size == 0 {
        drop(file);
        files.pending.touch_entries();
        fs::remove_file(place.rt, path_of(place, name)?.as_str())?;
        files.pending.forget(name);
        return Ok(());
    }
    let answer = shorten(&mut file, name, size, &mut files.pending);
    files.open.put(name, file, &files.pending);
    answer
}

fn shorten(
    file: &mut OpenFile,
    name: FileName,
    size: u64,
    pending: &mut Pending,
) -> io::Result<()> {
    let before = file.size()?;
    is_within(size <= before)?;
    if size == before {
        return Ok(());
    }
    pending.touch(name)?;
    file.cut(size)
}

fn sync_files<R: Files<File = File> + Alloc + Clock>(
    place: &Place<'_, R>,
    files: &mut StoreFiles,
) -> io::Result<()>
    ensures moment { files.new.moment ≡ next_moment files.old.moment }
    ensures later { files.old.moment ≤ files.new.moment }
    ensures last { files.old.moment ≡ 2 ^ 64 - 1 → IsErr result }
{
    count_moment(&mut files.moment)?;
    let last = files.written.take();
    hold_alone(place, files)?;
    sync_pending(place, &files.lock, &mut files.open, &mut files.pending)?;
    files.written = last;
    Ok(())
}
