//! The lock by which a run has a store alone, or queries share it, and the mark that a refused sync leaves on it.
use crate::faults::is_out_of_memory;
use crate::folder::Place;
use crate::open_file::{FileId, create_file, for_both_ways, for_reading, open_file};
use std::fs::{self, File, TryLockError};
use std::io::{self, ErrorKind};
use std::os::unix::fs::FileExt;
use std::rt::{Clock, Files};
use std::thread;
use std::time::Duration;

/// The name of the file that each process which has the store holds a lock on. It has one byte.
const LOCK: &str = "lock";

/// How often a run looks whether the queries that it found have ended, and the milliseconds that it waits between.
const LOOKS: u64 = 3_000;

const PAUSE: u64 = 10;

/// The lock's byte as long as the system refused no sync of the store.
const UNMARKED: u8 = 0;

/// The lock's byte once the system refused a sync. It has to last until the system starts again, and so
/// is never synced.
const MARKED: u8 = 1;

/// How a process has a store.
#[derive(Clone, Copy, PartialEq, Eq)]
pub(crate) enum Access {
    /// Alone, to read and to write.
    Alone,
    /// Beside others that only read.
    Shared,
}

#[derive(Drop)]
pub(crate) enum Lock {
    Untried,
    Held(File),
    /// There is no file to lock. So no run has begun in this folder.
    Free,
    Refused,
}

impl Lock {
    /// Takes the lock at the first call. A process that was refused once stays without it.
    pub(crate) fn hold<R: Files<File = File> + Clock>(
        &mut self,
        place: &Place<'_, R>,
        access: Access,
    ) -> io::Result<()> {
        match self {
            Lock::Held(_) | Lock::Free => return Ok(()),
            Lock::Refused => return Err(ErrorKind::WouldBlock.into()),
            Lock::Untried => {}
        }
        match lock_for(place, access) {
            Ok(lock) => {
                *self = lock;
                Ok(())
            }
            Err(error) => {
                if !is_out_of_memory(&error) {
                    *self = Lock::Refused;
                }
                Err(error)
            }
        }
    }

    /// Whether a sync of the store may have been refused.
    pub(crate) fn is_marked(&self) -> io::Result<bool> {
        let mut byte = [MARKED];
        self.held()?.read_at(&mut byte, 0)?;
        Ok(byte != [UNMARKED])
    }

    /// Notes for later processes that the system refused a sync.
    pub(crate) fn mark(&self) -> io::Result<()> {
        self.held()?.write_all_at(&[MARKED], 0)
    }

    /// Notes that all of the store was made durable since.
    pub(crate) fn unmark(&self) -> io::Result<()> {
        self.held()?.write_all_at(&[UNMARKED], 0)
    }

    fn held(&self) -> io::Result<&File> {
        match self {
            Lock::Held(file) => Ok(file),
            Lock::Untried | Lock::Free | Lock::Refused => Err(ErrorKind::WouldBlock.into()),
        }
    }
}

fn lock_for<R: Files<File = File> + Clock>(
    place: &Place<'_, R>,
    access: Access,
) -> io::Result<Lock> {
    match access {
        Access::Alone => Ok(Lock::Held(take_lock(place)?)),
        Access::Shared => share_lock(place),
    }
}

fn take_lock<R: Files<File = File> + Clock>(place: &Place<'_, R>) -> io::Result<File> {
    let path = place.entry(LOCK)?;
    let opened = match open_file(place.rt, path.as_str(), &for_both_ways())? {
        Some(opened) => opened,
        None => create_file(place.rt, path.as_str())?,
    };
    let file = opened.file;
    lock_alone(place.rt, &file)?;
    is_named(place.rt, path.as_str(), &file)?;
    if file.metadata()?.len() == 0 {
        file.write_all_at(&[UNMARKED], 0)?;
    }
    Ok(file)
}

/// Takes the lock alone. Where only queries have it, their end is waited for.
fn lock_alone<R: Clock>(rt: &R, file: &File) -> io::Result<()> {
    for _ in 0..LOOKS {
        match file.try_lock() {
            Err(TryLockError::WouldBlock) if is_shared(file)? => {
                thread::sleep(rt, Duration::from_millis(PAUSE));
            }
            answer => return Ok(answer?),
        }
    }
    Err(ErrorKind::WouldBlock.into())
}

/// Whether those that have the lock share it.
fn is_shared(file: &File) -> io::Result<bool> {
    match file.try_lock_shared() {
        Ok(()) => {
            file.unlock()?;
            Ok(true)
        }
        Err(TryLockError::WouldBlock) => Ok(false),
        Err(error) => Err(error.into()),
    }
}

fn share_lock<R: Files<File = File>>(place: &Place<'_, R>) -> io::Result<Lock> {
    if place.is_absent() {
        return Ok(Lock::Free);
    }
    let path = place.entry(LOCK)?;
    let Some(opened) = open_file(place.rt, path.as_str(), &for_reading())? else {
        return Ok(Lock::Free);
    };
    opened.file.try_lock_shared()?;
    is_named(place.rt, path.as_str(), &opened.file)?;
    Ok(Lock::Held(opened.file))
}

/// A lock on a file that lost its name would keep nobody out.
fn is_named<R: Files<File = File>>(rt: &R, path: &str, file: &File) -> io::Result<()> {
    let (found, named) = (file.metadata()?, fs::symlink_metadata(rt, path)?);
    if FileId::of(&found) == FileId::of(&named) {
        Ok(())
    } else {
        Err(ErrorKind::WouldBlock.into())
    }
}
