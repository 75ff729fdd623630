//! Folders, and what stands in them.
ghost use Rattle.std.specs.Prelude.{◌≡◌, ◌⊎◌};

use std::alloc::Global;
use std::fs::{self, File, Metadata};
use std::io::{self, ErrorKind};
use std::path::AsPath;
use std::rt::Files;

/// What a device stands on.
#[derive(Clone, Copy)]
pub enum Folder<'p> {
    /// The folder at this path.
    At(&'p str),
    /// No folder, since none was made yet: a device that only reads finds nothing there.
    Absent,
    /// No folder: each call of a device on it fails.
    Missing,
}

/// A device's folder, and what its calls ask the system and take memory with.
#[derive(Drop)]
pub(crate) struct Place<'r, R> {
    pub(crate) rt: &'r R,
    pub(crate) alloc: Global,
    pub(crate) folder: Folder<'r>,
}

/// What stands under a path, with no link followed at its end.
#[derive(Drop)]
pub(crate) enum Entry {
    Nothing,
    File(Metadata),
    Folder(Metadata),
    Other,
}

/// Makes the folder where nothing stands under the path, and sees to it that a stop leaves it there.
/// `Missing` where something else stands there, or where the system refuses to make or to sync it.
pub fn make_folder<'p, R: Files<File = File>>(rt: &R, path: &'p str) -> Folder<'p>
    ensures { (result ≡ Folder.Missing) ⊎ (result ≡ Folder.At path.entry) }
{
    match make(rt, path) {
        Ok(()) => Folder::At(path),
        Err(_) => Folder::Missing,
    }
}

/// The folder at a path, for who only reads there. `Absent` where nothing stands there.
pub fn folder_to_read<'p, R: Files<File = File>>(rt: &R, path: &'p str) -> Folder<'p>
    ensures { (result ≡ Folder.Absent) ⊎ (result ≡ Folder.At path.entry) }
{
    match fs::metadata(rt, path) {
        Err(error) if error.kind() == ErrorKind::NotFound => Folder::Absent,
        _ => Folder::At(path),
    }
}

fn make<R: Files<File = File>>(rt: &R, path: &str) -> io::Result<()> {
    match fs::create_dir(rt, path) {
        Err(error) if error.kind() == ErrorKind::AlreadyExists => {
            if !fs::metadata(rt, path)?.is_dir() {
                return Err(error);
            }
        }
        made => made?,
    }
    // Also where it stood: who made it may have been killed before it was synced.
    open_folder(rt, parent_of(path))?.sync_all()
}

pub(crate) fn parent_of(path: &str) -> &str {
    match path.trim_end_matches('/').rsplit_once('/') {
        Some(("", _)) => "/",
        Some((parent, _)) => parent,
        None => ".",
    }
}

/// Opens a folder, whose sync makes durable which entries stand in it.
pub(crate) fn open_folder<R: Files<File = File>>(rt: &R, path: &str) -> io::Result<File> {
    if fs::metadata(rt, path)?.is_dir() {
        File::open(rt, path)
    } else {
        Err(ErrorKind::NotADirectory.into())
    }
}

impl<'r, R> Place<'r, R> {
    pub(crate) fn path(&self) -> io::Result<&'r str> {
        match self.folder {
            Folder::At(path) => Ok(path),
            Folder::Absent | Folder::Missing => Err(ErrorKind::NotFound.into()),
        }
    }

    /// Whether no folder was made yet.
    pub(crate) fn is_absent(&self) -> bool {
        matches!(self.folder, Folder::Absent)
    }

    /// The path of an entry.
    pub(crate) fn entry(&self, name: &str) -> io::Result<String> {
        let path = self.path()?;
        Ok(format!(in self.alloc; "{path}/{name}")?)
    }
}

pub(crate) fn entry_at<R: Files, P: AsPath>(rt: &R, path: P) -> io::Result<Entry> {
    match fs::symlink_metadata(rt, path) {
        Ok(found) if found.is_file() => Ok(Entry::File(found)),
        Ok(found) if found.is_dir() => Ok(Entry::Folder(found)),
        Ok(_) => Ok(Entry::Other),
        Err(error) if error.kind() == ErrorKind::NotFound => Ok(Entry::Nothing),
        Err(error) => Err(error),
    }
}
