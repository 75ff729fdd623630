//! Files and folders that are open.
use crate::folder::{Entry, entry_at};
use std::fs::{File, Metadata, OpenOptions};
use std::io::{self, ErrorKind};
use std::os::fd::AsRawFd;
use std::os::unix::fs::{FileExt, MetadataExt};
use std::rt::Files;

/// Which file or folder it is. As long as it is open, no other one has its id.
#[derive(Clone, Copy, PartialEq, Eq)]
pub(crate) struct FileId {
    device: u64,
    inode: u64,
}

impl FileId {
    pub(crate) fn of(found: &Metadata) -> FileId {
        FileId {
            device: found.dev(),
            inode: found.ino(),
        }
    }
}

/// What the system told of a file at a look: which one it is, its size, and when it was last written to.
#[derive(Clone, Copy, PartialEq, Eq)]
pub(crate) struct Look {
    pub(crate) id: FileId,
    size: u64,
    written_second: i64,
    written_nanosecond: i64,
}

impl Look {
    pub(crate) fn at(found: &Metadata) -> Look {
        Look {
            id: FileId::of(found),
            size: found.len(),
            written_second: found.mtime(),
            written_nanosecond: found.mtime_nsec(),
        }
    }
}

/// An open file and its size, which nobody else changes. Where a change of it failed, the size isn't
/// known until the system is asked again.
#[derive(Drop)]
pub(crate) struct OpenFile {
    pub(crate) file: File,
    size: Option<u64>,
}

impl OpenFile {
    /// The file with the size that the system told just now.
    pub(crate) fn of_size(self, size: u64) -> OpenFile {
        OpenFile {
            file: self.file,
            size: Some(size),
        }
    }

    pub(crate) fn size(&mut self) -> io::Result<u64> {
        let size = match self.size {
            Some(size) => size,
            None => self.file.metadata()?.len(),
        };
        self.size = Some(size);
        Ok(size)
    }

    /// Fills `into` with the bytes from `at` on.
    pub(crate) fn read(&self, at: u64, into: &mut [u8]) -> io::Result<()> {
        self.file.read_exact_at(into, at)
    }

    /// Writes over what is there, and past the end.
    pub(crate) fn write(&mut self, at: u64, bytes: &[u8]) -> io::Result<()> {
        let end = self.size()?.max(at.saturating_add(bytes.len() as u64));
        self.size = None;
        self.file.write_all_at(bytes, at)?;
        self.size = Some(end);
        Ok(())
    }

    pub(crate) fn cut(&mut self, size: u64) -> io::Result<()> {
        self.size = None;
        self.file.set_len(size)?;
        self.size = Some(size);
        Ok(())
    }
}

/// Opens the file at a path; `None` where nothing stands there. Fails where anything but a regular
/// file does: no link is followed, and a pipe is never waited for.
pub(crate) fn open_file<R: Files<File = File>>(
    rt: &R,
    path: &str,
    how: &OpenOptions,
) -> io::Result<Option<OpenFile>> {
    match entry_at(rt, path)? {
        Entry::Nothing => Ok(None),
        Entry::File(named) => Ok(Some(open_named(rt, path, how, &named)?)),
        Entry::Folder(_) | Entry::Other => Err(ErrorKind::Unsupported.into()),
    }
}

/// Opens the file that was found at a path. What is open has to be what stood there: a link may have
/// taken its place since.
pub(crate) fn open_named<R: Files<File = File>>(
    rt: &R,
    path: &str,
    how: &OpenOptions,
    named: &Metadata,
) -> io::Result<OpenFile> {
    let file = off_the_streams(how.open(rt, path)?)?;
    let found = file.metadata()?;
    if found.is_file() && FileId::of(&found) == FileId::of(named) {
        let size = Some(found.len());
        Ok(OpenFile { file, size })
    } else {
        Err(ErrorKind::Unsupported.into())
    }
}

/// Makes a file where nothing stands, open for reading and writing.
pub(crate) fn create_file<R: Files<File = File>>(rt: &R, path: &str) -> io::Result<OpenFile> {
    let file = off_the_streams(File::create_new(rt, path)?)?;
    let size = Some(0);
    Ok(OpenFile { file, size })
}

// Where a standard stream was closed, what is printed must not land in a file of ours.
fn off_the_streams(file: File) -> io::Result<File> {
    if file.as_raw_fd() <= 2 {
        file.try_clone()
    } else {
        Ok(file)
    }
}

/// A folder that stays open.
#[derive(Drop)]
pub(crate) struct OpenFolder {
    id: FileId,
    file: File,
}

impl OpenFolder {
    pub(crate) fn at<R: Files<File = File>>(rt: &R, path: &str) -> io::Result<OpenFolder> {
        let file = off_the_streams(File::open(rt, path)?)?;
        let id = FileId::of(&file.metadata()?);
        Ok(OpenFolder { id, file })
    }

    /// Whether it is the one that the system told of.
    pub(crate) fn is(&self, found: &Metadata) -> bool {
        FileId::of(found) == self.id
    }

    /// Syncs which entries stand in it.
    pub(crate) fn sync(&self) -> io::Result<()> {
        self.file.sync_all()
    }
}

pub(crate) fn for_reading() -> OpenOptions {
    let mut how = OpenOptions::new();
    how.read(true);
    how
}

pub(crate) fn for_both_ways() -> OpenOptions {
    let mut how = OpenOptions::new();
    how.read(true).write(true);
    how
}
