//! The files of a store that stand in its folder.
use crate::folder::{Entry, Place, entry_at};
use crate::numbered::{is_no_text, store_name, text_of};
use crate::open_file::{OpenFile, for_both_ways, for_reading, open_file};
use crate::open_files::OpenFiles;
use disk_trait::FileName;
use std::fs::{self, File, OpenOptions};
use std::io::{self, ErrorKind};
use std::rt::Files;

pub(crate) fn path_of<R>(place: &Place<'_, R>, name: FileName) -> io::Result<String> {
    let text = text_of(place.alloc, name)?;
    place.entry(text.as_str())
}

/// Each file of the store that stands in the folder, empty ones too.
pub(crate) fn names_in<R: Files<File = File> + Alloc>(
    place: &Place<'_, R>,
) -> io::Result<Vec<FileName>> {
    let mut names = Vec::new(place.alloc);
    if place.is_absent() {
        return Ok(names);
    }
    for entry in fs::read_dir(&place.rt, place.path()?)? {
        match entry {
            Ok(entry) => {
                if let Some(name) = store_name(entry.file_name()) {
                    names.push(name)?;
                }
            }
            Err(error) if is_no_text(&error) => {}
            Err(error) => return Err(error),
        }
    }
    Ok(names)
}

/// The size of a file that isn't open; 0 where it is absent.
pub(crate) fn standing_size<R: Files<File = File>>(
    place: &Place<'_, R>,
    name: FileName,
) -> io::Result<u64> {
    if place.is_absent() {
        return Ok(0);
    }
    match entry_at(place.rt, path_of(place, name)?.as_str())? {
        Entry::Nothing => Ok(0),
        Entry::File(found) => Ok(found.len()),
        Entry::Folder(_) | Entry::Other => Err(ErrorKind::Unsupported.into()),
    }
}

/// The file, taken out of the open ones or opened; `None` where it is absent.
pub(crate) fn take_file<R: Files<File = File>>(
    place: &Place<'_, R>,
    open: &mut OpenFiles,
    name: FileName,
) -> io::Result<Option<OpenFile>> {
    take_or_open(place, open, name, &for_both_ways())
}

/// The same for who only reads.
pub(crate) fn take_to_read<R: Files<File = File>>(
    place: &Place<'_, R>,
    open: &mut OpenFiles,
    name: FileName,
) -> io::Result<Option<OpenFile>> {
    if place.is_absent() {
        return Ok(None);
    }
    take_or_open(place, open, name, &for_reading())
}

fn take_or_open<R: Files<File = File>>(
    place: &Place<'_, R>,
    open: &mut OpenFiles,
    name: FileName,
    how: &OpenOptions,
) -> io::Result<Option<OpenFile>> {
    match open.take(name) {
        Some(file) => Ok(Some(file)),
        None => open_file(place.rt, path_of(place, name)?.as_str(), how),
    }
}
