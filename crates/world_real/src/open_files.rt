//! The files of a store that stay open between calls.
use crate::open_file::OpenFile;
use crate::pending::Pending;
use disk_trait::FileName;
use std::alloc::Global;

const MOST_OPEN: usize = 64;

/// Open files, the one used longest ago first.
#[derive(Drop)]
pub(crate) struct OpenFiles {
    files: Vec<UsedFile>,
}

#[derive(Drop)]
struct UsedFile {
    name: FileName,
    file: OpenFile,
}

impl OpenFiles {
    pub(crate) fn new(alloc: Global) -> OpenFiles {
        OpenFiles {
            files: Vec::new(alloc),
        }
    }

    /// Takes a file out, where it is open.
    pub(crate) fn take(&mut self, name: FileName) -> Option<OpenFile> {
        let at = self.files.iter().position(|used| used.name == name)?;
        let UsedFile { name: _, file } = self.files.remove(at);
        Some(file)
    }

    /// Puts back a file that was used just now. Where too many are open, the one with nothing pending
    /// that was used longest ago is closed: a file that is closed with writes pending may lose the
    /// system's word that one of them failed.
    pub(crate) fn put(&mut self, name: FileName, file: OpenFile, pending: &Pending) {
        if self.files.len() >= MOST_OPEN {
            let at = self
                .files
                .iter()
                .position(|used| !pending.has(used.name))
                .unwrap_or(0);
            if at < self.files.len() {
                drop(self.files.remove(at));
            }
        }
        // With no memory for it the file is closed, and opened again where it is needed.
        let _ = self.files.push(UsedFile { name, file });
    }

    pub(crate) fn close_all(&mut self) {
        self.files.clear();
    }
}
