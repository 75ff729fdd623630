//! The files of a disk in memory, each beside what it began with.
ghost use Rattle.std.specs.Prelude.{◌≡◌, ℕ, ◌+◌, ◌≤◌, List, [], ◌++◌, length, take, drop, OnOk, OnErr, Bool, true, false, ◌<◌, ◌↔◌, Contains};
ghost use Rattle.std.specs.List.Sorted.{IsStrictlyIncreasing};
ghost use Rattle.disk_trait.specs.Files.{At, Overwritten, named};
ghost use Rattle.disk_trait.specs.MemoryTable.{bytes_of, first_of, has_file};

use crate::{FileKind, FileName};
use std::alloc::{AllocError, Global};
use std::collections::BTreeMap;

#[derive(Drop)]
pub(crate) struct MemoryFile {
    pub(crate) first: Vec<u8>,
    pub(crate) bytes: Vec<u8>,
}

#[derive(Drop)]
pub(crate) struct FileTable {
    pub(crate) files: BTreeMap<FileName, MemoryFile>,
    pub(crate) alloc: Global,
}

impl FileTable {
    pub(crate) fn new(alloc: Global) -> FileTable
        ensures bytes { (f : FileName) → bytes_of result f ≡ [] }
        ensures first { (f : FileName) → first_of result f ≡ [] }
    {
        FileTable {
            files: BTreeMap::new(alloc),
            alloc,
        }
    }

    pub(crate) fn bytes(&self, name: FileName) -> &[u8]
        ensures { result.now ≡ bytes_of self.now name }
    {
        match self.files.get(&name) {
            Some(file) => file.bytes.as_slice(),
            None => &[],
        }
    }

    pub(crate) fn first(&self, name: FileName) -> &[u8]
        ensures { result.now ≡ first_of self.now name }
    {
        match self.files.get(&name) {
            Some(file) => file.first.as_slice(),
            None => &[],
        }
    }

    /// Puts a file in, which begins like that.
    pub(crate) fn put(&mut self, name: FileName, bytes: Vec<u8>) -> Result<(), AllocError>
        ensures bytes { OnOk result (At name (λ _ new. new ≡ bytes.items) (bytes_of self.old) (bytes_of self.new)) }
        ensures first { OnOk result (At name (λ _ new. new ≡ bytes.items) (first_of self.old) (first_of self.new)) }
    {
        let first = Vec::from_slice(self.alloc, bytes.as_slice())?;
        self.files.insert(name, MemoryFile { first, bytes })?;
        Ok(())
    }

    /// Fills an empty list with the numbers of the files of that kind that aren't empty, ascending.
    pub(crate) fn list(&self, kind: FileKind, list: &mut Vec<u64>) -> Result<(), AllocError>
        requires { list.old.items ≡ [] }
        ensures ascending { IsStrictlyIncreasing list.new.items }
        ensures listed { OnOk result
            ((n : ℕ) → Contains list.new.items n ↔ (0 < length (bytes_of self.now (named kind n)))) }
        ensures emptied { OnErr result (list.new.items ≡ []) }
    {
        let filled = self.fill(kind, list);
        if filled.is_err() {
            list.clear();
        }
        filled
    }

    fn fill(&self, kind: FileKind, list: &mut Vec<u64>) -> Result<(), AllocError>
        requires { list.old.items ≡ [] }
        ensures ascending { OnOk result (IsStrictlyIncreasing list.new.items) }
        ensures listed { OnOk result
            ((n : ℕ) → Contains list.new.items n ↔ (0 < length (bytes_of self.now (named kind n)))) }
    {
        for name in self.files.keys() {
            if name.kind == kind && !self.bytes(*name).is_empty() {
                list.push(name.number)?;
            }
        }
        Ok(())
    }

    pub(crate) fn write(
        &mut self,
        name: FileName,
        at: usize,
        bytes: &[u8],
    ) -> Result<(), AllocError>
        requires { at ≤ length (bytes_of self.old name) }
        ensures ok { OnOk result (At name (Overwritten at bytes.now) (bytes_of self.old) (bytes_of self.new)) }
        ensures err { OnErr result ((f : FileName) → bytes_of self.new f ≡ bytes_of self.old f) }
        ensures first { (f : FileName) → first_of self.new f ≡ first_of self.old f }
        ensures had { (f : FileName) → has_file self.new f ≡ false → has_file self.old f ≡ false }
        ensures has { OnOk result (has_file self.new name ≡ true) }
    {
        match self.files.get_mut(&name) {
            Some(file) => overwrite(&mut file.bytes, at, bytes),
            None => {
                let file = MemoryFile {
                    first: Vec::new(self.alloc),
                    bytes: Vec::from_slice(self.alloc, bytes)?,
                };
                self.files.insert(name, file)?;
                Ok(())
            }
        }
    }

    pub(crate) fn cut(&mut self, name: FileName, size: usize)
        requires { size ≤ length (bytes_of self.old name) }
        ensures cut { At name (λ old new. new ≡ take size old) (bytes_of self.old) (bytes_of self.new) }
        ensures first { (f : FileName) → first_of self.new f ≡ first_of self.old f }
        ensures had { (f : FileName) → has_file self.new f ≡ has_file self.old f }
    {
        if let Some(file) = self.files.get_mut(&name) {
            file.bytes.truncate(size);
        }
    }
}

// Grows the file first, since only that may fail.
pub(crate) fn overwrite(file: &mut Vec<u8>, at: usize, bytes: &[u8]) -> Result<(), AllocError>
    requires { at ≤ length file.old.items }
    ensures ok { OnOk result (Overwritten at bytes.now file.old.items file.new.items) }
    ensures err { OnErr result (file.new.items ≡ file.old.items) }
{
    let within = bytes.len().min(file.len() - at);
    file.extend_from_slice(&bytes[within..])?;
    file[at..at + within].copy_from_slice(&bytes[..within]);
    Ok(())
}
