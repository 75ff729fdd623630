//! What the disk of a measurement keeps.
ghost use Rattle.std.specs.Prelude.{◌+◌, ◌^◌, ◌<◌, length, OnOk, OnSome};
ghost use Rattle.std.specs.List.Sorted.{IsStrictlyIncreasing};

use disk_trait::{FileKind, FileName};
use std::alloc::AllocError;

/// What each byte of a claim is.
pub const CLAIM_BYTE: u8 = b'x';

/// A file that is read.
#[derive(Drop)]
pub struct KeptFile {
    pub name: FileName,
    pub bytes: Vec<u8>,
}

/// The sizes of claims, by their numbers, and files with their bytes. Of other files nothing is kept.
#[derive(Drop)]
pub struct Kept {
    pub claims: Vec<u64>,
    pub files: Vec<KeptFile>,
}

impl Kept {
    /// Adds the numbers of the files of this kind that aren't empty, ascending.
    pub fn list(&self, kind: FileKind, list: &mut Vec<u64>) -> Result<(), AllocError>
        ensures { OnOk result (IsStrictlyIncreasing list.new.items) }
    {
        if kind == FileKind::Claim {
            push_claims(self.claims.as_slice(), list)?;
        }
        for file in &self.files {
            if kind == file.name.kind && !file.bytes.is_empty() {
                list.push(file.name.number)?;
            }
        }
        list.sort_unstable();
        list.dedup();
        Ok(())
    }

    /// The file's length in bytes.
    pub fn size(&self, file: FileName) -> u64 {
        if let Some(bytes) = self.bytes_of(file) {
            return bytes.len() as u64;
        }
        if file.kind == FileKind::Claim && file.number < self.claims.len() as u64 {
            return self.claims[file.number as usize];
        }
        0
    }

    /// Fills `into` with the bytes from `at` on, where they are kept.
    pub fn read(&self, file: FileName, at: u64, into: &mut [u8]) -> Option<()> {
        let end = at.checked_add(into.len() as u64)?;
        if end > self.size(file) {
            return None;
        }
        match self.bytes_of(file) {
            Some(bytes) => into.copy_from_slice(bytes.get(at as usize..end as usize)?),
            None => into.fill(CLAIM_BYTE),
        }
        Some(())
    }

    // The bytes of a file that is read. Files of events stand at the places of their numbers.
    fn bytes_of(&self, name: FileName) -> Option<&[u8]> {
        if let Some(file) = self.files.get(name.number as usize) {
            if file.name == name {
                return Some(file.bytes.as_slice());
            }
        }
        for file in &self.files {
            if file.name == name {
                return Some(file.bytes.as_slice());
            }
        }
        None
    }

    /// A claim is as long as this write makes it. The bytes aren't kept.
    pub fn write(&mut self, file: FileName, at: u64, bytes: &[u8]) -> Option<()>
        ensures { OnSome result (at + length bytes.now < 2 ^ 64) }
    {
        let end = at.checked_add(bytes.len() as u64)?;
        let size = self.size(file);
        self.put(file, end.max(size));
        Some(())
    }

    /// Sets the length of a claim that is kept.
    pub fn put(&mut self, file: FileName, size: u64) {
        if file.kind == FileKind::Claim && file.number < self.claims.len() as u64 {
            self.claims[file.number as usize] = size;
        }
    }
}

fn push_claims(claims: &[u64], list: &mut Vec<u64>) -> Result<(), AllocError> {
    for number in 0..claims.len() {
        if claims[number] > 0 {
            list.push(number as u64)?;
        }
    }
    Ok(())
}
