//! A file as a source of bytes, and standard output as a sink.
ghost use Rattle.std.specs.Prelude.{◌≡◌, ◌<◌, ◌≤◌, false, [], length, IfOk, IsErr};
ghost use Rattle.disk_trait.specs.Faults.{CountsFaults};

use crate::faults::counted;
use crate::open_file::{for_reading, open_named};
use disk_trait::Failed;
use std::alloc::Global;
use std::fs::{self, File};
use std::io::{self, ErrorKind, Read, Write};
use std::rt::Files;
use world_io::{Sink, Source};

/// The bytes of a regular file, from its start. It is opened at the first read.
#[derive(Drop)]
pub struct FileSource<'r, R> {
    rt: &'r R,
    path: &'r str,
    file: Option<File>,
    faults: u64,
}

impl<'r, R: Files<File = File>> FileSource<'r, R> {
    /// The bytes of the file at a path, with no fault.
    pub fn new(rt: &'r R, path: &'r str) -> FileSource<'r, R>
        ensures { ⟦<FileSource<'r, R> as Source>⟧.faults result ≡ 0 }
    {
        FileSource {
            rt,
            path,
            file: None,
            faults: 0,
        }
    }
}

impl<'r, R: Files<File = File>> Source for FileSource<'r, R> {
    ghost tells = { false };

    ghost rest = { λ _. [] };

    ghost faults = { λ source. source.faults };

    fn read(&mut self, into: &mut [u8]) -> Result<usize, Failed> {
        let answer = read_some(self.rt, self.path, &mut self.file, into);
        counted(&mut self.faults, answer)
    }
}

fn read_some<R: Files<File = File>>(
    rt: &R,
    path: &str,
    file: &mut Option<File>,
    into: &mut [u8],
) -> io::Result<usize>
    ensures { IfOk result (λ n. n ≤ length into.old) }
{
    match file {
        Some(file) => read_on(file, into),
        None => {
            let mut opened = open_regular(rt, path)?;
            let answer = read_on(&mut opened, into);
            *file = Some(opened);
            answer
        }
    }
}

/// Opens the regular file at a path, or that to which a link there leads. Anything else isn't read: a pipe would be
/// waited for, and a device may never end.
fn open_regular<R: Files<File = File>>(rt: &R, path: &str) -> io::Result<File> {
    let named = fs::metadata(rt, path)?;
    if named.is_file() {
        Ok(open_named(rt, path, &for_reading(), &named)?.file)
    } else {
        Err(ErrorKind::Unsupported.into())
    }
}

/// Reads once. A signal that comes first is no failure.
fn read_on(file: &mut File, into: &mut [u8]) -> io::Result<usize>
    ensures { IfOk result (λ n. n ≤ length into.old) }
{
    for _ in 0..u64::MAX {
        match file.read(into) {
            Err(error) if error.kind() == ErrorKind::Interrupted => {}
            answer => return answer,
        }
    }
    Err(ErrorKind::Interrupted.into())
}

/// How many bytes of a text are gathered before they are written, at most, in bytes: 64 KiB.
const GATHERED_MAX: usize = 65_536;

/// Standard output. It gathers what it takes, and writes that in pieces: the last one at `finish`.
#[derive(Drop)]
pub struct OutputSink<'r, R> {
    rt: &'r R,
    /// What was taken and isn't written yet.
    gathered: Vec<u8>,
    faults: u64,
}

impl<'r, R: Print> OutputSink<'r, R> {
    /// Standard output, with no fault.
    pub fn new(rt: &'r R, alloc: Global) -> OutputSink<'r, R>
        ensures { ⟦<OutputSink<'r, R> as Sink>⟧.faults result ≡ 0 }
    {
        OutputSink {
            rt,
            gathered: Vec::new(alloc),
            faults: 0,
        }
    }

    /// Writes what is left of a text, at its end.
    pub fn finish(&mut self) -> Result<(), Failed>
        ensures { CountsFaults (⟦<OutputSink<'r, R> as Sink>⟧.faults self.old)
            (⟦<OutputSink<'r, R> as Sink>⟧.faults self.new) (IsErr result) }
    {
        let answer = write_gathered(self.rt, &mut self.gathered);
        counted(&mut self.faults, answer)
    }
}

impl<'r, R: Print> Sink for OutputSink<'r, R> {
    ghost tells = { false };

    ghost written = { λ _. [] };

    ghost faults = { λ sink. sink.faults };

    /// Takes all of a piece, or writes some of one that is too long to be gathered. A call that fails takes nothing,
    /// but may have written of what was taken before.
    fn write(&mut self, bytes: &[u8]) -> Result<usize, Failed> {
        let answer = gather(self.rt, &mut self.gathered, bytes);
        counted(&mut self.faults, answer)
    }
}

/// Puts a piece behind what is gathered, which is written first where both are too long together.
fn gather<R: Print>(rt: &R, gathered: &mut Vec<u8>, bytes: &[u8]) -> io::Result<usize>
    requires { 0 < length bytes.now }
    ensures some { IfOk result (λ n. 0 < n) }
    ensures count { IfOk result (λ n. n ≤ length bytes.now) }
{
    if gathered.len().saturating_add(bytes.len()) > GATHERED_MAX {
        write_gathered(rt, gathered)?;
    }
    if bytes.len() <= GATHERED_MAX && gathered.extend_from_slice(bytes).is_ok() {
        return Ok(bytes.len());
    }
    // The piece is too long, or there is no memory for it.
    write_gathered(rt, gathered)?;
    write_some(rt, bytes)
}

/// Writes all that is gathered. After a failure the rest is still there.
fn write_gathered<R: Print>(rt: &R, gathered: &mut Vec<u8>) -> io::Result<()> {
    while !gathered.is_empty() {
        let count = write_some(rt, gathered)?;
        gathered.drain(..count);
    }
    Ok(())
}

/// Writes once, at least a byte. A signal that comes first is no failure.
fn write_some<R: Print>(rt: &R, bytes: &[u8]) -> io::Result<usize>
    ensures some { IfOk result (λ n. 0 < n) }
    ensures count { IfOk result (λ n. n ≤ length bytes.now) }
{
    for _ in 0..u64::MAX {
        match io::writer(rt).write(bytes) {
            Ok(0) => return Err(ErrorKind::WriteZero.into()),
            Err(error) if error.kind() == ErrorKind::Interrupted => {}
            answer => return answer,
        }
    }
    Err(ErrorKind::Interrupted.into())
}
