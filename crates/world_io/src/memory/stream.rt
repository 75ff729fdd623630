//! A source and a sink of bytes in memory.
ghost use Rattle.std.specs.Prelude.{◌≡◌, ◌↔◌, ◌<◌, ◌≤◌, [], ◌++◌, true, min, length, take, IfOk, OnOk, OnErr, IsErr, vec_len};

use crate::{Sink, Source};
use disk_trait::{Calls, Failed};

/// Bytes that are read from their front on.
#[derive(Debug, Drop)]
pub struct MemorySource {
    bytes: Vec<u8>,
    at: usize,
    /// Its calls so far.
    pub calls: Calls,
    ghost within: { at ≤ vec_len bytes },
}

impl MemorySource {
    /// A source of these bytes. Its calls with the listed numbers fail, counted from 1.
    pub fn new(bytes: Vec<u8>, failing: Vec<u64>) -> MemorySource
        ensures rest { ⟦<MemorySource as Source>⟧.rest result ≡ bytes.items }
        ensures faults { ⟦<MemorySource as Source>⟧.faults result ≡ 0 }
        ensures calls { result.calls ≡ record { failing = failing; count = 0; faults = 0 } }
    {
        MemorySource {
            bytes,
            at: 0,
            calls: Calls::new(failing),
        }
    }
}

#[tactic(auto, using(disk_trait::proofs::Counts::counts_any, crate::proofs::Pieces::read_rest))]
impl Source for MemorySource {
    ghost use Rattle.disk_trait.specs.Called.{Called, FailsNext};
    ghost use Rattle.world_io.specs.MemoryStream.{rest_of};

    ghost tells = { true };

    ghost rest = { rest_of };

    ghost faults = { λ source. source.calls.faults };

    /// Reads as much as fits.
    fn read(&mut self, into: &mut [u8]) -> Result<usize, Failed>
        requires { 0 < length into.old }
        ensures count { IfOk result (λ n. n ≡ min (length (rest_of self.old)) (length into.old)) }
        ensures bytes { IfOk result (λ n. rest_of self.old ≡ take n into.new ++ rest_of self.new) }
        ensures failed { OnErr result (rest_of self.new ≡ rest_of self.old) }
        ensures fails { IsErr result ↔ FailsNext self.old.calls }
        ensures called { Called self.old.calls self.new.calls (IsErr result) }
    {
        self.calls.begin()?;
        let rest = &self.bytes[self.at..];
        let count = rest.len().min(into.len());
        into[..count].copy_from_slice(&rest[..count]);
        self.at += count;
        Ok(count)
    }
}

/// Keeps what is written.
#[derive(Debug, Drop)]
pub struct MemorySink {
    bytes: Vec<u8>,
    /// Its calls so far.
    pub calls: Calls,
}

impl MemorySink {
    /// An empty sink. Its calls with the listed numbers fail, counted from 1.
    pub fn new(failing: Vec<u64>) -> MemorySink
        ensures written { ⟦<MemorySink as Sink>⟧.written result ≡ [] }
        ensures faults { ⟦<MemorySink as Sink>⟧.faults result ≡ 0 }
        ensures calls { result.calls ≡ record { failing = failing; count = 0; faults = 0 } }
    {
        MemorySink {
            bytes: Vec::new(*failing.allocator()),
            calls: Calls::new(failing),
        }
    }

    /// The bytes that were written.
    pub fn written(&self) -> &[u8]
        ensures { result.now ≡ ⟦<MemorySink as Sink>⟧.written self.now }
    {
        &self.bytes
    }
}

#[tactic(auto, using(disk_trait::proofs::Counts::counts_any))]
impl Sink for MemorySink {
    ghost use Rattle.disk_trait.specs.Called.{Called, FailsNext};
    ghost use Rattle.world_io.specs.MemoryStream.{written_to};

    ghost tells = { true };

    ghost written = { written_to };

    ghost faults = { λ sink. sink.calls.faults };

    /// Takes all of the piece. Where memory refuses to grow, the call fails.
    fn write(&mut self, bytes: &[u8]) -> Result<usize, Failed>
        requires { 0 < length bytes.now }
        ensures count { IfOk result (λ n. n ≡ length bytes.now) }
        ensures written { OnOk result (written_to self.new ≡ written_to self.old ++ bytes.now) }
        ensures failed { OnErr result (written_to self.new ≡ written_to self.old) }
        ensures fails { FailsNext self.old.calls → IsErr result }
        ensures called { Called self.old.calls self.new.calls (IsErr result) }
    {
        self.calls.begin()?;
        match self.bytes.extend_from_slice(bytes) {
            Ok(()) => Ok(bytes.len()),
            Err(_) => Err(self.calls.fault()),
        }
    }
}
