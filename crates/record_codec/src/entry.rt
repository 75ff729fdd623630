//! The entries of a log.
ghost use Rattle.std.specs.Prelude.{◌≡◌, ◌+◌, ◌≤◌, ◌++◌, ℕ, length, vec_len, vec_capacity, IsTrue, IfOk, IsErrOf, IsOk, OnOk, OnErr, Ok};
ghost use Rattle.flowfile_record.specs.Field.{HasOneEncoding};
ghost use Rattle.flowfile_record.specs.Reading.{Answers, answer, whole};
ghost use Rattle.flowfile_record.specs.declared.flow_file.FlowFile.{FlowFile as File};
ghost use Rattle.record_codec.specs.FileEncoding.{flow_file};
ghost use Rattle.record_codec.specs.Placeless.{placeless, placeless_entry};
ghost use Rattle.record_codec.specs.EntryReading.{entry_at, takes_memory};
ghost use Rattle.record_codec.specs.EntryEncoding.{entry as encoding, kind_of, IsEntry, IsEntryOf};
ghost use Rattle.record_codec.specs.declared.entry.LogEntry.{LogEntry as Entry};

mod read;
mod size;
mod write;

use flowfile_record::{ActiveFile, CodecError, Counted, Numbers, Sequence};
use std::alloc::{AllocError, Global};

/// The place that a session's entry names where its processor is no generator. No processor has it.
pub const NO_GENERATOR: u16 = 65_535;

/// What a session of a processor did: the files that are gone from their queue, those that are placed, and the
/// counters behind it. `generator` is the processor where it is one.
#[derive(Debug, Drop)]
pub struct SessionEntry {
    pub processor: u16,
    pub moment: u64,
    pub gone: Numbers,
    pub placed: Sequence<ActiveFile>,
    pub next_number: u64,
    pub next_arrival: u64,
    pub last_event: u64,
    pub generator: Option<Counted>,
}

/// Files of a connection that expired.
#[derive(Debug, Drop)]
pub struct ExpireEntry {
    pub connection: u16,
    pub moment: u64,
    pub numbers: Numbers,
    pub last_event: u64,
}

/// Files of a connection that were swapped out into a batch.
#[derive(Debug, Drop)]
pub struct SwapOutEntry {
    pub connection: u16,
    pub batch: u64,
    pub numbers: Numbers,
}

/// An entry of a log. Connections and processors are named by their places in the flow.
#[derive(Debug, Drop)]
pub enum LogEntry {
    /// The first entry of each log, with the version of its format and its number.
    Begin { version: u8, log: u64 },
    Session(SessionEntry),
    Expire(ExpireEntry),
    SwapOut(SwapOutEntry),
    /// A batch of a connection that was swapped in again.
    SwapIn { connection: u16, batch: u64 },
    /// The line up to which events have aged out. It belongs to the second version alone.
    Age { line: u64 },
}

impl LogEntry {
    /// The kind of the entry's block, from 1 to 5 or 7.
    pub fn kind(&self) -> u8
        ensures { result ≡ kind_of self.now }
    {
        match self {
            LogEntry::Begin { .. } => 1,
            LogEntry::Session(_) => 2,
            LogEntry::Expire(_) => 3,
            LogEntry::SwapOut(_) => 4,
            LogEntry::SwapIn { .. } => 5,
            LogEntry::Age { .. } => 7,
        }
    }
}

/// How many bytes the encoding of an entry has, the payload of its block.
pub fn entry_size(entry: &LogEntry) -> u64
    requires { IsEntry entry.now }
    ensures { result ≡ length (encoding entry.now) }
{
    size::size_of(entry)
}

/// Appends the one encoding of an entry, the payload of its block. It fails only where there is less room than
/// `entry_size` tells, and then the bytes stay.
pub fn write_entry(out: &mut Vec<u8>, entry: &LogEntry) -> Result<(), AllocError>
    requires { IsEntry entry.now }
    ensures ok { OnOk result (out.new.items ≡ out.old.items ++ encoding entry.now) }
    ensures err { OnErr result (out.new.items ≡ out.old.items) }
    ensures room { vec_len out.old + length (encoding entry.now) ≤ vec_capacity out.old → IsOk result }
    ensures capacity { vec_capacity out.old ≤ vec_capacity out.new }
{
    out.reserve(entry_size(entry) as usize)?;
    write::put_entry(out, entry);
    Ok(())
}

/// The entry of this kind that the bytes encode, all of them. A kind other than 1 to 5 and 7 is `Form` at 0.
pub fn read_entry(alloc: Global, kind: u8, bytes: &[u8]) -> Result<LogEntry, CodecError>
    // What is read is encoded so.
    ensures found { IfOk result (λ entry. IsEntryOf kind entry × (bytes.now ≡ encoding entry)) }
    // What is encoded so is read, unless memory runs out.
    ensures only { (entry : Entry) → IsEntryOf kind entry → bytes.now ≡ encoding entry → Answers result (Ok entry) }
    // Which offset can't be read.
    ensures exact { Answers result (answer (length bytes.now) (whole (entry_at kind) bytes.now)) }
    // Memory is taken only for the first item of a list, or for its attributes, and so for the kinds 2 to 4 alone.
    ensures memory { IsErrOf result CodecError.Memory → IsTrue (takes_memory kind bytes.now) }
{
    read::read_answer(alloc, kind, bytes)
}

/// Where contents stand, their slots and their offsets, doesn't change the size of an encoding.
pub fn sizes_ignore_slots_and_offsets()
    ensures files { (file : File) → length (flow_file (placeless file)) ≡ length (flow_file file) }
    ensures entries { (entry : Entry) → length (encoding (placeless_entry entry)) ≡ length (encoding entry) }
{}

/// Of one kind, one entry has one encoding, and no encoding is a proper front of another.
pub fn entries_have_one_encoding()
    ensures { (kind : ℕ) → HasOneEncoding encoding (IsEntryOf kind) }
{}
