//! The head of a snapshot.
ghost use Rattle.std.specs.Prelude.{◌≡◌, ◌+◌, ◌<◌, ◌≤◌, ◌^◌, ◌==◌, ◌++◌, length, vec_len, vec_capacity, IsTrue, IfOk, IsErrOf, IsOk, OnOk, OnErr, Ok, is_ok};
ghost use Rattle.std.specs.Int.{w64, to_be_bytes};
ghost use Rattle.flowfile_record.specs.Reading.{Reads, Gives, Answers, answer, whole, text_at, first_at};
ghost use Rattle.flowfile_record.specs.Field.{HasOneEncoding};
ghost use Rattle.flowfile_record.specs.Encoding.{byte, numbers, IsDigest};
ghost use Rattle.record_codec.specs.declared.head.Head.{Head as TheHead};
ghost use Rattle.record_codec.specs.StoreHead.{IsHead, head_of, in_second};
ghost use Rattle.record_codec.specs.Texts.{texts, AreTexts};
ghost use Rattle.record_codec.specs.StoreHead as encoding;
ghost use Rattle.record_codec.specs.StoreHeadReading.{store_at, processors_at, line_at, head_at, head_takes_memory};

use crate::SECOND_VERSION;
use crate::texts::{put_texts, read_texts, texts_size};
use crate::version::read_version;
use flowfile_record::fields::{
    FieldError, Unread, put, put_numbers, put_u8, put_u64, read_digest, read_number, read_numbers,
    read_u64,
};
use flowfile_record::{
    CodecError, DIGEST_SIZE, EVENTS_PER_FILE, Numbers, STORE_LIMIT, Stored, Text, TextList,
};
use std::alloc::{AllocError, Global};

/// What a store keeps beside its flow files: the version of the format, its id, the digest of its flow's text, the
/// flow's connections and the ids of its processors, how many files each processor has generated, the numbers that come
/// next (0 for the last event means none yet), and the line up to which events have aged out.
///
/// It has an encoding in both versions where the store is below `STORE_LIMIT`, the counts and numbers are below 2^62, a
/// connection or an id has fewer than 65,536 bytes, each list has fewer than 2^32 items, and the line is a multiple of
/// `EVENTS_PER_FILE` and at most the last event. In the first version it has no processors and the line 0 besides.
#[derive(Debug, Drop)]
pub struct Head {
    pub version: u8,
    pub store: u64,
    pub flow: [u8; DIGEST_SIZE],
    pub connections: TextList,
    pub processors: TextList,
    pub counts: Numbers,
    pub next_number: u64,
    pub next_arrival: u64,
    pub last_event: u64,
    pub line: u64,
    pub next_batch: u64,
}

/// How many bytes the encoding of a head has.
pub fn head_size(head: &Head) -> u64
    requires { IsHead head.now }
    ensures { result ≡ length (encoding.head head.now) }
{
    size_of(
        head.version,
        head.connections.as_slice(),
        head.processors.as_slice(),
        head.counts.as_slice(),
    )
}

/// Appends the one encoding of a head. It fails only where there is less room than `head_size` tells, and then the
/// bytes stay.
pub fn write_head(out: &mut Vec<u8>, head: &Head) -> Result<(), AllocError>
    requires { IsHead head.now }
    ensures ok { OnOk result (out.new.items ≡ out.old.items ++ encoding.head head.now) }
    ensures err { OnErr result (out.new.items ≡ out.old.items) }
    ensures room { vec_len out.old + length (encoding.head head.now) ≤ vec_capacity out.old → IsOk result }
    ensures capacity { vec_capacity out.old ≤ vec_capacity out.new }
{
    out.reserve(head_size(head) as usize)?;
    put_lists(
        out,
        head.version,
        head.store,
        &head.flow,
        head.connections.as_slice(),
        head.processors.as_slice(),
        head.counts.as_slice(),
    );
    put_counters(
        out,
        head.version,
        head.next_number,
        head.next_arrival,
        head.last_event,
        head.line,
        head.next_batch,
    );
    Ok(())
}

/// How many bytes the encoding of the head of what is stored has in a version.
pub fn head_size_of(version: u8, stored: &Stored) -> u64
    requires { IsHead (head_of version stored.now) }
    ensures { result ≡ length (encoding.head (head_of version stored.now)) }
{
    size_of(
        version,
        stored.connections.as_slice(),
        stored.processors.as_slice(),
        stored.counts.as_slice(),
    )
}

/// Appends the one encoding of the head of what is stored, in a version. It fails only where there is less room than
/// `head_size_of` tells, and then the bytes stay.
pub fn write_head_of(out: &mut Vec<u8>, version: u8, stored: &Stored) -> Result<(), AllocError>
    requires { IsHead (head_of version stored.now) }
    ensures ok { OnOk result (out.new.items ≡ out.old.items ++ encoding.head (head_of version stored.now)) }
    ensures err { OnErr result (out.new.items ≡ out.old.items) }
    ensures room { vec_len out.old + length (encoding.head (head_of version stored.now)) ≤ vec_capacity out.old
        → IsOk result }
    ensures capacity { vec_capacity out.old ≤ vec_capacity out.new }
{
    out.reserve(head_size_of(version, stored) as usize)?;
    put_lists(
        out,
        version,
        stored.store,
        &stored.flow,
        stored.connections.as_slice(),
        stored.processors.as_slice(),
        stored.counts.as_slice(),
    );
    put_counters(
        out,
        version,
        stored.next_number,
        stored.next_arrival,
        stored.last_event,
        stored.line,
        stored.next_batch,
    );
    Ok(())
}

/// The head that the bytes encode, all of them; else `Form`, at the first field that can't be read, or at what is left
/// over.
pub fn read_head(alloc: Global, bytes: &[u8]) -> Result<Head, CodecError>
    // What is read is encoded so.
    ensures found { IfOk result (λ value. IsHead value × (bytes.now ≡ encoding.head value)) }
    // What is encoded so is read, unless memory runs out.
    ensures only { (value : TheHead) → IsHead value → bytes.now ≡ encoding.head value → Answers result (Ok value) }
    // Which offset can't be read.
    ensures exact { Answers result (answer (length bytes.now) (whole head_at bytes.now)) }
    // Memory is taken only for the first item of a list.
    ensures memory { IsErrOf result CodecError.Memory → IsTrue (head_takes_memory bytes.now) }
{
    read_answer(alloc, bytes)
}

/// One head has one encoding, and no encoding is a proper front of another.
pub fn heads_have_one_encoding()
    ensures { HasOneEncoding encoding.head IsHead }
{}

fn read_answer(alloc: Global, bytes: &[u8]) -> Result<Head, CodecError>
    ensures exact { Answers result (answer (length bytes.now) (whole head_at bytes.now)) }
    ensures memory { IsErrOf result CodecError.Memory → IsTrue (head_takes_memory bytes.now) }
{
    match read_all(alloc, bytes) {
        Ok(head) => Ok(head),
        Err(error) => Err(error.within(bytes)),
    }
}

fn read_all(alloc: Global, bytes: &[u8]) -> Result<Head, FieldError>
    ensures read { Gives (λ value. value) result (whole head_at bytes.now) }
    ensures memory { IsErrOf result FieldError.Memory → IsTrue (head_takes_memory bytes.now) }
{
    let (head, rest) = read_fields(alloc, bytes)?;
    if !rest.is_empty() {
        return Err(FieldError::Form {
            left: rest.len() as u64,
        });
    }
    Ok(head)
}

#[tactic(auto, unfolding(crate::specs::StoreHeadReading::head_at))]
fn read_fields(alloc: Global, bytes: &[u8]) -> Result<(Head, &[u8]), FieldError>
    ensures read { Gives (λ x. (x.0, x.1.now)) result (head_at bytes.now) }
    ensures memory { IsErrOf result FieldError.Memory → IsTrue (head_takes_memory bytes.now) }
{
    let (version, rest) = read_version(bytes)?;
    let (store, rest) = read_store(rest)?;
    let (flow, rest) = read_digest(rest)?;
    let (connections, rest) = read_texts(alloc, rest)?;
    let (processors, rest) = read_processors(alloc, version, rest)?;
    let (counts, rest) = read_numbers(alloc, rest)?;
    let (next_number, rest) = read_number(rest)?;
    let (next_arrival, rest) = read_number(rest)?;
    let (last_event, rest) = read_number(rest)?;
    let (line, rest) = read_line(version, last_event, rest)?;
    let (next_batch, rest) = read_number(rest)?;
    let head = Head {
        version,
        store,
        flow,
        connections,
        processors,
        counts,
        next_number,
        next_arrival,
        last_event,
        line,
        next_batch,
    };
    Ok((head, rest))
}

#[tactic(auto, unfolding(crate::specs::StoreHeadReading::store_at))]
fn read_store(bytes: &[u8]) -> Result<(u64, &[u8]), Unread>
    ensures { Reads (λ x. (x.0, x.1.now)) result (store_at bytes.now) }
{
    let (store, rest) = read_u64(bytes)?;
    if store >= STORE_LIMIT {
        return Err(Unread {
            left: bytes.len() as u64,
        });
    }
    Ok((store, rest))
}

#[tactic(auto, unfolding(crate::specs::StoreHeadReading::processors_at))]
fn read_processors(
    alloc: Global,
    version: u8,
    bytes: &[u8],
) -> Result<(TextList, &[u8]), FieldError>
    ensures read { Gives (λ x. (x.0, x.1.now)) result (processors_at version bytes.now) }
    ensures memory { IsErrOf result FieldError.Memory
        → (version ≡ SECOND_VERSION) × IsTrue (is_ok (first_at text_at bytes.now)) }
{
    if version != SECOND_VERSION {
        return Ok((TextList::new(alloc), bytes));
    }
    read_texts(alloc, bytes)
}

#[tactic(auto, unfolding(crate::specs::StoreHeadReading::line_at))]
fn read_line(version: u8, last_event: u64, bytes: &[u8]) -> Result<(u64, &[u8]), Unread>
    ensures { Reads (λ x. (x.0, x.1.now)) result (line_at version last_event bytes.now) }
{
    if version != SECOND_VERSION {
        return Ok((0, bytes));
    }
    let (line, rest) = read_u64(bytes)?;
    if line % EVENTS_PER_FILE != 0 || line > last_event {
        return Err(Unread {
            left: bytes.len() as u64,
        });
    }
    Ok((line, rest))
}

// What a head's encoding has beside its lists in the first version, in bytes: the version, the digest, the store and
// four counters.
const BESIDE_LISTS: u64 = 41 + DIGEST_SIZE as u64;

// How many bytes a head with these lists has.
fn size_of(version: u8, connections: &[Text], processors: &[Text], counts: &[u64]) -> u64
    requires connections { AreTexts connections.now }
    requires processors { AreTexts processors.now }
    requires counts { length counts.now < 2 ^ 32 }
    ensures { result ≡ BESIDE_LISTS + length (texts connections.now)
        + length (in_second version (texts processors.now)) + length (numbers counts.now)
        + length (in_second version (to_be_bytes w64 0)) }
{
    let plain = BESIDE_LISTS + texts_size(connections) + 4 + 8 * counts.len() as u64;
    if version == SECOND_VERSION {
        plain + texts_size(processors) + 8
    } else {
        plain
    }
}

// The fields up to the counts of generated files.
fn put_lists(
    out: &mut Vec<u8>,
    version: u8,
    store: u64,
    flow: &[u8; DIGEST_SIZE],
    connections: &[Text],
    processors: &[Text],
    counts: &[u64],
)
    requires flow { IsDigest flow.now }
    requires connections { AreTexts connections.now }
    requires processors { AreTexts processors.now }
    requires counts { length counts.now < 2 ^ 32 }
    requires room { vec_len out.old + 9 + DIGEST_SIZE + length (texts connections.now)
        + length (in_second version (texts processors.now)) + length (numbers counts.now) ≤ vec_capacity out.old }
    ensures items { out.new.items
        ≡ out.old.items ++ (byte version ++ to_be_bytes w64 store ++ flow.now ++ texts connections.now
        ++ in_second version (texts processors.now) ++ numbers counts.now) }
    ensures len { vec_len out.new
        ≡ vec_len out.old + 9 + DIGEST_SIZE + length (texts connections.now)
        + length (in_second version (texts processors.now)) + length (numbers counts.now) }
    ensures capacity { vec_capacity out.old ≤ vec_capacity out.new }
{
    put_u8(out, version);
    put_u64(out, store);
    put(out, flow);
    put_texts(out, connections);
    put_processors(out, version, processors);
    put_numbers(out, counts);
}

// The ids of the processors, which the first version doesn't have.
fn put_processors(out: &mut Vec<u8>, version: u8, processors: &[Text])
    requires processors { AreTexts processors.now }
    requires room { vec_len out.old + length (in_second version (texts processors.now)) ≤ vec_capacity out.old }
    ensures items { out.new.items ≡ out.old.items ++ in_second version (texts processors.now) }
    ensures len { vec_len out.new ≡ vec_len out.old + length (in_second version (texts processors.now)) }
    ensures capacity { vec_capacity out.old ≤ vec_capacity out.new }
{
    if version == SECOND_VERSION {
        put_texts(out, processors);
    }
}

// The fields behind the counts of generated files.
fn put_counters(
    out: &mut Vec<u8>,
    version: u8,
    next_number: u64,
    next_arrival: u64,
    last_event: u64,
    line: u64,
    next_batch: u64,
)
    requires { vec_len out.old + 32 + length (in_second version (to_be_bytes w64 line)) ≤ vec_capacity out.old }
    ensures items { out.new.items
        ≡ out.old.items ++ (to_be_bytes w64 next_number ++ to_be_bytes w64 next_arrival ++ to_be_bytes w64 last_event
        ++ in_second version (to_be_bytes w64 line) ++ to_be_bytes w64 next_batch) }
    ensures capacity { vec_capacity out.old ≤ vec_capacity out.new }
{
    put_u64(out, next_number);
    put_u64(out, next_arrival);
    put_u64(out, last_event);
    put_line(out, version, line);
    put_u64(out, next_batch);
}

// The line, which the first version doesn't have.
fn put_line(out: &mut Vec<u8>, version: u8, line: u64)
    requires { vec_len out.old + length (in_second version (to_be_bytes w64 line)) ≤ vec_capacity out.old }
    ensures items { out.new.items ≡ out.old.items ++ in_second version (to_be_bytes w64 line) }
    ensures len { vec_len out.new ≡ vec_len out.old + length (in_second version (to_be_bytes w64 line)) }
    ensures capacity { vec_capacity out.old ≤ vec_capacity out.new }
{
    if version == SECOND_VERSION {
        put_u64(out, line);
    }
}
