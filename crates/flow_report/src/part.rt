//! The parts that a line is made of.
ghost use Rattle.std.specs.Prelude.{◌≡◌, IsTrue, IsErr};
ghost use Rattle.disk_trait.specs.Faults.{CountsFaults};
ghost use Rattle.flow_report.specs.Parts.{line_of_parts, part_text};
ghost use Rattle.flow_report.specs.Writing.{Puts, Writes};

use crate::held::Held;
use crate::words::text_of_digest;
use disk_trait::Failed;
use flowfile_record::{DIGEST_SIZE, uuid_of};
use uuid::Uuid;
use world_io::Sink;

/// A part of a line.
#[derive(Clone, Copy)]
pub(crate) enum Part<'a> {
    Text(&'a str),
    Number(u64),
    /// The sum of two numbers.
    Sum(u128, u128),
    Uuid(&'a Uuid),
    Digest(&'a [u8; DIGEST_SIZE]),
    /// A text in quotation marks, as in JSON.
    Quoted(&'a str),
    /// The identifier of a file of a store, in quotation marks.
    QuotedUuid(u64, u64),
    QuotedDigest(&'a [u8; DIGEST_SIZE]),
    /// The identifiers of files of a store, as a list of JSON.
    Uuids(u64, &'a [u64]),
}

/// Writes a line of these parts.
pub(crate) fn write_parts<S: Sink>(sink: &mut S, parts: &[Part]) -> Result<(), Failed>
    ensures written { IsTrue S.tells
        → Writes (line_of_parts parts.now) (S.written sink.old) (S.written sink.new) result }
    ensures cause { CountsFaults (S.faults sink.old) (S.faults sink.new) (IsErr result) }
{
    let mut held = Held::new();
    for part in parts {
        put_part(&mut held, sink, part)?;
    }
    held.put(sink, b"\n")?;
    held.flush(sink)
}

// Puts a part of a line behind what is held.
fn put_part<S: Sink>(held: &mut Held, sink: &mut S, part: &Part) -> Result<(), Failed>
    ensures put { IsTrue S.tells
        → Puts (part_text part.now) (S.written sink.old) held.old.bytes.items (S.written sink.new) held.new.bytes.items result }
    ensures cause { CountsFaults (S.faults sink.old) (S.faults sink.new) (IsErr result) }
{
    match *part {
        Part::Text(text) => held.put(sink, text.as_bytes()),
        Part::Number(number) => held.put_number(sink, u128::from(number)),
        Part::Sum(one, other) => held.put_sum(sink, one, other),
        Part::Uuid(id) => held.put_uuid(sink, id),
        Part::Digest(digest) => held.put(sink, &text_of_digest(digest)),
        Part::Quoted(text) => held.put_quoted(sink, text.as_bytes()),
        Part::QuotedUuid(store, number) => held.put_quoted_uuid(sink, &uuid_of(store, number)),
        Part::QuotedDigest(digest) => held.put_quoted(sink, &text_of_digest(digest)),
        Part::Uuids(store, numbers) => held.put_uuids(sink, store, numbers),
    }
}
