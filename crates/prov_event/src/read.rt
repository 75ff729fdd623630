//! Events from some bytes.
ghost use Rattle.std.specs.Prelude.{◌≡◌, length, IsTrue, IfOk, IsErrOf, Ok};
ghost use Rattle.flowfile_record.specs.Reading.{Reads, Gives, Answers, answer, whole};
ghost use Rattle.flowfile_record.specs.declared.event.Event.{Event as TheEvent};
ghost use Rattle.prov_event.specs.Encoding.{IsEvent};
ghost use Rattle.prov_event.specs.Encoding as encoding;
ghost use Rattle.prov_event.specs.EventReading.{kind_at, counted_number_at, front_at, back_at, event_at, event_takes_memory};

use flowfile_record::fields::{
    FieldError, Unread, read_digest, read_long, read_number, read_numbers, read_text, read_u8,
    read_u64,
};
use flowfile_record::{CodecError, DIGEST_SIZE, Event, EventKind, Text};
use std::alloc::Global;

/// The event that the bytes encode, all of them.
pub fn read_event(alloc: Global, bytes: &[u8]) -> Result<Event, CodecError>
    // What is read is encoded so.
    ensures found { IfOk result (λ value. IsEvent value × (bytes.now ≡ encoding.event value)) }
    // What is encoded so is read, unless memory runs out.
    ensures only { (value : TheEvent) → IsEvent value → bytes.now ≡ encoding.event value → Answers result (Ok value) }
    // Which offset can't be read.
    ensures exact { Answers result (answer (length bytes.now) (whole event_at bytes.now)) }
    // Memory is taken only for a first parent or child that can be read, and for the texts of an event that the bytes
    // encode.
    ensures memory { IsErrOf result CodecError.Memory → IsTrue (event_takes_memory bytes.now) }
{
    read_answer(alloc, bytes)
}

fn read_answer(alloc: Global, bytes: &[u8]) -> Result<Event, CodecError>
    ensures exact { Answers result (answer (length bytes.now) (whole event_at bytes.now)) }
    ensures memory { IsErrOf result CodecError.Memory → IsTrue (event_takes_memory bytes.now) }
{
    match read_all(alloc, bytes) {
        Ok(event) => Ok(event),
        Err(error) => Err(error.within(bytes)),
    }
}

// The texts are copied last, so that bytes that are no event are told as such.
#[tactic(auto, unfolding(crate::specs::EventReading::event_at))]
fn read_all(alloc: Global, bytes: &[u8]) -> Result<Event, FieldError>
    ensures read { Gives (λ value. value) result (whole event_at bytes.now) }
    ensures memory { IsErrOf result FieldError.Memory → IsTrue (event_takes_memory bytes.now) }
{
    let (front, rest) = read_front(bytes)?;
    let (parents, rest) = read_numbers(alloc, rest)?;
    let (children, rest) = read_numbers(alloc, rest)?;
    let (back, rest) = read_back(rest)?;
    if !rest.is_empty() {
        return Err(FieldError::Form {
            left: rest.len() as u64,
        });
    }
    let component = Text::from_str(alloc, front.component)?;
    let detail = Text::from_str(alloc, back.detail)?;
    Ok(Event {
        number: front.number,
        kind: front.kind,
        moment: front.moment,
        component,
        file: front.file,
        parents,
        children,
        detail,
        size: back.size,
        digest: back.digest,
    })
}

// An event's fields before its lists.
#[derive(Clone, Copy)]
struct Front<'a> {
    number: u64,
    kind: EventKind,
    moment: u64,
    component: &'a str,
    file: u64,
}

fn read_front(bytes: &[u8]) -> Result<(Front, &[u8]), Unread>
    ensures { Reads (λ x. ((x.0.number, (x.0.kind, (x.0.moment, (x.0.component.now, x.0.file)))), x.1.now)) result
        (front_at bytes.now) }
{
    let (number, rest) = read_counted_number(bytes)?;
    let (kind, rest) = read_kind(rest)?;
    let (moment, rest) = read_u64(rest)?;
    let (component, rest) = read_text(rest)?;
    let (file, rest) = read_counted_number(rest)?;
    let front = Front {
        number,
        kind,
        moment,
        component,
        file,
    };
    Ok((front, rest))
}

// An event's fields behind its lists.
#[derive(Clone, Copy)]
struct Back<'a> {
    detail: &'a str,
    size: u64,
    digest: [u8; DIGEST_SIZE],
}

fn read_back(bytes: &[u8]) -> Result<(Back, &[u8]), Unread>
    ensures { Reads (λ x. ((x.0.detail.now, (x.0.size, x.0.digest)), x.1.now)) result (back_at bytes.now) }
{
    let (detail, rest) = read_long(bytes)?;
    let (size, rest) = read_u64(rest)?;
    let (digest, rest) = read_digest(rest)?;
    let back = Back {
        detail,
        size,
        digest,
    };
    Ok((back, rest))
}

#[tactic(auto, unfolding(crate::specs::EventReading::counted_number_at))]
fn read_counted_number(bytes: &[u8]) -> Result<(u64, &[u8]), Unread>
    ensures { Reads (λ x. (x.0, x.1.now)) result (counted_number_at bytes.now) }
{
    let (number, rest) = read_number(bytes)?;
    if number < 1 {
        return Err(Unread {
            left: bytes.len() as u64,
        });
    }
    Ok((number, rest))
}

#[tactic(auto, unfolding(crate::specs::EventReading::kind_at))]
fn read_kind(bytes: &[u8]) -> Result<(EventKind, &[u8]), Unread>
    ensures { Reads (λ x. (x.0, x.1.now)) result (kind_at bytes.now) }
{
    let (code, rest) = read_u8(bytes)?;
    match EventKind::from_code(code) {
        Some(kind) => Ok((kind, rest)),
        None => Err(Unread {
            left: bytes.len() as u64,
        }),
    }
}
