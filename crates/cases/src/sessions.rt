//! Cases of sessions: what each call answers, and the outcome.
ghost use Rattle.std.specs.Prelude.{IfOk};
ghost use Rattle.process_session.specs.Bench.{IsWhole};

use crate::encodings::put_digits;
use crate::json::{item, items, member, number_at, text, text_at, word_at};
use crate::records::{put_answer, put_pairs, put_truth};
use anyhow::{Result, bail};
use flowfile_record::{Attributes, Body, Bytes, End, Name, Origin, Outcome, Text, Worked};
use process_session::{Session, SessionError, Taken, TakenList};
use serde_json::Value;
use std::alloc::{AllocError, Global};

/// What the calls of a session over one taken file answer, one after the other. A processor has two relationships.
pub fn put_session(out: &mut String, alloc: Global, content: &Value, case: &Value) -> Result<()> {
    let calls = items(member(case, "calls")?)?;
    let mut session = session_of(alloc, taken_file(alloc, content)?)?;
    let mut behind = "";
    for call in calls {
        out.push_str(behind)?;
        behind = "; ";
        if word_at(call, 0)? != "finish" {
            put_call(out, alloc, &mut session, call)?;
            continue;
        }
        session = match session.finish() {
            Ok(outcome) => return Ok(put_outcome(out, &outcome)?),
            Err((session, error)) => {
                write!(out, "{error}")?;
                session
            }
        };
    }
    session.rollback();
    Ok(())
}

fn session_of(alloc: Global, file: Taken) -> Result<Session, AllocError>
    requires { IsWhole file }
{
    let mut taken = TakenList::new(alloc);
    taken.push(file)?;
    Session::new(alloc, 2, taken)
}

// A taken file with this content, and the attribute `filename` = `taken`; null is one whose content isn't given.
fn taken_file(alloc: Global, content: &Value) -> Result<Taken>
    ensures { IfOk result IsWhole }
{
    let bytes = bytes_of(alloc, content)?;
    let mut attributes = Attributes::new(alloc);
    attributes.put("filename", "taken")?;
    Ok(Taken {
        attributes,
        uuid: Text::from_str(alloc, "00000000-0000-8000-8000-000000000001")?,
        size: match &bytes {
            Some(bytes) => bytes.len(),
            None => 3,
        },
        bytes,
    })
}

fn bytes_of(alloc: Global, content: &Value) -> Result<Option<Bytes>> {
    if content.is_null() {
        return Ok(None);
    }
    let content = text(alloc, content)?;
    Ok(Some(Bytes::from_slice(alloc, content.as_bytes())?))
}

fn put_call(out: &mut String, alloc: Global, session: &mut Session, call: &Value) -> Result<()> {
    match word_at(call, 0)? {
        "join" => put_place(out, session.create_joined(&[0, 1])),
        "create" => put_place(out, session.create()),
        "receive" => put_place(out, session.receive(content_at(alloc, call, 1)?)),
        "content" => put_content(out, alloc, session.content(place(call)?)),
        "attributes" => put_attributes(out, session.attributes(place(call)?)),
        "from" => put_place(out, session.create_from(place(call)?)),
        "clone" => put_place(out, session.clone_file(place(call)?)),
        "range" => put_range(out, session, call),
        "write" | "append" | "put" | "take" => put_changed(out, alloc, session, call),
        _ => put_ended(out, alloc, session, call),
    }
}

fn put_range(out: &mut String, session: &mut Session, call: &Value) -> Result<()> {
    let parent = place(call)?;
    let offset = number_at(call, 2)?;
    let size = number_at(call, 3)?;
    put_place(out, session.clone_range(parent, offset, size))
}

fn put_changed(out: &mut String, alloc: Global, session: &mut Session, call: &Value) -> Result<()> {
    let place = place(call)?;
    let name = word_at(call, 0)?;
    if name == "write" {
        let content = content_at(alloc, call, 2)?;
        return put_done(out, session.write(place, content));
    }
    let given = text_at(alloc, call, 2)?;
    match name {
        "append" => put_done(out, session.append(place, given.as_bytes())),
        "take" => put_taken(out, session.remove_attribute(place, given.as_str())),
        _ => put_attribute(out, alloc, session, given.as_str(), call),
    }
}

fn put_taken(out: &mut String, answer: Result<bool, SessionError>) -> Result<()> {
    match answer {
        Ok(was_there) => put_truth(out, was_there),
        Err(error) => put_refused(out, error),
    }
}

fn put_attribute(
    out: &mut String,
    alloc: Global,
    session: &mut Session,
    key: &str,
    call: &Value,
) -> Result<()> {
    let place = place(call)?;
    let value = text_at(alloc, call, 3)?;
    match session.put_attribute(place, key, value.as_str()) {
        Ok(put) => put_answer(out, Ok(put)),
        Err(error) => put_refused(out, error),
    }
}

fn put_ended(out: &mut String, alloc: Global, session: &mut Session, call: &Value) -> Result<()> {
    let place = place(call)?;
    let answer = match word_at(call, 0)? {
        "penalize" => session.penalize(place),
        "back" => session.transfer_back(place),
        "remove" => session.remove(place),
        "route" => session.route(place, relationship(call)?),
        "transfer" => session.transfer(place, relationship(call)?),
        "send" => session.send(place, Name::read(alloc, word_at(call, 2)?)?),
        _ => bail!("no call of a session"),
    };
    put_done(out, answer)
}

fn put_place(out: &mut String, answer: Result<u32, SessionError>) -> Result<()> {
    match answer {
        Ok(place) => Ok(write!(out, "{place}")?),
        Err(error) => put_refused(out, error),
    }
}

fn put_done(out: &mut String, answer: Result<(), SessionError>) -> Result<()> {
    match answer {
        Ok(()) => Ok(out.push_str("done")?),
        Err(error) => put_refused(out, error),
    }
}

fn put_refused(out: &mut String, error: SessionError) -> Result<()> {
    Ok(write!(out, "{error}")?)
}

fn put_content(
    out: &mut String,
    alloc: Global,
    content: Result<&[u8], SessionError>,
) -> Result<()> {
    match content {
        Ok(bytes) if bytes.len() > LONG => {
            let size = bytes.len();
            Ok(write!(out, "{size} bytes")?)
        }
        Ok(bytes) => Ok(put_digits(out, alloc, bytes)?),
        Err(error) => put_refused(out, error),
    }
}

fn put_attributes(out: &mut String, attributes: Option<&Attributes>) -> Result<()> {
    match attributes {
        Some(attributes) => put_pairs(out, attributes),
        None => Ok(out.push_str("none")?),
    }
}

const LONG: usize = 100;

// The second item of a call is a file's place.
fn place(call: &Value) -> Result<u32> {
    match u32::try_from(number_at(call, 1)?) {
        Ok(place) => Ok(place),
        Err(_) => bail!("no place"),
    }
}

// The third item of a call is a relationship.
fn relationship(call: &Value) -> Result<u16> {
    match u16::try_from(number_at(call, 2)?) {
        Ok(relationship) => Ok(relationship),
        Err(_) => bail!("no relationship"),
    }
}

fn content_at(alloc: Global, call: &Value, place: usize) -> Result<Vec<u8>> {
    Ok(text_at(alloc, call, place)?.into_bytes())
}

// The files of an outcome, and what it sends.
fn put_outcome(out: &mut String, outcome: &Outcome) -> Result<(), AllocError> {
    out.push_str("outcome")?;
    for file in outcome.files.as_slice() {
        put_file(out, file)?;
    }
    if let Some(sent) = &outcome.sent {
        let (place, name) = (sent.place, sent.name.text());
        write!(out, ", sends {place} as {name}")?;
    }
    Ok(())
}

fn put_file(out: &mut String, file: &Worked) -> Result<(), AllocError> {
    out.push_str(" [")?;
    put_origin(out, &file.origin)?;
    put_body(out, &file.body)?;
    put_end(out, file.end)?;
    if file.written {
        out.push_str(", written")?;
    }
    if file.penalised {
        out.push_str(", penalised")?;
    }
    if let Some(relationship) = file.routed {
        write!(out, ", routed {relationship}")?;
    }
    out.push_str("]")
}

fn put_origin(out: &mut String, origin: &Origin) -> Result<(), AllocError> {
    let (words, place) = match origin {
        Origin::Taken(place) => ("taken ", Some(*place)),
        Origin::Created => ("created", None),
        Origin::Received => ("received", None),
        Origin::Forked(parent) => ("forked from ", Some(*parent)),
        Origin::Part(parent) => ("part of ", Some(*parent)),
        Origin::Cloned(parent) => ("cloned from ", Some(*parent)),
        Origin::Joined(parents) => {
            let parents = parents.as_slice();
            return write!(out, "joined from {parents:?}");
        }
    };
    out.push_str(words)?;
    match place {
        Some(place) => write!(out, "{place}"),
        None => Ok(()),
    }
}

fn put_body(out: &mut String, body: &Body) -> Result<(), AllocError> {
    match body {
        Body::Whole { of } => write!(out, ", all of {of}"),
        Body::Part { of, offset, size } => { write!(out, ", {size} bytes of {of} from {offset}") }
        Body::New(bytes) => {
            let size = bytes.len();
            write!(out, ", {size} bytes of its own")
        }
    }
}

fn put_end(out: &mut String, end: End) -> Result<(), AllocError> {
    match end {
        End::To(relationship) => write!(out, ", to {relationship}"),
        End::Back => out.push_str(", back"),
        End::Removed => out.push_str(", removed"),
    }
}
