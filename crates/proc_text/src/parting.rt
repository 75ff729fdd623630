//! A taken file that is passed on beside parts of its content, each a file of its own.
ghost use Rattle.std.specs.Prelude.{ℕ, ◌≡◌, ◌≤◌, ◌<◌, ◌+◌, ◌++◌, ◌∷◌, [], true, None, IfOk, IfSome, IsSomeAnd, OnOk, length, map, slice_get, string_bytes, sum_by};
ghost use Rattle.flowfile_record.specs.declared.TheConstants.{CONTENT_MAX};
ghost use Rattle.flowfile_record.specs.declared.limits.TheConstants.{FILES_MAX};
ghost use Rattle.machine_model.specs.Making.{or_given_up};
ghost use Rattle.machine_model.specs.Parts.{parted};
ghost use Rattle.process_session.specs.Bench.{content_size};
ghost use Rattle.process_session.specs.Changes.{with_end};
ghost use Rattle.processor_api.specs.Sessions.{BeganWithOne, EndsWith, HasFirstTaken};
ghost use Rattle.proc_text.specs.Parting.{AddsPart, AddsParts, HasOpen, IsAnswered, IsReadTaken, TellsOfParts, end_or_removed, fragments_by, may_be_keys, taken_in, pair_told, with_first_ended};
ghost use Rattle.proc_text.specs.Pieces.{cut_size, lines_told, piece_of, pieces_in};

use crate::passing::attributes_of;
use crate::pieces::{Cut, Piece, pieces_of};
use process_session::{Session, SessionError};
use processor_api::{FILE, pass};
use std::alloc::{AllocError, Global};

/// The place of the relationship to which a file goes as it was where a session hasn't room for all of its parts.
const GIVEN_UP: u16 = 2;

/// The places of the relationships to which the file and its parts go.
#[derive(Clone, Copy)]
pub(crate) struct Ways {
    pub(crate) original: u16,
    pub(crate) parts: u16,
}

/// What each part is told of the whole.
#[derive(Drop)]
struct Whole {
    identifier: String,
    count: String,
    filename: String,
}

/// An attribute that a part is given.
#[derive(Drop)]
struct Told {
    name: &'static str,
    text: String,
}

/// Makes a file of each piece of the taken file's content, and passes it on beside them. Where the session has no room
/// for that, the file alone goes on as it was.
pub(crate) fn part(
    alloc: Global,
    session: &mut Session,
    ways: Ways,
    cut: Cut,
) -> Result<(), AllocError>
    requires one { BeganWithOne session.old }
    requires read { IsReadTaken session.old }
    requires some { 1 ≤ cut_size cut }
    requires original { ways.original < session.old.relationships }
    requires parts { ways.parts < session.old.relationships }
    requires given_up { GIVEN_UP < session.old.relationships }
    ensures { OnOk result (EndsWith session.old session.new (or_given_up GIVEN_UP (taken_in session.old ∷ [])
        (parted ways.original ways.parts (taken_in session.old) (pieces_in cut (taken_in session.old).bytes)))) }
{
    let Ok(content) = session.content(FILE) else {
        unreachable!()
    };
    match pieces_of(alloc, content, cut)? {
        Some(pieces) => part_into(alloc, session, ways, pieces.as_slice()),
        None => {
            pass(session, GIVEN_UP);
            Ok(())
        }
    }
}

/// Makes a file of each of these pieces, and passes the taken file on beside them.
fn part_into(
    alloc: Global,
    session: &mut Session,
    ways: Ways,
    pieces: &[Piece],
) -> Result<(), AllocError>
    requires one { BeganWithOne session.old }
    requires read { IsReadTaken session.old }
    requires few { length pieces.now < FILES_MAX }
    requires inside { sum_by (λ piece. piece.size) pieces.now ≤ content_size session.old FILE }
    requires original { ways.original < session.old.relationships }
    requires parts { ways.parts < session.old.relationships }
    requires given_up { GIVEN_UP < session.old.relationships }
    ensures { OnOk result (EndsWith session.old session.new (or_given_up GIVEN_UP (taken_in session.old ∷ [])
        (parted ways.original ways.parts (taken_in session.old) (map piece_of pieces.now)))) }
{
    let whole = whole_of(alloc, session, pieces.len() as u64)?;
    let made = add_parts(alloc, session, &whole, pieces)?;
    if made as usize == pieces.len() {
        end_parts(session, made, Some(ways.parts));
        session.transfer(FILE, ways.original).unwrap();
    } else {
        end_parts(session, made, None);
        session.transfer(FILE, GIVEN_UP).unwrap();
    }
    Ok(())
}

/// What so many parts are told of the taken file.
fn whole_of(alloc: Global, session: &Session, count: u64) -> Result<Whole, AllocError>
    requires { BeganWithOne session.now }
    ensures { IfOk result (λ whole. TellsOfParts whole session.now count) }
{
    let Some(uuid) = session.uuid(FILE) else {
        unreachable!()
    };
    let filename = attributes_of(session).get("filename").unwrap_or("");
    Ok(Whole {
        identifier: String::from_str(alloc, uuid)?,
        count: format!(in alloc; "{count}")?,
        filename: String::from_str(alloc, filename)?,
    })
}

/// Makes a file of each of these pieces, and tells how many it made: fewer, where the session has no room for the next.
fn add_parts(
    alloc: Global,
    session: &mut Session,
    whole: &Whole,
    pieces: &[Piece],
) -> Result<u32, AllocError>
    requires one { BeganWithOne session.old }
    requires read { IsReadTaken session.old }
    requires few { length pieces.now < FILES_MAX }
    requires inside { sum_by (λ piece. piece.size) pieces.now ≤ content_size session.old FILE }
    requires tells { TellsOfParts whole.now session.old (length pieces.now) }
    ensures { IfOk result (λ made. (relationship : ℕ)
        → AddsParts session.old session.new relationship (map piece_of pieces.now) made) }
{
    let mut offset = 0;
    for (place, piece) in pieces.iter().enumerate() {
        if !add_part(alloc, session, whole, place as u64 + 1, offset, *piece)? {
            return Ok(place as u32);
        }
        offset += piece.size;
    }
    Ok(pieces.len() as u32)
}

/// Makes a file of a piece with its place among the parts, unless the session has no room for it.
fn add_part(
    alloc: Global,
    session: &mut Session,
    whole: &Whole,
    index: u64,
    offset: u64,
    piece: Piece,
) -> Result<bool, AllocError>
    requires taken { HasFirstTaken session.old }
    requires few { length session.old.files < FILES_MAX }
    requires unwritten { session.old.handed ≡ 0 }
    requires inside { offset + piece.size ≤ content_size session.old FILE }
    ensures { IfOk result (λ added. AddsPart session.old session.new offset piece.size
        (lines_told piece.lines ++ fragments_by whole.now index) added) }
{
    let told = told_of(alloc, whole, index, piece.lines)?;
    add_told_part(session, offset, piece.size, told.as_slice())
}

/// What the part at a place among the parts is told.
fn told_of(
    alloc: Global,
    whole: &Whole,
    index: u64,
    lines: Option<u64>,
) -> Result<Vec<Told>, AllocError>
    ensures { IfOk result (λ told. map pair_told told.items ≡ lines_told lines ++ fragments_by whole.now index) }
{
    let mut told = told_of_lines(alloc, lines)?;
    told.push(told_as("fragment.identifier", whole.identifier.clone()?))?;
    told.push(told_as("fragment.index", format!(in alloc; "{index}")?))?;
    told.push(told_as("fragment.count", whole.count.clone()?))?;
    told.push(told_as("segment.original.filename", whole.filename.clone()?))?;
    Ok(told)
}

/// How many lines a part is told that it has.
fn told_of_lines(alloc: Global, lines: Option<u64>) -> Result<Vec<Told>, AllocError>
    ensures { IfOk result (λ told. map pair_told told.items ≡ lines_told lines) }
{
    let mut told = Vec::new(alloc);
    if let Some(lines) = lines {
        told.push(told_as("text.line.count", format!(in alloc; "{lines}")?))?;
    }
    Ok(told)
}

fn told_as(name: &'static str, text: String) -> Told
    ensures { pair_told result ≡ (name.now, string_bytes text) }
{
    Told { name, text }
}

/// Makes a file of a part of the taken content, with these attributes too, unless the session has no room for it.
fn add_told_part(
    session: &mut Session,
    offset: u64,
    size: u64,
    told: &[Told],
) -> Result<bool, AllocError>
    requires taken { HasFirstTaken session.old }
    requires few { length session.old.files < FILES_MAX }
    requires unwritten { session.old.handed ≡ 0 }
    requires inside { offset + size ≤ content_size session.old FILE }
    requires keys { may_be_keys (map pair_told told.now) ≡ true }
    ensures { IfOk result (λ added. AddsPart session.old session.new offset size (map pair_told told.now) added) }
{
    let Some(part) = unless_refused(session.clone_range(FILE, offset, size))? else {
        return Ok(false);
    };
    for attribute in told {
        let put = session.put_attribute(part, attribute.name, attribute.text.as_str());
        if unless_refused(put)?.is_none() {
            session.remove(part).unwrap();
            return Ok(false);
        }
    }
    Ok(true)
}

/// The answer of a session's call, or `None` where the session refuses it.
fn unless_refused<T: Drop>(answer: Result<T, SessionError>) -> Result<Option<T>, AllocError>
    ensures { IfOk result (λ value. IsAnswered answer value) }
{
    match answer {
        Ok(value) => Ok(Some(value)),
        Err(SessionError::Memory) => Err(AllocError),
        Err(_) => Ok(None),
    }
}

/// So many parts end by going to a relationship, or by being removed.
fn end_parts(session: &mut Session, count: u32, relationship: Option<u16>)
    requires open { HasOpen count session.old }
    requires there { IfSome relationship (λ place. place < session.old.relationships) }
    ensures { session.new ≡ with_first_ended (end_or_removed relationship) count session.old }
{
    for index in 0..count {
        end_part(session, FILE + 1 + index, relationship);
    }
}

/// A file ends by going to a relationship, or by being removed.
fn end_part(session: &mut Session, place: u32, relationship: Option<u16>)
    requires open { IsSomeAnd (slice_get session.old.files place) (λ file. file.«end» ≡ None) }
    requires there { IfSome relationship (λ place. place < session.old.relationships) }
    ensures { session.new ≡ with_end session.old place (end_or_removed relationship) }
{
    match relationship {
        Some(relationship) => session.transfer(place, relationship).unwrap(),
        None => session.remove(place).unwrap(),
    }
}
