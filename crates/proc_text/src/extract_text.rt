//! Attributes from what patterns find in a content.
ghost use Rattle.std.specs.Prelude.{◌≡◌, ◌++◌, ◌<◌, ◌≤◌, [], length, map, string_bytes, IfOk, IfSome, IsSome, OnOk, is_some, if◌then◌else◌};
ghost use Rattle.std.specs.List.{flat_map};
ghost use Rattle.std.specs.Str.{is_utf8};
ghost use Rattle.machine_model.specs.declared.limits.TheConstants.{EXTRACTED_MAX};
ghost use Rattle.machine_model.specs.ExtractText.{found_pairs, front_within};
ghost use Rattle.process_session.specs.Bench.{bench_attributes};
ghost use Rattle.processor_api.specs.Acts.{KeepsTaken};
ghost use Rattle.processor_api.specs.Sessions.{BeganWithOne, EndsWith};
ghost use Rattle.regex.specs.Strings.{match_bytes};
ghost use Rattle.proc_text.specs.Extracting.{found_by, group_pairs, matched_with, pair_of, with_named};
ghost use Rattle.proc_text.specs.Kinds.{is_extract_text};

use crate::passing::attributes_of;
use flowfile_record::{AttrError, Attributes};
use machine_model::{EXTRACTED_MAX, Kind, OwnPattern, OwnPatternList};
use process_session::Session;
use processor_api::{Acts, FILE, Given, TakeRule, or_no_memory, pass};
use regex::{Captures, Match};
use simdutf8::basic::from_utf8;
use std::alloc::{AllocError, Global};

const MATCHED: u16 = 0;

const UNMATCHED: u16 = 1;

/// Sets attributes to what the first match of each of its own patterns, and the groups of that match, are in a content.
/// A file in which no pattern finds anything goes as it was to unmatched, and so does one that isn't UTF-8, and one that
/// may not have all of these attributes.
#[derive(Clone, Copy)]
pub struct ExtractText<'k> {
    /// The names that the attributes begin with, each with its pattern.
    pub own: &'k OwnPatternList,
}

impl<'k> ExtractText<'k> {
    /// The processor of a kind, or `None` where the kind is another processor's.
    pub fn of(kind: &'k Kind) -> Option<ExtractText<'k>>
        ensures of { IfSome result (λ processor. Kind.ExtractText processor.own.now ≡ kind.now) }
        ensures other { is_some result ≡ is_extract_text kind.now }
    {
        match kind {
            Kind::ExtractText { own } => Some(ExtractText { own }),
            _ => None,
        }
    }
}

impl Acts for ExtractText<'_> {
    ghost use Rattle.machine_model.specs.declared.kind.Kind.TheVariants.{ExtractText as OfExtractText};

    ghost kind = { λ processor. OfExtractText processor.own.now };

    fn takes(&self) -> TakeRule {
        TakeRule::One
    }

    fn act(
        &self,
        alloc: Global,
        session: &mut Session,
        _given: &mut Given,
    ) -> Result<(), AllocError> {
        let Ok(content) = session.content(FILE) else {
            unreachable!()
        };
        let extracts = extracts_in(alloc, content, self.own.as_slice())?;
        if extracts.is_empty() {
            pass(session, UNMATCHED);
            return Ok(());
        }
        set_if_fit(session, &extracts)
    }
}

/// An attribute that a match gives.
#[derive(Drop)]
struct Extract {
    name: String,
    value: String,
}

/// What the patterns find in a content, if it is UTF-8.
fn extracts_in(
    alloc: Global,
    content: &[u8],
    own: &[OwnPattern],
) -> Result<Vec<Extract>, AllocError>
    ensures { IfOk result (λ extracts. map pair_of extracts.items
        ≡ (if is_utf8 content.now then found_pairs content.now own.now else [])) }
{
    match from_utf8(content) {
        Ok(text) => found_in(alloc, text, own),
        Err(_) => Ok(Vec::new(alloc)),
    }
}

/// What the patterns find in a text.
fn found_in(alloc: Global, text: &str, own: &[OwnPattern]) -> Result<Vec<Extract>, AllocError>
    ensures { IfOk result (λ extracts. map pair_of extracts.items ≡ found_pairs text.now own.now) }
{
    let mut extracts = Vec::new(alloc);
    for property in own {
        add_found(alloc, text, property, &mut extracts)?;
    }
    Ok(extracts)
}

/// Adds what a property's pattern finds in a text: each group that took part, and under the property's own name the
/// first group, or where it took no part the whole match.
fn add_found(
    alloc: Global,
    text: &str,
    property: &OwnPattern,
    extracts: &mut Vec<Extract>,
) -> Result<(), AllocError>
    ensures { OnOk result (map pair_of extracts.new.items
        ≡ map pair_of extracts.old.items ++ found_by text.now property.now) }
{
    let mut matcher = property.pattern.regex.matcher(alloc)?;
    let Some(captures) = matcher.captures(text) else {
        return Ok(());
    };
    let name = property.name.as_str();
    add_groups(alloc, name, &captures, extracts)?;
    let main = captures.get(1).unwrap_or(captures.get_match());
    let name = String::from_str(alloc, name)?;
    let value = value_of(alloc, main)?;
    extracts.push(Extract { name, value })?;
    Ok(())
}

/// Adds each group that took part, under a name with its number.
fn add_groups(
    alloc: Global,
    name: &str,
    captures: &Captures,
    extracts: &mut Vec<Extract>,
) -> Result<(), AllocError>
    ensures { OnOk result (map pair_of extracts.new.items
        ≡ map pair_of extracts.old.items ++ group_pairs name.now captures.now) }
{
    for group in 0..captures.len() {
        if let Some(part) = captures.get(group) {
            let name = format!(in alloc; "{name}.{group}")?;
            let value = value_of(alloc, part)?;
            extracts.push(Extract { name, value })?;
        }
    }
    Ok(())
}

/// The value of an attribute from what matched: as many whole characters of it as a value may have.
fn value_of(alloc: Global, part: Match) -> Result<String, AllocError>
    ensures { IfOk result (λ value. string_bytes value ≡ front_within EXTRACTED_MAX (match_bytes part.entry)) }
{
    let text = part.as_str();
    let (front, _) = text.split_at(text.floor_char_boundary(EXTRACTED_MAX as usize));
    String::from_str(alloc, front)
}

/// Sets all of these, one after another, and passes the file on to matched, or where a name or a limit refuses one, as
/// it was to unmatched.
fn set_if_fit(session: &mut Session, extracts: &[Extract]) -> Result<(), AllocError>
    requires one { BeganWithOne session.old }
    requires there { UNMATCHED < session.old.relationships }
    ensures { let attributes = bench_attributes session.old FILE in
        OnOk result (EndsWith session.old session.new
        (matched_with attributes (with_named attributes (map pair_of extracts.now)))) }
{
    if may_set(attributes_of(session), extracts)? {
        set(session, extracts)?;
        pass(session, MATCHED);
    } else {
        pass(session, UNMATCHED);
    }
    Ok(())
}

/// Whether all of these can be set, one after another. A session takes nothing back: that is tried on a copy.
fn may_set(attributes: &Attributes, extracts: &[Extract]) -> Result<bool, AllocError>
    ensures { IfOk result (λ may. may ≡ is_some (with_named attributes.now (map pair_of extracts.now))) }
{
    let mut tried = attributes.copy()?;
    for extract in extracts {
        match tried.put(extract.name.as_str(), extract.value.as_str()) {
            Ok(_) => {}
            Err(AttrError::Memory) => return Err(AllocError),
            Err(_) => return Ok(false),
        }
    }
    Ok(true)
}

/// Sets attributes that can all be set.
fn set(session: &mut Session, extracts: &[Extract]) -> Result<(), AllocError>
    requires one { BeganWithOne session.old }
    requires may { IsSome (with_named (bench_attributes session.old FILE) (map pair_of extracts.now)) }
    ensures one { OnOk result (BeganWithOne session.new) }
    ensures kept { OnOk result (KeepsTaken session.old session.new) }
    ensures set { OnOk result (with_named (bench_attributes session.old FILE) (map pair_of extracts.now)
        ≡ Some (bench_attributes session.new FILE)) }
{
    for extract in extracts {
        or_no_memory(session.put_attribute(FILE, extract.name.as_str(), extract.value.as_str()))?;
    }
    Ok(())
}
