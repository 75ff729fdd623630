//! Attributes as JSON.
ghost use Rattle.std.specs.Prelude.{◌≡◌, ◌++◌, ◌∷◌, [], IfOk, IfSome, OnOk, codes, is_some, map, string_bytes};
ghost use Rattle.std.specs.FinMap.{entries};
ghost use Rattle.serde_json.specs.Data.{no_members, string};
ghost use Rattle.serde_json.specs.Data.{put as with_member};
ghost use Rattle.serde_json.specs.View.{members_view};
ghost use Rattle.machine_model.specs.Making.{as_content};
ghost use Rattle.machine_model.specs.AttributesToJson.{json_of, listed};
ghost use Rattle.process_session.specs.Bench.{bench_attributes};
ghost use Rattle.processor_api.specs.Sessions.{TookOne, EndsWith};
ghost use Rattle.proc_attribute.specs.Kinds.{is_attributes_to_json};
ghost use Rattle.proc_attribute.specs.Json.{found_pair, replaced_with, with_texts};

use crate::passing::{note, pass};
use crate::taken::{Taken, file_of};
use crate::{FAILURE, SUCCESS};
use expr_lang::Subject;
use flowfile_record::{ATTRIBUTES_MAX, Attributes, Text, TextList};
use machine_model::{Destination, Kind};
use process_session::Session;
use processor_api::{Acts, FILE, Given, TakeRule};
use serde_json::{Map, Value, put};
use std::alloc::{AllocError, Global};

/// Writes attributes as a JSON object of texts.
#[derive(Clone, Copy)]
pub struct AttributesToJson<'k> {
    pub destination: Destination,
    /// Which attributes. No names stand for all, and the uuid.
    pub names: &'k TextList,
}

impl<'k> AttributesToJson<'k> {
    /// The processor of a kind, or `None` where the kind is another processor's.
    pub fn of(kind: &'k Kind) -> Option<AttributesToJson<'k>>
        ensures of { IfSome result (λ processor.
            Kind.AttributesToJson processor.destination processor.names.now ≡ kind.now) }
        ensures other { is_some result ≡ is_attributes_to_json kind.now }
    {
        match kind {
            Kind::AttributesToJson { destination, names } => Some(AttributesToJson {
                destination: *destination,
                names,
            }),
            _ => None,
        }
    }
}

impl Acts for AttributesToJson<'_> {
    ghost use Rattle.machine_model.specs.declared.kind.Kind.TheVariants.{AttributesToJson as OfAttributesToJson};

    ghost kind = { λ processor. OfAttributesToJson processor.destination processor.names.now };

    fn takes(&self) -> TakeRule {
        TakeRule::One
    }

    fn act(
        &self,
        alloc: Global,
        session: &mut Session,
        _given: &mut Given,
    ) -> Result<(), AllocError> {
        let file = file_of(session);
        let json = json_of(alloc, self.names.as_slice(), &file)?;
        match self.destination {
            Destination::Attribute => note(session, "JSONAttributes", json.as_str()),
            Destination::Content => {
                replace(session, json.into_bytes());
                Ok(())
            }
        }
    }
}

/// Replaces the content and passes the file on to success, or where the bytes are too many, as it was to failure.
fn replace(session: &mut Session, bytes: Vec<u8>)
    requires { TookOne session.old }
    ensures { EndsWith session.old session.new
        (replaced_with (bench_attributes session.old FILE) (as_content bytes.items)) }
{
    let size = file_of(session).attributes.size();
    prove!(size <= ATTRIBUTES_MAX);
    match session.write(FILE, bytes) {
        Ok(()) => pass(session, SUCCESS),
        Err(_) => pass(session, FAILURE),
    }
}

/// The attributes of these names as JSON, or where there are none, all of them.
fn json_of(alloc: Global, names: &[Text], file: &Taken) -> Result<String, AllocError>
    ensures { IfOk result (λ json. string_bytes json ≡ json_of names.now
        (record { attributes = file.now.attributes.now; uuid = file.now.uuid.now; bytes = [] })) }
{
    let members = members_of(alloc, names, file)?;
    Value::Object(members).to_string(alloc)
}

fn members_of(alloc: Global, names: &[Text], file: &Taken) -> Result<Map<String, Value>, AllocError>
    ensures { IfOk result (λ members. members_view members.entries ≡ with_texts no_members (listed names.now
        (record { attributes = file.now.attributes.now; uuid = file.now.uuid.now; bytes = [] }))) }
{
    if names.is_empty() {
        return all_members(alloc, file);
    }
    listed_members(alloc, names, file)
}

/// The attributes of these names. A missing one is the empty text.
fn listed_members(
    alloc: Global,
    names: &[Text],
    file: &Taken,
) -> Result<Map<String, Value>, AllocError>
    ensures { IfOk result (λ members. members_view members.entries ≡ with_texts no_members
        (map (found_pair file.now.attributes.now file.now.uuid.now) names.now)) }
{
    let mut members = Map::new(alloc);
    for name in names {
        let name = name.as_str();
        put_text(alloc, &mut members, name, file.find(name).unwrap_or(""))?;
    }
    Ok(members)
}

/// All attributes and the uuid.
fn all_members(alloc: Global, file: &Taken) -> Result<Map<String, Value>, AllocError>
    ensures { IfOk result (λ members. members_view members.entries ≡ with_texts no_members
        (entries file.now.attributes.now ++ (codes "uuid", file.now.uuid.now) ∷ [])) }
{
    let mut members = attribute_members(alloc, file.attributes)?;
    put_text(alloc, &mut members, "uuid", file.uuid)?;
    Ok(members)
}

fn attribute_members(
    alloc: Global,
    attributes: &Attributes,
) -> Result<Map<String, Value>, AllocError>
    ensures { IfOk result (λ members. members_view members.entries ≡ with_texts no_members (entries attributes.now)) }
{
    let mut members = Map::new(alloc);
    for place in 0..attributes.len() {
        let Some((key, value)) = attributes.pair(place) else {
            unreachable!()
        };
        put_text(alloc, &mut members, key, value)?;
    }
    Ok(members)
}

fn put_text(
    alloc: Global,
    members: &mut Map<String, Value>,
    key: &str,
    text: &str,
) -> Result<(), AllocError>
    ensures { OnOk result (members_view members.new.entries
        ≡ with_member key.now (string text.now) (members_view members.old.entries)) }
{
    let text = String::from_str(alloc, text)?;
    put(members, alloc, key, Value::String(text))
}
