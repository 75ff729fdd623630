//! One session of a case's processor.
ghost use Rattle.std.specs.Prelude.{◌≤◌, length, IfSome, IsTrue};
ghost use Rattle.flowfile_record.specs.declared.TheConstants.{CONTENT_MAX};
ghost use Rattle.machine_model.specs.Laws.{MayTake};
ghost use Rattle.processor_api.specs.Acts.{IsGivenTo, MayBeHandedTo};

use crate::case;
use anyhow::{Result, bail};
use flowfile_record::{Outcome, TAKEN_MAX};
use machine_model::{Given, Kind, TakeRule};
use proc_attribute::{
    AttributesToJson, CryptographicHashContent, DuplicateFlowFile, RouteOnAttribute,
    UpdateAttribute,
};
use proc_merge::MergeContent;
use proc_source::{GenerateFlowFile, GetFile, PutFile};
use proc_text::{ExtractText, ModifyBytes, ReplaceText, RouteOnContent, SegmentContent, SplitText};
use process_session::TakenList;
use processor_api::work_on;
use serde_json::Value;
use std::alloc::Global;

/// What the processor of a case makes of what it takes and is given.
pub fn outcome_of(alloc: Global, case: &Value) -> Result<Outcome> {
    let flow = case::flow(alloc, case)?;
    let Some(processor) = flow.processors.as_slice().first() else {
        bail!("there is no processor")
    };
    let kind = &processor.kind;
    let taken = case::taken(alloc, case)?;
    let mut given = case::given(alloc, case)?;
    if !may_take(kind.take_rule(), taken.len()) {
        bail!("it takes another number of files");
    }
    if !is_given(kind, &given) {
        bail!("it is given no file");
    }
    worked(alloc, kind, taken, &mut given)
}

/// Whether a rule may take so many files.
fn may_take(rule: TakeRule, count: u64) -> bool
    ensures { IsTrue result → MayTake rule count }
{
    match rule {
        TakeRule::Source => count == 0,
        TakeRule::One => count == 1,
        TakeRule::Bin { max, .. } => count >= 1 && count <= max as u64,
        TakeRule::Defragment => count >= 1 && count <= TAKEN_MAX,
    }
}

/// Whether a GetFile is given a file of the inbox.
fn is_given(kind: &Kind, given: &Given) -> bool
    requires { IfSome given.now.bytes (λ bytes. length bytes ≤ CONTENT_MAX) }
    ensures { IsTrue result → IsGivenTo kind.now given.now }
{
    match kind {
        Kind::GetFile { .. } => given.file.is_some() && given.bytes.is_some(),
        _ => true,
    }
}

fn worked(alloc: Global, kind: &Kind, taken: TakenList, given: &mut Given) -> Result<Outcome>
    requires { MayBeHandedTo kind.now taken given.old }
{
    if let Some(get_file) = GetFile::of(kind) {
        return Ok(work_on(alloc, &get_file, 1, taken, given)?.0);
    }
    if let Some(generator) = GenerateFlowFile::of(kind) {
        return Ok(work_on(alloc, &generator, 1, taken, given)?.0);
    }
    if let Some(put_file) = PutFile::of(kind) {
        return Ok(work_on(alloc, &put_file, 2, taken, given)?.0);
    }
    if let Some(update) = UpdateAttribute::of(kind) {
        return Ok(work_on(alloc, &update, 2, taken, given)?.0);
    }
    if let Some(route) = RouteOnAttribute::of(kind) {
        let relationships = route.own.len() as u16 + 1;
        return Ok(work_on(alloc, &route, relationships, taken, given)?.0);
    }
    if let Some(to_json) = AttributesToJson::of(kind) {
        return Ok(work_on(alloc, &to_json, 2, taken, given)?.0);
    }
    if let Some(duplicate) = DuplicateFlowFile::of(kind) {
        return Ok(work_on(alloc, &duplicate, 1, taken, given)?.0);
    }
    if let Some(hash) = CryptographicHashContent::of(kind) {
        return Ok(work_on(alloc, &hash, 2, taken, given)?.0);
    }
    worked_on_text(alloc, kind, taken, given)
}

/// The same of the processors of texts, and of the one that joins contents.
fn worked_on_text(
    alloc: Global,
    kind: &Kind,
    taken: TakenList,
    given: &mut Given,
) -> Result<Outcome>
    requires { MayBeHandedTo kind.now taken given.old }
{
    if let Some(replace) = ReplaceText::of(kind) {
        return Ok(work_on(alloc, &replace, 2, taken, given)?.0);
    }
    if let Some(route) = RouteOnContent::of(kind) {
        let relationships = route.own.len() as u16 + 1;
        return Ok(work_on(alloc, &route, relationships, taken, given)?.0);
    }
    if let Some(extract) = ExtractText::of(kind) {
        return Ok(work_on(alloc, &extract, 2, taken, given)?.0);
    }
    if let Some(modify) = ModifyBytes::of(kind) {
        return Ok(work_on(alloc, &modify, 1, taken, given)?.0);
    }
    if let Some(split) = SplitText::of(kind) {
        return Ok(work_on(alloc, &split, 3, taken, given)?.0);
    }
    if let Some(segment) = SegmentContent::of(kind) {
        return Ok(work_on(alloc, &segment, 3, taken, given)?.0);
    }
    if let Some(merge) = MergeContent::of(kind) {
        return Ok(work_on(alloc, &merge, 3, taken, given)?.0);
    }
    bail!("no processor of this type")
}
