//! The work of a flow's processors.
ghost use Rattle.std.specs.Prelude.{◌≡◌, IfOk, IsTrue};
ghost use Rattle.processor_api.specs.Acts.{KeepsGiven, MayBeHandedTo};
ghost use Rattle.engine_session.specs.Working.{is_built, is_of_attributes, is_of_texts, IsWorkAt, IsWorkOf, MayWork};

use flowfile_record::Outcome;
use machine_model::{Flow, Given, Kind};
use proc_attribute::{
    AttributesToJson, CryptographicHashContent, DuplicateFlowFile, RouteOnAttribute,
    UpdateAttribute,
};
use proc_merge::MergeContent;
use proc_source::{GenerateFlowFile, GetFile, PutFile};
use proc_text::{ExtractText, ModifyBytes, ReplaceText, RouteOnContent, SegmentContent, SplitText};
use process_session::{SourceList, TakenList};
use processor_api::work_on;
use std::alloc::{AllocError, Global};

/// What the processor at a place of a flow makes of these files, and what stays of them. The bytes that it is given
/// may be taken out.
pub(crate) fn work_at(
    alloc: Global,
    flow: &Flow,
    processor: u16,
    taken: TakenList,
    given: &mut Given,
) -> Result<(Outcome, SourceList), AllocError>
    requires { MayWork flow.now processor taken given.old }
    ensures work { IfOk result (IsWorkAt flow.now processor taken given.old) }
    ensures given { KeepsGiven given.old given.new }
{
    let Some(processor) = flow.processors.as_slice().get(processor as usize) else {
        unreachable!()
    };
    work_as(alloc, &processor.kind, taken, given)
}

/// What a processor of this kind makes of them.
fn work_as(
    alloc: Global,
    kind: &Kind,
    taken: TakenList,
    given: &mut Given,
) -> Result<(Outcome, SourceList), AllocError>
    requires handed { MayBeHandedTo kind.now taken given.old }
    ensures work { IfOk result (IsWorkOf kind.now taken given.old) }
    ensures given { KeepsGiven given.old given.new }
{
    each_kind_is_built(kind);
    if let Some(get_file) = GetFile::of(kind) {
        return work_on(alloc, &get_file, 1, taken, given);
    }
    if let Some(generator) = GenerateFlowFile::of(kind) {
        return work_on(alloc, &generator, 1, taken, given);
    }
    if let Some(put_file) = PutFile::of(kind) {
        return work_on(alloc, &put_file, 2, taken, given);
    }
    if let Some(merge) = MergeContent::of(kind) {
        return work_on(alloc, &merge, 3, taken, given);
    }
    if is_of_texts(kind) {
        return work_on_texts(alloc, kind, taken, given);
    }
    work_on_attributes(alloc, kind, taken, given)
}

// It does nothing: there are processors of each kind.
fn each_kind_is_built(kind: &Kind)
    ensures { IsTrue (is_built kind.now) }
{
    let _ = kind;
}

/// Whether a processor of this kind works on a content, or goes by it.
fn is_of_texts(kind: &Kind) -> bool
    ensures { result ≡ is_of_texts kind.now }
{
    matches!(
        kind,
        Kind::SplitText { .. }
            | Kind::ReplaceText { .. }
            | Kind::ExtractText { .. }
            | Kind::RouteOnContent { .. }
            | Kind::SegmentContent { .. }
            | Kind::ModifyBytes { .. }
    )
}

/// The same of a processor of attributes.
fn work_on_attributes(
    alloc: Global,
    kind: &Kind,
    taken: TakenList,
    given: &mut Given,
) -> Result<(Outcome, SourceList), AllocError>
    requires built { IsTrue (is_of_attributes kind.now) }
    requires handed { MayBeHandedTo kind.now taken given.old }
    ensures work { IfOk result (IsWorkOf kind.now taken given.old) }
    ensures given { KeepsGiven given.old given.new }
{
    if let Some(update) = UpdateAttribute::of(kind) {
        return work_on(alloc, &update, 2, taken, given);
    }
    if let Some(route) = RouteOnAttribute::of(kind) {
        let relationships = route.own.len() as u16 + 1;
        return work_on(alloc, &route, relationships, taken, given);
    }
    if let Some(to_json) = AttributesToJson::of(kind) {
        return work_on(alloc, &to_json, 2, taken, given);
    }
    if let Some(duplicate) = DuplicateFlowFile::of(kind) {
        return work_on(alloc, &duplicate, 1, taken, given);
    }
    if let Some(hash) = CryptographicHashContent::of(kind) {
        return work_on(alloc, &hash, 2, taken, given);
    }
    unreachable!()
}

/// The same of a processor of contents.
fn work_on_texts(
    alloc: Global,
    kind: &Kind,
    taken: TakenList,
    given: &mut Given,
) -> Result<(Outcome, SourceList), AllocError>
    requires built { IsTrue (is_of_texts kind.now) }
    requires handed { MayBeHandedTo kind.now taken given.old }
    ensures work { IfOk result (IsWorkOf kind.now taken given.old) }
    ensures given { KeepsGiven given.old given.new }
{
    if let Some(split) = SplitText::of(kind) {
        return work_on(alloc, &split, 3, taken, given);
    }
    if let Some(replace) = ReplaceText::of(kind) {
        return work_on(alloc, &replace, 2, taken, given);
    }
    if let Some(extract) = ExtractText::of(kind) {
        return work_on(alloc, &extract, 2, taken, given);
    }
    if let Some(route) = RouteOnContent::of(kind) {
        let relationships = route.own.len() as u16 + 1;
        return work_on(alloc, &route, relationships, taken, given);
    }
    if let Some(segment) = SegmentContent::of(kind) {
        return work_on(alloc, &segment, 3, taken, given);
    }
    if let Some(modify) = ModifyBytes::of(kind) {
        return work_on(alloc, &modify, 1, taken, given);
    }
    unreachable!()
}
