//! Making the processors of a text: building their patterns and reading their expressions.
ghost use Rattle.std.specs.Prelude.{◌≡◌, ◌≤◌, ◌&&◌, not, true, false, [], map, option_map, Some, IfOk, OnOk};
ghost use Rattle.serde_json.specs.View.{view};
ghost use Rattle.flow_definition.specs.Looks.{hold_patterns, own_in, type_of};
ghost use Rattle.flow_definition.specs.Judged.{AreJudged, IsJudged, IsRefusedAs, is_refusal, part_at, processors_with, refused_property, first_refused_in, refused_with};
ghost use Rattle.flow_definition.specs.Made.{IsMade, IsMadeKind, told_kind, told_made, rule_of};
ghost use Rattle.flow_definition.specs.Reading.{IsKindOf, IsProcessorOf, replace_strategy_in};
ghost use Rattle.flow_definition.specs.Patterns.{HasRisen, told_by_builder};
ghost use Rattle.flow_definition.specs.Places.{part_path, place_path};

use crate::building::{Built, build, whole};
use crate::expressions::{MadeOwn, make_own};
use crate::field::Field;
use crate::listed::listed_names;
use crate::look::{own_in, type_of};
use crate::own_patterns::{
    AttemptList, MadePatterns, make_own_patterns, name_refused, rule_broken, try_own_patterns,
};
use crate::patterns::Patterns;
use crate::place::{Part, Place};
use crate::processor_type::{Own, ProcessorType, Property, ReplaceStrategy};
use crate::reading::{
    conflict_in, copies_in, count_in, destination_in, id_at, lines_in, maximum_in,
    merge_strategy_in, minimum_in, number_by, penalty_at, property_text, replace_strategy_in,
    requirement_in, tasks_at, texts_at,
};
use crate::rule::Rule;
use expr_lang::{ExprError, parse};
use flowfile_record::Text;
use machine_model::{Kind, Processor, Replacement};
use serde_json::Value;
use std::alloc::{AllocError, Global};

/// What becomes of a processor of the text.
#[derive(Drop)]
pub enum Made {
    Processor(Processor),
    Refused(Refusal),
}

/// Why a processor isn't made, and at which property.
#[derive(Drop)]
pub enum Refusal {
    /// Its type isn't known.
    NoType,
    /// A pattern can't be read, or nests too deep.
    Unread(Property),
    /// The builder refuses a pattern as too large.
    TooBig(Property),
    /// A text is no expression.
    NoExpression(Property),
    /// The text of an own property, of this name, is no expression.
    NoOwnExpression(Text),
    /// Patterns of its own can't be read, nest too deep, or are refused as too large.
    NoOwnPatterns(AttemptList),
}

impl Refusal {
    fn rule(&self) -> Rule
        ensures { result ≡ rule_of self.now }
    {
        match self {
            Refusal::NoType => Rule::UnknownType,
            Refusal::Unread(_) => Rule::BadPattern,
            Refusal::TooBig(_) => Rule::PatternTooBig,
            Refusal::NoExpression(_) => Rule::BadExpression,
            Refusal::NoOwnExpression(_) => Rule::BadExpression,
            Refusal::NoOwnPatterns(attempts) => rule_broken(attempts.as_slice()),
        }
    }

    /// The name of the property, unless it is the type.
    fn property(&self) -> Option<&str>
        ensures { option_map (λ name. name.now) result ≡ refused_property self.now }
    {
        match self {
            Refusal::NoType => None,
            Refusal::Unread(property) => Some(property.name()),
            Refusal::TooBig(property) => Some(property.name()),
            Refusal::NoExpression(property) => Some(property.name()),
            Refusal::NoOwnExpression(name) => Some(name.as_str()),
            Refusal::NoOwnPatterns(attempts) => Some(name_refused(attempts.as_slice())),
        }
    }
}

/// A processor that isn't made. It holds no pattern.
#[derive(Drop)]
pub(crate) struct RefusedProcessor {
    /// In the text's list.
    place: usize,
    rule: Rule,
    /// The name of the property that breaks the rule, unless it is the type.
    property: Option<Text>,
}

impl RefusedProcessor {
    fn new(alloc: Global, place: usize, refusal: &Refusal) -> Result<RefusedProcessor, AllocError>
        ensures { IfOk result (IsRefusedAs place refusal.now) }
    {
        let property = match refusal.property() {
            Some(name) => Some(Text::from_str(alloc, name)?),
            None => None,
        };
        Ok(RefusedProcessor {
            place,
            rule: refusal.rule(),
            property,
        })
    }

    fn part(&self) -> Part<'_>
        ensures { part_path result ≡ part_at self.now.property }
    {
        match &self.property {
            Some(name) => Part::Property(name.as_str()),
            None => Part::Field(Field::TypeName),
        }
    }
}

/// What is kept of a processor that is judged.
#[derive(Drop)]
pub(crate) enum Kept {
    /// Where the text may yet be accepted.
    Processor(Processor),
    Refused(RefusedProcessor),
    /// It is in order, but the text can't be accepted.
    Nothing,
}

/// The processors of a text, as they are judged one after the other.
#[derive(Drop)]
pub(crate) struct JudgedProcessors {
    pub(crate) refused: Vec<RefusedProcessor>,
    /// All that are made, as long as the text may be accepted; then none.
    pub(crate) processors: Vec<Processor>,
    may_be_accepted: bool,
}

impl JudgedProcessors {
    fn new(alloc: Global, may_be_accepted: bool) -> JudgedProcessors
        ensures refused { result.refused.items ≡ [] }
        ensures processors { result.processors.items ≡ [] }
        ensures accepted { result.may_be_accepted ≡ may_be_accepted }
    {
        JudgedProcessors {
            refused: Vec::new(alloc),
            processors: Vec::new(alloc),
            may_be_accepted,
        }
    }

    fn push(&mut self, kept: Kept) -> Result<(), AllocError>
        ensures refused { OnOk result (self.new.refused.items ≡ refused_with self.old.refused.items kept) }
        ensures processors { OnOk result (self.new.processors.items ≡ processors_with self.old.processors.items kept) }
        ensures accepted { OnOk result (self.new.may_be_accepted ≡ self.old.may_be_accepted && not (is_refusal kept)) }
    {
        match kept {
            Kept::Processor(processor) => self.processors.push(processor)?,
            Kept::Refused(refused) => {
                self.may_be_accepted = false;
                self.processors.clear();
                self.refused.push(refused)?;
            }
            Kept::Nothing => {}
        }
        Ok(())
    }
}

/// A kind with its properties read, or why there is none.
#[derive(Drop)]
pub(crate) enum MadeKind {
    Kind(Kind),
    Refused(Refusal),
}

/// Judges the processors of a text one after the other. Once one is refused, or where the text can't be accepted for
/// another rule, none is kept, and each pattern is let go as soon as it is built.
pub(crate) fn make_all<P: Patterns>(
    alloc: Global,
    items: &[Value],
    may_be_accepted: bool,
    patterns: &mut P,
) -> Result<JudgedProcessors, AllocError>
    ensures judged { IfOk result (AreJudged (told_by_builder P.faults P.refused patterns.old)
        (told_by_builder P.faults P.refused patterns.new) may_be_accepted (map view items.now)) }
    ensures count { P.faults patterns.old ≤ P.faults patterns.new }
{
    let mut judged = JudgedProcessors::new(alloc, may_be_accepted);
    'items: for (place, item) in items.iter().enumerate() {
        let kept = judge(alloc, place, item, judged.may_be_accepted, patterns)?;
        judged.push(kept)?;
    }
    Ok(judged)
}

fn judge<P: Patterns>(
    alloc: Global,
    place: usize,
    processor: &Value,
    may_be_accepted: bool,
    patterns: &mut P,
) -> Result<Kept, AllocError>
    ensures judged { IfOk result (IsJudged (told_by_builder P.faults P.refused patterns.old)
        (told_by_builder P.faults P.refused patterns.new) may_be_accepted place (view processor.now)) }
    ensures count { P.faults patterns.old ≤ P.faults patterns.new }
{
    if !may_be_accepted && has_own_patterns(processor) {
        return judge_own_patterns(alloc, place, processor, patterns);
    }
    match make(alloc, processor, patterns)? {
        Made::Processor(processor) => {
            if may_be_accepted {
                Ok(Kept::Processor(processor))
            } else {
                Ok(Kept::Nothing)
            }
        }
        Made::Refused(refusal) => Ok(Kept::Refused(RefusedProcessor::new(alloc, place, &refusal)?)),
    }
}

/// Judges a processor with patterns of its own, where the text can't be accepted.
fn judge_own_patterns<P: Patterns>(
    alloc: Global,
    place: usize,
    processor: &Value,
    patterns: &mut P,
) -> Result<Kept, AllocError>
    requires { hold_patterns (own_in (view processor.now)) ≡ true }
    ensures judged { IfOk result (IsJudged (told_by_builder P.faults P.refused patterns.old)
        (told_by_builder P.faults P.refused patterns.new) false place (view processor.now)) }
    ensures count { P.faults patterns.old ≤ P.faults patterns.new }
{
    match try_own_patterns(alloc, processor, patterns)?.refusal() {
        Some((rule, name)) => Ok(Kept::Refused(RefusedProcessor {
            place,
            rule,
            property: Some(name),
        })),
        None => Ok(Kept::Nothing),
    }
}

fn has_own_patterns(processor: &Value) -> bool
    ensures { result ≡ hold_patterns (own_in (view processor.now)) }
{
    match own_in(processor) {
        Own::AttributePatterns | Own::RelationshipPatterns => true,
        Own::Nothing | Own::Attributes | Own::Relationships => false,
    }
}

fn make<P: Patterns>(alloc: Global, processor: &Value, patterns: &mut P) -> Result<Made, AllocError>
    ensures made { IfOk result
        (IsMade (HasRisen (P.faults patterns.old) (P.faults patterns.new)) (view processor.now)) }
    ensures count { P.faults patterns.old ≤ P.faults patterns.new }
    ensures told { IfOk result (λ made. told_by_builder P.faults P.refused patterns.new
        ≡ told_made (told_by_builder P.faults P.refused patterns.old) (view processor.now) made) }
{
    match make_kind(alloc, processor, patterns)? {
        MadeKind::Kind(kind) => Ok(Made::Processor(with_kind(alloc, processor, kind)?)),
        MadeKind::Refused(refusal) => Ok(Made::Refused(refusal)),
    }
}

fn with_kind(alloc: Global, processor: &Value, kind: Kind) -> Result<Processor, AllocError>
    requires { IsKindOf (view processor.now) kind }
    ensures { IfOk result (IsProcessorOf (view processor.now)) }
{
    let id = id_at(alloc, processor, Field::Id)?;
    let terminated = texts_at(alloc, processor, Field::Terminated)?;
    Ok(Processor {
        id,
        kind,
        tasks: tasks_at(processor),
        penalty: penalty_at(processor),
        terminated,
    })
}

fn make_kind<P: Patterns>(
    alloc: Global,
    processor: &Value,
    patterns: &mut P,
) -> Result<MadeKind, AllocError>
    ensures made { IfOk result
        (IsMadeKind (HasRisen (P.faults patterns.old) (P.faults patterns.new)) (view processor.now)) }
    ensures count { P.faults patterns.old ≤ P.faults patterns.new }
    ensures told { IfOk result (λ made. told_by_builder P.faults P.refused patterns.new
        ≡ told_kind (told_by_builder P.faults P.refused patterns.old) (view processor.now) made) }
{
    match type_of(processor) {
        Some(ProcessorType::GetFile) => make_get_file(alloc, processor, patterns),
        Some(ProcessorType::GenerateFlowFile) => make_generator(alloc, processor),
        Some(ProcessorType::PutFile) => Ok(MadeKind::Kind(Kind::PutFile {
            conflict: conflict_in(processor),
        })),
        Some(ProcessorType::UpdateAttribute) => make_updater(alloc, processor),
        Some(ProcessorType::RouteOnAttribute) => make_router(alloc, processor),
        Some(ProcessorType::AttributesToJson) => make_json_writer(alloc, processor),
        Some(ProcessorType::DuplicateFlowFile) => Ok(MadeKind::Kind(Kind::DuplicateFlowFile {
            copies: copies_in(processor),
        })),
        Some(ProcessorType::CryptographicHashContent) => {
            Ok(MadeKind::Kind(Kind::CryptographicHashContent))
        }
        Some(ProcessorType::SplitText) => Ok(MadeKind::Kind(Kind::SplitText {
            lines: lines_in(processor),
        })),
        Some(ProcessorType::ReplaceText) => make_replacer(alloc, processor, patterns),
        Some(ProcessorType::ExtractText) => make_extractor(alloc, processor, patterns),
        Some(ProcessorType::RouteOnContent) => make_content_router(alloc, processor, patterns),
        Some(ProcessorType::MergeContent) => Ok(MadeKind::Kind(Kind::MergeContent {
            strategy: merge_strategy_in(processor),
            minimum: minimum_in(processor),
            maximum: maximum_in(processor),
        })),
        Some(ProcessorType::SegmentContent) => Ok(MadeKind::Kind(Kind::SegmentContent {
            size: number_by(Property::SegmentSize, processor),
        })),
        Some(ProcessorType::ModifyBytes) => Ok(MadeKind::Kind(Kind::ModifyBytes {
            start: number_by(Property::StartOffset, processor),
            end: number_by(Property::EndOffset, processor),
        })),
        None => Ok(MadeKind::Refused(Refusal::NoType)),
    }
}

fn make_generator(alloc: Global, processor: &Value) -> Result<MadeKind, AllocError>
    requires { type_of (view processor.now) ≡ Some ProcessorType.GenerateFlowFile }
    ensures { IfOk result (IsMadeKind ⊥ (view processor.now)) }
{
    match parse(alloc, property_text(Property::CustomText, processor)) {
        Ok(custom_text) => Ok(MadeKind::Kind(Kind::GenerateFlowFile {
            count: count_in(processor),
            custom_text,
        })),
        Err(ExprError::Bad { .. }) => {
            Ok(MadeKind::Refused(Refusal::NoExpression(Property::CustomText)))
        }
        Err(ExprError::Memory) => Err(AllocError),
    }
}

fn make_updater(alloc: Global, processor: &Value) -> Result<MadeKind, AllocError>
    requires { type_of (view processor.now) ≡ Some ProcessorType.UpdateAttribute }
    ensures { IfOk result (IsMadeKind ⊥ (view processor.now)) }
{
    match make_own(alloc, processor)? {
        MadeOwn::Read(own) => Ok(MadeKind::Kind(Kind::UpdateAttribute { own })),
        MadeOwn::Unread(name) => Ok(MadeKind::Refused(Refusal::NoOwnExpression(name))),
    }
}

fn make_router(alloc: Global, processor: &Value) -> Result<MadeKind, AllocError>
    requires { type_of (view processor.now) ≡ Some ProcessorType.RouteOnAttribute }
    ensures { IfOk result (IsMadeKind ⊥ (view processor.now)) }
{
    match make_own(alloc, processor)? {
        MadeOwn::Read(own) => Ok(MadeKind::Kind(Kind::RouteOnAttribute { own })),
        MadeOwn::Unread(name) => Ok(MadeKind::Refused(Refusal::NoOwnExpression(name))),
    }
}

fn make_json_writer(alloc: Global, processor: &Value) -> Result<MadeKind, AllocError>
    requires { type_of (view processor.now) ≡ Some ProcessorType.AttributesToJson }
    ensures { IfOk result (IsMadeKind ⊥ (view processor.now)) }
{
    let names = listed_names(alloc, property_text(Property::AttributesList, processor))?;
    Ok(MadeKind::Kind(Kind::AttributesToJson {
        destination: destination_in(processor),
        names,
    }))
}

fn make_get_file<P: Patterns>(
    alloc: Global,
    processor: &Value,
    patterns: &mut P,
) -> Result<MadeKind, AllocError>
    requires { type_of (view processor.now) ≡ Some ProcessorType.GetFile }
    ensures made { IfOk result
        (IsMadeKind (HasRisen (P.faults patterns.old) (P.faults patterns.new)) (view processor.now)) }
    ensures count { P.faults patterns.old ≤ P.faults patterns.new }
    ensures told { IfOk result (λ made. told_by_builder P.faults P.refused patterns.new
        ≡ told_kind (told_by_builder P.faults P.refused patterns.old) (view processor.now) made) }
{
    let text = whole(alloc, property_text(Property::FileFilter, processor))?;
    match build(alloc, text, patterns)? {
        Built::Pattern(filter) => Ok(MadeKind::Kind(Kind::GetFile {
            filter: Some(filter),
        })),
        Built::Unread => Ok(MadeKind::Refused(Refusal::Unread(Property::FileFilter))),
        Built::TooBig => Ok(MadeKind::Refused(Refusal::TooBig(Property::FileFilter))),
    }
}

fn make_replacer<P: Patterns>(
    alloc: Global,
    processor: &Value,
    patterns: &mut P,
) -> Result<MadeKind, AllocError>
    requires { type_of (view processor.now) ≡ Some ProcessorType.ReplaceText }
    ensures made { IfOk result
        (IsMadeKind (HasRisen (P.faults patterns.old) (P.faults patterns.new)) (view processor.now)) }
    ensures count { P.faults patterns.old ≤ P.faults patterns.new }
    ensures told { IfOk result (λ made. told_by_builder P.faults P.refused patterns.new
        ≡ told_kind (told_by_builder P.faults P.refused patterns.old) (view processor.now) made) }
{
    match replace_strategy_in(processor) {
        ReplaceStrategy::Regex => make_regex_replacer(alloc, processor, patterns),
        ReplaceStrategy::Literal => make_literal_replacer(alloc, processor),
    }
}

fn make_regex_replacer<P: Patterns>(
    alloc: Global,
    processor: &Value,
    patterns: &mut P,
) -> Result<MadeKind, AllocError>
    requires named { type_of (view processor.now) ≡ Some ProcessorType.ReplaceText }
    requires strategy { replace_strategy_in (view processor.now) ≡ ReplaceStrategy.Regex }
    ensures made { IfOk result
        (IsMadeKind (HasRisen (P.faults patterns.old) (P.faults patterns.new)) (view processor.now)) }
    ensures count { P.faults patterns.old ≤ P.faults patterns.new }
    ensures told { IfOk result (λ made. told_by_builder P.faults P.refused patterns.new
        ≡ told_kind (told_by_builder P.faults P.refused patterns.old) (view processor.now) made) }
{
    let text = Text::from_str(alloc, property_text(Property::SearchValue, processor))?;
    match build(alloc, text, patterns)? {
        Built::Pattern(search) => {
            let value = property_text(Property::ReplacementValue, processor);
            let template = Text::from_str(alloc, value)?;
            Ok(MadeKind::Kind(Kind::ReplaceText {
                replacement: Replacement::Regex { search, template },
            }))
        }
        Built::Unread => Ok(MadeKind::Refused(Refusal::Unread(Property::SearchValue))),
        Built::TooBig => Ok(MadeKind::Refused(Refusal::TooBig(Property::SearchValue))),
    }
}

fn make_literal_replacer(alloc: Global, processor: &Value) -> Result<MadeKind, AllocError>
    requires named { type_of (view processor.now) ≡ Some ProcessorType.ReplaceText }
    requires strategy { replace_strategy_in (view processor.now) ≡ ReplaceStrategy.Literal }
    ensures { IfOk result (IsMadeKind ⊥ (view processor.now)) }
{
    let search = Text::from_str(alloc, property_text(Property::SearchValue, processor))?;
    let value = Text::from_str(alloc, property_text(Property::ReplacementValue, processor))?;
    Ok(MadeKind::Kind(Kind::ReplaceText {
        replacement: Replacement::Literal { search, value },
    }))
}

fn make_extractor<P: Patterns>(
    alloc: Global,
    processor: &Value,
    patterns: &mut P,
) -> Result<MadeKind, AllocError>
    requires { type_of (view processor.now) ≡ Some ProcessorType.ExtractText }
    ensures made { IfOk result
        (IsMadeKind (HasRisen (P.faults patterns.old) (P.faults patterns.new)) (view processor.now)) }
    ensures count { P.faults patterns.old ≤ P.faults patterns.new }
    ensures told { IfOk result (λ made. told_by_builder P.faults P.refused patterns.new
        ≡ told_kind (told_by_builder P.faults P.refused patterns.old) (view processor.now) made) }
{
    match make_own_patterns(alloc, processor, patterns)? {
        MadePatterns::Read(own) => Ok(MadeKind::Kind(Kind::ExtractText { own })),
        MadePatterns::Refused(attempts) => Ok(MadeKind::Refused(Refusal::NoOwnPatterns(attempts))),
    }
}

fn make_content_router<P: Patterns>(
    alloc: Global,
    processor: &Value,
    patterns: &mut P,
) -> Result<MadeKind, AllocError>
    requires { type_of (view processor.now) ≡ Some ProcessorType.RouteOnContent }
    ensures made { IfOk result
        (IsMadeKind (HasRisen (P.faults patterns.old) (P.faults patterns.new)) (view processor.now)) }
    ensures count { P.faults patterns.old ≤ P.faults patterns.new }
    ensures told { IfOk result (λ made. told_by_builder P.faults P.refused patterns.new
        ≡ told_kind (told_by_builder P.faults P.refused patterns.old) (view processor.now) made) }
{
    match make_own_patterns(alloc, processor, patterns)? {
        MadePatterns::Read(own) => Ok(MadeKind::Kind(Kind::RouteOnContent {
            requirement: requirement_in(processor),
            own,
        })),
        MadePatterns::Refused(attempts) => Ok(MadeKind::Refused(Refusal::NoOwnPatterns(attempts))),
    }
}

/// The first processor that was refused by a rule, and where.
pub(crate) fn first_refused(rule: Rule, list: &[RefusedProcessor]) -> Option<Place<'_>>
    ensures { option_map place_path result ≡ first_refused_in rule list.now }
{
    'list: for refused in list {
        if refused.rule.number() == rule.number() {
            return Some(Place {
                item: Some((Field::Processors, refused.place)),
                part: refused.part(),
            });
        }
    }
    None
}
