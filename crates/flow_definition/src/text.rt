//! Reading a flow's text.
ghost use Rattle.std.specs.Prelude.{◌≡◌, [], IfOk, IsSome, option_map};
ghost use Rattle.std.specs.Option.{option_or};
ghost use Rattle.disk_trait.specs.Faults.{CountsFaults};
ghost use Rattle.machine_model.specs.Sound.{IsSound};
ghost use Rattle.serde_json.specs.View.{view};
ghost use Rattle.sha2.specs.Sha256.{sha256};
ghost use Rattle.flow_definition.specs.Judged.{refused_in, first_told};
ghost use Rattle.flow_definition.specs.Patterns.{HasRisen, told_by_builder};
ghost use Rattle.flow_definition.specs.Places.{broken_path};
ghost use Rattle.flow_definition.specs.Verdict.{IsAnswer, IsAnswerOf, IsAnswerBehind, IsPatternTooBig, IsTold, IsToldIn, IsError, broken_before, object_in};
ghost use Rattle.flow_definition.specs.Walk.{first_broken, first_rules, last_rules};

use crate::error::FlowError;
use crate::field::Field;
use crate::limits::TEXT_MAX;
use crate::look::items_at;
use crate::made::{RefusedProcessor, first_refused, make_all};
use crate::patterns::Patterns;
use crate::place::{Broken, Part, Place};
use crate::pointer::pointer_of;
use crate::reading::connections_of;
use crate::rule::Rule;
use crate::walk::first_of;
use flowfile_record::Sequence;
use machine_model::Flow;
use serde_json::Value;
use sha2::{Digest, Sha256};
use std::alloc::{AllocError, Global};

/// The flow that a text stands for, which is sound, or the lowest rule that it breaks and its first place. A pattern is
/// too big only where the builder refused it so, as its count tells. Where a rule is broken that comes before patterns,
/// the builder isn't called.
pub fn read_flow<P: Patterns>(
    alloc: Global,
    bytes: &[u8],
    patterns: &mut P,
) -> Result<Flow, FlowError>
    ensures answer { IsAnswer (HasRisen (P.faults patterns.old) (P.faults patterns.new)) bytes.now result }
    ensures sound { IfOk result IsSound }
    ensures count { CountsFaults (P.faults patterns.old) (P.faults patterns.new) (IsPatternTooBig result) }
    ensures told { IsTold (told_by_builder P.faults P.refused patterns.old)
        (told_by_builder P.faults P.refused patterns.new) bytes.now result }
    ensures uncalled { IsSome (broken_before bytes.now) → patterns.new ≡ patterns.old }
{
    if bytes.len() as u64 > TEXT_MAX {
        return Err(error_of(alloc, whole(Rule::TooMany)));
    }
    match read_object(alloc, bytes)? {
        Some(top) => read_top(alloc, bytes, &top, patterns),
        None => Err(error_of(alloc, whole(Rule::NotJson))),
    }
}

/// A rule that the whole text breaks.
fn whole(rule: Rule) -> Broken<'static>
    ensures { broken_path result ≡ (rule, []) }
{
    Broken {
        rule,
        place: Place {
            item: None,
            part: Part::Whole,
        },
    }
}

fn error_of(alloc: Global, broken: Broken<'_>) -> FlowError
    ensures { IsError (broken_path broken.entry) result }
{
    match pointer_of(alloc, broken.place) {
        Ok(place) => FlowError::Rule {
            rule: broken.rule,
            place,
        },
        Err(AllocError) => FlowError::Memory,
    }
}

/// The object that a text is, where it is one.
fn read_object(alloc: Global, bytes: &[u8]) -> Result<Option<Value>, AllocError>
    ensures { IfOk result (λ top. option_map view top ≡ object_in bytes.now) }
{
    match Value::from_slice(alloc, bytes) {
        Ok(value) => {
            if value.is_object() {
                Ok(Some(value))
            } else {
                Ok(None)
            }
        }
        Err(error) => {
            if error.is_memory() {
                Err(AllocError)
            } else {
                Ok(None)
            }
        }
    }
}

fn read_top<P: Patterns>(
    alloc: Global,
    bytes: &[u8],
    top: &Value,
    patterns: &mut P,
) -> Result<Flow, FlowError>
    ensures answer { IsAnswerOf (HasRisen (P.faults patterns.old) (P.faults patterns.new)) bytes.now
        (view top.now) result }
    ensures count { CountsFaults (P.faults patterns.old) (P.faults patterns.new) (IsPatternTooBig result) }
    ensures told { IsToldIn (told_by_builder P.faults P.refused patterns.old)
        (told_by_builder P.faults P.refused patterns.new) (view top.now) result }
    ensures uncalled { IsSome (first_broken first_rules (view top.now)) → patterns.new ≡ patterns.old }
{
    match first_of(first_rules(), top) {
        Some(broken) => Err(error_of(alloc, broken)),
        None => read_behind(alloc, bytes, top, patterns),
    }
}

/// Reads a text that breaks none of the first rules.
fn read_behind<P: Patterns>(
    alloc: Global,
    bytes: &[u8],
    top: &Value,
    patterns: &mut P,
) -> Result<Flow, FlowError>
    ensures answer { IsAnswerBehind (HasRisen (P.faults patterns.old) (P.faults patterns.new)) bytes.now
        (view top.now) result }
    ensures count { CountsFaults (P.faults patterns.old) (P.faults patterns.new) (IsPatternTooBig result) }
    ensures told { IsToldIn (told_by_builder P.faults P.refused patterns.old)
        (told_by_builder P.faults P.refused patterns.new) (view top.now) result }
{
    let last = first_of(last_rules(), top);
    let judged = make_all(
        alloc,
        items_at(top, Field::Processors),
        last.is_none(),
        patterns,
    )?;
    match first_behind(last, judged.refused.as_slice()) {
        Some(broken) => Err(error_of(alloc, broken)),
        None => {
            let connections = connections_of(alloc, top)?;
            Ok(Flow {
                processors: Sequence::from(judged.processors),
                connections: Sequence::from(connections),
                digest: digest_of(bytes),
            })
        }
    }
}

fn digest_of(bytes: &[u8]) -> [u8; 32]
    ensures { result ≡ sha256 bytes.now }
{
    Sha256::digest(bytes)
}

/// The first rule that is broken behind the first rules, of the last ones and those that processors are refused by.
fn first_behind<'a>(last: Option<Broken<'a>>, list: &'a [RefusedProcessor]) -> Option<Broken<'a>>
    ensures { option_map broken_path result ≡ first_told (option_map broken_path last.entry) list.now }
{
    let too_big = either(last, refused(Rule::PatternTooBig, list));
    let expressions = either(refused(Rule::BadExpression, list), too_big);
    let patterns = either(refused(Rule::BadPattern, list), expressions);
    either(refused(Rule::UnknownType, list), patterns)
}

fn either<'a>(first: Option<Broken<'a>>, second: Option<Broken<'a>>) -> Option<Broken<'a>>
    ensures { option_map broken_path result
        ≡ option_or (option_map broken_path first.entry) (option_map broken_path second.entry) }
{
    match first {
        Some(broken) => Some(broken),
        None => second,
    }
}

fn refused(rule: Rule, list: &[RefusedProcessor]) -> Option<Broken<'_>>
    ensures { option_map broken_path result ≡ refused_in rule list.now }
{
    match first_refused(rule, list) {
        Some(place) => Some(Broken { rule, place }),
        None => None,
    }
}

fn first_rules() -> &'static [Rule]
    ensures { result.now ≡ first_rules }
{
    &[
        Rule::MissingField,
        Rule::UnknownType,
        Rule::DoubleId,
        Rule::UnknownEnd,
        Rule::RelationshipUnconnected,
        Rule::BadProperty,
    ]
}

fn last_rules() -> &'static [Rule]
    ensures { result.now ≡ last_rules }
{
    &[Rule::TooMany, Rule::UnknownField, Rule::BadNumber]
}
