//! Building the patterns of a processor's own properties.
ghost use Rattle.std.specs.Prelude.{◌≡◌, ◌≤◌, [], ◌∷◌, None, IfOk, option_map};
ghost use Rattle.std.specs.List.{filter_map, list_all};
ghost use Rattle.std.specs.Option.{option_or};
ghost use Rattle.serde_json.specs.View.{view, members_view};
ghost use Rattle.flow_definition.specs.Looks.{member_list, others, own_texts_in, texts_of};
ghost use Rattle.flow_definition.specs.OwnPatterns.{AreAttempts, AreOwnBuilt, AreTried, IsAttempt, is_read, name_refused, read_in, refusal_by, rule_by, told_attempt, told_attempts, told_patterns, too_big_in, unread_in};
ghost use Rattle.flow_definition.specs.Patterns.{HasRisen, told_by_builder};
ghost use Rattle.flow_definition.specs.Reading.{is_whole_in, pattern_of};

use crate::building::{Built, build, whole};
use crate::look::{is_fixed, own_in, own_properties, properties_in, text_of};
use crate::patterns::Patterns;
use crate::processor_type::{Own, Property};
use crate::reading::requirement_in;
use crate::rule::Rule;
use flowfile_record::{Sequence, Text};
use machine_model::{MatchRequirement, OwnPattern, OwnPatternList};
use serde_json::{Map, Value};
use std::alloc::{AllocError, Global};

/// What becomes of an own property's pattern.
#[derive(Drop)]
pub enum Attempt {
    Read(OwnPattern),
    /// It can't be read, or nests too deep; by its name.
    Unread(Text),
    /// The builder refuses it as too large; by its name.
    TooBig(Text),
}

/// In the order of the names.
pub type AttemptList = Sequence<Attempt>;

/// What becomes of the patterns of a processor's own.
#[derive(Drop)]
pub(crate) enum MadePatterns {
    Read(OwnPatternList),
    /// Not each is read.
    Refused(AttemptList),
}

/// The patterns of a processor's own, built in the order of their names.
pub(crate) fn make_own_patterns<P: Patterns>(
    alloc: Global,
    processor: &Value,
    patterns: &mut P,
) -> Result<MadePatterns, AllocError>
    ensures made { IfOk result (AreOwnBuilt (HasRisen (P.faults patterns.old) (P.faults patterns.new))
        (is_whole_in (view processor.now)) (own_texts_in (view processor.now))) }
    ensures count { P.faults patterns.old ≤ P.faults patterns.new }
    ensures told { IfOk result (λ made. told_by_builder P.faults P.refused patterns.new
        ≡ told_patterns (is_whole_in (view processor.now)) (told_by_builder P.faults P.refused patterns.old)
        (own_texts_in (view processor.now)) made) }
{
    let attempts = attempt_own(alloc, processor, patterns)?;
    if are_read(attempts.as_slice()) {
        let list = read_of(alloc, attempts)?;
        Ok(MadePatterns::Read(Sequence::from(list)))
    } else {
        Ok(MadePatterns::Refused(Sequence::from(attempts)))
    }
}

fn attempt_own<P: Patterns>(
    alloc: Global,
    processor: &Value,
    patterns: &mut P,
) -> Result<Vec<Attempt>, AllocError>
    ensures made { IfOk result (λ list. AreAttempts (HasRisen (P.faults patterns.old) (P.faults patterns.new))
        (is_whole_in (view processor.now)) (own_texts_in (view processor.now)) list.items) }
    ensures count { P.faults patterns.old ≤ P.faults patterns.new }
    ensures told { IfOk result (λ list. told_by_builder P.faults P.refused patterns.new
        ≡ told_attempts (is_whole_in (view processor.now)) (told_by_builder P.faults P.refused patterns.old)
        (own_texts_in (view processor.now)) list.items) }
{
    let is_whole = is_whole_in(processor);
    match own_properties(processor) {
        Some(members) => {
            attempt_all(alloc, properties_in(processor), members, is_whole, patterns)
        }
        None => Ok(Vec::new(alloc)),
    }
}

/// The first of a processor's own patterns that can't be read, and the first that is too large, by their names.
#[derive(Drop)]
pub(crate) struct RefusedPatterns {
    unread: Option<Text>,
    too_big: Option<Text>,
}

impl RefusedPatterns {
    fn new() -> RefusedPatterns
        ensures unread { result.unread ≡ None }
        ensures too_big { result.too_big ≡ None }
    {
        RefusedPatterns {
            unread: None,
            too_big: None,
        }
    }

    /// Takes what became of the next pattern, and lets the pattern go.
    fn note(&mut self, attempt: Attempt)
        ensures unread { self.new.unread ≡ option_or self.old.unread (unread_in (attempt ∷ [])) }
        ensures too_big { self.new.too_big ≡ option_or self.old.too_big (too_big_in (attempt ∷ [])) }
    {
        match attempt {
            Attempt::Read(_) => {}
            Attempt::Unread(name) => {
                if self.unread.is_none() {
                    self.unread = Some(name);
                }
            }
            Attempt::TooBig(name) => {
                if self.too_big.is_none() {
                    self.too_big = Some(name);
                }
            }
        }
    }

    /// The rule that the patterns break, and the name of the first that breaks it.
    pub(crate) fn refusal(self) -> Option<(Rule, Text)>
        ensures { result ≡ refusal_by self.unread self.too_big }
    {
        let RefusedPatterns { unread, too_big } = self;
        match unread {
            Some(name) => Some((Rule::BadPattern, name)),
            None => match too_big {
                Some(name) => Some((Rule::PatternTooBig, name)),
                None => None,
            },
        }
    }
}

/// Builds the patterns of a processor's own in the order of their names, and keeps none of them.
pub(crate) fn try_own_patterns<P: Patterns>(
    alloc: Global,
    processor: &Value,
    patterns: &mut P,
) -> Result<RefusedPatterns, AllocError>
    ensures tried { IfOk result (AreTried (told_by_builder P.faults P.refused patterns.old)
        (told_by_builder P.faults P.refused patterns.new) (is_whole_in (view processor.now))
        (own_texts_in (view processor.now))) }
    ensures count { P.faults patterns.old ≤ P.faults patterns.new }
{
    let is_whole = is_whole_in(processor);
    match own_properties(processor) {
        Some(members) => { try_all(alloc, properties_in(processor), members, is_whole, patterns) }
        None => Ok(RefusedPatterns::new()),
    }
}

fn try_all<P: Patterns>(
    alloc: Global,
    properties: &[Property],
    members: &Map<String, Value>,
    is_whole: bool,
    patterns: &mut P,
) -> Result<RefusedPatterns, AllocError>
    ensures tried { IfOk result (AreTried (told_by_builder P.faults P.refused patterns.old)
        (told_by_builder P.faults P.refused patterns.new) is_whole
        (texts_of (others properties.now (member_list (members_view members.now.entries))))) }
    ensures count { P.faults patterns.old ≤ P.faults patterns.new }
{
    let mut refused = RefusedPatterns::new();
    'members: for (name, value) in members {
        if !is_fixed(name.as_str(), properties) {
            let attempt = try_pattern(alloc, name.as_str(), text_of(value), is_whole, patterns)?;
            refused.note(attempt);
        }
    }
    Ok(refused)
}

/// Whether each pattern has to match a whole content.
fn is_whole_in(processor: &Value) -> bool
    ensures { result ≡ is_whole_in (view processor.now) }
{
    match own_in(processor) {
        Own::RelationshipPatterns => match requirement_in(processor) {
            MatchRequirement::Exactly => true,
            MatchRequirement::Contains => false,
        },
        _ => false,
    }
}

fn attempt_all<P: Patterns>(
    alloc: Global,
    properties: &[Property],
    members: &Map<String, Value>,
    is_whole: bool,
    patterns: &mut P,
) -> Result<Vec<Attempt>, AllocError>
    ensures made { IfOk result (λ list. AreAttempts (HasRisen (P.faults patterns.old) (P.faults patterns.new)) is_whole
        (texts_of (others properties.now (member_list (members_view members.now.entries)))) list.items) }
    ensures count { P.faults patterns.old ≤ P.faults patterns.new }
    ensures told { IfOk result (λ list. told_by_builder P.faults P.refused patterns.new
        ≡ told_attempts is_whole (told_by_builder P.faults P.refused patterns.old)
        (texts_of (others properties.now (member_list (members_view members.now.entries)))) list.items) }
{
    let mut list = Vec::new(alloc);
    'members: for (name, value) in members {
        if !is_fixed(name.as_str(), properties) {
            list.push(try_pattern(alloc, name.as_str(), text_of(value), is_whole, patterns)?)?;
        }
    }
    Ok(list)
}

fn try_pattern<P: Patterns>(
    alloc: Global,
    name: &str,
    text: &str,
    is_whole: bool,
    patterns: &mut P,
) -> Result<Attempt, AllocError>
    ensures made { IfOk result
        (IsAttempt (HasRisen (P.faults patterns.old) (P.faults patterns.new)) is_whole (name.now, text.now)) }
    ensures count { P.faults patterns.old ≤ P.faults patterns.new }
    ensures told { IfOk result (λ made. told_by_builder P.faults P.refused patterns.new
        ≡ told_attempt is_whole (told_by_builder P.faults P.refused patterns.old) (name.now, text.now) made) }
{
    let name = Text::from_str(alloc, name)?;
    let text = pattern_of(alloc, is_whole, text)?;
    match build(alloc, text, patterns)? {
        Built::Pattern(pattern) => Ok(Attempt::Read(OwnPattern { name, pattern })),
        Built::Unread => Ok(Attempt::Unread(name)),
        Built::TooBig => Ok(Attempt::TooBig(name)),
    }
}

fn pattern_of(alloc: Global, is_whole: bool, text: &str) -> Result<Text, AllocError>
    ensures { IfOk result (λ pattern. pattern ≡ pattern_of is_whole text.now) }
{
    if is_whole {
        whole(alloc, text)
    } else {
        Text::from_str(alloc, text)
    }
}

fn are_read(attempts: &[Attempt]) -> bool
    ensures { result ≡ list_all is_read attempts.now }
{
    attempts.iter().all(|attempt| is_read(attempt))
}

fn is_read(attempt: &Attempt) -> bool
    ensures { result ≡ is_read attempt.now }
{
    match attempt {
        Attempt::Read(_) => true,
        Attempt::Unread(_) => false,
        Attempt::TooBig(_) => false,
    }
}

fn read_of(alloc: Global, attempts: Vec<Attempt>) -> Result<Vec<OwnPattern>, AllocError>
    ensures { IfOk result (λ list. list.items ≡ filter_map read_in attempts.items) }
{
    attempts.into_iter().filter_map(read_in).collect(alloc)
}

fn read_in(attempt: Attempt) -> Option<OwnPattern>
    ensures { result ≡ read_in attempt }
{
    match attempt {
        Attempt::Read(own) => Some(own),
        Attempt::Unread(_) => None,
        Attempt::TooBig(_) => None,
    }
}

/// The rule that breaks a list of which not each is read.
pub(crate) fn rule_broken(attempts: &[Attempt]) -> Rule
    ensures { result ≡ rule_by (unread_in attempts.now) }
{
    match first_unread(attempts) {
        Some(_) => Rule::BadPattern,
        None => Rule::PatternTooBig,
    }
}

/// The name of the first pattern by which this rule is broken.
pub(crate) fn name_refused(attempts: &[Attempt]) -> &str
    ensures { result.now ≡ name_refused attempts.now }
{
    match first_unread(attempts) {
        Some(name) => name,
        None => first_too_big(attempts).unwrap_or(""),
    }
}

fn first_unread(attempts: &[Attempt]) -> Option<&str>
    ensures { option_map (λ name. name.now) result ≡ unread_in attempts.now }
{
    'attempts: for attempt in attempts {
        if let Attempt::Unread(name) = attempt {
            return Some(name.as_str());
        }
    }
    None
}

fn first_too_big(attempts: &[Attempt]) -> Option<&str>
    ensures { option_map (λ name. name.now) result ≡ too_big_in attempts.now }
{
    'attempts: for attempt in attempts {
        if let Attempt::TooBig(name) = attempt {
            return Some(name.as_str());
        }
    }
    None
}
