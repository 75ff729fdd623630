//! What a processor does: its type, with its properties.
ghost use Rattle.std.specs.Prelude.{◌≡◌, ◌++◌, ◌∷◌, [], codes, map, slice_get};
ghost use Rattle.std.specs.Option.{option_map};
ghost use Rattle.machine_model.specs.Kinds.{take_rule_of, relationships_of};

use crate::Pattern;
use expr_lang::Expr;
use flowfile_record::{Sequence, Text, TextList};

/// A type of processor with its properties, as NiFi names them.
#[derive(Drop)]
pub enum Kind {
    /// Takes files of the inbox whose names its pattern finds something in; without a pattern all.
    GetFile {
        filter: Option<Pattern>,
    },
    /// Makes so many files, each with this text.
    GenerateFlowFile {
        count: u32,
        custom_text: Expr,
    },
    /// Puts a file into the outbox under its `filename`.
    PutFile {
        conflict: Conflict,
    },
    /// Sets attributes.
    UpdateAttribute {
        own: OwnExpressionList,
    },
    /// Sends a file to each relationship whose expression is true.
    RouteOnAttribute {
        own: OwnExpressionList,
    },
    /// Writes attributes as a JSON object. An empty list of names stands for all.
    AttributesToJson {
        destination: Destination,
        names: TextList,
    },
    /// Makes so many clones.
    DuplicateFlowFile {
        copies: u16,
    },
    /// Notes the content's digest.
    CryptographicHashContent,
    /// Splits a content into parts of so many lines.
    SplitText {
        lines: u32,
    },
    /// Replaces parts of a content.
    ReplaceText {
        replacement: Replacement,
    },
    /// Sets attributes from what patterns find in a content.
    ExtractText {
        own: OwnPatternList,
    },
    /// Sends a file to each relationship whose pattern its content matches.
    RouteOnContent {
        requirement: MatchRequirement,
        own: OwnPatternList,
    },
    /// Joins contents.
    MergeContent {
        strategy: MergeStrategy,
        minimum: u32,
        maximum: u32,
    },
    /// Splits a content into parts of so many bytes.
    SegmentContent {
        size: u64,
    },
    /// Drops so many bytes at a content's start and at its end.
    ModifyBytes {
        start: u64,
        end: u64,
    },
}

/// What a PutFile does where the outbox has the name.
#[derive(Clone, Copy, Debug, PartialEq, Eq)]
pub enum Conflict {
    Replace,
    Ignore,
    Fail,
}

/// Where an AttributesToJson writes.
#[derive(Clone, Copy, Debug, PartialEq, Eq)]
pub enum Destination {
    Attribute,
    Content,
}

/// What a RouteOnContent asks of a pattern.
#[derive(Clone, Copy, Debug, PartialEq, Eq)]
pub enum MatchRequirement {
    Exactly,
    Contains,
}

/// Which files a MergeContent joins.
#[derive(Clone, Copy, Debug, PartialEq, Eq)]
pub enum MergeStrategy {
    BinPacking,
    Defragment,
}

/// What a ReplaceText replaces, and by what.
#[derive(Drop)]
pub enum Replacement {
    Regex { search: Pattern, template: Text },
    Literal { search: Text, value: Text },
}

/// A property of a processor's own: a name and an expression.
#[derive(Drop)]
pub struct OwnExpression {
    pub name: Text,
    pub expression: Expr,
}

/// Ascending by the bytes of the names.
pub type OwnExpressionList = Sequence<OwnExpression>;

/// A property of a processor's own: a name and a pattern.
#[derive(Drop)]
pub struct OwnPattern {
    pub name: Text,
    pub pattern: Pattern,
}

/// Ascending by the bytes of the names.
pub type OwnPatternList = Sequence<OwnPattern>;

/// How many files a session of a processor takes, and which.
#[derive(Clone, Copy, Debug, PartialEq, Eq)]
pub enum TakeRule {
    /// None: it makes files.
    Source,
    /// The best file.
    One,
    /// The best files, at least `min` unless they fill a content, and at most `max`.
    Bin { min: u32, max: u32 },
    /// All fragments of a file that was split, or a file that is no fragment.
    Defragment,
}

impl Kind {
    /// Which files a session of this kind takes.
    pub fn take_rule(&self) -> TakeRule
        ensures { result ≡ take_rule_of self.now }
    {
        match self {
            Kind::GetFile { .. } | Kind::GenerateFlowFile { .. } => TakeRule::Source,
            Kind::MergeContent {
                strategy: MergeStrategy::Defragment,
                ..
            } => TakeRule::Defragment,
            Kind::MergeContent {
                minimum,
                maximum,
                ..
            } => TakeRule::Bin {
                min: *minimum,
                max: *maximum,
            },
            _ => TakeRule::One,
        }
    }

    /// The name of the relationship at a place, counted from 0.
    pub fn relationship(&self, place: u16) -> Option<&str>
        ensures { option_map (λ name. name.now) result ≡ slice_get (relationships_of self.now) place }
    {
        match self {
            Kind::GetFile { .. }
            | Kind::GenerateFlowFile { .. }
            | Kind::DuplicateFlowFile { .. }
            | Kind::ModifyBytes { .. } => one_of(&["success"], place),
            Kind::SplitText { .. } => one_of(&["original", "splits", "failure"], place),
            Kind::ExtractText { .. } => one_of(&["matched", "unmatched"], place),
            Kind::MergeContent { .. } => one_of(&["merged", "original", "failure"], place),
            Kind::SegmentContent { .. } => one_of(&["segments", "original", "failure"], place),
            Kind::RouteOnAttribute { own } => own_or_unmatched(own.as_slice(), place),
            Kind::RouteOnContent { own, .. } => own_pattern_or_unmatched(own.as_slice(), place),
            _ => one_of(&["success", "failure"], place),
        }
    }
}

fn one_of(names: &[&'static str], place: u16) -> Option<&'static str>
    ensures { option_map (λ name. name.now) result ≡ slice_get (map (λ name. name.now) names.now) place }
{
    names.get(usize::from(place)).copied()
}

fn own_or_unmatched(own: &[OwnExpression], place: u16) -> Option<&str>
    ensures { option_map (λ name. name.now) result
        ≡ slice_get (map (λ property. property.name) own.now ++ codes "unmatched" ∷ []) place }
{
    match own.get(usize::from(place)) {
        Some(property) => Some(property.name.as_str()),
        None if usize::from(place) == own.len() => Some("unmatched"),
        None => None,
    }
}

fn own_pattern_or_unmatched(own: &[OwnPattern], place: u16) -> Option<&str>
    ensures { option_map (λ name. name.now) result
        ≡ slice_get (map (λ property. property.name) own.now ++ codes "unmatched" ∷ []) place }
{
    match own.get(usize::from(place)) {
        Some(property) => Some(property.name.as_str()),
        None if usize::from(place) == own.len() => Some("unmatched"),
        None => None,
    }
}
