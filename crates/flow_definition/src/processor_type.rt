//! The types of processors: for each its name, its properties, its own ones and its relationships.
ghost use Rattle.std.specs.Prelude.{◌≡◌, map};
ghost use Rattle.std.specs.Option.{option_map};
ghost use Rattle.flow_definition.specs.Types.{type_named, type_name, is_source_type, properties_of, own_of_type, relationships_of_type, property_name, form_of, default_of};

use flowfile_record::{CONTENT_MAX, TAKEN_MAX};
use machine_model::{COPIES_MAX, GENERATED_MAX, LINES_MAX};

/// A type of processor that a flow may name.
#[derive(Clone, Copy, Debug, PartialEq, Eq)]
pub enum ProcessorType {
    GetFile,
    GenerateFlowFile,
    PutFile,
    UpdateAttribute,
    RouteOnAttribute,
    AttributesToJson,
    DuplicateFlowFile,
    CryptographicHashContent,
    SplitText,
    ReplaceText,
    ExtractText,
    RouteOnContent,
    MergeContent,
    SegmentContent,
    ModifyBytes,
}

/// A property of a type of processor.
#[derive(Clone, Copy, Debug, PartialEq, Eq)]
pub enum Property {
    FileFilter,
    Count,
    CustomText,
    ConflictResolution,
    AttributesList,
    JsonDestination,
    Copies,
    LineSplitCount,
    ReplacementStrategy,
    ReplacementValue,
    SearchValue,
    Requirement,
    MergeStrategy,
    MinimumEntries,
    MaximumEntries,
    SegmentSize,
    StartOffset,
    EndOffset,
}

/// What the properties of a processor's own are.
#[derive(Clone, Copy, Debug, PartialEq, Eq)]
pub enum Own {
    /// There may be none.
    Nothing,
    /// Attributes: their names, and expressions of what they are set to.
    Attributes,
    /// Relationships: their names, and expressions of which files go there.
    Relationships,
    /// Attributes: their names, and patterns of what they are set to.
    AttributePatterns,
    /// Relationships: their names, and patterns of which files go there.
    RelationshipPatterns,
}

/// What a property may hold, as a text.
#[derive(Clone, Copy, Debug, PartialEq, Eq)]
pub enum Form {
    /// A pattern that has to match a whole name.
    WholePattern,
    /// 1 to 10 digits, and a number from `least` to `most`.
    Number { least: u64, most: u64 },
    /// A text with embedded expressions.
    Expression,
    /// One of the ways to settle a conflict.
    Conflict,
    /// Names between commas.
    Names,
    /// One of the places where attributes are written.
    Destination,
    /// One of the ways to replace.
    ReplaceStrategy,
    /// What is replaced: a pattern, or a text that isn't empty, as the processor's way to replace has it.
    Search,
    /// Any text.
    Text,
    /// One of the ways to match a pattern.
    Requirement,
    /// One of the ways to find the files that are joined.
    MergeStrategy,
}

/// How a ReplaceText replaces.
#[derive(Clone, Copy, Debug, PartialEq, Eq)]
pub enum ReplaceStrategy {
    /// What a pattern finds.
    Regex,
    /// Each place of a text.
    Literal,
}

const ALL: [ProcessorType; 15] = [
    ProcessorType::GetFile,
    ProcessorType::GenerateFlowFile,
    ProcessorType::PutFile,
    ProcessorType::UpdateAttribute,
    ProcessorType::RouteOnAttribute,
    ProcessorType::AttributesToJson,
    ProcessorType::DuplicateFlowFile,
    ProcessorType::CryptographicHashContent,
    ProcessorType::SplitText,
    ProcessorType::ReplaceText,
    ProcessorType::ExtractText,
    ProcessorType::RouteOnContent,
    ProcessorType::MergeContent,
    ProcessorType::SegmentContent,
    ProcessorType::ModifyBytes,
];

impl ProcessorType {
    /// The type of this name.
    pub fn named(name: &str) -> Option<ProcessorType>
        ensures { result ≡ type_named name.now }
    {
        ALL.iter().copied().find(|kind| kind.name() == name)
    }

    /// Its name in a flow's text, as NiFi has it.
    pub fn name(self) -> &'static str
        ensures { result.now ≡ type_name self }
    {
        match self {
            ProcessorType::GetFile => "GetFile",
            ProcessorType::GenerateFlowFile => "GenerateFlowFile",
            ProcessorType::PutFile => "PutFile",
            ProcessorType::UpdateAttribute => "UpdateAttribute",
            ProcessorType::RouteOnAttribute => "RouteOnAttribute",
            ProcessorType::AttributesToJson => "AttributesToJSON",
            ProcessorType::DuplicateFlowFile => "DuplicateFlowFile",
            ProcessorType::CryptographicHashContent => "CryptographicHashContent",
            ProcessorType::SplitText => "SplitText",
            ProcessorType::ReplaceText => "ReplaceText",
            ProcessorType::ExtractText => "ExtractText",
            ProcessorType::RouteOnContent => "RouteOnContent",
            ProcessorType::MergeContent => "MergeContent",
            ProcessorType::SegmentContent => "SegmentContent",
            ProcessorType::ModifyBytes => "ModifyBytes",
        }
    }

    /// Whether it makes files and takes none.
    pub fn is_source(self) -> bool
        ensures { result ≡ is_source_type self }
    {
        match self {
            ProcessorType::GetFile | ProcessorType::GenerateFlowFile => true,
            _ => false,
        }
    }

    /// Its properties, ascending by the bytes of their names.
    pub fn properties(self) -> &'static [Property]
        ensures { result.now ≡ properties_of self }
    {
        match self {
            ProcessorType::GetFile => &[Property::FileFilter],
            ProcessorType::GenerateFlowFile => &[Property::Count, Property::CustomText],
            ProcessorType::PutFile => &[Property::ConflictResolution],
            ProcessorType::UpdateAttribute => &[],
            ProcessorType::RouteOnAttribute => &[],
            ProcessorType::AttributesToJson => {
                &[Property::AttributesList, Property::JsonDestination]
            }
            ProcessorType::DuplicateFlowFile => &[Property::Copies],
            ProcessorType::CryptographicHashContent => &[],
            ProcessorType::SplitText => &[Property::LineSplitCount],
            ProcessorType::ReplaceText => &[
                Property::ReplacementStrategy,
                Property::ReplacementValue,
                Property::SearchValue,
            ],
            ProcessorType::ExtractText => &[],
            ProcessorType::RouteOnContent => &[Property::Requirement],
            ProcessorType::MergeContent => &[
                Property::MaximumEntries,
                Property::MergeStrategy,
                Property::MinimumEntries,
            ],
            ProcessorType::SegmentContent => &[Property::SegmentSize],
            ProcessorType::ModifyBytes => &[Property::EndOffset, Property::StartOffset],
        }
    }

    /// What properties of its processors' own are.
    pub fn own(self) -> Own
        ensures { result ≡ own_of_type self }
    {
        match self {
            ProcessorType::UpdateAttribute => Own::Attributes,
            ProcessorType::RouteOnAttribute => Own::Relationships,
            ProcessorType::ExtractText => Own::AttributePatterns,
            ProcessorType::RouteOnContent => Own::RelationshipPatterns,
            _ => Own::Nothing,
        }
    }

    /// The names of its relationships, in their order. Own ones come before these.
    pub fn relationships(self) -> &'static [&'static str]
        ensures { map (λ name. name.now) result.now ≡ relationships_of_type self }
    {
        match self {
            ProcessorType::GetFile | ProcessorType::GenerateFlowFile => &["success"],
            ProcessorType::DuplicateFlowFile | ProcessorType::ModifyBytes => &["success"],
            ProcessorType::RouteOnAttribute | ProcessorType::RouteOnContent => &["unmatched"],
            ProcessorType::ExtractText => &["matched", "unmatched"],
            ProcessorType::PutFile | ProcessorType::UpdateAttribute => &["success", "failure"],
            ProcessorType::AttributesToJson => &["success", "failure"],
            ProcessorType::CryptographicHashContent | ProcessorType::ReplaceText => {
                &["success", "failure"]
            }
            ProcessorType::SplitText => &["original", "splits", "failure"],
            ProcessorType::MergeContent => &["merged", "original", "failure"],
            ProcessorType::SegmentContent => &["segments", "original", "failure"],
        }
    }
}

impl Property {
    pub fn name(self) -> &'static str
        ensures { result.now ≡ property_name self }
    {
        match self {
            Property::FileFilter => "File Filter",
            Property::Count => "Count",
            Property::CustomText => "Custom Text",
            Property::ConflictResolution => "Conflict Resolution Strategy",
            Property::AttributesList => "Attributes List",
            Property::JsonDestination => "Destination",
            Property::Copies => "Number of Copies",
            Property::LineSplitCount => "Line Split Count",
            Property::ReplacementStrategy => "Replacement Strategy",
            Property::ReplacementValue => "Replacement Value",
            Property::SearchValue => "Search Value",
            Property::Requirement => "Match Requirement",
            Property::MergeStrategy => "Merge Strategy",
            Property::MinimumEntries => "Minimum Number of Entries",
            Property::MaximumEntries => "Maximum Number of Entries",
            Property::SegmentSize => "Segment Size",
            Property::StartOffset => "Start Offset",
            Property::EndOffset => "End Offset",
        }
    }

    pub fn form(self) -> Form
        ensures { result ≡ form_of self }
    {
        match self {
            Property::FileFilter => Form::WholePattern,
            Property::Count => Form::Number {
                least: 0,
                most: GENERATED_MAX,
            },
            Property::CustomText => Form::Expression,
            Property::ConflictResolution => Form::Conflict,
            Property::AttributesList => Form::Names,
            Property::JsonDestination => Form::Destination,
            Property::Copies => Form::Number {
                least: 1,
                most: COPIES_MAX,
            },
            Property::LineSplitCount => Form::Number {
                least: 1,
                most: LINES_MAX,
            },
            Property::ReplacementStrategy => Form::ReplaceStrategy,
            Property::ReplacementValue => Form::Text,
            Property::SearchValue => Form::Search,
            Property::Requirement => Form::Requirement,
            Property::MergeStrategy => Form::MergeStrategy,
            Property::MinimumEntries | Property::MaximumEntries => Form::Number {
                least: 1,
                most: TAKEN_MAX,
            },
            Property::SegmentSize => Form::Number {
                least: 1,
                most: CONTENT_MAX,
            },
            Property::StartOffset | Property::EndOffset => Form::Number {
                least: 0,
                most: CONTENT_MAX,
            },
        }
    }

    /// What a missing one stands for. Without a default it may not be missing.
    pub fn default(self) -> Option<&'static str>
        ensures { option_map (λ text. text.now) result ≡ default_of self }
    {
        match self {
            Property::FileFilter => Some("[^.].*"),
            Property::Count => None,
            Property::CustomText => Some(""),
            Property::ConflictResolution => Some("fail"),
            Property::AttributesList => Some(""),
            Property::JsonDestination => Some("flowfile-attribute"),
            Property::Copies => Some("100"),
            Property::LineSplitCount | Property::SegmentSize => None,
            Property::ReplacementStrategy => Some("Regex Replace"),
            Property::ReplacementValue | Property::SearchValue => None,
            Property::Requirement => Some("content must match exactly"),
            Property::MergeStrategy => Some("Bin-Packing Algorithm"),
            Property::MinimumEntries => Some("1"),
            Property::MaximumEntries => Some("1000"),
            Property::StartOffset | Property::EndOffset => Some("0"),
        }
    }
}
