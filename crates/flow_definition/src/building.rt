//! Building the patterns of a processor.
ghost use Rattle.std.specs.Prelude.{◌≡◌, ◌≤◌, IfOk};
ghost use Rattle.machine_model.specs.Sound.{to_match_whole};
ghost use Rattle.flow_definition.specs.Building.{IsBuilt, told_built};
ghost use Rattle.flow_definition.specs.Patterns.{HasRisen, told_by_builder};

use crate::patterns::{PatternError, Patterns};
use flowfile_record::Text;
use machine_model::Pattern;
use std::alloc::{AllocError, Global};

/// What becomes of a pattern's text.
#[derive(Drop)]
pub(crate) enum Built {
    Pattern(Pattern),
    /// It can't be read, or nests too deep.
    Unread,
    /// The builder refuses it as too large.
    TooBig,
}

/// The pattern that is read from a text.
pub(crate) fn build<P: Patterns>(
    alloc: Global,
    text: Text,
    patterns: &mut P,
) -> Result<Built, AllocError>
    ensures built { IfOk result (IsBuilt (HasRisen (P.faults patterns.old) (P.faults patterns.new)) text) }
    ensures count { P.faults patterns.old ≤ P.faults patterns.new }
    ensures told { IfOk result (λ built. told_by_builder P.faults P.refused patterns.new
        ≡ told_built (told_by_builder P.faults P.refused patterns.old) text built) }
{
    match patterns.build(alloc, text.as_str()) {
        Ok(regex) => Ok(Built::Pattern(Pattern::from_regex(alloc, text, regex)?)),
        Err(PatternError::Syntax) => Ok(Built::Unread),
        Err(PatternError::TooBig) => Ok(Built::TooBig),
        Err(PatternError::Memory) => Err(AllocError),
    }
}

/// The pattern that matches a whole text where this one does.
pub(crate) fn whole(alloc: Global, pattern: &str) -> Result<Text, AllocError>
    ensures { IfOk result (λ text. text ≡ to_match_whole pattern.now) }
{
    let text = format!(in alloc; "\\A(?:{pattern})\\z")?;
    Ok(Text::from(text))
}
