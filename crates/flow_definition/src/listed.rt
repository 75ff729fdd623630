//! Names that a text lists between commas.
ghost use Rattle.std.specs.Prelude.{◌≡◌, IfOk, map};
ghost use Rattle.std.specs.List.{slice_split};
ghost use Rattle.std.specs.Prelude.{◌==◌};
ghost use Rattle.flow_definition.specs.Listed.{listed_names, trimmed};

use flowfile_record::{Text, TextList};
use std::alloc::{AllocError, Global};

/// The names in the order of the list, without blanks at their ends and without the empty ones.
pub(crate) fn listed_names(alloc: Global, text: &str) -> Result<TextList, AllocError>
    ensures { IfOk result (λ names. names ≡ listed_names text.now) }
{
    let parts = parts_of(alloc, text)?;
    let mut names = Vec::new(alloc);
    'parts: for part in &parts {
        let name = trimmed(part);
        if !name.is_empty() {
            names.push(Text::from_str(alloc, name)?)?;
        }
    }
    Ok(TextList::from(names))
}

fn parts_of(alloc: Global, text: &str) -> Result<Vec<&str>, AllocError>
    ensures { IfOk result (λ parts. map (λ part. part.now) parts.items ≡ slice_split (λ c. c == 44) text.now) }
{
    text.split(',').collect(alloc)
}

fn trimmed(text: &str) -> &str
    ensures { result.now ≡ trimmed text.now }
{
    text.trim_start_matches(' ').trim_end_matches(' ')
}
