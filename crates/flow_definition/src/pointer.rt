//! How a place is written: as a JSON pointer (RFC 6901), and the whole text as a slash.
ghost use Rattle.std.specs.Prelude.{◌≡◌, ◌∷◌, ◌++◌, IfOk, OnOk, decimal, string_bytes};
ghost use Rattle.flow_definition.specs.Places.{place_path, part_path, item_path};
ghost use Rattle.flow_definition.specs.Pointers.{escaped_name, escaped_char, pointer_of, steps_text};

use crate::field::Field;
use crate::place::{Part, Place};
use flowfile_record::Text;
use std::alloc::{AllocError, Global};

/// The text of a place.
pub(crate) fn pointer_of(alloc: Global, place: Place<'_>) -> Result<Text, AllocError>
    ensures { IfOk result (λ text. text ≡ pointer_of (place_path place.entry)) }
{
    let mut text = String::new(alloc);
    if let Some((list, item)) = place.item {
        push_name(&mut text, list.name())?;
        push_number(alloc, &mut text, item)?;
    }
    push_part(alloc, &mut text, place.part)?;
    if text.is_empty() {
        text.push('/')?;
    }
    Ok(Text::from(text))
}

fn push_part(alloc: Global, text: &mut String, part: Part<'_>) -> Result<(), AllocError>
    ensures { OnOk result (string_bytes text.new ≡ string_bytes text.old ++ steps_text (part_path part.entry)) }
{
    match part {
        Part::Whole => Ok(()),
        Part::Field(field) => push_name(text, field.name()),
        Part::Item(field, item) => {
            push_name(text, field.name())?;
            push_number(alloc, text, item)
        }
        Part::Property(name) => {
            push_name(text, Field::Properties.name())?;
            push_name(text, name)
        }
        Part::Unknown(name) => push_name(text, name),
    }
}

fn push_number(alloc: Global, text: &mut String, item: usize) -> Result<(), AllocError>
    ensures { OnOk result (string_bytes text.new ≡ string_bytes text.old ++ 47 ∷ decimal item) }
{
    let digits = format!(in alloc; "{item}")?;
    text.push('/')?;
    text.push_str(digits.as_str())
}

fn push_name(text: &mut String, name: &str) -> Result<(), AllocError>
    ensures { OnOk result (string_bytes text.new ≡ string_bytes text.old ++ 47 ∷ escaped_name name.now) }
{
    text.push('/')?;
    push_escaped(text, name)
}

fn push_escaped(text: &mut String, name: &str) -> Result<(), AllocError>
    ensures { OnOk result (string_bytes text.new ≡ string_bytes text.old ++ escaped_name name.now) }
{
    'chars: for c in name.chars() {
        push_escaped_char(text, c)?;
    }
    Ok(())
}

fn push_escaped_char(text: &mut String, c: char) -> Result<(), AllocError>
    ensures { OnOk result (string_bytes text.new ≡ string_bytes text.old ++ escaped_char c) }
{
    match c {
        '~' => text.push_str("~0"),
        '/' => text.push_str("~1"),
        _ => text.push(c),
    }
}
