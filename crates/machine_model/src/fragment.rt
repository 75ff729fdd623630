//! Which part of which whole a file is.
ghost use Rattle.std.specs.Prelude.{◌≡◌};
ghost use Rattle.std.specs.Option.{option_map};
ghost use Rattle.std.specs.Result.{result_ok};
ghost use Rattle.expr_lang.specs.Value.{text, as_number};
ghost use Rattle.machine_model.specs.Fragments.{fragment_seen};
ghost use Rattle.machine_model.specs.Taking.{positive, number_under, within_count, fragment_of};

use flowfile_record::{Attributes, TAKEN_MAX};

/// A file that was split, into so many parts.
#[derive(Clone, Copy, PartialEq, Eq, PartialOrd, Ord)]
pub struct Whole<'a> {
    pub identifier: &'a str,
    pub count: u64,
}

/// A part of a whole.
#[derive(Clone, Copy, PartialEq, Eq, PartialOrd, Ord)]
pub struct Fragment<'a> {
    pub whole: Whole<'a>,
    /// From 1 on.
    pub index: u64,
}

/// Which part of which whole a file of these attributes is. It is none unless it has `fragment.identifier`, and
/// `fragment.index` and `fragment.count` are decimal numbers from 1 on, the index at most the count, and the count at
/// most [`TAKEN_MAX`].
pub fn fragment_of(attributes: &Attributes) -> Option<Fragment<'_>>
    ensures { option_map fragment_seen result ≡ fragment_of attributes.now }
{
    let identifier = attributes.get("fragment.identifier")?;
    let index = number_under(attributes, "fragment.index")?;
    let count = number_under(attributes, "fragment.count")?;
    within_count(Fragment {
        whole: Whole { identifier, count },
        index,
    })
}

fn within_count(fragment: Fragment<'_>) -> Option<Fragment<'_>>
    ensures { option_map fragment_seen result ≡ within_count (fragment_seen fragment.entry) }
{
    if fragment.index <= fragment.whole.count && fragment.whole.count <= TAKEN_MAX {
        Some(fragment)
    } else {
        None
    }
}

fn number_under(attributes: &Attributes, key: &str) -> Option<u64>
    ensures { result ≡ number_under attributes.now key.now }
{
    positive(attributes.get(key)?)
}

// The number that a text is, where it is one from 1 on.
fn positive(value: &str) -> Option<u64>
    ensures { result ≡ positive (as_number (text value.now)) }
{
    match number_of(value) {
        Some(number) if number > 0 => Some(number.unsigned_abs()),
        _ => None,
    }
}

fn number_of(value: &str) -> Option<i64>
    ensures { result ≡ result_ok (as_number (text value.now)) }
{
    match value.parse::<i64>() {
        Ok(number) => Some(number),
        Err(_) => None,
    }
}
