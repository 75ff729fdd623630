//! How values of the attribute `priority` compare.
ghost use Rattle.std.specs.Prelude.{◌≡◌};
ghost use Rattle.std.specs.Option.{option_copied};
ghost use Rattle.prioritizer.specs.Number.{number_of};
ghost use Rattle.prioritizer.specs.Priority.{priority_cmp, text_cmp};

use std::cmp::Ordering;

// The lowest value goes first, and a file without one last.
pub(crate) fn compare_priorities(a: Option<&str>, b: Option<&str>) -> Ordering
    ensures { result ≡ priority_cmp (option_copied a.entry) (option_copied b.entry) }
{
    match (a, b) {
        (Some(a), Some(b)) => compare_texts(a, b),
        (Some(_), None) => Ordering::Less,
        (None, Some(_)) => Ordering::Greater,
        (None, None) => Ordering::Equal,
    }
}

fn compare_texts(a: &str, b: &str) -> Ordering
    ensures { result ≡ text_cmp a.now b.now }
{
    match (number(a), number(b)) {
        (Some(x), Some(y)) => x.cmp(&y),
        (Some(_), None) => Ordering::Less,
        (None, Some(_)) => Ordering::Greater,
        (None, None) => a.cmp(b),
    }
}

fn number(text: &str) -> Option<i64>
    ensures { result ≡ number_of text.now }
{
    text.parse().ok()
}
