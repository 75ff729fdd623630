//! Numbers among the words.
ghost use Rattle.std.specs.Prelude.{◌≡◌, ◌≤◌, IfSome, IsTrue, length};
ghost use Rattle.std.specs.Char.{is_ascii_digit};
ghost use Rattle.std.specs.List.{list_all};
ghost use Rattle.std.specs.Str.Parse.{digits_value};
ghost use Rattle.flow_words.specs.Numbers.{number_between, number_if_within};

/// The most digits of a number.
pub const DIGITS_MAX: usize = 10;

/// The number that a text of digits writes, if it is in the range.
pub(crate) fn number_in(least: u64, most: u64, text: &str) -> Option<u64>
    ensures number { result ≡ number_between least most text.now }
    ensures least { IfSome result (λ number. least ≤ number) }
    ensures most { IfSome result (λ number. number ≤ most) }
{
    if 1 <= text.len() && text.len() <= DIGITS_MAX && are_digits(text.as_bytes()) {
        within(least, most, parsed(text))
    } else {
        None
    }
}

fn within(least: u64, most: u64, number: u64) -> Option<u64>
    ensures number { result ≡ number_if_within least most number }
    ensures least { IfSome result (λ number. least ≤ number) }
    ensures most { IfSome result (λ number. number ≤ most) }
{
    if least <= number && number <= most {
        Some(number)
    } else {
        None
    }
}

fn are_digits(bytes: &[u8]) -> bool
    ensures { result ≡ list_all is_ascii_digit bytes.now }
{
    bytes.iter().all(|byte| byte.is_ascii_digit())
}

fn parsed(text: &str) -> u64
    requires some { 1 ≤ length text.now }
    requires few { length text.now ≤ DIGITS_MAX }
    requires digits { IsTrue (list_all is_ascii_digit text.now) }
    ensures { result ≡ digits_value 10 text.now }
{
    text.parse::<u64>().unwrap()
}
