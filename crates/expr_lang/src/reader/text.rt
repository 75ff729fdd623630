//! Steps through a text from its front.
ghost use Rattle.std.specs.Prelude.{◌≡◌, ℕ, List, [], ◌++◌, MatchOption, encode_utf8};
ghost use Rattle.std.specs.Option.{option_copied};
ghost use Rattle.expr_lang.specs.Bytes.{is_space};
ghost use Rattle.expr_lang.specs.Reading.{behind_spaces, behind_word, behind_token};

/// The first character, and the text behind it.
pub(super) fn split_first(text: &str) -> Option<(char, &str)>
    ensures { MatchOption result (text.now ≡ []) (λ x. text.now ≡ encode_utf8 x.0 ++ x.1.now) }
{
    let mut chars = text.chars();
    let first = chars.next()?;
    Some((first, chars.as_str()))
}

/// The text behind this word, or `None` where the text doesn't begin with it.
pub(super) fn behind_word<'a>(text: &'a str, word: &str) -> Option<&'a str>
    ensures { option_copied result ≡ behind_word word.now text.now }
{
    text.strip_prefix(word)
}

/// The same, behind white space.
pub(super) fn behind_token<'a>(text: &'a str, word: &str) -> Option<&'a str>
    ensures { option_copied result ≡ behind_token word.now text.now }
{
    behind_word(behind_spaces(text), word)
}

pub(super) fn behind_spaces(text: &str) -> &str
    ensures { result.now ≡ behind_spaces text.now }
{
    let mut rest = text;
    while let Some((c, behind)) = split_first(rest) {
        if !is_space(c) {
            break;
        }
        rest = behind;
    }
    rest
}

/// Space, tab, line feed or carriage return.
pub(crate) fn is_space(c: char) -> bool
    ensures { result ≡ is_space c }
{
    matches!(c, ' ' | '\t' | '\n' | '\r')
}
