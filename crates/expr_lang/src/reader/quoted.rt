//! Quoted texts.
ghost use Rattle.std.specs.Prelude.{◌≡◌, ◌<◌, string_bytes};
ghost use Rattle.expr_lang.specs.Bytes.{escaped};
ghost use Rattle.expr_lang.specs.Gives.{Reads};
ghost use Rattle.expr_lang.specs.Reading.{quoted_read, body_read, char_read, escape_read, is_mark};

use super::text::split_first;
use crate::stop::Stop;
use std::alloc::Global;

/// The text between two marks of one kind, with its escapes resolved, and what is behind the second mark.
#[tactic(auto, unfolding(crate::specs::Reading::quoted_read))]
pub(super) fn read_quoted(alloc: Global, text: &str) -> Result<(String, &str), Stop>
    ensures { Reads (λ x. (string_bytes x.0, x.1.now)) result (quoted_read text.now) }
{
    let (mark, body) = split_first(text).ok_or(Stop::Unread)?;
    if !is_mark(mark) {
        return Err(Stop::Unread);
    }
    read_body(alloc, mark, body)
}

pub(super) fn is_mark(c: char) -> bool
    ensures { result ≡ is_mark c }
{
    c == '\'' || c == '"'
}

fn read_body(alloc: Global, mark: char, text: &str) -> Result<(String, &str), Stop>
    requires { mark < 128 }
    ensures { Reads (λ x. (string_bytes x.0, x.1.now)) result (body_read mark text.now) }
{
    let mut body = String::new(alloc);
    let mut rest = text;
    while let Some((c, behind)) = split_first(rest) {
        if c == mark {
            return Ok((body, behind));
        }
        let (c, behind) = read_char(c, behind)?;
        body.push(c)?;
        rest = behind;
    }
    Err(Stop::Unread)
}

/// The character, or where it is a backslash the one that an escape stands for, and the text behind.
fn read_char(c: char, behind: &str) -> Result<(char, &str), Stop>
    ensures { Reads (λ x. (x.0, x.1.now)) result (char_read c behind.now) }
{
    if c == '\\' {
        read_escape(behind)
    } else {
        Ok((c, behind))
    }
}

/// What stands behind a backslash.
fn read_escape(text: &str) -> Result<(char, &str), Stop>
    ensures { Reads (λ x. (x.0, x.1.now)) result (escape_read text.now) }
{
    let (c, behind) = split_first(text).ok_or(Stop::Unread)?;
    match escaped(c) {
        Some(c) => Ok((c, behind)),
        None => Err(Stop::Unread),
    }
}

/// What this character stands for behind a backslash.
fn escaped(c: char) -> Option<char>
    ensures { result ≡ escaped c }
{
    match c {
        '\\' | '\'' | '"' => Some(c),
        'n' => Some('\n'),
        'r' => Some('\r'),
        't' => Some('\t'),
        _ => None,
    }
}
