//! Contents of which parts are replaced.
ghost use Rattle.std.specs.Prelude.{◌≡◌, ◌<◌, length, IfOk, IfSome, IsTrue, is_some, option_map, string_bytes};
ghost use Rattle.regex.specs.Patterns.{find_all_str};
ghost use Rattle.regex.specs.Replace.{replaced_by};
ghost use Rattle.regex.specs.Strings.{regex_pattern};
ghost use Rattle.expr_lang.specs.Functions.{with_replaced};
ghost use Rattle.machine_model.specs.Making.{as_content};
ghost use Rattle.machine_model.specs.ReplaceText.{replaced_content, template_at, text_replaced};
ghost use Rattle.machine_model.specs.Sound.{is_replacement_sound};
ghost use Rattle.proc_text.specs.Kinds.{is_replace_text};

use crate::FAILURE;
use crate::growth::fits;
use crate::passing::replace;
use flowfile_record::CONTENT_MAX;
use machine_model::{Kind, Pattern, Replacement};
use process_session::Session;
use processor_api::{Acts, FILE, Given, TakeRule, pass};
use regex::Template;
use simdutf8::basic::from_utf8;
use std::alloc::{AllocError, Global};

/// Replaces parts of a content that is UTF-8: each match of a pattern by what a template stands for there, or each
/// place of a text by a value.
#[derive(Clone, Copy)]
pub struct ReplaceText<'k> {
    pub replacement: &'k Replacement,
}

impl<'k> ReplaceText<'k> {
    /// The processor of a kind, or `None` where the kind is another processor's.
    pub fn of(kind: &'k Kind) -> Option<ReplaceText<'k>>
        ensures of { IfSome result (λ processor. Kind.ReplaceText processor.replacement.now ≡ kind.now) }
        ensures other { is_some result ≡ is_replace_text kind.now }
    {
        match kind {
            Kind::ReplaceText { replacement } => Some(ReplaceText { replacement }),
            _ => None,
        }
    }
}

impl Acts for ReplaceText<'_> {
    ghost use Rattle.machine_model.specs.declared.kind.Kind.TheVariants.{ReplaceText as OfReplaceText};

    ghost kind = { λ processor. OfReplaceText processor.replacement.now };

    fn takes(&self) -> TakeRule {
        TakeRule::One
    }

    fn act(
        &self,
        alloc: Global,
        session: &mut Session,
        _given: &mut Given,
    ) -> Result<(), AllocError> {
        let Ok(content) = session.content(FILE) else {
            unreachable!()
        };
        match replaced_content(alloc, self.replacement, content)? {
            Some(text) => {
                replace(session, text.into_bytes());
                Ok(())
            }
            None => {
                pass(session, FAILURE);
                Ok(())
            }
        }
    }
}

/// The content with its parts replaced, if it is UTF-8 and what is made of it isn't too long.
fn replaced_content(
    alloc: Global,
    replacement: &Replacement,
    content: &[u8],
) -> Result<Option<String>, AllocError>
    requires { IsTrue (is_replacement_sound replacement.now) }
    ensures { IfOk result (λ replaced. option_map string_bytes replaced
        ≡ replaced_content replacement.now content.now) }
{
    match from_utf8(content) {
        Ok(text) => text_replaced(alloc, replacement, text),
        Err(_) => Ok(None),
    }
}

/// A text with its parts replaced, if it isn't too long for a content.
fn text_replaced(
    alloc: Global,
    replacement: &Replacement,
    text: &str,
) -> Result<Option<String>, AllocError>
    requires { IsTrue (is_replacement_sound replacement.now) }
    ensures { IfOk result (λ replaced. option_map string_bytes replaced
        ≡ as_content (text_replaced replacement.now text.now)) }
{
    match replacement {
        Replacement::Regex { search, template } => {
            with_matches_within(alloc, text, search, template.as_str())
        }
        Replacement::Literal { search, value } => {
            with_text_replaced(alloc, text, search.as_str(), value.as_str())
        }
    }
}

/// A text with what a template stands for in the place of each match, if it isn't too long for a content. That is known
/// before it is made, since it could grow past all memory.
fn with_matches_within(
    alloc: Global,
    text: &str,
    search: &Pattern,
    template: &str,
) -> Result<Option<String>, AllocError>
    ensures { IfOk result (λ replaced. option_map string_bytes replaced
        ≡ as_content (replaced_by (template_at search.now template.now text.now) text.now 0
        (find_all_str (regex_pattern search.now.regex.value) text.now))) }
{
    if is_growing(text, template) && !fits(alloc, text, &search.regex, template)? {
        return Ok(None);
    }
    let replaced = with_matches_replaced(alloc, text, search, template)?;
    Ok(fitting(replaced))
}

/// Whether what is made of a text may be longer than a content, however often and long its matches are. It is known at
/// once, where the length itself takes a search of its own.
fn is_growing(text: &str, template: &str) -> bool {
    let matches = text.len().saturating_add(1).saturating_mul(2);
    matches.saturating_mul(template.len().saturating_add(1)) as u64 > CONTENT_MAX
}

/// A text, if it isn't too long for a content.
fn fitting(text: String) -> Option<String>
    ensures { option_map string_bytes result ≡ as_content (string_bytes text) }
{
    if text.len() as u64 <= CONTENT_MAX {
        Some(text)
    } else {
        None
    }
}

/// A text with what a template stands for in the place of each match.
fn with_matches_replaced(
    alloc: Global,
    text: &str,
    search: &Pattern,
    template: &str,
) -> Result<String, AllocError>
    ensures { IfOk result (λ replaced. string_bytes replaced
        ≡ replaced_by (template_at search.now template.now text.now) text.now 0
        (find_all_str (regex_pattern search.now.regex.value) text.now)) }
{
    let template = Template::new(alloc, search.regex.capture_names(), template)?;
    let mut matcher = search.regex.matcher(alloc)?;
    matcher.replace_all(alloc, text, &template)
}

/// A text with a value in the place of each search text from the left. It stops as soon as it is too long, since it
/// could grow past all memory.
fn with_text_replaced(
    alloc: Global,
    text: &str,
    search: &str,
    value: &str,
) -> Result<Option<String>, AllocError>
    requires { 0 < length search.now }
    ensures { IfOk result (λ replaced. option_map string_bytes replaced
        ≡ as_content (with_replaced search.now value.now text.now)) }
{
    let mut replaced = String::new(alloc);
    let mut rest = text;
    while let Some((before, after)) = rest.split_once(search) {
        replaced.push_str(before)?;
        replaced.push_str(value)?;
        if replaced.len() as u64 > CONTENT_MAX {
            return Ok(None);
        }
        rest = after;
    }
    replaced.push_str(rest)?;
    Ok(fitting(replaced))
}
