//! A pattern of regular expressions, built once when the flow is read.
ghost use Rattle.std.specs.Prelude.{◌≡◌, ◌+◌, ◌≤◌, IfOk, IfErr};
ghost use Rattle.regex.specs.Patterns.{default_config};
ghost use Rattle.regex.specs.Sources.{IsRefusal};
ghost use Rattle.regex.specs.Strings.{regex_source, regex_config, regex_size, IsReadFromSource};

use flowfile_record::Text;
use regex::{Regex, RegexBuilder};
use std::alloc::{AllocError, Global};

/// A pattern as `regex` built it from its text, under the syntax's usual options.
#[derive(Drop)]
pub struct Pattern {
    pub text: Text,
    pub regex: Box<Regex>,
    pub ghost source: { regex_source regex.value ≡ text },
    pub ghost options: { regex_config regex.value ≡ default_config },
    pub ghost read: { ∥ IsReadFromSource regex.value ∥₁ },
}

impl Pattern {
    /// The pattern of a text that was built already, under the syntax's usual options.
    pub fn from_regex(alloc: Global, text: Text, regex: Regex) -> Result<Pattern, AllocError>
        requires source { regex_source regex ≡ text }
        requires options { regex_config regex ≡ default_config }
        requires read { IsReadFromSource regex }
        ensures { IfOk result (λ pattern. (pattern.text ≡ text) × (pattern.regex.value ≡ regex)) }
    {
        let regex = Box::new(alloc, regex)?;
        Ok(Pattern { text, regex })
    }

    /// The pattern of a text. `Syntax` comes where the text is no pattern or nests deeper than 250, `CompiledTooBig`
    /// where its tables would have more bytes than the limit, and `OutOfMemory` where there is no memory.
    pub fn new(alloc: Global, text: Text, size_limit: u64) -> Result<Pattern, regex::Error>
        ensures kept { IfOk result (λ pattern. pattern.text ≡ text) }
        ensures small { IfOk result (λ pattern. regex_size pattern.regex.value ≤ size_limit + 24) }
        ensures refused { IfErr result (IsRefusal default_config text) }
    {
        let built = RegexBuilder::new(text.as_str())
            .size_limit(size_limit as usize)
            .build(alloc)?;
        match Pattern::from_regex(alloc, text, built) {
            Ok(pattern) => Ok(pattern),
            Err(_) => Err(regex::Error::OutOfMemory),
        }
    }
}
