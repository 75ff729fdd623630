//! Building patterns, which a builder may refuse for their size.
ghost use Rattle.std.specs.Prelude.{◌≡◌, ◌≢◌, ◌^◌, ◌<◌, ◌≤◌, ℕ, List, [], IfOk, OnOk, IsErrOf, vec_len, vec_capacity};
ghost use Rattle.disk_trait.specs.Count.{one_more};
ghost use Rattle.disk_trait.specs.Faults.{CountsFaults};
ghost use Rattle.regex.specs.Patterns.{default_config};
ghost use Rattle.regex.specs.Failures.{IsPattern};
ghost use Rattle.regex.specs.Strings.{regex_source, regex_config, IsReadFromSource};
ghost use Rattle.flow_definition.specs.Patterns.{CountsEach, IsUnread, refused_behind};

use disk_trait::Calls;
use flowfile_record::Text;
use regex::{Regex, RegexBuilder};
use std::alloc::{AllocError, Global};
use thiserror::Error;

/// Why a pattern isn't built.
#[derive(Clone, Copy, Debug, PartialEq, Eq, Error)]
pub enum PatternError {
    /// The text is no pattern, or nests too deep.
    #[error("no pattern can be read from the text")]
    Syntax,
    /// The pattern is too large to be built.
    #[error("the pattern is too large")]
    TooBig,
    #[error("out of memory")]
    Memory,
}

/// A builder of patterns.
pub trait Patterns {
    /// How often it refused a pattern for its size, up to 2^64 - 1. It never falls, and rises at nothing else.
    ghost faults: { Self → ℕ };

    /// The texts that it refused for their size, in turn.
    ghost refused: { Self → List (List ℕ) };

    /// The pattern that `regex` reads from the text, under the syntax's usual options.
    fn build(&mut self, alloc: Global, text: &str) -> Result<Regex, PatternError>
        ensures source { IfOk result (λ regex. regex_source regex ≡ text.now) }
        ensures options { IfOk result (λ regex. regex_config regex ≡ default_config) }
        ensures read { IfOk result IsReadFromSource }
        ensures syntax { IsErrOf result PatternError.Syntax → IsUnread text.now }
        ensures cause { CountsFaults (faults self.old) (faults self.new) (IsErrOf result PatternError.TooBig) }
        ensures each { CountsEach (faults self.old) (faults self.new) (IsErrOf result PatternError.TooBig) }
        ensures told { refused self.new ≡ refused_behind (refused self.old) text.now result };
}

/// Builds patterns with `regex`, under its usual limit of size.
#[derive(Debug, Drop)]
pub struct Builder {
    /// Its calls so far. A fault is a refusal for size.
    pub calls: Calls,
    /// The texts that it refused for their size, in turn.
    pub refused: Vec<Text>,
}

impl Builder {
    /// A builder that refuses the patterns of the calls with these numbers, counted from 1, as too large.
    pub fn new(failing: Vec<u64>) -> Builder
        ensures faults { ⟦<Builder as Patterns>⟧.faults result ≡ 0 }
        ensures calls { result.calls ≡ record { failing = failing; count = 0; faults = 0 } }
        ensures refused { ⟦<Builder as Patterns>⟧.refused result ≡ [] }
    {
        let refused = Vec::new(*failing.allocator());
        Builder {
            calls: Calls::new(failing),
            refused,
        }
    }

    /// A copy of a text, and room for it among the refused ones.
    fn copied(&mut self, alloc: Global, text: &str) -> Result<Text, AllocError>
        ensures copy { IfOk result (λ copy. copy ≡ text.now) }
        ensures room { OnOk result (vec_len self.new.refused < vec_capacity self.new.refused) }
        ensures refused { self.new.refused.items ≡ self.old.refused.items }
        ensures calls { self.new.calls ≡ self.old.calls }
    {
        self.refused.reserve(1)?;
        Text::from_str(alloc, text)
    }
}

impl Patterns for Builder {
    ghost use Rattle.std.specs.Prelude.{◌⊎◌};
    ghost use Rattle.disk_trait.specs.Called.{Called, FailsNext};

    ghost faults = { λ builder. builder.calls.faults };

    ghost refused = { λ builder. builder.refused.items };

    fn build(&mut self, alloc: Global, text: &str) -> Result<Regex, PatternError>
        ensures source { IfOk result (λ regex. regex_source regex ≡ text.now) }
        ensures options { IfOk result (λ regex. regex_config regex ≡ default_config) }
        ensures read { IfOk result IsReadFromSource }
        ensures syntax { IsErrOf result PatternError.Syntax → IsUnread text.now }
        ensures listed { FailsNext self.old.calls
            → IsErrOf result PatternError.TooBig ⊎ IsErrOf result PatternError.Memory }
        ensures big { IsErrOf result PatternError.TooBig
            → FailsNext self.old.calls ⊎ IsPattern default_config text.now }
        ensures called { Called self.old.calls self.new.calls (IsErrOf result PatternError.TooBig)
            ⊎ (IsErrOf result PatternError.Memory × (self.new.calls ≡ self.old.calls)) }
        ensures cause { CountsFaults self.old.calls.faults self.new.calls.faults (IsErrOf result PatternError.TooBig) }
        ensures each { CountsEach self.old.calls.faults self.new.calls.faults (IsErrOf result PatternError.TooBig) }
        ensures told { self.new.refused.items ≡ refused_behind self.old.refused.items text.now result }
    {
        // Before the call is counted: want of memory is no refusal for size.
        let Ok(copy) = self.copied(alloc, text) else {
            return Err(PatternError::Memory);
        };
        if self.calls.begin().is_err() {
            self.refused.push_reserved(copy);
            return Err(PatternError::TooBig);
        }
        match built(alloc, text) {
            Err(PatternError::TooBig) => {
                let _ = self.calls.fault();
                self.refused.push_reserved(copy);
                Err(PatternError::TooBig)
            }
            answer => answer,
        }
    }
}

fn built(alloc: Global, text: &str) -> Result<Regex, PatternError>
    ensures source { IfOk result (λ regex. regex_source regex ≡ text.now) }
    ensures options { IfOk result (λ regex. regex_config regex ≡ default_config) }
    ensures read { IfOk result IsReadFromSource }
    ensures syntax { IsErrOf result PatternError.Syntax → IsUnread text.now }
    ensures big { IsErrOf result PatternError.TooBig → IsPattern default_config text.now }
{
    match RegexBuilder::new(text).build(alloc) {
        Ok(regex) => Ok(regex),
        Err(regex::Error::Syntax(_)) => Err(PatternError::Syntax),
        Err(regex::Error::CompiledTooBig) => Err(PatternError::TooBig),
        Err(regex::Error::Internal | regex::Error::OutOfMemory) => Err(PatternError::Memory),
    }
}
