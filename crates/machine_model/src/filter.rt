//! Which files of the inbox a GetFile takes, by their names.
ghost use Rattle.std.specs.Prelude.{◌≡◌, option_map, IfOk};
ghost use Rattle.regex.specs.Strings.{matcher_pattern, regex_pattern};

use crate::Pattern;
use regex::Matcher;
use std::alloc::{AllocError, Global};

/// A GetFile's filter, ready to be asked about names. It is made once for many of them.
#[derive(Drop)]
pub struct Filter<'f> {
    pub filter: &'f Option<Pattern>,
    matcher: Option<Matcher<'f>>,
    ghost same: { ∥ option_map matcher_pattern matcher
        ≡ option_map (λ pattern. regex_pattern pattern.regex.value) filter.now ∥₁ },
}

impl<'f> Filter<'f> {
    ghost use Rattle.machine_model.specs.Acting.{passes};

    pub fn new(alloc: Global, filter: &'f Option<Pattern>) -> Result<Filter<'f>, AllocError>
        ensures { IfOk result (λ held. held.filter.now ≡ filter.now) }
    {
        let matcher = match filter {
            Some(pattern) => Some(pattern.regex.matcher(alloc)?),
            None => None,
        };
        Ok(Filter { filter, matcher })
    }

    /// Whether it lets a file of this name through.
    pub fn passes(&mut self, name: &str) -> bool
        ensures value { result ≡ passes self.old.filter.now name.now }
        ensures same { self.new.filter.now ≡ self.old.filter.now }
    {
        match &mut self.matcher {
            Some(matcher) => matcher.is_match(name),
            None => true,
        }
    }
}
