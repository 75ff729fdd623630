//! Options with their values, and words that are none.
ghost use Rattle.std.specs.Prelude.{◌≡◌, map};
ghost use Rattle.std.specs.List.{list_all};
ghost use Rattle.std.specs.Option.{option_copied, option_map};
ghost use Rattle.flow_words.specs.Arguments.{arguments_of, word_texts};
ghost use Rattle.flow_words.specs.Seen.{IsWord, named_texts, argument_seen};
ghost use Rattle.flow_words.specs.Words.{ReadsWords, is_named_among, positional_in, positional_of, value_named, value_of_option};

use crate::error::WordsError;
use std::alloc::Global;

/// An option with its value, or a word that is no option.
#[derive(Clone, Copy, Debug, PartialEq, Eq)]
pub(crate) enum Argument<'a> {
    Named { name: &'a str, value: &'a str },
    Positional(&'a str),
}

/// A word that is a whole argument, or the name of an option whose value is the next word.
#[derive(Clone, Copy)]
enum Word<'a> {
    Whole(Argument<'a>),
    Name(&'a str),
}

impl<'a> Argument<'a> {
    /// The value, if this is the option.
    fn value_named(self, name: &str) -> Option<&'a str>
        ensures { option_copied result ≡ value_named name.now (argument_seen self.entry) }
    {
        match self {
            Argument::Named { name: other, value } if other == name => Some(value),
            _ => None,
        }
    }

    fn positional(self) -> Option<&'a str>
        ensures { option_copied result ≡ positional_in (argument_seen self.entry) }
    {
        match self {
            Argument::Named { .. } => None,
            Argument::Positional(word) => Some(word),
        }
    }

    /// Whether this is none but one of these options.
    fn is_among(self, names: &[&str]) -> bool
        ensures { result ≡ is_named_among (named_texts names.now) (argument_seen self.entry) }
    {
        match self {
            Argument::Named { name, .. } => names.iter().any(|other| *other == name),
            Argument::Positional(_) => true,
        }
    }
}

/// The arguments that the words behind a command are.
pub(crate) fn read_arguments(
    alloc: Global,
    words: &[String],
) -> Result<Vec<Argument<'_>>, WordsError>
    ensures { ReadsWords (λ arguments. map argument_seen arguments.items) result (arguments_of (word_texts words.now)) }
{
    let mut arguments = Vec::new(alloc);
    let mut option = None;
    for word in words {
        match (option, read_word(word)) {
            (Some(name), _) => {
                arguments.push(Argument::Named { name, value: word })?;
                option = None;
            }
            (None, Word::Name(name)) => option = Some(name),
            (None, Word::Whole(argument)) => arguments.push(argument)?,
        }
    }
    match option {
        Some(_) => Err(WordsError::Usage),
        None => Ok(arguments),
    }
}

/// What a word is that no option takes as its value.
fn read_word(word: &str) -> Word<'_>
    ensures { IsWord word.now result }
{
    match word.strip_prefix("--") {
        None => Word::Whole(Argument::Positional(word)),
        Some(option) => match option.split_once('=') {
            Some((name, value)) => Word::Whole(Argument::Named { name, value }),
            None => Word::Name(option),
        },
    }
}

/// The value of an option, if it is given; `None` where it is given twice.
pub(crate) fn value_of_option<'a>(name: &str, arguments: &[Argument<'a>]) -> Option<Option<&'a str>>
    ensures { option_map option_copied result ≡ value_of_option name.now (map argument_seen arguments.now) }
{
    let mut value = None;
    for argument in arguments {
        if let Some(text) = argument.value_named(name) {
            if value.is_some() {
                return None;
            }
            value = Some(text);
        }
    }
    Some(value)
}

/// The word that is no option, if there is one; `None` where there are two.
pub(crate) fn positional_of<'a>(arguments: &[Argument<'a>]) -> Option<Option<&'a str>>
    ensures { option_map option_copied result ≡ positional_of (map argument_seen arguments.now) }
{
    let mut positional = None;
    for argument in arguments {
        if let Some(word) = argument.positional() {
            if positional.is_some() {
                return None;
            }
            positional = Some(word);
        }
    }
    Some(positional)
}

/// Whether each option is one of these.
pub(crate) fn are_among(arguments: &[Argument<'_>], names: &[&str]) -> bool
    ensures { result ≡ list_all (is_named_among (named_texts names.now)) (map argument_seen arguments.now) }
{
    arguments.iter().all(|argument| argument.is_among(names))
}
