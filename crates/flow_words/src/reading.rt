//! Commands from words.
ghost use Rattle.std.specs.Prelude.{◌≡◌, ◌≤◌, IfOk, IfSome, codes, map};
ghost use Rattle.uuid.specs.Text.{parsed};
ghost use Rattle.flow_words.specs.Arguments.{word_texts};
ghost use Rattle.flow_words.specs.Seen.{argument_seen};
ghost use Rattle.flow_words.specs.Words.{AreInRange, IsInRange, ReadsWords, bare_command, command_of, options_of, run_of, setting, threads_of, trial_of, uuid_of, words_of};

use crate::argument::{Argument, are_among, positional_of, read_arguments, value_of_option};
use crate::command::{
    CHECKPOINT_MAX, COMMITS_MAX, Command, DEFAULT_CHECKPOINT, DEFAULT_COMMITS, DEFAULT_THREADS,
    RunOptions, THREADS_MAX, TRIAL_MAX,
};
use crate::error::WordsError;
use crate::number::number_in;
use std::alloc::Global;
use uuid::Uuid;

/// The command that the words behind the program's name are.
#[tactic(auto, unfolding(crate::specs::Words::words_of))]
pub fn read_words(alloc: Global, words: &[String]) -> Result<Command, WordsError>
    ensures command { ReadsWords (λ command. command) result (words_of (word_texts words.now)) }
    ensures range { IfOk result IsInRange }
{
    let (name, rest) = words.split_first().ok_or(WordsError::Usage)?;
    let arguments = read_arguments(alloc, rest)?;
    command_of(name, &arguments).ok_or(WordsError::Usage)
}

fn command_of(name: &str, arguments: &[Argument<'_>]) -> Option<Command>
    ensures command { result ≡ command_of name.now (map argument_seen arguments.now) }
    ensures range { IfSome result IsInRange }
{
    match name {
        "run" => run_of(arguments),
        "trial" => trial_of(arguments),
        "lineage" => uuid_of(arguments).map(Command::Lineage),
        "content" => uuid_of(arguments).map(Command::Content),
        "queues" => alone(Command::Queues, arguments),
        "events" => alone(Command::Events, arguments),
        "check" => alone(Command::Check, arguments),
        _ => None,
    }
}

fn run_of(arguments: &[Argument<'_>]) -> Option<Command>
    ensures command { result ≡ run_of (map argument_seen arguments.now) }
    ensures range { IfSome result IsInRange }
{
    if !are_among(arguments, &["threads", "max-commits", "checkpoint"]) {
        return None;
    }
    let options = options_of(arguments)?;
    match positional_of(arguments)? {
        None => Some(Command::Run(options)),
        Some(_) => None,
    }
}

fn options_of(arguments: &[Argument<'_>]) -> Option<RunOptions>
    ensures options { result ≡ options_of (map argument_seen arguments.now) }
    ensures range { IfSome result AreInRange }
{
    Some(RunOptions {
        threads: threads_of(arguments)?,
        max_commits: setting("max-commits", DEFAULT_COMMITS, COMMITS_MAX, arguments)?,
        checkpoint: setting("checkpoint", DEFAULT_CHECKPOINT, CHECKPOINT_MAX, arguments)?,
    })
}

fn trial_of(arguments: &[Argument<'_>]) -> Option<Command>
    ensures command { result ≡ trial_of (map argument_seen arguments.now) }
    ensures range { IfSome result IsInRange }
{
    if !are_among(arguments, &["threads"]) {
        return None;
    }
    let threads = threads_of(arguments)?;
    let count = number_in(1, TRIAL_MAX, positional_of(arguments)??)?;
    Some(Command::Trial { count, threads })
}

/// The UUID that is the one argument.
fn uuid_of(arguments: &[Argument<'_>]) -> Option<Uuid>
    ensures { result ≡ uuid_of (map argument_seen arguments.now) }
{
    if !are_among(arguments, &[]) {
        return None;
    }
    uuid_in(positional_of(arguments)??)
}

fn uuid_in(text: &str) -> Option<Uuid>
    ensures { result ≡ parsed text.now }
{
    Uuid::parse_str(text).ok()
}

/// A command that takes no argument.
fn alone(command: Command, arguments: &[Argument<'_>]) -> Option<Command>
    ensures { result ≡ bare_command command (map argument_seen arguments.now) }
{
    if !are_among(arguments, &[]) {
        return None;
    }
    match positional_of(arguments)? {
        None => Some(command),
        Some(_) => None,
    }
}

fn threads_of(arguments: &[Argument<'_>]) -> Option<u8>
    ensures threads { result ≡ threads_of (map argument_seen arguments.now) }
    ensures range { IfSome result (λ number. (1 ≤ number) × (number ≤ THREADS_MAX)) }
{
    let threads = setting(
        "threads",
        u64::from(DEFAULT_THREADS),
        u64::from(THREADS_MAX),
        arguments,
    )?;
    Some(threads as u8)
}

/// The number of an option, from 1 on, or its default where it isn't given.
fn setting(name: &str, default: u64, most: u64, arguments: &[Argument<'_>]) -> Option<u64>
    requires least { 1 ≤ default }
    requires most { default ≤ most }
    ensures number { result ≡ setting name.now default most (map argument_seen arguments.now) }
    ensures least { IfSome result (λ number. 1 ≤ number) }
    ensures most { IfSome result (λ number. number ≤ most) }
{
    match value_of_option(name, arguments)? {
        Some(text) => number_in(1, most, text),
        None => Some(default),
    }
}
