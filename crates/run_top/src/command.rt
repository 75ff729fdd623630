//! The command that the words say.
ghost use Rattle.std.specs.Prelude.{◌≡◌, ◌⊎◌, ◌-◌, ◌^◌, ◌<◌, ◌≤◌, Err, IfErr, IfOk, IsTrue};
ghost use Rattle.disk_trait.specs.Faults.{CountsFaults};
ghost use Rattle.flowfile_record.specs.Encoding.{IsDigest};
ghost use Rattle.machine_model.specs.Sound.{IsSound};
ghost use Rattle.machine_model.specs.State.{State};
ghost use Rattle.machine_model.specs.declared.flow.Flow.{Flow as TheFlow};
ghost use Rattle.store_core.specs.Opened.{IsShut};
ghost use Rattle.engine_change.specs.Committing.{identity_of};
ghost use Rattle.flow_definition.specs.Patterns.{told_by_builder};
ghost use Rattle.run_top.specs.Complete.{IsEndOrMemory, StandsStill};
ghost use Rattle.run_top.specs.Opening.{IsOfFlow};
ghost use Rattle.run_top.specs.Printing.{IsLine, refusal_line};
ghost use Rattle.run_top.specs.Run.{RunCountsFaults, AnswerHasCause, HasNotRun, HasRunOver, IsLeftShut, IsNotOpened, IsNotRead, IsUntouched, Runs};
ghost use Rattle.run_top.specs.Status.{answer_of_run, status_of};
ghost use Rattle.run_top.specs.Text.{BreaksRule, IsReadFlow};
ghost use Rattle.run_top.specs.declared.answer.Answer.{Answer as TheAnswer};
ghost use Rattle.flow_words.specs.declared.command.RunOptions.{RunOptions as TheOptions};
ghost use Rattle.run_top.specs.Words.{AskForNoRun, AskToRun};

use crate::Answer;
use crate::opening::open;
use crate::printing::{refuse, show};
use crate::text::read;
use disk_trait::Disk;
use flow_definition::Patterns;
use flow_scheduler::{Ran, run_flow};
use flow_words::{COMMITS_MAX, Command, RunOptions, WordsError, read_words};
use machine_model::Flow;
use prov_store::events_up_to_the_last_are_in_a_row;
use run_law::{failed_openings_end_a_run, run_begins};
use std::alloc::Global;
use store_core::what_is_kept_is_a_state;
use world_io::{Clock, Gate, Inbox, Outbox, Sink, Source};

/// Runs the command that the words say, and answers its status.
///
/// The one command is `run`, with its options: it reads the flow's text from its source, and opens the flow's store on
/// the disk, or makes one, whose id is then the low 60 bits of the lot. Then the flow runs over it, session after
/// session, until nothing is left to do, all of it is held back by full connections, or the journal has as many entries
/// as `--max-commits` says. A log of as many entries as `--checkpoint` says is followed by a new one. The clock tells
/// the moments of sessions. Whatever `--threads` says, one session runs at a time. Each session's processor works
/// between one `enter` and one `leave` of the gate, under the session's number.
///
/// At its end it prints a summary: how many files each connection has and how many bytes they have together, how many
/// names of the inbox are left, and how many events of each kind the store has; and behind it what held the run back or
/// ended it. Any other answer is printed as one line, as far as the sink takes it.
pub fn run<R, D: Disk, I: Inbox, O: Outbox, F: Source, P: Patterns, S: Sink, C: Clock, G: Gate>(
    _rt: &R,
    alloc: Global,
    words: &[String],
    lot: u64,
    disk: &mut D,
    inbox: &mut I,
    outbox: &mut O,
    flow: &mut F,
    patterns: &mut P,
    sink: &mut S,
    clock: &mut C,
    gate: &G,
) -> u8
    // The status is that of an answer. A flow of the text was read, and this is what its run did; or none was, and
    // nothing was done.
    ensures asked { (options : TheOptions) → AskToRun words.now options
        → (answer : TheAnswer) × (result ≡ status_of answer)
        × (((one : TheFlow) × IsReadFlow F.tells (F.rest flow.old) one
        × Runs one answer C.given (C.time clock.old) (C.time clock.new) lot options D.tells D.held D.moment D.images
        disk.old disk.new I.tells I.left inbox.old inbox.new O.tells O.standing O.puts outbox.old outbox.new
        S.tells S.written S.faults sink.old sink.new)
        ⊎ IsNotRead answer (told_by_builder P.faults P.refused patterns.old)
        (told_by_builder P.faults P.refused patterns.new) F.tells
        (F.rest flow.old) S.tells S.written S.faults
        disk.old disk.new inbox.old inbox.new outbox.old outbox.new sink.old sink.new) }

    // Where the text breaks a rule, no flow was read.
    ensures broken { (options : TheOptions) → AskToRun words.now options → IsTrue F.tells → BreaksRule (F.rest flow.old)
        → (answer : TheAnswer) × (result ≡ status_of answer)
        × IsNotRead answer (told_by_builder P.faults P.refused patterns.old)
        (told_by_builder P.faults P.refused patterns.new) F.tells
        (F.rest flow.old) S.tells S.written S.faults
        disk.old disk.new inbox.old inbox.new outbox.old outbox.new sink.old sink.new }

    // Where the text breaks no rule, the files stand for a state of its flow and nothing fails, the run comes to its end
    // and tells it, or memory is wanting.
    ensures complete { (options : TheOptions) → AskToRun words.now options
        → IsTrue F.tells → (BreaksRule (F.rest flow.old) → ⊥) → (one : TheFlow)
        → IsReadFlow F.tells (F.rest flow.old) one
        → IsTrue D.tells → (state : State) → IsOfFlow one lot (D.held disk.old) state
        → StandsStill (F.faults flow.old) (F.faults flow.new)
        → StandsStill (P.faults patterns.old) (P.faults patterns.new)
        → StandsStill (D.faults disk.old) (D.faults disk.new) → StandsStill (I.faults inbox.old) (I.faults inbox.new)
        → StandsStill (O.faults outbox.old) (O.faults outbox.new) → StandsStill (S.faults sink.old) (S.faults sink.new)
        → (answer : TheAnswer) × (result ≡ status_of answer) × IsEndOrMemory answer }

    // Words that ask for something else, or for nothing: nothing is done, and a line says so.
    ensures usage { AskForNoRun words.now → (answer : TheAnswer) × (result ≡ status_of answer)
        × ((answer ≡ Answer.Usage) ⊎ (answer ≡ Answer.Memory))
        × IsUntouched disk.old disk.new inbox.old inbox.new outbox.old outbox.new
        × (flow.new ≡ flow.old) × (patterns.new ≡ patterns.old) × (clock.new ≡ clock.old)
        × (IsTrue S.tells → IsLine S.faults S.written (refusal_line answer) sink.old sink.new) }

    // A device's fault is told only where its count rose.
    ensures faults { (answer : TheAnswer) × (result ≡ status_of answer)
        × RunCountsFaults answer (D.faults disk.old) (D.faults disk.new)
        (I.faults inbox.old) (I.faults inbox.new) (O.faults outbox.old) (O.faults outbox.new)
        × CountsFaults (F.faults flow.old) (F.faults flow.new) (answer ≡ Answer.Source)
        × CountsFaults (S.faults sink.old) (S.faults sink.new) (answer ≡ Answer.Sink) }
{
    let answer = answer_words(
        alloc, words, lot, disk, inbox, outbox, flow, patterns, sink, clock, gate,
    );
    answer.status()
}

// What the words come to.
fn answer_words<D: Disk, I: Inbox, O: Outbox, F: Source, P: Patterns, S: Sink, C: Clock, G: Gate>(
    alloc: Global,
    words: &[String],
    lot: u64,
    disk: &mut D,
    inbox: &mut I,
    outbox: &mut O,
    flow: &mut F,
    patterns: &mut P,
    sink: &mut S,
    clock: &mut C,
    gate: &G,
) -> Answer
    ensures asked { (options : TheOptions) → AskToRun words.now options
        → (((one : TheFlow) × IsReadFlow F.tells (F.rest flow.old) one
        × Runs one result C.given (C.time clock.old) (C.time clock.new) lot options D.tells D.held D.moment D.images
        disk.old disk.new I.tells I.left inbox.old inbox.new O.tells O.standing O.puts outbox.old outbox.new
        S.tells S.written S.faults sink.old sink.new)
        ⊎ IsNotRead result (told_by_builder P.faults P.refused patterns.old)
        (told_by_builder P.faults P.refused patterns.new) F.tells
        (F.rest flow.old) S.tells S.written S.faults
        disk.old disk.new inbox.old inbox.new outbox.old outbox.new sink.old sink.new) }
    ensures broken { (options : TheOptions) → AskToRun words.now options → IsTrue F.tells → BreaksRule (F.rest flow.old)
        → IsNotRead result (told_by_builder P.faults P.refused patterns.old)
        (told_by_builder P.faults P.refused patterns.new) F.tells
        (F.rest flow.old) S.tells S.written S.faults
        disk.old disk.new inbox.old inbox.new outbox.old outbox.new sink.old sink.new }
    ensures usage { AskForNoRun words.now → ((result ≡ Answer.Usage) ⊎ (result ≡ Answer.Memory))
        × IsUntouched disk.old disk.new inbox.old inbox.new outbox.old outbox.new
        × (flow.new ≡ flow.old) × (patterns.new ≡ patterns.old) × (clock.new ≡ clock.old)
        × (IsTrue S.tells → IsLine S.faults S.written (refusal_line result) sink.old sink.new) }
    ensures faults { RunCountsFaults result (D.faults disk.old) (D.faults disk.new)
        (I.faults inbox.old) (I.faults inbox.new) (O.faults outbox.old) (O.faults outbox.new)
        × CountsFaults (F.faults flow.old) (F.faults flow.new) (result ≡ Answer.Source)
        × CountsFaults (S.faults sink.old) (S.faults sink.new) (result ≡ Answer.Sink) }
{
    match options_to_run(alloc, words) {
        Ok(options) => run_text(
            alloc, options, lot, disk, inbox, outbox, flow, patterns, sink, clock, gate,
        ),
        Err(answer) => refuse(sink, answer),
    }
}

/// The options with which the words ask to run the flow. Else why they don't: they ask for something else or for
/// nothing, or memory was wanting.
fn options_to_run(alloc: Global, words: &[String]) -> Result<RunOptions, Answer>
    ensures asked { IfOk result (AskToRun words.now) }
    ensures most { IfOk result (λ options. options.max_commits ≤ COMMITS_MAX) }
    ensures refused { IfErr result (λ answer. ((answer ≡ Answer.Usage) × AskForNoRun words.now)
        ⊎ (answer ≡ Answer.Memory)) }
{
    match read_words(alloc, words) {
        Ok(Command::Run(options)) => Ok(options),
        Ok(_) | Err(WordsError::Usage) => Err(Answer::Usage),
        Err(WordsError::Memory) => Err(Answer::Memory),
    }
}

// Runs the flow whose text the source has.
fn run_text<D: Disk, I: Inbox, O: Outbox, F: Source, P: Patterns, S: Sink, C: Clock, G: Gate>(
    alloc: Global,
    options: RunOptions,
    lot: u64,
    disk: &mut D,
    inbox: &mut I,
    outbox: &mut O,
    flow: &mut F,
    patterns: &mut P,
    sink: &mut S,
    clock: &mut C,
    gate: &G,
) -> Answer
    requires most { options.max_commits ≤ COMMITS_MAX }
    ensures asked { (((one : TheFlow) × IsReadFlow F.tells (F.rest flow.old) one
        × Runs one result C.given (C.time clock.old) (C.time clock.new) lot options D.tells D.held D.moment D.images
        disk.old disk.new I.tells I.left inbox.old inbox.new O.tells O.standing O.puts outbox.old outbox.new
        S.tells S.written S.faults sink.old sink.new)
        ⊎ IsNotRead result (told_by_builder P.faults P.refused patterns.old)
        (told_by_builder P.faults P.refused patterns.new) F.tells
        (F.rest flow.old) S.tells S.written S.faults
        disk.old disk.new inbox.old inbox.new outbox.old outbox.new sink.old sink.new) }
    ensures broken { IsTrue F.tells → BreaksRule (F.rest flow.old)
        → IsNotRead result (told_by_builder P.faults P.refused patterns.old)
        (told_by_builder P.faults P.refused patterns.new) F.tells
        (F.rest flow.old) S.tells S.written S.faults
        disk.old disk.new inbox.old inbox.new outbox.old outbox.new sink.old sink.new }
    ensures faults { RunCountsFaults result (D.faults disk.old) (D.faults disk.new)
        (I.faults inbox.old) (I.faults inbox.new) (O.faults outbox.old) (O.faults outbox.new)
        × CountsFaults (F.faults flow.old) (F.faults flow.new) (result ≡ Answer.Source)
        × CountsFaults (S.faults sink.old) (S.faults sink.new) (result ≡ Answer.Sink) }
{
    match read(alloc, flow, patterns) {
        Ok(flow) => run_read(
            alloc, &flow, options, lot, disk, inbox, outbox, sink, clock, gate,
        ),
        Err(answer) => refuse(sink, answer),
    }
}

// Runs a flow that was read, and prints how that ended.
fn run_read<D: Disk, I: Inbox, O: Outbox, S: Sink, C: Clock, G: Gate>(
    alloc: Global,
    flow: &Flow,
    options: RunOptions,
    lot: u64,
    disk: &mut D,
    inbox: &mut I,
    outbox: &mut O,
    sink: &mut S,
    clock: &mut C,
    gate: &G,
) -> Answer
    requires sound { IsSound flow.now }
    requires digest { IsDigest flow.now.digest }
    requires most { options.max_commits ≤ COMMITS_MAX }
    ensures runs { Runs flow.now result C.given (C.time clock.old) (C.time clock.new) lot options
        D.tells D.held D.moment D.images
        disk.old disk.new I.tells I.left inbox.old inbox.new O.tells O.standing O.puts outbox.old outbox.new
        S.tells S.written S.faults sink.old sink.new }
    ensures faults { RunCountsFaults result (D.faults disk.old) (D.faults disk.new)
        (I.faults inbox.old) (I.faults inbox.new) (O.faults outbox.old) (O.faults outbox.new)
        × CountsFaults (S.faults sink.old) (S.faults sink.new) (result ≡ Answer.Sink) }
{
    let run = run_over(
        alloc,
        flow,
        lot,
        options.max_commits,
        options.checkpoint,
        disk,
        inbox,
        outbox,
        clock,
        gate,
    );
    show(sink, flow, run)
}

/// Opens the store of a flow, and runs the flow over it, until the journal has `most` entries at the latest, with a
/// checkpoint where the log has `checkpoint` entries.
pub(crate) fn run_over<D: Disk, I: Inbox, O: Outbox, C: Clock, G: Gate>(
    alloc: Global,
    flow: &Flow,
    lot: u64,
    most: u64,
    checkpoint: u64,
    disk: &mut D,
    inbox: &mut I,
    outbox: &mut O,
    clock: &mut C,
    gate: &G,
) -> Result<Ran, Answer>
    requires sound { IsSound flow.now }
    requires digest { IsDigest flow.now.digest }
    requires most { most < 2 ^ 64 - 1 }
    ensures ran { IfOk result (λ ran. HasRunOver flow.now ran C.given (C.time clock.old) (C.time clock.new)
        lot most checkpoint D.tells D.held D.moment D.images disk.old disk.new I.tells I.left inbox.old inbox.new
        O.tells O.standing O.puts outbox.old outbox.new) }
    ensures refused { IfErr result (λ answer. HasNotRun flow.now answer C.given (C.time clock.old) (C.time clock.new)
        lot most checkpoint D.tells D.held D.moment D.images disk.old disk.new I.left inbox.old inbox.new
        O.standing O.puts outbox.old outbox.new) }
    ensures shut { IsTrue D.tells → IsShut (identity_of flow.now) lot (D.held disk.old)
        → (answer : TheAnswer) × (result ≡ Err answer)
        × (IsLeftShut (identity_of flow.now) answer D.held D.moment D.images lot
        disk.old disk.new inbox.old inbox.new outbox.old outbox.new
        ⊎ IsNotOpened answer D.moment D.images disk.old disk.new inbox.old inbox.new outbox.old outbox.new) }
    ensures why { AnswerHasCause flow.now (answer_of_run result) D.tells D.held D.moment D.images lot most
        disk.old disk.new inbox.old inbox.new outbox.old outbox.new }
    ensures faults { RunCountsFaults (answer_of_run result) (D.faults disk.old) (D.faults disk.new)
        (I.faults inbox.old) (I.faults inbox.new) (O.faults outbox.old) (O.faults outbox.new) }
{
    failed_openings_end_a_run::<D>();
    let store = match open(alloc, lot, disk, flow) {
        Ok(store) => store,
        Err(answer) => return Err(answer),
    };
    run_begins::<D>();
    what_is_kept_is_a_state();
    events_up_to_the_last_are_in_a_row();
    let _stored = store.state();
    Ok(run_flow(
        alloc, flow, store, most, checkpoint, disk, inbox, outbox, clock, gate,
    ))
}
