//! What is printed of an answer.
ghost use Rattle.std.specs.Prelude.{◌≡◌, ◌≤◌, IfErr, IfOk, IfSome, IsErr, IsTrue, MatchOption};
ghost use Rattle.disk_trait.specs.Faults.{CountsFaults};
ghost use Rattle.flow_report.specs.Texts.{text_of};
ghost use Rattle.flow_report.specs.Writing.{Writes};
ghost use Rattle.run_law.specs.Ending.{IsFault};
ghost use Rattle.run_top.specs.Opening.{IsOfStore};
ghost use Rattle.run_top.specs.Printing.{IsLine, AnswerIsPrinted, IsRefusingAnswer, closing_text, connection_at, end_line, limit_word, refusal_line, refused_line};
ghost use Rattle.run_top.specs.Run.{IsShownAs, IsToldAs};
ghost use Rattle.run_top.specs.Status.{status_of};

use crate::Answer;
use crate::answer::answer_of_end;
use disk_trait::Failed;
use engine_steps::Closed;
use flow_report::{Line, write_line, write_summary};
use flow_scheduler::Ran;
use machine_model::Flow;
use run_law::Ended;
use store_core::Which;
use world_io::Sink;

/// The number by which a store of another flow is told, among those of the rules that a text breaks.
pub const OTHER_FLOW_RULE: u8 = 13;

// Prints the line of an answer that isn't the end of a run whose store was closed, as far as the sink takes it.
fn tell<S: Sink>(sink: &mut S, answer: &Answer)
    ensures line { IsTrue S.tells → IsLine S.faults S.written (refusal_line answer.now) sink.old sink.new }
    ensures faults { S.faults sink.old ≤ S.faults sink.new }
{
    match answer {
        Answer::Usage => tell_line(sink, &Line::Usage),
        Answer::Refused { rule, place } => tell_rule(sink, rule.number(), place.as_str()),
        Answer::OtherFlow => tell_rule(sink, OTHER_FLOW_RULE, "/"),
        Answer::Damaged(damage) => tell_line(sink, &Line::Damaged(damage)),
        Answer::Disk => tell_line(sink, &Line::DiskFault),
        Answer::Inbox => tell_line(sink, &Line::InboxFault),
        Answer::Outbox => tell_line(sink, &Line::OutboxFault),
        Answer::Source => tell_line(sink, &Line::SourceFault),
        Answer::Memory => tell_line(sink, &Line::OutOfMemory),
        Answer::Done | Answer::Sink | Answer::Blocked(_) | Answer::Limit(_) | Answer::Absent => {}
    }
}

fn tell_rule<S: Sink>(sink: &mut S, rule: u8, place: &str)
    ensures line { IsTrue S.tells → IsLine S.faults S.written (refused_line rule place.now) sink.old sink.new }
    ensures faults { S.faults sink.old ≤ S.faults sink.new }
{
    tell_line(sink, &Line::Refused { rule, place });
}

/// Prints a line. What the sink doesn't take of it is lost.
pub(crate) fn tell_line<S: Sink>(sink: &mut S, line: &Line)
    ensures line { IsTrue S.tells → IsLine S.faults S.written (text_of line.now) sink.old sink.new }
    ensures faults { S.faults sink.old ≤ S.faults sink.new }
{
    let _ = write_line(sink, line);
}

/// Prints what a run came to, or why there was none, and gives the answer.
pub(crate) fn show<S: Sink>(sink: &mut S, flow: &Flow, run: Result<Ran, Answer>) -> Answer
    requires closed { IfOk run (λ ran. MatchOption ran.closed (IsFault ran.ended) (λ closed. IsFault ran.ended → ⊥)) }
    requires refused { IfErr run IsOfStore }
    ensures told { IsShownAs run result }
    ensures printed { IfOk run (λ ran. IfSome ran.closed (λ closed. IsTrue S.tells
        → AnswerIsPrinted result (closing_text flow.now ran.ended closed) (S.written sink.old) (S.written sink.new))) }
    ensures line { IsRefusingAnswer result → IsTrue S.tells
        → IsLine S.faults S.written (refusal_line result) sink.old sink.new }
    ensures faults { CountsFaults (S.faults sink.old) (S.faults sink.new) (result ≡ Answer.Sink) }
{
    match run {
        Ok(ran) => show_end(sink, flow, ran.ended, &ran.closed),
        Err(answer) => refuse(sink, answer),
    }
}

/// Prints why nothing is done, as far as the sink takes it, and gives the status.
pub fn tell_refusal<S: Sink>(sink: &mut S, answer: &Answer) -> u8
    ensures status { result ≡ status_of answer.now }
    ensures line { IsTrue S.tells → IsLine S.faults S.written (refusal_line answer.now) sink.old sink.new }
    ensures faults { S.faults sink.old ≤ S.faults sink.new }
{
    tell(sink, answer);
    answer.status()
}

/// Prints the line of an answer, and gives it.
pub(crate) fn refuse<S: Sink>(sink: &mut S, answer: Answer) -> Answer
    ensures same { result ≡ answer }
    ensures line { IsTrue S.tells → IsLine S.faults S.written (refusal_line answer) sink.old sink.new }
    ensures faults { S.faults sink.old ≤ S.faults sink.new }
{
    tell(sink, &answer);
    answer
}

// Prints how a run ended.
fn show_end<S: Sink>(sink: &mut S, flow: &Flow, ended: Ended, closed: &Option<Closed>) -> Answer
    requires closed { MatchOption closed.now (IsFault ended) (λ closed. IsFault ended → ⊥) }
    ensures told { IsToldAs ended result }
    ensures printed { IfSome closed.now (λ closed. IsTrue S.tells
        → AnswerIsPrinted result (closing_text flow.now ended closed) (S.written sink.old) (S.written sink.new)) }
    ensures line { IsRefusingAnswer result → IsTrue S.tells
        → IsLine S.faults S.written (refusal_line result) sink.old sink.new }
    ensures faults { CountsFaults (S.faults sink.old) (S.faults sink.new) (result ≡ Answer.Sink) }
{
    let answer = answer_of_end(ended);
    match closed {
        Some(closed) => match write_closed(sink, flow, ended, closed) {
            Ok(()) => answer,
            Err(_) => Answer::Sink,
        },
        None => refuse(sink, answer),
    }
}

// Prints the summary of a run whose store was closed, and what held it back or ended it.
fn write_closed<S: Sink>(
    sink: &mut S,
    flow: &Flow,
    ended: Ended,
    closed: &Closed,
) -> Result<(), Failed>
    ensures written { IsTrue S.tells → Writes (closing_text flow.now ended closed.now) (S.written sink.old)
        (S.written sink.new) result }
    ensures cause { CountsFaults (S.faults sink.old) (S.faults sink.new) (IsErr result) }
{
    match write_summary(sink, flow, &closed.state, closed.left, &closed.events) {
        Ok(()) => write_end(sink, flow, ended),
        Err(failed) => Err(failed),
    }
}

// Prints what held a run back or ended it.
fn write_end<S: Sink>(sink: &mut S, flow: &Flow, ended: Ended) -> Result<(), Failed>
    ensures written { IsTrue S.tells
        → Writes (end_line flow.now ended) (S.written sink.old) (S.written sink.new) result }
    ensures cause { CountsFaults (S.faults sink.old) (S.faults sink.new) (IsErr result) }
{
    match ended {
        Ended::Blocked(place) => write_line(sink, &Line::Blocked(connection_at(flow, place))),
        Ended::Limit(limit) => write_line(
            sink,
            &Line::Limit {
                name: limit_word(limit.which),
                number: limit.number,
            },
        ),
        Ended::Quiet | Ended::Fault(_) => Ok(()),
    }
}

// The id of the connection at a place.
fn connection_at(flow: &Flow, place: u16) -> &str
    ensures { result.now ≡ connection_at flow.now place }
{
    match flow.connections.as_slice().get(usize::from(place)) {
        Some(connection) => connection.id.as_str(),
        None => "",
    }
}

fn limit_word(which: Which) -> &'static str
    ensures { result.now ≡ limit_word which }
{
    match which {
        Which::Journal => "journal",
        Which::Files => "files",
        Which::FileBytes => "file-bytes",
        Which::Claims => "claims",
        Which::Numbers => "numbers",
    }
}
