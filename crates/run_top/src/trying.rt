//! A trial: a flow that is always the same runs over devices in memory.
ghost use Rattle.std.specs.Prelude.{◌≡◌, ◌≤◌, IfErr, IfOk, MatchOption};
ghost use Rattle.flowfile_record.specs.Encoding.{IsDigest};
ghost use Rattle.machine_model.specs.Sound.{IsSound};
ghost use Rattle.run_law.specs.Ending.{IsFault};
ghost use Rattle.run_top.specs.Status.{status_of};
ghost use Rattle.run_top.specs.Trial.{IsTried, RanInMemory, unless_fault, with_memory};
ghost use Rattle.run_top.specs.declared.answer.Answer.{Answer as TheAnswer};

use crate::Answer;
use crate::command::run_over;
use crate::printing::{refuse, show};
use disk_trait::MemoryDisk;
use flow_scheduler::Ran;
use flow_words::{DEFAULT_CHECKPOINT, DEFAULT_COMMITS, TRIAL_MAX};
use machine_model::Flow;
use run_law::Ended;
use std::alloc::Global;
use trial_flow::trial_flow;
use world_io::{Gate, MemoryClock, MemoryInbox, MemoryOutbox, Sink};

/// Tries a flow out, and answers its status. The flow makes so many files, and routes, splits, joins and puts them.
///
/// It runs as `run` does, with the defaults of its options, but for the text of a flow: over a new disk, an empty inbox
/// and an empty outbox in memory, by a clock in memory that starts at 0 and that only waiting moves. Nothing else is
/// read or written but the sink, which has the summary at the end. Each session's processor works inside the gate. The
/// low 60 bits of the lot are the store's id. A device in memory fails where it can't grow, so whatever fails but the
/// sink is answered as want of memory.
pub fn trial<S: Sink, G: Gate>(alloc: Global, count: u64, lot: u64, sink: &mut S, gate: &G) -> u8
    requires { count ≤ TRIAL_MAX }
    ensures { (answer : TheAnswer) × (result ≡ status_of answer)
        × IsTried answer count lot S.tells S.written S.faults sink.old sink.new }
{
    try_out(alloc, count, lot, sink, gate).status()
}

// What a trial comes to.
fn try_out<S: Sink, G: Gate>(alloc: Global, count: u64, lot: u64, sink: &mut S, gate: &G) -> Answer
    requires { count ≤ TRIAL_MAX }
    ensures { IsTried result count lot S.tells S.written S.faults sink.old sink.new }
{
    match trial_flow(alloc, count as u32) {
        Ok(flow) => {
            let run = run_in_memory(alloc, &flow, lot, gate);
            show(sink, &flow, run)
        }
        Err(_) => refuse(sink, Answer::Memory),
    }
}

// Runs a flow over devices in memory.
fn run_in_memory<G: Gate>(alloc: Global, flow: &Flow, lot: u64, gate: &G) -> Result<Ran, Answer>
    requires sound { IsSound flow.now }
    requires digest { IsDigest flow.now.digest }
    ensures ran { IfOk result (RanInMemory flow.now lot) }
    ensures closed { IfOk result (λ ran. MatchOption ran.closed (IsFault ran.ended)
        (λ closed. IsFault ran.ended → ⊥)) }
    ensures no_fault { IfOk result (λ ran. IsFault ran.ended → ⊥) }
    ensures memory { IfErr result (λ answer. answer ≡ Answer.Memory) }
{
    let mut disk = MemoryDisk::new(Vec::new(alloc));
    let offered = Vec::new(alloc);
    let mut inbox = MemoryInbox::new(offered, Vec::new(alloc));
    let standing = Vec::new(alloc);
    let mut outbox = MemoryOutbox::new(standing, Vec::new(alloc));
    let mut clock = MemoryClock::new(0, 0);
    let run = run_over(
        alloc,
        flow,
        lot,
        DEFAULT_COMMITS,
        DEFAULT_CHECKPOINT,
        &mut disk,
        &mut inbox,
        &mut outbox,
        &mut clock,
        gate,
    );
    with_memory(run)
}

// What a run over devices in memory came to. No call of theirs is listed to fail, so one that failed couldn't grow:
// memory was wanting. That no damage comes of such a disk isn't proved; it would be answered so too.
fn with_memory(run: Result<Ran, Answer>) -> Result<Ran, Answer>
    ensures { result ≡ with_memory run }
{
    match run {
        Ok(ran) => unless_fault(ran),
        Err(_) => Err(Answer::Memory),
    }
}

fn unless_fault(ran: Ran) -> Result<Ran, Answer>
    ensures { result ≡ unless_fault ran.ended ran }
{
    match ran.ended {
        Ended::Fault(_) => Err(Answer::Memory),
        Ended::Quiet | Ended::Blocked(_) | Ended::Limit(_) => Ok(ran),
    }
}
