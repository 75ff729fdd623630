//! A case is run.
ghost use Rattle.std.specs.Prelude.{IfOk, IfSome};
ghost use Rattle.flowfile_record.specs.Encoding.{IsDigest};
ghost use Rattle.machine_model.specs.Sound.{IsSound};
ghost use Rattle.engine_steps.specs.Leaving.{MayGoOn};

use crate::case::Case;
use crate::gate::MeetingGate;
use anyhow::{Result, bail};
use disk_trait::{Disk, MemoryDisk, Pick};
use engine_change::connection_ids;
use engine_steps::Engine;
use flow_workers::{Cause, Worked, run_workers};
use machine_model::Flow;
use std::alloc::Global;
use std::sync::Wait;
use std::thread::Threads;
use store_core::{FlowIdentity, Store};
use trial_flow::trial_flow;
use world_io::{Clock, Inbox, MemoryClock, MemoryInbox, MemoryOutbox, Outbox};

// With how many entries a log is followed by a new one.
const CHECKPOINT: u64 = 16;

// How many files a case may have.
const FILES_MAX: u32 = 10_000;

// How many entries the journal of a run may have that goes on behind a stop.
const MANY: u32 = 100_000;

/// How a run of the case ended; and where a call of its disk failed, how the next one did, behind a stop that left
/// nothing of what wasn't synced.
pub fn told<T: Threads + Wait + Sync>(rt: &T, alloc: Global, case: Case) -> Result<String> {
    if case.files > FILES_MAX {
        bail!("a case has at most {FILES_MAX} files");
    }
    let Ok(flow) = trial_flow(alloc, case.files) else {
        bail!("out of memory");
    };
    let mut failing = Vec::new(alloc);
    if case.failing > 0 {
        failing.push(case.failing)?;
    }
    let mut disk = MemoryDisk::new(failing);
    let mut inbox = MemoryInbox::new(Vec::new(alloc), Vec::new(alloc));
    let mut outbox = MemoryOutbox::new(Vec::new(alloc), Vec::new(alloc));
    let mut clock = MemoryClock::new(0, 0);
    let mut told = told_of(
        rt,
        alloc,
        &flow,
        &mut disk,
        &mut inbox,
        &mut outbox,
        &mut clock,
        case,
    )?;
    if case.failing > 0 {
        let mut left = disk.stopped(disk.moment(), Pick::Old)?;
        let again = Case { most: MANY, ..case };
        let next = told_of(
            rt,
            alloc,
            &flow,
            &mut left,
            &mut inbox,
            &mut outbox,
            &mut clock,
            again,
        )?;
        told.push_str("; then ")?;
        told.push_str(next.as_str())?;
    }
    let put = outbox.count();
    Ok(format!(in alloc; "{told}; {put} put")?)
}

// How one run of it ended.
fn told_of<T: Threads + Wait + Sync, D: Disk, I: Inbox, O: Outbox, C: Clock>(
    rt: &T,
    alloc: Global,
    flow: &Flow,
    disk: &mut D,
    inbox: &mut I,
    outbox: &mut O,
    clock: &mut C,
    case: Case,
) -> Result<String>
    requires sound { IsSound flow.now }
    requires digest { IsDigest flow.now.digest }
{
    let Some(engine) = engine_over(alloc, flow, disk, inbox, case.most)? else {
        return Ok(String::from_str(alloc, "not opened")?);
    };
    let gate = MeetingGate::new(case.workers);
    let workers = case.workers as usize;
    let worked = run_workers(
        rt, alloc, engine, disk, inbox, outbox, clock, &gate, workers,
    );
    let Worked { engine, cause } = worked;
    let mut told = text_of(alloc, cause)?;
    // Which session meets a call that fails hangs on the order of the workers.
    if case.failing == 0 {
        let in_flight = engine.in_flight();
        let met = if gate.met() {
            "side by side"
        } else {
            "one by one"
        };
        write!(told, ", {in_flight} in flight, {met}")?;
    }
    Ok(told)
}

// How workers stopped.
fn text_of(alloc: Global, cause: Cause) -> Result<String> {
    let told = match cause {
        Cause::Quiet => format!(in alloc; "quiet")?,
        Cause::Blocked(connection) => format!(in alloc; "blocked by {connection}")?,
        Cause::Stopped(error) => format!(in alloc; "stopped: {error}")?,
    };
    Ok(told)
}

// An engine of the flow over its store, if that can be opened.
fn engine_over<'f, D: Disk, I: Inbox>(
    alloc: Global,
    flow: &'f Flow,
    disk: &mut D,
    inbox: &mut I,
    most: u32,
) -> Result<Option<Engine<'f>>>
    requires sound { IsSound flow.now }
    requires digest { IsDigest flow.now.digest }
    ensures may { IfOk result (λ opened. IfSome opened (λ engine. MayGoOn D.tells D.held D.moment D.images I.tells
        (I.left inbox.new) engine disk.new)) }
{
    let ids = connection_ids(alloc, flow)?;
    let identity = FlowIdentity {
        digest: flow.digest,
        connections: &ids,
        processors: flow.processors.len() as u16,
    };
    let Ok(store) = Store::load(alloc, disk, &identity, 0) else {
        return Ok(None);
    };
    let most = u64::from(most);
    match Engine::new(alloc, flow, store, most, CHECKPOINT, inbox) {
        Ok(engine) => Ok(Some(engine)),
        Err(_) => Ok(None),
    }
}
