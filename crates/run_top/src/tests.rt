//! A run over devices in memory, stopped at every moment and begun anew, or ended by the limit of its journal; a
//! session that is committed after other files expired; and two sessions in flight side by side.
ghost use Rattle.std.specs.Prelude.{◌≡◌, ◌-◌, ◌^◌, ◌<◌, List, IfOk, OnOk};
ghost use Rattle.flowfile_record.specs.NamedFile.{NamedFile};
ghost use Rattle.flowfile_record.specs.Encoding.{IsDigest};
ghost use Rattle.engine_session.specs.Done.{WorkIsDone};
ghost use Rattle.engine_steps.specs.Leaving.{MayGoOn};
ghost use Rattle.engine_steps.specs.Ready.{IsUsableWith};
ghost use Rattle.store_core.specs.Store.{kept_by};
ghost use Rattle.machine_model.specs.Sound.{IsSound};

use super::*;
use crate::command::run_over;
use crate::opening::open;
use crate::text::read;
use disk_trait::{Disk, MemoryDisk, Pick};
use engine_session::{Done, work};
use engine_steps::{Checkout, Committed, Engine, EngineError, Tended};
use flow_definition::Builder;
use flow_words::{DEFAULT_CHECKPOINT, DEFAULT_COMMITS};
use flowfile_record::{Event, EventKind};
use machine_model::Flow;
use prov_store::Events;
use run_law::Ended;
use sha2::{Digest, Sha256};
use std::alloc::Global;
use std::sync::atomic::{AtomicU64, Ordering};
use std::test::Fail;
use store_core::{Limit, Which};
use world_io::{
    FreeGate, Gate, Inbox, MemoryClock, MemoryInbox, MemoryOutbox, MemorySink, MemorySource, Name,
    Outbox,
};

// What comes into the inbox goes out by the outbox.
const FLOW: &str = r#"{
  "processors": [
    { "id": "get", "type": "GetFile" },
    {
      "id": "put",
      "type": "PutFile",
      "properties": { "Conflict Resolution Strategy": "replace" },
      "terminated": ["success", "failure"]
    }
  ],
  "connections": [
    { "id": "arrived", "from": "get", "to": "put", "relationships": ["success"] }
  ]
}"#;

// What its run prints, behind which one file came and went.
const PRINTED: &str =
    "connection arrived 0 0\ninbox 0\nevent RECEIVE 1\nevent SEND 1\nevent DROP 1\n";

// What a stop leaves of what wasn't synced.
const PICKS: [Pick; 4] = [Pick::Old, Pick::New, Pick::Torn(1), Pick::Torn(0x5a5a)];

// Where the file `a.txt` stands when a run begins.
#[derive(Clone, Copy)]
enum World {
    InTheInbox,
    InTheStore,
    InTheOutbox,
}

// The moment at which the file's session is acknowledged: 10 calls make the store, one writes the content, one the
// event, and 4 add the session to the log.
const ACKNOWLEDGED: u64 = 16;

// Whether a run that is stopped at the moment may leave the world so.
fn may_stand(world: World, moment: u64) -> bool {
    match world {
        World::InTheInbox => moment <= ACKNOWLEDGED,
        World::InTheStore => moment == ACKNOWLEDGED,
        World::InTheOutbox => moment >= ACKNOWLEDGED,
    }
}

// Whether the file may be told to have come and gone so often, behind a run that goes on from such a stop. Where it is
// in the store and still in the inbox, it comes twice; in the call before, its entry may be in the log or not.
fn may_be_told(world: World, moment: u64, times: u64) -> bool {
    match world {
        World::InTheInbox => {
            (times == 1 && moment < ACKNOWLEDGED) || (times == 2 && moment >= ACKNOWLEDGED - 1)
        }
        _ => times == 1,
    }
}

// Runs the flow over the disk in this world. What it printed, where it was done, with the file in the outbox and
// nothing left in the inbox.
fn delivers(alloc: Global, disk: &mut MemoryDisk, world: World) -> Result<Option<Vec<u8>>, Fail> {
    let name = Name::read(alloc, "a.txt")?;
    let mut files = Vec::new(alloc);
    if let World::InTheInbox = world {
        files.push((name.clone()?, b"hi".to_vec(alloc)?))?;
    }
    let mut inbox = MemoryInbox::new(files, Vec::new(alloc));
    let mut outbox = MemoryOutbox::new(Vec::new(alloc), Vec::new(alloc));
    if let World::InTheOutbox = world {
        outbox.put(&name, b"hi")?;
    }
    let words = vec![in alloc; String::from_str(alloc, "run")?]?;
    let mut flow = MemorySource::new(FLOW.as_bytes().to_vec(alloc)?, Vec::new(alloc));
    let mut patterns = Builder::new(Vec::new(alloc));
    let mut sink = MemorySink::new(Vec::new(alloc));
    let mut clock = MemoryClock::new(1000, 0);
    let status = run(
        &(),
        alloc,
        words.as_slice(),
        0,
        disk,
        &mut inbox,
        &mut outbox,
        &mut flow,
        &mut patterns,
        &mut sink,
        &mut clock,
        &FreeGate,
    );
    let stands = outbox.count() == 1 && outbox.standing(&name) == Some(b"hi".as_slice());
    if status == DONE && stands && inbox.files_left().is_empty() {
        return Ok(Some(sink.written().to_vec(alloc)?));
    }
    Ok(None)
}

// What a run prints that leaves nothing behind, where the file came and went so often.
fn summary_of(alloc: Global, times: u64) -> Result<String, Fail> {
    Ok(format!(in alloc;
        "connection arrived 0 0\ninbox 0\nevent RECEIVE {times}\nevent SEND {times}\nevent DROP {times}\n"
    )?)
}

// The events of the disk, as many as there are from 3 to 7.
fn events_on(alloc: Global, disk: &mut MemoryDisk) -> Result<Events, Fail> {
    for end in [7, 6, 5, 4] {
        if let Ok(events) = Events::load(alloc, disk, end, 0) {
            return Ok(events);
        }
    }
    Ok(Events::load(alloc, disk, 3, 0)?)
}

// How often the disk's events tell that the file came, was sent and left the flow, where they tell nothing else.
fn times_told(alloc: Global, disk: &mut MemoryDisk) -> Result<u64, Fail> {
    let counts = events_on(alloc, disk)?.counts().counts;
    let [_, times, ..] = counts;
    if counts != [0, times, 0, 0, 0, 0, 0, 0, times, times, 0, 0] {
        return Err("an event that nothing caused, or none where there was a cause")?;
    }
    Ok(times)
}

// Whether an event of the file's first round is of this kind, with this component and detail.
fn tells(event: &Event, kind: EventKind, component: &str, detail: &str) -> bool {
    event.kind == kind
        && event.component.as_str() == component
        && event.detail.as_str() == detail
        && event.file == 1
        && event.size == 2
        && event.digest == Sha256::digest(b"hi")
}

// Stops the disk at each moment, and runs again in each world that may stand so. How many runs there were.
fn runs_again(alloc: Global, disk: &MemoryDisk, pick: Pick) -> Result<u32, Fail> {
    let mut runs = 0u32;
    for moment in 0..=disk.moment() {
        for world in [World::InTheInbox, World::InTheStore, World::InTheOutbox] {
            if may_stand(world, moment) {
                let mut left = disk.stopped(moment, pick)?;
                let Some(printed) = delivers(alloc, &mut left, world)? else {
                    return Err("a stop that a run doesn't mend")?;
                };
                let times = times_told(alloc, &mut left)?;
                if !may_be_told(world, moment, times) {
                    return Err("events that aren't those of the two runs")?;
                }
                if printed.as_slice() != summary_of(alloc, times)?.as_bytes() {
                    return Err("a summary of another state")?;
                }
                runs = runs.saturating_add(1);
            }
        }
    }
    Ok(runs)
}

// A flow that makes some files, which go through one after the other, by two entries each. In front of and behind how
// many it makes:
const BEAT: [&str; 2] = [
    r#"{"processors": [
        {"id": "beat", "type": "GenerateFlowFile", "properties": {"Custom Text": "x", "Count": ""#,
    r#""}},
        {"id": "put", "type": "PutFile", "terminated": ["success", "failure"]}
    ], "connections": [{"id": "made", "from": "beat", "to": "put", "relationships": ["success"]}]}"#,
];

// A run that makes a checkpoint wherever its log has so many entries: how many files its flow makes, two checkpoints in
// a row, each by the moment in front of it and how many files went through by then, and the last log.
#[derive(Clone, Copy)]
struct LoggedRun {
    entries: u64,
    files: u64,
    checkpoints: [(u64, u64); 2],
    last_log: u64,
}

// 10 calls make the store, 2 open it anew, and the two sessions of a file make 11.
const LOGGED_RUNS: [LoggedRun; 2] = [
    LoggedRun {
        entries: 2,
        files: 4,
        checkpoints: [(44, 2), (65, 3)],
        last_log: 5,
    },
    LoggedRun {
        entries: 20,
        files: 20,
        checkpoints: [(122, 10), (242, 20)],
        last_log: 3,
    },
];

// The calls of a checkpoint: two write the snapshot, six begin the log, and two cut those of before.
const CHECKPOINT_CALLS: u64 = 10;

// The flow that makes so many files.
fn beat(alloc: Global, files: u64) -> Result<Flow, Fail>
    ensures sound { IfOk result IsSound }
    ensures digest { IfOk result (λ flow. IsDigest flow.digest) }
{
    let [head, tail] = BEAT;
    let text = format!(in alloc; "{head}{files}{tail}")?;
    flow_of(alloc, text.into_bytes())
}

// The flow of a text.
fn flow_of(alloc: Global, text: Vec<u8>) -> Result<Flow, Fail>
    ensures sound { IfOk result IsSound }
    ensures digest { IfOk result (λ flow. IsDigest flow.digest) }
{
    let mut source = MemorySource::new(text, Vec::new(alloc));
    let mut patterns = Builder::new(Vec::new(alloc));
    let Ok(flow) = read(alloc, &mut source, &mut patterns) else {
        return Err("a text that is no flow")?;
    };
    Ok(flow)
}

// Opens the store, where so many files were made and so many of them went out: the others wait, and each event is told
// once. The number of its log, and how many entries that has.
fn log_behind(
    alloc: Global,
    disk: &mut MemoryDisk,
    flow: &Flow,
    made: u64,
    gone: u64,
) -> Result<(u64, u64), Fail>
    requires sound { IsSound flow.now }
    requires digest { IsDigest flow.now.digest }
{
    let Ok(store) = open(alloc, 0, disk, flow) else {
        return Err("a store that can't be opened")?;
    };
    let kept = store.state();
    let waiting = made.saturating_sub(gone);
    let counts = [made, 0];
    if kept.files.len() != waiting || kept.counts.as_slice() != counts.as_slice() {
        return Err("a store of another state")?;
    }
    if store.event_counts().counts != [made, 0, 0, 0, 0, 0, 0, 0, gone, gone, 0, 0] {
        return Err("events that aren't those of the files")?;
    }
    Ok((store.log_number(), store.log_entries()))
}

// Runs the flow over the store, until the journal has `most` entries at the latest: how that ended, and how many files
// were delivered.
fn goes_on<G: Gate>(
    alloc: Global,
    disk: &mut MemoryDisk,
    flow: &Flow,
    most: u64,
    checkpoint: u64,
    gate: &G,
) -> Result<(Ended, u64), Fail>
    requires sound { IsSound flow.now }
    requires digest { IsDigest flow.now.digest }
    requires most { most < 2 ^ 64 - 1 }
{
    let mut inbox = MemoryInbox::new(Vec::new(alloc), Vec::new(alloc));
    let mut outbox = MemoryOutbox::new(Vec::new(alloc), Vec::new(alloc));
    let mut clock = MemoryClock::new(1000, 0);
    let ran = run_over(
        alloc,
        flow,
        0,
        most,
        checkpoint,
        disk,
        &mut inbox,
        &mut outbox,
        &mut clock,
        gate,
    );
    match ran {
        Ok(ran) => Ok((ran.ended, outbox.count() as u64)),
        Err(_) => Err("a store that can't be opened")?,
    }
}

// Opens the store of a run, which so many files went through, and has the flow run on to its end. The last log has no
// entries then.
fn runs_on(alloc: Global, disk: &mut MemoryDisk, run: LoggedRun, gone: u64) -> Result<(), Fail> {
    let flow = beat(alloc, run.files)?;
    log_behind(alloc, disk, &flow, gone, gone)?;
    let left = run.files.saturating_sub(gone);
    let ended = goes_on(alloc, disk, &flow, DEFAULT_COMMITS, run.entries, &FreeGate)?;
    if ended != (Ended::Quiet, left) {
        return Err("a run that doesn't deliver the rest")?;
    }
    if log_behind(alloc, disk, &flow, run.files, run.files)? != (run.last_log, 0) {
        return Err("a run with another last log")?;
    }
    Ok(())
}

// Runs the flow of four files until the journal has five entries: three files were made, of which two went out. The
// next run delivers the others.
fn ends_at_its_limit(alloc: Global) -> Result<(), Fail> {
    let flow = beat(alloc, 4)?;
    let mut disk = MemoryDisk::new(Vec::new(alloc));
    let limit = Limit {
        which: Which::Journal,
        number: 5,
        wanted: 6,
    };
    let ended = goes_on(alloc, &mut disk, &flow, 5, DEFAULT_CHECKPOINT, &FreeGate)?;
    if ended != (Ended::Limit(limit), 2) {
        return Err("a run that isn't ended by the limit of its journal")?;
    }
    log_behind(alloc, &mut disk, &flow, 3, 2)?;
    let ended = goes_on(
        alloc,
        &mut disk,
        &flow,
        DEFAULT_COMMITS,
        DEFAULT_CHECKPOINT,
        &FreeGate,
    )?;
    if ended != (Ended::Quiet, 2) {
        return Err("a run that doesn't deliver what a limit left")?;
    }
    log_behind(alloc, &mut disk, &flow, 4, 4)?;
    Ok(())
}

// A gate that counts the sessions that come to it one after another, in the order of their numbers, and those that go.
#[derive(Drop)]
struct CountingGate {
    came: AtomicU64,
    went: AtomicU64,
}

impl CountingGate {
    fn new() -> CountingGate {
        CountingGate {
            came: AtomicU64::new(0),
            went: AtomicU64::new(0),
        }
    }

    // How many came, and how many went.
    fn counts(&self) -> (u64, u64) {
        (
            self.came.load(Ordering::SeqCst),
            self.went.load(Ordering::SeqCst),
        )
    }
}

impl Gate for CountingGate {
    // Who comes while another session is inside isn't counted.
    fn enter(&self, session: u64) {
        if self.counts() == (session, session) {
            self.came.fetch_add(1, Ordering::SeqCst);
        }
    }

    fn leave(&self, session: u64) {
        if self.counts() == (session.saturating_add(1), session) {
            self.went.fetch_add(1, Ordering::SeqCst);
        }
    }
}

// Runs the flow of four files.
fn delivers_four(alloc: Global, gate: &CountingGate) -> Result<(), Fail> {
    let flow = beat(alloc, 4)?;
    let mut disk = MemoryDisk::new(Vec::new(alloc));
    let ended = goes_on(
        alloc,
        &mut disk,
        &flow,
        DEFAULT_COMMITS,
        DEFAULT_CHECKPOINT,
        gate,
    )?;
    if ended != (Ended::Quiet, 4) {
        return Err("a run that doesn't deliver its files")?;
    }
    Ok(())
}

// Tries twenty files out.
fn tries_twenty(alloc: Global, gate: &CountingGate) -> Result<(), Fail> {
    let mut sink = MemorySink::new(Vec::new(alloc));
    if trial(alloc, 20, 0, &mut sink, gate) != DONE {
        return Err("a trial that doesn't come to its end")?;
    }
    Ok(())
}

// The sessions of a run, and those of a trial, pass the gate one after another: eight, and 64.
fn passes_the_gate(alloc: Global) -> Result<(), Fail> {
    let run = CountingGate::new();
    delivers_four(alloc, &run)?;
    let tried = CountingGate::new();
    tries_twenty(alloc, &tried)?;
    if (run.counts(), tried.counts()) != ((8, 8), (64, 64)) {
        return Err("a session that doesn't pass the gate")?;
    }
    Ok(())
}

// Stops a run at each moment from in front of a checkpoint to behind it, and runs on.
fn stops_within(
    alloc: Global,
    disk: &MemoryDisk,
    pick: Pick,
    run: LoggedRun,
    checkpoint: (u64, u64),
) -> Result<(), Fail> {
    let (first, gone) = checkpoint;
    let last = first.saturating_add(CHECKPOINT_CALLS);
    if last > disk.moment() {
        return Err("a run without the checkpoint")?;
    }
    for moment in first..=last {
        let mut left = disk.stopped(moment, pick)?;
        runs_on(alloc, &mut left, run, gone)?;
    }
    Ok(())
}

// Makes a run, and stops it within each of its checkpoints, with each of these picks.
fn goes_by_logs(alloc: Global, run: LoggedRun, picks: &[Pick]) -> Result<(), Fail> {
    let mut disk = MemoryDisk::new(Vec::new(alloc));
    runs_on(alloc, &mut disk, run, 0)?;
    for pick in picks {
        for checkpoint in run.checkpoints {
            stops_within(alloc, &disk, *pick, run, checkpoint)?;
        }
    }
    Ok(())
}

// A flow that makes a file, which waits for a second at most, and that receives files.
const AGING: &str = r#"{"processors": [
    {"id": "beat", "type": "GenerateFlowFile", "properties": {"Custom Text": "x", "Count": "1"}},
    {"id": "get", "type": "GetFile"},
    {"id": "put", "type": "PutFile", "terminated": ["success", "failure"]}
], "connections": [
    {"id": "made", "from": "beat", "to": "put", "relationships": ["success"], "expiration": 1000},
    {"id": "arrived", "from": "get", "to": "put", "relationships": ["success"]}
]}"#;

// Works on the session that comes next, lets a file expire that has waited for too long by then, and commits the work.
fn commits_behind_an_expiry<D: Disk, I: Inbox, O: Outbox>(
    alloc: Global,
    engine: &mut Engine<'_>,
    disk: &mut D,
    inbox: &mut I,
    outbox: &mut O,
) -> Result<(), Fail>
    requires may { MayGoOn D.tells D.held D.moment D.images I.tells (I.left inbox.old) engine.old disk.old }
{
    let Ok(Checkout::Session(session)) = engine.checkout(alloc, 1000) else {
        return Err("no session comes")?;
    };
    let Ok(job) = engine.read(alloc, disk, inbox, outbox, session) else {
        return Err("a job that can't be read")?;
    };
    let done = work(alloc, engine.flow(), engine.store_id(), job, &FreeGate)?;
    let Ok(Tended::Expired) = engine.tend(alloc, disk, 3000) else {
        return Err("no file expires")?;
    };
    let Ok(Committed::Acked { .. }) = engine.commit(alloc, disk, inbox, outbox, done) else {
        return Err("a session that no expiry has to do with isn't acknowledged")?;
    };
    Ok(())
}

// The same over an outbox without a file.
fn commits_to_an_empty_outbox<D: Disk, I: Inbox>(
    alloc: Global,
    engine: &mut Engine<'_>,
    disk: &mut D,
    inbox: &mut I,
) -> Result<(), Fail>
    requires { MayGoOn D.tells D.held D.moment D.images I.tells (I.left inbox.old) engine.old disk.old }
{
    let mut outbox = MemoryOutbox::new(Vec::new(alloc), Vec::new(alloc));
    commits_behind_an_expiry(alloc, engine, disk, inbox, &mut outbox)
}

// An engine of a flow over its store, which is opened.
fn engine_over<'f, D: Disk, I: Inbox>(
    alloc: Global,
    flow: &'f Flow,
    disk: &mut D,
    inbox: &mut I,
) -> Result<Engine<'f>, Fail>
    requires sound { IsSound flow.now }
    requires digest { IsDigest flow.now.digest }
    ensures may { IfOk result (λ engine. MayGoOn D.tells D.held D.moment D.images I.tells (I.left inbox.new)
        engine disk.new) }
{
    let Ok(store) = open(alloc, 0, disk, flow) else {
        return Err("a store that can't be opened")?;
    };
    let Ok(engine) = Engine::new(alloc, flow, store, 9, DEFAULT_CHECKPOINT, inbox) else {
        return Err("an inbox that can't be listed")?;
    };
    Ok(engine)
}

// A file was made, and another one is received while the first expires.
fn receives_behind_an_expiry(alloc: Global) -> Result<(), Fail> {
    let flow = flow_of(alloc, AGING.as_bytes().to_vec(alloc)?)?;
    let mut disk = MemoryDisk::new(Vec::new(alloc));
    goes_on(alloc, &mut disk, &flow, 1, DEFAULT_CHECKPOINT, &FreeGate)?;
    let files = vec![in alloc; (Name::read(alloc, "a.txt")?, b"hi".to_vec(alloc)?)]?;
    let mut inbox = MemoryInbox::new(files, Vec::new(alloc));
    let mut engine = engine_over(alloc, &flow, &mut disk, &mut inbox)?;
    commits_to_an_empty_outbox(alloc, &mut engine, &mut disk, &mut inbox)
}

// A flow that makes two files, and may work on both at a time.
const TWICE: &str = r#"{"processors": [
    {"id": "beat", "type": "GenerateFlowFile", "properties": {"Custom Text": "x", "Count": "2"},
        "tasks": 2, "terminated": ["success"]}
], "connections": []}"#;

// Checks out the session that comes next, which receives no file, and works on it.
fn works<D: Disk, I: Inbox, O: Outbox>(
    alloc: Global,
    engine: &mut Engine<'_>,
    disk: &mut D,
    inbox: &mut I,
    outbox: &mut O,
    moment: u64,
) -> Result<Done, Fail>
    requires usable { IsUsableWith D.tells D.held D.moment D.images I.tells (I.left inbox.old) engine.old disk.old }
    ensures usable { OnOk result (IsUsableWith D.tells D.held D.moment D.images I.tells (I.left inbox.new)
        engine.new disk.new) }
    ensures same { OnOk result ((engine.new.flow ≡ engine.old.flow)
        × ((kept_by engine.new.store).store ≡ (kept_by engine.old.store).store)) }
    // Whatever is left of the inbox, which it has nothing to do with.
    ensures done { IfOk result (λ done. (left : List NamedFile)
        → WorkIsDone engine.new.flow (kept_by engine.new.store).store I.tells left done) }
{
    let Ok(Checkout::Session(session)) = engine.checkout(alloc, moment) else {
        return Err("no session comes")?;
    };
    let Ok(job) = engine.read(alloc, disk, inbox, outbox, session) else {
        return Err("a job that can't be read")?;
    };
    let done = work(alloc, engine.flow(), engine.store_id(), job, &FreeGate)?;
    if done.given.file.is_some() {
        return Err("a session that receives a file")?;
    }
    Ok(done)
}

// Works on two sessions of a generator side by side. Only the first makes its file: the other one has the same index.
fn commits_one_of_two<D: Disk, I: Inbox, O: Outbox>(
    alloc: Global,
    engine: &mut Engine<'_>,
    disk: &mut D,
    inbox: &mut I,
    outbox: &mut O,
) -> Result<(), Fail>
    requires { IsUsableWith D.tells D.held D.moment D.images I.tells (I.left inbox.old) engine.old disk.old }
{
    let one = works(alloc, engine, disk, inbox, outbox, 1000)?;
    let other = works(alloc, engine, disk, inbox, outbox, 1000)?;
    if one.given.index != 1 || other.given.index != 1 {
        return Err("a session with another index than the first")?;
    }
    let Ok(Committed::Acked { .. }) = engine.commit(alloc, disk, inbox, outbox, one) else {
        return Err("the first session isn't acknowledged")?;
    };
    let Ok(Committed::Changed) = engine.commit(alloc, disk, inbox, outbox, other) else {
        return Err("a session whose index has gone stands")?;
    };
    if engine.journal().len() != 1 {
        return Err("another journal than of one entry")?;
    }
    let next = works(alloc, engine, disk, inbox, outbox, 1000)?;
    if next.given.index != 2 {
        return Err("another index than the next one")?;
    }
    Ok(())
}

// Ends a session that was worked on: it can neither be committed nor read any more.
fn ends_before_its_commit<D: Disk, I: Inbox, O: Outbox>(
    alloc: Global,
    engine: &mut Engine<'_>,
    disk: &mut D,
    inbox: &mut I,
    outbox: &mut O,
) -> Result<(), Fail>
    requires usable { IsUsableWith D.tells D.held D.moment D.images I.tells (I.left inbox.old) engine.old disk.old }
    ensures usable { OnOk result (IsUsableWith D.tells D.held D.moment D.images I.tells (I.left inbox.new)
        engine.new disk.new) }
{
    let done = works(alloc, engine, disk, inbox, outbox, 1000)?;
    let session = done.session;
    if !engine.end(session) {
        return Err("a session that isn't in flight")?;
    }
    let entries = engine.journal().len();
    let Ok(Committed::Dropped) = engine.commit(alloc, disk, inbox, outbox, done) else {
        return Err("a session that has ended is committed")?;
    };
    if engine.journal().len() != entries {
        return Err("an entry of a session that has ended")?;
    }
    let Err(EngineError::NoSession) = engine.read(alloc, disk, inbox, outbox, session) else {
        return Err("a session that has ended is read")?;
    };
    Ok(())
}

// Both over devices in memory, one after the other.
fn has_two_in_flight(alloc: Global) -> Result<(), Fail> {
    let flow = flow_of(alloc, TWICE.as_bytes().to_vec(alloc)?)?;
    let mut disk = MemoryDisk::new(Vec::new(alloc));
    let mut inbox = MemoryInbox::new(Vec::new(alloc), Vec::new(alloc));
    let mut engine = engine_over(alloc, &flow, &mut disk, &mut inbox)?;
    let mut outbox = MemoryOutbox::new(Vec::new(alloc), Vec::new(alloc));
    ends_before_its_commit(alloc, &mut engine, &mut disk, &mut inbox, &mut outbox)?;
    commits_one_of_two(alloc, &mut engine, &mut disk, &mut inbox, &mut outbox)
}

#[test]
fn wherever_a_run_stops_the_next_one_delivers_the_file(rt: HostRuntime) -> Result<(), Fail> {
    let alloc = rt.alloc();
    let mut disk = MemoryDisk::new(Vec::new(alloc));
    let Some(printed) = delivers(alloc, &mut disk, World::InTheInbox)? else {
        return Err("a run that doesn't deliver the file")?;
    };
    assert_eq!(rt; printed.as_slice(), PRINTED.as_bytes());
    let mut left = disk.stopped(disk.moment(), Pick::New)?;
    let events = Events::load(alloc, &mut left, 3, 0)?.scan(alloc, &mut left, 1, 3)?;
    assert_eq!(rt; events.len(), 3);
    assert!(rt; tells(&events[0], EventKind::Receive, "get", "a.txt"));
    assert!(rt; tells(&events[1], EventKind::Send, "put", "a.txt"));
    assert!(rt; tells(&events[2], EventKind::Drop, "put", "success"));
    for pick in PICKS {
        assert_eq!(rt; runs_again(alloc, &disk, pick)?, 26);
    }
    let [short, long] = LOGGED_RUNS;
    goes_by_logs(alloc, short, &PICKS)?;
    goes_by_logs(alloc, long, &[Pick::Torn(0x5a5a)])?;
    ends_at_its_limit(alloc)?;
    passes_the_gate(alloc)?;
    receives_behind_an_expiry(alloc)?;
    has_two_in_flight(alloc)?;
    Ok(())
}
