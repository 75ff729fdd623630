//! The work of a session, and whether it is the work on a job.
ghost use Rattle.std.specs.Prelude.{◌≡◌, ◌↔◌, map, IfOk, IsTrue};
ghost use Rattle.engine_session.specs.Done.{IsGivenAs, IsReceivedAs, IsSame, IsWorkOn, MayWorkOn, step_done};

use crate::handing::taken_from;
use crate::job::Job;
use crate::working::work_at;
use flowfile_record::{Body, Bytes, FileList, FlowFile, Numbers, Outcome};
use machine_model::{Flow, Given, Step};
use process_session::{Source, SourceList};
use std::alloc::{AllocError, Global};
use world_io::Gate;

/// What a session's processor made of its job, with what stays of the files that it took. It is made by [`work`] alone.
#[derive(Drop)]
pub struct Done {
    pub session: u64,
    pub processor: u16,
    pub(crate) connection: u16,
    pub(crate) numbers: Numbers,
    pub(crate) files: FileList,
    /// Beside its files. The bytes may have been taken out.
    pub given: Given,
    pub(crate) outcome: Outcome,
    pub(crate) sources: SourceList,
}

impl Done {
    /// The place of the connection that its files were taken from.
    pub fn connection(&self) -> u16
        ensures { result ≡ self.now.connection }
    {
        self.connection
    }

    /// The numbers of its files.
    pub fn numbers(&self) -> &[u64]
        ensures { result.now ≡ self.now.numbers }
    {
        self.numbers.as_slice()
    }

    /// Its files, as they stood in their queue.
    pub fn files(&self) -> &[FlowFile]
        ensures { result.now ≡ self.now.files }
    {
        self.files.as_slice()
    }

    /// What stays of its files, with the contents that it had.
    pub fn sources(&self) -> &[Source]
        ensures { result.now ≡ self.now.sources }
    {
        self.sources.as_slice()
    }
}

/// Has the processor of a job work on it, between one `enter` and one `leave` of the gate with the session's number,
/// also where memory is wanting. The uuids of its files are those of the store of this id.
pub fn work<G: Gate>(
    alloc: Global,
    flow: &Flow,
    store: u64,
    job: Job,
    gate: &G,
) -> Result<Done, AllocError>
    requires { MayWorkOn flow.now store job }
    ensures { IfOk result (IsWorkOn flow.now store job) }
{
    let session = job.session;
    gate.enter(session);
    let done = work_inside(alloc, flow, store, job);
    gate.leave(session);
    done
}

// Has the processor work, without the gate.
fn work_inside(alloc: Global, flow: &Flow, store: u64, job: Job) -> Result<Done, AllocError>
    requires { MayWorkOn flow.now store job }
    ensures { IfOk result (IsWorkOn flow.now store job) }
{
    let Job {
        session,
        processor,
        connection,
        numbers,
        files,
        contents,
        mut given,
    } = job;
    let taken = taken_from(alloc, store, files.as_slice(), contents)?;
    let (outcome, sources) = work_at(alloc, flow, processor, taken, &mut given)?;
    Ok(Done {
        session,
        processor,
        connection,
        numbers,
        files,
        given,
        outcome,
        sources,
    })
}

/// The step of the machine that it is.
pub fn step_done(alloc: Global, done: &Done) -> Result<Step, AllocError>
    ensures { IfOk result (λ one. one ≡ step_done done.now) }
{
    let file = match &done.given.file {
        Some(name) => Some(name.clone()?),
        None => None,
    };
    Ok(Step::Session {
        processor: done.processor,
        numbers: Numbers::from_slice(alloc, done.numbers.as_slice())?,
        moment: done.given.moment,
        given: Given {
            moment: done.given.moment,
            index: done.given.index,
            there: done.given.there,
            file,
            bytes: None,
        },
    })
}

/// Whether this is the work on the job, as far as it shows: the job's processor worked on these files, which stood so,
/// with these contents, and was given this.
pub fn is_work_on(done: &Done, job: &Job) -> bool
    ensures { IsTrue result ↔ IsSame done.now job.now }
{
    done.session == job.session
        && done.processor == job.processor
        && done.connection == job.connection
        && done.numbers.as_slice() == job.numbers.as_slice()
        && are_same_files(done.files.as_slice(), job.files.as_slice())
        && are_same_contents(done.sources.as_slice(), job.contents.as_slice())
        && is_given_as(&done.given, &job.given)
        && is_received_as(&done.outcome, &job.given)
}

/// Whether the files are these, as they stand in a queue.
pub fn are_same_files(files: &[FlowFile], others: &[FlowFile]) -> bool
    ensures { IsTrue result ↔ (files.now ≡ others.now) }
{
    if files.len() != others.len() {
        return false;
    }
    for place in 0..files.len() {
        if !is_same_file(&files[place], &others[place]) {
            return false;
        }
    }
    true
}

fn is_same_file(file: &FlowFile, other: &FlowFile) -> bool
    ensures { IsTrue result ↔ (file.now ≡ other.now) }
{
    file.number == other.number
        && file.content == other.content
        && file.entered == other.entered
        && file.penalty_end == other.penalty_end
        && file.arrival == other.arrival
        && file.attributes.equals(&other.attributes)
}

// Whether the sources' contents, where they were read, are these.
fn are_same_contents(sources: &[Source], contents: &[Option<Bytes>]) -> bool
    ensures { IsTrue result ↔ (map (λ source. source.bytes) sources.now ≡ contents.now) }
{
    if sources.len() != contents.len() {
        return false;
    }
    for place in 0..sources.len() {
        if !are_same_bytes(&sources[place].bytes, &contents[place]) {
            return false;
        }
    }
    true
}

fn are_same_bytes(bytes: &Option<Bytes>, others: &Option<Bytes>) -> bool
    ensures { IsTrue result ↔ (bytes.now ≡ others.now) }
{
    match (bytes, others) {
        (Some(bytes), Some(others)) => bytes.as_slice() == others.as_slice(),
        (None, None) => true,
        _ => false,
    }
}

// Whether both are the same, but for the bytes.
fn is_given_as(given: &Given, other: &Given) -> bool
    ensures { IsTrue result ↔ IsGivenAs given.now other.now }
{
    given.moment == other.moment
        && given.index == other.index
        && given.there == other.there
        && given.file == other.file
}

// Whether the outcome has the bytes of the file that is received, if one is: they are those of its first file.
fn is_received_as(outcome: &Outcome, given: &Given) -> bool
    ensures { IsTrue result ↔ IsReceivedAs outcome.now given.now }
{
    if given.file.is_none() {
        return true;
    }
    let Some(bytes) = &given.bytes else {
        return false;
    };
    let Some(first) = outcome.files.as_slice().first() else {
        return false;
    };
    match &first.body {
        Body::New(made) => made.as_slice() == bytes.as_slice(),
        _ => false,
    }
}
