//! The files of queues.
ghost use Rattle.std.specs.Prelude.{◌≡◌, ℕ, ◌<◌, ◌^◌, ◌++◌, ◌∷◌, [], vec_len, OnOk, IfOk, IsErr, IsTrue};
ghost use Rattle.std.specs.List.{flat_map, sum_by};
ghost use Rattle.disk_trait.specs.Faults.{CountsFaults};
ghost use Rattle.flowfile_record.specs.NumberedItems.{with_items};
ghost use Rattle.checkpoint_store.specs.Consistent.{AreDistinctBy};
ghost use Rattle.flow_report.specs.Writing.{Writes};
ghost use Rattle.flow_query.specs.Parts.{waiting_arrival, line_text, listed_waiting, waiting_size, waiting_in, waiting_text};

use disk_trait::Failed;
use flow_report::{Line, write_line};
use flowfile_record::{ActiveFile, ActiveList, Numbered, NumberedList, uuid_of};
use std::alloc::{AllocError, Global};
use world_io::Sink;

/// A file of a queue: its arrival, its number, and its content's size in bytes.
#[derive(Clone, Copy, Debug, PartialEq, Eq)]
pub(crate) struct Waiting {
    arrival: u64,
    number: u64,
    size: u64,
}

impl Numbered for Waiting {
    ghost number = { λ waiting. waiting.arrival };

    fn number(&self) -> u64 {
        self.arrival
    }
}

/// The files of each of so many connections, as they stand, in one pass over all files.
pub(crate) fn lists_of(
    alloc: Global,
    files: &ActiveList,
    connections: usize,
) -> Result<Vec<Vec<Waiting>>, AllocError>
    ensures len { IfOk result (λ lists. vec_len lists ≡ connections) }
    ensures lists { IfOk result (λ lists. (place : ℕ) → place < connections
        → listed_waiting lists.items place ≡ waiting_in files.now.items place) }
{
    let mut lists = empty_lists(alloc, connections)?;
    for active in files.iter() {
        list_file(&mut lists, active)?;
    }
    Ok(lists)
}

// Adds a file to the list of its connection.
fn list_file(lists: &mut Vec<Vec<Waiting>>, active: &ActiveFile) -> Result<(), AllocError>
    ensures len { vec_len lists.new ≡ vec_len lists.old }
    ensures lists { OnOk result ((place : ℕ) → place < vec_len lists.old → listed_waiting lists.new.items place
        ≡ listed_waiting lists.old.items place ++ waiting_in (active.now ∷ []) place) }
{
    let place = usize::from(active.connection);
    if place < lists.len() {
        lists[place].push(Waiting {
            arrival: active.file.arrival,
            number: active.file.number,
            size: active.file.content.size,
        })?;
    }
    Ok(())
}

fn empty_lists(alloc: Global, count: usize) -> Result<Vec<Vec<Waiting>>, AllocError>
    ensures len { IfOk result (λ lists. vec_len lists ≡ count) }
    ensures empty { IfOk result (λ lists. (place : ℕ) → listed_waiting lists.items place ≡ []) }
{
    let mut lists = Vec::new(alloc);
    for _ in 0..count {
        lists.push(Vec::new(alloc))?;
    }
    Ok(lists)
}

/// Takes the list of a connection out, which leaves an empty one.
pub(crate) fn take_list(alloc: Global, lists: &mut Vec<Vec<Waiting>>, place: usize) -> Vec<Waiting>
    requires { place < vec_len lists.old }
    ensures list { result.items ≡ listed_waiting lists.old.items place }
    ensures others { (at : ℕ) → (at ≡ place → ⊥)
        → listed_waiting lists.new.items at ≡ listed_waiting lists.old.items at }
    ensures len { vec_len lists.new ≡ vec_len lists.old }
{
    std::mem::replace(&mut lists[place], Vec::new(alloc))
}

/// A queue of these files, by their arrivals.
pub(crate) fn queue_of(
    alloc: Global,
    waiting: Vec<Waiting>,
) -> Result<NumberedList<Waiting>, AllocError>
    requires { AreDistinctBy waiting_arrival waiting.items }
    ensures { IfOk result (λ queue. queue.items ≡ with_items waiting_arrival waiting.items []) }
{
    let mut queue = NumberedList::new(alloc);
    queue.reserve(waiting.len() as u64)?;
    queue.put_all(waiting);
    Ok(queue)
}

/// Writes the line of a connection and those of its files.
pub(crate) fn write_queue<S: Sink>(
    sink: &mut S,
    store: u64,
    id: &str,
    queue: &NumberedList<Waiting>,
) -> Result<(), Failed>
    requires { sum_by waiting_size queue.now.items < 2 ^ 64 }
    ensures written { IsTrue S.tells → Writes (line_text store id.now queue.now.items) (S.written sink.old)
        (S.written sink.new) result }
    ensures cause { CountsFaults (S.faults sink.old) (S.faults sink.new) (IsErr result) }
{
    let line = Line::Connection {
        id,
        files: queue.len(),
        bytes: bytes_of(queue),
    };
    write_line(sink, &line)?;
    write_files(sink, store, queue)
}

fn write_files<S: Sink>(
    sink: &mut S,
    store: u64,
    queue: &NumberedList<Waiting>,
) -> Result<(), Failed>
    ensures written { IsTrue S.tells → Writes (flat_map (waiting_text store) queue.now.items) (S.written sink.old)
        (S.written sink.new) result }
    ensures cause { CountsFaults (S.faults sink.old) (S.faults sink.new) (IsErr result) }
{
    for waiting in queue.iter() {
        let line = Line::Queued {
            file: uuid_of(store, waiting.number),
            size: waiting.size,
        };
        write_line(sink, &line)?;
    }
    Ok(())
}

// How many bytes the contents of a queue have together.
fn bytes_of(queue: &NumberedList<Waiting>) -> u64
    requires { sum_by waiting_size queue.now.items < 2 ^ 64 }
    ensures { result ≡ sum_by waiting_size queue.now.items }
{
    let mut bytes = 0;
    for waiting in queue.iter() {
        bytes += waiting.size;
    }
    bytes
}
