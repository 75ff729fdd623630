//! How the queues follow what is kept.
ghost use Rattle.std.specs.Prelude.{◌≡◌, ◌++◌, ◌<◌, ◌^◌, ℕ, List, Some, not, length, map, All, OnOk};
ghost use Rattle.flowfile_record.specs.Stored.{Kept, kept_of};
ghost use Rattle.kept_state.specs.Applied.{left_after};
ghost use Rattle.machine_model.specs.declared.flow.Flow.{Flow};
ghost use Rattle.flow_queue.specs.Queue.{flight_of};
ghost use Rattle.engine_queues.specs.Beside.{out_without};
ghost use Rattle.engine_queues.specs.Queues.{AreQueuesOf};
ghost use Rattle.engine_queues.specs.Settling.{MaySettleOver, IsKeptAfter, MayTakeFrom, MayGiveBack, HasRoomIn, HasRoomFor, without_room, without_flights, queue_marked, queues_marked, MayBeMarked, queues_without, HasFiles, queues_with, MayAllJoin, as_kept};
ghost use Rattle.engine_queues.specs.Waiting.{has_files};

use crate::Queues;
use flow_queue::Queue;
use flowfile_record::{ActiveFile, ActiveList, Placed, Settled, Stored};
use std::alloc::AllocError;

impl Queues {
    /// A session takes files of a connection, which stay in its queue, in flight. It takes no memory.
    pub fn check_out(&mut self, connection: u16, numbers: &[u64])
        requires { (flow : Flow) × (k : Kept) × (out : List ℕ)
            × MayTakeFrom flow k out connection numbers.now self.old }
        ensures same { map without_flights self.new ≡ map without_flights self.old }
        ensures out { (flow : Flow) (k : Kept) (out : List ℕ) → MayTakeFrom flow k out connection numbers.now self.old
            → AreQueuesOf flow k (numbers.now ++ out) self.new }
    {
        mark(&mut self.list, connection, numbers, true);
    }

    /// A session gives files of a connection back. It takes no memory.
    pub fn back(&mut self, connection: u16, numbers: &[u64])
        requires { (flow : Flow) × (k : Kept) × (out : List ℕ)
            × MayGiveBack flow k out connection numbers.now self.old }
        ensures same { map without_flights self.new ≡ map without_flights self.old }
        ensures back { (flow : Flow) (k : Kept) (out : List ℕ) → MayGiveBack flow k out connection numbers.now self.old
            → AreQueuesOf flow k (out_without numbers.now out) self.new }
    {
        mark(&mut self.list, connection, numbers, false);
    }

    /// Makes room for the files that a session places.
    pub fn reserve(&mut self, settled: &Settled) -> Result<(), AllocError>
        requires { (flow : Flow) × (k : Kept) × (out : List ℕ) × MaySettleOver flow k out settled.now self.old }
        ensures same { map without_room self.new ≡ map without_room self.old }
        ensures room { OnOk result (HasRoomFor settled.now self.new) }
    {
        reserve_for(&mut self.list, settled.placed.as_slice())
    }

    /// The queues after a session that the store has committed: the files that are gone are taken out of the queue of
    /// the connection that they were in, in flight or not, and the placed ones are put into those of theirs. The files of
    /// other sessions stay in flight. It takes no memory.
    pub fn settle(&mut self, connection: u16, settled: Settled, stored: &Stored)
        requires kept { (flow : Flow) × (k : Kept) × (out : List ℕ) × MaySettleOver flow k out settled self.old
            × IsKeptAfter k connection settled (kept_of stored.now) }
        requires room { HasRoomFor settled self.old }
        ensures { (flow : Flow) (k : Kept) (out : List ℕ) → MaySettleOver flow k out settled self.old
            → IsKeptAfter k connection settled (kept_of stored.now)
            → AreQueuesOf flow (kept_of stored.now) (out_without settled.gone out) self.new }
    {
        let gone = settled.gone.as_slice();
        take_out(&mut self.list, &mut self.occupied, connection, gone);
        let placed = settled.placed.into_vec();
        put_in(&mut self.list, &mut self.occupied, placed, &stored.files);
    }

    /// The queues after files of a connection expired, of which none was in flight. It takes no memory.
    pub fn expire(&mut self, connection: u16, numbers: &[u64])
        requires { (flow : Flow) × (k : Kept) × (out : List ℕ)
            × MayTakeFrom flow k out connection numbers.now self.old }
        ensures { (flow : Flow) (k after : Kept) (out : List ℕ)
            → MayTakeFrom flow k out connection numbers.now self.old
            → after.files ≡ left_after numbers.now k.files → AreQueuesOf flow after out self.new }
    {
        take_out(&mut self.list, &mut self.occupied, connection, numbers);
    }
}

// Makes room for the placed files in each queue that one goes into.
fn reserve_for(queues: &mut Vec<Queue>, placed: &[Placed]) -> Result<(), AllocError>
    requires few { length placed.now < 2 ^ 32 }
    requires within { All (λ one. one.connection < length queues.old.items) placed.now }
    ensures same { map without_room queues.new.items ≡ map without_room queues.old.items }
    ensures room { OnOk result (HasRoomIn (map (λ one. one.connection) placed.now) queues.new.items) }
{
    let count = placed.len() as u32;
    for one in placed {
        queues[usize::from(one.connection)].reserve(count)?;
    }
    Ok(())
}

// Marks files of the queue of a connection, which were at rest or in flight, as the other.
fn mark(queues: &mut Vec<Queue>, connection: u16, numbers: &[u64], in_flight: bool)
    requires { MayBeMarked in_flight connection numbers.now queues.old.items }
    ensures { queues.new.items ≡ queues_marked in_flight connection numbers.now queues.old.items }
{
    for number in numbers {
        mark_one(&mut queues[usize::from(connection)], *number, in_flight);
    }
}

fn mark_one(queue: &mut Queue, number: u64, in_flight: bool)
    requires { flight_of number queue.old.files ≡ Some (not in_flight) }
    ensures { queue.new ≡ queue_marked in_flight number queue.old }
{
    if in_flight {
        queue.check_out(number);
    } else {
        queue.back(number);
    }
}

// Takes files out of the queue of a connection, and marks whether it has some left. If there are none to take, it may be
// no connection.
fn take_out(queues: &mut Vec<Queue>, occupied: &mut Vec<bool>, connection: u16, numbers: &[u64])
    requires files { HasFiles connection numbers.now queues.old.items }
    requires occupied { occupied.old.items ≡ map has_files queues.old.items }
    ensures queues { queues.new.items ≡ queues_without connection numbers.now queues.old.items }
    ensures occupied { occupied.new.items ≡ map has_files queues.new.items }
{
    if numbers.is_empty() {
        return;
    }
    let place = usize::from(connection);
    queues[place].leave_all(numbers);
    occupied[place] = queues[place].len() > 0;
}

// Puts placed files into the queues of their connections, their contents standing where these files say, and marks that
// these have files.
fn put_in(
    queues: &mut Vec<Queue>,
    occupied: &mut Vec<bool>,
    placed: Vec<Placed>,
    files: &ActiveList,
)
    requires files { MayAllJoin (map (as_kept files.now.items) placed.items) queues.old.items }
    requires occupied { occupied.old.items ≡ map has_files queues.old.items }
    ensures queues { queues.new.items ≡ queues_with (map (as_kept files.now.items) placed.items) queues.old.items }
    ensures occupied { occupied.new.items ≡ map has_files queues.new.items }
{
    for one in placed {
        let ActiveFile { connection, file } = as_kept(one, files);
        let place = usize::from(connection);
        queues[place].put(file);
        occupied[place] = true;
    }
}

// A placed file, its content standing where these files say.
fn as_kept(placed: Placed, files: &ActiveList) -> ActiveFile
    ensures { result ≡ as_kept files.now.items placed }
{
    let Placed {
        connection,
        mut file,
        fresh: _,
    } = placed;
    if let Some(active) = files.get(file.number) {
        file.content = active.file.content;
    }
    ActiveFile { connection, file }
}
