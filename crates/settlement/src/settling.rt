//! The settlement of a session.
ghost use Rattle.std.specs.Prelude.{◌≡◌, ◌+◌, ◌<◌, ◌≤◌, ◌^◌, length, map, IfOk, Some};
ghost use Rattle.machine_model.specs.Placing.{count_made};
ghost use Rattle.settlement.specs.Ending.{place_of};
ghost use Rattle.settlement.specs.Handed.{MaySettle};
ghost use Rattle.settlement.specs.Placing.{wanted};
ghost use Rattle.settlement.specs.Recording.{RecordsAll};
ghost use Rattle.settlement.specs.StateAfter.{Settles};
ghost use Rattle.settlement.specs.TellsOf.{TellsOfEnded};
ghost use Rattle.settlement.specs.Telling.{all_drafts, numbered_wrapping};
ghost use Rattle.settlement.specs.Whole.{MayEndAt, generator_count, settled_in, settled_of, told_of};

use crate::events::Teller;
use crate::file::EndedFile;
use crate::making::Setting;
use crate::numbers::is_made;
use crate::offspring::{Kinship, all_children};
use crate::placing::{Placer, count_clones, count_firsts};
use crate::{Counters, Ended};
use flowfile_record::{
    Counted, Event, EventList, FlowFile, Numbers, Outcome, PlacedList, Sent, Settled, Worked,
};
use machine_model::{Flow, Given, Kind, Processor};
use std::alloc::{AllocError, Global};

/// What a session of a processor changes, given its outcome. Memory alone refuses.
pub fn settle(
    alloc: Global,
    flow: &Flow,
    given: &Given,
    counters: Counters,
    ended: Ended,
) -> Result<Settled, AllocError>
    requires { MaySettle flow.now counters ended }
    ensures settles { IfOk result (Settles flow.now given.now counters ended) }
    ensures tells { IfOk result (TellsOfEnded given.now counters ended) }
    ensures records { IfOk result (RecordsAll flow.now given.now counters ended) }
{
    let processor = &flow.processors.as_slice()[usize::from(ended.processor)];
    settle_at(alloc, flow, processor, given, counters, ended)
}

/// The same of a processor, which stands at its place in the flow.
fn settle_at(
    alloc: Global,
    flow: &Flow,
    processor: &Processor,
    given: &Given,
    counters: Counters,
    ended: Ended,
) -> Result<Settled, AllocError>
    requires { MaySettle flow.now counters ended }
    ensures settled { IfOk result (λ settled. settled ≡ settled_in flow.now given.now counters ended processor.now) }
    ensures moment { given.now.moment < 2 ^ 64 }
{
    let Ended {
        processor: place,
        connection,
        taken,
        sources,
        outcome,
    } = ended;
    let moment = moment_of(given);
    let setting = Setting {
        alloc,
        flow,
        place,
        processor,
        store: counters.store,
        moment,
        taken: taken.as_slice(),
        sources: sources.as_slice(),
    };
    settle_files(&setting, given, counters, connection, outcome)
}

/// A session's moment, of 64 bits.
fn moment_of(given: &Given) -> u64
    ensures { result ≡ given.now.moment }
{
    given.moment
}

/// What becomes of the files of an outcome. Those that were taken stood in the queue of this connection.
fn settle_files(
    setting: &Setting,
    given: &Given,
    counters: Counters,
    connection: u16,
    outcome: Outcome,
) -> Result<Settled, AllocError>
    requires { MayEndAt (place_of setting.now) counters outcome }
    ensures { IfOk result (λ settled. settled
        ≡ settled_of (place_of setting.now) given.now counters connection outcome) }
{
    let first_clone = counters.next_number + count_made(outcome.files.as_slice());
    let Outcome { files, sent } = outcome;
    let files = setting.end_files(counters.next_number, files.into_vec())?;
    let events = tell(
        setting,
        given,
        &files,
        &sent,
        counters.last_event + 1,
        first_clone,
    )?;
    let firsts = count_firsts(&files);
    let clones = count_clones(&files);
    let placer = Placer {
        alloc: setting.alloc,
        connection,
        taken: setting.taken,
        next_arrival: counters.next_arrival,
    };
    let placed = placer.place_all(first_clone, files)?;
    let gone = numbers_of(setting.alloc, setting.taken)?;
    Ok(Settled {
        processor: setting.place,
        moment: given.moment,
        gone,
        placed: PlacedList::from(placed),
        events: EventList::from(events),
        next_number: first_clone + clones,
        next_arrival: counters.next_arrival + (firsts + clones),
        count: count_of(&setting.processor.kind, setting.place, given.index),
    })
}

/// The events that tell of the session.
fn tell(
    setting: &Setting,
    given: &Given,
    files: &[EndedFile],
    sent: &Option<Sent>,
    first: u64,
    first_clone: u64,
) -> Result<Vec<Event>, AllocError>
    requires { first_clone + length (wanted files.now) < 2 ^ 64 }
    ensures { IfOk result (λ events. events.items ≡ numbered_wrapping first (all_drafts
        (told_of setting.now.processor.now setting.now.taken.now given.now files.now) sent.now first_clone)) }
{
    let forked = all_children(setting.alloc, Kinship::Forked, files)?;
    let cloned = all_children(setting.alloc, Kinship::Cloned, files)?;
    let teller = Teller {
        alloc: setting.alloc,
        given,
        processor: setting.processor,
        taken: setting.taken,
        files,
        forked: &forked,
        cloned: &cloned,
        first,
    };
    teller.tell_all(sent, first_clone)
}

fn count_made(files: &[Worked]) -> u64
    ensures count { result ≡ count_made files.now }
    ensures bound { result ≤ length files.now }
{
    files.iter().filter(|file| is_made(&file.origin)).count() as u64
}

fn numbers_of(alloc: Global, files: &[FlowFile]) -> Result<Numbers, AllocError>
    ensures { IfOk result (λ numbers. numbers ≡ map (λ file. file.number) files.now) }
{
    let numbers: Vec<u64> = files.iter().map(|file| file.number).collect(alloc)?;
    Ok(Numbers::from(numbers))
}

/// How many files a generator has made behind its session.
fn count_of(kind: &Kind, processor: u16, index: u64) -> Option<Counted>
    ensures { result ≡ generator_count kind.now processor index }
{
    match kind {
        Kind::GenerateFlowFile { .. } => Some(Counted {
            processor,
            count: index,
        }),
        _ => None,
    }
}
