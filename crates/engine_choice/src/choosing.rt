//! Which session comes next, and how it ends where none does.
ghost use Rattle.std.specs.Prelude.{◌≡◌, ℕ, ◌+◌, ◌<◌, ◌≤◌, nat_lt, None, Some, length, map, IfOk, slice_get, slice_index, option_map, if◌then◌else◌};
ghost use Rattle.machine_model.specs.declared.flow.Processor.{Processor};
ghost use Rattle.machine_model.specs.declared.limits.TheConstants.{CONNECTIONS_MAX};
ghost use Rattle.machine_model.specs.Kinds.{is_source};
ghost use Rattle.machine_model.specs.Quiet.{is_held_back};
ghost use Rattle.machine_model.specs.View.{QueueView};
ghost use Rattle.engine_queues.specs.Picking.{AreOf, first_pick};
ghost use Rattle.engine_queues.specs.Queues.{queue_seen};
ghost use Rattle.engine_queues.specs.Waiting.{AreWaits};
ghost use Rattle.engine_choice.specs.declared.choice.Taking.TheVariants.{Files, Generate, Receive};
ghost use Rattle.engine_choice.specs.Choice.{Known, known_by, MayChoose, may_begin, may_take, taking_of, place_within, choice_of, next_choice, takers, ending_of};
ghost use Rattle.engine_choice.specs.First.{IsFirstGiven};

use crate::{Choice, Ending, Taking};
use engine_queues::{Listing, Picked, Queues};
use flowfile_record::Name;
use machine_model::{Flow, Kind};
use std::alloc::{AllocError, Global};

/// The session of the first processor that is ready, in turn: from behind the one that got the last job, or from the
/// first one. `busy` has how many sessions of each processor are in flight; those past its end have none.
pub fn choose(
    alloc: Global,
    flow: &Flow,
    queues: &Queues,
    counts: &[u64],
    busy: &[u16],
    listing: &Listing,
    last: Option<u16>,
    moment: u64,
) -> Result<Option<Choice>, AllocError>
    requires { MayChoose flow.now queues.now counts.now listing.now }
    ensures { IfOk result (λ choice.
        choice ≡ next_choice flow.now (known_by queues.now counts.now busy.now listing.now moment) last) }
{
    let count = flow.processors.len() as u16;
    let start = place_behind(last, count);
    let waits = queues.files_wait_for(alloc, flow)?;
    match first_choice(
        alloc, flow, queues, &waits, counts, busy, listing, moment, start, count,
    )? {
        Some(choice) => Ok(Some(choice)),
        None => first_choice(
            alloc, flow, queues, &waits, counts, busy, listing, moment, 0, start,
        ),
    }
}

/// How it ends where no session comes: with a rest until a penalty of a file ends, blocked by the first full connection
/// that leaves a processor with something to take, or quiet.
pub fn ending(
    alloc: Global,
    flow: &Flow,
    queues: &Queues,
    counts: &[u64],
    busy: &[u16],
    listing: &Listing,
    moment: u64,
) -> Result<Ending, AllocError>
    requires { MayChoose flow.now queues.now counts.now listing.now }
    ensures { IfOk result (λ ending.
        ending ≡ ending_of flow.now (known_by queues.now counts.now busy.now listing.now moment)) }
{
    if let Some(until) = queues.next_penalty_end(moment) {
        return Ok(Ending::Rest { until });
    }
    let takers = takers(alloc, flow, queues, counts, busy, listing, moment)?;
    match queues.first_holding_back(flow, &takers) {
        Some(connection) => Ok(Ending::Blocked(connection)),
        None => Ok(Ending::Quiet),
    }
}

// The place behind the processor that got the last job, where there is one, or the first.
fn place_behind(last: Option<u16>, count: u16) -> u16
    ensures { result ≡ place_within count last }
{
    match last {
        Some(last) if last < count => last + 1,
        _ => 0,
    }
}

// The session of the first processor that is ready of those from one place to another.
fn first_choice(
    alloc: Global,
    flow: &Flow,
    queues: &Queues,
    waits: &[bool],
    counts: &[u64],
    busy: &[u16],
    listing: &Listing,
    moment: u64,
    start: u16,
    end: u16,
) -> Result<Option<Choice>, AllocError>
    requires may { MayChoose flow.now queues.now counts.now listing.now }
    requires waits { AreWaits flow.now (queue_seen queues.now) waits.now }
    requires end { end ≤ length flow.now.processors }
    ensures { IfOk result (IsFirstGiven
        (choice_of flow.now (known_by queues.now counts.now busy.now listing.now moment))
        flow.now.processors start end) }
{
    for processor in start..end {
        if let Some(choice) = choice_for(
            alloc, flow, queues, waits, counts, busy, listing, moment, processor,
        )? {
            return Ok(Some(choice));
        }
    }
    Ok(None)
}

// The session of a processor, where it is ready.
fn choice_for(
    alloc: Global,
    flow: &Flow,
    queues: &Queues,
    waits: &[bool],
    counts: &[u64],
    busy: &[u16],
    listing: &Listing,
    moment: u64,
    processor: u16,
) -> Result<Option<Choice>, AllocError>
    requires may { MayChoose flow.now queues.now counts.now listing.now }
    requires waits { AreWaits flow.now (queue_seen queues.now) waits.now }
    requires processor { processor < length flow.now.processors }
    ensures { IfOk result (λ choice. (p : Processor) → slice_get flow.now.processors processor ≡ Some p
        → choice ≡ choice_of flow.now (known_by queues.now counts.now busy.now listing.now moment) (processor, p)) }
{
    if !may_take(flow, waits, processor) {
        return Ok(None);
    }
    if !may_begin(flow, queues, busy, listing, processor) {
        return Ok(None);
    }
    match taking_for(
        alloc, flow, queues, counts, busy, listing, moment, processor,
    )? {
        Some(taking) => Ok(Some(Choice { processor, taking })),
        None => Ok(None),
    }
}

// The places of the processors that have something to take.
fn takers(
    alloc: Global,
    flow: &Flow,
    queues: &Queues,
    counts: &[u64],
    busy: &[u16],
    listing: &Listing,
    moment: u64,
) -> Result<Vec<u16>, AllocError>
    requires { MayChoose flow.now queues.now counts.now listing.now }
    ensures { IfOk result (λ places. places.items
        ≡ map (λ p. p.0) (takers flow.now (known_by queues.now counts.now busy.now listing.now moment))) }
{
    let mut takers = Vec::new(alloc);
    for processor in 0..flow.processors.len() as u16 {
        if taking_for(
            alloc, flow, queues, counts, busy, listing, moment, processor,
        )?
        .is_some()
        {
            takers.push(processor)?;
        }
    }
    Ok(takers)
}

/// What a session of a processor takes, whether another one comes before it or not.
pub fn taking_for(
    alloc: Global,
    flow: &Flow,
    queues: &Queues,
    counts: &[u64],
    busy: &[u16],
    listing: &Listing,
    moment: u64,
    processor: u16,
) -> Result<Option<Taking>, AllocError>
    requires may { MayChoose flow.now queues.now counts.now listing.now }
    requires processor { processor < length flow.now.processors }
    ensures { IfOk result (λ taking. (p : Processor) → slice_get flow.now.processors processor ≡ Some p
        → taking ≡ taking_of flow.now (known_by queues.now counts.now busy.now listing.now moment) (processor, p)) }
{
    let place = usize::from(processor);
    match &flow.processors.as_slice()[place].kind {
        Kind::GetFile { .. } => received(listing.first_for(processor)),
        Kind::GenerateFlowFile { count, .. } => {
            Ok(generated(*count, counts[place], sessions_of(busy, place)))
        }
        _ => Ok(picked(pick(alloc, flow, queues, listing, processor, moment)?)),
    }
}

// How many sessions of a processor are in flight. Those of no place have none.
fn sessions_of(busy: &[u16], place: usize) -> u16
    ensures { result ≡ slice_index busy.now place }
{
    match busy.get(place) {
        Some(sessions) => *sessions,
        None => 0,
    }
}

// Whether a processor may have something to take: files wait for it, or it is a source. Any other one isn't asked
// further.
fn may_take(flow: &Flow, waits: &[bool], processor: u16) -> bool
    requires waits { length waits.now ≡ length flow.now.processors }
    requires processor { processor < length flow.now.processors }
    ensures { (queues : ℕ → QueueView) (p : Processor) → AreWaits flow.now queues waits.now
        → slice_get flow.now.processors processor ≡ Some p → result ≡ may_take flow.now queues (processor, p) }
{
    let place = usize::from(processor);
    waits[place] || is_source(&flow.processors.as_slice()[place].kind)
}

fn is_source(kind: &Kind) -> bool
    ensures { result ≡ is_source kind.now }
{
    matches!(kind, Kind::GetFile { .. } | Kind::GenerateFlowFile { .. })
}

// Whether a processor may begin a session: it has fewer in flight than it may have, and no full connection leaves it.
fn may_begin(flow: &Flow, queues: &Queues, busy: &[u16], listing: &Listing, processor: u16) -> bool
    requires queues { AreOf flow.now queues.now }
    requires listing { listing.now.flow ≡ flow.now }
    requires processor { processor < length flow.now.processors }
    ensures { (known : Known) → known.queues ≡ queue_seen queues.now → known.busy ≡ busy.now → (p : Processor)
        → slice_get flow.now.processors processor ≡ Some p → result ≡ may_begin flow.now known (processor, p) }
{
    has_task(flow, busy, processor) && !is_held_back(flow, queues, listing, processor)
}

// Whether a processor has fewer sessions in flight than it may have.
fn has_task(flow: &Flow, busy: &[u16], processor: u16) -> bool
    requires { processor < length flow.now.processors }
    ensures { (p : Processor) → slice_get flow.now.processors processor ≡ Some p
        → result ≡ nat_lt (slice_index busy.now processor) p.tasks }
{
    let place = usize::from(processor);
    let tasks = u16::from(flow.processors.as_slice()[place].tasks);
    sessions_of(busy, place) < tasks
}

// Whether a full connection leaves a processor: of its own connections, which the listing has at hand.
fn is_held_back(flow: &Flow, queues: &Queues, listing: &Listing, processor: u16) -> bool
    requires queues { AreOf flow.now queues.now }
    requires listing { listing.now.flow ≡ flow.now }
    requires processor { processor < length flow.now.processors }
    ensures { (p : Processor) → result ≡ is_held_back flow.now (queue_seen queues.now) (processor, p) }
{
    let linked = listing.flow();
    queues.is_held_back(linked, processor)
}

// What is picked for a processor, from its own connections.
fn pick(
    alloc: Global,
    flow: &Flow,
    queues: &Queues,
    listing: &Listing,
    processor: u16,
    moment: u64,
) -> Result<Option<Picked>, AllocError>
    requires queues { AreOf flow.now queues.now }
    requires places { length flow.now.connections ≤ CONNECTIONS_MAX }
    requires listing { listing.now.flow ≡ flow.now }
    requires processor { processor < length flow.now.processors }
    ensures { IfOk result (λ picked. (p : Processor) → slice_get flow.now.processors processor ≡ Some p
        → option_map (λ files. (files.connection, files.numbers)) picked
        ≡ first_pick flow.now (queue_seen queues.now) moment (processor, p)) }
{
    let linked = listing.flow();
    queues.pick(alloc, linked, processor, moment)
}

fn received(name: Option<&Name>) -> Result<Option<Taking>, AllocError>
    ensures { IfOk result (λ taking. taking ≡ option_map (λ name. Receive name.now) name.entry) }
{
    match name {
        Some(name) => Ok(Some(Taking::Receive {
            name: name.clone()?,
        })),
        None => Ok(None),
    }
}

// The next index, where fewer files are made or about to be than are wanted.
fn generated(count: u32, made: u64, busy: u16) -> Option<Taking>
    ensures { result ≡ (if nat_lt (made + busy) count then Some (Generate (made + 1)) else None) }
{
    let count = u64::from(count);
    if made < count && u64::from(busy) < count - made {
        Some(Taking::Generate { index: made + 1 })
    } else {
        None
    }
}

fn picked(files: Option<Picked>) -> Option<Taking>
    ensures { result ≡ option_map (λ picked. Files picked.connection picked.numbers) files }
{
    match files {
        Some(picked) => Some(Taking::Files {
            connection: picked.connection,
            numbers: picked.numbers,
        }),
        None => None,
    }
}
