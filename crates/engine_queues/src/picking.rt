//! What the queues of a flow answer.
ghost use Rattle.std.specs.Prelude.{◌≡◌, ℕ, ◌<◌, ◌≤◌, min, true, List, Some, length, map, set, find, slice_get, option_map, is_some, IfOk};
ghost use Rattle.std.specs.List.{list_any, enumerate_from, filter_map, flat_map, reduce};
ghost use Rattle.machine_model.specs.declared.limits.TheConstants.{CONNECTIONS_MAX};
ghost use Rattle.machine_model.specs.declared.flow.Flow.{Flow as TheFlow};
ghost use Rattle.machine_model.specs.declared.flow.Processor.{Processor};
ghost use Rattle.machine_model.specs.Due.{due_expiry, first_due};
ghost use Rattle.machine_model.specs.Quiet.{gives_a_pick, is_held_back, holds_back_any};
ghost use Rattle.machine_model.specs.View.{QueueView};
ghost use Rattle.flow_queue.specs.Queue.{queue_as_seen, next_penalty_end};
ghost use Rattle.engine_queues.specs.Queues.{queue_seen};
ghost use Rattle.engine_queues.specs.Picking.{AreOf, picked_from, first_pick};
ghost use Rattle.engine_queues.specs.Waiting.{AreWaits};

use crate::{LinkedFlow, Queues};
use flow_queue::{Queue, TakeRule};
use flowfile_record::Numbers;
use machine_model::Flow;
use std::alloc::{AllocError, Global};

/// The files of a connection that have expired.
#[derive(Debug, Drop)]
pub struct Expiry {
    pub connection: u16,
    pub numbers: Numbers,
}

/// The files that a session takes of a connection.
#[derive(Debug, Drop)]
pub struct Picked {
    pub connection: u16,
    pub numbers: Numbers,
}

impl Queues {
    /// The first connection that has expired files, with these.
    pub fn due_expiry(&self, alloc: Global, moment: u64) -> Result<Option<Expiry>, AllocError>
        requires { length self.now ≤ CONNECTIONS_MAX }
        ensures { IfOk result (λ due. (flow : TheFlow) → AreOf flow self.now
            → option_map (λ expiry. (expiry.connection, expiry.numbers)) due
            ≡ due_expiry flow (queue_seen self.now) moment) }
    {
        for (place, is_occupied) in self.occupied.iter().enumerate() {
            if *is_occupied {
                let mut numbers = Vec::new(alloc);
                self.list[place].expired(moment, &mut numbers)?;
                if !numbers.is_empty() {
                    return Ok(Some(Expiry {
                        connection: place as u16,
                        numbers: Numbers::from(numbers),
                    }));
                }
            }
        }
        Ok(None)
    }

    /// For each processor, by its place, whether files wait for it: whether a connection that ends at it has some, in
    /// flight or not.
    pub fn files_wait_for(&self, alloc: Global, flow: &Flow) -> Result<Vec<bool>, AllocError>
        requires { AreOf flow.now self.now }
        ensures { IfOk result (λ waits. AreWaits flow.now (queue_seen self.now) waits.items) }
    {
        let mut waits = vec![in alloc; false; flow.processors.len() as usize]?;
        for (place, is_occupied) in self.occupied.iter().enumerate() {
            if *is_occupied {
                mark_waiting(&mut waits, flow.connections.as_slice()[place].target);
            }
        }
        Ok(waits)
    }

    /// The first connection that ends at a processor and from which its rule picks, with what it picks.
    pub fn pick(
        &self,
        alloc: Global,
        flow: &LinkedFlow,
        processor: u16,
        moment: u64,
    ) -> Result<Option<Picked>, AllocError>
        requires queues { AreOf flow.now self.now }
        requires places { length flow.now.connections ≤ CONNECTIONS_MAX }
        requires processor { processor < length flow.now.processors }
        ensures { IfOk result (λ picked. (p : Processor) → slice_get flow.now.processors processor ≡ Some p
            → option_map (λ files. (files.connection, files.numbers)) picked
            ≡ first_pick flow.now (queue_seen self.now) moment (processor, p)) }
    {
        let rule = flow.take_rule(processor);
        self.pick_by(alloc, flow, rule, processor, moment)
    }

    fn pick_by(
        &self,
        alloc: Global,
        flow: &LinkedFlow,
        rule: TakeRule,
        processor: u16,
        moment: u64,
    ) -> Result<Option<Picked>, AllocError>
        requires queues { AreOf flow.now self.now }
        requires places { length flow.now.connections ≤ CONNECTIONS_MAX }
        requires processor { processor < length flow.now.processors }
        ensures { IfOk result (λ picked. option_map (λ files. (files.connection, files.numbers)) picked
            ≡ first_due (picked_from rule processor moment) flow.now (queue_seen self.now)) }
    {
        let places = flow.incoming(processor);
        for place in places {
            let mut numbers = Vec::new(alloc);
            if self.list[*place].pick(rule, moment, &mut numbers)? {
                return Ok(Some(Picked {
                    connection: *place as u16,
                    numbers: Numbers::from(numbers),
                }));
            }
        }
        Ok(None)
    }

    /// Whether a full connection leaves a processor.
    pub fn is_held_back(&self, flow: &LinkedFlow, processor: u16) -> bool
        requires queues { AreOf flow.now self.now }
        requires processor { processor < length flow.now.processors }
        ensures { (p : Processor) → result ≡ is_held_back flow.now (queue_seen self.now) (processor, p) }
    {
        let places = flow.outgoing(processor);
        for place in places {
            if self.list[*place].is_full() {
                return true;
            }
        }
        false
    }

    /// The first full connection that leaves one of these processors.
    pub fn first_holding_back(&self, flow: &Flow, processors: &[u16]) -> Option<u16>
        requires queues { AreOf flow.now self.now }
        requires places { length flow.now.connections ≤ CONNECTIONS_MAX }
        ensures { (list : List (ℕ × Processor)) → map (λ p. p.0) list ≡ processors.now
            → result ≡ option_map (λ c. c.0)
            (find (holds_back_any (queue_seen self.now) list) (enumerate_from 0 flow.now.connections)) }
    {
        for (place, connection) in flow.connections.as_slice().iter().enumerate() {
            if processors.contains(&connection.source) && self.list[place].is_full() {
                return Some(place as u16);
            }
        }
        None
    }

    /// When the first penalty of a file ends that hasn't ended by a moment.
    pub fn next_penalty_end(&self, moment: u64) -> Option<u64>
        ensures { result ≡ next_penalty_end moment (flat_map (λ queue. (queue_as_seen queue).active) self.now) }
    {
        next_end(&self.list, moment)
    }
}

// Marks that files wait for a processor.
fn mark_waiting(waits: &mut Vec<bool>, processor: u16)
    ensures { waits.new.items ≡ set waits.old.items processor true }
{
    let place = usize::from(processor);
    if place < waits.len() {
        waits[place] = true;
    }
}

fn next_end(queues: &[Queue], moment: u64) -> Option<u64>
    ensures { result
        ≡ reduce min (filter_map (λ queue. next_penalty_end moment (queue_as_seen queue).active) queues.now) }
{
    queues
        .iter()
        .filter_map(|queue| queue.next_penalty_end(moment))
        .min()
}

/// There is a first pick for a processor exactly where some connection gives it one.
pub fn picks_are_given()
    ensures { (flow : TheFlow) (queues : ℕ → QueueView) (moment place : ℕ) (p : Processor)
        → is_some (first_pick flow queues moment (place, p))
        ≡ list_any (gives_a_pick queues moment place p) (enumerate_from 0 flow.connections) }
{}
