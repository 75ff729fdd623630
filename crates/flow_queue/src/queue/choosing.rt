//! What a queue answers.
ghost use Rattle.std.specs.Prelude.{◌≡◌, ℕ, ◌&&◌, ◌||◌, nat_lt, min, [], ◌∷◌, None, false, length, map, filter, All, IfOk, IfSome, IsOk, OnOk, OnErr, is_some};
ghost use Rattle.std.specs.List.{reduce};
ghost use Rattle.std.specs.Option.{option_map};
ghost use Rattle.machine_model.specs.Due.{expired_numbers};
ghost use Rattle.machine_model.specs.Order.{best};
ghost use Rattle.machine_model.specs.Quiet.{is_full};
ghost use Rattle.flow_queue.specs.Picking.{Picks, PicksAll, numbers_picked, expiring};
ghost use Rattle.flow_queue.specs.Queue.{AreApart, IsAtRest, queue_as_seen, views_of, offered, offered_by, picked, picked_numbers, next_penalty_end};
ghost use Rattle.flow_queue.specs.Ranked.{eligible_among};

use super::Queue;
use super::ages::may_have_expired;
use super::bins::pick_bin;
use super::ranked::{Note, best_of, first_eligible};
use super::swapping::{bytes_short_of, files_short_of};
use super::wholes::pick_whole;
use crate::held::Held;
use flowfile_record::{CONTENT_MAX, NumberedList};
use machine_model::{QueueLimits, TakeRule};
use std::alloc::AllocError;
use std::collections::VecDeque;

impl Queue {
    /// How many files are active, those that a session works on too.
    pub fn len(&self) -> u64
        ensures len { result ≡ length self.now.files }
        ensures apart { AreApart self.now.files }
    {
        self.files.len()
    }

    /// The number of the file that goes first of those that may be taken at a moment.
    pub fn best(&self, moment: u64) -> Option<u64>
        ensures best { result ≡ option_map (λ file. file.number)
            (best self.now.order self.now.limits moment (queue_as_seen self.now).active) }
        ensures at_rest { IfSome result (IsAtRest self.now) }
    {
        let held = best_of(&self.by_rank, &self.files, &self.limits, moment)?;
        Some(held.file.number)
    }

    /// The numbers of the files that a session by a rule takes at a moment. `false` where it takes none.
    pub fn pick(&self, rule: TakeRule, moment: u64, list: &mut Vec<u64>) -> Result<bool, AllocError>
        requires empty { list.old.items ≡ [] }
        ensures answer { IfOk result (λ answer. answer ≡ is_some (picked rule moment self.now)) }
        ensures numbers { OnOk result (list.new.items ≡ picked_numbers (picked rule moment self.now)) }
        ensures at_rest { All (IsAtRest self.now) list.new.items }
        ensures failed { OnErr result (list.new.items ≡ []) }
        // Memory is taken where there are files to pick from.
        ensures free { offered rule moment self.now ≡ [] → IsOk result }
    {
        if !self.may_pick(rule) {
            return Ok(false);
        }
        pick_by(rule, &self.by_rank, &self.files, &self.limits, moment, list)
    }

    // Whether a rule may pick a file at any moment, by what is counted of the files.
    fn may_pick(&self, rule: TakeRule) -> bool
        ensures { result ≡ false → (moment : ℕ) → picked rule moment self.now ≡ None }
    {
        match rule {
            TakeRule::Bin { min, max: _ } => {
                u64::from(min) <= self.files.len() || self.bytes > u128::from(CONTENT_MAX)
            }
            TakeRule::Defragment => self.counts.may_have_whole(),
            TakeRule::Source | TakeRule::One => true,
        }
    }

    /// The numbers of the files that expired by a moment and that no session works on, ascending.
    pub fn expired(&self, moment: u64, list: &mut Vec<u64>) -> Result<(), AllocError>
        requires { list.old.items ≡ [] }
        ensures numbers { OnOk result
            (list.new.items ≡ expired_numbers self.now.limits moment (queue_as_seen self.now).active) }
        ensures at_rest { All (IsAtRest self.now) list.new.items }
        ensures failed { OnErr result (list.new.items ≡ []) }
        // Memory is taken for numbers alone.
        ensures free { expired_numbers self.now.limits moment (queue_as_seen self.now).active ≡ [] → IsOk result }
    {
        if !may_have_expired(&self.by_age, &self.limits, &self.files, moment) {
            return Ok(());
        }
        list_expired(&self.files, &self.limits, moment, list)
    }

    /// Whether the queue has reached one of its limits, with the files that are swapped out.
    pub fn is_full(&self) -> bool
        ensures { result ≡ is_full self.now.limits (queue_as_seen self.now) }
    {
        let files_short = files_short_of(self.limits.objects, &self.batches);
        let bytes_short = bytes_short_of(self.limits.bytes, &self.batches);
        let has_files = files_short <= self.files.len();
        let has_bytes = bytes_short <= self.bytes;
        is_filled(&self.limits, has_files, has_bytes)
    }

    /// When the first penalty of a file ends that hasn't ended by a moment.
    pub fn next_penalty_end(&self, moment: u64) -> Option<u64>
        ensures { result ≡ next_penalty_end moment (queue_as_seen self.now).active }
    {
        if !self.counts.has_penalties() {
            return None;
        }
        next_end(&self.files, moment)
    }
}

// Whether one of the limits that are set is reached.
fn is_filled(limits: &QueueLimits, has_files: bool, has_bytes: bool) -> bool
    ensures { result
        ≡ ((nat_lt 0 limits.now.objects && has_files) || (nat_lt 0 limits.now.bytes && has_bytes)) }
{
    (limits.objects > 0 && has_files) || (limits.bytes > 0 && has_bytes)
}

fn list_expired(
    files: &NumberedList<Held>,
    limits: &QueueLimits,
    moment: u64,
    list: &mut Vec<u64>,
) -> Result<(), AllocError>
    requires { list.old.items ≡ [] }
    ensures lists { PicksAll (expiring limits.now moment (views_of files.now.items)) result list.new.items }
    ensures free { expiring limits.now moment (views_of files.now.items) ≡ [] → IsOk result }
{
    for held in files.iter() {
        if !held.in_flight && held.is_expired(limits, moment) {
            if let Err(error) = list.push(held.file.number) {
                list.clear();
                return Err(error.into());
            }
        }
    }
    Ok(())
}

fn pick_by(
    rule: TakeRule,
    by_rank: &VecDeque<Note>,
    files: &NumberedList<Held>,
    limits: &QueueLimits,
    moment: u64,
    list: &mut Vec<u64>,
) -> Result<bool, AllocError>
    requires { list.old.items ≡ [] }
    ensures picks { Picks (numbers_picked rule (eligible_among limits.now moment files.now.items by_rank.now.items))
        result list.new.items }
    ensures free { offered_by rule (eligible_among limits.now moment files.now.items by_rank.now.items) ≡ []
        → IsOk result }
{
    let alloc = *list.allocator();
    match rule {
        TakeRule::Source => Ok(false),
        TakeRule::One => pick_best(best_of(by_rank, files, limits, moment), list),
        TakeRule::Bin { min, max } => {
            // The file behind a bin tells whether the bin is filled.
            let most = max as usize + 1;
            let files = first_eligible(alloc, by_rank, files, limits, moment, most)?;
            pick_bin(&files, min, max, list)
        }
        TakeRule::Defragment => {
            let files = first_eligible(alloc, by_rank, files, limits, moment, by_rank.len())?;
            pick_whole(alloc, &files, list)
        }
    }
}

fn pick_best(best: Option<&Held>, list: &mut Vec<u64>) -> Result<bool, AllocError>
    requires { list.old.items ≡ [] }
    ensures picks { Picks (option_map (λ held. held.now.file.number ∷ []) best.entry) result list.new.items }
    ensures free { best.entry ≡ None → IsOk result }
{
    match best {
        Some(held) => {
            list.push(held.file.number)?;
            Ok(true)
        }
        None => Ok(false),
    }
}

fn next_end(files: &NumberedList<Held>, moment: u64) -> Option<u64>
    ensures { result ≡ reduce min (filter (nat_lt moment) (map (λ held. held.file.penalty_end) files.now.items)) }
{
    files
        .iter()
        .map(|held| held.file.penalty_end)
        .filter(|end| moment < *end)
        .min()
}
