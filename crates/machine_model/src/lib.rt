//! The machine: what a flow means, one whole session at a time.
//!
//! The definitions stand in `specs/`. The machine's flow files hold their bytes, its queues are plain lists, and it
//! knows no claim, count, log, gate, lock or thread. docs/MODEL.md reads them aloud.
#![tactic(auto)]

mod filter;
mod flow;
mod fragment;
mod given;
mod journal;
mod kind;
mod laws;
mod limits;
mod pattern;

pub use filter::Filter;
pub use flow::{Connection, ConnectionList, Flow, Processor, ProcessorList, QueueLimits};
pub use fragment::{Fragment, Whole, fragment_of};
pub use given::Given;
pub use journal::{Entry, EntryList, RECLAIM_ENTRIES, Step};
pub use kind::{
    Conflict, Destination, Kind, MatchRequirement, MergeStrategy, OwnExpression, OwnExpressionList,
    OwnPattern, OwnPatternList, Replacement, TakeRule,
};
pub use laws::{
    acts_give_outcomes, best_is_first, counters_never_fall, due_has_a_step, limit_of_entries,
    limits_of_a_flow, lineage_is_only, names_are_lost_by_taking, one_connection_has_files,
    order_is_total, order_sorts, picks_may_be_taken, replay_goes_on, replays_keep_numbers,
    replays_number_events, replays_tell_kin, settling_keeps_numbers, states_stay_valid,
    views_count_all,
};
pub use limits::{
    CONNECTIONS_MAX, COPIES_MAX, EXTRACTED_MAX, FAN_OUT_MAX, GENERATED_MAX, ID_MAX, LINES_MAX,
    OWN_NAME_MAX, OWN_PROPERTIES_MAX, PENALTY_MAX, PROCESSORS_MAX, QUEUE_LIMIT_MAX, SWAP_MAX,
    SWAP_MIN, TASKS_MAX,
};
pub use pattern::Pattern;
