//! What a command comes to, and the status that says so.
ghost use Rattle.std.specs.Prelude.{◌≡◌};
ghost use Rattle.run_top.specs.Status.{answer_of_end, answer_of_fault, answer_of_opening, status_of};
ghost use Rattle.run_top.specs.declared.answer.Answer.TheVariants.{Memory};

use crate::status::{
    ABSENT, BLOCKED, DAMAGED, DISK_FAULT, DONE, FLOW_REFUSED, INBOX_FAULT, LIMIT, OUT_OF_MEMORY,
    OUTBOX_FAULT, SINK_FAULT, SOURCE_FAULT, USAGE,
};
use disk_trait::Damage;
use flow_definition::Rule;
use flowfile_record::Text;
use run_law::{Ended, Fault};
use std::alloc::AllocError;
use store_core::{Limit, StoreError};

/// What a command comes to.
#[derive(Debug, Drop)]
pub enum Answer {
    /// A run left nothing to do, or a query printed what was asked.
    Done,
    /// The words ask for nothing.
    Usage,
    /// The flow's text breaks this rule, the lowest, first at this place.
    Refused { rule: Rule, place: Text },
    /// The store was made for another flow.
    OtherFlow,
    /// The store's files stand for no state, or a content isn't what was kept.
    Damaged(Damage),
    /// The disk failed.
    Disk,
    /// The inbox failed.
    Inbox,
    /// The outbox failed.
    Outbox,
    /// The source of the flow's text failed.
    Source,
    /// What is printed to failed, once all else was done.
    Sink,
    /// All that there was to do is held back, first by the connection of this place.
    Blocked(u16),
    /// A limit ended the run.
    Limit(Limit),
    /// Memory was wanting.
    Memory,
    /// The store has nothing of the identifier that was asked for.
    Absent,
}

impl Answer {
    /// Its status, with which the program ends.
    pub fn status(&self) -> u8
        ensures { result ≡ status_of self.now }
    {
        match self {
            Answer::Done => DONE,
            Answer::Usage => USAGE,
            Answer::Refused { .. } | Answer::OtherFlow => FLOW_REFUSED,
            Answer::Damaged(_) => DAMAGED,
            Answer::Disk => DISK_FAULT,
            Answer::Inbox => INBOX_FAULT,
            Answer::Outbox => OUTBOX_FAULT,
            Answer::Source => SOURCE_FAULT,
            Answer::Sink => SINK_FAULT,
            Answer::Blocked(_) => BLOCKED,
            Answer::Limit(_) => LIMIT,
            Answer::Memory => OUT_OF_MEMORY,
            Answer::Absent => ABSENT,
        }
    }
}

/// What a run comes to that ended so.
pub(crate) fn answer_of_end(ended: Ended) -> Answer
    ensures { result ≡ answer_of_end ended }
{
    match ended {
        Ended::Quiet => Answer::Done,
        Ended::Blocked(connection) => Answer::Blocked(connection),
        Ended::Limit(limit) => Answer::Limit(limit),
        Ended::Fault(fault) => answer_of_fault(fault),
    }
}

fn answer_of_fault(fault: Fault) -> Answer
    ensures { result ≡ answer_of_fault fault }
{
    match fault {
        Fault::Disk => Answer::Disk,
        Fault::Inbox => Answer::Inbox,
        Fault::Outbox => Answer::Outbox,
        Fault::Damaged(damage) => Answer::Damaged(damage),
        Fault::Memory => Answer::Memory,
    }
}

impl From<AllocError> for Answer {
    ghost from_gives = { λ _ answer. answer ≡ Memory };

    fn from(_: AllocError) -> Answer {
        Answer::Memory
    }
}

impl From<StoreError> for Answer {
    ghost from_gives = { λ store_error answer. answer ≡ answer_of_opening store_error };

    fn from(error: StoreError) -> Answer {
        match error {
            StoreError::Disk | StoreError::MustReopen => Answer::Disk,
            // No opening is refused by a limit.
            StoreError::Memory | StoreError::Limit(_) => Answer::Memory,
            StoreError::Damaged(damage) => Answer::Damaged(damage),
            StoreError::OtherFlow { .. } => Answer::OtherFlow,
        }
    }
}
