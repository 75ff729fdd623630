//! How a run of any flow begins, goes on and ends, each law as the contract of a function that does nothing.
ghost use Rattle.run_law.specs.Laws.{RunsBegin, OpenedRunsBegin, FailedOpeningsEnd, SteppedRunsGoOn, SparedRunsGoOn, NextStepsComeInTurn, StepsStayInTurn, FaultsEnd, DiskFaultsEnd, OutboxFaultsEnd, InboxFaultsEnd, QuietRunsEnd, BlockedRunsEnd, LimitedRunsEnd, MemoryIsTheState, MemoryCountsEvents, TakingStepsLoseAFile, OtherStepsLoseNone, QueuesLeaveTheWorld, ReceivingSessionsLoseAFile, OtherSessionsLoseNone, SendingSessionsPutAFile, OtherSessionsPutNone, PutsSendTheTakenBytes};

use disk_trait::Disk;
use machine_model::{names_are_lost_by_taking, replay_goes_on, states_stay_valid};
use prov_store::events_up_to_the_last_are_in_a_row;
use store_core::what_is_kept_is_a_state;

/// A store that was opened in a valid state begins a run, with an empty journal.
pub fn run_begins<D: Disk>()
    ensures begun { RunsBegin D.moment D.images }
    ensures opened { OpenedRunsBegin D.moment D.images }
{}

/// An opening that failed behind its first sync ends a run that has done nothing.
pub fn failed_openings_end_a_run<D: Disk>()
    ensures { FailedOpeningsEnd D.tells D.held D.moment D.images }
{}

/// A run goes on by a step that is acknowledged, and by calls that leave what the disk stands for.
pub fn run_goes_on<D: Disk>()
    ensures step { SteppedRunsGoOn D.moment D.images }
    ensures spared { SparedRunsGoOn D.moment D.images }
{
    replay_goes_on();
    states_stay_valid();
    names_are_lost_by_taking();
}

/// Steps that come in turn do so with the step that comes next, and as time goes by.
pub fn turns_go_on()
    ensures next { NextStepsComeInTurn }
    ensures later { StepsStayInTurn }
{}

/// Faults end a run: any between two steps, the disk's within a step, the outbox's at a put, the inbox's behind a step
/// that took a file.
pub fn faults_end_a_run<D: Disk>()
    ensures between { FaultsEnd D.tells D.held D.moment D.images }
    ensures disk { DiskFaultsEnd D.tells D.held D.moment D.images }
    ensures outbox { OutboxFaultsEnd D.tells D.held D.moment D.images }
    ensures inbox { InboxFaultsEnd D.tells D.held D.moment D.images }
{
    replay_goes_on();
    states_stay_valid();
    names_are_lost_by_taking();
}

/// A run whose store was closed ends quiet, held back, or by a limit.
pub fn run_ends<D: Disk>()
    ensures quiet { QuietRunsEnd D.tells D.held D.moment D.images }
    ensures blocked { BlockedRunsEnd D.tells D.held D.moment D.images }
    ensures limited { LimitedRunsEnd D.tells D.held D.moment D.images }
{
    replay_goes_on();
    states_stay_valid();
    names_are_lost_by_taking();
}

/// What a store has in memory is the state that the files stand for which hold it.
pub fn memory_is_the_state()
    ensures kept { MemoryIsTheState }
    ensures counted { MemoryCountsEvents }
{
    what_is_kept_is_a_state();
    events_up_to_the_last_are_in_a_row();
}

/// What is left of the inbox, and what stands in the outbox, behind a step and behind a session.
pub fn worlds_follow_steps()
    ensures taken { TakingStepsLoseAFile }
    ensures other { OtherStepsLoseNone }
    ensures queues { QueuesLeaveTheWorld }
    ensures received { ReceivingSessionsLoseAFile }
    ensures kept { OtherSessionsLoseNone }
    ensures sent { SendingSessionsPutAFile }
    ensures unsent { OtherSessionsPutNone }
    ensures put { PutsSendTheTakenBytes }
{
    names_are_lost_by_taking();
}
