//! How a run goes on by each call of its engine, whichever sessions are in flight together.
ghost use Rattle.session_history.specs.Runs.{CheckoutPlaysOn, CommitPlaysOn, EndingPlaysOn, EndingStaysStopped, EndsAreOfTheMachine, FullJournalsStop, OpenedRunsArePlayed, PlayedRunsWait, PlayedRunsWant, ReadingPlaysOn, TendingPlaysOn};

use disk_trait::Disk;
use engine_choice::{choices_are_seen, choices_are_sessions, ends_are_machine_ends};
use engine_queues::{names_go_back, what_is_kept_is_seen};
use engine_session::sessions_are_steps;
use machine_model::replay_goes_on;
use run_law::{faults_end_a_run, run_goes_on};

/// An engine that was opened begins a run as it is played, which waits, and stops for want of memory.
pub fn played_runs_begin<D: Disk>()
    ensures begun { OpenedRunsArePlayed D.moment D.images }
    ensures waits { PlayedRunsWait D.held D.moment D.images }
    ensures wants { PlayedRunsWant D.tells D.held D.moment D.images }
{
    run_goes_on::<D>();
    faults_end_a_run::<D>();
}

/// A run goes on as it is played by each call of its engine, or is stopped by it.
pub fn calls_play_on<D: Disk>()
    ensures tends { TendingPlaysOn D.tells D.held D.moment D.images }
    ensures checks_out { CheckoutPlaysOn D.tells D.held D.moment D.images }
    ensures reads { ReadingPlaysOn D.tells D.held D.moment D.images }
    ensures commits { CommitPlaysOn D.tells D.held D.moment D.images }
    ensures ends { EndingPlaysOn D.moment D.images }
    ensures stays { EndingStaysStopped D.tells D.held D.moment D.images }
{
    choices_are_seen();
    names_go_back();
    replay_goes_on();
    run_goes_on::<D>();
    faults_end_a_run::<D>();
}

/// Where no session comes and none is in flight, a full journal stops the run, and quiet and blocked are the machine's.
pub fn played_runs_end<D: Disk>()
    ensures full { FullJournalsStop D.tells D.held D.moment D.images }
    ensures ends { EndsAreOfTheMachine D.moment D.images }
{
    choices_are_seen();
    choices_are_sessions();
    ends_are_machine_ends();
    sessions_are_steps();
    what_is_kept_is_seen();
    replay_goes_on();
    run_goes_on::<D>();
}
