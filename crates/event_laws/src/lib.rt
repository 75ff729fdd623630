//! Laws of what a machine's events tell.
//!
//! The machine itself stands in `machine_model`. A law here is the contract of a function that does nothing.
#![tactic(auto)]

ghost use Rattle.event_laws.specs.Told.{StepsTellOfComings, StepsTellOfGoings, ReplaysTellOfComings, ReplaysTellOfGoings};

/// Between the states before and behind a step, or a replay, no file comes into the queues and none goes out of them
/// but with a new event that names it: a CREATE, RECEIVE, FORK, JOIN or CLONE that tells of its coming, a DROP or
/// EXPIRE that tells of its going. An event that is new is left unless the line was raised past it meanwhile.
pub fn no_file_comes_or_goes_untold()
    ensures step_comes { StepsTellOfComings }
    ensures step_goes { StepsTellOfGoings }
    ensures replay_comes { ReplaysTellOfComings }
    ensures replay_goes { ReplaysTellOfGoings }
{}
