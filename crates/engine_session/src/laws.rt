//! How sessions stand to the machine, each law as the contract of a function that does nothing.
ghost use Rattle.engine_session.specs.Laws.{MachinesFilesAreLive, TakenFilesAreTheMachines, TakenFilesAreThere, TakenFilesMayBeHanded};
ghost use Rattle.engine_session.specs.Steps.{SessionsAreSteps, SettledSessionsAreSteps};

use store_core::what_is_kept_is_a_state;

/// There is a step for each session, and it leaves the state that the session settles: behind what is kept, the one
/// that the settled session leaves.
pub fn sessions_are_steps()
    ensures steps { SessionsAreSteps }
    ensures settled { SettledSessionsAreSteps }
{}

/// The files that a session takes of what is kept may be handed to its processor, are handed as the machine hands
/// them, and are there.
pub fn taken_files_are_handed()
    ensures may { TakenFilesMayBeHanded }
    ensures machine { TakenFilesAreTheMachines }
    ensures there { TakenFilesAreThere }
{}

/// What the machine takes are live files of one connection.
pub fn taken_files_are_live()
    ensures { MachinesFilesAreLive }
{
    what_is_kept_is_a_state();
}
