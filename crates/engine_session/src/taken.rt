//! What a session took, it may still take, each law as the contract of a function that does nothing.
ghost use Rattle.engine_session.specs.Taken.{ChosenAreTaken, TakenAreSessions, TakenStays};

use machine_model::{one_connection_has_files, picks_may_be_taken};
use store_core::what_is_kept_is_a_state;

/// What the session that comes next takes, it may take, and none of it is in flight.
pub fn chosen_files_are_taken()
    ensures { ChosenAreTaken }
{
    picks_may_be_taken();
    one_connection_has_files();
    what_is_kept_is_a_state();
}

/// What a session took, it may still take while its files live as they did, whatever else changes.
pub fn taken_files_stay()
    ensures { TakenStays }
{}

/// What a session may still take is a session of the machine, once its index comes next and while its name is left.
pub fn taken_files_are_sessions()
    ensures { TakenAreSessions }
{
    one_connection_has_files();
    what_is_kept_is_a_state();
}
