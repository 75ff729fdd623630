//! What ties the choice of the next session to the machine, each law as the contract of a function that does nothing.
ghost use Rattle.engine_choice.specs.Laws.{ChoicesAreSeen, ChoicesAreSessions, EndsAreMachineEnds, TakingsAreSessions};

use engine_queues::{picks_are_given, quiet_and_blocked_are_seen};
use machine_model::{one_connection_has_files, picks_may_be_taken};

/// The session that comes next is one of the machine, and takes none of the files that sessions in flight took.
pub fn choices_are_sessions()
    ensures { ChoicesAreSessions }
{
    picks_may_be_taken();
    one_connection_has_files();
}

/// What a processor takes is a session of the machine, whichever session comes next.
pub fn takings_are_sessions()
    ensures { TakingsAreSessions }
{
    picks_may_be_taken();
    one_connection_has_files();
}

/// Which session comes next goes by what views of the queues show.
pub fn choices_are_seen()
    ensures { ChoicesAreSeen }
{}

/// Where no session is in flight, no file has expired and no session comes, it ends as the machine does: quiet and
/// blocked exactly where that is.
pub fn ends_are_machine_ends()
    ensures { EndsAreMachineEnds }
{
    picks_are_given();
    quiet_and_blocked_are_seen();
}
