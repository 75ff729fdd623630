//! How the history of an engine's sessions begins and goes on, and what it says of the journal.
ghost use Rattle.session_history.specs.Laws.{CheckoutsTake, CommitsMake, EndsLeave, ExpiriesGo, HistoriesAreReplays, HistoriesBegin, HistoriesComeInTurn, HistoriesGoOn, OthersStay};

use engine_choice::choices_are_seen;
use engine_queues::{names_go_back, what_is_kept_is_seen};
use machine_model::replay_goes_on;

/// An engine that was opened is where nothing has happened yet.
pub fn histories_begin()
    ensures { HistoriesBegin }
{}

/// A history goes on by one move more.
pub fn histories_go_on()
    ensures { HistoriesGoOn }
{}

/// What an engine does to its sessions is one move: a checkout, an end or a `Changed`, a commit that is acknowledged, and
/// files that expire. Whatever leaves sessions, names and journal alone is none.
pub fn moves_are_made()
    ensures takes { CheckoutsTake }
    ensures leaves { EndsLeave }
    ensures makes { CommitsMake }
    ensures expires { ExpiriesGo }
    ensures stays { OthersStay }
{
    choices_are_seen();
    names_go_back();
    replay_goes_on();
}

/// The steps of a history lead from the machine at which it began to the one that it has reached.
pub fn histories_are_replays()
    ensures { HistoriesAreReplays }
{
    replay_goes_on();
}

/// Where each session is committed or ends before another one is checked out, the steps come in turn.
pub fn histories_come_in_turn()
    ensures { HistoriesComeInTurn }
{
    what_is_kept_is_seen();
}
