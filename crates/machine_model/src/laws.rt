//! What holds of the machine's definitions, each law as the contract of a function that does nothing.
ghost use Rattle.std.specs.Prelude.{◌≡◌, ◌*◌, ◌^◌};
ghost use Rattle.machine_model.specs.Laws.{ViewsCountAll, NoneGoesBeforeItself, GoingBeforeChains, ArrivalsTell, OrderKeepsFiles, OrderHolds, OrderIsOnly, BestIsBest, BestIsOnly, ReplayOfOneMore, ReplayOfJoined, ActsEndAllInTurn, ActsGiveOutcomes, SettlingKeepsNumbers, StepsKeepNumbers, ReplaysKeepNumbers, SettlingNumbersEvents, StepsNumberEvents, ReplaysNumberEvents, ReplaysAddEvents, ReplaysKeepLine, SettlingAddsKin, SettlingTellsKin, StepsTellKin, ReplaysTellKin, NewStatesAreValid, StepsStayValid, ReplaysStayValid, StepsGoOn, ReplaysGoOn, StepsLoseNames, ReplaysLoseNames, OneConnectionHas, PicksMayBeTaken, DueExpiriesHaveSteps, DueSwapOutsHaveSteps, DueSwapInsHaveSteps, DueAgingsHaveSteps, LineageIsOnly};

use crate::{
    CONNECTIONS_MAX, COPIES_MAX, EXTRACTED_MAX, FAN_OUT_MAX, GENERATED_MAX, ID_MAX, LINES_MAX,
    OWN_NAME_MAX, OWN_PROPERTIES_MAX, PENALTY_MAX, PROCESSORS_MAX, QUEUE_LIMIT_MAX,
    RECLAIM_ENTRIES, SWAP_MAX, SWAP_MIN, TASKS_MAX,
};

/// The limits of a flow as numbers.
pub fn limits_of_a_flow()
    ensures processors { PROCESSORS_MAX ≡ 256 }
    ensures connections { CONNECTIONS_MAX ≡ 1024 }
    ensures fan_out { FAN_OUT_MAX ≡ 8 }
    ensures id { ID_MAX ≡ 64 }
    ensures own { OWN_PROPERTIES_MAX ≡ 64 }
    ensures own_name { OWN_NAME_MAX ≡ 255 }
    ensures tasks { TASKS_MAX ≡ 16 }
    ensures penalty { PENALTY_MAX ≡ 24 * 60 * 60 * 1000 }
    ensures queue { QUEUE_LIMIT_MAX ≡ 2 ^ 53 }
    ensures swap_least { SWAP_MIN ≡ 2 }
    ensures swap_most { SWAP_MAX ≡ 40_000 }
    ensures generated { GENERATED_MAX ≡ 10 ^ 6 }
    ensures copies { COPIES_MAX ≡ 999 }
    ensures lines { LINES_MAX ≡ 10 ^ 9 }
    ensures extracted { EXTRACTED_MAX ≡ 1024 }
{}

/// How many entries stand between two reclaims, as a number.
pub fn limit_of_entries()
    ensures { RECLAIM_ENTRIES ≡ 2 ^ 8 }
{}

/// The order of a queue is a total one of files whose arrivals differ.
pub fn order_is_total()
    ensures irreflexive { NoneGoesBeforeItself }
    ensures transitive { GoingBeforeChains }
    ensures total { ArrivalsTell }
{}

/// What a queue's order makes of files are the same files, none behind one that it goes before; where their arrivals
/// differ, no other list is that.
pub fn order_sorts()
    ensures same_files { OrderKeepsFiles }
    ensures ordered { OrderHolds }
    ensures only { OrderIsOnly }
{}

/// The best file is an eligible one that no eligible one goes before, and where arrivals differ the only such; there
/// is none exactly where no file is eligible.
pub fn best_is_first()
    ensures first { BestIsBest }
    ensures only { BestIsOnly }
{}

/// A queue is seen with all of its files and all of their bytes, those that are swapped out by their batches.
pub fn views_count_all()
    ensures { ViewsCountAll }
{}

/// A replay goes on from where the replay of a journal's front ends.
pub fn replay_goes_on()
    ensures one_more { ReplayOfOneMore }
    ensures joined { ReplayOfJoined }
{}

/// A processor ends all files that it took, each once and in turn, and then files whose parents stand before them. A
/// sound one that is handed what is within the limits of flow files makes an outcome of its relationships.
pub fn acts_give_outcomes()
    ensures in_turn { ActsEndAllInTurn }
    ensures whole { ActsGiveOutcomes }
{}

/// A session leaves the queues well numbered, whatever outcome it had.
pub fn settling_keeps_numbers()
    ensures { SettlingKeepsNumbers }
{}

/// No two files of the queues ever have one number or one arrival, and the next ones are higher than all. A swapped
/// file's batch is 1 or higher, and lower than the next.
pub fn replays_keep_numbers()
    ensures one_step { StepsKeepNumbers }
    ensures replay { ReplaysKeepNumbers }
{}

/// Events are numbered in a row from the line on; new ones stand behind those that there are, of which none changes,
/// and those up to the line are gone. Only an aging moves the line.
pub fn replays_number_events()
    ensures settling { SettlingNumbersEvents }
    ensures one_step { StepsNumberEvents }
    ensures replay { ReplaysNumberEvents }
    ensures adds { ReplaysAddEvents }
    ensures line { ReplaysKeepLine }
{}

/// A session makes of its files what their origins and its clones say, and the ancestry that sessions made is that
/// which events tell of, each child with its parent under the number of the event that names them.
pub fn replays_tell_kin()
    ensures adds { SettlingAddsKin }
    ensures settling { SettlingTellsKin }
    ensures one_step { StepsTellKin }
    ensures replay { ReplaysTellKin }
{}

/// A new store's state is valid, and steps and replays leave a valid one behind a valid one.
pub fn states_stay_valid()
    ensures new { NewStatesAreValid }
    ensures one_step { StepsStayValid }
    ensures replay { ReplaysStayValid }
{}

/// Neither the line nor a counter ever falls, and the store's id stays.
pub fn counters_never_fall()
    ensures one_step { StepsGoOn }
    ensures replay { ReplaysGoOn }
{}

/// The inbox stays as it was, and of the names that are left just those go that sessions of GetFile take.
pub fn names_are_lost_by_taking()
    ensures one_step { StepsLoseNames }
    ensures replay { ReplaysLoseNames }
{}

/// One connection alone has the files of a session.
pub fn one_connection_has_files()
    ensures { OneConnectionHas }
{}

/// What a queue of a valid state owes can be done, and what is owed to the line in any: there is a step for it.
pub fn due_has_a_step()
    ensures expiry { DueExpiriesHaveSteps }
    ensures swap_out { DueSwapOutsHaveSteps }
    ensures swap_in { DueSwapInsHaveSteps }
    ensures aging { DueAgingsHaveSteps }
{}

/// What a rule picks of a queue in a valid state may be taken: it passes the rules of a session's step.
pub fn picks_may_be_taken()
    ensures { PicksMayBeTaken }
{}

/// No file has two lineages.
pub fn lineage_is_only()
    ensures { LineageIsOnly }
{}
