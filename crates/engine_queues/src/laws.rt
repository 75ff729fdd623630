//! What ties what is kept in memory to the machine's queues, each law as the contract of a function that does nothing.
ghost use Rattle.engine_queues.specs.Laws.{KeptIsSeen, QueuesShowKept, QueuesAreSeen, NoneIsOut, ExpiredAreAtRest, NamesGoBack, NamesLeave, HeldContentsHaveSizes, QuietIsSeen, BlockedIsSeen};

/// What is kept, and the queues of a flow that hold it, show the machine's queues, both beside the same files in flight:
/// the same files are eligible, expire and wait, and the same queues are full. Where none is in flight these are the
/// machine's queues as they are. In files that hold what a store has in memory, each live content has the size that its
/// reference says.
pub fn what_is_kept_is_seen()
    ensures seen { KeptIsSeen }
    ensures shown { QueuesShowKept }
    ensures queues { QueuesAreSeen }
    ensures none_out { NoneIsOut }
    ensures sizes { HeldContentsHaveSizes }
{}

/// What expires beside sessions in flight is in none of them.
pub fn what_expires_is_at_rest()
    ensures { ExpiredAreAtRest }
{}

/// A listing from which names were taken, and to which they were given back, is as it was, whatever the order. A name
/// that was left and is taken is gone from those that are left.
pub fn names_go_back()
    ensures back { NamesGoBack }
    ensures leave { NamesLeave }
{}

/// By views that see the same as the queues of a state, a flow is as quiet, and as blocked.
pub fn quiet_and_blocked_are_seen()
    ensures quiet { QuietIsSeen }
    ensures blocked { BlockedIsSeen }
{}
