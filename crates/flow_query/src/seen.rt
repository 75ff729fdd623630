//! What a query knows of a store that was read.
ghost use Rattle.std.specs.Prelude.{◌≡◌};
ghost use Rattle.store_core.specs.Seen.{kept_seen};

use store_core::Seen;

/// The id of the store. It is 0 where no store is made yet.
pub(crate) fn store_of(seen: &Seen) -> u64
    ensures { result ≡ (kept_seen seen.now).store }
{
    match seen.state() {
        Some(stored) => stored.store,
        None => 0,
    }
}

/// The number of the last event.
pub(crate) fn last_event(seen: &Seen) -> u64
    ensures { result ≡ (kept_seen seen.now).last_event }
{
    match seen.state() {
        Some(stored) => stored.last_event,
        None => 0,
    }
}
