//! The counters of a state.

/// Of the state in which a session ends: its store's id, the numbers that the next file and the next arrival get, and
/// the number of the last event, which is 0 where there is none.
#[derive(Clone, Copy, Debug, PartialEq, Eq)]
pub struct Counters {
    pub store: u64,
    pub next_number: u64,
    pub next_arrival: u64,
    pub last_event: u64,
}
