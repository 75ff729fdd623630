//! A gate that holds who comes for a while, until two were inside at once.
use std::hint;
use std::sync::atomic::{AtomicU64, Ordering};
use world_io::Gate;

// How often who comes looks for a second one, at most.
const LOOKS: u64 = 1 << 20;

/// How many are inside, and how many were at most.
#[derive(Drop)]
pub struct MeetingGate {
    inside: AtomicU64,
    most: AtomicU64,
    looks: u64,
}

impl MeetingGate {
    /// Who comes waits for a second one, if more than one worker may come.
    pub fn new(workers: u32) -> MeetingGate {
        MeetingGate {
            inside: AtomicU64::new(0),
            most: AtomicU64::new(0),
            looks: if workers > 1 { LOOKS } else { 0 },
        }
    }

    /// Whether two were inside at once.
    pub fn met(&self) -> bool {
        self.most.load(Ordering::SeqCst) > 1
    }
}

impl Gate for MeetingGate {
    fn enter(&self, _session: u64) {
        let inside = self.inside.fetch_add(1, Ordering::SeqCst);
        self.most
            .fetch_max(inside.saturating_add(1), Ordering::SeqCst);
        for _ in 0..self.looks {
            if self.met() {
                return;
            }
            hint::spin_loop();
        }
    }

    fn leave(&self, _session: u64) {
        self.inside.fetch_sub(1, Ordering::SeqCst);
    }
}
