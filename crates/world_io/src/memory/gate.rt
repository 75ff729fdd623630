//! Gates: one that does nothing, and one that brings two sessions together.
ghost use Rattle.std.specs.Prelude.{◌≡◌};

use crate::Gate;
use std::hint;
use std::sync::atomic::{AtomicBool, Ordering};

/// A gate that does nothing.
#[derive(Clone, Copy, Debug, Default)]
pub struct FreeGate;

impl Gate for FreeGate {
    fn enter(&self, _session: u64) {}

    fn leave(&self, _session: u64) {}
}

/// A gate that holds the first session until a second one is inside, but for a number of turns at most.
#[derive(Drop)]
pub struct TurnGate {
    /// How often the first session looks, at most, whether a second one is inside.
    pub turns: u64,
    is_entered: AtomicBool,
    is_second_inside: AtomicBool,
}

impl TurnGate {
    /// A gate whose first session looks at most `turns` times whether a second one is inside.
    pub fn new(turns: u64) -> TurnGate
        ensures { result.turns ≡ turns }
    {
        TurnGate {
            turns,
            is_entered: AtomicBool::new(false),
            is_second_inside: AtomicBool::new(false),
        }
    }
}

impl Gate for TurnGate {
    fn enter(&self, _session: u64) {
        if self.is_entered.swap(true, Ordering::SeqCst) {
            self.is_second_inside.store(true, Ordering::SeqCst);
            return;
        }
        for _ in 0..self.turns {
            if self.is_second_inside.load(Ordering::SeqCst) {
                return;
            }
            hint::spin_loop();
        }
    }

    fn leave(&self, _session: u64) {}
}
