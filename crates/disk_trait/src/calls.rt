//! The calls of an object in memory: how many there were, which of them fail, and how many did.
ghost use Rattle.std.specs.Prelude.{◌≡◌, ◌↔◌, ⊤, OnOk, OnErr, IsErr};
ghost use Rattle.disk_trait.specs.Faults.{CountsFaults};
ghost use Rattle.disk_trait.specs.Count.{one_more};

use crate::Failed;

/// The calls of an object in memory.
#[derive(Debug, Drop)]
pub struct Calls {
    /// The numbers of the calls that fail, counted from 1.
    pub failing: Vec<u64>,
    /// How many calls there were, up to 2^64 - 1.
    pub count: u64,
    /// How many of them failed, up to 2^64 - 1.
    pub faults: u64,
}

impl Calls {
    ghost use Rattle.disk_trait.specs.Called.{FailsNext};

    /// No calls yet.
    pub fn new(failing: Vec<u64>) -> Calls
        ensures failing { result.failing ≡ failing }
        ensures count { result.count ≡ 0 }
        ensures faults { result.faults ≡ 0 }
    {
        Calls {
            failing,
            count: 0,
            faults: 0,
        }
    }

    /// Counts a call, which fails where its number is listed.
    pub fn begin(&mut self) -> Result<(), Failed>
        ensures fails { IsErr result ↔ FailsNext self.old }
        ensures failing { self.new.failing ≡ self.old.failing }
        ensures count { self.new.count ≡ one_more self.old.count }
        ensures ok { OnOk result (self.new.faults ≡ self.old.faults) }
        ensures err { OnErr result (self.new.faults ≡ one_more self.old.faults) }
        ensures cause { OnErr result (CountsFaults self.old.faults self.new.faults ⊤) }
    {
        self.count = self.count.saturating_add(1);
        if self.failing.contains(&self.count) {
            return Err(self.fault());
        }
        Ok(())
    }

    /// Counts a fault of the call that is under way.
    pub fn fault(&mut self) -> Failed
        ensures faults { self.new ≡ record self.old { faults = one_more self.old.faults } }
        ensures cause { CountsFaults self.old.faults self.new.faults ⊤ }
    {
        self.faults = self.faults.saturating_add(1);
        Failed
    }
}
