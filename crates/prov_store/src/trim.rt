//! What stands before the line and behind the last event is cut.
ghost use Rattle.std.specs.Prelude.{length, IsTrue, OnOk, OnErr, IsErr};
ghost use Rattle.disk_trait.specs.Faults.{CountsFaults};
ghost use Rattle.prov_store.specs.State.{HasEvents, HasStale, CutsStale, ChangesBy, HasTrimmed, HasRefused};

use crate::Events;
use crate::events::file_named;
use disk_trait::{Disk, Failed};

impl Events {
    /// Cuts the files of events that are longer than what is covered, each to that. It takes no memory.
    pub fn trim<D: Disk>(&mut self, disk: &mut D) -> Result<(), Failed>
        requires events { IsTrue D.tells → HasEvents self.old (D.held disk.old) }
        requires stale { IsTrue D.tells → HasStale self.old (D.held disk.old) }
        ensures trimmed { OnOk result (HasTrimmed D.tells D.held D.moment self.old self.new disk.old disk.new) }
        ensures refused { OnErr result
            (HasRefused (length self.old.stale) self.old self.new (D.moment disk.old) (D.moment disk.new)) }
        // Whatever a stop leaves, only bytes before the line or behind the last event are changed.
        ensures behind { ChangesBy D.tells D.held D.moment D.images (CutsStale self.old.stale) disk.old disk.new }
        ensures cause { CountsFaults (D.faults disk.old) (D.faults disk.new) (IsErr result) }
    {
        for stale in &self.stale {
            disk.cut(file_named(stale.file), stale.size)?;
        }
        self.stale.clear();
        Ok(())
    }
}
