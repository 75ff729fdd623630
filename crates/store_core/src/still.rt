//! Whether a live content still stands as bytes that are at hand.
ghost use Rattle.std.specs.Prelude.{◌≡◌, ◌⊎◌, ◌↔◌, true, IfOk, Contains, IsTrue};
ghost use Rattle.disk_trait.specs.Images.{Stays};
ghost use Rattle.content_repo.specs.Claims.{content_in};
ghost use Rattle.store_core.specs.Calls.{StopsOnFault};
ghost use Rattle.store_core.specs.Store.{live_in, IsKeptOn};

use crate::{Store, StoreError};
use disk_trait::Disk;
use flowfile_record::ContentRef;

impl Store {
    /// Whether a live content still stands as these bytes. No digest is made, and no memory taken.
    pub fn is_still<D: Disk>(
        &mut self,
        disk: &mut D,
        at: &ContentRef,
        bytes: &[u8],
    ) -> Result<bool, StoreError>
        requires kept { IsKeptOn D.tells D.held D.moment D.images self.old disk.old }
        requires live { Contains (live_in self.old) at.now }
        ensures still { IfOk result (λ still. IsTrue D.tells
            → IsTrue still ↔ (content_in (D.held disk.old) at.now ≡ bytes.now)) }
        ensures same { (self.new ≡ self.old) ⊎ (self.new ≡ record self.old { failed = true }) }
        ensures kept { Stays D.held D.moment D.images disk.old disk.new
            × IsKeptOn D.tells D.held D.moment D.images self.new disk.new }
        ensures refusal { StopsOnFault result self.old self.new D.faults disk.old disk.new }
    {
        if self.has_failed {
            return Err(StoreError::MustReopen);
        }
        let Ok(still) = self.contents.is_still(disk, at, bytes) else {
            self.has_failed = true;
            return Err(StoreError::Disk);
        };
        Ok(still)
    }
}
