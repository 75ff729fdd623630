//! Opening the store of a flow.
ghost use Rattle.std.specs.Prelude.{◌⊎◌, IsTrue, IfOk};
ghost use Rattle.flowfile_record.specs.Encoding.{IsDigest};
ghost use Rattle.flowfile_wal.specs.Current.{current_number};
ghost use Rattle.machine_model.specs.Sound.{IsSound};
ghost use Rattle.store_core.specs.Calls.{SinceSync};
ghost use Rattle.store_core.specs.Opened.{IsShut};
ghost use Rattle.store_core.specs.Touched.{Revives};
ghost use Rattle.engine_change.specs.Committing.{identity_of};
ghost use Rattle.run_top.specs.Opening.{HasOpened, IsLeftUnwritten, IsUnopened, Opens, OpensNoStore};

use crate::Answer;
use disk_trait::Disk;
use engine_change::connection_ids;
use machine_model::Flow;
use std::alloc::Global;
use store_core::{FlowIdentity, Store};

/// Opens the store of a flow on a disk, or makes one.
pub(crate) fn open<D: Disk>(
    alloc: Global,
    lot: u64,
    disk: &mut D,
    flow: &Flow,
) -> Result<Store, Answer>
    requires sound { IsSound flow.now }
    requires digest { IsDigest flow.now.digest }
    ensures opened { IfOk result (HasOpened flow.now D.tells D.held D.moment D.images lot disk.old disk.new) }
    // From behind the first sync on whatever a stop leaves means the same; or that sync failed; or nothing was done.
    ensures images { Opens (identity_of flow.now) D.moment D.images lot (D.held disk.old) disk.old disk.new result }
    ensures alone { SinceSync D.moment D.images disk.old disk.new
        (Revives (current_number (D.held disk.old)) (D.held disk.old))
        ⊎ IsUnopened D.moment D.images disk.old disk.new result }
    ensures shut { IsTrue D.tells → IsShut (identity_of flow.now) lot (D.held disk.old)
        → IsLeftUnwritten D.held D.moment D.images disk.old disk.new result }
    ensures refusal { OpensNoStore result (identity_of flow.now) D.tells D.held D.moment D.faults lot
        disk.old disk.new }
{
    let ids = connection_ids(alloc, flow)?;
    let identity = FlowIdentity {
        digest: flow.digest,
        connections: &ids,
        processors: flow.processors.len() as u16,
    };
    let store = Store::load(alloc, disk, &identity, lot)?;
    Ok(store)
}
