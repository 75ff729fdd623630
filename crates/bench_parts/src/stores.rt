//! Opening of a store.
ghost use Rattle.std.specs.Prelude.{◌≡◌, [], ◌∷◌, IfOk};

use crate::disk::{BenchDisk, KeptFile};
use crate::logs::{LOG, log};
use crate::measured::{Measured, ROUNDS_MAX, Rounds, Watch};
use crate::records::claims;
use crate::snapshots::{SNAPSHOT, snapshot};
use anyhow::{Result, bail};
use flowfile_record::{DIGEST_SIZE, Text, TextList};
use std::alloc::{Alloc, AllocError, Global};
use std::fs::Files;
use store_core::{FlowIdentity, Store, StoreError};

/// The time that it takes to open a store of so many sessions in the log, which leave so many files.
pub fn measure<R: Files + Alloc<A = Global>>(
    rt: &R,
    alloc: Global,
    sessions: u32,
    files: u32,
    rounds: Rounds,
) -> Result<Measured> {
    let log = KeptFile {
        name: LOG,
        bytes: log(alloc, files, sessions)?,
    };
    let snapshot = KeptFile {
        name: SNAPSHOT,
        bytes: snapshot(alloc, files)?,
    };
    let claims = claims(alloc, files.saturating_add(sessions))?;
    let mut disk = BenchDisk::new(claims, vec![in alloc; log, snapshot]?);
    let connections = connections(alloc)?;
    let mut watch = Watch::start(rt, rounds);
    for _ in 0..ROUNDS_MAX {
        let store = open(alloc, &mut disk, &connections)?;
        if let Some(took) = watch.round(rt) {
            let count = store.state().files.len();
            return Ok(Measured { count, took });
        }
    }
    bail!("the clock stands still")
}

// Opens the store of the flow that the snapshot names, which has this one connection and no processors.
fn open(alloc: Global, disk: &mut BenchDisk, connections: &TextList) -> Result<Store, StoreError>
    requires { connections.now ≡ (99 ∷ 49 ∷ []) ∷ [] }
{
    let flow = FlowIdentity {
        digest: [0; DIGEST_SIZE],
        connections,
        processors: 0,
    };
    Store::load(alloc, disk, &flow, 0)
}

// The one connection that the snapshot names.
fn connections(alloc: Global) -> Result<TextList, AllocError>
    ensures { IfOk result (λ names. names ≡ (99 ∷ 49 ∷ []) ∷ []) }
{
    let name = Text::from_str(alloc, "c1")?;
    Ok(TextList::from(vec![in alloc; name]?))
}
