//! Aging of events.
ghost use Rattle.std.specs.Prelude.{◌^◌, ◌<◌};

use crate::disk::{BenchDisk, KeptFile};
use crate::measured::{Measured, ROUNDS_MAX, Rounds, Watch};
use crate::records::{RECORDED, digest_of_contents, put_block, put_event};
use anyhow::{Result, bail};
use disk_trait::{FileKind, FileName};
use flowfile_record::EVENTS_PER_FILE;
use prov_event::EVENT_KIND;
use prov_store::Events;
use std::alloc::{Alloc, Global};
use std::fs::Files;

/// The time that an aging takes which leaves the last of so many full files of events. The count is that of the events
/// that it forgets.
pub fn measure<R: Files + Alloc<A = Global>>(
    rt: &R,
    alloc: Global,
    files: u32,
    rounds: Rounds,
) -> Result<Measured> {
    if files < 2 {
        bail!("an aging forgets a file of two at least");
    }
    let line = u64::from(files - 1) * EVENTS_PER_FILE;
    let mut disk = BenchDisk::new(Vec::new(alloc), files_of_events(alloc, files)?);
    let mut watch = Watch::start(rt, rounds);
    for _ in 0..ROUNDS_MAX {
        watch.pause(rt);
        let mut events = Events::load(alloc, &mut disk, line + EVENTS_PER_FILE, 0)?;
        let before = recorded(&events);
        watch.go_on(rt);
        events.age(&mut disk, line)?;
        if let Some(took) = watch.round(rt) {
            let count = before.saturating_sub(recorded(&events));
            return Ok(Measured { count, took });
        }
    }
    bail!("the clock stands still")
}

// How many events there are: each is of one kind.
fn recorded(events: &Events) -> u64 {
    events.counts().counts[RECORDED.code() as usize - 1]
}

fn files_of_events(alloc: Global, files: u32) -> Result<Vec<KeptFile>> {
    let mut kept = Vec::new(alloc);
    for number in 0..files {
        kept.push(file_of_events(alloc, u64::from(number))?)?;
    }
    Ok(kept)
}

// The full file of events of this number.
fn file_of_events(alloc: Global, number: u64) -> Result<KeptFile>
    requires { number < 2 ^ 32 }
{
    let digest = digest_of_contents();
    let mut bytes = Vec::new(alloc);
    let mut payload = Vec::new(alloc);
    let before = number * EVENTS_PER_FILE;
    for event in before..before + EVENTS_PER_FILE {
        payload.clear();
        put_event(&mut payload, event + 1, &digest)?;
        put_block(&mut bytes, EVENT_KIND, payload.as_slice())?;
    }
    let name = FileName {
        kind: FileKind::Events,
        number,
    };
    Ok(KeptFile { name, bytes })
}
