//! How taken files come into a session.
ghost use Rattle.std.specs.Prelude.{◌<◌, ◌≤◌, ◌^◌, IfOk, OnOk, vec_len};
ghost use Rattle.process_session.specs.Begun.{BeginsWith, TakesFile};

use crate::TAKEN_MAX;
use crate::file::{File, Source, Taken};
use flowfile_record::{Body, Origin};
use std::alloc::{AllocError, Global};

/// The files with which a session begins, and what their attributes count.
#[derive(Drop)]
pub(super) struct Begun {
    pub sources: Vec<Source>,
    pub files: Vec<File>,
    pub counted: u64,
}

pub(super) fn begin(alloc: Global, taken: Vec<Taken>) -> Result<Begun, AllocError>
    requires { vec_len taken ≤ TAKEN_MAX }
    ensures { IfOk result (λ begun. BeginsWith begun taken.items) }
{
    let mut begun = Begun {
        sources: Vec::new(alloc),
        files: Vec::new(alloc),
        counted: 0,
    };
    let mut place = 0;
    for file in taken {
        take_one(&mut begun, place, file)?;
        place += 1;
    }
    Ok(begun)
}

/// One more taken file.
fn take_one(begun: &mut Begun, place: u32, taken: Taken) -> Result<(), AllocError>
    requires { begun.old.counted < 2 ^ 63 }
    ensures { OnOk result (TakesFile begun.old place taken begun.new) }
{
    let Taken {
        attributes,
        uuid,
        size,
        bytes,
    } = taken;
    begun.counted += attributes.size();
    begun.sources.push(Source { uuid, size, bytes })?;
    begun.files.push(File {
        origin: Origin::Taken(place),
        attributes,
        body: Body::Whole { of: place },
        end: None,
        written: false,
        penalised: false,
        routed: None,
    })?;
    Ok(())
}
