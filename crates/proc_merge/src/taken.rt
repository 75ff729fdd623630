//! The files that a session took, as they are looked at.
ghost use Rattle.std.specs.Prelude.{◌≡◌, ◌<◌, ◌≤◌, length, IfOk, OnOk, All};
ghost use Rattle.flowfile_record.specs.Attributes.{encoded_size};
ghost use Rattle.machine_model.specs.MergeContent.{shared_by_all};
ghost use Rattle.process_session.specs.Bench.{bench_attributes};
ghost use Rattle.proc_merge.specs.Taken.{TookSome, files_seen, IsSmall};

use flowfile_record::{ATTRIBUTES_MAX, Attributes};
use process_session::Session;
use std::alloc::AllocError;

/// The attributes of a file.
pub(crate) fn attributes_of(session: &Session, place: u32) -> &Attributes
    requires { place < length session.now.files }
    ensures attributes { result.now ≡ bench_attributes session.now place }
    ensures limits { encoded_size result.now ≤ ATTRIBUTES_MAX }
{
    let Some(attributes) = session.attributes(place) else {
        unreachable!()
    };
    let size = attributes.size();
    prove!(size <= ATTRIBUTES_MAX);
    attributes
}

/// The attributes that all taken files have.
pub(crate) fn shared_by_all(session: &Session) -> Result<Attributes, AllocError>
    requires { TookSome session.now }
    ensures shared { IfOk result (λ shared. shared ≡ shared_by_all (files_seen session.now)) }
    ensures limits { OnOk result (All IsSmall session.now.files) }
{
    let mut shared = attributes_of(session, 0).copy()?;
    for place in 1..session.taken() {
        shared.keep_shared(attributes_of(session, place));
    }
    Ok(shared)
}
