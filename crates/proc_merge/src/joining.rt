//! The joined file.
ghost use Rattle.std.specs.Prelude.{◌≡◌, ◌<◌, ◌≤◌, All, IfOk, OnOk, length};
ghost use Rattle.machine_model.specs.MergeContent.{shared_by_all};
ghost use Rattle.process_session.specs.Bench.{made_size};
ghost use Rattle.proc_merge.specs.Taken.{TookSome, files_seen, bytes_read, IsSmall};
ghost use Rattle.proc_merge.specs.Joining.{IsJoined, file_joined, with_joined_child};

use crate::MERGED;
use crate::contents::joined_content;
use crate::describing::{describe, made_size};
use crate::taken::shared_by_all;
use flowfile_record::ATTRIBUTES_MAX;
use machine_model::MergeStrategy;
use process_session::Session;
use processor_api::or_no_memory;
use std::alloc::{AllocError, Global};

/// Joins the taken files to one more, which goes to merged, and says whether a limit let it. Where it didn't, nothing
/// is left of the joined file.
pub(crate) fn join(
    alloc: Global,
    strategy: MergeStrategy,
    session: &mut Session,
) -> Result<bool, AllocError>
    requires took { TookSome session.old }
    requires there { MERGED < session.old.relationships }
    ensures { IfOk result (λ done. IsJoined session.old session.new
        (file_joined strategy (files_seen session.old) (bytes_read session.old.sources)) done) }
{
    let shared = shared_by_all(session)?;
    if made_size(&shared) > ATTRIBUTES_MAX {
        return Ok(false);
    }
    let Some(content) = joined_content(alloc, session)? else {
        return Ok(false);
    };
    let file = create(alloc, session)?;
    if !describe(alloc, strategy, session, file, &shared)? {
        session.remove(file).unwrap();
        return Ok(false);
    }
    session.write(file, content).unwrap();
    session.transfer(file, MERGED).unwrap();
    Ok(true)
}

/// A child of all taken files, with the attributes that they share.
fn create(alloc: Global, session: &mut Session) -> Result<u32, AllocError>
    requires took { TookSome session.old }
    requires small { All IsSmall session.old.files }
    requires may { made_size (shared_by_all (files_seen session.old)) ≤ ATTRIBUTES_MAX }
    ensures place { IfOk result (λ place. place ≡ length session.old.files) }
    ensures after { OnOk result (session.new ≡ with_joined_child session.old (shared_by_all (files_seen session.old))) }
{
    let parents = (0..session.taken()).collect::<Vec<u32>>(alloc)?;
    or_no_memory(session.create_joined(&parents))
}
