//! The contents of taken files, joined.
ghost use Rattle.std.specs.Prelude.{◌≡◌, IfOk};
ghost use Rattle.std.specs.Option.{option_map};
ghost use Rattle.proc_merge.specs.Taken.{TookSome, bytes_read};

use process_session::Session;
use std::alloc::{AllocError, Global};

/// The contents of the taken files, joined in their order, where they were read.
pub(crate) fn joined_content(
    alloc: Global,
    session: &Session,
) -> Result<Option<Vec<u8>>, AllocError>
    requires { TookSome session.now }
    ensures { IfOk result (λ content. option_map (λ content. content.items) content
        ≡ bytes_read session.now.sources) }
{
    let mut joined = Vec::with_capacity(alloc, joined_size(session))?;
    for place in 0..session.taken() {
        let Ok(content) = session.content(place) else {
            return Ok(None);
        };
        joined.extend_from_slice(content)?;
    }
    Ok(Some(joined))
}

/// How many bytes they have together, so that room is made once. A wrong number would only take more memory or time.
fn joined_size(session: &Session) -> usize {
    let mut size = 0usize;
    for place in 0..session.taken() {
        if let Ok(content) = session.content(place) {
            size = size.saturating_add(content.len());
        }
    }
    size
}
