//! The versions of the format, with which a log and a snapshot begin.
ghost use Rattle.std.specs.Prelude.{◌≡◌};
ghost use Rattle.flowfile_record.specs.Reading.{Reads};
ghost use Rattle.record_codec.specs.Version.{version_at};

use crate::{FIRST_VERSION, SECOND_VERSION};
use flowfile_record::fields::{Unread, read_u8};

#[tactic(auto, unfolding(crate::specs::Version::version_at))]
pub(crate) fn read_version(bytes: &[u8]) -> Result<(u8, &[u8]), Unread>
    ensures { Reads (λ x. (x.0, x.1.now)) result (version_at bytes.now) }
{
    let (version, rest) = read_u8(bytes)?;
    if version != FIRST_VERSION && version != SECOND_VERSION {
        return Err(Unread {
            left: bytes.len() as u64,
        });
    }
    Ok((version, rest))
}
