//! What was written last to a file of contents, kept for its first reading.
use disk_trait::{FileKind, FileName};
use std::alloc::Global;

/// The most bytes that are kept.
const MOST: usize = 65_536;

/// The bytes of one write. Mostly the content that was stored last is the next one to be read.
#[derive(Drop)]
pub(crate) struct Written {
    name: FileName,
    at: u64,
    bytes: Vec<u8>,
}

impl Written {
    /// A copy of what was written, where it is a content of few bytes and there is memory for it.
    pub(crate) fn copy(alloc: Global, name: FileName, at: u64, bytes: &[u8]) -> Option<Written> {
        if !is_content(name) || bytes.len() > MOST {
            return None;
        }
        let bytes = Vec::from_slice(alloc, bytes).ok()?;
        Some(Written { name, at, bytes })
    }
}

pub(crate) fn is_content(name: FileName) -> bool {
    name.kind == FileKind::Claim
}

/// Fills `into` where exactly that was written last, and wasn't read since: false where it has to be read. A content is
/// read twice before anything is done with it, and compared; so the second reading has to ask the system.
pub(crate) fn give_once(
    written: &mut Option<Written>,
    name: FileName,
    at: u64,
    into: &mut [u8],
) -> bool {
    match written.take() {
        Some(last) if last.name == name && last.at == at && last.bytes.len() == into.len() => {
            into.copy_from_slice(last.bytes.as_slice());
            true
        }
        other => {
            *written = other;
            false
        }
    }
}
