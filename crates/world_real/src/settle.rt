//! Files that may still be written.
use crate::open_file::Look;
use std::fs::Metadata;
use std::os::unix::fs::MetadataExt;
use std::rt::Clock;
use std::time::{Duration, SystemTime};

/// The milliseconds for which nobody has to have written to a file before it is taken.
const SETTLE: u64 = 200;

/// How long a file has to be left alone from now on, where it was written to lately; `None` where it may be taken.
///
/// A write sets two times to the same moment, that of the last write and that of the last change. A rename sets the
/// second one alone, so what is handed in by one doesn't wait. Neither does a file from the future, by the system's
/// clock, or any file where that gives no time: what can't be told must not keep a file back.
pub(crate) fn time_to_settle<R: Clock>(rt: &R, found: &Metadata) -> Option<Duration> {
    if (found.mtime(), found.mtime_nsec()) != (found.ctime(), found.ctime_nsec()) {
        return None;
    }
    let written = found.modified().ok()?;
    let age = SystemTime::now(rt).ok()?.duration_since(written).ok()?;
    let rest = Duration::from_millis(SETTLE).saturating_sub(age);
    if rest > Duration::ZERO {
        Some(rest)
    } else {
        None
    }
}

/// Whether a file may be taken that was waited for: nobody wrote to it since the look before, or not lately.
pub(crate) fn is_settled<R: Clock>(rt: &R, before: &Look, found: &Metadata) -> bool {
    Look::at(found) == *before || time_to_settle(rt, found).is_none()
}
