//! How many bytes the encoding of an entry has.
ghost use Rattle.std.specs.Prelude.{◌≡◌, ◌<◌, ◌^◌, length};
ghost use Rattle.flowfile_record.specs.Encoding.{AreListed, listed, numbers as numbers_encoding};
ghost use Rattle.record_codec.specs.ActiveFile.{active_file, IsActiveFile};
ghost use Rattle.record_codec.specs.EntryEncoding as encoding;
ghost use Rattle.record_codec.specs.EntryEncoding.{IsEntry, IsSession, IsExpire, IsSwapOut};

use crate::active_file::active_file_size;
use crate::entry::{ExpireEntry, LogEntry, SessionEntry, SwapOutEntry};
use flowfile_record::ActiveFile;

// The place of a generator and its count, in bytes.
pub(crate) const GENERATOR_SIZE: u64 = 10;

// Three counters and a generator, in bytes.
pub(crate) const COUNTERS_SIZE: u64 = 24 + GENERATOR_SIZE;

/// How many bytes the encoding of an entry has.
#[tactic(auto, unfolding(crate::specs::EntryEncoding::entry))]
pub(crate) fn size_of(entry: &LogEntry) -> u64
    requires { IsEntry entry.now }
    ensures { result ≡ length (encoding.entry entry.now) }
{
    match entry {
        LogEntry::Begin { .. } => 9,
        LogEntry::Session(session) => session_size(session),
        LogEntry::Expire(expire) => expire_size(expire),
        LogEntry::SwapOut(swap_out) => swap_out_size(swap_out),
        LogEntry::SwapIn { .. } => 10,
        LogEntry::Age { .. } => 8,
    }
}

#[tactic(auto, using(crate::proofs::Sizes::session_size, flowfile_record::proofs::Sizes::numbers_size))]
fn session_size(session: &SessionEntry) -> u64
    requires { IsSession session.now }
    ensures { result ≡ length (encoding.session session.now) }
{
    10 + COUNTERS_SIZE
        + numbers_size(session.gone.as_slice())
        + placed_size(session.placed.as_slice())
}

#[tactic(auto, using(crate::proofs::Sizes::expire_size))]
fn expire_size(expire: &ExpireEntry) -> u64
    requires { IsExpire expire.now }
    ensures { result ≡ length (encoding.expire expire.now) }
{
    18 + numbers_size(expire.numbers.as_slice())
}

#[tactic(auto, using(crate::proofs::Sizes::swap_out_size))]
fn swap_out_size(swap_out: &SwapOutEntry) -> u64
    requires { IsSwapOut swap_out.now }
    ensures { result ≡ length (encoding.swap_out swap_out.now) }
{
    10 + numbers_size(swap_out.numbers.as_slice())
}

#[tactic(auto, using(flowfile_record::proofs::Sizes::numbers_size))]
fn numbers_size(numbers: &[u64]) -> u64
    requires { length numbers.now < 2 ^ 32 }
    ensures size { result ≡ length (numbers_encoding numbers.now) }
    ensures bound { result < 2 ^ 36 }
{
    4 + 8 * numbers.len() as u64
}

fn placed_size(placed: &[ActiveFile]) -> u64
    requires { AreListed IsActiveFile placed.now }
    ensures size { result ≡ length (listed active_file placed.now) }
    ensures bound { result < 2 ^ 60 }
{
    let mut size = 4;
    for one in placed {
        size += active_file_size(&one.file);
    }
    size
}
