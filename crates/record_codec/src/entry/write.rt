//! Writing the entries of a log.
ghost use Rattle.std.specs.Prelude.{◌≡◌, ◌+◌, ◌≤◌, ◌++◌, length, vec_len, vec_capacity};
ghost use Rattle.flowfile_record.specs.Encoding.{AreListed, listed};
ghost use Rattle.record_codec.specs.ActiveFile.{active_file, IsActiveFile};
ghost use Rattle.record_codec.specs.EntryEncoding as encoding;
ghost use Rattle.record_codec.specs.EntryEncoding.{IsEntry, IsSession, IsExpire, IsSwapOut};

use crate::active_file::put_active_file;
use crate::entry::size::{COUNTERS_SIZE, GENERATOR_SIZE};
use crate::entry::{ExpireEntry, LogEntry, NO_GENERATOR, SessionEntry, SwapOutEntry};
use flowfile_record::fields::{put_numbers, put_u8, put_u16, put_u32, put_u64};
use flowfile_record::{ActiveFile, Counted};

#[tactic(auto, unfolding(crate::specs::EntryEncoding::entry))]
pub(crate) fn put_entry(out: &mut Vec<u8>, entry: &LogEntry)
    requires entry { IsEntry entry.now }
    requires room { vec_len out.old + length (encoding.entry entry.now) ≤ vec_capacity out.old }
    ensures items { out.new.items ≡ out.old.items ++ encoding.entry entry.now }
    ensures capacity { vec_capacity out.old ≤ vec_capacity out.new }
{
    match entry {
        LogEntry::Begin { version, log } => {
            put_u8(out, *version);
            put_u64(out, *log);
        }
        LogEntry::Session(session) => put_session(out, session),
        LogEntry::Expire(expire) => put_expire(out, expire),
        LogEntry::SwapOut(swap_out) => put_swap_out(out, swap_out),
        LogEntry::SwapIn { connection, batch } => {
            put_u16(out, *connection);
            put_u64(out, *batch);
        }
        LogEntry::Age { line } => put_u64(out, *line),
    }
}

#[tactic(auto, unfolding(crate::specs::EntryEncoding::session), using(crate::proofs::Sizes::session_size))]
fn put_session(out: &mut Vec<u8>, session: &SessionEntry)
    requires session { IsSession session.now }
    requires room { vec_len out.old + length (encoding.session session.now) ≤ vec_capacity out.old }
    ensures items { out.new.items ≡ out.old.items ++ encoding.session session.now }
    ensures capacity { vec_capacity out.old ≤ vec_capacity out.new }
{
    put_u16(out, session.processor);
    put_u64(out, session.moment);
    put_numbers(out, session.gone.as_slice());
    put_placed(out, session.placed.as_slice());
    put_counters(out, session);
}

#[tactic(auto, unfolding(crate::specs::EntryEncoding::counters))]
fn put_counters(out: &mut Vec<u8>, session: &SessionEntry)
    requires { vec_len out.old + COUNTERS_SIZE ≤ vec_capacity out.old }
    ensures items { out.new.items ≡ out.old.items ++ encoding.counters session.now }
    ensures capacity { vec_capacity out.old ≤ vec_capacity out.new }
{
    put_u64(out, session.next_number);
    put_u64(out, session.next_arrival);
    put_u64(out, session.last_event);
    put_generator(out, session.generator);
}

fn put_placed(out: &mut Vec<u8>, placed: &[ActiveFile])
    requires placed { AreListed IsActiveFile placed.now }
    requires room { vec_len out.old + length (listed active_file placed.now) ≤ vec_capacity out.old }
    ensures items { out.new.items ≡ out.old.items ++ listed active_file placed.now }
    ensures len { vec_len out.new ≡ vec_len out.old + length (listed active_file placed.now) }
    ensures capacity { vec_capacity out.old ≤ vec_capacity out.new }
{
    put_u32(out, placed.len() as u32);
    for one in placed {
        put_active_file(out, one.connection, &one.file);
    }
}

#[tactic(auto, unfolding(crate::specs::EntryEncoding::generator))]
fn put_generator(out: &mut Vec<u8>, generator: Option<Counted>)
    requires { vec_len out.old + GENERATOR_SIZE ≤ vec_capacity out.old }
    ensures items { out.new.items ≡ out.old.items ++ encoding.generator generator }
    ensures capacity { vec_capacity out.old ≤ vec_capacity out.new }
{
    match generator {
        None => {
            put_u16(out, NO_GENERATOR);
            put_u64(out, 0);
        }
        Some(generator) => {
            put_u16(out, generator.processor);
            put_u64(out, generator.count);
        }
    }
}

#[tactic(auto, unfolding(crate::specs::EntryEncoding::expire), using(crate::proofs::Sizes::expire_size))]
fn put_expire(out: &mut Vec<u8>, expire: &ExpireEntry)
    requires expire { IsExpire expire.now }
    requires room { vec_len out.old + length (encoding.expire expire.now) ≤ vec_capacity out.old }
    ensures items { out.new.items ≡ out.old.items ++ encoding.expire expire.now }
    ensures capacity { vec_capacity out.old ≤ vec_capacity out.new }
{
    put_u16(out, expire.connection);
    put_u64(out, expire.moment);
    put_numbers(out, expire.numbers.as_slice());
    put_u64(out, expire.last_event);
}

#[tactic(auto, unfolding(crate::specs::EntryEncoding::swap_out), using(crate::proofs::Sizes::swap_out_size))]
fn put_swap_out(out: &mut Vec<u8>, swap_out: &SwapOutEntry)
    requires swap_out { IsSwapOut swap_out.now }
    requires room { vec_len out.old + length (encoding.swap_out swap_out.now) ≤ vec_capacity out.old }
    ensures items { out.new.items ≡ out.old.items ++ encoding.swap_out swap_out.now }
    ensures capacity { vec_capacity out.old ≤ vec_capacity out.new }
{
    put_u16(out, swap_out.connection);
    put_u64(out, swap_out.batch);
    put_numbers(out, swap_out.numbers.as_slice());
}
