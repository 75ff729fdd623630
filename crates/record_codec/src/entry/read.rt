//! Reading the entries of a log.
ghost use Rattle.std.specs.Prelude.{◌≡◌, ◌<◌, ◌||◌, length, IsTrue, is_ok, IsErrOf};
ghost use Rattle.flowfile_record.specs.Reading.{Reads, Gives, Answers, answer, whole, items_at, listed_at, first_at};
ghost use Rattle.record_codec.specs.ActiveFile.{active_file_at, active_front_at};
ghost use Rattle.record_codec.specs.EntryEncoding.{log_limit};
ghost use Rattle.record_codec.specs.EntryReading.{log_number_at, begin_at, count_at, generator_at, session_at, expire_at, swap_out_at, swap_in_at, age_at, entry_at, session_takes_memory, expire_takes_memory, swap_out_takes_memory, takes_memory};

use crate::SECOND_VERSION;
use crate::active_file::read_fields as read_active_fields;
use crate::entry::{ExpireEntry, LogEntry, NO_GENERATOR, SessionEntry, SwapOutEntry};
use crate::version::read_version;
use flowfile_record::fields::{
    FieldError, Unread, read_number, read_numbers, read_u16, read_u32, read_u64,
};
use flowfile_record::{ActiveFile, CodecError, Counted, NUMBER_LIMIT, Sequence};
use std::alloc::Global;

pub(crate) fn read_answer(alloc: Global, kind: u8, bytes: &[u8]) -> Result<LogEntry, CodecError>
    ensures exact { Answers result (answer (length bytes.now) (whole (entry_at kind) bytes.now)) }
    ensures memory { IsErrOf result CodecError.Memory → IsTrue (takes_memory kind bytes.now) }
{
    match read_all(alloc, kind, bytes) {
        Ok(entry) => Ok(entry),
        Err(error) => Err(error.within(bytes)),
    }
}

fn read_all(alloc: Global, kind: u8, bytes: &[u8]) -> Result<LogEntry, FieldError>
    ensures read { Gives (λ entry. entry) result (whole (entry_at kind) bytes.now) }
    ensures memory { IsErrOf result FieldError.Memory → IsTrue (takes_memory kind bytes.now) }
{
    let (entry, rest) = read_of_kind(alloc, kind, bytes)?;
    if !rest.is_empty() {
        return Err(FieldError::Form {
            left: rest.len() as u64,
        });
    }
    Ok(entry)
}

#[tactic(auto, unfolding(crate::specs::EntryReading::entry_at))]
fn read_of_kind(alloc: Global, kind: u8, bytes: &[u8]) -> Result<(LogEntry, &[u8]), FieldError>
    ensures read { Gives (λ x. (x.0, x.1.now)) result (entry_at kind bytes.now) }
    ensures memory { IsErrOf result FieldError.Memory → IsTrue (takes_memory kind bytes.now) }
{
    match kind {
        1 => Ok(read_begin(bytes)?),
        2 => {
            let (session, rest) = read_session(alloc, bytes)?;
            Ok((LogEntry::Session(session), rest))
        }
        3 => {
            let (expire, rest) = read_expire(alloc, bytes)?;
            Ok((LogEntry::Expire(expire), rest))
        }
        4 => {
            let (swap_out, rest) = read_swap_out(alloc, bytes)?;
            Ok((LogEntry::SwapOut(swap_out), rest))
        }
        5 => Ok(read_swap_in(bytes)?),
        7 => Ok(read_age(bytes)?),
        _ => Err(FieldError::Form {
            left: bytes.len() as u64,
        }),
    }
}

#[tactic(auto, unfolding(crate::specs::EntryReading::begin_at))]
fn read_begin(bytes: &[u8]) -> Result<(LogEntry, &[u8]), Unread>
    ensures { Reads (λ x. (x.0, x.1.now)) result (begin_at bytes.now) }
{
    let (version, rest) = read_version(bytes)?;
    let (log, rest) = read_log_number(version, rest)?;
    Ok((LogEntry::Begin { version, log }, rest))
}

// The number of a log of this version.
#[tactic(auto, unfolding(crate::specs::EntryReading::log_number_at))]
fn read_log_number(version: u8, bytes: &[u8]) -> Result<(u64, &[u8]), Unread>
    ensures { Reads (λ x. (x.0, x.1.now)) result (log_number_at version bytes.now) }
{
    let (log, rest) = read_u64(bytes)?;
    if log >= log_limit(version) {
        return Err(Unread {
            left: bytes.len() as u64,
        });
    }
    Ok((log, rest))
}

// The numbers of a version's logs are below it.
fn log_limit(version: u8) -> u64
    ensures { result ≡ log_limit version }
{
    if version == SECOND_VERSION {
        NUMBER_LIMIT + 1
    } else {
        NUMBER_LIMIT
    }
}

#[tactic(auto, unfolding(crate::specs::EntryReading::session_at))]
fn read_session(alloc: Global, bytes: &[u8]) -> Result<(SessionEntry, &[u8]), FieldError>
    ensures read { Gives (λ x. (x.0, x.1.now)) result (session_at bytes.now) }
    ensures memory { IsErrOf result FieldError.Memory → IsTrue (session_takes_memory bytes.now) }
{
    let (processor, rest) = read_u16(bytes)?;
    let (moment, rest) = read_u64(rest)?;
    let (gone, rest) = read_numbers(alloc, rest)?;
    let (placed, rest) = read_placed_list(alloc, rest)?;
    let (next_number, rest) = read_number(rest)?;
    let (next_arrival, rest) = read_number(rest)?;
    let (last_event, rest) = read_number(rest)?;
    let (generator, rest) = read_generator(rest)?;
    let session = SessionEntry {
        processor,
        moment,
        gone,
        placed,
        next_number,
        next_arrival,
        last_event,
        generator,
    };
    Ok((session, rest))
}

#[tactic(auto, unfolding(flowfile_record::specs::Reading::listed_at))]
fn read_placed_list(
    alloc: Global,
    bytes: &[u8],
) -> Result<(Sequence<ActiveFile>, &[u8]), FieldError>
    ensures read { Gives (λ x. (x.0, x.1.now)) result (listed_at active_file_at bytes.now) }
    ensures memory { IsErrOf result FieldError.Memory
        → IsTrue (is_ok (first_at active_front_at bytes.now) || is_ok (first_at active_file_at bytes.now)) }
{
    let (count, rest) = read_u32(bytes)?;
    let (items, rest) = read_placed_items(alloc, count, rest)?;
    Ok((Sequence::from(items), rest))
}

fn read_placed_items(
    alloc: Global,
    count: u32,
    bytes: &[u8],
) -> Result<(Vec<ActiveFile>, &[u8]), FieldError>
    ensures read { Gives (λ x. (x.0.items, x.1.now)) result (items_at active_file_at count bytes.now) }
    ensures memory { IsErrOf result FieldError.Memory
        → (0 < count) × IsTrue (is_ok (active_front_at bytes.now) || is_ok (active_file_at bytes.now)) }
{
    let mut items = Vec::new(alloc);
    let mut rest = bytes;
    for _ in 0..count {
        let (item, after) = read_active_fields(alloc, rest)?;
        items.push(item)?;
        rest = after;
    }
    Ok((items, rest))
}

#[tactic(auto, unfolding(crate::specs::EntryReading::generator_at))]
fn read_generator(bytes: &[u8]) -> Result<(Option<Counted>, &[u8]), Unread>
    ensures { Reads (λ x. (x.0, x.1.now)) result (generator_at bytes.now) }
{
    let (processor, rest) = read_u16(bytes)?;
    let (count, rest) = read_count(processor, rest)?;
    if processor == NO_GENERATOR {
        return Ok((None, rest));
    }
    Ok((Some(Counted { processor, count }), rest))
}

// The count behind the place of a generator, or 0.
#[tactic(auto, unfolding(crate::specs::EntryReading::count_at))]
fn read_count(processor: u16, bytes: &[u8]) -> Result<(u64, &[u8]), Unread>
    ensures { Reads (λ x. (x.0, x.1.now)) result (count_at processor bytes.now) }
{
    let (count, rest) = read_number(bytes)?;
    if processor == NO_GENERATOR && count != 0 {
        return Err(Unread {
            left: bytes.len() as u64,
        });
    }
    Ok((count, rest))
}

#[tactic(auto, unfolding(crate::specs::EntryReading::expire_at))]
fn read_expire(alloc: Global, bytes: &[u8]) -> Result<(ExpireEntry, &[u8]), FieldError>
    ensures read { Gives (λ x. (x.0, x.1.now)) result (expire_at bytes.now) }
    ensures memory { IsErrOf result FieldError.Memory → IsTrue (expire_takes_memory bytes.now) }
{
    let (connection, rest) = read_u16(bytes)?;
    let (moment, rest) = read_u64(rest)?;
    let (numbers, rest) = read_numbers(alloc, rest)?;
    let (last_event, rest) = read_number(rest)?;
    let expire = ExpireEntry {
        connection,
        moment,
        numbers,
        last_event,
    };
    Ok((expire, rest))
}

#[tactic(auto, unfolding(crate::specs::EntryReading::swap_out_at))]
fn read_swap_out(alloc: Global, bytes: &[u8]) -> Result<(SwapOutEntry, &[u8]), FieldError>
    ensures read { Gives (λ x. (x.0, x.1.now)) result (swap_out_at bytes.now) }
    ensures memory { IsErrOf result FieldError.Memory → IsTrue (swap_out_takes_memory bytes.now) }
{
    let (connection, rest) = read_u16(bytes)?;
    let (batch, rest) = read_number(rest)?;
    let (numbers, rest) = read_numbers(alloc, rest)?;
    let swap_out = SwapOutEntry {
        connection,
        batch,
        numbers,
    };
    Ok((swap_out, rest))
}

#[tactic(auto, unfolding(crate::specs::EntryReading::swap_in_at))]
fn read_swap_in(bytes: &[u8]) -> Result<(LogEntry, &[u8]), Unread>
    ensures { Reads (λ x. (x.0, x.1.now)) result (swap_in_at bytes.now) }
{
    let (connection, rest) = read_u16(bytes)?;
    let (batch, rest) = read_number(rest)?;
    Ok((LogEntry::SwapIn { connection, batch }, rest))
}

#[tactic(auto, unfolding(crate::specs::EntryReading::age_at))]
fn read_age(bytes: &[u8]) -> Result<(LogEntry, &[u8]), Unread>
    ensures { Reads (λ x. (x.0, x.1.now)) result (age_at bytes.now) }
{
    let (line, rest) = read_number(bytes)?;
    Ok((LogEntry::Age { line }, rest))
}
