//! Events at the end of some bytes.
ghost use Rattle.std.specs.Prelude.{◌≡◌, ◌+◌, ◌<◌, ◌≤◌, ◌^◌, ◌++◌, length, vec_len, vec_capacity, IsOk, OnOk, OnErr};
ghost use Rattle.prov_event.specs.Encoding.{IsEvent};
ghost use Rattle.prov_event.specs.Encoding as encoding;

use flowfile_record::fields::{put, put_long, put_numbers, put_text, put_u8, put_u64};
use flowfile_record::{DIGEST_SIZE, Event};
use std::alloc::AllocError;

// What an event's encoding has beside its texts' bytes and its lists' items, in bytes: four numbers, the kind, the
// lengths of two texts, the counts of two lists and the digest.
const BESIDE_TEXTS_AND_ITEMS: u64 = 47 + DIGEST_SIZE as u64;

/// How many bytes the encoding of an event has.
#[tactic(auto, using(crate::proofs::Sizes::event_size))]
pub fn event_size(event: &Event) -> u64
    requires { IsEvent event.now }
    ensures size { result ≡ length (encoding.event event.now) }
    ensures bound { result < 2 ^ 60 }
{
    let texts = event.component.as_str().len() as u64 + event.detail.as_str().len() as u64;
    BESIDE_TEXTS_AND_ITEMS + texts + 8 * (event.parents.len() + event.children.len())
}

/// Appends the one encoding of an event. It fails only where there is less room than `event_size` tells, and then the
/// bytes stay.
pub fn write_event(out: &mut Vec<u8>, event: &Event) -> Result<(), AllocError>
    requires { IsEvent event.now }
    ensures ok { OnOk result (out.new.items ≡ out.old.items ++ encoding.event event.now) }
    ensures err { OnErr result (out.new.items ≡ out.old.items) }
    ensures room { vec_len out.old + length (encoding.event event.now) ≤ vec_capacity out.old → IsOk result }
    ensures capacity { vec_capacity out.old ≤ vec_capacity out.new }
{
    out.reserve(event_size(event) as usize)?;
    put_event(out, event);
    Ok(())
}

/// Appends the one encoding of an event where there is room for it. It takes no memory.
#[tactic(auto, unfolding(crate::specs::Encoding::event), using(crate::proofs::Sizes::parts_of_event))]
pub fn put_event(out: &mut Vec<u8>, event: &Event)
    requires event { IsEvent event.now }
    requires room { vec_len out.old + length (encoding.event event.now) ≤ vec_capacity out.old }
    ensures items { out.new.items ≡ out.old.items ++ encoding.event event.now }
    ensures len { vec_len out.new ≡ vec_len out.old + length (encoding.event event.now) }
    ensures capacity { vec_capacity out.old ≤ vec_capacity out.new }
{
    put_u64(out, event.number);
    put_u8(out, event.kind.code());
    put_u64(out, event.moment);
    put_text(out, event.component.as_str());
    put_u64(out, event.file);
    put_numbers(out, event.parents.as_slice());
    put_numbers(out, event.children.as_slice());
    put_long(out, event.detail.as_str());
    put_u64(out, event.size);
    put(out, &event.digest);
}
