//! How many events there are of each kind.
ghost use Rattle.std.specs.Prelude.{◌≡◌, ℕ, ◌+◌, ◌-◌, ◌≤◌, ◌<◌, ◌^◌, All, length, slice_index, slice_set};
ghost use Rattle.flowfile_record.specs.Events.{code_of};
ghost use Rattle.prov_store.specs.State.{AreCounted};

use flowfile_record::{Event, EventCounts, EventKind};

/// Counts one event more of this kind.
pub fn count(counts: &mut EventCounts, kind: EventKind)
    requires room { slice_index counts.old.counts (code_of kind - 1) + 1 < 2 ^ 64 }
    ensures { counts.new.counts
        ≡ slice_set counts.old.counts (code_of kind - 1) (slice_index counts.old.counts (code_of kind - 1) + 1) }
{
    counts.counts[kind.code() as usize - 1] += 1;
}

/// Counts one event less of this kind, as far as there are such.
pub fn uncount(counts: &mut EventCounts, kind: EventKind)
    requires long { length counts.old.counts ≡ 12 }
    ensures { counts.new.counts
        ≡ slice_set counts.old.counts (code_of kind - 1) (slice_index counts.old.counts (code_of kind - 1) - 1) }
{
    let index = kind.code() as usize - 1;
    counts.counts[index] = counts.counts[index].saturating_sub(1);
}

/// Counts these events, one by one.
pub fn count_all(counts: &mut EventCounts, events: &[Event])
    requires room { All (λ n. n + length events.now < 2 ^ 64) counts.old.counts }
    requires long { length counts.old.counts ≡ 12 }
    ensures counted { AreCounted events.now counts.old.counts counts.new.counts }
    ensures most { (most : ℕ) → All (λ n. n ≤ most) counts.old.counts
        → All (λ n. n ≤ most + length events.now) counts.new.counts }
    ensures long { length counts.new.counts ≡ 12 }
{
    for event in events {
        count(counts, event.kind);
    }
}
