//! What a block of a snapshot says.
ghost use Rattle.std.specs.Prelude.{◌≡◌, ◌≤◌, ◌⊎◌, ◌==◌, ◌&&◌, nat_lt, slice_index, true, false, length, is_ok, IsTrue, IfOk, OnOk, IsErrOf, Some, None};
ghost use Rattle.flowfile_record.specs.Reading.{whole};
ghost use Rattle.flowfile_record.specs.Stored.{Kept, kept_of};
ghost use Rattle.record_codec.specs.ActiveFile.{active_file_at, active_front_at};
ghost use Rattle.record_codec.specs.Snapshot.{kind_code};
ghost use Rattle.record_codec.specs.declared.snapshot.SnapshotKind.TheVariants as kinds;
ghost use Rattle.record_codec.specs.SnapshotReading.{batch_at, ending_at};
ghost use Rattle.record_codec.specs.StoreHeadReading.{head_at};
ghost use Rattle.checkpoint_store.specs.Memory.{PartTakes, head_front_at};
ghost use Rattle.checkpoint_store.specs.Reading.{More, Last, are_distinct_names, has_counters, has_counts, head_next, file_next, batch_next, end_next, first_block_kept, next_in};
ghost use Rattle.checkpoint_store.specs.SoFar.{IsSoFar, next_is};

use crate::so_far::{SoFar, Unfit};
use flowfile_record::Text;
use record_codec::{
    Head, PAYLOAD_MAX, SECOND_VERSION, SnapshotKind, read_active_file, read_head,
    read_snapshot_end, read_swap_batch,
};
use std::alloc::Global;

/// What the first block says, which is a Head of this version.
pub fn first_part(alloc: Global, version: u8, kind: u8, payload: &[u8]) -> Result<SoFar, Unfit>
    requires size { length payload.now ≤ PAYLOAD_MAX }
    ensures found { IfOk result (λ so_far. first_block_kept version kind payload.now ≡ Some (kept_of so_far.state)) }
    ensures so_far { IfOk result (λ so_far. IsSoFar so_far × (so_far.version ≡ version)) }
    ensures unfit { IsErrOf result Unfit.Form → first_block_kept version kind payload.now ≡ None }
    ensures memory { IsErrOf result Unfit.Memory
        → (kind ≡ kind_code kinds.Head) × IsTrue (is_ok (head_front_at version payload.now)) }
{
    match SnapshotKind::from_code(kind) {
        Some(SnapshotKind::Head) => take_head(alloc, version, payload),
        Some(SnapshotKind::File) => Err(Unfit::Form),
        Some(SnapshotKind::Batch) => Err(Unfit::Form),
        Some(SnapshotKind::End) => Err(Unfit::Form),
        None => Err(Unfit::Form),
    }
}

#[tactic(auto, using(crate::proofs::Untaken::lists_take))]
fn take_head(alloc: Global, version: u8, payload: &[u8]) -> Result<SoFar, Unfit>
    requires size { length payload.now ≤ PAYLOAD_MAX }
    ensures found { IfOk result
        (λ so_far. head_next version (whole head_at payload.now) ≡ Some (kept_of so_far.state)) }
    ensures so_far { IfOk result (λ so_far. IsSoFar so_far × (so_far.version ≡ version)) }
    ensures unfit { IsErrOf result Unfit.Form → head_next version (whole head_at payload.now) ≡ None }
    ensures memory { IsErrOf result Unfit.Memory → IsTrue (is_ok (head_front_at version payload.now)) }
{
    // Another version is told before memory is taken for the lists.
    if !is_of_version(version, payload) {
        return Err(Unfit::Form);
    }
    let head = read_head(alloc, payload)?;
    if !is_sound(&head) {
        return Err(Unfit::Form);
    }
    Ok(SoFar::new(alloc, head))
}

// Whether a Head is of this version, which its first byte tells.
fn is_of_version(version: u8, payload: &[u8]) -> bool
    ensures { result ≡ (nat_lt 0 (length payload.now) && (slice_index payload.now 0 == version)) }
{
    !payload.is_empty() && payload[0] == version
}

// Whether no connection stands twice, the counters are at least 1, and there is a count for each processor.
fn is_sound(head: &Head) -> bool
    ensures { result ≡ (are_distinct_names head.now.connections && has_counters head.now && has_counts head.now) }
{
    are_distinct(head.connections.as_slice()) && has_counters(head) && has_counts(head)
}

// Whether none of these stands twice.
fn are_distinct(names: &[Text]) -> bool
    ensures { result ≡ are_distinct_names names.now }
{
    let mut rest = names;
    while let Some((name, others)) = rest.split_first() {
        if others.contains(name) {
            return false;
        }
        rest = others;
    }
    true
}

// Whether the next number, the next arrival and the next batch are at least 1.
fn has_counters(head: &Head) -> bool
    ensures { result ≡ has_counters head.now }
{
    0 < head.next_number && 0 < head.next_arrival && 0 < head.next_batch
}

// Whether there is a count for each processor, in the second version.
fn has_counts(head: &Head) -> bool
    ensures { result ≡ has_counts head.now }
{
    head.version != SECOND_VERSION || head.counts.len() == head.processors.len()
}

impl SoFar {
    /// A later block joins those before it. Answers whether it is the End.
    pub fn take_part(&mut self, alloc: Global, kind: u8, payload: &[u8]) -> Result<bool, Unfit>
        requires { IsSoFar self.old }
        ensures next { IfOk result (λ ended. next_in (kept_of self.old.state) kind payload.now
            ≡ Some (next_is ended (kept_of self.new.state))) }
        ensures ended { IfOk result (λ ended. IsTrue ended → kept_of self.new.state ≡ kept_of self.old.state) }
        ensures so_far { OnOk result (IsSoFar self.new) }
        ensures version { self.new.version ≡ self.old.version }
        ensures unfit { IsErrOf result Unfit.Form → next_in (kept_of self.old.state) kind payload.now ≡ None }
        ensures memory { IsErrOf result Unfit.Memory → PartTakes (kept_of self.old.state) kind payload.now }
    {
        match SnapshotKind::from_code(kind) {
            Some(SnapshotKind::File) => self.take_file(alloc, payload),
            Some(SnapshotKind::Batch) => self.take_batch(payload),
            Some(SnapshotKind::End) => self.take_end(payload),
            Some(SnapshotKind::Head) => Err(Unfit::Form),
            None => Err(Unfit::Form),
        }
    }

    fn take_file(&mut self, alloc: Global, payload: &[u8]) -> Result<bool, Unfit>
        requires { IsSoFar self.old }
        ensures next { IfOk result (λ ended. (ended ≡ false)
            × (file_next (kept_of self.old.state) (whole active_file_at payload.now)
            ≡ Some (More (kept_of self.new.state)))) }
        ensures so_far { OnOk result (IsSoFar self.new) }
        ensures version { self.new.version ≡ self.old.version }
        ensures unfit { IsErrOf result Unfit.Form
            → file_next (kept_of self.old.state) (whole active_file_at payload.now) ≡ None }
        ensures memory { IsErrOf result Unfit.Memory → IsTrue (is_ok (active_front_at payload.now))
            ⊎ ((now : Kept)
            × (file_next (kept_of self.old.state) (whole active_file_at payload.now) ≡ Some (More now))) }
    {
        let active = read_active_file(alloc, payload)?;
        self.add_file(active)?;
        Ok(false)
    }

    fn take_batch(&mut self, payload: &[u8]) -> Result<bool, Unfit>
        requires { IsSoFar self.old }
        ensures next { IfOk result (λ ended. (ended ≡ false)
            × (batch_next (kept_of self.old.state) (whole batch_at payload.now)
            ≡ Some (More (kept_of self.new.state)))) }
        ensures so_far { OnOk result (IsSoFar self.new) }
        ensures version { self.new.version ≡ self.old.version }
        ensures unfit { IsErrOf result Unfit.Form
            → batch_next (kept_of self.old.state) (whole batch_at payload.now) ≡ None }
        ensures memory { IsErrOf result Unfit.Memory
            → (now : Kept) × (batch_next (kept_of self.old.state) (whole batch_at payload.now) ≡ Some (More now)) }
    {
        let batch = read_swap_batch(payload)?;
        self.add_batch(batch)?;
        Ok(false)
    }

    fn take_end(&self, payload: &[u8]) -> Result<bool, Unfit>
        requires { IsSoFar self.now }
        ensures next { IfOk result (λ ended. (ended ≡ true)
            × (end_next (kept_of self.now.state) (whole ending_at payload.now) ≡ Some Last)) }
        ensures unfit { IsErrOf result Unfit.Form
            → end_next (kept_of self.now.state) (whole ending_at payload.now) ≡ None }
        ensures kinds { IsErrOf result Unfit.Memory → ⊥ }
    {
        let blocks = read_snapshot_end(payload)?;
        if blocks != self.blocks() {
            return Err(Unfit::Form);
        }
        Ok(true)
    }
}
