//! What follows of slots where a content was appended, or a count changed, and of references to ranges.
ghost use Rattle.std.specs.Prelude.{◌≡◌, ℕ, ◌<◌, ◌≤◌, ◌-◌, ◌^◌, List};
ghost use Rattle.disk_trait.specs.Files.{Files};
ghost use Rattle.flowfile_record.specs.Ranges.{HaveRanges};
ghost use Rattle.flowfile_record.specs.declared.content.ContentRef.{ContentRef as TheRef};
ghost use Rattle.content_repo.specs.Append.{IsAppended};
ghost use Rattle.content_repo.specs.Claims.{HasSizes, content_in};
ghost use Rattle.content_repo.specs.Slots.{count_of, size_of, end_of, slot_with_count};
ghost use Rattle.content_repo.specs.declared.slot.Slot.{Slot as TheSlot};

use crate::{HELD_MAX, LIVE_MAX, OPEN_SIZE};

/// The limits of claims as numbers.
pub fn limits_of_claims()
    ensures open { OPEN_SIZE ≡ 2 ^ 20 }
    ensures held { HELD_MAX ≡ 2 ^ 26 - 1 }
    ensures live { LIVE_MAX ≡ 2 ^ 20 }
{}

/// A reference to a content that was appended is held, and the content ends within its claim.
pub fn appended_contents_are_held()
    ensures held { (bytes digest : List ℕ) (old new : List TheSlot) (at : TheRef) → IsAppended bytes digest old new at
        → 0 < count_of new at.slot }
    ensures within { (bytes digest : List ℕ) (old new : List TheSlot) (at : TheRef) → IsAppended bytes digest old new at
        → end_of at ≤ size_of new at.slot }
{}

/// Another count of references changes no size.
pub fn counts_leave_the_sizes()
    ensures { (slots : List TheSlot) (k count : ℕ) (files : Files) → 0 < count_of slots k → HasSizes slots files
        → HasSizes (slot_with_count slots k count) files }
{}

/// In any files a reference to a range of a content stands for that range of its bytes.
pub fn contents_have_ranges()
    ensures { (files : Files) → HaveRanges (content_in files) }
{}
