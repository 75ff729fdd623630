//! What the rule means.
ghost use Rattle.claimant_book.specs.Kept.{OthersHoldNothing};

/// In every state in which the rule holds, where a slot's word counts no more than the keeper holds, nobody else holds
/// the slot.
pub fn a_count_of_the_keepers_holds_leaves_no_other_hold()
    ensures { OthersHoldNothing }
{}
