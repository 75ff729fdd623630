//! The rule of the book's table, and the names of its steps, for the proofs alone.
use crate::view::View;
use atomic_table::{Join, Play, Split, TableRule};

pub struct Counting;

impl TableRule<u64, View, u32> for Counting {
    ghost use Rattle.claimant_book.specs.Kept.{IsBookKept};
    ghost use Rattle.claimant_book.specs.Views.{first_keeper};

    ghost holds = { IsBookKept };

    ghost first = { λ _. first_keeper };
}

pub struct Look;

impl Play<u64, View> for Look {
    ghost use Rattle.claimant_book.specs.Steps.{looks};

    ghost then = { looks };
}

pub struct TakeHold;

impl Play<u64, View> for TakeHold {
    ghost use Rattle.claimant_book.specs.Steps.{takes};

    ghost then = { takes };
}

pub struct GiveHold;

impl Play<u64, View> for GiveHold {
    ghost use Rattle.claimant_book.specs.Steps.{gives};

    ghost then = { gives };
}

pub struct AddHold;

impl Play<u64, View> for AddHold {
    ghost use Rattle.claimant_book.specs.Steps.{adds};

    ghost then = { adds };
}

pub struct BeginSlot;

impl Play<u64, View> for BeginSlot {
    ghost use Rattle.claimant_book.specs.Steps.{begins};

    ghost then = { begins };
}

pub struct RetireSlot;

impl Play<u64, View> for RetireSlot {
    ghost use Rattle.claimant_book.specs.Steps.{retires};

    ghost then = { retires };
}

/// A share of the keeper's.
pub struct Shares;

impl Split<View> for Shares {
    ghost use Rattle.std.specs.Prelude.{◌+◌};
    ghost use Rattle.claimant_book.specs.Views.{counting_out, share_of};

    ghost left = { λ v. counting_out v (v.out + 1) };

    ghost right = { share_of };
}

/// A share is the keeper's again.
impl Join<View> for Shares {
    ghost use Rattle.std.specs.Prelude.{◌-◌};
    ghost use Rattle.claimant_book.specs.Views.{counting_out, joined, spent_view};

    ghost both = { λ v w. counting_out (joined v w) (v.out - 1) };

    ghost spent = { spent_view };
}

/// A note of what a token has seen, which another hears.
pub struct Notes;

impl Split<View> for Notes {
    ghost use Rattle.claimant_book.specs.Views.{note_of};

    ghost left = { λ v. v };

    ghost right = { note_of };
}

impl Join<View> for Notes {
    ghost use Rattle.claimant_book.specs.Views.{joined, spent_view};

    ghost both = { joined };

    ghost spent = { spent_view };
}
