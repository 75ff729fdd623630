//! The shares of a book: each takes and gives holds of its own.
ghost use Rattle.std.specs.Prelude.{◌≡◌, ◌+◌, ◌-◌, ◌<◌, ◌≤◌};
ghost use Rattle.claimant_book.specs.Stages.{live_stage};
ghost use Rattle.claimant_book.specs.Views.{holds_of, seen_by, view_with};
ghost use Rattle.claimant_book.specs.Replies.{IsTake, IsTaken, is_contended_take};

use crate::reply::Take;
use crate::table::Book;
use crate::token::{BookName, Token};
use crate::word::{count_of, generation_of, number_of};
use std::marker::Model;
use std::sync::Wait;

/// A share holds a slot at most so often.
pub const HELD_MAX: u32 = 67_108_864;

/// A share of a book, which one thread works with at a time. Contracts see it as its view.
#[derive(Drop)]
pub struct Share<B: BookName> {
    pub(crate) token: Token<B>,
    /// How often it holds each slot.
    pub(crate) holds: Vec<u32>,
}

impl<B: BookName> Model for Share<B> {
    ghost use Rattle.std.specs.Prelude.{◌≡◌, ◌≤◌, ◌<◌, ℕ, length, slice_index};
    ghost use Rattle.claimant_book.specs.declared.view.View.{View};

    ghost Value = { View };

    ghost use Rattle.claimant_book.specs.Views.{holds_of};
    ghost use Rattle.claimant_book.specs.Stages.{most_held};
    ghost use Rattle.claimant_book.specs.declared.view.Role.TheVariants.{Sharing};

    ghost view = { λ s. s.token };

    ghost invariant = { λ s. (s.token.role ≡ Sharing) × (length s.holds.items ≡ B.table.words)
        × ((slot : ℕ) → slot < B.table.words → (slice_index s.holds.items slot ≡ holds_of s.token slot)
        × (holds_of s.token slot ≤ most_held)) };
}

fn is_contended(take: Take) -> bool
    ensures { result ≡ is_contended_take take }
{
    match take {
        Take::Held | Take::Full | Take::Gone { .. } => false,
        Take::Contended { .. } => true,
    }
}

impl<B: BookName> Book<B> {
    /// Tries once to hold the slot in this generation.
    pub fn try_take(&self, share: &mut Share<B>, slot: u32, generation: u32) -> Take
        requires slot { slot < B.table.words }
        requires seen { (0 < generation) × (live_stage generation ≤ seen_by share.old slot) }
        ensures { IsTake slot generation share.old result share.new }
    {
        let held = share.holds[slot as usize];
        if held == HELD_MAX {
            return Take::Full;
        }
        let seen = self.look(&mut share.token, slot);
        let stage = number_of(seen);
        let later = generation_of(stage);
        let retired = stage % 2 == 0;
        if later > generation || retired {
            return Take::Gone {
                generation: later,
                retired,
            };
        }
        let found = self.add_share(&mut share.token, slot, seen);
        if found != seen {
            return Take::Contended { seen, found };
        }
        share.holds[slot as usize] = held + 1;
        Take::Held
    }

    /// Tries until the word that was looked at is still there.
    pub fn take<R: Wait>(&self, rt: &R, share: &mut Share<B>, slot: u32, generation: u32) -> Take
        requires slot { slot < B.table.words }
        requires seen { (0 < generation) × (live_stage generation ≤ seen_by share.old slot) }
        ensures { IsTaken slot generation share.old result share.new }
    {
        for _ in rt.forever() {
            let answer = self.try_take(share, slot, generation);
            let again = is_contended(answer);
            if !again {
                return answer;
            }
        }
        unreachable!()
    }

    /// One hold less.
    pub fn give(&self, share: &mut Share<B>, slot: u32)
        requires slot { slot < B.table.words }
        requires held { 0 < holds_of share.old slot }
        ensures { share.new ≡ view_with share.old slot (holds_of share.old slot - 1) (seen_by share.old slot) }
    {
        self.drop_hold(&mut share.token, slot);
        share.holds[slot as usize] -= 1;
    }

    /// How often the share holds the slot.
    pub fn held(&self, share: &Share<B>, slot: u32) -> u32
        requires { slot < B.table.words }
        ensures { result ≡ holds_of share.now slot }
    {
        share.holds[slot as usize]
    }
}
