//! The keeper of a book: it begins slots, retires them, and gives shares out.
ghost use Rattle.std.specs.Prelude.{◌≡◌, ℕ, ◌+◌, ◌-◌, ◌/◌, ◌%◌, ◌<◌, ◌≤◌};
ghost use Rattle.claimant_book.specs.Stages.{IsLiveStage, final_stage, most_held, word_count};
ghost use Rattle.claimant_book.specs.Views.{holds_of, seen_by, view_with, looked};
ghost use Rattle.claimant_book.specs.Replies.{IsRetire, IsStageNumber};

use crate::reply::{Retire, Stage};
use crate::table::Book;
use crate::token::{BookName, Token};
use crate::word::{base_word, count_of, stage_of};
use std::marker::Model;

/// The one keeper of a book. Contracts see it as its view.
#[derive(Drop)]
pub struct Keeper<B: BookName> {
    pub(crate) token: Token<B>,
    /// The stage of each slot.
    pub(crate) stages: Vec<u32>,
    /// How many shares are out.
    pub(crate) out: u32,
}

impl<B: BookName> Model for Keeper<B> {
    ghost use Rattle.std.specs.Prelude.{◌≡◌, ◌≤◌, ◌<◌, ℕ, length, slice_index};
    ghost use Rattle.claimant_book.specs.declared.view.View.{View};

    ghost Value = { View };

    ghost use Rattle.claimant_book.specs.Views.{seen_by};
    ghost use Rattle.claimant_book.specs.Stages.{final_stage};
    ghost use Rattle.claimant_book.specs.declared.view.Role.TheVariants.{Keeping};

    ghost view = { λ k. k.token };

    ghost invariant = { λ k. (k.token.role ≡ Keeping) × (k.token.out ≡ k.out) × (k.out ≤ 32)
        × (length k.stages.items ≡ B.table.words)
        × ((slot : ℕ) → slot < B.table.words → (slice_index k.stages.items slot ≡ seen_by k.token slot)
        × (seen_by k.token slot ≤ final_stage)) };
}

impl<B: BookName> Book<B> {
    /// One hold more of the keeper's.
    pub fn more(&self, keeper: &mut Keeper<B>, slot: u32)
        requires slot { slot < B.table.words }
        requires live { IsLiveStage (seen_by keeper.old slot) }
        requires room { holds_of keeper.old slot < most_held }
        ensures { keeper.new ≡ view_with keeper.old slot (holds_of keeper.old slot + 1) (seen_by keeper.old slot) }
    {
        self.add_base(&mut keeper.token, slot);
    }

    /// One hold less of the keeper's, beside the base hold.
    pub fn less(&self, keeper: &mut Keeper<B>, slot: u32)
        requires slot { slot < B.table.words }
        requires held { 1 < holds_of keeper.old slot }
        ensures { keeper.new ≡ view_with keeper.old slot (holds_of keeper.old slot - 1) (seen_by keeper.old slot) }
    {
        self.drop_hold(&mut keeper.token, slot);
    }

    /// Begins the slot's next generation with the base hold, and answers it.
    pub fn begin(&self, keeper: &mut Keeper<B>, slot: u32) -> u32
        requires slot { slot < B.table.words }
        requires idle { (seen_by keeper.old slot % 2 ≡ 0) × (seen_by keeper.old slot < final_stage) }
        ensures generation { result ≡ seen_by keeper.old slot / 2 + 1 }
        ensures begun { keeper.new ≡ view_with keeper.old slot 1 (seen_by keeper.old slot + 1) }
    {
        self.step_live(&mut keeper.token, slot);
        let stage = keeper.stages[slot as usize];
        keeper.stages[slot as usize] = stage + 1;
        stage / 2 + 1
    }

    /// Retires the slot if nobody but the keeper holds it.
    pub fn retire(&self, keeper: &mut Keeper<B>, slot: u32) -> Retire
        requires slot { slot < B.table.words }
        requires live { IsLiveStage (seen_by keeper.old slot) }
        requires base { holds_of keeper.old slot ≡ 1 }
        ensures { IsRetire slot keeper.old result keeper.new }
    {
        let stage = keeper.stages[slot as usize];
        let word = self.step_retired(&mut keeper.token, slot, stage);
        if word == base_word(stage) {
            keeper.stages[slot as usize] = stage + 1;
            return Retire::Retired;
        }
        Retire::Claimed {
            others: count_of(word) - 1,
        }
    }

    /// The stage of a slot.
    pub fn stage(&self, keeper: &Keeper<B>, slot: u32) -> Stage
        requires { slot < B.table.words }
        ensures { IsStageNumber result (seen_by keeper.now slot) }
    {
        stage_of(keeper.stages[slot as usize])
    }

    /// How many holds a look finds. With no share out they are the keeper's own.
    pub fn count(&self, keeper: &mut Keeper<B>, slot: u32) -> u32
        requires { slot < B.table.words }
        ensures found { (word : ℕ) × (keeper.new ≡ looked keeper.old slot word) × (word_count word ≡ result) }
        ensures least { holds_of keeper.old slot ≤ result }
        ensures alone { keeper.old.out ≡ 0 → result ≡ holds_of keeper.old slot }
    {
        count_of(self.look(&mut keeper.token, slot))
    }
}
