//! The table of a book, and each kind of step on one of its words.
ghost use Rattle.std.specs.Prelude.{◌≡◌, ℕ, ◌+◌, ◌-◌, ◌*◌, ◌%◌, ◌<◌, ◌==◌};
ghost use Rattle.claimant_book.specs.Stages.{word_stage, IsLiveStage, final_stage, most_held};
ghost use Rattle.claimant_book.specs.Views.{holds_of, seen_by, view_with};
ghost use Rattle.claimant_book.specs.Steps.{LookTells, TakeTells, RetireTells};
ghost use Rattle.claimant_book.specs.declared.view.Role.TheVariants.{Keeping, Sharing};

use crate::plays::{AddHold, BeginSlot, Counting, GiveHold, Look, RetireSlot, TakeHold};
use crate::token::{BookName, Token};
use crate::view::View;
use crate::word::{STAGE, base_word};
use atomic_table::Table;
use std::alloc::Global;
use std::marker::{Model, PhantomData};

/// The words of a book, one for each slot. Contracts see it as its table's identity.
#[derive(Drop)]
pub struct Book<B: BookName> {
    pub(crate) table: Table<u64, View, u32, Counting, Global>,
    pub(crate) name: PhantomData<B>,
}

impl<B: BookName> Model for Book<B> {
    ghost use Rattle.std.specs.Prelude.{◌≡◌, ◌<◌};
    ghost use Rattle.atomic_table.specs.Seated.{TableId};

    ghost Value = { TableId };

    ghost view = { λ b. b.table.shared.table_id };

    ghost invariant = { λ b. (b.table.shared.table_id ≡ B.table) × (b.table.shared.key ≡ B.table.words)
        × (0 < B.table.words) };
}

impl<B: BookName> Book<B> {
    pub(crate) fn look(&self, token: &mut Token<B>, slot: u32) -> u64
        requires { slot < B.table.words }
        ensures { LookTells token.old slot result token.new }
    {
        self.table
            .shared
            .load::<Look>(&mut token.seat, slot as usize)
    }

    /// Takes one hold if the slot's word is still `word`.
    pub(crate) fn add_share(&self, token: &mut Token<B>, slot: u32, word: u64) -> u64
        requires slot { (slot < B.table.words) × (token.old.role ≡ Sharing) × (holds_of token.old slot < most_held) }
        requires word { IsLiveStage (word_stage word) × (word < 18446744073709551615) }
        ensures { TakeTells token.old slot word result token.new }
    {
        self.table
            .shared
            .compare_exchange::<TakeHold>(&mut token.seat, slot as usize, word, word + 1)
    }

    pub(crate) fn drop_hold(&self, token: &mut Token<B>, slot: u32)
        requires { (slot < B.table.words) × (0 < holds_of token.old slot)
            × (token.old.role ≡ Keeping → 1 < holds_of token.old slot) }
        ensures { token.new ≡ view_with token.old slot (holds_of token.old slot - 1) (seen_by token.old slot) }
    {
        self.table
            .shared
            .fetch_sub::<GiveHold>(&mut token.seat, slot as usize, 1);
    }

    pub(crate) fn add_base(&self, token: &mut Token<B>, slot: u32)
        requires { (slot < B.table.words) × (token.old.role ≡ Keeping) × IsLiveStage (seen_by token.old slot)
            × (holds_of token.old slot < most_held) }
        ensures { token.new ≡ view_with token.old slot (holds_of token.old slot + 1) (seen_by token.old slot) }
    {
        self.table
            .shared
            .fetch_add::<AddHold>(&mut token.seat, slot as usize, 1);
    }

    pub(crate) fn step_live(&self, token: &mut Token<B>, slot: u32)
        requires { (slot < B.table.words) × (token.old.role ≡ Keeping) × (seen_by token.old slot % 2 ≡ 0)
            × (seen_by token.old slot < final_stage) }
        ensures { token.new ≡ view_with token.old slot 1 (seen_by token.old slot + 1) }
    {
        self.table
            .shared
            .fetch_add::<BeginSlot>(&mut token.seat, slot as usize, STAGE + 1);
    }

    /// Retires the slot if its word has the base hold alone.
    pub(crate) fn step_retired(&self, token: &mut Token<B>, slot: u32, stage: u32) -> u64
        requires { (slot < B.table.words) × (token.old.role ≡ Keeping) × (seen_by token.old slot ≡ stage)
            × (stage % 2 ≡ 1) × (holds_of token.old slot ≡ 1) × (stage < final_stage) }
        ensures { RetireTells token.old slot (stage * 4294967296 + 1) result token.new }
    {
        let live = base_word(stage);
        let retired = (u64::from(stage) + 1) * STAGE;
        self.table
            .shared
            .compare_exchange::<RetireSlot>(&mut token.seat, slot as usize, live, retired)
    }
}
