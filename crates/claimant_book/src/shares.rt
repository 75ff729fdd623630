//! How shares come out of the keeper and back to it, and how the two tell each other what they have seen.
ghost use Rattle.std.specs.Prelude.{◌≡◌, ◌⊎◌, ◌+◌, ◌-◌, ◌<◌, IfOk, MatchResult, replicate};
ghost use Rattle.claimant_book.specs.Stages.{most_shares};
ghost use Rattle.claimant_book.specs.Views.{counting_out, joined, note_of, share_of, HoldsNothing};
ghost use Rattle.claimant_book.specs.Replies.{IsRefusedShare, IsMet};
ghost use Rattle.claimant_book.specs.declared.view.Role.TheVariants.{Keeping, Sharing, Noting};

use crate::keeper::Keeper;
use crate::plays::{Notes, Shares};
use crate::reply::ShareError;
use crate::share::Share;
use crate::table::Book;
use crate::token::{BookName, Token};
use std::alloc::{AllocError, Global};
use std::marker::PhantomData;

/// So many shares may be out.
pub const SHARES_MAX: u32 = 32;

fn no_holds(alloc: Global, slots: usize) -> Result<Vec<u32>, AllocError>
    ensures { IfOk result (λ holds. holds.items ≡ replicate slots 0) }
{
    vec![in alloc; 0; slots]
}

// A share that comes back was counted, but its type doesn't say so.
fn one_less(out: u32) -> u32
    ensures { result ≡ out - 1 }
{
    out.saturating_sub(1)
}

impl<B: BookName> Book<B> {
    fn note(&self, token: &mut Token<B>) -> Token<B>
        requires { (token.old.role ≡ Keeping) ⊎ (token.old.role ≡ Sharing) }
        ensures { (token.new ≡ token.old) × (result ≡ note_of token.old) }
    {
        let seat = self.table.shared.split_seat::<Notes>(&mut token.seat);
        Token {
            seat,
            book: PhantomData,
        }
    }

    fn hear(&self, token: &mut Token<B>, note: Token<B>)
        requires { (note.role ≡ Noting) × HoldsNothing note }
        ensures { token.new ≡ joined token.old note }
    {
        let Token { seat, book: _ } = note;
        self.table.shared.join_seat::<Notes>(&mut token.seat, seat);
    }

    fn part(&self, token: &mut Token<B>) -> Token<B>
        requires { (token.old.role ≡ Keeping) × (token.old.out < most_shares) }
        ensures { (token.new ≡ counting_out token.old (token.old.out + 1)) × (result ≡ share_of token.old) }
    {
        let seat = self.table.shared.split_seat::<Shares>(&mut token.seat);
        Token {
            seat,
            book: PhantomData,
        }
    }

    fn take_back(&self, token: &mut Token<B>, share: Token<B>)
        requires { (token.old.role ≡ Keeping) × (share.role ≡ Sharing) × HoldsNothing share }
        ensures { token.new ≡ counting_out (joined token.old share) (token.old.out - 1) }
    {
        let Token { seat, book: _ } = share;
        self.table.shared.join_seat::<Shares>(&mut token.seat, seat);
    }

    /// A share that has seen what the keeper has seen, and holds nothing.
    pub fn share(&self, alloc: Global, keeper: &mut Keeper<B>) -> Result<Share<B>, ShareError>
        ensures { MatchResult result (λ share. (keeper.old.out < most_shares)
            × (keeper.new ≡ counting_out keeper.old (keeper.old.out + 1))
            × (share ≡ share_of keeper.old)) (λ error. IsRefusedShare keeper.old error keeper.new) }
    {
        if keeper.out == SHARES_MAX {
            return Err(ShareError::TooMany);
        }
        let holds = no_holds(alloc, self.table.word_count())?;
        let token = self.part(&mut keeper.token);
        keeper.out += 1;
        Ok(Share { token, holds })
    }

    /// Ends a share that holds nothing.
    pub fn join(&self, share: Share<B>, keeper: &mut Keeper<B>)
        requires { HoldsNothing share }
        ensures { keeper.new ≡ counting_out (joined keeper.old share) (keeper.old.out - 1) }
    {
        let Share { token, holds: _ } = share;
        self.take_back(&mut keeper.token, token);
        keeper.out = one_less(keeper.out);
    }

    /// Lets the share and the keeper each see what the other has seen of the slot.
    pub fn meet(&self, share: &mut Share<B>, keeper: &mut Keeper<B>, slot: u32)
        requires { slot < B.table.words }
        ensures { IsMet slot share.old keeper.old share.new keeper.new }
    {
        let note = self.note(&mut share.token);
        self.hear(&mut keeper.token, note);
        self.look(&mut keeper.token, slot);
        let note = self.note(&mut keeper.token);
        self.hear(&mut share.token, note);
        self.look(&mut share.token, slot);
    }
}
