//! A new book, whose name is picked once it is there.
ghost use Rattle.std.specs.Prelude.{◌≡◌, ◌<◌, ◌≤◌, IfOk, replicate};
ghost use Rattle.claimant_book.specs.Views.{first_keeper};

use crate::keeper::Keeper;
use crate::plays::Counting;
use crate::table::Book;
use crate::token::{BookName, Token};
use crate::view::View;
use atomic_table::{Seat, Table};
use std::alloc::{AllocError, Global};
use std::marker::{Model, PhantomData};

/// A book and its keeper, before they have a name. Contracts see the identity of its table.
#[derive(Drop)]
pub struct Opened {
    table: Table<u64, View, u32, Counting, Global>,
    seat: Seat<u64, View>,
    stages: Vec<u32>,
}

impl Model for Opened {
    ghost use Rattle.std.specs.Prelude.{◌≡◌, ◌<◌, [], replicate};
    ghost use Rattle.atomic_table.specs.Seated.{TableId};
    ghost use Rattle.claimant_book.specs.Views.{first_keeper};

    ghost Value = { TableId };

    ghost view = { λ o. o.table.shared.table_id };

    ghost invariant = { λ o. (o.table.shared.key ≡ o.table.shared.table_id.words)
        × (0 < o.table.shared.table_id.words) × (o.seat.table_id ≡ o.table.shared.table_id)
        × (o.seat.me ≡ (first_keeper, [])) × (o.stages.items ≡ replicate o.table.shared.table_id.words 0) };
}

impl Opened {
    /// A book of so many slots, none of which was ever begun.
    pub fn new(alloc: Global, slots: u32) -> Result<Opened, AllocError>
        requires { (0 < slots) × (slots ≤ 65536) }
        ensures { IfOk result (λ book. book.words ≡ slots) }
    {
        let words: Vec<u64> = vec![in alloc; 0; slots as usize]?;
        let stages: Vec<u32> = vec![in alloc; 0; slots as usize]?;
        let (table, seat) = Table::of_words(alloc, words.as_slice(), &slots)?;
        Ok(Opened {
            table,
            seat,
            stages,
        })
    }

    /// The book and its keeper, by a name for the book's table.
    pub fn named<B: BookName>(self) -> (Book<B>, Keeper<B>)
        requires { self ≡ B.table }
        ensures { (result.0 ≡ B.table) × (result.1 ≡ first_keeper) }
    {
        let Opened {
            table,
            seat,
            stages,
        } = self;
        let book = Book {
            table,
            name: PhantomData,
        };
        let token = Token {
            seat,
            book: PhantomData,
        };
        let keeper = Keeper {
            token,
            stages,
            out: 0,
        };
        (book, keeper)
    }
}
