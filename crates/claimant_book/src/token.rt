//! Which book a value is of, and a seat at its table.
ghost use Rattle.std.specs.Prelude.{◌≡◌};

use crate::view::View;
use atomic_table::Seat;
use std::marker::{Brand, Model, PhantomData};

/// Names the table of one book. Each call of a program picks it.
pub trait BookName {
    ghost use Rattle.atomic_table.specs.Seated.{TableId};

    ghost table: { TableId };
}

impl BookName for Brand {
    ghost use Rattle.claimant_book.specs.Stages.{no_table};

    ghost table = { no_table };
}

/// A seat at the table of `B`. Contracts see it as its view.
#[derive(Drop)]
pub struct Token<B: BookName> {
    pub(crate) seat: Seat<u64, View>,
    pub(crate) book: PhantomData<B>,
}

impl<B: BookName> Model for Token<B> {
    ghost use Rattle.std.specs.Prelude.{◌≡◌, []};
    ghost use Rattle.claimant_book.specs.declared.view.View.{View};

    ghost Value = { View };

    ghost view = { λ t. t.seat.me.0 };

    ghost invariant = { λ t. (t.seat.table_id ≡ B.table) × (t.seat.me.1 ≡ []) };
}
