//! What a token knows. Values of these types exist in proofs alone: no call makes one.
use std::collections::LinkedList;

/// What a view is for.
pub enum Role {
    Keeping,
    Sharing,
    /// It carries to another token what one has seen.
    Noting,
    /// Its token has joined another.
    Spent,
}

/// What a view says of one slot.
pub struct Spot {
    pub held: u64,
    /// The latest stage that was seen.
    pub seen: u64,
    /// The latest stage that it and the views that joined it had seen when they joined.
    pub joined: u64,
}

/// A word that a look, or an exchange that failed, found in a slot.
pub struct Find {
    pub slot: u64,
    pub word: u64,
}

pub struct View {
    pub role: Role,
    /// How many shares are out, as the keeper counts them.
    pub out: u64,
    /// By slot. Of a slot past the end nothing is held and nothing was seen.
    pub spots: LinkedList<Spot>,
    pub finds: LinkedList<Find>,
}
