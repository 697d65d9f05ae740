//! What lies in the lock's slot, and what a seat at its table knows.
use std::collections::LinkedList;

/// The value, with the count of passes that were made.
#[derive(Drop)]
pub struct Home<T> {
    pub value: T,
    pub made: u32,
}

/// What a seat knows. No value of it is made.
pub struct View<I> {
    /// The number of the seat's pass, and then those of the passes that ended in it. It has none where it is no pass.
    pub numbers: LinkedList<u32>,
    /// The beginning of the history that the seat has seen.
    pub seen: LinkedList<(u32, I)>,
    /// A beginning of the history that another seat told this one.
    pub told: LinkedList<(u32, I)>,
    /// The ticket, from the draw until the turn is passed on.
    pub ticket: Option<u64>,
    /// The count of passes that were made, while the seat holds the turn.
    pub count: Option<u32>,
}
