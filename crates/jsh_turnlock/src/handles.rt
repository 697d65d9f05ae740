//! The lock, a pass and the turn.
ghost use Rattle.std.specs.Prelude.{◌≡◌, ◌<◌, [], ◌∷◌, None, length};
ghost use Rattle.jsh_turnlock.specs.Rule.{resting, holding};

use crate::chronicle::Chronicle;
use crate::rule::Turns;
use crate::view::{Home, View};
use atomic_table::{Seat, Table};
use std::alloc::Global;

/// A value that callers take in turn, each by a pass of its own.
///
/// Threads share it by reference. A turn is given in the order in which tickets are drawn.
#[derive(Drop)]
pub struct TurnLock<T: Chronicle> {
    pub(crate) table: Table<Option<Home<T>>, View<T::Item>, (), Turns<T>, Global>,
    ghost sized: { (table.shared.table_id.words ≡ 3) × (table.shared.table_id.slots ≡ 1) },
}

/// The right to take the turn under one number, with what its owner knows of the history.
#[derive(Drop)]
pub struct Pass<T: Chronicle> {
    pub(crate) number: u32,
    pub(crate) seat: Seat<Option<Home<T>>, View<T::Item>>,
    ghost rests: { seat.me ≡ (resting number seat.me.0, []) },
}

/// The turn, with the value. Where it is dropped and not given back, the turn stays taken.
#[derive(Drop)]
pub struct Held<'a, T: Chronicle> {
    pub(crate) lock: &'a TurnLock<T>,
    pub(crate) number: u32,
    /// The count of passes that were made.
    pub(crate) made: u32,
    /// The length of the history that was found.
    pub(crate) found: u64,
    pub(crate) value: T,
    pub(crate) seat: Seat<Option<Home<T>>, View<T::Item>>,
    ghost placed: { seat.table_id ≡ lock.now.table.shared.table_id },
    ghost holds: { seat.me ≡ (holding number made seat.me.0, (0, None) ∷ []) },
    ghost length_found: { found ≡ length seat.me.0.seen },
    ghost numbered: { number < made },
}

// A shared pass or turn shows no seat, so that a seat that threads may hand on is enough.
unsafe impl<T: Chronicle> Sync for Pass<T> {}

unsafe impl<T: Chronicle + Sync> Sync for Held<'_, T> {}
