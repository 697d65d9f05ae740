//! The rule of the lock's table, and what each of its steps tells.
ghost use Rattle.std.specs.Prelude.{[], ◌∷◌};
ghost use Rattle.jsh_turnlock.specs.Rule.{Kept, fresh, Draws, Looks, Counts, PassesOn, Measures, Hears, note, informed, gathered, counted, forked};

use crate::chronicle::Chronicle;
use crate::view::{Home, View};
use atomic_table::{Join, Play, Split, TableRule};
use std::marker::PhantomData;

/// One history under one turn.
pub struct Turns<T> {
    of: PhantomData<T>,
}

impl<T: Chronicle> TableRule<Option<Home<T>>, View<T::Item>, ()> for Turns<T> {
    ghost holds = { λ _. Kept T.history T.numbers };

    ghost first = { λ _. fresh (0 ∷ []) };
}

/// A ticket is drawn.
pub(crate) struct Draw;

impl<T, I> Play<Option<Home<T>>, View<I>> for Draw {
    ghost then = { Draws };
}

/// A waiting seat looks whether its ticket is served, and then takes the value out.
pub(crate) struct Look<T> {
    of: PhantomData<T>,
}

impl<T: Chronicle> Play<Option<Home<T>>, View<T::Item>> for Look<T> {
    ghost then = { Looks T.history T.numbers };
}

/// The holder adds the number of its new entries.
pub(crate) struct Count<T> {
    of: PhantomData<T>,
}

impl<T: Chronicle> Play<Option<Home<T>>, View<T::Item>> for Count<T> {
    ghost then = { Counts T.history };
}

/// The value comes home, and the next ticket is served.
pub(crate) struct PassOn;

impl<T, I> Play<Option<Home<T>>, View<I>> for PassOn {
    ghost then = { PassesOn };
}

/// The length of the history is read.
pub(crate) struct Measure;

impl<T, I> Play<Option<Home<T>>, View<I>> for Measure {
    ghost then = { Measures };
}

/// What a seat was told is compared with what it has seen.
pub(crate) struct Hear;

impl<T, I> Play<Option<Home<T>>, View<I>> for Hear {
    ghost then = { Hears };
}

/// What a seat has seen, for another one.
pub(crate) struct Note;

impl<I> Split<View<I>> for Note {
    ghost left = { λ v. v };

    ghost right = { note };
}

impl<I> Join<View<I>> for Note {
    ghost both = { informed };

    ghost spent = { fresh [] };
}

/// One pass ends in another.
pub(crate) struct Gather;

impl<I> Join<View<I>> for Gather {
    ghost both = { gathered };

    ghost spent = { fresh [] };
}

/// The holder makes a pass.
pub(crate) struct Fork;

impl<I> Split<View<I>> for Fork {
    ghost left = { counted };

    ghost right = { forked };
}
