//! What the holder of the turn does.
ghost use Rattle.std.specs.Prelude.{◌≡◌, ◌+◌, ◌<◌, [], length};
ghost use mir.Syntax.{named};
ghost use Rattle.std.specs.Borrow.{Lends, sem};
ghost use Rattle.jsh_turnlock.specs.History.{IsAddedBy};
ghost use Rattle.jsh_turnlock.specs.Known.{turn_lock, turn_number, turn_made, turn_found, turn_gathered, with_value, lock_of, seen_by, gathered_by};
ghost use Rattle.jsh_turnlock.specs.contracts.handles.Held.{the_row};

use crate::chronicle::Chronicle;
use crate::handles::{Held, Pass};
use crate::lock::{LENGTH, SERVING};
use crate::rule::{Count, Fork, PassOn};
use crate::view::Home;

impl<T: Chronicle> Held<'_, T> {
    /// The value, to read and to change.
    pub fn value(&mut self) -> &mut T
        ensures* writes_back { sem 𝓛 (Lends (the_row (record { mir = named 1; lft = [] }) T.row T.Item.row T.Chronicle) T.row self.entry result (with_value self.old)) }
        ensures value { result.now ≡ self.old.value }
    {
        &mut self.value
    }

    /// Makes the pass with the next number. It has seen what the holder found.
    ///
    /// The value has to count the new number before it is given back.
    pub fn split(&mut self) -> Pass<T>
        requires { turn_made self.old < 4294967295 }
        ensures pass { (lock_of result ≡ turn_lock self.old) × (result.number ≡ turn_made self.old) × (seen_by result ≡ turn_found self.old) × (gathered_by result ≡ []) }
        ensures counted { turn_made self.new ≡ turn_made self.old + 1 }
        ensures number { result.number < turn_made self.new }
        ensures same { (turn_lock self.new ≡ turn_lock self.old) × (turn_number self.new ≡ turn_number self.old) × (turn_gathered self.new ≡ turn_gathered self.old) × (turn_found self.new ≡ turn_found self.old) × (self.new.value ≡ self.old.value) }
    {
        let number = self.made;
        let seat = self.lock.table.shared.split_seat::<Fork>(&mut self.seat);
        self.made += 1;
        Pass { number, seat }
    }

    /// Gives the value back, and passes the turn on.
    pub fn give(self) -> Pass<T>
        requires added { IsAddedBy (turn_number self) (turn_found self) (T.history self.value) }
        requires numbers { T.numbers self.value ≡ turn_made self }
        ensures same { (lock_of result ≡ turn_lock self.entry) × (result.number ≡ turn_number self.entry) × (gathered_by result ≡ turn_gathered self.entry) }
        ensures seen { seen_by result ≡ T.history self.entry.value }
        ensures number { result.number < T.numbers self.entry.value }
    {
        let Held {
            lock,
            number,
            made,
            found,
            value,
            mut seat,
        } = self;
        let added = value.len() - found;
        let shared = &lock.table.shared;
        drop(shared.exchange(&mut seat, 0, Some(Home { value, made })));
        shared.fetch_add::<Count<T>>(&mut seat, LENGTH, added);
        shared.fetch_add::<PassOn>(&mut seat, SERVING, 1);
        Pass { number, seat }
    }

    // Keeps the value, and the turn stays taken.
    pub(crate) fn into_value(self) -> T
        ensures { result ≡ self.entry.value }
    {
        let Held {
            lock: _,
            number: _,
            made: _,
            found: _,
            value,
            seat: _,
        } = self;
        value
    }
}

impl<T: Chronicle> Pass<T> {
    /// The number under which this pass adds entries.
    pub fn number(&self) -> u32
        ensures { result ≡ self.now.number }
    {
        self.number
    }
}
