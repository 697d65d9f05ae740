//! Taking the turn, and what passes learn without it.
ghost use Rattle.std.specs.Prelude.{◌≡◌, ◌≤◌, ◌<◌, ◌%◌, ℕ, [], ◌∷◌, ◌++◌, length, Some, None, IfOk};
ghost use Rattle.jsh_turnlock.specs.History.{own, StartsWith, longer};
ghost use Rattle.jsh_turnlock.specs.Rule.{Takes};
ghost use Rattle.jsh_turnlock.specs.Known.{lock_id, turn_lock, turn_number, turn_made, turn_found, turn_gathered, lock_of, seen_by, gathered_by, IsSamePass, KeepsGathered};

use crate::chronicle::Chronicle;
use crate::handles::{Held, Pass, TurnLock};
use crate::rule::{Draw, Gather, Hear, Look, Measure, Note};
use crate::view::{Home, View};
use atomic_table::{Refused, Seat, Table};
use crossbeam_utils::Backoff;
use jsh_text::NoMemory;
use std::alloc::Global;
use std::sync::Wait;

// The words of the table.
pub(crate) const TICKET: usize = 0;

pub(crate) const SERVING: usize = 1;

pub(crate) const LENGTH: usize = 2;

impl<T: Chronicle> TurnLock<T> {
    /// A lock over a value without history, and its first pass.
    pub fn new(alloc: Global, value: T) -> Result<(TurnLock<T>, Pass<T>), NoMemory>
        requires empty { T.history value ≡ [] }
        requires numbers { T.numbers value ≡ 1 }
        ensures { IfOk result (λ made. (lock_of made.1 ≡ lock_id made.0) × (made.1.number ≡ 0) × (seen_by made.1 ≡ []) × (gathered_by made.1 ≡ [])) }
    {
        let mut slots = Vec::with_capacity(alloc, 1)?;
        slots.push_reserved(Some(Home { value, made: 1 }));
        match Table::new(alloc, &[0, 0, 0], slots, &()) {
            Ok((table, seat)) => Ok((TurnLock { table }, Pass { number: 0, seat })),
            Err(Refused { slots: _ }) => Err(NoMemory),
        }
    }

    // Waits until the seat's ticket is served. The seat then has the value.
    fn wait_for_turn<R: Wait>(
        &self,
        rt: &R,
        seat: &mut Seat<Option<Home<T>>, View<T::Item>>,
        ticket: u64,
    )
        requires lock { seat.old.table_id ≡ lock_id self.now }
        requires waits { (k : ℕ) × (ticket ≡ k % 18446744073709551616) × (seat.old.me.0.ticket ≡ Some k) × (seat.old.me.0.count ≡ None) }
        ensures lock { seat.new.table_id ≡ seat.old.table_id }
        ensures takes { Takes T.history T.numbers seat.old.me seat.new.me }
    {
        let backoff = Backoff::new();
        for _ in rt.forever() {
            if self.table.shared.load::<Look<T>>(seat, SERVING) == ticket {
                return;
            }
            backoff.snooze();
        }
        unreachable!()
    }

    /// Waits for the turn, and takes the value.
    pub fn take<R: Wait>(&self, rt: &R, pass: Pass<T>) -> Held<'_, T>
        requires { lock_of pass ≡ lock_id self.now }
        ensures same { (turn_lock result ≡ lock_of pass) × (turn_number result ≡ pass.number) × (turn_gathered result ≡ gathered_by pass) }
        ensures begins { StartsWith (T.history result.value) (seen_by pass) }
        ensures own_entries { own (T.history result.value) pass.number ≡ own (seen_by pass) pass.number }
        ensures gathered { KeepsGathered pass (T.history result.value) }
        ensures found { turn_found result ≡ T.history result.value }
        ensures numbers { T.numbers result.value ≡ turn_made result }
        ensures number { turn_number result < turn_made result }
    {
        let Pass { number, mut seat } = pass;
        let shared = &self.table.shared;
        let ticket = shared.fetch_add::<Draw>(&mut seat, TICKET, 1);
        self.wait_for_turn(rt, &mut seat, ticket);
        let Home { value, made } = shared.exchange(&mut seat, 0, None).unwrap();
        let found = value.len();
        Held {
            lock: self,
            number,
            made,
            found,
            value,
            seat,
        }
    }

    /// The length of the history. The pass has then seen that much of it.
    pub fn peek(&self, pass: &mut Pass<T>) -> u64
        requires { lock_of pass.old ≡ lock_id self.now }
        ensures same { IsSamePass pass.old pass.new }
        ensures longer { length (seen_by pass.old) ≤ result }
        ensures seen { (length (seen_by pass.new) ≡ result) × StartsWith (seen_by pass.new) (seen_by pass.old) }
        ensures own_entries { own (seen_by pass.new) pass.new.number ≡ own (seen_by pass.old) pass.old.number }
        ensures gathered { KeepsGathered pass.old (seen_by pass.new) }
    {
        self.table.shared.load::<Measure>(&mut pass.seat, LENGTH)
    }

    // Lets one pass see what another has seen.
    fn tell(&self, from: &mut Pass<T>, to: &mut Pass<T>)
        requires from { lock_of from.old ≡ lock_id self.now }
        requires to { lock_of to.old ≡ lock_id self.now }
        ensures told { IsSamePass from.old from.new × (seen_by from.new ≡ seen_by from.old) }
        ensures same { IsSamePass to.old to.new }
        ensures seen { seen_by to.new ≡ longer (seen_by to.old) (seen_by from.old) }
        ensures begins { StartsWith (seen_by to.new) (seen_by to.old) × StartsWith (seen_by to.new) (seen_by from.old) }
        ensures own_entries { own (seen_by to.new) to.new.number ≡ own (seen_by to.old) to.old.number }
        ensures gathered { KeepsGathered to.old (seen_by to.new) }
    {
        let shared = &self.table.shared;
        let note = shared.split_seat::<Note>(&mut from.seat);
        shared.join_seat::<Note>(&mut to.seat, note);
        shared.load::<Hear>(&mut to.seat, LENGTH);
    }

    /// Lets two passes see what either has seen.
    pub fn meet(&self, one: &mut Pass<T>, other: &mut Pass<T>)
        requires one { lock_of one.old ≡ lock_id self.now }
        requires other { lock_of other.old ≡ lock_id self.now }
        ensures same { IsSamePass one.old one.new × IsSamePass other.old other.new }
        ensures seen { (seen_by one.new ≡ longer (seen_by one.old) (seen_by other.old)) × (seen_by other.new ≡ seen_by one.new) }
        ensures begins { StartsWith (seen_by one.new) (seen_by one.old) × StartsWith (seen_by one.new) (seen_by other.old) }
        ensures own_entries { (own (seen_by one.new) one.new.number ≡ own (seen_by one.old) one.old.number) × (own (seen_by one.new) other.new.number ≡ own (seen_by other.old) other.old.number) }
        ensures gathered { KeepsGathered one.old (seen_by one.new) × KeepsGathered other.old (seen_by one.new) }
    {
        self.tell(other, one);
        self.tell(one, other);
    }

    /// Ends a pass in another one, which from then on knows its entries.
    pub fn gather(&self, pass: &mut Pass<T>, mut gone: Pass<T>)
        requires pass { lock_of pass.old ≡ lock_id self.now }
        requires gone { lock_of gone ≡ lock_id self.now }
        ensures same { (lock_of pass.new ≡ lock_of pass.old) × (pass.new.number ≡ pass.old.number) }
        ensures gathers { gathered_by pass.new ≡ gathered_by pass.old ++ gone.number ∷ gathered_by gone }
        ensures seen { seen_by pass.new ≡ longer (seen_by pass.old) (seen_by gone) }
        ensures begins { StartsWith (seen_by pass.new) (seen_by pass.old) × StartsWith (seen_by pass.new) (seen_by gone) }
        ensures own_entries { own (seen_by pass.new) pass.new.number ≡ own (seen_by pass.old) pass.old.number }
        ensures gathered { KeepsGathered pass.old (seen_by pass.new) }
        ensures gone { (own (seen_by pass.new) gone.number ≡ own (seen_by gone) gone.number) × KeepsGathered gone (seen_by pass.new) }
    {
        self.meet(pass, &mut gone);
        let Pass { number: _, seat } = gone;
        self.table.shared.join_seat::<Gather>(&mut pass.seat, seat);
    }

    /// Ends a pass. Its entries stay, and none is ever added under its number.
    pub fn end(&self, pass: Pass<T>)
        requires { lock_of pass ≡ lock_id self.now }
    {
        drop(pass);
    }

    /// Waits for the turn, and keeps the value.
    pub fn close<R: Wait>(self, rt: &R, pass: Pass<T>) -> T
        requires { lock_of pass ≡ lock_id self }
        ensures begins { StartsWith (T.history result) (seen_by pass) }
        ensures own_entries { own (T.history result) pass.number ≡ own (seen_by pass) pass.number }
        ensures gathered { KeepsGathered pass (T.history result) }
    {
        self.take(rt, pass).into_value()
    }
}
