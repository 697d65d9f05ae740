//! The lock over a list of numbers and items.
ghost use Rattle.std.specs.Prelude.{◌≡◌, ◌++◌, [], ◌∷◌, length, IfOk, IfSome};
ghost use Rattle.jsh_turnlock.specs.Known.{lock_id, lock_of, seen_by};

use crate::{Chronicle, Pass, TurnLock};
use jsh_text::NoMemory;
use std::alloc::{AllocError, Global};
use std::sync::Wait;
use std::test::*;
use std::thread::{Threads, join, yield_now};

#[derive(Drop)]
struct Notes {
    entries: Vec<(u32, u64)>,
    count: u32,
}

impl Chronicle for Notes {
    type Item = u64;

    ghost history = { λ notes. notes.entries.items };

    ghost numbers = { λ notes. notes.count };

    fn len(&self) -> u64 {
        self.entries.len() as u64
    }

    fn numbers(&self) -> u32 {
        self.count
    }
}

impl Notes {
    fn empty(alloc: Global) -> Notes
        ensures { (result.entries.items ≡ []) × (result.count ≡ 1) }
    {
        Notes {
            entries: Vec::new(alloc),
            count: 1,
        }
    }

    fn add(&mut self, number: u32, item: u64) -> Result<(), AllocError>
        ensures { IfOk result (λ _. (self.new.entries.items ≡ self.old.entries.items ++ (number, item) ∷ []) × (self.new.count ≡ self.old.count)) }
    {
        self.entries.reserve(1)?;
        self.entries.push_reserved((number, item));
        Ok(())
    }

    // Whether the thread with this number has added 0, 1, 2 and so on, in this order and as often as this.
    fn has_in_order(&self, number: u32, times: u64) -> bool {
        let mut next = 0u64;
        for entry in &self.entries {
            if entry.0 == number {
                if entry.1 != next {
                    return false;
                }
                next = next.wrapping_add(1);
            }
        }
        next == times
    }
}

type Lock = TurnLock<Notes>;

// Adds one entry, and holds the turn for a while before.
fn add_one<R: Wait>(
    rt: &R,
    lock: &Lock,
    pass: Pass<Notes>,
    item: u64,
    pause: u32,
) -> Result<Pass<Notes>, AllocError>
    requires { lock_of pass ≡ lock_id lock.now }
    ensures { IfOk result (λ p. lock_of p ≡ lock_of pass) }
{
    let number = pass.number();
    let mut held = lock.take(rt, pass);
    for _ in 0..pause {
        yield_now();
    }
    held.value().add(number, item)?;
    Ok(held.give())
}

fn add_many<R: Wait>(
    rt: &R,
    lock: &Lock,
    pass: Pass<Notes>,
    times: u64,
    pause: u32,
) -> Result<Pass<Notes>, AllocError>
    requires { lock_of pass ≡ lock_id lock.now }
    ensures { IfOk result (λ p. lock_of p ≡ lock_of pass) }
{
    let mut pass = pass;
    for item in 0..times {
        pass = add_one(rt, lock, pass, item, pause)?;
    }
    Ok(pass)
}

// Makes a pass.
fn split_one<R: Wait>(rt: &R, lock: &Lock, pass: Pass<Notes>) -> Option<(Pass<Notes>, Pass<Notes>)>
    requires { lock_of pass ≡ lock_id lock.now }
    ensures { IfSome result (λ p. (lock_of p.0 ≡ lock_of pass) × (lock_of p.1 ≡ lock_of pass)) }
{
    let mut held = lock.take(rt, pass);
    if held.value().count == u32::MAX {
        return None;
    }
    let made = held.split();
    held.value().count += 1;
    Some((held.give(), made))
}

// Where one pass has seen one entry, both have after they met.
fn meet_both(lock: &Lock, one: &mut Pass<Notes>, other: &mut Pass<Notes>)
    requires one { lock_of one.old ≡ lock_id lock.now }
    requires other { lock_of other.old ≡ lock_id lock.now }
    ensures locks { (lock_of one.new ≡ lock_of one.old) × (lock_of other.new ≡ lock_of other.old) }
    ensures seen { length (seen_by one.old) ≡ 1 → seen_by other.old ≡ [] → (length (seen_by one.new) ≡ 1) × (length (seen_by other.new) ≡ 1) }
{
    lock.meet(one, other);
}

fn add_both<R: Threads + Wait + Sync>(
    rt: &R,
    lock: &Lock,
    one: Pass<Notes>,
    other: Pass<Notes>,
    times: u64,
    pauses: (u32, u32),
) -> Result<(Pass<Notes>, Pass<Notes>), AllocError>
    requires one { lock_of one ≡ lock_id lock.now }
    requires other { lock_of other ≡ lock_id lock.now }
    ensures { IfOk result (λ p. (lock_of p.0 ≡ lock_id lock.now) × (lock_of p.1 ≡ lock_id lock.now)) }
{
    let (one, other) = join(
        rt,
        move ||
            requires { lock_of one ≡ lock_id lock.now }
            ensures { IfOk result (λ p. lock_of p ≡ lock_id lock.entry.now) }
        { add_many(rt, lock, one, times, pauses.0) },
        move ||
            requires { lock_of other ≡ lock_id lock.now }
            ensures { IfOk result (λ p. lock_of p ≡ lock_id lock.entry.now) }
        { add_many(rt, lock, other, times, pauses.1) },
    );
    Ok((one?, other?))
}

// Two threads add as often, and the list that is then closed.
fn two_threads<R: Threads + Wait + Sync>(
    rt: &R,
    alloc: Global,
    times: u64,
) -> Result<Option<Notes>, NoMemory> {
    let (lock, pass) = TurnLock::new(alloc, Notes::empty(alloc))?;
    let Some((one, other)) = split_one(rt, &lock, pass) else {
        return Ok(None);
    };
    let (one, other) = add_both(rt, &lock, one, other, times, (0, 0))?;
    lock.end(other);
    Ok(Some(lock.close(rt, one)))
}

// Four threads that hold the turn for unequal times.
fn four_threads<R: Threads + Wait + Sync>(
    rt: &R,
    alloc: Global,
    times: u64,
) -> Result<Option<Notes>, NoMemory> {
    let (lock, pass) = TurnLock::new(alloc, Notes::empty(alloc))?;
    let Some((a, b)) = split_one(rt, &lock, pass) else {
        return Ok(None);
    };
    let Some((a, c)) = split_one(rt, &lock, a) else {
        return Ok(None);
    };
    let Some((b, d)) = split_one(rt, &lock, b) else {
        return Ok(None);
    };
    let mut a = match add_four(rt, &lock, (a, b), (c, d), times) {
        Ok(a) => a,
        Err(_) => return Err(NoMemory),
    };
    lock.peek(&mut a);
    Ok(Some(lock.close(rt, a)))
}

// Gathers the other passes into the first.
fn add_four<R: Threads + Wait + Sync>(
    rt: &R,
    lock: &Lock,
    first: (Pass<Notes>, Pass<Notes>),
    second: (Pass<Notes>, Pass<Notes>),
    times: u64,
) -> Result<Pass<Notes>, AllocError>
    requires first { (lock_of first.0 ≡ lock_id lock.now) × (lock_of first.1 ≡ lock_id lock.now) }
    requires second { (lock_of second.0 ≡ lock_id lock.now) × (lock_of second.1 ≡ lock_id lock.now) }
    ensures { IfOk result (λ p. lock_of p ≡ lock_id lock.now) }
{
    let (a, b) = first;
    let (c, d) = second;
    let (first, second) = join(
        rt,
        move ||
            requires { (lock_of a ≡ lock_id lock.now) × (lock_of b ≡ lock_id lock.now) }
            ensures { IfOk result (λ p. (lock_of p.0 ≡ lock_id lock.entry.now) × (lock_of p.1 ≡ lock_id lock.entry.now)) }
        { add_both(rt, lock, a, b, times, (0, 1)) },
        move ||
            requires { (lock_of c ≡ lock_id lock.now) × (lock_of d ≡ lock_id lock.now) }
            ensures { IfOk result (λ p. (lock_of p.0 ≡ lock_id lock.entry.now) × (lock_of p.1 ≡ lock_id lock.entry.now)) }
        { add_both(rt, lock, c, d, times, (3, 7)) },
    );
    let (mut a, b) = first?;
    let (c, d) = second?;
    lock.gather(&mut a, b);
    lock.gather(&mut a, c);
    lock.gather(&mut a, d);
    Ok(a)
}

#[test]
fn passes_take_turns(rt: HostRuntime) -> Result<(), Fail> {
    let (lock, first) = TurnLock::new(rt.alloc(), Notes::empty(rt.alloc()))?;
    let first = add_one(&rt, &lock, first, 10, 0)?;
    let Some((mut first, second)) = split_one(&rt, &lock, first) else {
        return Err(Fail::new("no room for a pass"));
    };
    assert_eq!(rt;
        (first.number(), second.number(), lock.peek(&mut first)),
        (0, 1, 1)
    );
    let mut second = add_one(&rt, &lock, second, 11, 0)?;
    assert_eq!(rt; lock.peek(&mut first), 2);
    meet_both(&lock, &mut first, &mut second);
    lock.end(second);
    let notes = lock.close(&rt, first);
    assert_eq!(rt; notes.entries.as_slice(), [(0, 10), (1, 11)].as_slice());
    Ok(())
}

#[test]
fn threads_add_in_their_order(rt: HostRuntime) -> Result<(), Fail> {
    let Some(notes) = two_threads(&rt, rt.alloc(), 1000)? else {
        return Err(Fail::new("no room for a pass"));
    };
    assert_eq!(rt; notes.len(), 2000);
    assert!(rt; notes.has_in_order(0, 1000) && notes.has_in_order(1, 1000));
    Ok(())
}

#[test]
fn every_entry_stands_once(rt: HostRuntime) -> Result<(), Fail> {
    let Some(notes) = four_threads(&rt, rt.alloc(), 50)? else {
        return Err(Fail::new("no room for a pass"));
    };
    assert_eq!(rt; notes.len(), 200);
    for number in 0..4 {
        assert!(rt; notes.has_in_order(number, 50), "the entries of {number}");
    }
    Ok(())
}
