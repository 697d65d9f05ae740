//! How threads are stopped.

ghost use Rattle.std.specs.Prelude.{◌≡◌, ℕ, ◌&&◌, if◌then◌else◌, length};
ghost use Rattle.std.specs.List.{count_by};
ghost use Rattle.jsh_sched.specs.declared.ThreadState.TheVariants as thread_state;
ghost use Rattle.jsh_sched.specs.ThreadState.{is_alive};
ghost use Rattle.jsh_core.specs.Threads as spec;
ghost use Rattle.jsh_core.specs.Parts.{world_of, IsWorld, StepsAtMost};

use crate::lists::at_number;
use crate::parts::WorldParts;
use crate::world::{Thread, ThreadEnd};
use jsh_sched::ThreadState;
use jsh_tree::Seq;
use std::alloc::Global;

/// Whether the thread with this number is alive.
pub fn is_thread_alive(world: &WorldParts, number: u32) -> bool
    ensures { result ≡ spec.is_thread_alive (world_of world.now) number }
{
    match at_number(&world.states, number) {
        None => false,
        Some(state) => state.is_alive(),
    }
}

/// A thread that is stopped has left all its bodies.
fn end_by_stop(thread: &mut Thread, alloc: Global)
    ensures { thread.new ≡ spec.ended_by_stop thread.old }
{
    thread.frames = Seq::new(alloc);
    thread.end = Some(ThreadEnd::Stopped);
}

/// The thread with this number is stopped, if it is alive.
pub fn stop_thread(world: &mut WorldParts, alloc: Global, number: u32)
    requires world { IsWorld world.old }
    ensures after { world_of world.new ≡ spec.stop_thread (world_of world.old) number }
    ensures count { length world.new.threads.items ≡ length world.old.threads.items }
    ensures runs { world.new.runs ≡ world.old.runs }
    ensures world { IsWorld world.new }
    ensures steps { (bound : ℕ) → StepsAtMost bound world.old.threads.items → StepsAtMost bound world.new.threads.items }
{
    if !is_thread_alive(world, number) {
        return;
    }
    let place = number as usize - 1;
    world.states[place] = ThreadState::Stopped;
    end_by_stop(&mut world.threads[place], alloc);
    world.alive -= 1;
}

/// Whether a thread is this client's. Every thread is anyone's.
fn is_owned(owner: Option<u32>, thread: &Thread) -> bool
    ensures { result ≡ spec.is_owned owner thread.now }
{
    match owner {
        None => true,
        Some(client) => thread.owner == client,
    }
}

/// A thread after the alive ones of an owner are stopped.
fn end_for(owner: Option<u32>, state: ThreadState, thread: &mut Thread, alloc: Global)
    ensures { thread.new ≡ (if is_alive state && spec.is_owned owner thread.old then spec.ended_by_stop thread.old else thread.old) }
{
    if state.is_alive() && is_owned(owner, thread) {
        end_by_stop(thread, alloc);
    }
}

/// The threads after the alive ones of an owner are stopped.
fn end_threads(owner: Option<u32>, states: &[ThreadState], threads: &mut [Thread], alloc: Global)
    requires { length states.now ≡ length threads.old }
    ensures { threads.new ≡ spec.stopped_threads owner states.now threads.old }
{
    for i in 0..threads.len() {
        end_for(owner, states[i], &mut threads[i], alloc);
    }
}

/// The state of a thread after the alive ones of an owner are stopped.
fn stopped_for(owner: Option<u32>, state: ThreadState, thread: &Thread) -> ThreadState
    ensures { result ≡ (if is_alive state && spec.is_owned owner thread.now then thread_state.Stopped else state) }
{
    if state.is_alive() && is_owned(owner, thread) {
        ThreadState::Stopped
    } else {
        state
    }
}

/// The states of all threads after the alive ones of an owner are stopped.
fn stop_states(owner: Option<u32>, states: &mut [ThreadState], threads: &[Thread])
    requires { length states.old ≡ length threads.now }
    ensures { states.new ≡ spec.stopped_states owner states.old threads.now }
{
    for i in 0..states.len() {
        states[i] = stopped_for(owner, states[i], &threads[i]);
    }
}

/// How many threads are alive.
fn count_alive(states: &[ThreadState]) -> usize
    ensures { result ≡ count_by is_alive states.now }
{
    states.iter().filter(|state| state.is_alive()).count()
}

/// Every alive thread of an owner is stopped.
pub fn stop_threads(world: &mut WorldParts, alloc: Global, owner: Option<u32>)
    requires world { IsWorld world.old }
    ensures after { world_of world.new ≡ spec.stop_threads owner (world_of world.old) }
    ensures count { length world.new.threads.items ≡ length world.old.threads.items }
    ensures runs { world.new.runs ≡ world.old.runs }
    ensures world { IsWorld world.new }
    ensures steps { (bound : ℕ) → StepsAtMost bound world.old.threads.items → StepsAtMost bound world.new.threads.items }
{
    end_threads(owner, &world.states, &mut world.threads, alloc);
    stop_states(owner, &mut world.states, &world.threads);
    world.alive = count_alive(&world.states);
}
