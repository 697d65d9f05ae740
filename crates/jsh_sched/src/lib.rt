//! The states of an engine's threads, and which thread runs next.
#![tactic(auto)]

ghost use Rattle.std.specs.Prelude.{◌≡◌, ◌<◌, ◌^◌, ◌↔◌, [], length, find, nat_lt, IsNone, IsTrue, if◌then◌else◌};
ghost use Rattle.jsh_sched.specs.ThreadState.{is_ready, IsAlive};
ghost use Rattle.jsh_sched.specs.Pick.{is_main, next_after, other_threads, picked, ready_threads};

/// What a thread can do next. Threads are numbered from 1.
#[derive(Clone, Copy, Debug, PartialEq, Eq)]
pub enum ThreadState {
    /// Its next step may be taken.
    Ready,
    /// It waits until the thread with this number is no longer alive.
    Joining { target: u32 },
    /// Its body is over.
    Ended,
    /// It was stopped from outside.
    Stopped,
}

impl ThreadState {
    pub fn is_ready(self) -> bool
        ensures { result ≡ is_ready self }
    {
        matches!(self, ThreadState::Ready)
    }

    /// Whether the thread is Ready, or waits for another.
    pub fn is_alive(self) -> bool
        ensures { IsTrue result ↔ IsAlive self }
    {
        matches!(self, ThreadState::Ready | ThreadState::Joining { .. })
    }
}

/// The number of the thread whose turn it is, or `None` where no thread is Ready.
///
/// `main` is the main thread of the run that is driven, if one is. It goes first where
/// `main_first` holds, and else behind the others, which take turns from `cursor` on.
pub fn pick(states: &[ThreadState], cursor: u32, main: Option<u32>, main_first: bool) -> Option<u32>
    requires { length states.now < 2 ^ 32 }
    ensures value { result ≡ picked states.now cursor main main_first }
    ensures none { IsNone result ↔ (ready_threads states.now ≡ []) }
{
    match ready_main(states, main) {
        Some(main) if main_first => Some(main),
        ready_main => next_other(states, cursor, main).or(ready_main),
    }
}

#[tactic(auto, using(crate::proofs::ReadyThreads::find_no_main))]
fn ready_main(states: &[ThreadState], main: Option<u32>) -> Option<u32>
    ensures { result ≡ find (is_main main) (ready_threads states.now) }
{
    match main {
        Some(thread) if is_ready_thread(states, thread) => main,
        _ => None,
    }
}

fn is_ready_thread(states: &[ThreadState], thread: u32) -> bool
    ensures { find (is_main (Some thread)) (ready_threads states.now) ≡ (if result then Some thread else None) }
{
    let number = thread as usize;
    if number == 0 || number > states.len() {
        return false;
    }
    states[number - 1].is_ready()
}

#[tactic(auto, using(crate::proofs::ReadyThreads::first_of_others))]
fn next_other(states: &[ThreadState], cursor: u32, main: Option<u32>) -> Option<u32>
    requires { length states.now < 2 ^ 32 }
    ensures { result ≡ next_after cursor (other_threads main (ready_threads states.now)) }
{
    match first_other(states, cursor, main) {
        Some(thread) => Some(thread),
        None => first_other(states, 0, main),
    }
}

/// The first Ready thread above `after` that isn't the main thread.
fn first_other(states: &[ThreadState], after: u32, main: Option<u32>) -> Option<u32>
    requires { length states.now < 2 ^ 32 }
    ensures { result ≡ find (λ thread. nat_lt after thread) (other_threads main (ready_threads states.now)) }
{
    for place in after as usize..states.len() {
        let thread = place as u32 + 1;
        if states[place].is_ready() && !is_main(main, thread) {
            return Some(thread);
        }
    }
    None
}

fn is_main(main: Option<u32>, thread: u32) -> bool
    ensures { result ≡ is_main main thread }
{
    match main {
        Some(main) => thread == main,
        None => false,
    }
}

#[cfg(test)]
mod tests;
