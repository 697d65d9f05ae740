ghost use Rattle.std.specs.Prelude.{◌≡◌, ℕ, ◌+◌, ◌-◌, ◌<◌, ◌≤◌, ◌^◌, ◌∷◌, ◌++◌, [], List, length, true, IfErr, IfOk, IfSome, IsSome, OnErr, OnOk, Some};
ghost use Rattle.std.specs.List.{count_by};
ghost use Rattle.jsh_sched.specs.ThreadState.{is_alive};
ghost use Rattle.jsh_core.specs.declared.world.Frame.{Frame};
ghost use Rattle.jsh_core.specs.declared.world.Thread.{Thread};
ghost use Rattle.jsh_core.specs.declared.world.Answer.TheVariants as «answer»;
ghost use Rattle.jsh_snippet.specs.declared.replies.ReplyBody.TheVariants as body;
ghost use Rattle.jsh_core.specs.Limits.{most_entries, most_steps};
ghost use Rattle.jsh_core.specs.State.{numbered};
ghost use Rattle.jsh_core.specs.Threads.{answered, can_go_on, performed, stepped, thread_answered, thread_returned, turn, turned};
ghost use Rattle.jsh_core.specs.Threads.Next.{Returns, Sets};
ghost use Rattle.jsh_core.specs.Parts.{state_from, world_of, IsSound, IsWithin, IsWorld, StepsAtMost};

use crate::cells::set_cell;
use crate::lists::{at_number, push_reserved};
use crate::parts::{Parts, WorldParts};
use crate::world::{Answer, Frame, Thread, ThreadEnd};
use jsh_sched::ThreadState;
use jsh_snippet::ReplyBody;
use jsh_sum::value_of;
use jsh_text::{NoMemory, UText, Value, print_int};
use jsh_tree::Seq;
use std::alloc::Global;
use std::mem::replace;

/// Want of memory in an act. The steps of a turn that were done before stand.
#[derive(Clone, Copy)]
pub struct CutShort {
    pub done: u32,
}

/// Whether the thread with this number can go on.
pub fn is_ready_at(world: &WorldParts, number: u32) -> bool
    ensures { result ≡ can_go_on (world_of world.now) number }
{
    match at_number(&world.states, number) {
        None => false,
        Some(state) => state.is_ready(),
    }
}

/// One answer more.
fn push_answer(answers: &mut Seq<Answer>, answer: Answer) -> Result<(), NoMemory>
    ensures ok { OnOk result (answers.new ≡ answers.old ++ answer ∷ []) }
    ensures err { OnErr result (answers.new ≡ answers.old) }
{
    let alloc = answers.allocator();
    let mut items = replace(answers, Seq::new(alloc)).into_vec();
    let outcome = items.reserve(1);
    if outcome.is_ok() {
        push_reserved(&mut items, answer);
    }
    *answers = Seq::from_vec(items);
    Ok(outcome?)
}

/// The first frame is answered once more.
fn answer_first(frames: &mut Seq<Frame>, answer: Answer) -> Result<(), NoMemory>
    requires { 0 < length frames.old }
    ensures ok { OnOk result ((frame : Frame) (below : List Frame) → frames.old ≡ frame ∷ below → frames.new ≡ answered answer frame ∷ below) }
    ensures err { OnErr result (frames.new ≡ frames.old) }
{
    let alloc = frames.allocator();
    let mut items = replace(frames, Seq::new(alloc)).into_vec();
    let outcome = push_answer(&mut items[0].answers, answer);
    *frames = Seq::from_vec(items);
    outcome
}

/// A thread has done a step, whose answer is empty.
fn answer_thread(thread: &mut Thread) -> Result<(), NoMemory>
    requires running { 0 < length thread.old.frames }
    requires few { thread.old.steps + 1 < 2 ^ 64 }
    ensures ok { OnOk result ((frame : Frame) (below : List Frame) → thread.old.frames ≡ frame ∷ below → thread.new ≡ thread_answered thread.old frame below) }
    ensures err { OnErr result (thread.new ≡ thread.old) }
{
    answer_first(&mut thread.frames, Answer::Empty)?;
    thread.steps += 1;
    Ok(())
}

/// A thread has done its last step, which returns a text.
fn return_text(thread: &mut Thread, text: UText)
    requires few { thread.old.steps + 1 < 2 ^ 64 }
    ensures { thread.new ≡ thread_returned thread.old text }
{
    thread.steps += 1;
    thread.frames = Seq::new(thread.frames.allocator());
    thread.end = Some(ThreadEnd::Returned(Some(text)));
}

/// The thread sets its variable.
fn set_variable(world: &mut WorldParts, number: u32, value: i32) -> Result<(), NoMemory>
    requires thread { IfSome (numbered world.old.threads.items number) (λ (t : Thread). 0 < length t.frames) }
    requires there { IsSome (numbered world.old.threads.items number) }
    requires few { StepsAtMost (2 ^ 63) world.old.threads.items }
    ensures ok { OnOk result ((t : Thread) (frame : Frame) (below : List Frame) → numbered world.old.threads.items number ≡ Some t → t.frames ≡ frame ∷ below → world_of world.new ≡ performed (world_of world.old) number t frame below (Sets value)) }
    ensures err { OnErr result (world_of world.new ≡ world_of world.old) }
    ensures world { IsWorld world.old → IsWorld world.new }
{
    let thread = &mut world.threads[number as usize - 1];
    answer_thread(thread)?;
    if let Some(frame) = thread.frames.get(0) {
        set_cell(&mut world.cells, &frame.body.variable, Value::Int(value));
    }
    Ok(())
}

/// The thread returns a text and is over.
fn end_thread(world: &mut WorldParts, number: u32, text: UText)
    requires there { IsSome (numbered world.old.threads.items number) }
    requires few { StepsAtMost (2 ^ 63) world.old.threads.items }
    requires ready { can_go_on (world_of world.old) number ≡ true }
    requires world { IsWorld world.old }
    ensures after { (t : Thread) (frame : Frame) (below : List Frame) → numbered world.old.threads.items number ≡ Some t → world_of world.new ≡ performed (world_of world.old) number t frame below (Returns text) }
    ensures world { IsWorld world.new }
{
    world.states[number as usize - 1] = ThreadState::Ended;
    return_text(&mut world.threads[number as usize - 1], text);
    world.alive -= 1;
}

/// One visible step of a thread that can go on.
fn step(world: &mut WorldParts, alloc: Global, number: u32) -> Result<(), NoMemory>
    requires world { IsWorld world.old }
    requires ready { can_go_on (world_of world.old) number ≡ true }
    requires few { StepsAtMost (2 ^ 63) world.old.threads.items }
    ensures ok { OnOk result (world_of world.new ≡ stepped (world_of world.old) number) }
    ensures err { OnErr result (world_of world.new ≡ world_of world.old) }
    ensures world { IsWorld world.new }
{
    let Some(thread) = at_number(&world.threads, number) else {
        return Ok(());
    };
    let Some(frame) = thread.frames.get(0) else {
        return Ok(());
    };
    let value = value_of(&frame.body.sum);
    if frame.answers.is_empty() {
        return set_variable(world, number, value);
    }
    let text = print_int(alloc, value)?;
    end_thread(world, number, text);
    Ok(())
}

/// At most so many visible steps of a thread, or fewer only where it can't go on. The answer is how
/// many were done.
fn turn(world: &mut WorldParts, alloc: Global, number: u32, most: u32) -> Result<u32, CutShort>
    requires world { IsWorld world.old }
    requires few { StepsAtMost (2 ^ 62) world.old.threads.items }
    requires most { most ≤ most_steps }
    ensures ok { IfOk result (λ steps. record { world = world_of world.new; steps = steps } ≡ turned number most (world_of world.old)) }
    ensures err { IfErr result (λ cut. record { world = world_of world.new; steps = cut.done } ≡ turned number cut.done (world_of world.old)) }
    ensures short { IfErr result (λ cut. cut.done < most) }
    ensures world { IsWorld world.new }
{
    let mut done = 0;
    while done < most && is_ready_at(world, number) {
        match step(world, alloc, number) {
            Ok(()) => (),
            Err(_) => return Err(CutShort { done }),
        }
        done += 1;
    }
    Ok(done)
}

/// A thread goes on, and it is answered how far.
pub fn turn_thread(
    parts: &mut Parts,
    alloc: Global,
    number: u32,
    most: u32,
) -> Result<ReplyBody, CutShort>
    requires sound { IsSound parts.old }
    requires within { IsWithin most_entries parts.old }
    requires most { most ≤ most_steps }
    ensures ok { IfOk result (λ body. record { state = state_from parts.new; body = body } ≡ turn (state_from parts.old) number most) }
    ensures err { IfErr result (λ cut. record { state = state_from parts.new; body = body.Turned cut.done } ≡ turn (state_from parts.old) number cut.done) }
    ensures short { IfErr result (λ cut. cut.done < most) }
    ensures sound { IsSound parts.new }
    ensures within { (entries : ℕ) → IsWithin entries parts.old → IsWithin (entries + 1) parts.new }
{
    match turn(&mut parts.world, alloc, number, most) {
        Ok(done) => Ok(ReplyBody::Turned { steps: done }),
        Err(cut) => Err(cut),
    }
}
