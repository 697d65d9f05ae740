//! What becomes of runs.

ghost use Rattle.std.specs.Prelude.{◌≡◌, ℕ, ◌-◌, ◌<◌, ◌^◌, Some, true, length, IfOk, IfErr, OnErr, slice_set};
ghost use Rattle.std.specs.Option.{option_copied};
ghost use Rattle.std.specs.List.{list_any};
ghost use Rattle.jsh_sched.specs.ThreadState.{is_ready};
ghost use Rattle.jsh_snippet.specs.declared.replies.ReplyBody.TheVariants as body;
ghost use Rattle.jsh_snippet.specs.declared.replies.Collected.TheVariants as «collected»;
ghost use Rattle.jsh_core.specs.declared.world.Run.{Run};
ghost use Rattle.jsh_core.specs.State.{Acted, State, numbered, refuses};
ghost use Rattle.jsh_core.specs.Runs as spec;
ghost use Rattle.jsh_core.specs.Parts.{state_from, world_of, IsSound, IsWithin};

use crate::lists::at_number;
use crate::parts::{Parts, WorldParts};
use crate::snippets::temporary_name_of;
use crate::stopping::{is_thread_alive, stop_thread};
use crate::world::{Run, RunView, ThreadEnd};
use jsh_sched::ThreadState;
use jsh_snippet::{Collected, Outcome, Refusal, ReplyBody};
use jsh_text::{NoMemory, UText};
use jsh_tree::Seq;
use std::alloc::Global;

/// How the main thread of a run has ended.
fn end_of<'a>(world: &'a WorldParts, run: &Run) -> Option<&'a ThreadEnd>
    ensures { option_copied result ≡ spec.end_of (world_of world.now) run.now }
{
    match at_number(&world.threads, run.main) {
        None => None,
        Some(thread) => thread.end.as_ref(),
    }
}

/// The steps of a run's main thread so far.
fn steps_so_far(world: &WorldParts, run: &Run) -> u64
    ensures { result ≡ spec.steps_so_far (world_of world.now) run.now }
{
    match at_number(&world.threads, run.main) {
        None => 0,
        Some(thread) => thread.steps,
    }
}

/// A body that has returned a text has a value, and one that has returned nothing has finished.
fn returned_with(text: &Option<UText>) -> Result<Outcome, NoMemory>
    ensures { IfOk result (λ outcome. outcome ≡ spec.returned_with text.now) }
{
    match text {
        Some(text) => Ok(Outcome::Value(text.copy()?)),
        None => Ok(Outcome::Finished),
    }
}

/// The client that has stopped a run: who asked for it, or else its owner.
fn stopper_of(run: &Run) -> u32
    ensures { result ≡ spec.stopper_of run.now }
{
    run.stopper.unwrap_or(run.owner)
}

/// The outcome of a run whose main thread has ended so.
fn outcome_with(run: &Run, end: Option<&ThreadEnd>) -> Result<Outcome, NoMemory>
    ensures { IfOk result (λ outcome. outcome ≡ spec.outcome_with run.now (option_copied end.entry)) }
{
    match end {
        Some(ThreadEnd::Returned(text)) => returned_with(text),
        Some(ThreadEnd::Stopped) | None => Ok(Outcome::Stopped {
            by: stopper_of(run),
        }),
    }
}

/// How a run has ended whose main thread isn't alive.
fn outcome_of(world: &WorldParts, run: &Run) -> Result<Outcome, NoMemory>
    ensures { IfOk result (λ outcome. outcome ≡ spec.outcome_of (world_of world.now) run.now) }
{
    outcome_with(run, end_of(world, run))
}

/// A run is over, and can't be asked for again.
fn hand_out(runs: &mut [Run], number: u32, run: Run, name: UText, outcome: Outcome) -> ReplyBody
    requires there { numbered runs.old number ≡ Some run }
    ensures gone { runs.new ≡ slice_set runs.old (number - 1) (record run { gone = true }) }
    ensures body { result ≡ body.Collected («collected».Over run.snippet name outcome) }
{
    runs[number as usize - 1].gone = true;
    ReplyBody::Collected(Collected::Over {
        id: run.snippet,
        name,
        outcome,
    })
}

/// A run that has ended is handed out with its own outcome.
fn hand_over(parts: &mut Parts, alloc: Global, number: u32, run: Run) -> Result<ReplyBody, NoMemory>
    requires sound { IsSound parts.old }
    requires there { numbered parts.old.world.runs.items number ≡ Some run }
    ensures ok { IfOk result (λ answer. record { state = state_from parts.new; body = answer } ≡ spec.over (state_from parts.old) number run) }
    ensures err { OnErr result (parts.new ≡ parts.old) }
    ensures sound { IsSound parts.new }
    ensures within { (entries : ℕ) → IsWithin entries parts.old → IsWithin entries parts.new }
{
    let outcome = outcome_of(&parts.world, &run)?;
    let name = temporary_name_of(alloc, run.snippet)?;
    Ok(hand_out(&mut parts.world.runs, number, run, name, outcome))
}

/// A run that hasn't ended is given up with this outcome: its main thread is stopped.
fn give_up(
    parts: &mut Parts,
    alloc: Global,
    number: u32,
    run: Run,
    outcome: Outcome,
) -> Result<ReplyBody, NoMemory>
    requires sound { IsSound parts.old }
    requires there { numbered parts.old.world.runs.items number ≡ Some run }
    ensures ok { IfOk result (λ answer. record { state = state_from parts.new; body = answer } ≡ spec.given_up (state_from parts.old) number run outcome) }
    ensures err { OnErr result (parts.new ≡ parts.old) }
    ensures sound { IsSound parts.new }
    ensures within { (entries : ℕ) → IsWithin entries parts.old → IsWithin entries parts.new }
{
    let name = temporary_name_of(alloc, run.snippet)?;
    stop_thread(&mut parts.world, alloc, run.main);
    Ok(hand_out(&mut parts.world.runs, number, run, name, outcome))
}

/// A run that is there, and that a client owns, or why it isn't.
fn own_run(runs: &[Run], client: u32, number: u32) -> Result<Run, Refusal>
    ensures there { IfOk result (λ run. numbered runs.now number ≡ Some run) }
    ensures own { IfOk result (λ run. (s : State) (act : Run → Acted) → spec.on_own_run s client number (numbered runs.now number) act ≡ act run) }
    ensures refused { IfErr result (λ why. (s : State) (act : Run → Acted) → spec.on_own_run s client number (numbered runs.now number) act ≡ refuses s why) }
{
    let run = match at_number(runs, number) {
        None => return Err(Refusal::NoSuchRun { run: number }),
        Some(run) => *run,
    };
    if run.gone {
        return Err(Refusal::NoSuchRun { run: number });
    }
    if run.owner == client {
        Ok(run)
    } else {
        Err(Refusal::NotOwner { owner: run.owner })
    }
}

/// The numbers of the alive threads, rising.
fn alive_threads(alloc: Global, states: &[ThreadState]) -> Result<Seq<u32>, NoMemory>
    requires { length states.now < 2 ^ 32 }
    ensures { IfOk result (λ numbers. numbers ≡ spec.alive_threads states.now) }
{
    let mut numbers = Vec::new(alloc);
    for i in 0..states.len() {
        if states[i].is_alive() {
            numbers.push(i as u32 + 1)?;
        }
    }
    Ok(Seq::from_vec(numbers))
}

/// Whether some thread can go on.
fn is_any_ready(states: &[ThreadState]) -> bool
    ensures { result ≡ list_any is_ready states.now }
{
    states.iter().any(|state| state.is_ready())
}

/// A run that hasn't ended goes on while some thread can go on, and is given up where none can.
fn collect_alive(
    parts: &mut Parts,
    alloc: Global,
    number: u32,
    run: Run,
) -> Result<ReplyBody, NoMemory>
    requires sound { IsSound parts.old }
    requires few { length parts.old.world.states.items < 2 ^ 32 }
    requires there { numbered parts.old.world.runs.items number ≡ Some run }
    ensures ok { IfOk result (λ answer. record { state = state_from parts.new; body = answer } ≡ spec.collect_alive (state_from parts.old) number run) }
    ensures err { OnErr result (parts.new ≡ parts.old) }
    ensures sound { IsSound parts.new }
    ensures within { (entries : ℕ) → IsWithin entries parts.old → IsWithin entries parts.new }
{
    if is_any_ready(&parts.world.states) {
        let steps = steps_so_far(&parts.world, &run);
        return Ok(ReplyBody::Collected(Collected::Running { steps }));
    }
    let threads = alive_threads(alloc, &parts.world.states)?;
    give_up(parts, alloc, number, run, Outcome::Stalled { threads })
}

fn collect_own(
    parts: &mut Parts,
    alloc: Global,
    number: u32,
    run: Run,
) -> Result<ReplyBody, NoMemory>
    requires sound { IsSound parts.old }
    requires few { length parts.old.world.states.items < 2 ^ 32 }
    requires there { numbered parts.old.world.runs.items number ≡ Some run }
    ensures ok { IfOk result (λ answer. record { state = state_from parts.new; body = answer } ≡ spec.collect_own (state_from parts.old) number run) }
    ensures err { OnErr result (parts.new ≡ parts.old) }
    ensures sound { IsSound parts.new }
    ensures within { (entries : ℕ) → IsWithin entries parts.old → IsWithin entries parts.new }
{
    if is_thread_alive(&parts.world, run.main) {
        collect_alive(parts, alloc, number, run)
    } else {
        hand_over(parts, alloc, number, run)
    }
}

/// The outcome of a run is asked for.
pub fn collect_run(
    parts: &mut Parts,
    alloc: Global,
    client: u32,
    number: u32,
) -> Result<ReplyBody, NoMemory>
    requires sound { IsSound parts.old }
    requires few { length parts.old.world.states.items < 2 ^ 32 }
    ensures ok { IfOk result (λ answer. record { state = state_from parts.new; body = answer } ≡ spec.collect (state_from parts.old) client number) }
    ensures err { OnErr result (parts.new ≡ parts.old) }
    ensures sound { IsSound parts.new }
    ensures within { (entries : ℕ) → IsWithin entries parts.old → IsWithin entries parts.new }
{
    match own_run(&parts.world.runs, client, number) {
        Ok(run) => collect_own(parts, alloc, number, run),
        Err(why) => Ok(ReplyBody::Refused(why)),
    }
}

fn expire_own(
    parts: &mut Parts,
    alloc: Global,
    steps: u64,
    number: u32,
    run: Run,
) -> Result<ReplyBody, NoMemory>
    requires sound { IsSound parts.old }
    requires there { numbered parts.old.world.runs.items number ≡ Some run }
    ensures ok { IfOk result (λ answer. record { state = state_from parts.new; body = answer } ≡ spec.expire_own (state_from parts.old) steps number run) }
    ensures err { OnErr result (parts.new ≡ parts.old) }
    ensures sound { IsSound parts.new }
    ensures within { (entries : ℕ) → IsWithin entries parts.old → IsWithin entries parts.new }
{
    if is_thread_alive(&parts.world, run.main) {
        let outcome = Outcome::Spent { steps };
        give_up(parts, alloc, number, run, outcome)
    } else {
        hand_over(parts, alloc, number, run)
    }
}

/// A run is given up after so many steps, if it hasn't ended.
pub fn expire_run(
    parts: &mut Parts,
    alloc: Global,
    client: u32,
    number: u32,
    steps: u64,
) -> Result<ReplyBody, NoMemory>
    requires sound { IsSound parts.old }
    ensures ok { IfOk result (λ answer. record { state = state_from parts.new; body = answer } ≡ spec.expire (state_from parts.old) client number steps) }
    ensures err { OnErr result (parts.new ≡ parts.old) }
    ensures sound { IsSound parts.new }
    ensures within { (entries : ℕ) → IsWithin entries parts.old → IsWithin entries parts.new }
{
    match own_run(&parts.world.runs, client, number) {
        Ok(run) => expire_own(parts, alloc, steps, number, run),
        Err(why) => Ok(ReplyBody::Refused(why)),
    }
}

/// A run that hasn't ended is stopped by a client. Else nothing changes.
fn stop_found(parts: &mut Parts, alloc: Global, client: u32, number: u32, run: Run)
    requires sound { IsSound parts.old }
    requires there { numbered parts.old.world.runs.items number ≡ Some run }
    ensures after { state_from parts.new ≡ spec.stop_run (state_from parts.old) client number run }
    ensures sound { IsSound parts.new }
    ensures within { (entries : ℕ) → IsWithin entries parts.old → IsWithin entries parts.new }
{
    if !is_thread_alive(&parts.world, run.main) {
        return;
    }
    stop_thread(&mut parts.world, alloc, run.main);
    parts.world.runs[number as usize - 1].stopper = Some(client);
}

/// Any client may stop any run that is there. It takes no memory.
pub fn stop_run(parts: &mut Parts, alloc: Global, client: u32, number: u32) -> ReplyBody
    requires sound { IsSound parts.old }
    ensures ok { record { state = state_from parts.new; body = result } ≡ spec.stop (state_from parts.old) client number }
    ensures sound { IsSound parts.new }
    ensures within { (entries : ℕ) → IsWithin entries parts.old → IsWithin entries parts.new }
{
    let found = match at_number(&parts.world.runs, number) {
        None => return ReplyBody::Refused(Refusal::NoSuchRun { run: number }),
        Some(found) => *found,
    };
    if found.gone {
        return ReplyBody::Refused(Refusal::NoSuchRun { run: number });
    }
    stop_found(parts, alloc, client, number, found);
    ReplyBody::StopDone { run: number }
}

/// A run as it can be seen.
pub fn view_run(parts: &Parts, number: u32) -> Option<RunView>
    ensures { result ≡ spec.run_view (state_from parts.now) number }
{
    let run = match at_number(&parts.world.runs, number) {
        None => return None,
        Some(run) => *run,
    };
    if run.gone {
        return None;
    }
    Some(RunView {
        owner: run.owner,
        main: run.main,
        over: !is_thread_alive(&parts.world, run.main),
    })
}
