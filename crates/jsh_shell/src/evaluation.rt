ghost use Rattle.std.specs.Prelude.{◌≡◌, ℕ, ◌∷◌, [], IfErr, IfOk, OnOk};
ghost use Rattle.jsh_shell.specs.Progress.{phase_after};
ghost use Rattle.jsh_shell.specs.Progress.Phase.{Between, Evaluating};
ghost use Rattle.jsh_shell.specs.Driving.{last_act};
ghost use Rattle.jsh_shell.specs.Serving.{Counts, IsOpen, IsServable, Serves, ServesPart};

use crate::acts::{act_of, is_source, perform, run_behind, text_len};
use crate::driving::{Driven, drive};
use crate::halts::Halt;
use crate::room::has_room_for;
use crate::session::Session;
use jsh_core::MOST_ENTRIES;
use jsh_cut::Command;
use jsh_io::Sink;
use jsh_snippet::{Act, Entry};
use jsh_steps::Steps;
use std::alloc::Global;
use std::sync::ledger::Ledger;

/// The act that ends the evaluation of a run.
fn last_act(driven: Driven, run: u32, budget: u64) -> Act
    ensures { result ≡ last_act driven run budget }
{
    match driven {
        Driven::Still => Act::Collect { run },
        Driven::Spent => Act::Expire { run, steps: budget },
    }
}

/// Evaluates a run: it is given turns, and is handed out where it goes on no more, or given up where
/// the budget is used.
#[tactic(none)]
fn evaluate<O: Sink, L: Ledger>(
    alloc: Global,
    session: &mut Session,
    client: u32,
    budget: u64,
    sink: &mut O,
    run: u32,
    steps: &mut Steps<L>,
) -> Result<(), Halt>
    requires { IsOpen client session.old.core }
    ensures ok { OnOk result (Serves budget client (Evaluating run 0) Between session.old session.new (O.held sink.old) (O.held sink.new) []) }
    ensures err { IfErr result (λ why. ServesPart why budget client (Evaluating run 0) session.old session.new (O.held sink.old) (O.held sink.new) []) }
    ensures open { IsOpen client session.new.core }
    ensures counts { Counts result (O.faults sink.old) (O.faults sink.new) }
    ensures stream { O.stream sink.new ≡ O.stream sink.old }
{
    let driven = match drive(alloc, session, client, budget, run, steps) {
        Ok(driven) => driven,
        Err(why) => return Err(why),
    };
    if session.core.len() >= MOST_ENTRIES {
        return Err(Halt::Limit);
    }
    let entry = Entry {
        client,
        act: last_act(driven, run, budget),
    };
    match perform(alloc, &mut session.core, entry, sink, steps) {
        Ok(_reply) => Ok(()),
        Err(why) => Err(why),
    }
}

/// Hands in a command, and writes what is said to it. The answer is the run of a source, if it got one.
#[tactic(none)]
fn hand_in<O: Sink, L: Ledger>(
    alloc: Global,
    session: &mut Session,
    client: u32,
    sink: &mut O,
    command: Command,
    steps: &mut Steps<L>,
) -> Result<Option<u32>, Halt>
    requires open { IsOpen client session.old.core }
    requires servable { IsServable command }
    ensures ok { IfOk result (λ run. (budget : ℕ) → Serves budget client Between (phase_after run) session.old session.new (O.held sink.old) (O.held sink.new) (command ∷ [])) }
    ensures err { IfErr result (λ why. (budget : ℕ) → ServesPart why budget client Between session.old session.new (O.held sink.old) (O.held sink.new) (command ∷ [])) }
    ensures open { IsOpen client session.new.core }
    ensures counts { Counts result (O.faults sink.old) (O.faults sink.new) }
    ensures stream { O.stream sink.new ≡ O.stream sink.old }
{
    let source = is_source(&command);
    let what = act_of(command);
    if !has_room_for(&session.core, text_len(&what)) {
        return Err(Halt::Limit);
    }
    let entry = Entry { client, act: what };
    match perform(alloc, &mut session.core, entry, sink, steps) {
        Ok(reply) => Ok(run_behind(source, &reply.body)),
        Err(why) => Err(why),
    }
}

/// Serves a command: it is handed in, and where it is a source that gets a run, this is evaluated.
#[tactic(none)]
pub fn serve_command<O: Sink, L: Ledger>(
    alloc: Global,
    session: &mut Session,
    client: u32,
    budget: u64,
    sink: &mut O,
    command: Command,
    steps: &mut Steps<L>,
) -> Result<(), Halt>
    requires open { IsOpen client session.old.core }
    requires servable { IsServable command }
    ensures ok { OnOk result (Serves budget client Between Between session.old session.new (O.held sink.old) (O.held sink.new) (command ∷ [])) }
    ensures err { IfErr result (λ why. ServesPart why budget client Between session.old session.new (O.held sink.old) (O.held sink.new) (command ∷ [])) }
    ensures open { IsOpen client session.new.core }
    ensures counts { Counts result (O.faults sink.old) (O.faults sink.new) }
    ensures stream { O.stream sink.new ≡ O.stream sink.old }
{
    let run = match hand_in(alloc, session, client, sink, command, steps) {
        Ok(run) => run,
        Err(why) => return Err(why),
    };
    let run = match run {
        Some(run) => run,
        None => return Ok(()),
    };
    match evaluate(alloc, session, client, budget, sink, run, steps) {
        Ok(()) => (),
        Err(why) => return Err(why),
    }
    Ok(())
}
