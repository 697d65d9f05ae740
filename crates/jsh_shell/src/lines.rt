ghost use Rattle.std.specs.Prelude.{◌≡◌, ◌+◌, ◌*◌, ◌^◌, ◌<◌, ◌≤◌, ◌++◌, [], length, IfErr, IfOk, OnOk};
ghost use Rattle.std.specs.List.{All};
ghost use Rattle.jsh_lines.specs.Lines.{as_text};
ghost use Rattle.jsh_cut.specs.Commands as cutting;
ghost use Rattle.jsh_cut.specs.Cuttings.{coming};
ghost use Rattle.jsh_shell.specs.declared.halts.Halt.TheVariants as halt;
ghost use Rattle.jsh_shell.specs.Progress.Phase.{Between};
ghost use Rattle.jsh_shell.specs.Cutting.{ServesCut, ending};
ghost use Rattle.jsh_shell.specs.Serving.{Counts, IsOpen, IsServable, Serves, ServesPart};
ghost use Rattle.jsh_shell.specs.Upcoming.{comes};

use crate::evaluation::serve_command;
use crate::halts::Halt;
use crate::session::Session;
use jsh_cut::{Command, Cutting, Held, Next, cut_end, cut_line};
use jsh_io::Sink;
use jsh_lines::text_of;
use jsh_steps::Steps;
use std::alloc::Global;
use std::sync::ledger::Ledger;

/// What stands behind the lines that were served.
#[derive(Drop)]
pub struct Behind {
    /// The text that waits for a line.
    pub held: Held,
    /// The client asked for an end.
    pub exits: bool,
}

/// What comes next of a line.
#[derive(Drop)]
pub enum Upcoming {
    /// A command, and what comes behind it.
    First(Command, Cutting),
    /// No more commands.
    Last(Behind),
}

/// What comes next of a line.
fn next_of(alloc: Global, cutting: Cutting) -> Result<Upcoming, Halt>
    ensures next { IfOk result (λ next. comes next ≡ coming cutting) }
    ensures err { IfErr result (λ why. why ≡ halt.NoMemory) }
{
    match cutting.next(alloc) {
        Ok(Next::Eval(source, rest)) => Ok(Upcoming::First(Command::Eval(source), rest)),
        Ok(Next::Slash(what, rest)) => Ok(Upcoming::First(Command::Slash(what), rest)),
        Ok(Next::Waits(held)) => Ok(Upcoming::Last(Behind { held, exits: false })),
        Ok(Next::Exit) => Ok(Upcoming::Last(Behind {
            held: Held::Nothing,
            exits: true,
        })),
        Err(_refused) => Err(Halt::NoMemory),
    }
}

/// Cuts a command and serves it, and so on.
#[tactic(none)]
fn serve_cutting<O: Sink, L: Ledger>(
    alloc: Global,
    session: &mut Session,
    client: u32,
    budget: u64,
    sink: &mut O,
    cutting: Cutting,
    steps: &mut Steps<L>,
) -> Result<Behind, Halt>
    requires open { IsOpen client session.old.core }
    requires servable { All IsServable (coming cutting).commands }
    ensures ok { IfOk result (λ behind. ServesCut budget client session.old session.new (O.held sink.old) (O.held sink.new) (coming cutting) behind) }
    ensures err { IfErr result (λ why. ServesPart why budget client Between session.old session.new (O.held sink.old) (O.held sink.new) (coming cutting).commands) }
    ensures open { IsOpen client session.new.core }
    ensures counts { Counts result (O.faults sink.old) (O.faults sink.new) }
    ensures stream { O.stream sink.new ≡ O.stream sink.old }
{
    let mut left = cutting;
    'each: loop {
        let next = match next_of(alloc, left) {
            Ok(next) => next,
            Err(why) => return Err(why),
        };
        match next {
            Upcoming::Last(behind) => return Ok(behind),
            Upcoming::First(command, rest) => {
                match serve_command(alloc, session, client, budget, sink, command, steps) {
                    Ok(()) => (),
                    Err(why) => return Err(why),
                }
                left = rest;
            }
        }
    }
}

/// Serves a client's line, which comes without its line feed.
#[tactic(none)]
fn serve_line<O: Sink, L: Ledger>(
    alloc: Global,
    session: &mut Session,
    client: u32,
    budget: u64,
    sink: &mut O,
    held: Held,
    line: &[u8],
    steps: &mut Steps<L>,
) -> Result<Behind, Halt>
    requires open { IsOpen client session.old.core }
    requires few { length (cutting.held_text held) + 3 * length line.now + 1 < 2 ^ 32 }
    ensures ok { IfOk result (λ behind. ServesCut budget client session.old session.new (O.held sink.old) (O.held sink.new) (cutting.cut_line held (as_text line.now)) behind) }
    ensures few { IfOk result (λ behind. length (cutting.held_text behind.held) ≤ length (cutting.held_text held) + 3 * length line.now + 1) }
    ensures err { IfErr result (λ why. ServesPart why budget client Between session.old session.new (O.held sink.old) (O.held sink.new) (cutting.cut_line held (as_text line.now)).commands) }
    ensures open { IsOpen client session.new.core }
    ensures counts { Counts result (O.faults sink.old) (O.faults sink.new) }
    ensures stream { O.stream sink.new ≡ O.stream sink.old }
{
    let text = match text_of(alloc, line) {
        Ok(text) => text,
        Err(_refused) => return Err(Halt::NoMemory),
    };
    let cutting = match cut_line(alloc, held, text.as_str()) {
        Ok(cutting) => cutting,
        Err(_refused) => return Err(Halt::NoMemory),
    };
    serve_cutting(alloc, session, client, budget, sink, cutting, steps)
}

/// Serves the line that was begun and ends with these bytes.
#[tactic(none)]
pub fn serve_begun<O: Sink, L: Ledger>(
    alloc: Global,
    session: &mut Session,
    client: u32,
    budget: u64,
    sink: &mut O,
    held: Held,
    begun: &mut Vec<u8>,
    end: &[u8],
    steps: &mut Steps<L>,
) -> Result<Behind, Halt>
    requires open { IsOpen client session.old.core }
    requires few { length (cutting.held_text held) + 3 * (length begun.old.items + length end.now) + 1 < 2 ^ 32 }
    ensures ok { IfOk result (λ behind. ServesCut budget client session.old session.new (O.held sink.old) (O.held sink.new) (cutting.cut_line held (as_text (begun.old.items ++ end.now))) behind) }
    ensures begun { OnOk result (begun.new.items ≡ []) }
    ensures few { IfOk result (λ behind. length (cutting.held_text behind.held) ≤ length (cutting.held_text held) + 3 * (length begun.old.items + length end.now) + 1) }
    ensures err { IfErr result (λ why. ServesPart why budget client Between session.old session.new (O.held sink.old) (O.held sink.new) (cutting.cut_line held (as_text (begun.old.items ++ end.now))).commands) }
    ensures open { IsOpen client session.new.core }
    ensures counts { Counts result (O.faults sink.old) (O.faults sink.new) }
    ensures stream { O.stream sink.new ≡ O.stream sink.old }
{
    match begun.extend_from_slice(end) {
        Ok(()) => (),
        Err(_refused) => return Err(Halt::NoMemory),
    }
    let behind = match serve_line(
        alloc,
        session,
        client,
        budget,
        sink,
        held,
        begun.as_slice(),
        steps,
    ) {
        Ok(behind) => behind,
        Err(why) => return Err(why),
    };
    begun.clear();
    Ok(behind)
}

/// Serves what is held where the input ends.
#[tactic(none)]
fn serve_held<O: Sink, L: Ledger>(
    alloc: Global,
    session: &mut Session,
    client: u32,
    budget: u64,
    sink: &mut O,
    held: Held,
    steps: &mut Steps<L>,
) -> Result<(), Halt>
    requires { IsOpen client session.old.core }
    ensures ok { OnOk result (Serves budget client Between Between session.old session.new (O.held sink.old) (O.held sink.new) (cutting.cut_end held)) }
    ensures err { IfErr result (λ why. ServesPart why budget client Between session.old session.new (O.held sink.old) (O.held sink.new) (cutting.cut_end held)) }
    ensures open { IsOpen client session.new.core }
    ensures counts { Counts result (O.faults sink.old) (O.faults sink.new) }
    ensures stream { O.stream sink.new ≡ O.stream sink.old }
{
    match serve_cutting(alloc, session, client, budget, sink, cut_end(held), steps) {
        Ok(_behind) => Ok(()),
        Err(why) => Err(why),
    }
}

/// Serves the rest of an input that has ended: a last line without line feed, and then what is held.
#[tactic(none)]
pub fn serve_end<O: Sink, L: Ledger>(
    alloc: Global,
    session: &mut Session,
    client: u32,
    budget: u64,
    sink: &mut O,
    held: Held,
    rest: &[u8],
    steps: &mut Steps<L>,
) -> Result<(), Halt>
    requires open { IsOpen client session.old.core }
    requires few { length (cutting.held_text held) + 3 * length rest.now + 1 < 2 ^ 32 }
    ensures ok { OnOk result (Serves budget client Between Between session.old session.new (O.held sink.old) (O.held sink.new) (ending held rest.now)) }
    ensures err { IfErr result (λ why. ServesPart why budget client Between session.old session.new (O.held sink.old) (O.held sink.new) (ending held rest.now)) }
    ensures open { IsOpen client session.new.core }
    ensures counts { Counts result (O.faults sink.old) (O.faults sink.new) }
    ensures stream { O.stream sink.new ≡ O.stream sink.old }
{
    if rest.is_empty() {
        return serve_held(alloc, session, client, budget, sink, held, steps);
    }
    let behind = match serve_line(alloc, session, client, budget, sink, held, rest, steps) {
        Ok(behind) => behind,
        Err(why) => return Err(why),
    };
    if behind.exits {
        return Ok(());
    }
    match serve_held(alloc, session, client, budget, sink, behind.held, steps) {
        Ok(()) => (),
        Err(why) => return Err(why),
    }
    Ok(())
}
