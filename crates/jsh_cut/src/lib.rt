//! How a client's input is cut into commands: lines are collected until they are a snippet, and some
//! lines are commands of their own. `specs/Commands.antt` says it whole.
//!
//! A line is cut command by command, so that each can be served before the next one is cut.
#![tactic(auto)]

ghost use Rattle.std.specs.Prelude.{◌≡◌, ◌+◌, ◌^◌, ◌<◌, [], true, false, length, IfOk};
ghost use Rattle.jsh_cut.specs.Commands as spec;
ghost use Rattle.jsh_cut.specs.Cuttings.{by_tail, coming};
ghost use Rattle.jsh_cut.specs.declared.held.Held.TheVariants as holds;

mod command;
mod cutting;
mod held;
mod laws;
mod line;
mod next;
mod onward;
mod remainder;
mod rest;
mod scan;
mod waiting;

pub use command::Command;
pub use cutting::{Cutting, Tail};
pub use held::Held;
use jsh_snippet::Act;
pub use laws::{exits_end_commands, held_texts_are_bounded};
use line::{ends_before, is_slash_line, trim};
pub use next::Next;
pub use remainder::Remainder;
use std::alloc::{AllocError, Global};
pub use waiting::Waiting;

/// What a line gives that is a command.
fn tail_of_command(alloc: Global, line: &str) -> Result<Tail, AllocError>
    ensures { IfOk result (λ tail. by_tail tail ≡ spec.by_command line.now) }
{
    let Ok(command) = jsh_commands::command(alloc, trim(line)) else {
        return Err(AllocError);
    };
    Ok(tail_of_act(command.act()))
}

/// An act is one command, and no act ends the input.
fn tail_of_act(what: Option<Act>) -> Tail
    ensures { by_tail result ≡ spec.by_act what }
{
    match what {
        Some(what) => Tail::Slash(what),
        None => Tail::Exit,
    }
}

/// What a line gives before which a text ends.
fn tail_of(alloc: Global, line: &str) -> Result<Tail, AllocError>
    requires { spec.ends_before line.now ≡ true }
    ensures { IfOk result (λ tail. by_tail tail ≡ spec.by_line line.now) }
{
    if is_slash_line(line) {
        tail_of_command(alloc, line)
    } else {
        // white space alone gives nothing
        Ok(Tail::Nothing)
    }
}

/// Begins to cut a line where nothing is held.
fn cut_first(alloc: Global, line: &str) -> Result<Cutting, AllocError>
    requires { length line.now + 1 < 2 ^ 32 }
    ensures { IfOk result (λ cutting. coming cutting ≡ spec.by_line line.now) }
{
    if ends_before(line) {
        Ok(Cutting::Last(tail_of(alloc, line)?))
    } else {
        let text = Waiting::new(alloc)?;
        Ok(Cutting::Grown(text.with_line(alloc, line)?))
    }
}

/// Begins to cut one line more, behind what is held. The line comes without its line feed.
pub fn cut_line(alloc: Global, held: Held, line: &str) -> Result<Cutting, AllocError>
    requires { length (spec.held_text held) + length line.now + 1 < 2 ^ 32 }
    ensures { IfOk result (λ cutting. coming cutting ≡ spec.cut_line held line.now) }
{
    match held {
        Held::Nothing => cut_first(alloc, line),
        Held::MayEnd(text) => {
            if ends_before(line) {
                Ok(Cutting::Ends(text, tail_of(alloc, line)?))
            } else {
                Ok(Cutting::Grown(text.with_line(alloc, line)?))
            }
        }
        Held::MustGoOn(text) => Ok(Cutting::Grown(text.with_line(alloc, line)?)),
    }
}

/// What is held where the input ends.
pub fn cut_end(held: Held) -> Cutting
    ensures { coming result ≡ record { commands = spec.cut_end held; held = holds.Nothing; exits = false } }
{
    match held {
        Held::Nothing => Cutting::Last(Tail::Nothing),
        Held::MayEnd(text) | Held::MustGoOn(text) => Cutting::Ends(text, Tail::Nothing),
    }
}

#[cfg(test)]
mod tests;
