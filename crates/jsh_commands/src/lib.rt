//! Lines that are commands, as those of the `jshell` tool (JEP 222): which they are, and what each asks
//! for. `specs/Commands.antt` says it whole.
#![tactic(auto)]

ghost use Rattle.std.specs.Prelude.{◌≡◌, IfOk};
ghost use Rattle.jsh_commands.specs.declared.words.Word.TheVariants as word;
ghost use Rattle.jsh_commands.specs.Commands as spec;

mod commands;
mod numbers;
#[cfg(test)]
mod tests;
mod words;

use crate::numbers::number;
use crate::words::{Word, split_word, trimmed, word_of};
pub use commands::Command;
use jsh_lex::is_identifier;
use jsh_snippet::{Question, Target};
use jsh_text::NoMemory;
use jsh_tree::{Name, SrcText};
use std::alloc::Global;

/// What a line asks for. The line comes without its line feed, with or without blanks at its ends.
#[tactic(auto, unfolding(crate::specs::Commands::command))]
pub fn command(alloc: Global, line: &str) -> Result<Command, NoMemory>
    ensures { IfOk result (λ command. command ≡ spec.command line.now) }
{
    let line = trimmed(line);
    match known_line(alloc, line)? {
        Some(known) => Ok(known),
        None => Ok(Command::Ask(Question::Invalid(SrcText::from_text(alloc, line)?))),
    }
}

/// The command of a line without blanks at its ends, if it has one.
fn known_line(alloc: Global, line: &str) -> Result<Option<Command>, NoMemory>
    ensures { IfOk result (λ command. command ≡ spec.known_line line.now) }
{
    let (word, argument) = split_word(line);
    match word_of(word.as_bytes()) {
        Some(word) => known(alloc, word, argument),
        None => Ok(None),
    }
}

/// The command of a word and what follows it, if there is one.
fn known(alloc: Global, word: Word, argument: &str) -> Result<Option<Command>, NoMemory>
    ensures { IfOk result (λ command. command ≡ spec.known word argument.now) }
{
    match word {
        Word::List => Ok(list(argument)),
        Word::Vars => Ok(alone(Command::Ask(Question::Vars), argument)),
        Word::Methods => Ok(alone(Command::Ask(Question::Methods), argument)),
        Word::Types => Ok(alone(Command::Ask(Question::Types), argument)),
        Word::Imports => Ok(alone(Command::Ask(Question::Imports), argument)),
        Word::Threads => Ok(alone(Command::Ask(Question::Threads), argument)),
        Word::Help => Ok(alone(Command::Ask(Question::Help), argument)),
        Word::Drop => drop_command(alloc, argument),
        Word::Stop => Ok(number(argument).map(Command::Stop)),
        Word::Reset => Ok(alone(Command::Reset, argument)),
        Word::Exit => Ok(alone(Command::Exit, argument)),
    }
}

/// A command that nothing follows.
fn alone(command: Command, argument: &str) -> Option<Command>
    ensures { result ≡ spec.alone command argument.now }
{
    if argument.is_empty() {
        Some(command)
    } else {
        None
    }
}

fn list(argument: &str) -> Option<Command>
    ensures { result ≡ spec.list argument.now }
{
    if argument.is_empty() {
        Some(Command::Ask(Question::List))
    } else if argument == "-all" {
        Some(Command::Ask(Question::ListAll))
    } else {
        None
    }
}

fn drop_command(alloc: Global, argument: &str) -> Result<Option<Command>, NoMemory>
    ensures { IfOk result (λ command. command ≡ spec.known word.Drop argument.now) }
{
    match dropped(alloc, argument)? {
        Some(target) => Ok(Some(Command::Drop(target))),
        None => Ok(None),
    }
}

/// What a number or a name says to drop.
fn dropped(alloc: Global, text: &str) -> Result<Option<Target>, NoMemory>
    ensures { IfOk result (λ target. target ≡ spec.dropped text.now) }
{
    match number(text) {
        Some(id) => Ok(Some(Target::Id(id))),
        None => named(alloc, text),
    }
}

fn named(alloc: Global, text: &str) -> Result<Option<Target>, NoMemory>
    ensures { IfOk result (λ target. target ≡ spec.named text.now) }
{
    if is_identifier(text) {
        Ok(Some(Target::Named(Name::from_text(alloc, text)?)))
    } else {
        Ok(None)
    }
}
