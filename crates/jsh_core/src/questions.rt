//! What a question is answered.

ghost use Rattle.std.specs.Prelude.{◌≡◌, ◌++◌, length, map, filter, option_map, IfOk, OnOk};
ghost use Rattle.std.specs.List.{repeat};
ghost use Rattle.std.specs.Option.{option_to_list};
ghost use Rattle.jsh_snippet.specs.Names.{type_text};
ghost use Rattle.jsh_core.specs.Generations as generations;
ghost use Rattle.jsh_core.specs.Questions as spec;
ghost use Rattle.jsh_core.specs.Parts.{state_from, world_of, IsSound};

use crate::cells::value_of_cell;
use crate::generation::Live;
use crate::lists::at_number;
use crate::parts::{Parts, WorldParts};
use crate::snippets::one;
use crate::world::Thread;
use jsh_sched::ThreadState;
use jsh_snippet::{Fate, Line, Question, Record, ReplyBody};
use jsh_text::{NoMemory, UText, Value, print_int, print_unsigned, push_unsigned};
use jsh_tree::{Key, Link, Seq, TypeWritten};
use std::alloc::Global;

/// A text so many times.
fn push_repeated(text: &mut UText, count: usize, part: &[u8]) -> Result<(), NoMemory>
    ensures { OnOk result (text.new ≡ text.old ++ repeat count part.now) }
{
    for _time in 0..count {
        text.push_latin1(part)?;
    }
    Ok(())
}

/// A number, right in so many places.
fn push_right(text: &mut UText, alloc: Global, places: usize, number: u32) -> Result<(), NoMemory>
    ensures { OnOk result (text.new ≡ text.old ++ spec.right places number) }
{
    let digits = print_unsigned(alloc, number as u64)?;
    push_repeated(text, places.saturating_sub(digits.len()), b" ")?;
    text.append(&digits)
}

/// A unit of a source. Behind a line feed are the blanks that a further line begins with.
fn push_unit(text: &mut UText, unit: u16) -> Result<(), NoMemory>
    ensures { OnOk result (text.new ≡ text.old ++ spec.further_line unit) }
{
    if unit == b'\n' as u16 {
        text.push_latin1(b"\n       ")
    } else {
        text.push(unit)
    }
}

/// A source in a list, its further lines behind seven blanks.
fn push_indented(text: &mut UText, alloc: Global, source: &str) -> Result<(), NoMemory>
    ensures { OnOk result (text.new ≡ text.old ++ spec.indented source.now) }
{
    let units = UText::from_str(alloc, source)?;
    for unit in units.as_slice() {
        push_unit(text, *unit)?;
    }
    Ok(())
}

/// `   1 : int x = 1;`
fn record_line(alloc: Global, found: &Record) -> Result<Line, NoMemory>
    ensures { IfOk result (λ line. line ≡ spec.record_line found.now) }
{
    let mut text = UText::new(alloc);
    push_right(&mut text, alloc, 4, found.id)?;
    text.push_latin1(b" : ")?;
    push_indented(&mut text, alloc, found.source.as_str())?;
    Ok(Line { text })
}

/// Whether a record is in force, or was done.
fn is_listed(found: &Record) -> bool
    ensures { result ≡ spec.is_listed found.now }
{
    matches!(found.fate, Fate::Live | Fate::Done)
}

fn list_lines(alloc: Global, book: &[Record]) -> Result<Seq<Line>, NoMemory>
    ensures { IfOk result (λ lines. lines ≡ map spec.record_line (filter spec.is_listed book.now)) }
{
    let mut lines = Vec::new(alloc);
    for found in book {
        if is_listed(found) {
            lines.push(record_line(alloc, found)?)?;
        }
    }
    Ok(Seq::from_vec(lines))
}

fn all_lines(alloc: Global, book: &[Record]) -> Result<Seq<Line>, NoMemory>
    ensures { IfOk result (λ lines. lines ≡ map spec.record_line book.now) }
{
    let mut lines = Vec::with_capacity(alloc, book.len())?;
    for found in book {
        lines.push(record_line(alloc, found)?)?;
    }
    Ok(Seq::from_vec(lines))
}

/// The text of a value that a variable may have so far.
fn push_value(text: &mut UText, alloc: Global, value: &Value) -> Result<(), NoMemory>
    ensures { OnOk result (text.new ≡ text.old ++ spec.value_text value.now) }
{
    match value {
        Value::Int(number) => {
            let digits = print_int(alloc, *number)?;
            text.append(&digits)
        }
        _ => Ok(()),
    }
}

fn push_type(text: &mut UText, written: &TypeWritten) -> Result<(), NoMemory>
    ensures { OnOk result (text.new ≡ text.old ++ type_text written.now) }
{
    text.push_str(written.name.as_str())?;
    push_repeated(text, written.dims as usize, b"[]")
}

/// The type of a variable that is fixed with its record.
fn push_fixed_type(text: &mut UText, parts: &Parts, id: u32) -> Result<(), NoMemory>
    ensures { OnOk result (text.new ≡ text.old ++ spec.fixed_type (state_from parts.now) id) }
{
    let Some(found) = at_number(&parts.book, id) else {
        return Ok(());
    };
    match &found.fixed {
        None => Ok(()),
        Some(written) => push_type(text, written),
    }
}

/// The link of a declaration.
fn link_of(live: &Live) -> Result<Option<Link>, NoMemory>
    ensures { IfOk result (λ link. link ≡ generations.link_of live.now) }
{
    match live.given {
        None => Ok(None),
        Some(generation) => Ok(Some(Link {
            key: live.key.clone()?,
            generation,
        })),
    }
}

/// The text of what a declaration's variable holds.
fn push_shown_value(
    text: &mut UText,
    alloc: Global,
    world: &WorldParts,
    live: &Live,
) -> Result<(), NoMemory>
    ensures { OnOk result (text.new ≡ text.old ++ spec.shown_value (world_of world.now) live.now) }
{
    let Some(link) = link_of(live)? else {
        return text.push_latin1(b"(not-active)");
    };
    match value_of_cell(&world.cells, &link) {
        None => text.push_latin1(b"(not-active)"),
        Some(value) => push_value(text, alloc, value),
    }
}

/// `|    int $1 = 3`, for a variable.
fn push_variable_line(
    lines: &mut Vec<Line>,
    alloc: Global,
    parts: &Parts,
    live: &Live,
) -> Result<(), NoMemory>
    ensures { OnOk result (lines.new.items ≡ lines.old.items ++ spec.variable_line (state_from parts.now) live.now) }
{
    let Key::OfVar(name) = &live.key else {
        return Ok(());
    };
    let mut text = UText::from_latin1(alloc, b"|    ")?;
    push_fixed_type(&mut text, parts, live.id)?;
    text.push_latin1(b" ")?;
    text.push_str(name.as_str())?;
    text.push_latin1(b" = ")?;
    push_shown_value(&mut text, alloc, &parts.world, live)?;
    lines.push(Line { text })?;
    Ok(())
}

fn variable_lines(alloc: Global, parts: &Parts) -> Result<Seq<Line>, NoMemory>
    ensures { IfOk result (λ lines. lines ≡ spec.variable_lines (state_from parts.now)) }
{
    let mut lines = Vec::new(alloc);
    for live in &parts.generation.live {
        push_variable_line(&mut lines, alloc, parts, live)?;
    }
    Ok(Seq::from_vec(lines))
}

/// The state of a thread that is alive.
fn state_text(alloc: Global, state: ThreadState) -> Result<Option<UText>, NoMemory>
    ensures { IfOk result (λ text. text ≡ spec.state_text state) }
{
    match state {
        ThreadState::Ready => Ok(Some(UText::from_latin1(alloc, b"READY")?)),
        ThreadState::Joining { target } => {
            let mut text = UText::from_latin1(alloc, b"JOINING ")?;
            push_unsigned(&mut text, target as u64)?;
            Ok(Some(text))
        }
        ThreadState::Ended | ThreadState::Stopped => Ok(None),
    }
}

/// `|    3 client 1 READY`
fn thread_line(
    alloc: Global,
    number: usize,
    thread: &Thread,
    state: &UText,
) -> Result<Line, NoMemory>
    ensures { IfOk result (λ line. line ≡ spec.thread_line number thread.now state.now) }
{
    let mut text = UText::from_latin1(alloc, b"|    ")?;
    push_unsigned(&mut text, number as u64)?;
    text.push_latin1(b" client ")?;
    push_unsigned(&mut text, thread.owner as u64)?;
    text.push_latin1(b" ")?;
    text.append(state)?;
    Ok(Line { text })
}

/// The line of a thread that is alive.
fn push_thread_line(
    lines: &mut Vec<Line>,
    alloc: Global,
    number: usize,
    state: ThreadState,
    thread: &Thread,
) -> Result<(), NoMemory>
    ensures { OnOk result (lines.new.items ≡ lines.old.items ++ option_to_list (option_map (spec.thread_line number thread.now) (spec.state_text state))) }
{
    if let Some(text) = state_text(alloc, state)? {
        lines.push(thread_line(alloc, number, thread, &text)?)?;
    }
    Ok(())
}

fn thread_lines(
    alloc: Global,
    states: &[ThreadState],
    threads: &[Thread],
) -> Result<Seq<Line>, NoMemory>
    requires { length states.now ≡ length threads.now }
    ensures { IfOk result (λ lines. lines ≡ spec.thread_lines_from 1 states.now threads.now) }
{
    let mut lines = Vec::new(alloc);
    for i in 0..states.len() {
        push_thread_line(&mut lines, alloc, i + 1, states[i], &threads[i])?;
    }
    Ok(Seq::from_vec(lines))
}

fn help_line(alloc: Global) -> Result<Line, NoMemory>
    ensures { IfOk result (λ line. line ≡ spec.help_line) }
{
    let text = UText::from_latin1(
        alloc,
        b"|  /list /vars /methods /types /imports /threads /complete /drop /stop /reset /exit",
    )?;
    Ok(Line { text })
}

/// The answer to a line that is no command.
fn invalid_line(alloc: Global, line: &str) -> Result<Line, NoMemory>
    ensures { IfOk result (λ answer. answer ≡ spec.invalid_line line.now) }
{
    let mut text = UText::from_latin1(alloc, b"|  Invalid command: ")?;
    text.push_str(line)?;
    Ok(Line { text })
}

/// The lines that answer a question.
fn answer_lines(parts: &Parts, alloc: Global, question: &Question) -> Result<Seq<Line>, NoMemory>
    requires { length parts.now.world.states.items ≡ length parts.now.world.threads.items }
    ensures { IfOk result (λ lines. lines ≡ spec.answer_lines (state_from parts.now) question.now) }
{
    match question {
        Question::List => list_lines(alloc, &parts.book),
        Question::ListAll => all_lines(alloc, &parts.book),
        Question::Vars => variable_lines(alloc, parts),
        Question::Threads => thread_lines(alloc, &parts.world.states, &parts.world.threads),
        Question::Help => one(alloc, help_line(alloc)?),
        Question::Invalid(line) => one(alloc, invalid_line(alloc, line.as_str())?),
        Question::Methods | Question::Types | Question::Imports | Question::Complete(_) => {
            Ok(Seq::new(alloc))
        }
    }
}

/// The answer to a question.
pub fn answer_question(
    parts: &Parts,
    alloc: Global,
    question: &Question,
) -> Result<ReplyBody, NoMemory>
    requires sound { IsSound parts.now }
    ensures { IfOk result (λ answer. record { state = state_from parts.now; body = answer } ≡ spec.asked (state_from parts.now) question.now) }
{
    Ok(ReplyBody::Answered(answer_lines(parts, alloc, question)?))
}
