//! Lines for a run that is over.

ghost use Rattle.std.specs.Prelude.{◌≡◌, ◌++◌, codes, decimal, OnOk};
ghost use Rattle.std.specs.List.{flat_map};
ghost use Rattle.jsh_text.specs.Value.{kind_text};
ghost use Rattle.jsh_render.specs.Outcomes as spec;

use crate::names::push_waits;
use crate::text::{push, push_decimal, push_text};
use jsh_snippet::{Collected, Outcome};
use jsh_text::{KindName, NoMemory, UText};
use jsh_tree::Name;

const RIGHT_PARENTHESIS: u16 = b')' as u16;

/// Adds what is said of a run that was asked for.
pub fn push_collected(bytes: &mut Vec<u8>, collected: &Collected) -> Result<(), NoMemory>
    ensures { OnOk result (bytes.new.items ≡ bytes.old.items ++ spec.collected_line collected.now) }
{
    match collected {
        Collected::Over { name, outcome, .. } => push_outcome(bytes, name, outcome),
        Collected::Running { .. } => Ok(()),
    }
}

fn push_outcome(bytes: &mut Vec<u8>, name: &UText, outcome: &Outcome) -> Result<(), NoMemory>
    ensures { OnOk result (bytes.new.items ≡ bytes.old.items ++ spec.outcome_line name.now outcome.now) }
{
    match outcome {
        Outcome::NoRun | Outcome::Finished => Ok(()),
        Outcome::Value(text) => push_value(bytes, name, text),
        Outcome::Thrown { class, message } => push_thrown(bytes, class, message),
        Outcome::Unresolved {
            name: called,
            missing,
            ..
        } => push_unresolved(bytes, called, missing.as_slice()),
        Outcome::Stopped { by } => {
            push_counted(bytes, b"|  stopped by client ", *by as u64, b"\n")
        }
        Outcome::Spent { steps } => push_counted(bytes, b"|  stopped after ", *steps, b" steps\n"),
        Outcome::Stalled { threads } => push_stalled(bytes, threads.as_slice()),
        Outcome::Wrong { wanted, found } => push_wrong(bytes, *wanted, *found),
    }
}

/// Adds the line of a value, with the name of the variable that holds it where there is one.
pub fn push_value(bytes: &mut Vec<u8>, name: &UText, value: &UText) -> Result<(), NoMemory>
    ensures { OnOk result (bytes.new.items ≡ bytes.old.items ++ spec.value_line name.now value.now) }
{
    if !name.is_empty() {
        push_text(bytes, name)?;
        push(bytes, b" ==> ")?;
    }
    push_text(bytes, value)?;
    push(bytes, b"\n")
}

fn push_thrown(bytes: &mut Vec<u8>, class: &UText, message: &Option<UText>) -> Result<(), NoMemory>
    ensures { OnOk result (bytes.new.items ≡ bytes.old.items ++ spec.thrown_line class.now message.now) }
{
    push(bytes, b"|  Exception ")?;
    push_text(bytes, class)?;
    push_message(bytes, message)?;
    push(bytes, b"\n")
}

fn push_message(bytes: &mut Vec<u8>, message: &Option<UText>) -> Result<(), NoMemory>
    ensures { OnOk result (bytes.new.items ≡ bytes.old.items ++ spec.message_text message.now) }
{
    match message {
        None => Ok(()),
        Some(message) => {
            push(bytes, b": ")?;
            push_text(bytes, message)
        }
    }
}

fn push_unresolved(bytes: &mut Vec<u8>, name: &UText, missing: &[Name]) -> Result<(), NoMemory>
    ensures { OnOk result (bytes.new.items ≡ bytes.old.items ++ spec.unresolved_line name.now missing.now) }
{
    push(bytes, b"|  attempted to ")?;
    push_attempt(bytes, name)?;
    push(bytes, b" ")?;
    push_reason(bytes, missing)?;
    push(bytes, b"\n")
}

fn is_method_name(units: &[u16]) -> bool
    ensures { result ≡ spec.is_method_name units.now }
{
    !units.is_empty() && units[units.len() - 1] == RIGHT_PARENTHESIS
}

fn push_attempt(bytes: &mut Vec<u8>, name: &UText) -> Result<(), NoMemory>
    ensures { OnOk result (bytes.new.items ≡ bytes.old.items ++ spec.attempt name.now) }
{
    if is_method_name(name.as_slice()) {
        push(bytes, b"call ")?;
    } else {
        push(bytes, b"use ")?;
    }
    push_text(bytes, name)
}

fn push_reason(bytes: &mut Vec<u8>, missing: &[Name]) -> Result<(), NoMemory>
    ensures { OnOk result (bytes.new.items ≡ bytes.old.items ++ spec.reason missing.now) }
{
    match missing {
        [] => push(bytes, b"which has errors"),
        _ => push_waits(bytes, b"which cannot be invoked until ", missing),
    }
}

/// Adds a number between texts.
pub fn push_counted(
    bytes: &mut Vec<u8>,
    before: &[u8],
    number: u64,
    behind: &[u8],
) -> Result<(), NoMemory>
    ensures { OnOk result (bytes.new.items ≡ bytes.old.items ++ (before.now ++ decimal number ++ behind.now)) }
{
    push(bytes, before)?;
    push_decimal(bytes, number)?;
    push(bytes, behind)
}

fn push_stalled(bytes: &mut Vec<u8>, threads: &[u32]) -> Result<(), NoMemory>
    ensures { OnOk result (bytes.new.items ≡ bytes.old.items ++ (codes "|  stalled: " ++ spec.numbers_text threads.now ++ codes "\n")) }
{
    push(bytes, b"|  stalled: ")?;
    push_numbers(bytes, threads)?;
    push(bytes, b"\n")
}

fn push_numbers(bytes: &mut Vec<u8>, numbers: &[u32]) -> Result<(), NoMemory>
    ensures { OnOk result (bytes.new.items ≡ bytes.old.items ++ spec.numbers_text numbers.now) }
{
    match numbers {
        [] => Ok(()),
        [first, others @ ..] => {
            push_decimal(bytes, *first as u64)?;
            push_further_numbers(bytes, others)
        }
    }
}

fn push_further_numbers(bytes: &mut Vec<u8>, numbers: &[u32]) -> Result<(), NoMemory>
    ensures { OnOk result (bytes.new.items ≡ bytes.old.items ++ flat_map spec.further_number numbers.now) }
{
    for number in numbers {
        push_further_number(bytes, *number)?;
    }
    Ok(())
}

fn push_further_number(bytes: &mut Vec<u8>, number: u32) -> Result<(), NoMemory>
    ensures { OnOk result (bytes.new.items ≡ bytes.old.items ++ spec.further_number number) }
{
    push(bytes, b", ")?;
    push_decimal(bytes, number as u64)
}

fn push_wrong(bytes: &mut Vec<u8>, wanted: KindName, found: KindName) -> Result<(), NoMemory>
    ensures { OnOk result (bytes.new.items ≡ bytes.old.items ++ (codes "|  wrong kind: " ++ kind_text wanted ++ codes ", " ++ kind_text found ++ codes "\n")) }
{
    push(bytes, b"|  wrong kind: ")?;
    push(bytes, wanted.as_str().as_bytes())?;
    push(bytes, b", ")?;
    push(bytes, found.as_str().as_bytes())?;
    push(bytes, b"\n")
}
