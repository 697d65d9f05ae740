//! Lines for a snippet that is handed in or taken back.

ghost use Rattle.std.specs.Prelude.{◌≡◌, ◌++◌, OnOk};
ghost use Rattle.std.specs.List.{flat_map};
ghost use Rattle.jsh_text.specs.Utf.{utf8};
ghost use Rattle.jsh_render.specs.Diagnostics.{error_line};
ghost use Rattle.jsh_render.specs.Snippets as spec;

use crate::diagnostics::error_in;
use crate::events::{overwrites, push_events};
use crate::names::push_waits;
use crate::outcomes::push_value;
use crate::text::{push, push_decimal, push_text};
use crate::words::modifier_word;
use jsh_snippet::{Event, Kind, Status, Submitted};
use jsh_text::{NoMemory, UText};
use jsh_tree::{Diagnostic, Modifier, Name};

/// Adds all that is said of a snippet with this source.
#[tactic(auto, unfolding(crate::specs::Snippets::submitted_lines))]
pub fn push_submitted(
    bytes: &mut Vec<u8>,
    source: &[u8],
    submitted: &Submitted,
) -> Result<(), NoMemory>
    ensures { OnOk result (bytes.new.items ≡ bytes.old.items ++ spec.submitted_lines source.now submitted.now) }
{
    push_warnings(bytes, submitted.ignored.as_slice())?;
    push_errors(bytes, source, submitted.diagnostics.as_slice())?;
    push_snippet(bytes, submitted)?;
    push_events(bytes, submitted.events.as_slice())
}

fn push_warnings(bytes: &mut Vec<u8>, ignored: &[Modifier]) -> Result<(), NoMemory>
    ensures { OnOk result (bytes.new.items ≡ bytes.old.items ++ flat_map spec.warning_line ignored.now) }
{
    for modifier in ignored {
        push_warning(bytes, *modifier)?;
    }
    Ok(())
}

fn push_warning(bytes: &mut Vec<u8>, modifier: Modifier) -> Result<(), NoMemory>
    ensures { OnOk result (bytes.new.items ≡ bytes.old.items ++ spec.warning_line modifier) }
{
    push(bytes, b"|  Warning: modifier ")?;
    push(bytes, modifier_word(modifier).as_bytes())?;
    push(bytes, b" ignored\n")
}

fn push_errors(
    bytes: &mut Vec<u8>,
    source: &[u8],
    diagnostics: &[Diagnostic],
) -> Result<(), NoMemory>
    ensures { OnOk result (bytes.new.items ≡ bytes.old.items ++ flat_map (error_line source.now) diagnostics.now) }
{
    for diagnostic in diagnostics {
        push_error(bytes, source, diagnostic)?;
    }
    Ok(())
}

fn push_error(bytes: &mut Vec<u8>, source: &[u8], diagnostic: &Diagnostic) -> Result<(), NoMemory>
    ensures { OnOk result (bytes.new.items ≡ bytes.old.items ++ error_line source.now diagnostic.now) }
{
    let text = error_in(*bytes.allocator(), source, diagnostic)?;
    push(bytes, text.as_bytes())
}

/// Adds the line of the snippet itself.
fn push_snippet(bytes: &mut Vec<u8>, submitted: &Submitted) -> Result<(), NoMemory>
    ensures { OnOk result (bytes.new.items ≡ bytes.old.items ++ spec.snippet_line submitted.now submitted.now.kind) }
{
    let now = status_of(submitted.events.as_slice());
    match submitted.kind {
        Kind::Var => push_variable(bytes, submitted, now),
        Kind::Method | Kind::TypeDecl => {
            let word = made_word(submitted.events.as_slice());
            push_declared(bytes, word, submitted, now)
        }
        _ => Ok(()),
    }
}

/// The status of the new snippet.
fn status_of(events: &[Event]) -> Status
    ensures { result ≡ spec.status_of events.now }
{
    match events {
        [] => Status::Nonexistent,
        [own, ..] => own.after,
    }
}

fn made_word(events: &[Event]) -> &'static [u8]
    ensures { result.now ≡ spec.made_word events.now }
{
    match events {
        [] => b"created",
        [own, others @ ..] => word_of(overwrites(others), own.signature_changed),
    }
}

fn word_of(overwrites: bool, changed: bool) -> &'static [u8]
    ensures { result.now ≡ spec.word_of overwrites changed }
{
    match (overwrites, changed) {
        (false, _) => b"created",
        (true, false) => b"modified",
        (true, true) => b"replaced",
    }
}

fn push_variable(bytes: &mut Vec<u8>, submitted: &Submitted, now: Status) -> Result<(), NoMemory>
    ensures { OnOk result (bytes.new.items ≡ bytes.old.items ++ spec.variable_line submitted.now now) }
{
    match now {
        Status::RecoverableNotDefined => push_declared(bytes, b"created", submitted, now),
        _ => push_default(bytes, &submitted.name, &submitted.value),
    }
}

fn push_default(bytes: &mut Vec<u8>, name: &UText, value: &Option<UText>) -> Result<(), NoMemory>
    ensures { OnOk result (bytes.new.items ≡ bytes.old.items ++ spec.default_line name.now value.now) }
{
    match value {
        None => Ok(()),
        Some(value) => push_value(bytes, name, value),
    }
}

fn push_declared(
    bytes: &mut Vec<u8>,
    word: &[u8],
    submitted: &Submitted,
    now: Status,
) -> Result<(), NoMemory>
    ensures { OnOk result (bytes.new.items ≡ bytes.old.items ++ spec.declared_line word.now submitted.now now) }
{
    push(bytes, b"|  ")?;
    push(bytes, word)?;
    push(bytes, b" ")?;
    push_title(bytes, submitted.id, submitted.kind, &submitted.name)?;
    push_however(bytes, now, submitted.unresolved.as_slice())?;
    push(bytes, b"\n")
}

/// Adds a snippet's name with the word for what it is, or its number where it has no name.
fn push_title(bytes: &mut Vec<u8>, id: u32, kind: Kind, name: &UText) -> Result<(), NoMemory>
    ensures { OnOk result (bytes.new.items ≡ bytes.old.items ++ spec.title id kind name.now) }
{
    match kind {
        Kind::Var => push_titled(bytes, b"variable ", name),
        Kind::Method => push_titled(bytes, b"method ", name),
        Kind::TypeDecl | Kind::Import => push_text(bytes, name),
        _ => {
            push(bytes, b"snippet ")?;
            push_decimal(bytes, id as u64)
        }
    }
}

fn push_titled(bytes: &mut Vec<u8>, word: &[u8], name: &UText) -> Result<(), NoMemory>
    ensures { OnOk result (bytes.new.items ≡ bytes.old.items ++ (word.now ++ utf8 name.now)) }
{
    push(bytes, word)?;
    push_text(bytes, name)
}

/// Adds what a snippet waits for that isn't valid.
fn push_however(bytes: &mut Vec<u8>, now: Status, missing: &[Name]) -> Result<(), NoMemory>
    ensures { OnOk result (bytes.new.items ≡ bytes.old.items ++ spec.however_text now missing.now) }
{
    match now {
        Status::RecoverableDefined => {
            push_waits(bytes, b", however, it cannot be invoked until ", missing)
        }
        Status::RecoverableNotDefined => {
            push_waits(bytes, b", however, it cannot be referenced until ", missing)
        }
        _ => Ok(()),
    }
}

/// Adds all that is said of a snippet that is taken back.
pub fn push_dropped(
    bytes: &mut Vec<u8>,
    id: u32,
    kind: Kind,
    name: &UText,
    events: &[Event],
) -> Result<(), NoMemory>
    ensures { OnOk result (bytes.new.items ≡ bytes.old.items ++ spec.dropped_lines id kind name.now events.now) }
{
    push(bytes, b"|  dropped ")?;
    push_title(bytes, id, kind, name)?;
    push(bytes, b"\n")?;
    push_events(bytes, events)
}
