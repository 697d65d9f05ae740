//! Lines for the snippets that an act changes beside its own.

ghost use Rattle.std.specs.Prelude.{◌≡◌, ◌++◌, OnOk};
ghost use Rattle.std.specs.List.{flat_map, list_any};
ghost use Rattle.jsh_render.specs.Events as spec;
ghost use Rattle.jsh_render.specs.Snippets.{overwrites};

use crate::text::{push, push_text};
use crate::words::status_word;
use jsh_snippet::{Event, Status};
use jsh_text::{NoMemory, UText};

fn is_overwritten(status: Status) -> bool
    ensures { result ≡ spec.is_overwritten status }
{
    matches!(status, Status::Overwritten)
}

/// Whether some snippet was overwritten.
pub fn overwrites(events: &[Event]) -> bool
    ensures { result ≡ list_any overwrites events.now }
{
    events.iter().any(|event| is_overwritten(event.after))
}

/// Adds the lines of all events but the first, which is that of the act's own snippet.
pub fn push_events(bytes: &mut Vec<u8>, events: &[Event]) -> Result<(), NoMemory>
    ensures { OnOk result (bytes.new.items ≡ bytes.old.items ++ spec.event_lines events.now) }
{
    match events {
        [] => Ok(()),
        [_, others @ ..] => push_others(bytes, others),
    }
}

fn push_others(bytes: &mut Vec<u8>, events: &[Event]) -> Result<(), NoMemory>
    ensures { OnOk result (bytes.new.items ≡ bytes.old.items ++ flat_map spec.event_line events.now) }
{
    for event in events {
        push_event(bytes, event)?;
    }
    Ok(())
}

fn push_event(bytes: &mut Vec<u8>, event: &Event) -> Result<(), NoMemory>
    ensures { OnOk result (bytes.new.items ≡ bytes.old.items ++ spec.event_line event.now) }
{
    if is_overwritten(event.after) {
        Ok(())
    } else {
        push_change(bytes, event)
    }
}

fn push_change(bytes: &mut Vec<u8>, event: &Event) -> Result<(), NoMemory>
    ensures { OnOk result (bytes.new.items ≡ bytes.old.items ++ spec.change_line event.now) }
{
    push(bytes, b"|    ")?;
    push_text(bytes, &event.name)?;
    push(bytes, b" is now ")?;
    push(bytes, status_word(event.after).as_bytes())?;
    push_reset(bytes, &event.reset)?;
    push(bytes, b"\n")
}

fn push_reset(bytes: &mut Vec<u8>, reset: &Option<UText>) -> Result<(), NoMemory>
    ensures { OnOk result (bytes.new.items ≡ bytes.old.items ++ spec.reset_text reset.now) }
{
    match reset {
        None => Ok(()),
        Some(default) => {
            push(bytes, b", reset to ")?;
            push_text(bytes, default)
        }
    }
}
