//! The feedback that a client is written for its entries, as the `jshell` tool words it (JEP 222).
//! `specs/Texts.antt` says it whole.
#![tactic(auto)]

ghost use Rattle.std.specs.Prelude.{◌≡◌, ◌++◌, IfOk, OnOk};
ghost use Rattle.std.specs.List.{flat_map};
ghost use Rattle.jsh_render.specs.Texts.{source_of, run_of, answer_line, feedback, rendered, shown};

mod diagnostics;
mod events;
mod names;
mod outcomes;
mod place;
mod refusals;
#[cfg(test)]
mod snippet_tests;
mod snippets;
#[cfg(test)]
mod tests;
mod text;
mod words;

use crate::outcomes::{push_collected, push_counted};
use crate::refusals::refusal_text;
use crate::snippets::{push_dropped, push_submitted};
use crate::text::{push, push_text};
use jsh_snippet::{Act, Entry, Line, Reply, ReplyBody};
use jsh_text::NoMemory;
use std::alloc::Global;

/// The feedback of a reply to an entry in UTF-8, without what the client's threads have printed.
pub fn render(alloc: Global, entry: &Entry, reply: &Reply) -> Result<Vec<u8>, NoMemory>
    ensures { IfOk result (λ bytes. bytes.items ≡ rendered entry.now reply.now) }
{
    let mut bytes = Vec::new(alloc);
    push_feedback(&mut bytes, &entry.act, &reply.body)?;
    Ok(bytes)
}

/// All that a client is written for an entry, in UTF-8: what its threads have printed, then the feedback.
pub fn show(alloc: Global, entry: &Entry, reply: &Reply) -> Result<Vec<u8>, NoMemory>
    ensures { IfOk result (λ bytes. bytes.items ≡ shown entry.now reply.now) }
{
    let mut bytes = reply.output.to_utf8(alloc)?;
    push_feedback(&mut bytes, &entry.act, &reply.body)?;
    Ok(bytes)
}

fn push_feedback(bytes: &mut Vec<u8>, act: &Act, body: &ReplyBody) -> Result<(), NoMemory>
    ensures { OnOk result (bytes.new.items ≡ bytes.old.items ++ feedback act.now body.now) }
{
    match body {
        ReplyBody::Submitted(submitted) => push_submitted(bytes, source(act), submitted),
        ReplyBody::Collected(collected) => push_collected(bytes, collected),
        ReplyBody::StopDone { run } => {
            push_counted(bytes, b"|  run ", *run as u64, b" stopped\n")
        }
        ReplyBody::Dropped {
            id,
            kind,
            name,
            events,
        } => push_dropped(bytes, *id, *kind, name, events.as_slice()),
        ReplyBody::Answered(lines) => push_lines(bytes, lines.as_slice()),
        ReplyBody::ResetDone { .. } => push(bytes, b"|  Resetting state.\n"),
        ReplyBody::Refused(refusal) => {
            let text = refusal_text(*bytes.allocator(), run(act), refusal)?;
            push(bytes, text.as_bytes())
        }
        ReplyBody::Entered { .. }
        | ReplyBody::Turned { .. }
        | ReplyBody::Left
        | ReplyBody::Closed => Ok(()),
    }
}

fn push_lines(bytes: &mut Vec<u8>, lines: &[Line]) -> Result<(), NoMemory>
    ensures { OnOk result (bytes.new.items ≡ bytes.old.items ++ flat_map answer_line lines.now) }
{
    for line in lines {
        push_line(bytes, line)?;
    }
    Ok(())
}

fn push_line(bytes: &mut Vec<u8>, line: &Line) -> Result<(), NoMemory>
    ensures { OnOk result (bytes.new.items ≡ bytes.old.items ++ answer_line line.now) }
{
    push_text(bytes, &line.text)?;
    push(bytes, b"\n")
}

// The source that an act hands in.
fn source(act: &Act) -> &[u8]
    ensures { result.now ≡ source_of act.now }
{
    match act {
        Act::Submit { source } => source.as_str().as_bytes(),
        _ => &[],
    }
}

// The run that an act asks for, and 0 where it asks for none.
fn run(act: &Act) -> u32
    ensures { result ≡ run_of act.now }
{
    match act {
        Act::Collect { run } | Act::Expire { run, .. } => *run,
        _ => 0,
    }
}
