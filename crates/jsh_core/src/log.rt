ghost use Rattle.std.specs.Prelude.{◌≡◌, ◌+◌, ◌<◌, ◌≤◌, ◌^◌, ◌∷◌, ◌++◌, [], None, Some, true, false, if◌then◌else◌, length, vec_len, vec_capacity, IfOk, IsOk, OnOk};
ghost use Rattle.jsh_core.specs.Acts.{is_last};
ghost use Rattle.jsh_core.specs.History.{act_bytes, is_close, target_text};
ghost use Rattle.jsh_core.specs.Questions.{question_text};
ghost use Rattle.jsh_core.specs.Stands.{entry_room};
ghost use Rattle.jsh_core.specs.Step.{act_with_steps, kept};

use crate::limits::MOST_CLIENTS;
use crate::lists::push_reserved;
use jsh_snippet::{Act, Entry, Question, Reply, ReplyBody, Target};
use jsh_text::NoMemory;
use std::alloc::Global;

/// Room for an entry, and behind it for the leaves of all clients and the close.
const ENTRY_ROOM: usize = MOST_CLIENTS + 2;

/// The entries, and what is counted of them.
#[derive(Drop)]
pub struct Log {
    pub history: Vec<Entry>,
    /// The source bytes of the history.
    pub bytes: u64,
    /// The place of the close.
    pub closed: Option<u64>,
}

/// A log without entries, with room for the last ones.
pub fn new_log(alloc: Global) -> Result<Log, NoMemory>
    ensures empty { IfOk result (λ log. log.history.items ≡ []) }
    ensures bytes { IfOk result (λ log. log.bytes ≡ 0) }
    ensures closed { IfOk result (λ log. log.closed ≡ None) }
    ensures room { IfOk result (λ log. entry_room ≤ vec_capacity log.history) }
{
    let mut history = Vec::new(alloc);
    history.reserve(ENTRY_ROOM)?;
    Ok(Log {
        history,
        bytes: 0,
        closed: None,
    })
}

/// Whether room was left for an act.
fn is_last(act: &Act) -> bool
    ensures { result ≡ is_last act.now }
{
    matches!(act, Act::Leave | Act::Close)
}

/// Room for the entry of an act, where none was left for it.
pub fn make_room(log: &mut Log, act: &Act) -> Result<(), NoMemory>
    ensures items { log.new.history.items ≡ log.old.history.items }
    ensures bytes { log.new.bytes ≡ log.old.bytes }
    ensures closed { log.new.closed ≡ log.old.closed }
    ensures capacity { vec_capacity log.old.history ≤ vec_capacity log.new.history }
    ensures room { OnOk result (is_last act.now ≡ false → length log.old.history.items + entry_room ≤ vec_capacity log.new.history) }
    ensures last { is_last act.now ≡ true → IsOk result }
{
    if is_last(act) {
        return Ok(());
    }
    log.history.reserve(ENTRY_ROOM)?;
    Ok(())
}

/// The bytes of source that an act has, those of a name and of a question's text among them.
pub fn act_bytes(act: &Act) -> u64
    ensures { result ≡ act_bytes act.now }
{
    match act {
        Act::Submit { source } => source.as_str().len() as u64,
        Act::Drop { target } => target_bytes(target),
        Act::Ask { question } => question_bytes(question),
        _ => 0,
    }
}

fn target_bytes(target: &Target) -> u64
    ensures { result ≡ length (target_text target.now) }
{
    match target {
        Target::Id(_) => 0,
        Target::Named(name) => name.as_str().len() as u64,
    }
}

fn question_bytes(question: &Question) -> u64
    ensures { result ≡ length (question_text question.now) }
{
    match question {
        Question::Complete(text) => text.as_str().len() as u64,
        Question::Invalid(line) => line.as_str().len() as u64,
        _ => 0,
    }
}

fn is_close(act: &Act) -> bool
    ensures { result ≡ is_close act.now }
{
    matches!(act, Act::Close)
}

/// An entry stands behind the others. There is room for it.
pub fn push_entry(log: &mut Log, entry: Entry)
    requires room { vec_len log.old.history < vec_capacity log.old.history }
    requires few { log.old.bytes + act_bytes entry.act < 2 ^ 64 }
    ensures items { log.new.history.items ≡ log.old.history.items ++ entry ∷ [] }
    ensures capacity { vec_capacity log.old.history ≤ vec_capacity log.new.history }
    ensures bytes { log.new.bytes ≡ log.old.bytes + act_bytes entry.act }
    ensures closed { log.new.closed ≡ (if is_close entry.act then Some (length log.old.history.items) else log.old.closed) }
{
    log.bytes += act_bytes(&entry.act);
    if is_close(&entry.act) {
        log.closed = Some(log.history.len() as u64);
    }
    push_reserved(&mut log.history, entry);
}

/// An entry of a turn with the steps that it has done. Any other entry is as it was.
pub fn with_steps(entry: Entry, done: u32) -> Entry
    ensures { result ≡ record { client = entry.client; act = act_with_steps entry.act done } }
{
    match entry.act {
        Act::Turn { thread, .. } => Entry {
            client: entry.client,
            act: Act::Turn {
                thread,
                steps: done,
            },
        },
        _ => entry,
    }
}

/// An entry as the history keeps it.
pub fn kept_entry(entry: Entry, reply: &Reply) -> Entry
    ensures { result ≡ kept entry reply.now }
{
    match reply.body {
        ReplyBody::Turned { steps } if steps > 0 => with_steps(entry, steps),
        _ => entry,
    }
}
