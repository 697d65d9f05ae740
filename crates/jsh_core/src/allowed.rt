//! Which entries may come.

ghost use Rattle.std.specs.Prelude.{◌≡◌, ◌↔◌, ◌+◌, ◌≤◌, Some, true, slice_get, IsTrue};
ghost use Rattle.jsh_tree.specs.Text.{most_source};
ghost use Rattle.jsh_core.specs.Limits.{most_bytes};
ghost use Rattle.jsh_core.specs.History.{source_bytes, Allows, HasRoom, IsTarget, MayDo};
ghost use Rattle.jsh_core.specs.Questions.{IsAnswered};
ghost use Rattle.jsh_core.specs.Stands.{StandsFor};

use crate::limits::{MOST_BYTES, MOST_ENTRIES, MOST_STEPS};
use crate::log::{Log, act_bytes};
use crate::parts::Parts;
use jsh_lex::is_identifier;
use jsh_snippet::{Act, Entry, Question, Target};
use jsh_tree::MOST_SOURCE;

/// Whether a question is answered so far.
fn is_answered(question: &Question) -> bool
    ensures { IsTrue result ↔ IsAnswered question.now }
{
    match question {
        Question::List => true,
        Question::ListAll => true,
        Question::Vars => true,
        Question::Methods => true,
        Question::Types => true,
        Question::Imports => true,
        Question::Threads => true,
        Question::Help => true,
        Question::Complete(_) => false,
        Question::Invalid(_) => true,
    }
}

/// Whether a snippet can be taken back by this.
fn is_target(target: &Target) -> bool
    ensures { IsTrue result ↔ IsTarget target.now }
{
    match target {
        Target::Id(_) => true,
        Target::Named(name) => is_identifier(name.as_str()),
    }
}

/// Whether there is room for an entry that hands in no text.
fn has_room(log: &Log) -> bool
    ensures { IsTrue result ↔ HasRoom log.now.history.items }
{
    log.history.len() < MOST_ENTRIES as usize
}

/// Whether there is room for an entry that hands in so many bytes.
fn has_room_for(log: &Log, bytes: u64) -> bool
    ensures { IsTrue result ↔ (HasRoom log.now.history.items × (bytes ≤ most_source) × (log.now.bytes + bytes ≤ most_bytes)) }
{
    has_room(log) && bytes <= MOST_SOURCE as u64 && log.bytes <= MOST_BYTES - bytes
}

/// Whether a client may do an act.
fn may_do(log: &Log, client: u32, act: &Act) -> bool
    requires { log.now.bytes ≡ source_bytes log.now.history.items }
    ensures { IsTrue result ↔ MayDo log.now.history.items client act.now }
{
    match act {
        Act::Enter => has_room(log),
        Act::Submit { .. } => has_room_for(log, act_bytes(act)),
        Act::Turn { steps, .. } => has_room(log) && *steps >= 1 && *steps <= MOST_STEPS,
        Act::Collect { .. } => has_room(log),
        Act::Expire { .. } => has_room(log),
        Act::Stop { .. } => has_room(log),
        Act::Drop { target } => has_room_for(log, act_bytes(act)) && is_target(target),
        Act::Ask { question } => has_room_for(log, act_bytes(act)) && is_answered(question),
        Act::Reset => has_room(log),
        Act::Leave => true,
        Act::Close => client == 0,
    }
}

/// Whether a client was numbered and hasn't left.
fn is_present(parts: &Parts, client: u32) -> bool
    ensures { IsTrue result ↔ (slice_get parts.now.clients.items client ≡ Some true) }
{
    match parts.clients.get(client as usize) {
        Some(there) => *there,
        None => false,
    }
}

/// Whether an entry may come next.
pub fn is_allowed(log: &Log, parts: &Parts, entry: &Entry) -> bool
    requires { StandsFor log.now parts.now }
    ensures { IsTrue result ↔ Allows log.now.history.items entry.now }
{
    is_present(parts, entry.client) && log.closed.is_none() && may_do(log, entry.client, &entry.act)
}
