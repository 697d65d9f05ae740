//! The entries that were read so far, and which may come next.

ghost use Rattle.std.specs.Prelude.{◌≡◌, ◌↔◌, ◌<◌, ◌≤◌, ◌+◌, ◌||◌, ◌∷◌, ◌++◌, [], Some, true, length, slice_get, IfOk, OnOk, OnErr, IsTrue, vec_len, vec_capacity};
ghost use Rattle.jsh_tree.specs.Text.{most_source};
ghost use Rattle.jsh_core.specs.Limits.{most_bytes};
ghost use Rattle.jsh_core.specs.History.{act_bytes, is_close, source_bytes, target_text, Allows, HasRoom, IsTarget, MayDo};
ghost use Rattle.jsh_core.specs.Questions.{question_text, IsAnswered};
ghost use Rattle.jsh_replay.specs.Standing.{clients_after, Keeps};

use jsh_core::{MOST_BYTES, MOST_CLIENTS, MOST_ENTRIES, MOST_STEPS};
use jsh_lex::is_identifier;
use jsh_snippet::{Act, Entry, Question, Target};
use jsh_text::NoMemory;
use jsh_tree::MOST_SOURCE;
use std::alloc::Global;
use std::marker::Model;

/// The entries so far, and what decides which may come next. Contracts see it as the entries.
#[derive(Drop)]
pub struct Past {
    entries: Vec<Entry>,
    /// The source bytes of the entries.
    sources: u64,
    /// For each client that was numbered, whether it is still there.
    clients: Vec<bool>,
    /// Whether there was a close.
    closed: bool,
}

impl Model for Past {
    ghost use Rattle.std.specs.Prelude.{List};
    ghost use Rattle.jsh_snippet.specs.declared.acts.Entry.{Entry};
    ghost use Rattle.jsh_replay.specs.Standing.{Keeps};

    ghost Value = { List Entry };

    ghost view = { λ p. p.entries.items };

    ghost invariant = { λ p. Keeps p.entries.items p.sources p.clients.items p.closed };
}

/// Whether a client was numbered and hasn't left.
fn is_there(clients: &[bool], client: u32) -> bool
    ensures { IsTrue result ↔ (slice_get clients.now client ≡ Some true) }
{
    match clients.get(client as usize) {
        Some(there) => *there,
        None => false,
    }
}

/// Whether there is room behind these for an entry that hands in no text.
fn has_room(entries: &[Entry]) -> bool
    ensures { IsTrue result ↔ HasRoom entries.now }
{
    entries.len() < MOST_ENTRIES as usize
}

/// Whether there is room for an entry that hands in so many bytes, behind entries with so many source bytes.
fn has_room_for(entries: &[Entry], sources: u64, bytes: u64) -> bool
    ensures { IsTrue result ↔ (HasRoom entries.now × (bytes ≤ most_source) × (sources + bytes ≤ most_bytes)) }
{
    has_room(entries) && bytes <= MOST_SOURCE as u64 && sources <= MOST_BYTES - bytes
}

fn is_target(target: &Target) -> bool
    ensures { IsTrue result ↔ IsTarget target.now }
{
    match target {
        Target::Id(_) => true,
        Target::Named(name) => is_identifier(name.as_str()),
    }
}

fn is_answered(question: &Question) -> bool
    ensures { IsTrue result ↔ IsAnswered question.now }
{
    match question {
        Question::List => true,
        Question::ListAll => true,
        Question::Vars => true,
        Question::Methods => true,
        Question::Types => true,
        Question::Imports => true,
        Question::Threads => true,
        Question::Help => true,
        Question::Complete(_) => false,
        Question::Invalid(_) => true,
    }
}

/// Whether a client may do an act behind entries with so many source bytes.
fn may_do(entries: &[Entry], sources: u64, client: u32, act: &Act) -> bool
    requires { sources ≡ source_bytes entries.now }
    ensures { IsTrue result ↔ MayDo entries.now client act.now }
{
    match act {
        Act::Enter => has_room(entries),
        Act::Submit { .. } => has_room_for(entries, sources, act_bytes(act)),
        Act::Turn { steps, .. } => has_room(entries) && *steps >= 1 && *steps <= MOST_STEPS,
        Act::Collect { .. } => has_room(entries),
        Act::Expire { .. } => has_room(entries),
        Act::Stop { .. } => has_room(entries),
        Act::Drop { target } => has_room_for(entries, sources, act_bytes(act)) && is_target(target),
        Act::Ask { question } => {
            has_room_for(entries, sources, act_bytes(act)) && is_answered(question)
        }
        Act::Reset => has_room(entries),
        Act::Leave => true,
        Act::Close => client == 0,
    }
}

/// Whether an entry may come behind these, of which the rest is kept.
fn is_allowed(
    entries: &[Entry],
    sources: u64,
    clients: &[bool],
    closed: bool,
    entry: &Entry,
) -> bool
    requires { Keeps entries.now sources clients.now closed }
    ensures { IsTrue result ↔ Allows entries.now entry.now }
{
    is_there(clients, entry.client) && !closed && may_do(entries, sources, entry.client, &entry.act)
}

/// The clients behind an entry of one of them.
#[tactic(auto, unfolding(crate::specs::Standing::clients_after))]
fn count_clients(clients: &mut Vec<bool>, entry: &Entry) -> Result<(), NoMemory>
    requires { entry.now.client < length clients.old.items }
    ensures ok { OnOk result (clients.new.items ≡ clients_after clients.old.items entry.now.client entry.now.act) }
    ensures err { OnErr result (clients.new.items ≡ clients.old.items) }
{
    match entry.act {
        Act::Enter => {
            if clients.len() < MOST_CLIENTS {
                clients.push(true)?;
            }
        }
        Act::Leave => clients[entry.client as usize] = false,
        _ => (),
    }
    Ok(())
}

impl Past {
    /// No entries, and client 0.
    pub fn new(alloc: Global) -> Result<Past, NoMemory>
        ensures { IfOk result (λ past. past ≡ []) }
    {
        let mut clients = Vec::new(alloc);
        clients.push(true)?;
        Ok(Past {
            entries: Vec::new(alloc),
            sources: 0,
            clients,
            closed: false,
        })
    }

    /// How many entries there are.
    pub fn len(&self) -> u64
        ensures { result ≡ length self.now }
    {
        self.entries.len() as u64
    }

    /// Whether an entry may come next.
    pub fn may_come(&self, entry: &Entry) -> bool
        ensures { IsTrue result ↔ Allows self.now entry.now }
    {
        is_allowed(
            &self.entries,
            self.sources,
            &self.clients,
            self.closed,
            entry,
        )
    }

    /// An entry comes.
    pub fn push(&mut self, entry: Entry) -> Result<(), NoMemory>
        requires { Allows self.old entry }
        ensures ok { OnOk result (self.new ≡ self.old ++ entry ∷ []) }
        ensures err { OnErr result (self.new ≡ self.old) }
    {
        self.entries.reserve(1)?;
        count_clients(&mut self.clients, &entry)?;
        self.sources += act_bytes(&entry.act);
        self.closed = is_closed_by(self.closed, &entry.act);
        push_reserved(&mut self.entries, entry);
        Ok(())
    }

    /// The entries, first to last.
    pub fn into_entries(self) -> Vec<Entry>
        ensures { result.items ≡ self }
    {
        let Past {
            entries,
            sources: _,
            clients: _,
            closed: _,
        } = self;
        entries
    }
}

fn push_reserved(entries: &mut Vec<Entry>, entry: Entry)
    requires { vec_len entries.old < vec_capacity entries.old }
    ensures { entries.new.items ≡ entries.old.items ++ entry ∷ [] }
{
    match entries.push(entry) {
        Ok(()) => (),
        Err(_) => unreachable!(),
    }
}

/// Whether there was a close, behind an act.
fn is_closed_by(closed: bool, act: &Act) -> bool
    ensures { result ≡ (closed || is_close act.now) }
{
    closed || matches!(act, Act::Close)
}

/// The bytes of source that an act has.
fn act_bytes(act: &Act) -> u64
    ensures { result ≡ act_bytes act.now }
{
    match act {
        Act::Submit { source } => source.as_str().len() as u64,
        Act::Drop { target } => target_bytes(target),
        Act::Ask { question } => question_bytes(question),
        _ => 0,
    }
}

fn target_bytes(target: &Target) -> u64
    ensures { result ≡ length (target_text target.now) }
{
    match target {
        Target::Id(_) => 0,
        Target::Named(name) => name.as_str().len() as u64,
    }
}

fn question_bytes(question: &Question) -> u64
    ensures { result ≡ length (question_text question.now) }
{
    match question {
        Question::Complete(text) => text.as_str().len() as u64,
        Question::Invalid(line) => line.as_str().len() as u64,
        _ => 0,
    }
}
