//! How a snippet is taken back.

ghost use Rattle.std.specs.Prelude.{◌≡◌, ℕ, ◌+◌, ◌<◌, ◌≤◌, ◌^◌, ◌∷◌, [], filter, find, length, IfErr, IfOk, IfSome, IsSome, OnErr};
ghost use Rattle.std.specs.Option.{is_some, option_copied};
ghost use Rattle.jsh_snippet.specs.declared.records.Record.{Record};
ghost use Rattle.jsh_snippet.specs.declared.replies.Refusal.TheVariants as refusal;
ghost use Rattle.jsh_snippet.specs.declared.replies.ReplyBody.TheVariants as body;
ghost use Rattle.jsh_core.specs.State.{State, numbered, refuses};
ghost use Rattle.jsh_core.specs.Generations.{has_name, live_named};
ghost use Rattle.jsh_core.specs.Drops as spec;
ghost use Rattle.jsh_core.specs.Parts.{generation_of, state_from, IsSound, IsWithin};

use crate::generation::Live;
use crate::lists::at_number;
use crate::parts::{GenerationParts, Parts};
use crate::snippets::{one, temporary_name_of};
use jsh_snippet::{Event, Fate, Kind, Record, Refusal, ReplyBody, Status, Target};
use jsh_text::NoMemory;
use jsh_tree::{Key, Name};
use std::alloc::Global;

/// The declaration of a record, where it is in force.
fn live_of(generation: &GenerationParts, id: u32) -> Option<&Live>
    ensures { option_copied result ≡ spec.live_of (generation_of generation.now) id }
{
    generation.live.iter().find(|live| live.id == id)
}

/// The status of a record that may be taken back.
fn status_before(live: Option<&Live>) -> Status
    ensures { result ≡ spec.status_before (option_copied live.entry) }
{
    match live {
        None => Status::Valid,
        Some(live) => live.status,
    }
}

/// Whether a declaration with a link loses it.
fn loses_link(live: Option<&Live>) -> bool
    ensures { result ≡ spec.loses_link (option_copied live.entry) }
{
    match live {
        None => false,
        Some(live) => live.given.is_some(),
    }
}

/// The event of a record that is taken back.
fn drop_event(alloc: Global, id: u32, live: Option<&Live>) -> Result<Event, NoMemory>
    ensures { IfOk result (λ event. event ≡ spec.drop_event id (option_copied live.entry)) }
{
    Ok(Event {
        id,
        name: temporary_name_of(alloc, id)?,
        before: status_before(live),
        after: Status::Dropped,
        signature_changed: loses_link(live),
        reset: None,
        cause: None,
    })
}

/// The kind that a record has got at its entry.
fn kind_of_record(found: &Record) -> Kind
    ensures { result ≡ spec.kind_of_record found.now }
{
    found.kind.unwrap_or(Kind::Erroneous)
}

/// The answer to the drop of a record, while its declaration is in force.
fn drop_reply(
    alloc: Global,
    generation: &GenerationParts,
    id: u32,
    kind: Kind,
) -> Result<ReplyBody, NoMemory>
    ensures { IfOk result (λ answer. answer ≡ body.Dropped id kind (spec.name_of_record id) (spec.drop_event id (spec.live_of (generation_of generation.now) id) ∷ [])) }
{
    let event = drop_event(alloc, id, live_of(generation, id))?;
    Ok(ReplyBody::Dropped {
        id,
        kind,
        name: temporary_name_of(alloc, id)?,
        events: one(alloc, event)?,
    })
}

/// Whether the declaration of a record is in force.
fn is_live(generation: &GenerationParts, id: u32) -> bool
    ensures { result ≡ is_some (spec.live_of (generation_of generation.now) id) }
{
    match live_of(generation, id) {
        None => false,
        Some(_) => true,
    }
}

/// The declaration of a record isn't in force any more. Where it isn't in force, nothing changes.
#[tactic(auto, using(crate::proofs::DropLemmas::without_none))]
fn remove_live(generation: &mut GenerationParts, id: u32)
    requires { generation.old.number + 1 < 2 ^ 64 }
    ensures after { generation_of generation.new ≡ spec.generation_without (generation_of generation.old) id (spec.live_of (generation_of generation.old) id) }
    ensures number { generation.new.number ≤ generation.old.number + 1 }
    ensures live { length generation.new.live.items ≤ length generation.old.live.items }
{
    if !is_live(generation, id) {
        return;
    }
    generation.number += 1;
    generation.live.retain(|live| live.id != id);
}

/// The record is taken back, and what it declares isn't in force any more.
fn take_back(parts: &mut Parts, alloc: Global, id: u32, kind: Kind) -> Result<ReplyBody, NoMemory>
    requires sound { IsSound parts.old }
    requires few { parts.old.generation.number + 1 < 2 ^ 64 }
    requires there { IsSome (numbered parts.old.book.items id) }
    requires kind { IfSome (numbered parts.old.book.items id) (λ (r : Record). kind ≡ spec.kind_of_record r) }
    ensures ok { IfOk result (λ answer. IfSome (numbered parts.old.book.items id) (λ (r : Record). record { state = state_from parts.new; body = answer } ≡ spec.taken_back (state_from parts.old) id r)) }
    ensures err { OnErr result (parts.new ≡ parts.old) }
    ensures sound { IsSound parts.new }
    ensures within { (entries : ℕ) → IsWithin entries parts.old → IsWithin (entries + 1) parts.new }
{
    let answer = drop_reply(alloc, &parts.generation, id, kind)?;
    remove_live(&mut parts.generation, id);
    let found = &mut parts.book[id as usize - 1];
    found.fate = Fate::Dropped;
    Ok(answer)
}

/// The snippet with this number is taken back.
fn drop_id(parts: &mut Parts, alloc: Global, id: u32) -> Result<ReplyBody, NoMemory>
    requires sound { IsSound parts.old }
    requires few { parts.old.generation.number + 1 < 2 ^ 64 }
    ensures ok { IfOk result (λ answer. record { state = state_from parts.new; body = answer } ≡ spec.drop_id (state_from parts.old) id) }
    ensures err { OnErr result (parts.new ≡ parts.old) }
    ensures sound { IsSound parts.new }
    ensures within { (entries : ℕ) → IsWithin entries parts.old → IsWithin (entries + 1) parts.new }
{
    let Some(found) = at_number(&parts.book, id) else {
        let count = parts.book.len() as u32;
        return Ok(ReplyBody::Refused(Refusal::NoSuchSnippet { id, count }));
    };
    let kind = kind_of_record(found);
    match found.fate {
        Fate::Live | Fate::Done => take_back(parts, alloc, id, kind),
        fate => Ok(ReplyBody::Refused(Refusal::NotLive { id, fate })),
    }
}

/// Whether a declaration of a type, a method or a variable has this name.
fn declares(live: &Live, name: &Name) -> bool
    ensures { result ≡ has_name name.now live.now }
{
    match &live.key {
        Key::OfType(declared) | Key::OfVar(declared) => *declared == *name,
        Key::OfMethod { name: declared, .. } => *declared == *name,
        Key::OfImport { .. } | Key::OfRun(_) => false,
    }
}

/// How many declarations have a name.
fn count_named(live: &[Live], name: &Name) -> usize
    ensures { result ≡ length (filter (has_name name.now) live.now) }
{
    live.iter().filter(|live| declares(live, name)).count()
}

/// The first declaration that has a name.
fn first_named<'a>(live: &'a [Live], name: &Name) -> Option<&'a Live>
    ensures { option_copied result ≡ find (has_name name.now) live.now }
{
    live.iter().find(|live| declares(live, name))
}

/// The record of the only declaration that has a name, or how many have it.
fn only_named(live: &[Live], name: &Name) -> Result<u32, usize>
    ensures one { IfOk result (λ id. (s : State) → spec.drop_only s name.now (filter (has_name name.now) live.now) ≡ spec.drop_id s id) }
    ensures other { IfErr result (λ count. (s : State) → spec.drop_only s name.now (filter (has_name name.now) live.now) ≡ refuses s (refusal.NoSuchName name.now count)) }
    ensures few { IfErr result (λ count. count ≤ length live.now) }
{
    let count = count_named(live, name);
    if count != 1 {
        return Err(count);
    }
    match first_named(live, name) {
        None => Err(count),
        Some(found) => Ok(found.id),
    }
}

/// The snippet is taken back that alone declares a name.
fn drop_named(parts: &mut Parts, alloc: Global, name: &Name) -> Result<ReplyBody, NoMemory>
    requires sound { IsSound parts.old }
    requires few { parts.old.generation.number + 1 < 2 ^ 64 }
    ensures ok { IfOk result (λ answer. record { state = state_from parts.new; body = answer } ≡ spec.drop_only (state_from parts.old) name.now (live_named name.now (generation_of parts.old.generation))) }
    ensures err { OnErr result (parts.new ≡ parts.old) }
    ensures sound { IsSound parts.new }
    ensures within { (entries : ℕ) → IsWithin entries parts.old → IsWithin (entries + 1) parts.new }
{
    match only_named(&parts.generation.live, name) {
        Ok(id) => drop_id(parts, alloc, id),
        Err(count) => Ok(ReplyBody::Refused(Refusal::NoSuchName {
            name: name.clone()?,
            matches: count as u32,
        })),
    }
}

/// A snippet is taken back, by its number or by the name of what it declares.
pub fn drop_snippet(
    parts: &mut Parts,
    alloc: Global,
    target: &Target,
) -> Result<ReplyBody, NoMemory>
    requires sound { IsSound parts.old }
    requires few { parts.old.generation.number + 1 < 2 ^ 64 }
    ensures ok { IfOk result (λ answer. record { state = state_from parts.new; body = answer } ≡ spec.drop_snippet (state_from parts.old) target.now) }
    ensures err { OnErr result (parts.new ≡ parts.old) }
    ensures sound { IsSound parts.new }
    ensures within { (entries : ℕ) → IsWithin entries parts.old → IsWithin (entries + 1) parts.new }
{
    match target {
        Target::Id(id) => drop_id(parts, alloc, *id),
        Target::Named(name) => drop_named(parts, alloc, name),
    }
}
