//! The bad set.

ghost use Rattle.std.specs.Prelude.{◌≡◌, ◌||◌, ℕ, List, false, not, length, map, slice_index_or, IfOk};
ghost use Rattle.std.specs.List.{filter, list_any, range_with_len};
ghost use Rattle.std.specs.Option.{is_none, option_copied};
ghost use Rattle.jsh_closure.specs.Closure.{IsSmallest};
ghost use Rattle.jsh_scope.specs.Answers.{type_named};
ghost use Rattle.jsh_header.specs.SuperRules.{breaches_at, is_nonempty};
ghost use Rattle.jsh_header.specs.Bad as spec;

use crate::hierarchy::Hierarchy;
use crate::names::Names;
use crate::places::{member_at, push_if};
use crate::rules::{Breach, breaches_at};
use jsh_closure::closure_back;
use jsh_scope::mentioned_types;
use jsh_snippet::mentions;
use jsh_text::NoMemory;
use jsh_tree::{Header, Library, Member, Name};
use std::alloc::Global;

/// For each live snippet whether it is in the smallest set that holds each one whose header mentions a
/// type name that nothing gives, each one that breaks a rule on supertypes, and each one whose header
/// mentions a type in the set.
pub fn bad(alloc: Global, live: &[Member], library: &Library) -> Result<Vec<bool>, NoMemory>
    ensures marks { IfOk result (λ marks. marks.items ≡ spec.bad (record { members = live.now; library = library.now })) }
    ensures smallest { IfOk result (λ marks. IsSmallest (length live.now) (spec.is_bad_itself (record { members = live.now; library = library.now })) (spec.spoils (record { members = live.now; library = library.now })) (λ place. slice_index_or marks.items place false)) }
{
    let mut hierarchy = Hierarchy::new(alloc, live, library)?;
    let first = bad_themselves(alloc, &mut hierarchy, live)?;
    let edges = mentioned_types(alloc, live)?;
    let marks = closure_back(alloc, first.as_slice(), edges.as_slice())?;
    Ok(marks)
}

/// For each live snippet whether it isn't in that set. Imports never are.
pub fn visible(alloc: Global, live: &[Member], library: &Library) -> Result<Vec<bool>, NoMemory>
    ensures { IfOk result (λ marks. marks.items ≡ spec.visible (record { members = live.now; library = library.now })) }
{
    let bad = bad(alloc, live, library)?;
    let marks = turned(alloc, bad.as_slice())?;
    Ok(marks)
}

fn turned(alloc: Global, marks: &[bool]) -> Result<Vec<bool>, NoMemory>
    ensures { IfOk result (λ turned. turned.items ≡ map not marks.now) }
{
    let mut turned = Vec::with_capacity(alloc, marks.len())?;
    for mark in marks {
        turned.push(!*mark)?;
    }
    Ok(turned)
}

fn bad_themselves(
    alloc: Global,
    hierarchy: &mut Hierarchy<'_>,
    live: &[Member],
) -> Result<Vec<usize>, NoMemory>
    requires { hierarchy.old.members ≡ live.now }
    ensures { IfOk result (λ places. places.items ≡ filter (spec.is_bad_itself hierarchy.old) (range_with_len 0 (length live.now))) }
{
    let mut places = Vec::new(alloc);
    for place in 0..live.len() {
        let bad = is_bad_itself(alloc, hierarchy, place, member_at(live, place))?;
        push_if(&mut places, place, bad)?;
    }
    Ok(places)
}

fn is_bad_itself(
    alloc: Global,
    hierarchy: &mut Hierarchy<'_>,
    place: usize,
    member: Option<&Member>,
) -> Result<bool, NoMemory>
    ensures kept { hierarchy.new ≡ hierarchy.old }
    ensures bad { IfOk result (λ bad. bad ≡ (spec.lacks_at hierarchy.old (option_copied member.entry) || is_nonempty (breaches_at hierarchy.old place (option_copied member.entry)))) }
{
    if lacks_at(alloc, hierarchy.names(), member)? {
        return Ok(true);
    }
    let breaches = breaches_at(alloc, hierarchy, place, member)?;
    Ok(is_nonempty(breaches.as_slice()))
}

fn is_nonempty(breaches: &[Breach]) -> bool
    ensures { result ≡ is_nonempty breaches.now }
{
    match breaches {
        [] => false,
        _ => true,
    }
}

fn lacks_at(alloc: Global, names: &Names<'_>, member: Option<&Member>) -> Result<bool, NoMemory>
    ensures { IfOk result (λ lacks. lacks ≡ spec.lacks_at names.now (option_copied member.entry)) }
{
    match member {
        None => Ok(false),
        Some(member) => lacks(alloc, names, &member.header),
    }
}

fn lacks(alloc: Global, names: &Names<'_>, header: &Header) -> Result<bool, NoMemory>
    ensures { IfOk result (λ lacks. lacks ≡ spec.lacks names.now header.now) }
{
    let mentioned = mentions(alloc, header)?;
    Ok(some_lack(names, mentioned.as_slice()))
}

fn some_lack(names: &Names<'_>, mentioned: &[Name]) -> bool
    ensures { result ≡ list_any (λ (name : List ℕ). is_none (type_named names.now name)) mentioned.now }
{
    mentioned.iter().any(|name| names.lacks_type(name))
}
