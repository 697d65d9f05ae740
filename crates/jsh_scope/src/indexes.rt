//! The maps by name of an environment.

ghost use Rattle.std.specs.Prelude.{◌≡◌, [], ◌∷◌, ◌++◌, List, ℕ, map, IfOk, OnOk};
ghost use Rattle.std.specs.Option.{option_to_list};
ghost use Rattle.std.specs.List.{filter};
ghost use Rattle.jsh_closure.specs.Closure.{places_at};
ghost use Rattle.jsh_tree.specs.declared.library.Member.{Member};
ghost use Rattle.jsh_scope.specs.Scope.{same_name, is_type, is_some_type_key, is_visible_type, is_visible_variable, is_visible_method};
ghost use Rattle.jsh_scope.specs.Reached as spec;
ghost use Rattle.jsh_scope.specs.Indexes.{IsIndex, IsIndexOfAll, AddsPlace, AppendsPlace};

use crate::copies::member_copy;
use jsh_snippet::mentions;
use jsh_text::NoMemory;
use jsh_tree::{Header, Key, Member, Name, Seq};
use std::alloc::Global;
use std::collections::BTreeMap;

pub(crate) fn type_places(
    alloc: Global,
    members: &[Member],
) -> Result<BTreeMap<Name, usize>, NoMemory>
    ensures { IfOk result (λ places. IsIndex is_type members.now places) }
{
    let mut places = BTreeMap::new(alloc);
    for (at, member) in members.iter().enumerate() {
        add_type(&mut places, member, at)?;
    }
    Ok(places)
}

fn add_type(places: &mut BTreeMap<Name, usize>, member: &Member, at: usize) -> Result<(), NoMemory>
    ensures { OnOk result (AddsPlace (λ name. is_type name member.now) at places.old places.new) }
{
    match &member.key {
        Key::OfType(name) => add_place(places, name, at),
        _ => Ok(()),
    }
}

pub(crate) fn variable_places(
    alloc: Global,
    members: &[Member],
) -> Result<BTreeMap<Name, usize>, NoMemory>
    ensures { IfOk result (λ places. IsIndex is_visible_variable members.now places) }
{
    let mut places = BTreeMap::new(alloc);
    for (at, member) in members.iter().enumerate() {
        add_variable(&mut places, member, at)?;
    }
    Ok(places)
}

fn add_variable(
    places: &mut BTreeMap<Name, usize>,
    member: &Member,
    at: usize,
) -> Result<(), NoMemory>
    ensures { OnOk result (AddsPlace (λ name. is_visible_variable name member.now) at places.old places.new) }
{
    match &member.key {
        Key::OfVar(name) => {
            if member.link.is_some() {
                add_place(places, name, at)
            } else {
                Ok(())
            }
        }
        _ => Ok(()),
    }
}

/// Keeps the place that the name has, if any.
fn add_place(places: &mut BTreeMap<Name, usize>, name: &Name, at: usize) -> Result<(), NoMemory>
    ensures { OnOk result (AddsPlace (λ other. same_name other name.now) at places.old places.new) }
{
    if !places.contains_key(name) {
        let name = name.clone()?;
        places.insert(name, at)?;
    }
    Ok(())
}

pub(crate) fn method_places(
    alloc: Global,
    members: &[Member],
) -> Result<BTreeMap<Name, Seq<usize>>, NoMemory>
    ensures { IfOk result (λ places. IsIndexOfAll is_visible_method members.now members.now places) }
{
    let mut places = BTreeMap::new(alloc);
    for (at, member) in members.iter().enumerate() {
        append_method(&mut places, alloc, member, at)?;
    }
    Ok(places)
}

fn append_method(
    places: &mut BTreeMap<Name, Seq<usize>>,
    alloc: Global,
    member: &Member,
    at: usize,
) -> Result<(), NoMemory>
    ensures { OnOk result (AppendsPlace (λ name. is_visible_method name member.now) at places.old places.new) }
{
    match &member.key {
        Key::OfMethod { name, .. } => {
            if member.link.is_some() {
                append_place(places, alloc, name, at)
            } else {
                Ok(())
            }
        }
        _ => Ok(()),
    }
}

/// Puts the place behind those that the name has.
pub fn append_place(
    places: &mut BTreeMap<Name, Seq<usize>>,
    alloc: Global,
    name: &Name,
    at: usize,
) -> Result<(), NoMemory>
    ensures { OnOk result (AppendsPlace (λ other. same_name other name.now) at places.old places.new) }
{
    let removed = places.remove(name);
    let mut list = listed(alloc, removed);
    list.push(at)?;
    let name = name.clone()?;
    places.insert(name, Seq::from_vec(list))?;
    Ok(())
}

fn listed(alloc: Global, list: Option<Seq<usize>>) -> Vec<usize>
    ensures { result.items ≡ places_at list }
{
    match list {
        Some(list) => list.into_vec(),
        None => Vec::new(alloc),
    }
}

/// The visible types, by rising id.
#[tactic(auto, unfolding(crate::specs::Reached::visible_types))]
pub(crate) fn visible_types(alloc: Global, members: &[Member]) -> Result<Seq<Member>, NoMemory>
    ensures { IfOk result (λ types. types ≡ spec.visible_types members.now) }
{
    let mut types = Vec::new(alloc);
    for member in members {
        push_visible_type(&mut types, member)?;
    }
    Ok(Seq::from_vec(types))
}

fn push_visible_type(types: &mut Vec<Member>, member: &Member) -> Result<(), NoMemory>
    ensures { OnOk result (types.new.items ≡ types.old.items ++ filter is_visible_type (member.now ∷ [])) }
{
    if is_visible_type(member) {
        types.push(member_copy(member)?)?;
    }
    Ok(())
}

fn is_visible_type(member: &Member) -> bool
    ensures { result ≡ is_visible_type member.now }
{
    member.link.is_some() && is_type_key(&member.key)
}

fn is_type_key(key: &Key) -> bool
    ensures { result ≡ is_some_type_key key.now }
{
    matches!(key, Key::OfType(_))
}

/// For each member the places of the types among these members that its header mentions, in its order.
pub fn mentioned_types(alloc: Global, members: &[Member]) -> Result<Seq<Seq<usize>>, NoMemory>
    ensures { IfOk result (λ edges. edges ≡ map (λ (member : Member). spec.places_in members.now member.header) members.now) }
{
    let places = type_places(alloc, members)?;
    edges_of(alloc, &places, members)
}

/// For each type the places of those that its header mentions.
pub(crate) fn edges_of(
    alloc: Global,
    places: &BTreeMap<Name, usize>,
    types: &[Member],
) -> Result<Seq<Seq<usize>>, NoMemory>
    requires { IsIndex is_type types.now places.now }
    ensures { IfOk result (λ edges. edges ≡ map (λ (member : Member). spec.places_in types.now member.header) types.now) }
{
    let mut edges = Vec::with_capacity(alloc, types.len())?;
    for member in types {
        edges.push(places_in(alloc, places, types, &member.header)?)?;
    }
    Ok(Seq::from_vec(edges))
}

/// The places of the types that a header mentions, in its order.
#[tactic(auto, unfolding(crate::specs::Reached::places_in))]
pub(crate) fn places_in(
    alloc: Global,
    places: &BTreeMap<Name, usize>,
    types: &[Member],
    header: &Header,
) -> Result<Seq<usize>, NoMemory>
    requires { IsIndex is_type types.now places.now }
    ensures { IfOk result (λ found. found ≡ spec.places_in types.now header.now) }
{
    let names = mentions(alloc, header)?;
    let mut found = Vec::new(alloc);
    for name in names.as_slice() {
        push_place(&mut found, places, types, name)?;
    }
    Ok(Seq::from_vec(found))
}

fn push_place(
    found: &mut Vec<usize>,
    places: &BTreeMap<Name, usize>,
    types: &[Member],
    name: &Name,
) -> Result<(), NoMemory>
    requires { IsIndex is_type types.now places.now }
    ensures { OnOk result (found.new.items ≡ found.old.items ++ option_to_list (spec.first_place (is_type name.now) types.now)) }
{
    if let Some(place) = places.get(name) {
        found.push(*place)?;
    }
    Ok(())
}
