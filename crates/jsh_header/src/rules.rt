//! The rules on supertypes.

ghost use Rattle.std.specs.Prelude.{◌≡◌, ◌++◌, ◌||◌, ◌&&◌, not, IfOk, OnOk};
ghost use Rattle.std.specs.Option.{option_copied};
ghost use Rattle.std.specs.List.{flat_map, range_with_len};
ghost use Rattle.jsh_header.specs.Outlines.{outlines};
ghost use Rattle.jsh_header.specs.SuperRules as spec;

use crate::hierarchy::Hierarchy;
use crate::outlines::{Method, Outline, methods_of};
use crate::places::member_at;
use crate::signatures::{has_contradiction, lacks_body_of};
use crate::written::{Written, written_supertypes};
use jsh_text::NoMemory;
use jsh_tree::{Header, Library, Member, Name, Seq};
use std::alloc::Global;

/// A rule on supertypes that a type breaks.
#[derive(Clone, Copy, Debug, PartialEq, Eq)]
pub struct Breach {
    /// From 1 to 6.
    pub rule: u8,
    /// The index of the supertype as the type's header writes them, or none for the type's name.
    pub supertype: Option<usize>,
}

/// The rules that the live snippet at a place breaks among all live types, by where that is in its
/// text, then by number. Only a type breaks any.
///
/// 1. A superclass is a class that isn't final (JLS 8.1.4).
/// 2. What else a class implements or an interface extends is an interface (JLS 8.1.5, 9.1.3).
/// 3. No type is its own supertype (JLS 8.1.4, 9.1.3).
/// 4. No two methods that it has or gets have one name and the same parameter types but other results
///    (JLS 8.4.8.3, 9.4.1.3).
/// 5. A class that isn't abstract has no abstract method, and a body for each one that it gets
///    (JLS 8.1.1.1, 8.4.3.1).
/// 6. It doesn't have the name of a type of the library.
pub fn breaches(
    alloc: Global,
    live: &[Member],
    library: &Library,
    place: usize,
) -> Result<Seq<Breach>, NoMemory>
    ensures { IfOk result (λ breaches. breaches ≡ spec.breaches (record { members = live.now; library = library.now }) place) }
{
    let mut hierarchy = Hierarchy::new(alloc, live, library)?;
    breaches_at(alloc, &mut hierarchy, place, member_at(live, place))
}

pub(crate) fn breaches_at(
    alloc: Global,
    hierarchy: &mut Hierarchy<'_>,
    place: usize,
    member: Option<&Member>,
) -> Result<Seq<Breach>, NoMemory>
    ensures kept { hierarchy.new ≡ hierarchy.old }
    ensures breaches { IfOk result (λ breaches. breaches ≡ spec.breaches_at hierarchy.old place (option_copied member.entry)) }
{
    match member {
        None => Ok(Seq::new(alloc)),
        Some(member) => breaches_of(alloc, hierarchy, place, &member.header),
    }
}

#[tactic(auto, unfolding(crate::specs::SuperRules::breaches_of))]
fn breaches_of(
    alloc: Global,
    hierarchy: &mut Hierarchy<'_>,
    place: usize,
    header: &Header,
) -> Result<Seq<Breach>, NoMemory>
    ensures kept { hierarchy.new ≡ hierarchy.old }
    ensures breaches { IfOk result (λ breaches. breaches ≡ spec.breaches_of hierarchy.old place header.now) }
{
    match header {
        Header::OfType {
            interface,
            is_abstract,
            name,
            extends,
            implements,
            methods,
            ..
        } => {
            let own = methods_of(alloc, methods.as_slice())?;
            let mut breaches = at_its_name(
                alloc,
                hierarchy,
                place,
                *interface,
                *is_abstract,
                name,
                own.as_slice(),
            )?;
            let supertypes = written_supertypes(
                alloc,
                *interface,
                extends.as_slice(),
                implements.as_slice(),
            )?;
            push_at_supertypes(
                &mut breaches,
                alloc,
                hierarchy,
                place,
                supertypes.as_slice(),
            )?;
            Ok(Seq::from_vec(breaches))
        }
        _ => Ok(Seq::new(alloc)),
    }
}

#[tactic(auto, unfolding(crate::specs::SuperRules::at_its_name))]
fn at_its_name(
    alloc: Global,
    hierarchy: &mut Hierarchy<'_>,
    place: usize,
    interface: bool,
    is_abstract: bool,
    name: &Name,
    own: &[Method<'_>],
) -> Result<Vec<Breach>, NoMemory>
    ensures kept { hierarchy.new ≡ hierarchy.old }
    ensures breaches { IfOk result (λ breaches. breaches.items ≡ spec.at_its_name hierarchy.old place interface is_abstract name.now own.now) }
{
    let inherited = hierarchy.inherited(alloc, place)?;
    let contradicts = has_contradiction(own, inherited.as_slice());
    let may_be_open = may_be_open(interface, is_abstract);
    let opened = is_open(
        alloc,
        hierarchy,
        place,
        may_be_open,
        own,
        inherited.as_slice(),
    )?;
    let hides = hierarchy.names().is_library_name(name);
    let mut breaches = Vec::new(alloc);
    push_at_name(&mut breaches, 4, contradicts)?;
    push_at_name(&mut breaches, 5, opened)?;
    push_at_name(&mut breaches, 6, hides)?;
    Ok(breaches)
}

fn may_be_open(interface: bool, is_abstract: bool) -> bool
    ensures { result ≡ (interface || is_abstract) }
{
    interface || is_abstract
}

/// Whether it is open and may not be.
fn is_open(
    alloc: Global,
    hierarchy: &Hierarchy<'_>,
    place: usize,
    may_be_open: bool,
    own: &[Method<'_>],
    inherited: &[Method<'_>],
) -> Result<bool, NoMemory>
    ensures { IfOk result (λ opened. opened ≡ (not may_be_open && spec.lacks_body_of (spec.class_methods (outlines hierarchy.now) place) own.now inherited.now)) }
{
    if may_be_open {
        return Ok(false);
    }
    let of_classes = hierarchy.class_methods(alloc, place)?;
    Ok(lacks_body_of(of_classes.as_slice(), own, inherited))
}

fn push_at_name(breaches: &mut Vec<Breach>, rule: u8, broken: bool) -> Result<(), NoMemory>
    ensures { OnOk result (breaches.new.items ≡ breaches.old.items ++ spec.at_name rule broken) }
{
    if broken {
        breaches.push(Breach {
            rule,
            supertype: None,
        })?;
    }
    Ok(())
}

/// The first written supertypes at which the first three rules are broken.
#[derive(Drop)]
struct Firsts {
    no_superclass: Option<usize>,
    no_interface: Option<usize>,
    back: Option<usize>,
}

fn push_at_supertypes(
    breaches: &mut Vec<Breach>,
    alloc: Global,
    hierarchy: &mut Hierarchy<'_>,
    place: usize,
    supertypes: &[Written],
) -> Result<(), NoMemory>
    ensures kept { hierarchy.new ≡ hierarchy.old }
    ensures breaches { OnOk result (breaches.new.items ≡ breaches.old.items ++ spec.at_supertypes hierarchy.old place supertypes.now) }
{
    let firsts = find_firsts(alloc, hierarchy, place, supertypes)?;
    push_at_indexes(breaches, supertypes.len(), &firsts)
}

fn find_firsts(
    alloc: Global,
    hierarchy: &mut Hierarchy<'_>,
    place: usize,
    supertypes: &[Written],
) -> Result<Firsts, NoMemory>
    ensures kept { hierarchy.new ≡ hierarchy.old }
    ensures no_superclass { IfOk result (λ firsts. firsts.no_superclass ≡ spec.first_no_superclass hierarchy.old supertypes.now) }
    ensures no_interface { IfOk result (λ firsts. firsts.no_interface ≡ spec.first_no_interface hierarchy.old supertypes.now) }
    ensures back { IfOk result (λ firsts. firsts.back ≡ spec.first_back hierarchy.old place supertypes.now) }
{
    let back = first_back(alloc, hierarchy, place, supertypes)?;
    Ok(Firsts {
        no_superclass: first_no_superclass(hierarchy, supertypes),
        no_interface: first_no_interface(hierarchy, supertypes),
        back,
    })
}

fn first_no_superclass(hierarchy: &Hierarchy<'_>, supertypes: &[Written]) -> Option<usize>
    ensures { result ≡ spec.first_no_superclass hierarchy.now supertypes.now }
{
    supertypes.iter().position(|written| is_no_superclass(written, type_of(hierarchy, written)))
}

fn first_no_interface(hierarchy: &Hierarchy<'_>, supertypes: &[Written]) -> Option<usize>
    ensures { result ≡ spec.first_no_interface hierarchy.now supertypes.now }
{
    supertypes.iter().position(|written| is_no_interface(written, type_of(hierarchy, written)))
}

fn first_back(
    alloc: Global,
    hierarchy: &mut Hierarchy<'_>,
    place: usize,
    supertypes: &[Written],
) -> Result<Option<usize>, NoMemory>
    ensures kept { hierarchy.new ≡ hierarchy.old }
    ensures first { IfOk result (λ first. first ≡ spec.first_back hierarchy.old place supertypes.now) }
{
    for (index, written) in supertypes.iter().enumerate() {
        let back = leads_back(alloc, hierarchy, place, written)?;
        if back {
            return Ok(Some(index));
        }
    }
    Ok(None)
}

fn leads_back(
    alloc: Global,
    hierarchy: &mut Hierarchy<'_>,
    place: usize,
    written: &Written,
) -> Result<bool, NoMemory>
    ensures kept { hierarchy.new ≡ hierarchy.old }
    ensures leads { IfOk result (λ leads. leads ≡ spec.leads_back (outlines hierarchy.old) place (spec.place_of hierarchy.old written.now)) }
{
    match hierarchy.names().type_place(&written.name) {
        None => Ok(false),
        Some(other) => hierarchy.is_above(alloc, other, place),
    }
}

fn type_of<'t, 'a>(hierarchy: &'t Hierarchy<'a>, written: &Written) -> Option<&'t Outline<'a>>
    ensures { option_copied result ≡ spec.type_at (outlines hierarchy.now) (spec.place_of hierarchy.now written.now) }
{
    hierarchy.type_at(hierarchy.names().type_place(&written.name))
}

fn is_no_superclass(written: &Written, of: Option<&Outline<'_>>) -> bool
    ensures { result ≡ spec.is_no_superclass written.now (option_copied of.entry) }
{
    match of {
        None => false,
        Some(of) => written.is_superclass && !may_be_superclass(of),
    }
}

fn may_be_superclass(of: &Outline<'_>) -> bool
    ensures { result ≡ spec.may_be_superclass of.now }
{
    !of.interface && !of.is_final
}

fn is_no_interface(written: &Written, of: Option<&Outline<'_>>) -> bool
    ensures { result ≡ spec.is_no_interface written.now (option_copied of.entry) }
{
    match of {
        None => false,
        Some(of) => !written.is_superclass && !of.interface,
    }
}

fn push_at_indexes(
    breaches: &mut Vec<Breach>,
    count: usize,
    firsts: &Firsts,
) -> Result<(), NoMemory>
    ensures { OnOk result (breaches.new.items ≡ breaches.old.items ++ flat_map (spec.at_index firsts.now.no_superclass firsts.now.no_interface firsts.now.back) (range_with_len 0 count)) }
{
    for index in 0..count {
        push_at_index(breaches, index, firsts)?;
    }
    Ok(())
}

fn push_at_index(breaches: &mut Vec<Breach>, index: usize, firsts: &Firsts) -> Result<(), NoMemory>
    ensures { OnOk result (breaches.new.items ≡ breaches.old.items ++ spec.at_index firsts.now.no_superclass firsts.now.no_interface firsts.now.back index) }
{
    push_at_supertype(breaches, index, 1, firsts.no_superclass)?;
    push_at_supertype(breaches, index, 2, firsts.no_interface)?;
    push_at_supertype(breaches, index, 3, firsts.back)
}

fn push_at_supertype(
    breaches: &mut Vec<Breach>,
    index: usize,
    rule: u8,
    first: Option<usize>,
) -> Result<(), NoMemory>
    ensures { OnOk result (breaches.new.items ≡ breaches.old.items ++ spec.at_supertype index rule first) }
{
    if let Some(first) = first {
        push_at_first(breaches, index, rule, first)?;
    }
    Ok(())
}

fn push_at_first(
    breaches: &mut Vec<Breach>,
    index: usize,
    rule: u8,
    first: usize,
) -> Result<(), NoMemory>
    ensures { OnOk result (breaches.new.items ≡ breaches.old.items ++ spec.at_supertype index rule (Some first)) }
{
    if first == index {
        breaches.push(Breach {
            rule,
            supertype: Some(index),
        })?;
    }
    Ok(())
}
