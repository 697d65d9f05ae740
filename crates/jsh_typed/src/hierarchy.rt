ghost use Rattle.std.specs.Prelude.{◌≡◌, length, IfOk};
ghost use Rattle.std.specs.Bool.{Decides};
ghost use Rattle.jsh_typed.specs.Hierarchy as spec;

use crate::types::ClassName;
use jsh_tree::Seq;
use std::alloc::{AllocError, Global};

/// What of a class or an interface its conversions depend on.
#[derive(Drop)]
pub struct HierarchyEntry {
    pub class: ClassName,
    pub is_interface: bool,
    pub is_final: bool,
    pub is_abstract: bool,
    /// The direct ones. `Object` needn't stand here.
    pub supertypes: Seq<ClassName>,
}

/// Whether a class or an interface is the other, or a subtype of it (JLS 4.10.2). One without an
/// entry has no supertype but `Object`.
pub fn is_subclass(
    alloc: Global,
    hierarchy: &[HierarchyEntry],
    class: &ClassName,
    other: &ClassName,
) -> Result<bool, AllocError>
    ensures { IfOk result (λ answer. answer ≡ spec.is_subclass hierarchy.now class.now other.now) }
{
    if class.is(other) || other.is_object() {
        return Ok(true);
    }
    let marks = reached(alloc, hierarchy, class)?;
    Ok(is_above(hierarchy, marks.as_slice(), other))
}

// Which entries are reached from a class by as many steps as there are entries.
fn reached(
    alloc: Global,
    hierarchy: &[HierarchyEntry],
    class: &ClassName,
) -> Result<Vec<bool>, AllocError>
    ensures { IfOk result (λ marks. marks.items ≡ spec.reached hierarchy.now class.now (length hierarchy.now)) }
{
    let mut marks = entries_of(alloc, hierarchy, class)?;
    for _step in 0..hierarchy.len() {
        let next = further(alloc, hierarchy, marks.as_slice(), class)?;
        if is_same(marks.as_slice(), next.as_slice()) {
            return Ok(marks);
        }
        marks = next;
    }
    Ok(marks)
}

fn entries_of(
    alloc: Global,
    hierarchy: &[HierarchyEntry],
    class: &ClassName,
) -> Result<Vec<bool>, AllocError>
    ensures { IfOk result (λ marks. marks.items ≡ spec.entries_of hierarchy.now class.now) }
{
    hierarchy
        .iter()
        .map(|entry| entry.class.is(class))
        .collect(alloc)
}

fn further(
    alloc: Global,
    hierarchy: &[HierarchyEntry],
    marks: &[bool],
    class: &ClassName,
) -> Result<Vec<bool>, AllocError>
    ensures { IfOk result (λ more. more.items ≡ spec.further hierarchy.now class.now marks.now) }
{
    hierarchy
        .iter()
        .map(|entry| is_reached(hierarchy, marks, class, entry))
        .collect(alloc)
}

#[tactic(auto, unfolding(crate::specs::Hierarchy::is_reached))]
fn is_reached(
    hierarchy: &[HierarchyEntry],
    marks: &[bool],
    class: &ClassName,
    entry: &HierarchyEntry,
) -> bool
    ensures { result ≡ spec.is_reached hierarchy.now class.now marks.now entry.now }
{
    entry.class.is(class) || is_above(hierarchy, marks, &entry.class)
}

#[tactic(auto, unfolding(crate::specs::Hierarchy::is_above))]
fn is_above(hierarchy: &[HierarchyEntry], marks: &[bool], class: &ClassName) -> bool
    ensures { result ≡ spec.is_above hierarchy.now marks.now class.now }
{
    hierarchy.iter().zip(marks).any(|(entry, mark)| *mark
        && lists(entry.supertypes.as_slice(), class))
}

fn lists(classes: &[ClassName], class: &ClassName) -> bool
    ensures { result ≡ spec.lists classes.now class.now }
{
    classes.iter().any(|listed| listed.is(class))
}

fn is_same(marks: &[bool], others: &[bool]) -> bool
    ensures { Decides result (marks.now ≡ others.now) }
{
    marks == others
}
