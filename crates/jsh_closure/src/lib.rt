//! The smallest set of places that holds some first ones and all that these lead to.
#![tactic(auto)]

ghost use Rattle.std.specs.Prelude.{◌≡◌, [], ◌∷◌, false, length, slice_get, slice_index_or, replicate, IfOk, OnOk};
ghost use Rattle.jsh_closure.specs.Closure as spec;
ghost use Rattle.jsh_closure.specs.Closure.{IsSmallest};
ghost use Rattle.jsh_closure.specs.Searches.{Adds};
ghost use Rattle.jsh_closure.specs.Reversals.{Appends, IsReversed};

mod finder;

pub use finder::Finder;
use jsh_tree::Seq;
use std::alloc::{AllocError, Global};
use std::mem::replace;

/// For each place, whether it is in the smallest set that holds the first ones and, with each place,
/// those that its edges name. Numbers that are no places count for nothing. The cost grows with the
/// places and with the edges of those that are found.
pub fn closure(
    alloc: Global,
    first: &[usize],
    edges: &[Seq<usize>],
) -> Result<Vec<bool>, AllocError>
    ensures marks { IfOk result (λ marks. marks.items ≡ spec.marks first.now edges.now) }
    ensures smallest { IfOk result (λ marks. IsSmallest (length edges.now) (spec.is_among first.now) (spec.has_edge edges.now) (λ place. slice_index_or marks.items place false)) }
{
    let mut marks = Vec::from_elem(alloc, false, edges.len())?;
    let mut waiting = Vec::new(alloc);
    add(first, &mut marks, &mut waiting)?;
    while let Some(place) = waiting.pop() {
        add(next_of(edges, place), &mut marks, &mut waiting)?;
    }
    Ok(marks)
}

/// For each place, whether it is in the smallest set that holds the first ones and each place whose
/// edges name one of the set. The cost grows with the places and with all edges.
pub fn closure_back(
    alloc: Global,
    first: &[usize],
    edges: &[Seq<usize>],
) -> Result<Vec<bool>, AllocError>
    ensures marks { IfOk result (λ marks. marks.items ≡ spec.marks_back first.now edges.now) }
    ensures smallest { IfOk result (λ marks. IsSmallest (length edges.now) (spec.is_among first.now) (spec.has_edge_back edges.now) (λ place. slice_index_or marks.items place false)) }
{
    let back = reversed(alloc, edges)?;
    let marks = closure(alloc, first, back.as_slice())?;
    Ok(marks)
}

fn reversed(alloc: Global, edges: &[Seq<usize>]) -> Result<Vec<Seq<usize>>, AllocError>
    ensures { IfOk result (λ back. IsReversed (length edges.now) edges.now back.items) }
{
    let mut back = without_edges(alloc, edges.len())?;
    for (place, targets) in edges.iter().enumerate() {
        append_all(&mut back, targets.as_slice(), place, alloc)?;
    }
    Ok(back)
}

fn without_edges(alloc: Global, count: usize) -> Result<Vec<Seq<usize>>, AllocError>
    ensures { IfOk result (λ edges. edges.items ≡ replicate count []) }
{
    let mut edges = Vec::with_capacity(alloc, count)?;
    for _place in 0..count {
        edges.push(Seq::new(alloc))?;
    }
    Ok(edges)
}

fn append_all(
    edges: &mut Vec<Seq<usize>>,
    targets: &[usize],
    place: usize,
    alloc: Global,
) -> Result<(), AllocError>
    ensures { OnOk result (Appends targets.now place edges.old.items edges.new.items) }
{
    for target in targets {
        append(edges, *target, place, alloc)?;
    }
    Ok(())
}

fn append(
    edges: &mut Vec<Seq<usize>>,
    target: usize,
    place: usize,
    alloc: Global,
) -> Result<(), AllocError>
    ensures { OnOk result (Appends (target ∷ []) place edges.old.items edges.new.items) }
{
    if target < edges.len() {
        let slot = &mut edges[target];
        let mut list = replace(slot, Seq::new(alloc)).into_vec();
        list.push(place)?;
        *slot = Seq::from_vec(list);
    }
    Ok(())
}

pub(crate) fn next_of(edges: &[Seq<usize>], place: usize) -> &[usize]
    ensures { result.now ≡ spec.places_at (slice_get edges.now place) }
{
    match edges.get(place) {
        Some(next) => next.as_slice(),
        None => &[],
    }
}

/// Marks the places that aren't marked, and puts them on the list of those whose edges are to be followed.
pub(crate) fn add(
    places: &[usize],
    marks: &mut Vec<bool>,
    waiting: &mut Vec<usize>,
) -> Result<(), AllocError>
    ensures { OnOk result (Adds places.now marks.old.items waiting.old.items marks.new.items waiting.new.items) }
{
    for place in places {
        add_one(*place, marks, waiting)?;
    }
    Ok(())
}

fn add_one(place: usize, marks: &mut Vec<bool>, waiting: &mut Vec<usize>) -> Result<(), AllocError>
    ensures { OnOk result (Adds (place ∷ []) marks.old.items waiting.old.items marks.new.items waiting.new.items) }
{
    if place < marks.len() && !marks[place] {
        waiting.push(place)?;
        marks[place] = true;
    }
    Ok(())
}

#[cfg(test)]
mod tests;
