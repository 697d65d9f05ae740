//! Searches one after another along the same edges.

ghost use Rattle.std.specs.Prelude.{◌≡◌, length, IfOk, OnOk};
ghost use Rattle.jsh_closure.specs.Finding.{IsBlank, IsFound, MarksOnly, Unmarks};

use crate::{add, next_of};
use jsh_tree::Seq;
use std::alloc::{AllocError, Global};
use std::marker::Model;
use std::mem::replace;

/// Searches along the same edges. Contracts see the edges.
#[derive(Drop)]
pub struct Finder {
    edges: Seq<Seq<usize>>,
    /// A mark for each place, or none before the first search and after one that found no memory.
    marks: Vec<bool>,
}

impl Model for Finder {
    ghost use Rattle.std.specs.Prelude.{List, ℕ};
    ghost use Rattle.jsh_closure.specs.Finding.{IsBlank};

    ghost Value = { List (List ℕ) };

    ghost view = { λ finder. finder.edges };

    ghost invariant = { λ finder. IsBlank finder.marks.items };
}

impl Finder {
    pub fn new(alloc: Global, edges: Seq<Seq<usize>>) -> Finder
        ensures { result ≡ edges }
    {
        Finder {
            edges,
            marks: Vec::new(alloc),
        }
    }

    /// The places that `closure` marks, each once. Once there are marks, the cost grows with these
    /// places and their edges alone.
    pub fn found(&mut self, alloc: Global, first: &[usize]) -> Result<Vec<usize>, AllocError>
        ensures edges { self.new ≡ self.old }
        ensures found { IfOk result (λ found. IsFound first.now self.old found.items) }
    {
        let marks = replace(&mut self.marks, Vec::new(alloc));
        let searched = search(alloc, first, self.edges.as_slice(), marks)?;
        self.marks = searched.marks;
        Ok(searched.found)
    }
}

#[derive(Drop)]
struct Searched {
    found: Vec<usize>,
    marks: Vec<bool>,
}

fn search(
    alloc: Global,
    first: &[usize],
    edges: &[Seq<usize>],
    marks: Vec<bool>,
) -> Result<Searched, AllocError>
    requires { IsBlank marks.items }
    ensures found { IfOk result (λ searched. IsFound first.now edges.now searched.found.items) }
    ensures blank { IfOk result (λ searched. IsBlank searched.marks.items) }
{
    let mut marks = sized(alloc, marks, edges.len())?;
    let found = find(alloc, first, edges, &mut marks)?;
    unmark(found.as_slice(), &mut marks);
    Ok(Searched { found, marks })
}

fn sized(alloc: Global, marks: Vec<bool>, count: usize) -> Result<Vec<bool>, AllocError>
    requires { IsBlank marks.items }
    ensures size { IfOk result (λ marks. length marks.items ≡ count) }
    ensures blank { IfOk result (λ marks. IsBlank marks.items) }
{
    if marks.len() == count {
        return Ok(marks);
    }
    let marks = Vec::from_elem(alloc, false, count)?;
    Ok(marks)
}

/// Leaves what it finds marked.
fn find(
    alloc: Global,
    first: &[usize],
    edges: &[Seq<usize>],
    marks: &mut Vec<bool>,
) -> Result<Vec<usize>, AllocError>
    requires size { length marks.old.items ≡ length edges.now }
    requires blank { IsBlank marks.old.items }
    ensures found { IfOk result (λ found. IsFound first.now edges.now found.items) }
    ensures marked { IfOk result (λ found. MarksOnly found.items marks.new.items) }
{
    let mut found = Vec::new(alloc);
    let mut waiting = Vec::new(alloc);
    add(first, marks, &mut waiting)?;
    while let Some(place) = waiting.pop() {
        found.push(place)?;
        add(next_of(edges, place), marks, &mut waiting)?;
    }
    Ok(found)
}

fn unmark(places: &[usize], marks: &mut Vec<bool>)
    requires { MarksOnly places.now marks.old.items }
    ensures { IsBlank marks.new.items }
{
    for place in places {
        unmark_one(*place, marks);
    }
}

fn unmark_one(place: usize, marks: &mut Vec<bool>)
    ensures { Unmarks place marks.old.items marks.new.items }
{
    if marks.len() <= place {
        return;
    }
    marks[place] = false;
}
