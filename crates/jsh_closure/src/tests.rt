use crate::*;
use std::process::Abort;
use std::test::Fail;

/// Some first places, for each place those that it leads to, and whether each is found along the edges
/// and against them.
#[derive(Clone, Copy)]
struct Row {
    first: &'static [usize],
    edges: &'static [&'static [usize]],
    along: &'static [bool],
    against: &'static [bool],
}

const ROWS: [Row; 6] = [
    Row {
        first: &[0],
        edges: &[],
        along: &[],
        against: &[],
    },
    Row {
        first: &[],
        edges: &[&[1], &[]],
        along: &[false, false],
        against: &[false, false],
    },
    Row {
        first: &[0],
        edges: &[&[1], &[]],
        along: &[true, true],
        against: &[true, false],
    },
    Row {
        first: &[1],
        edges: &[&[1], &[]],
        along: &[false, true],
        against: &[true, true],
    },
    Row {
        first: &[0, 9],
        edges: &[&[1, 7], &[2, 2], &[0], &[0], &[4]],
        along: &[true, true, true, false, false],
        against: &[true, true, true, true, false],
    },
    Row {
        first: &[3],
        edges: &[&[1], &[2], &[3], &[3]],
        along: &[false, false, false, true],
        against: &[true, true, true, true],
    },
];

fn edges(alloc: Global, row: Row) -> Result<Vec<Seq<usize>>, Fail> {
    let mut edges = Vec::new(alloc);
    for targets in row.edges {
        edges.push(Seq::from_slice(alloc, targets)?)?;
    }
    Ok(edges)
}

fn check(rt: &impl Abort, alloc: Global, row: Row) -> Result<(), Fail> {
    let edges = edges(alloc, row)?;
    let along = closure(alloc, row.first, edges.as_slice())?;
    assert_eq!(rt; along.as_slice(), row.along);
    let against = closure_back(alloc, row.first, edges.as_slice())?;
    assert_eq!(rt; against.as_slice(), row.against);
    Ok(())
}

#[test]
fn places_are_found(rt: HostRuntime) -> Result<(), Fail> {
    for row in ROWS {
        check(&rt, rt.alloc(), row)?;
    }
    Ok(())
}
