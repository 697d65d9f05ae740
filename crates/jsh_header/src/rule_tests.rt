use crate::test_rows::{Own, Row, live, name};
use crate::*;
use jsh_library::table;
use jsh_tree::{
    ClassDeclaration, Code, Diagnostic, Identifier, InterfaceDeclaration, Library, Seq, Span, Tree,
};
use std::alloc::Global;
use std::process::Abort;
use std::test::Fail;

const RUN: Own = Own::Body("run", "void", &[]);

const ABSTRACT_RUN: Own = Own::Abstract("run", "void", &[]);

const INT_I: Row = Row::Interface("I", &[], &[Own::Abstract("m", "int", &[])]);

const VOID_J: Row = Row::Interface("J", &[], &[Own::Abstract("m", "void", &[])]);

/// The live snippets, the place of a type, and the rules that it breaks with the index of the
/// supertype.
const BREACHES: [(&[Row], usize, &[(u8, Option<usize>)]); 30] = [
    (&[], 0, &[]),
    (&[Row::Var("x", "B")], 0, &[]),
    (&[Row::Data("A", &["B"])], 0, &[]),
    (
        &[Row::Class("A", &["String"], &[], &[])],
        0,
        &[(1, Some(0))],
    ),
    (
        &[
            Row::Interface("I", &[], &[]),
            Row::Class("A", &["I"], &[], &[]),
        ],
        1,
        &[(1, Some(0))],
    ),
    (
        &[Row::Data("B", &[]), Row::Class("A", &[], &["B"], &[])],
        1,
        &[(2, Some(0))],
    ),
    (
        &[Row::Data("B", &[]), Row::Interface("I", &["B"], &[])],
        1,
        &[(2, Some(0))],
    ),
    (&[Row::Class("A", &["A"], &[], &[])], 0, &[(3, Some(0))]),
    (
        &[
            Row::Interface("I", &["J"], &[]),
            Row::Interface("J", &["I"], &[]),
        ],
        1,
        &[(3, Some(0))],
    ),
    (
        &[
            Row::Class("A", &["B"], &[], &[]),
            Row::Class("B", &["C"], &[], &[]),
            Row::Class("C", &["A"], &[], &[]),
        ],
        1,
        &[(3, Some(0))],
    ),
    (
        &[
            INT_I,
            VOID_J,
            Row::Class("A", &[], &["I", "J"], &[Own::Body("m", "int", &[])]),
        ],
        2,
        &[(4, None)],
    ),
    (
        &[
            INT_I,
            VOID_J,
            Row::AbstractClass("A", &[], &["I", "J"], &[]),
        ],
        2,
        &[(4, None)],
    ),
    (
        &[INT_I, VOID_J, Row::Interface("K", &["J", "I"], &[])],
        2,
        &[(4, None)],
    ),
    (
        &[INT_I, VOID_J, Row::Class("A", &[], &["I", "J"], &[])],
        2,
        &[(4, None), (5, None)],
    ),
    (
        &[
            INT_I,
            Row::Class("B", &[], &["I"], &[Own::Body("m", "int", &[])]),
            Row::Class("A", &["B"], &[], &[Own::Body("m", "long", &[])]),
        ],
        2,
        &[(4, None)],
    ),
    (
        &[
            INT_I,
            Row::Class(
                "A",
                &[],
                &["I"],
                &[Own::Body("m", "int", &[]), Own::Body("m", "void", &["int"])],
            ),
        ],
        1,
        &[],
    ),
    (
        &[Row::Interface("I", &[], &[Own::Abstract("toString", "int", &[])])],
        0,
        &[(4, None)],
    ),
    (
        &[Row::Class("A", &[], &[], &[ABSTRACT_RUN])],
        0,
        &[(5, None)],
    ),
    (
        &[Row::Class("A", &[], &[], &[RUN, ABSTRACT_RUN])],
        0,
        &[(5, None)],
    ),
    (&[Row::Class("A", &[], &["Runnable"], &[])], 0, &[(5, None)]),
    (&[Row::Class("A", &[], &["Runnable"], &[RUN])], 0, &[]),
    (&[Row::AbstractClass("A", &[], &["Runnable"], &[])], 0, &[]),
    (
        &[
            Row::Class("B", &[], &["Runnable"], &[RUN]),
            Row::Class("A", &["B"], &[], &[]),
        ],
        1,
        &[],
    ),
    (
        &[
            Row::Class("C", &[], &[], &[RUN]),
            Row::AbstractClass("B", &["C"], &[], &[ABSTRACT_RUN]),
            Row::Class("A", &["B"], &["Runnable"], &[]),
        ],
        2,
        &[(5, None)],
    ),
    (
        &[
            Row::AbstractClass("B", &[], &["Runnable"], &[]),
            Row::Class("A", &["B"], &["C"], &[]),
        ],
        1,
        &[(5, None)],
    ),
    (&[Row::Data("Thread", &[])], 0, &[(6, None)]),
    (
        &[
            Row::Data("B", &[]),
            Row::Class("A", &["String"], &["B"], &[]),
        ],
        1,
        &[(1, Some(0)), (2, Some(1))],
    ),
    (
        &[Row::Class("A", &["A"], &["A"], &[])],
        0,
        &[(3, Some(0)), (2, Some(1))],
    ),
    (
        &[Row::Class("Thread", &["String"], &["Runnable"], &[])],
        0,
        &[(5, None), (6, None), (1, Some(0))],
    ),
    (
        &[
            Row::Data("Runnable", &[]),
            Row::Class("A", &[], &["Runnable"], &[]),
        ],
        1,
        &[(2, Some(0))],
    ),
];

fn as_breaches(alloc: Global, rows: &[(u8, Option<usize>)]) -> Result<Vec<Breach>, Fail> {
    let mut breaches = Vec::new(alloc);
    for (rule, supertype) in rows {
        breaches.push(Breach {
            rule: *rule,
            supertype: *supertype,
        })?;
    }
    Ok(breaches)
}

fn check_breaches(
    rt: &impl Abort,
    alloc: Global,
    library: &Library,
    row: (&[Row], usize, &[(u8, Option<usize>)]),
) -> Result<(), Fail> {
    let live = live(alloc, row.0)?;
    let found = breaches(alloc, live.as_slice(), library, row.1)?;
    let expected = as_breaches(alloc, row.2)?;
    assert_eq!(rt; found.as_slice(), expected.as_slice());
    Ok(())
}

#[test]
fn broken_rules_are_found(rt: HostRuntime) -> Result<(), Fail> {
    let library = table(rt.alloc())?;
    for row in BREACHES {
        check_breaches(&rt, rt.alloc(), &library, row)?;
    }
    Ok(())
}

/// A name that begins at this byte.
fn identifier(alloc: Global, text: &str, from: u32) -> Result<Identifier, Fail> {
    Ok(Identifier {
        name: name(alloc, text)?,
        span: Span {
            from,
            to: from.wrapping_add(1),
        },
    })
}

fn one_identifier(alloc: Global, text: &str, from: u32) -> Result<Seq<Identifier>, Fail> {
    let mut all = Vec::new(alloc);
    all.push(identifier(alloc, text, from)?)?;
    Ok(Seq::from_vec(all))
}

/// `class A extends B implements I {}`, or without its superclass.
fn class_tree(alloc: Global, extends: bool) -> Result<Tree, Fail> {
    let superclass = if extends {
        Some(identifier(alloc, "B", 16)?)
    } else {
        None
    };
    Ok(Tree::Class(ClassDeclaration {
        modifiers: Seq::new(alloc),
        name: identifier(alloc, "A", 6)?,
        extends: superclass,
        implements: one_identifier(alloc, "I", 29)?,
        members: Seq::new(alloc),
    }))
}

/// `interface J extends I {}`
fn interface_tree(alloc: Global) -> Result<Tree, Fail> {
    Ok(Tree::Interface(InterfaceDeclaration {
        modifiers: Seq::new(alloc),
        name: identifier(alloc, "J", 10)?,
        extends: one_identifier(alloc, "I", 20)?,
        methods: Seq::new(alloc),
    }))
}

/// Rules with the index of the supertype, and where they are said to be broken.
fn check_places(
    rt: &impl Abort,
    alloc: Global,
    tree: &Tree,
    rows: &[(u8, Option<usize>)],
    places: &[u32],
) -> Result<(), Fail> {
    let breaches = as_breaches(alloc, rows)?;
    let found = diagnostics(alloc, tree, breaches.as_slice())?;
    let expected = said(alloc, rows, places)?;
    assert_eq!(rt; found.as_slice(), expected.as_slice());
    Ok(())
}

fn said(
    alloc: Global,
    rows: &[(u8, Option<usize>)],
    places: &[u32],
) -> Result<Vec<Diagnostic>, Fail> {
    let mut said = Vec::new(alloc);
    for (row, place) in rows.iter().zip(places) {
        said.push(Diagnostic {
            code: Code::SuperRule { number: row.0 },
            place: *place,
            name: None,
        })?;
    }
    Ok(said)
}

#[test]
fn rules_of_a_class_are_said(rt: HostRuntime) -> Result<(), Fail> {
    let tree = class_tree(rt.alloc(), true)?;
    check_places(&rt, rt.alloc(), &tree, &[(3, Some(0))], &[16])?;
    check_places(
        &rt,
        rt.alloc(),
        &tree,
        &[(6, None), (1, Some(0)), (2, Some(1))],
        &[6, 16, 29],
    )
}

#[test]
fn rules_of_an_interface_are_said(rt: HostRuntime) -> Result<(), Fail> {
    let tree = interface_tree(rt.alloc())?;
    check_places(
        &rt,
        rt.alloc(),
        &tree,
        &[(4, None), (3, Some(0))],
        &[10, 20],
    )
}

#[test]
fn interfaces_count_from_the_first(rt: HostRuntime) -> Result<(), Fail> {
    let tree = class_tree(rt.alloc(), false)?;
    check_places(&rt, rt.alloc(), &tree, &[(2, Some(0))], &[29])
}
