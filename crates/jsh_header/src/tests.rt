use crate::test_rows::{Row, live, member, members, name};
use crate::*;
use jsh_library::table;
use jsh_tree::{Field, Header, Key, Library, Member, Name, Seq, TypeWritten};
use std::alloc::Global;
use std::process::Abort;
use std::test::Fail;

const A_HAS_B: Row = Row::Data("A", &["B"]);

const B_HAS_A: Row = Row::Data("B", &["A"]);

const B_HAS_C: Row = Row::Data("B", &["C"]);

const C_HAS_A: Row = Row::Data("C", &["A"]);

const ATOMIC: Row = Row::Import(&["java", "util", "concurrent", "atomic"]);

const COUNT: Row = Row::Var("count", "AtomicInteger");

/// The live snippets, and which of them are bad.
const BAD: [(&[Row], &[bool]); 15] = [
    (&[], &[]),
    (&[COUNT], &[true]),
    (&[ATOMIC, COUNT], &[false, false]),
    (&[A_HAS_B], &[true]),
    (&[A_HAS_B, B_HAS_A], &[false, false]),
    (&[B_HAS_A], &[true]),
    (&[A_HAS_B, B_HAS_C, C_HAS_A], &[false, false, false]),
    (&[A_HAS_B, B_HAS_C], &[true, true]),
    (&[B_HAS_C, C_HAS_A], &[true, true]),
    (
        &[
            Row::Data("A", &["int", "String"]),
            Row::Class("C", &["C"], &[], &[]),
        ],
        &[false, true],
    ),
    (
        &[A_HAS_B, Row::Var("x", "A"), Row::Var("y", "int")],
        &[true, true, false],
    ),
    (
        &[Row::Method("f", "A", &[]), Row::Data("A", &[])],
        &[false, false],
    ),
    (
        &[Row::Method("f", "void", &["B"]), Row::Data("A", &[])],
        &[true, false],
    ),
    (
        &[Row::Data("String", &[]), Row::Var("s", "String")],
        &[true, true],
    ),
    (
        &[
            Row::Class("A", &["String"], &[], &[]),
            Row::Data("B", &["A"]),
        ],
        &[true, true],
    ),
];

fn check_bad(
    rt: &impl Abort,
    alloc: Global,
    library: &Library,
    row: (&[Row], &[bool]),
) -> Result<(), Fail> {
    let live = live(alloc, row.0)?;
    let marks = bad(alloc, live.as_slice(), library)?;
    assert_eq!(rt; marks.as_slice(), row.1);
    Ok(())
}

#[test]
fn bad_ones_are_found(rt: HostRuntime) -> Result<(), Fail> {
    let library = table(rt.alloc())?;
    for row in BAD {
        check_bad(&rt, rt.alloc(), &library, row)?;
    }
    Ok(())
}

#[test]
fn others_are_visible(rt: HostRuntime) -> Result<(), Fail> {
    let library = table(rt.alloc())?;
    let live = live(rt.alloc(), &[A_HAS_B, ATOMIC, Row::Var("x", "int")])?;
    let marks = visible(rt.alloc(), live.as_slice(), &library)?;
    assert_eq!(rt; marks.as_slice(), [false, true, true].as_slice());
    Ok(())
}

fn numbered(alloc: Global, number: u32) -> Result<Name, Fail> {
    let text = format!(in alloc; "A{number}")?;
    name(alloc, text.as_str())
}

/// A class with a field of the class with the next number.
fn link_of_chain(alloc: Global, number: u32) -> Result<Member, Fail> {
    let mut fields = Vec::new(alloc);
    fields.push(Field {
        written: TypeWritten {
            name: numbered(alloc, number.wrapping_add(1))?,
            dims: 0,
        },
        name: name(alloc, "f")?,
    })?;
    Ok(Member {
        id: number,
        key: Key::OfType(numbered(alloc, number)?),
        header: Header::OfType {
            interface: false,
            is_abstract: false,
            name: numbered(alloc, number)?,
            extends: Seq::new(alloc),
            implements: Seq::new(alloc),
            fields: Seq::from_vec(fields),
            methods: Seq::new(alloc),
            constructors: Seq::new(alloc),
        },
        link: None,
    })
}

fn chain(alloc: Global, count: u32) -> Result<Vec<Member>, Fail> {
    let mut members = Vec::new(alloc);
    for number in 0..count {
        members.push(link_of_chain(alloc, number)?)?;
    }
    Ok(members)
}

/// How many of a chain of 200 classes are bad, with the class that the last one needs or without it.
fn bad_of_chain(alloc: Global, library: &Library, last: &'static str) -> Result<usize, Fail> {
    let mut live = chain(alloc, 200)?;
    live.push(member(alloc, 200, Row::Data(last, &[]))?)?;
    let marks = bad(alloc, live.as_slice(), library)?;
    Ok(marks.iter().filter(|mark| **mark).count())
}

#[test]
fn one_name_makes_a_chain_visible(rt: HostRuntime) -> Result<(), Fail> {
    let library = table(rt.alloc())?;
    assert_eq!(rt; bad_of_chain(rt.alloc(), &library, "B")?, 200);
    assert_eq!(rt; bad_of_chain(rt.alloc(), &library, "A200")?, 0);
    Ok(())
}

const SMALL_A: Row = Row::Data("A", &["int"]);

const LARGE_A: Row = Row::Data("A", &["int", "int"]);

const PLAIN_A: Row = Row::Class("A", &[], &[], &[]);

const ABSTRACT_A: Row = Row::AbstractClass("A", &[], &[], &[]);

const MAKES_A: Row = Row::Method("make", "A", &[]);

/// The old units, the new ones with the ids of their records, and which of the new ones are replaced.
const REPLACED: [(&[(u32, Row)], &[(u32, Row)], &[bool]); 9] = [
    (&[], &[], &[]),
    (&[(1, SMALL_A)], &[], &[]),
    (&[], &[(1, SMALL_A)], &[true]),
    (
        &[
            (1, SMALL_A),
            (2, Row::Var("x", "A")),
            (3, Row::Method("f", "A", &[])),
            (4, B_HAS_A),
            (5, Row::Var("y", "B")),
            (6, Row::Var("z", "int")),
            (7, Row::Method("g", "int", &["A"])),
            (8, Row::Class("C", &["A"], &[], &[])),
        ],
        &[
            (2, Row::Var("x", "A")),
            (3, Row::Method("f", "A", &[])),
            (4, B_HAS_A),
            (5, Row::Var("y", "B")),
            (6, Row::Var("z", "int")),
            (7, Row::Method("g", "int", &["A"])),
            (8, Row::Class("C", &["A"], &[], &[])),
            (9, LARGE_A),
        ],
        &[true, true, true, true, false, true, true, true],
    ),
    (
        &[(1, PLAIN_A), (2, MAKES_A)],
        &[(2, MAKES_A), (3, ABSTRACT_A)],
        &[true, true],
    ),
    (
        &[(1, SMALL_A), (2, Row::Var("x", "A"))],
        &[(2, Row::Var("x", "A")), (3, SMALL_A)],
        &[false, false],
    ),
    (
        &[
            (1, Row::Method("f", "int", &[])),
            (2, Row::Method("g", "int", &[])),
        ],
        &[
            (2, Row::Method("g", "int", &[])),
            (3, Row::Method("f", "long", &[])),
        ],
        &[false, true],
    ),
    (
        &[(1, Row::Method("f", "int", &[]))],
        &[
            (1, Row::Method("f", "int", &[])),
            (2, Row::Method("f", "int", &["int"])),
        ],
        &[false, true],
    ),
    (
        &[(1, Row::Var("x", "int")), (2, Row::Var("y", "int"))],
        &[(2, Row::Var("y", "int")), (3, Row::Var("x", "int"))],
        &[false, true],
    ),
];

fn check_replaced(
    rt: &impl Abort,
    alloc: Global,
    row: (&[(u32, Row)], &[(u32, Row)], &[bool]),
) -> Result<(), Fail> {
    let old = members(alloc, row.0)?;
    let new = members(alloc, row.1)?;
    let marks = replaced(alloc, old.as_slice(), new.as_slice())?;
    assert_eq!(rt; marks.as_slice(), row.2);
    Ok(())
}

#[test]
fn replaced_units_are_found(rt: HostRuntime) -> Result<(), Fail> {
    for row in REPLACED {
        check_replaced(&rt, rt.alloc(), row)?;
    }
    Ok(())
}
