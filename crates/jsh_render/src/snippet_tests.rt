// Expected texts are in the form of the `jshell` tool's feedback.
use crate::render;
use jsh_snippet::{Act, Entry, Event, Kind, Reply, ReplyBody, Status, Subkind, Submitted, Target};
use jsh_text::{NoMemory, UText};
use jsh_tree::{Modifier, Name, Seq, SrcText};
use std::alloc::Global;
use std::process::Abort;
use std::test::Fail;

/// A snippet's name and new status, whether its link is a new one, and its default value.
type Change = (&'static str, Status, bool, Option<&'static str>);

/// A snippet that is handed in or taken back: its kind, its own change and those of others, the
/// modifiers that are ignored, the names that are missing, its value, and its lines.
type Row = (
    Kind,
    &'static [Change],
    &'static [Modifier],
    &'static [&'static str],
    Option<&'static str>,
    &'static str,
);

fn text(alloc: Global, of: Option<&str>) -> Result<Option<UText>, NoMemory> {
    match of {
        None => Ok(None),
        Some(text) => Ok(Some(UText::from_str(alloc, text)?)),
    }
}

fn event(alloc: Global, change: Change) -> Result<Event, NoMemory> {
    Ok(Event {
        id: 1,
        name: UText::from_str(alloc, change.0)?,
        before: Status::Nonexistent,
        after: change.1,
        signature_changed: change.2,
        reset: text(alloc, change.3)?,
        cause: None,
    })
}

fn events(alloc: Global, changes: &[Change]) -> Result<Seq<Event>, NoMemory> {
    let mut events = Vec::new(alloc);
    for change in changes {
        events.push(event(alloc, *change)?)?;
    }
    Ok(Seq::from_vec(events))
}

fn names(alloc: Global, texts: &[&str]) -> Result<Seq<Name>, NoMemory> {
    let mut names = Vec::new(alloc);
    for text in texts {
        names.push(Name::from_text(alloc, text)?)?;
    }
    Ok(Seq::from_vec(names))
}

fn modifiers(alloc: Global, words: &[Modifier]) -> Result<Seq<Modifier>, NoMemory> {
    let mut ignored = Vec::new(alloc);
    for word in words {
        ignored.push(*word)?;
    }
    Ok(Seq::from_vec(ignored))
}

/// The name of the first of them.
fn name_of(changes: &[Change]) -> &'static str {
    match changes {
        [own, ..] => own.0,
        [] => "",
    }
}

fn submitted(alloc: Global, row: &Row) -> Result<ReplyBody, NoMemory> {
    Ok(ReplyBody::Submitted(Submitted {
        id: 3,
        kind: row.0,
        subkind: Subkind::Unknown,
        name: UText::from_str(alloc, name_of(row.1))?,
        events: events(alloc, row.1)?,
        ignored: modifiers(alloc, row.2)?,
        diagnostics: Seq::new(alloc),
        unresolved: names(alloc, row.3)?,
        run: None,
        value: text(alloc, row.4)?,
    }))
}

fn dropped(alloc: Global, row: &Row) -> Result<ReplyBody, NoMemory> {
    Ok(ReplyBody::Dropped {
        id: 3,
        kind: row.0,
        name: UText::from_str(alloc, name_of(row.1))?,
        events: events(alloc, row.1)?,
    })
}

fn rendered(alloc: Global, act: Act, body: ReplyBody) -> Result<Vec<u8>, NoMemory> {
    let output = UText::new(alloc);
    render(alloc, &Entry { client: 1, act }, &Reply { output, body })
}

fn check_submitted(rt: &impl Abort, alloc: Global, row: &Row) -> Result<(), Fail> {
    let source = SrcText::from_text(alloc, "x")?;
    let bytes = rendered(alloc, Act::Submit { source }, submitted(alloc, row)?)?;
    assert!(rt; bytes.as_slice() == row.5.as_bytes(), "{}", row.5);
    Ok(())
}

fn check_dropped(rt: &impl Abort, alloc: Global, row: &Row) -> Result<(), Fail> {
    let target = Target::Id(3);
    let bytes = rendered(alloc, Act::Drop { target }, dropped(alloc, row)?)?;
    assert!(rt; bytes.as_slice() == row.5.as_bytes(), "{}", row.5);
    Ok(())
}

const DECLARED: [Row; 10] = [
    (
        Kind::Method,
        &[("f(int)", Status::Valid, true, None)],
        &[],
        &[],
        None,
        "|  created method f(int)\n",
    ),
    (
        Kind::Method,
        &[("f()", Status::RecoverableDefined, true, None)],
        &[],
        &["g", "x"],
        None,
        "|  created method f(), however, it cannot be invoked until g and x are declared\n",
    ),
    (
        Kind::Method,
        &[
            ("g()", Status::Valid, true, None),
            ("f()", Status::Valid, false, None),
        ],
        &[],
        &[],
        None,
        "|  created method g()\n|    f() is now VALID\n",
    ),
    (
        Kind::Method,
        &[
            ("m(int)", Status::Valid, true, None),
            ("m(int)", Status::Overwritten, true, None),
        ],
        &[],
        &[],
        None,
        "|  replaced method m(int)\n",
    ),
    (
        Kind::TypeDecl,
        &[("class A", Status::RecoverableNotDefined, false, None)],
        &[],
        &["B"],
        None,
        "|  created class A, however, it cannot be referenced until B is declared\n",
    ),
    (
        Kind::TypeDecl,
        &[
            ("class B", Status::Valid, true, None),
            ("class A", Status::Valid, true, None),
        ],
        &[],
        &[],
        None,
        "|  created class B\n|    class A is now VALID\n",
    ),
    (
        Kind::TypeDecl,
        &[
            ("class A", Status::Valid, false, None),
            ("class A", Status::Overwritten, false, None),
        ],
        &[],
        &[],
        None,
        "|  modified class A\n",
    ),
    (
        Kind::TypeDecl,
        &[
            ("class A", Status::Valid, true, None),
            ("class A", Status::Overwritten, true, None),
            ("a", Status::Valid, true, Some("null")),
        ],
        &[],
        &[],
        None,
        "|  replaced class A\n|    a is now VALID, reset to null\n",
    ),
    (
        Kind::TypeDecl,
        &[("class A", Status::RecoverableDefined, true, None)],
        &[],
        &["f", "g", "f", "x"],
        None,
        "|  created class A, however, it cannot be invoked until f, g and x are declared\n",
    ),
    (
        Kind::TypeDecl,
        &[("interface I", Status::Valid, true, None)],
        &[Modifier::Public, Modifier::Static],
        &[],
        None,
        "|  Warning: modifier public ignored\n|  Warning: modifier static ignored\n|  created interface I\n",
    ),
];

#[test]
fn declarations_are_told(rt: HostRuntime) -> Result<(), Fail> {
    for row in &DECLARED {
        check_submitted(&rt, rt.alloc(), row)?;
    }
    Ok(())
}

const OTHERS: [Row; 7] = [
    (
        Kind::Var,
        &[("x", Status::Valid, true, None)],
        &[],
        &[],
        Some("0"),
        "x ==> 0\n",
    ),
    (
        Kind::Var,
        &[("x", Status::Valid, true, None)],
        &[Modifier::Public],
        &[],
        None,
        "|  Warning: modifier public ignored\n",
    ),
    (
        Kind::Var,
        &[("x", Status::RecoverableNotDefined, false, None)],
        &[],
        &["A"],
        None,
        "|  created variable x, however, it cannot be referenced until A is declared\n",
    ),
    (
        Kind::Var,
        &[
            ("x", Status::Valid, true, None),
            ("x", Status::Overwritten, true, None),
            ("f()", Status::Valid, false, None),
        ],
        &[],
        &[],
        Some("null"),
        "x ==> null\n|    f() is now VALID\n",
    ),
    (
        Kind::Import,
        &[("import java.util.*;", Status::Valid, false, None)],
        &[],
        &[],
        None,
        "",
    ),
    (
        Kind::Statement,
        &[("", Status::Valid, false, None)],
        &[],
        &[],
        None,
        "",
    ),
    (
        Kind::Erroneous,
        &[("", Status::Rejected, false, None)],
        &[],
        &[],
        None,
        "",
    ),
];

#[test]
fn other_snippets_are_told(rt: HostRuntime) -> Result<(), Fail> {
    for row in &OTHERS {
        check_submitted(&rt, rt.alloc(), row)?;
    }
    Ok(())
}

const DROPPED: [Row; 6] = [
    (
        Kind::Var,
        &[("$1", Status::Dropped, true, None)],
        &[],
        &[],
        None,
        "|  dropped variable $1\n",
    ),
    (
        Kind::Method,
        &[
            ("f()", Status::Dropped, true, None),
            ("g()", Status::RecoverableDefined, false, None),
        ],
        &[],
        &[],
        None,
        "|  dropped method f()\n|    g() is now RECOVERABLE_DEFINED\n",
    ),
    (
        Kind::TypeDecl,
        &[
            ("class A", Status::Dropped, true, None),
            ("class B", Status::RecoverableNotDefined, true, None),
        ],
        &[],
        &[],
        None,
        "|  dropped class A\n|    class B is now RECOVERABLE_NOT_DEFINED\n",
    ),
    (
        Kind::Import,
        &[("import java.util.*;", Status::Dropped, false, None)],
        &[],
        &[],
        None,
        "|  dropped import java.util.*;\n",
    ),
    (
        Kind::Expression,
        &[("x", Status::Dropped, false, None)],
        &[],
        &[],
        None,
        "|  dropped snippet 3\n",
    ),
    (
        Kind::Statement,
        &[("", Status::Dropped, false, None)],
        &[],
        &[],
        None,
        "|  dropped snippet 3\n",
    ),
];

#[test]
fn drops_are_told(rt: HostRuntime) -> Result<(), Fail> {
    for row in &DROPPED {
        check_dropped(&rt, rt.alloc(), row)?;
    }
    Ok(())
}
