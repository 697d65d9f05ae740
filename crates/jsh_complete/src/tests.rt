//! Texts, and what they are by the grammar's rules.

ghost use Rattle.std.specs.Prelude.{◌<◌, ◌^◌, length};

use crate::{Completeness, Completion, Reader, analyze};
use jsh_lex::{LexError, LexFault, lex};
use jsh_tree::Token;
use std::alloc::{AllocError, Global};
use std::process::Abort;
use std::test::Fail;

/// A text, what it is, and where its first snippet ends, or else the text.
type Row = (&'static str, Completeness, u32);

/// A text for each rule.
const EXAMPLES: [Row; 8] = [
    ("", Completeness::Empty, 0),
    ("if (x > 0) f();", Completeness::ConsideredIncomplete, 15),
    ("if (x > 0", Completeness::DefinitelyIncomplete, 9),
    ("while (x > 0)", Completeness::DefinitelyIncomplete, 13),
    (") x", Completeness::Unknown, 3),
    ("x = 1", Completeness::CompleteWithSemi, 5),
    ("int x = 1; int y", Completeness::Complete, 10),
    ("/* c", Completeness::DefinitelyIncomplete, 4),
];

/// Without tokens, or with white space and comments about them.
const BLANKS: [Row; 9] = [
    ("  \t\n", Completeness::Empty, 4),
    ("// c", Completeness::Empty, 4),
    ("/* c */", Completeness::Empty, 7),
    ("  f(); ", Completeness::Complete, 6),
    ("/* c */ f(); // d", Completeness::Complete, 12),
    ("f() // c", Completeness::CompleteWithSemi, 8),
    ("if (a) b(); // c", Completeness::ConsideredIncomplete, 16),
    ("if (a) // c\n", Completeness::DefinitelyIncomplete, 12),
    // the first letter has two bytes
    ("\u{e9} = 1; y", Completeness::Complete, 7),
];

/// Statements and blocks, whole and cut.
const STATEMENTS: [Row; 62] = [
    (";", Completeness::Complete, 1),
    ("{}", Completeness::Complete, 2),
    ("{", Completeness::DefinitelyIncomplete, 1),
    ("{ f();", Completeness::DefinitelyIncomplete, 6),
    ("{ f()", Completeness::DefinitelyIncomplete, 5),
    ("{ f(); }", Completeness::Complete, 8),
    ("{ } { }", Completeness::Complete, 3),
    ("{ } }", Completeness::Complete, 3),
    ("; ;", Completeness::Complete, 1),
    ("}", Completeness::Unknown, 1),
    ("if", Completeness::DefinitelyIncomplete, 2),
    // a block could stand in place of the `;`
    ("if (a)", Completeness::DefinitelyIncomplete, 6),
    ("if (a) {", Completeness::DefinitelyIncomplete, 8),
    ("if (a) { }", Completeness::ConsideredIncomplete, 10),
    ("if (a) b()", Completeness::CompleteWithSemi, 10),
    ("if (a) b(); c();", Completeness::Complete, 11),
    ("if (a) ; else", Completeness::DefinitelyIncomplete, 13),
    ("if (a) ; else ;", Completeness::Complete, 15),
    // the longer of two snippets
    ("if (a) b(); else c(); d", Completeness::Complete, 21),
    ("if (a) b(); else }", Completeness::Complete, 11),
    // an `else` of the outer `if`
    (
        "if (a) if (b) c(); else d();",
        Completeness::ConsideredIncomplete,
        28,
    ),
    (
        "if (a) if (b) c(); else d(); else e();",
        Completeness::Complete,
        38,
    ),
    ("else f();", Completeness::Unknown, 9),
    ("while", Completeness::DefinitelyIncomplete, 5),
    ("while (a) b()", Completeness::CompleteWithSemi, 13),
    ("while (a) b();", Completeness::Complete, 14),
    (
        "while (a) if (b) c();",
        Completeness::ConsideredIncomplete,
        21,
    ),
    ("do", Completeness::DefinitelyIncomplete, 2),
    ("do ;", Completeness::DefinitelyIncomplete, 4),
    ("do f()", Completeness::DefinitelyIncomplete, 6),
    ("do ; while", Completeness::DefinitelyIncomplete, 10),
    // no block could stand here
    ("do ; while (a)", Completeness::CompleteWithSemi, 14),
    ("do { } while (a);", Completeness::Complete, 17),
    ("for (", Completeness::DefinitelyIncomplete, 5),
    ("for (int i = 0", Completeness::DefinitelyIncomplete, 14),
    ("for (;;", Completeness::DefinitelyIncomplete, 7),
    ("for (;;)", Completeness::DefinitelyIncomplete, 8),
    ("for (;;) ;", Completeness::Complete, 10),
    ("for (;;) if (a) ;", Completeness::ConsideredIncomplete, 17),
    ("for (int x : xs", Completeness::DefinitelyIncomplete, 15),
    ("for (int x : xs)", Completeness::DefinitelyIncomplete, 16),
    ("for (final var x : xs) f(x);", Completeness::Complete, 28),
    ("switch (x)", Completeness::DefinitelyIncomplete, 10),
    ("switch (x) {", Completeness::DefinitelyIncomplete, 12),
    (
        "switch (x) { case -1",
        Completeness::DefinitelyIncomplete,
        20,
    ),
    (
        "switch (x) { case 1: f(); break; default: }",
        Completeness::Complete,
        43,
    ),
    ("try", Completeness::DefinitelyIncomplete, 3),
    ("try {} ", Completeness::DefinitelyIncomplete, 7),
    ("try {} catch (E e)", Completeness::DefinitelyIncomplete, 18),
    ("try {} catch (E e) {}", Completeness::Complete, 21),
    (
        "try {} catch (E e) {} catch",
        Completeness::DefinitelyIncomplete,
        27,
    ),
    (
        "try {} catch (E e) {} finally {}",
        Completeness::Complete,
        21,
    ),
    ("break", Completeness::CompleteWithSemi, 5),
    ("break;", Completeness::Complete, 6),
    ("continue", Completeness::CompleteWithSemi, 8),
    ("return", Completeness::CompleteWithSemi, 6),
    ("return 1 +", Completeness::DefinitelyIncomplete, 10),
    ("return 1", Completeness::CompleteWithSemi, 8),
    ("return 1;", Completeness::Complete, 9),
    ("throw", Completeness::DefinitelyIncomplete, 5),
    ("throw e", Completeness::CompleteWithSemi, 7),
    ("throw e;", Completeness::Complete, 8),
];

/// Imports, variables, methods and types, whole and cut.
const DECLARATIONS: [Row; 41] = [
    ("import", Completeness::DefinitelyIncomplete, 6),
    // an import has two names
    ("import java", Completeness::DefinitelyIncomplete, 11),
    ("import java.", Completeness::DefinitelyIncomplete, 12),
    ("import java.util.*", Completeness::CompleteWithSemi, 18),
    ("import java.util.List", Completeness::CompleteWithSemi, 21),
    (
        "import static java.lang.Math.*;",
        Completeness::Complete,
        31,
    ),
    ("int", Completeness::DefinitelyIncomplete, 3),
    ("int x", Completeness::CompleteWithSemi, 5),
    ("int x =", Completeness::DefinitelyIncomplete, 7),
    ("int x = 1", Completeness::CompleteWithSemi, 9),
    ("int x = 1, y;", Completeness::Unknown, 13),
    ("int[", Completeness::DefinitelyIncomplete, 4),
    ("int[]", Completeness::DefinitelyIncomplete, 5),
    ("int[] x = {", Completeness::DefinitelyIncomplete, 11),
    ("int[] x = {1,", Completeness::DefinitelyIncomplete, 13),
    ("int[] x = {1, 2}", Completeness::CompleteWithSemi, 16),
    // it needs a value
    ("var x", Completeness::DefinitelyIncomplete, 5),
    ("var x = 1", Completeness::CompleteWithSemi, 9),
    ("final", Completeness::DefinitelyIncomplete, 5),
    ("final String s = \"a\";", Completeness::Complete, 21),
    ("a b", Completeness::CompleteWithSemi, 3),
    ("a b c", Completeness::Unknown, 5),
    ("a[]", Completeness::DefinitelyIncomplete, 3),
    ("a[] b", Completeness::CompleteWithSemi, 5),
    ("void", Completeness::DefinitelyIncomplete, 4),
    // a method has a block
    ("int f()", Completeness::DefinitelyIncomplete, 7),
    ("int f() throws E", Completeness::DefinitelyIncomplete, 16),
    ("int f() {", Completeness::DefinitelyIncomplete, 9),
    (
        "int f(int a, final int b) { return a; } f(1",
        Completeness::Complete,
        39,
    ),
    ("class A", Completeness::DefinitelyIncomplete, 7),
    ("class A extends", Completeness::DefinitelyIncomplete, 15),
    ("class A {", Completeness::DefinitelyIncomplete, 9),
    ("class A { int x", Completeness::DefinitelyIncomplete, 15),
    ("class A { int x; }", Completeness::Complete, 18),
    ("class A { } int", Completeness::Complete, 11),
    (
        "class A { A() { super(",
        Completeness::DefinitelyIncomplete,
        22,
    ),
    (
        "abstract class A implements I, J { abstract int f(); }",
        Completeness::Complete,
        54,
    ),
    (
        "interface I { void f()",
        Completeness::DefinitelyIncomplete,
        22,
    ),
    (
        "interface I extends J { void f(); }",
        Completeness::Complete,
        35,
    ),
    ("public class", Completeness::DefinitelyIncomplete, 12),
    ("public if", Completeness::Unknown, 9),
];

/// Expressions, whole and cut.
const EXPRESSIONS: [Row; 44] = [
    ("f", Completeness::CompleteWithSemi, 1),
    ("f(", Completeness::DefinitelyIncomplete, 2),
    ("f(a,", Completeness::DefinitelyIncomplete, 4),
    ("f(a, b)", Completeness::CompleteWithSemi, 7),
    ("f();", Completeness::Complete, 4),
    ("f())", Completeness::Unknown, 4),
    ("x =", Completeness::DefinitelyIncomplete, 3),
    ("x = 1;", Completeness::Complete, 6),
    ("x = 1; y = 2; z", Completeness::Complete, 6),
    ("1 2", Completeness::Unknown, 3),
    ("1 + 2;", Completeness::Complete, 6),
    ("a +", Completeness::DefinitelyIncomplete, 3),
    ("a ? b", Completeness::DefinitelyIncomplete, 5),
    ("a ? b : c", Completeness::CompleteWithSemi, 9),
    ("a instanceof", Completeness::DefinitelyIncomplete, 12),
    ("a instanceof B[", Completeness::DefinitelyIncomplete, 15),
    ("-", Completeness::DefinitelyIncomplete, 1),
    ("++", Completeness::DefinitelyIncomplete, 2),
    ("i++", Completeness::CompleteWithSemi, 3),
    ("i++ +", Completeness::DefinitelyIncomplete, 5),
    ("1++", Completeness::Unknown, 3),
    ("a.", Completeness::DefinitelyIncomplete, 2),
    ("a.b", Completeness::CompleteWithSemi, 3),
    ("a[", Completeness::DefinitelyIncomplete, 2),
    ("a[0]", Completeness::CompleteWithSemi, 4),
    ("super", Completeness::DefinitelyIncomplete, 5),
    ("super.f", Completeness::DefinitelyIncomplete, 7),
    ("super.f()", Completeness::CompleteWithSemi, 9),
    ("this", Completeness::CompleteWithSemi, 4),
    ("(", Completeness::DefinitelyIncomplete, 1),
    ("()", Completeness::Unknown, 2),
    ("(a)", Completeness::CompleteWithSemi, 3),
    ("(a) b", Completeness::CompleteWithSemi, 5),
    ("(int)", Completeness::DefinitelyIncomplete, 5),
    ("(int) x", Completeness::CompleteWithSemi, 7),
    ("new", Completeness::DefinitelyIncomplete, 3),
    ("new A", Completeness::DefinitelyIncomplete, 5),
    ("new A()", Completeness::CompleteWithSemi, 7),
    ("new int[]", Completeness::DefinitelyIncomplete, 9),
    ("new int[] {", Completeness::DefinitelyIncomplete, 11),
    ("new int[] { 1 }", Completeness::CompleteWithSemi, 15),
    ("new int[2]", Completeness::CompleteWithSemi, 10),
    ("new int[2][]", Completeness::CompleteWithSemi, 12),
    ("new int[2] {", Completeness::Unknown, 12),
];

/// Texts that the lexis refuses.
const FAULTS: [Row; 17] = [
    ("x = 1; \"abc", Completeness::Complete, 6),
    ("\"abc", Completeness::Unknown, 4),
    ("x = 1; #", Completeness::Complete, 6),
    ("x = 1 #", Completeness::Unknown, 7),
    ("1.5", Completeness::Unknown, 3),
    ("'ab'", Completeness::Unknown, 4),
    ("f( \"x", Completeness::Unknown, 5),
    ("if (a) b(); \"x", Completeness::Complete, 11),
    ("if (a) b(); else \"x", Completeness::Complete, 11),
    (" /* c", Completeness::DefinitelyIncomplete, 5),
    ("f() /* c", Completeness::DefinitelyIncomplete, 8),
    ("f(); /* c", Completeness::Complete, 4),
    // an `else` may come
    ("if (a) b(); /* c", Completeness::DefinitelyIncomplete, 16),
    // a `catch` may come
    (
        "try {} catch (E e) {} /* c",
        Completeness::DefinitelyIncomplete,
        26,
    ),
    ("} /* c", Completeness::Unknown, 6),
    ("x = 1; y /* c", Completeness::Complete, 6),
    ("; /* c", Completeness::Complete, 1),
];

/// A statement cut behind each of its tokens, and what it is up to there.
const CUTS_OF_A_STATEMENT: [(&str, Completeness); 34] = [
    ("for", Completeness::DefinitelyIncomplete),
    (" (", Completeness::DefinitelyIncomplete),
    ("int", Completeness::DefinitelyIncomplete),
    (" i", Completeness::DefinitelyIncomplete),
    (" =", Completeness::DefinitelyIncomplete),
    (" 0", Completeness::DefinitelyIncomplete),
    (";", Completeness::DefinitelyIncomplete),
    (" i", Completeness::DefinitelyIncomplete),
    (" <", Completeness::DefinitelyIncomplete),
    (" n", Completeness::DefinitelyIncomplete),
    (";", Completeness::DefinitelyIncomplete),
    (" i", Completeness::DefinitelyIncomplete),
    ("++", Completeness::DefinitelyIncomplete),
    // with a `;` it is whole, and a block could begin there
    (")", Completeness::DefinitelyIncomplete),
    (" if", Completeness::DefinitelyIncomplete),
    (" (", Completeness::DefinitelyIncomplete),
    ("a", Completeness::DefinitelyIncomplete),
    ("[", Completeness::DefinitelyIncomplete),
    ("i", Completeness::DefinitelyIncomplete),
    ("]", Completeness::DefinitelyIncomplete),
    (" >", Completeness::DefinitelyIncomplete),
    (" 0", Completeness::DefinitelyIncomplete),
    // the same
    (")", Completeness::DefinitelyIncomplete),
    // a name alone is no statement
    (" s", Completeness::DefinitelyIncomplete),
    (" +=", Completeness::DefinitelyIncomplete),
    (" a", Completeness::CompleteWithSemi),
    ("[", Completeness::DefinitelyIncomplete),
    ("i", Completeness::DefinitelyIncomplete),
    ("]", Completeness::CompleteWithSemi),
    // an `else` may follow
    (";", Completeness::ConsideredIncomplete),
    (" else", Completeness::DefinitelyIncomplete),
    // a name alone is no statement
    (" s", Completeness::DefinitelyIncomplete),
    ("--", Completeness::CompleteWithSemi),
    (";", Completeness::Complete),
];

/// The same of a method: what is cut within its block needs the closing brace.
const CUTS_OF_A_METHOD: [(&str, Completeness); 32] = [
    ("public", Completeness::DefinitelyIncomplete),
    (" static", Completeness::DefinitelyIncomplete),
    (" int", Completeness::DefinitelyIncomplete),
    // a variable
    (" f", Completeness::CompleteWithSemi),
    ("(", Completeness::DefinitelyIncomplete),
    ("int", Completeness::DefinitelyIncomplete),
    (" a", Completeness::DefinitelyIncomplete),
    (",", Completeness::DefinitelyIncomplete),
    (" final", Completeness::DefinitelyIncomplete),
    (" A", Completeness::DefinitelyIncomplete),
    ("[", Completeness::DefinitelyIncomplete),
    ("]", Completeness::DefinitelyIncomplete),
    (" b", Completeness::DefinitelyIncomplete),
    // a method has a block
    (")", Completeness::DefinitelyIncomplete),
    (" throws", Completeness::DefinitelyIncomplete),
    (" E", Completeness::DefinitelyIncomplete),
    (" {", Completeness::DefinitelyIncomplete),
    (" if", Completeness::DefinitelyIncomplete),
    (" (", Completeness::DefinitelyIncomplete),
    ("a", Completeness::DefinitelyIncomplete),
    (" >", Completeness::DefinitelyIncomplete),
    (" 0", Completeness::DefinitelyIncomplete),
    (")", Completeness::DefinitelyIncomplete),
    (" return", Completeness::DefinitelyIncomplete),
    (" a", Completeness::DefinitelyIncomplete),
    (";", Completeness::DefinitelyIncomplete),
    (" return", Completeness::DefinitelyIncomplete),
    (" b", Completeness::DefinitelyIncomplete),
    (".", Completeness::DefinitelyIncomplete),
    ("n", Completeness::DefinitelyIncomplete),
    (";", Completeness::DefinitelyIncomplete),
    (" }", Completeness::Complete),
];

/// What a text is by its tokens, or by those before its first fault.
fn completion_of(alloc: Global, text: &str) -> Result<Completion, AllocError>
    requires { length text.now < 2 ^ 32 }
{
    match lex(alloc, text) {
        Ok(tokens) => Ok(analyze(text, &tokens, None)),
        Err(LexError::Fault { kind, before, .. }) => {
            Ok(analyze(text, before.as_slice(), Some(kind)))
        }
        Err(LexError::NoMemory) => Err(AllocError),
    }
}

fn check(
    rt: &impl Abort,
    alloc: Global,
    text: &str,
    kind: Completeness,
    end: u32,
) -> Result<(), Fail> {
    assert!(rt; text.len() < 0x1_0000_0000);
    let found = completion_of(alloc, text)?;
    assert_eq!(rt; found.kind, kind, "what {:?} is", text);
    assert_eq!(rt; found.end, end, "the end in {:?}", text);
    Ok(())
}

fn check_all(rt: &impl Abort, alloc: Global, rows: &[Row]) -> Result<(), Fail> {
    for (text, kind, end) in rows {
        check(rt, alloc, *text, *kind, *end)?;
    }
    Ok(())
}

#[test]
fn a_text_is_what_its_rule_says(rt: HostRuntime) -> Result<(), Fail> {
    check_all(&rt, rt.alloc(), &EXAMPLES)
}

#[test]
fn white_space_and_comments_are_no_tokens(rt: HostRuntime) -> Result<(), Fail> {
    check_all(&rt, rt.alloc(), &BLANKS)
}

#[test]
fn statements_are_whole_or_cut(rt: HostRuntime) -> Result<(), Fail> {
    check_all(&rt, rt.alloc(), &STATEMENTS)
}

#[test]
fn declarations_are_whole_or_cut(rt: HostRuntime) -> Result<(), Fail> {
    check_all(&rt, rt.alloc(), &DECLARATIONS)
}

#[test]
fn expressions_are_whole_or_cut(rt: HostRuntime) -> Result<(), Fail> {
    check_all(&rt, rt.alloc(), &EXPRESSIONS)
}

#[test]
fn faults_end_a_text(rt: HostRuntime) -> Result<(), Fail> {
    check_all(&rt, rt.alloc(), &FAULTS)
}

/// Checks that a reader that is given one token after another says of each front what is said of it alone, and last of all with the fault.
fn check_reader(
    rt: &impl Abort,
    alloc: Global,
    text: &str,
    tokens: &[Token],
    fault: Option<LexFault>,
) -> Result<(), Fail>
    requires { length text.now < 2 ^ 32 }
{
    let mut reader = Reader::new();
    let mut front = Vec::new(alloc);
    for token in tokens {
        front.push(*token)?;
        let found = reader.analyze(text, front.as_slice(), None);
        assert_eq!(rt;
            found,
            analyze(text, front.as_slice(), None),
            "a front of {:?}",
            text
        );
    }
    let found = reader.analyze(text, front.as_slice(), fault);
    assert_eq!(rt;
        found,
        analyze(text, front.as_slice(), fault),
        "all of {:?}",
        text
    );
    Ok(())
}

fn check_readers(rt: &impl Abort, alloc: Global, rows: &[Row]) -> Result<(), Fail> {
    for (text, _, _) in rows {
        let text: &str = *text;
        assert!(rt; text.len() < 0x1_0000_0000);
        match lex(alloc, text) {
            Ok(tokens) => check_reader(rt, alloc, text, &tokens, None)?,
            Err(LexError::Fault { kind, before, .. }) => {
                check_reader(rt, alloc, text, before.as_slice(), Some(kind))?
            }
            Err(LexError::NoMemory) => return Err(AllocError)?,
        }
    }
    Ok(())
}

#[test]
fn a_text_is_read_on(rt: HostRuntime) -> Result<(), Fail> {
    check_readers(&rt, rt.alloc(), &EXAMPLES)?;
    check_readers(&rt, rt.alloc(), &BLANKS)?;
    check_readers(&rt, rt.alloc(), &STATEMENTS)?;
    check_readers(&rt, rt.alloc(), &DECLARATIONS)?;
    check_readers(&rt, rt.alloc(), &EXPRESSIONS)?;
    check_readers(&rt, rt.alloc(), &FAULTS)
}

/// Checks each front of a text that is cut into these pieces. No piece of it is a snippet of its own before the end, so each front ends where it is cut.
fn check_cuts(rt: &impl Abort, alloc: Global, pieces: &[(&str, Completeness)]) -> Result<(), Fail> {
    let mut text = String::new(alloc);
    for (piece, kind) in pieces {
        text.push_str(*piece)?;
        assert!(rt; text.len() < 0x1_0000_0000);
        let end = text.len() as u32;
        check(rt, alloc, text.as_str(), *kind, end)?;
    }
    Ok(())
}

#[test]
fn a_statement_is_cut_anywhere(rt: HostRuntime) -> Result<(), Fail> {
    check_cuts(&rt, rt.alloc(), &CUTS_OF_A_STATEMENT)
}

#[test]
fn a_method_is_cut_anywhere(rt: HostRuntime) -> Result<(), Fail> {
    check_cuts(&rt, rt.alloc(), &CUTS_OF_A_METHOD)
}

/// A text in its parts: what stands first, what is repeated, how often, what stands in the midst, what is repeated as often behind it, and
/// what the whole is, with the end of its first snippet where there is one.
type Nested = (
    &'static str,
    &'static str,
    u32,
    &'static str,
    &'static str,
    Completeness,
    Option<u32>,
);

const NESTED: [Nested; 17] = [
    ("", "(", 256, "1", ")", Completeness::CompleteWithSemi, None),
    (
        "",
        "(",
        256,
        "1",
        "",
        Completeness::DefinitelyIncomplete,
        None,
    ),
    (
        "",
        "(",
        256,
        "",
        "",
        Completeness::DefinitelyIncomplete,
        None,
    ),
    ("", "(", 257, "1", ")", Completeness::Unknown, None),
    ("", "(", 257, "", "", Completeness::Unknown, None),
    // a token too deep comes before the comment
    ("", "(", 257, "1", ") /* c", Completeness::Unknown, None),
    (
        "if (a) b(); else f",
        "(",
        255,
        "1",
        ")",
        Completeness::CompleteWithSemi,
        None,
    ),
    // the `else` is one part, the arguments another
    (
        "if (a) b(); else f",
        "(",
        256,
        "1",
        ")",
        Completeness::Complete,
        Some(11),
    ),
    ("f(); ", "(", 257, "1", ")", Completeness::Complete, Some(4)),
    (
        "",
        "if (a) ",
        256,
        ";",
        "",
        Completeness::ConsideredIncomplete,
        None,
    ),
    // a block could stand here, though too deep
    (
        "",
        "if (a) ",
        256,
        "",
        "",
        Completeness::DefinitelyIncomplete,
        None,
    ),
    ("", "if (a) ", 257, ";", "", Completeness::Unknown, None),
    ("", "{", 256, "", "}", Completeness::Complete, Some(512)),
    (
        "",
        "{",
        256,
        "",
        "",
        Completeness::DefinitelyIncomplete,
        None,
    ),
    ("", "{", 257, "", "}", Completeness::Unknown, None),
    ("", "~", 256, "1", "", Completeness::CompleteWithSemi, None),
    ("", "~", 257, "1", "", Completeness::Unknown, None),
];

/// The text of these parts.
fn nested(alloc: Global, row: &Nested) -> Result<String, AllocError> {
    let mut text = String::new(alloc);
    text.push_str(row.0)?;
    for _ in 0..row.2 {
        text.push_str(row.1)?;
    }
    text.push_str(row.3)?;
    for _ in 0..row.2 {
        text.push_str(row.4)?;
    }
    Ok(text)
}

#[test]
fn at_most_256_parts_stand_in_one_another(rt: HostRuntime) -> Result<(), Fail> {
    for row in &NESTED {
        let text = nested(rt.alloc(), row)?;
        assert!(rt; text.len() < 0x1_0000_0000);
        let end = match row.6 {
            Some(end) => end,
            None => text.len() as u32,
        };
        check(&rt, rt.alloc(), text.as_str(), row.5, end)?;
    }
    Ok(())
}
