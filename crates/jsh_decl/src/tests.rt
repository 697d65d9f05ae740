use crate::readers::snippet_of;
use crate::shape::shape_of;
use crate::{ParseError, parse_snippet};
use jsh_lex::{LexError, lex};
use jsh_tree::{Block, BlockStatement, Boxed, ForStart, Span, Stmt, Tree};
use std::alloc::{AllocError, Global};
use std::process::Abort;
use std::test::Fail;

/// Statements and blocks, and the shapes of their trees. A shape tells what the snippet is, and has
/// brackets about all that consists of several parts.
const STATEMENTS: [(&str, &str); 47] = [
    // an `else` belongs to the nearest `if`
    (
        "if (a) if (b) c(); else d();",
        "statement [if a [if b c(); else d();]]",
    ),
    (
        "if (a) if (b) c(); else d(); else e();",
        "statement [if a [if b c(); else d();] else e();]",
    ),
    (
        "if (a) if (b) if (c) d(); else e(); else f();",
        "statement [if a [if b [if c d(); else e();] else f();]]",
    ),
    (
        "if (a) if (b) if (c) d(); else e(); else f(); else g();",
        "statement [if a [if b [if c d(); else e();] else f();] else g();]",
    ),
    (
        "if (a) { if (b) c(); } else d();",
        "statement [if a {[if b c();]} else d();]",
    ),
    (
        "if (a) while (b) if (c) d(); else e();",
        "statement [if a [while b [if c d(); else e();]]]",
    ),
    (
        "if (a) while (b) if (c) d(); else e(); else f();",
        "statement [if a [while b [if c d(); else e();]] else f();]",
    ),
    (
        "if (a) for (;;) if (b) ; else ; else ;",
        "statement [if a [for;; [if b ; else ;]] else ;]",
    ),
    (
        "if (a) for (int x : y) if (b) ; else ; else ;",
        "statement [if a [each int x : y [if b ; else ;]] else ;]",
    ),
    (
        "if (a) do if (b) ; else ; while (c); else ;",
        "statement [if a [do [if b ; else ;] while c] else ;]",
    ),
    (
        "if (a) b(); else if (c) d(); else e();",
        "statement [if a b(); else [if c d(); else e();]]",
    ),
    // the forms of `for`
    ("for (;;) ;", "statement [for;; ;]"),
    (
        "for (int i = 0; i < n; i++) f(i);",
        "statement [for int i = 0; (i < n); (i ++) f(i);]",
    ),
    (
        "for (final int i = 0; ; ) break;",
        "statement [for final int i = 0;; break;]",
    ),
    (
        "for (var i = 0; i < n; ) i += 1;",
        "statement [for var i = 0; (i < n); (i += 1);]",
    ),
    (
        "for (i = 0; ; --i) continue;",
        "statement [for (i = 0);; (-- i) continue;]",
    ),
    (
        "for (f(); g(); h()) { }",
        "statement [for f(); g(); h() {}]",
    ),
    ("for (A a = null; ; ) ;", "statement [for A a = null;; ;]"),
    ("for (A[] a = {b}; ; ) ;", "statement [for A[] a = {b};; ;]"),
    (
        "for (int x : xs) f(x);",
        "statement [each int x : xs f(x);]",
    ),
    (
        "for (final A[] x : xs) ;",
        "statement [each final A[] x : xs ;]",
    ),
    (
        "for (var x : xs.ys()) ;",
        "statement [each var x : (xs .ys()) ;]",
    ),
    (
        "for (final var x : xs) ;",
        "statement [each final var x : xs ;]",
    ),
    // `switch`
    ("switch (a) { }", "statement [switch a]"),
    (
        "switch (a) { case 1: case 2: f(); break; default: g(); }",
        "statement [switch a (case 1: case 2: f(); break;) (default: g();)]",
    ),
    (
        "switch (a + 1) { case -1: case 'b': case -2: default: int x = 1; case 3: }",
        "statement [switch (a + 1) (case -1: case 'b': case -2: default: int x = 1;) (case 3: )]",
    ),
    (
        "switch (a) { case -2147483648: { } case 'c': ; }",
        "statement [switch a (case --2147483648!: {}) (case 'c': ;)]",
    ),
    (
        "switch (a) { case 1: switch (b) { default: } default: }",
        "statement [switch a (case 1: [switch b (default: )]) (default: )]",
    ),
    // `try`
    (
        "try { f(); } catch (A a) { }",
        "statement [try {f();} catch A a {}]",
    ),
    (
        "try { } catch (A a) { g(); } catch (final B b) { } catch (C c) { ; }",
        "statement [try {} catch A a {g();} catch final B b {} catch C c {;}]",
    ),
    (
        "try { try { } catch (A a) { } } catch (B b) { }",
        "statement [try {[try {} catch A a {}]} catch B b {}]",
    ),
    // other statements and blocks
    (";", "statement ;"),
    ("while (a) { }", "statement [while a {}]"),
    ("do a(); while (b);", "statement [do a(); while b]"),
    ("break;", "statement break;"),
    ("continue;", "statement continue;"),
    ("return;", "statement return;"),
    ("return a + b;", "statement return (a + b);"),
    ("throw new A();", "statement throw new A();"),
    ("{}", "{}"),
    ("{ { } ; }", "{{} ;}"),
    (
        "{ int x = 1; final var y = x; f(x, y); }",
        "{int x = 1; final var y = x; f(x, y);}",
    ),
    ("{ A b; a b; }", "{A b; a b;}"),
    (
        "{ A[][] b = {{c}, {}}; final A d; a[0] = b; }",
        "{A[][] b = {{c}, {}}; final A d; ((a [0]) = b);}",
    ),
    ("{ final int x; x = 1; }", "{final int x; (x = 1);}"),
    (
        "{ x++; --x; a.b.c(); new A(b); }",
        "{(x ++); (-- x); (a .b .c()); new A(b);}",
    ),
    (
        "{ switch (a) { default: { try { } catch (A b) { } } } }",
        "{[switch a (default: {[try {} catch A b {}]})]}",
    ),
];

/// The same of expressions, variables and methods.
const DECLARATIONS: [(&str, &str); 39] = [
    // declarations against expressions
    ("a;", "expression a"),
    ("a b;", "[variable a b]"),
    ("a[] b;", "[variable a[] b]"),
    ("a[][] b = c;", "[variable a[][] b = c]"),
    ("a[0] = b;", "expression ((a [0]) = b)"),
    ("a[b] ++;", "expression ((a [b]) ++)"),
    ("a * b;", "expression (a * b)"),
    ("a < b;", "expression (a < b)"),
    ("a<b> c;", "expression (a < b > c)"),
    ("a.b();", "expression (a .b())"),
    ("a(b);", "expression a(b)"),
    ("a + b;", "expression (a + b)"),
    ("(a) + b;", "expression (<a> + b)"),
    ("(a) b;", "expression ((a) b)"),
    ("new A();", "expression new A()"),
    ("new int[] {1, 2};", "expression new int[] {1, 2}"),
    ("x instanceof A;", "expression (x instanceof A)"),
    ("1 + 2;", "expression (1 + 2)"),
    ("x = 1;", "expression (x = 1)"),
    ("this;", "expression this"),
    ("super.f();", "expression super.f()"),
    // variables
    ("int x;", "[variable int x]"),
    ("int x = 1;", "[variable int x = 1]"),
    ("int[] x = {1, 2, };", "[variable int[] x = {1, 2}]"),
    ("var x = f();", "[variable var x = f()]"),
    ("final int x = 1;", "[variable final int x = 1]"),
    ("static volatile A x;", "[variable static volatile A x]"),
    (
        "private static final var x = 1;",
        "[variable private static final var x = 1]",
    ),
    (
        "final private static int x;",
        "[variable final private static int x]",
    ),
    ("static static int x;", "[variable static static int x]"),
    // methods
    ("void f() { }", "[method void f() {}]"),
    (
        "int f(int x) { return x; }",
        "[method int f(int x) {return x;}]",
    ),
    (
        "A[] f(final int[] x, A y) { }",
        "[method A[] f(final int[] x, A y) {}]",
    ),
    ("a b() { }", "[method a b() {}]"),
    ("void f() throws A { }", "[method void f() throws A {}]"),
    (
        "void f() throws A, B, C { throw x; }",
        "[method void f() throws A, B, C {throw x;}]",
    ),
    (
        "public static void f() { ; }",
        "[method public static void f() {;}]",
    ),
    (
        "static public abstract final int f() { }",
        "[method static public abstract final int f() {}]",
    ),
    (
        "boolean f(char c) { if (a) return b; else return c; }",
        "[method boolean f(char c) {[if a return b; else return c;]}]",
    ),
];

/// The same of classes and interfaces.
const TYPES: [(&str, &str); 25] = [
    // classes
    ("class A { }", "[class A]"),
    ("class A extends B { }", "[class A extends B]"),
    ("class A implements B, C { }", "[class A implements B, C]"),
    (
        "class A extends B implements C { }",
        "[class A extends B implements C]",
    ),
    ("public abstract class A { }", "[class public abstract A]"),
    ("final static class A { ; ; }", "[class final static A]"),
    ("class A { int x; }", "[class A [field int x]]"),
    (
        "class A { ; private int x = 1; ; protected final A[] y = {null}; ; }",
        "[class A [field private int x = 1] [field protected final A[] y = {null}]]",
    ),
    (
        "class A { volatile A a; A() { } }",
        "[class A [field volatile A a] [constructor A() {}]]",
    ),
    (
        "class A { A() { } A a() { } A a; }",
        "[class A [constructor A() {}] [method A a() {}] [field A a]]",
    ),
    (
        "class A { B() { } B b() { } }",
        "[class A [constructor B() {}] [method B b() {}]]",
    ),
    (
        "class A { public A(final int x, A[] y) throws B, C { } }",
        "[class A [constructor public A(final int x, A[] y) throws B, C {}]]",
    ),
    (
        "class A { A() { this(1, b); } }",
        "[class A [constructor A() this(1, b) {}]]",
    ),
    (
        "class A { A() { super(); x = 1; } }",
        "[class A [constructor A() super() {(x = 1);}]]",
    ),
    (
        "class A { A() { this.x = 1; int y; } }",
        "[class A [constructor A() {((this .x) = 1); int y;}]]",
    ),
    (
        "class A { A() { super.f(); } }",
        "[class A [constructor A() {super.f();}]]",
    ),
    (
        "class A { A() { ; } void f() { } }",
        "[class A [constructor A() {;}] [method void f() {}]]",
    ),
    (
        "class A { abstract void f(); int g() throws B; A[] h() { } }",
        "[class A [method abstract void f()] [method int g() throws B] [method A[] h() {}]]",
    ),
    (
        "abstract class A { final public volatile int x; abstract protected int f(); }",
        "[class abstract A [field final public volatile int x] [method abstract protected int f()]]",
    ),
    (
        "class A { int[] f() { } int[] x; int y; }",
        "[class A [method int[] f() {}] [field int[] x] [field int y]]",
    ),
    // interfaces
    ("interface A { }", "[interface A]"),
    ("interface A extends B { }", "[interface A extends B]"),
    (
        "interface A extends B, C { void f(); }",
        "[interface A extends B, C [method void f()]]",
    ),
    (
        "public interface A { public abstract int f(int x); }",
        "[interface public A [method public abstract int f(int x)]]",
    ),
    (
        "abstract static interface A { A[] f() throws B; abstract public void g(); }",
        "[interface abstract static A [method A[] f() throws B] [method abstract public void g()]]",
    ),
];

/// The same of imports, and of texts that need a semicolon behind them.
const SOURCES: [(&str, &str); 19] = [
    // imports
    ("import a.b;", "[import a b]"),
    ("import a.b.C;", "[import a b C]"),
    ("import a.*;", "[import a *]"),
    ("import a.b.*;", "[import a b *]"),
    ("import static a.b;", "[import static a b]"),
    ("import static a.b.C.d;", "[import static a b C d]"),
    ("import static a.*;", "[import static a *]"),
    ("import static a.b.C.*;", "[import static a b C *]"),
    // sources that need the semicolon
    ("a", "expression a"),
    ("a + b", "expression (a + b)"),
    ("int x = 1", "[variable int x = 1]"),
    ("a b", "[variable a b]"),
    ("import a.b", "[import a b]"),
    ("do ; while (a)", "statement [do ; while a]"),
    ("return", "statement return;"),
    ("return 1 // one", "statement return 1;"),
    ("", "statement ;"),
    ("while (a)", "statement [while a ;]"),
    ("if (a)", "statement [if a ;]"),
];

/// The shape of what the tokens of a text are read as, where they are a snippet.
fn shape(rt: &impl Abort, alloc: Global, text: &str) -> Result<Option<String>, AllocError> {
    match snippet_of(rt, alloc, text) {
        Ok(tree) => {
            let tree = Boxed::new(alloc, tree)?;
            Ok(Some(shape_of(alloc, tree.get())?))
        }
        Err(_) => Ok(None),
    }
}

/// Whether the texts of a table have their shapes.
fn have_shapes(rt: &impl Abort, alloc: Global, table: &[(&str, &str)]) -> Result<(), Fail> {
    for (text, expected) in table {
        let Some(shape) = shape(rt, alloc, text)? else {
            return Err(Fail::from("a text is refused"));
        };
        assert_eq!(rt; shape.as_str(), *expected, "the shape of {text:?}");
    }
    Ok(())
}

#[test]
fn statements_have_their_trees(rt: HostRuntime) -> Result<(), Fail> {
    have_shapes(&rt, rt.alloc(), &STATEMENTS)
}

#[test]
fn declarations_have_their_trees(rt: HostRuntime) -> Result<(), Fail> {
    have_shapes(&rt, rt.alloc(), &DECLARATIONS)
}

#[test]
fn types_have_their_trees(rt: HostRuntime) -> Result<(), Fail> {
    have_shapes(&rt, rt.alloc(), &TYPES)
}

#[test]
fn sources_have_their_trees(rt: HostRuntime) -> Result<(), Fail> {
    have_shapes(&rt, rt.alloc(), &SOURCES)
}

/// Where the first statement of a block, or the start of a `for`, declares a variable: its span.
fn declared_at(tree: &Tree) -> Option<Span> {
    match tree {
        Tree::Block(Block { statements, .. }) => match statements.as_slice() {
            [BlockStatement::Local { span, .. }, ..] => Some(*span),
            _ => None,
        },
        Tree::Statement(
            Stmt::For {
                start: ForStart::Local { span, .. },
                ..
            },
        ) => Some(*span),
        _ => None,
    }
}

/// Texts, and where the declaration of a local in them has its first token.
const LOCALS: [(&str, u32, u32); 6] = [
    ("{ int[] x; }", 2, 5),
    ("{ final A x; }", 2, 7),
    ("{ var x = 1; }", 2, 5),
    ("for ( A x = y;;) ;", 6, 7),
    ("for (final var x = y;;) ;", 5, 10),
    ("for (var x = y;;) ;", 5, 8),
];

#[test]
fn locals_tell_where_they_begin(rt: HostRuntime) {
    for (text, from, to) in &LOCALS {
        match snippet_of(&rt, rt.alloc(), text) {
            Ok(tree) => {
                let span = Span {
                    from: *from,
                    to: *to,
                };
                assert_eq!(rt; declared_at(&tree), Some(span), "where {text:?} declares");
            }
            Err(_) => assert!(rt; false, "{text:?} is refused"),
        }
    }
}

/// An annotation has no tokens.
#[test]
fn annotations_are_left_out(rt: HostRuntime) {
    match lex(rt.alloc(), "@A int x;") {
        Ok(_) => assert!(rt; false, "tokens of an annotation"),
        Err(error) => assert!(rt; matches!(&error, LexError::Fault { .. })),
    }
}

/// The semicolon at the end is no part of the tokens.
#[test]
fn a_snippet_has_its_semicolon(rt: HostRuntime) {
    let text = "int x = 1";
    match lex(rt.alloc(), text) {
        Ok(tokens) => match parse_snippet(rt.alloc(), text, &tokens) {
            Ok(_) => assert!(rt; false, "a tree without a semicolon"),
            Err(error) => {
                assert!(rt;
                    matches!(
                        &error,
                        ParseError::Wanted {
                            place: 9,
                            wanted: Some(_)
                        }
                    )
                );
            }
        },
        Err(_) => assert!(rt; false, "no tokens"),
    }
}

/// So many classes with constructors in one another can't be, but so many blocks in a method.
#[test]
fn at_most_256_constructs_stand_in_one_another(rt: HostRuntime) {
    match nested(rt.alloc(), 255) {
        Ok(text) => match snippet_of(&rt, rt.alloc(), text.as_str()) {
            Ok(_) => {}
            Err(error) => assert!(rt; false, "256 are refused"),
        },
        Err(_) => assert!(rt; false, "no memory"),
    }
    match nested(rt.alloc(), 256) {
        Ok(text) => match snippet_of(&rt, rt.alloc(), text.as_str()) {
            Ok(_) => assert!(rt; false, "257 are taken"),
            Err(error) => assert_eq!(rt; error, ParseError::TooDeep { limit: 256 }),
        },
        Err(_) => assert!(rt; false, "no memory"),
    }
}

/// A method with so many blocks in its own.
fn nested(alloc: Global, depth: u32) -> Result<String, AllocError> {
    let mut text = String::new(alloc);
    text.push_str("void f() {")?;
    for _ in 0..depth {
        text.push_str("{")?;
    }
    for _ in 0..depth {
        text.push_str("}")?;
    }
    text.push_str("}")?;
    Ok(text)
}
