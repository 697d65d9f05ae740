//! Texts that are refused, each in two pieces: the place of the refusal is where the second begins.

use crate::readers::is_taken;
use crate::spellings::{joined, with_token};
use jsh_parse::ParseError;
use jsh_recognizer::Start;
use jsh_tree::TokenKind;
use std::alloc::Global;
use std::process::Abort;
use std::test::Fail;

/// An expression is asked for.
const E: Start = Start::Expression;

/// A statement.
const S: Start = Start::Statement;

/// A snippet, whose last semicolon may be missing.
const T: Start = Start::Snippet;

const ASSIGN: Option<TokenKind> = Some(TokenKind::Assign);

const CATCH: Option<TokenKind> = Some(TokenKind::Catch);

const COLON: Option<TokenKind> = Some(TokenKind::Colon);

const DOT: Option<TokenKind> = Some(TokenKind::Dot);

const ELSE: Option<TokenKind> = Some(TokenKind::Else);

const LEFT_BRACE: Option<TokenKind> = Some(TokenKind::LeftBrace);

const LEFT_BRACKET: Option<TokenKind> = Some(TokenKind::LeftBracket);

const LEFT_PAREN: Option<TokenKind> = Some(TokenKind::LeftParen);

const NAME: Option<TokenKind> = Some(TokenKind::Identifier);

const RIGHT_BRACKET: Option<TokenKind> = Some(TokenKind::RightBracket);

const RIGHT_PAREN: Option<TokenKind> = Some(TokenKind::RightParen);

const SEMICOLON: Option<TokenKind> = Some(TokenKind::Semicolon);

const WHILE: Option<TokenKind> = Some(TokenKind::While);

/// One class of token alone could stand at the place, or none.
const REFUSED: [(Start, &str, &str, Option<TokenKind>); 65] = [
    (E, "a.", "", NAME),
    (E, "a.", "\"s\"", NAME),
    (E, "a.", "(b)", NAME),
    (E, "super", "", DOT),
    (E, "super ", "+ a", DOT),
    (E, "super.", "(a)", NAME),
    (E, "super.a", "", LEFT_PAREN),
    (E, "super.a", ".b", LEFT_PAREN),
    (E, "new int", "", LEFT_BRACKET),
    (E, "new int", "()", LEFT_BRACKET),
    (E, "(int[", ") a", RIGHT_BRACKET),
    (E, "x instanceof int[", "0]", RIGHT_BRACKET),
    (S, "x(); ", "y();", None),
    (S, "; ", ";", None),
    (S, "{ } ", "{ }", None),
    (S, "x = 1; ", "else ;", None),
    (S, "do ; ", "until", WHILE),
    (S, "do ; while (a)", "", SEMICOLON),
    (S, "do { } while ", "a;", LEFT_PAREN),
    (S, "if ", "a", LEFT_PAREN),
    (S, "while ", "{ }", LEFT_PAREN),
    (S, "for ", "int", LEFT_PAREN),
    (S, "if (a) ; ", "; ", ELSE),
    (S, "if (a) ; else ; ", "else ;", None),
    (S, "switch ", "{ }", LEFT_PAREN),
    (S, "switch (a) ", "case 1:", LEFT_BRACE),
    (S, "switch (a) { case 1 ", "}", COLON),
    (S, "switch (a) { default ", "1: }", COLON),
    (S, "continue", "", SEMICOLON),
    (S, "{ var x", "; }", ASSIGN),
    (S, "{ var ", "= 1; }", NAME),
    (S, "{ final var x ", ": y; }", ASSIGN),
    (S, "try ", "(a) { }", LEFT_BRACE),
    (S, "try { }", "", CATCH),
    (S, "try { } catch ", "{ }", LEFT_PAREN),
    (S, "try { } catch (A", ") { }", NAME),
    (S, "try { } catch (final A a", ", b) { }", RIGHT_PAREN),
    (S, "try { } catch (A a) ", ";", LEFT_BRACE),
    // statements and variables
    (T, "var x", ";", ASSIGN),
    (T, "var", "[] x = 1;", NAME),
    (T, "a; ", "b;", None),
    (T, "int x; ", "int y;", None),
    (T, "a + b; ", "else", None),
    (T, "switch (a) { case 1 ", "+ 1: }", COLON),
    (T, "break ", "a;", SEMICOLON),
    (T, "try { } ", "finally { }", CATCH),
    (T, "try { } catch (A a) { } ", "finally { }", CATCH),
    (T, "try ", "(A a = b) { } catch (C c) { }", LEFT_BRACE),
    (T, "try { } catch (A ", "| B c) { }", NAME),
    // methods
    (T, "void f() throws ", "{ }", NAME),
    (T, "void", "[] f() { }", NAME),
    (T, "void f", "{ }", LEFT_PAREN),
    (T, "void f() { } ", ";", None),
    // classes and interfaces
    (T, "class ", "{ }", NAME),
    (T, "class A extends ", "{", NAME),
    (T, "class A implements ", "{ }", NAME),
    (T, "class A { } ", ";", None),
    (T, "interface ", "extends A { }", NAME),
    (T, "interface A { int x", "; }", LEFT_PAREN),
    (T, "interface A { } ", "int x;", None),
    // imports
    (T, "import a", ";", DOT),
    (T, "import static a", ";", DOT),
    (T, "import a.*", ".b;", SEMICOLON),
    (T, "import static ", "static a.b;", NAME),
    (T, "import a.b; ", "import c.d;", None),
];

/// Several classes could.
const OPEN: [(Start, &str, &str); 158] = [
    (E, "", ""),
    (E, "", "* a"),
    (E, "", ") x"),
    (E, "a ", "b"),
    (E, "a ", "b c"),
    (E, "a", ")"),
    (E, "a ", ": b"),
    (E, "1 +", ""),
    (E, "a + + ", ""),
    (E, "a * ", "* b"),
    (E, "(a", ""),
    (E, "(", ")"),
    (E, "(a ", "b c)"),
    (E, "a ? b", ""),
    (E, "a ? b : ", ""),
    (E, "a ? b : c ", "= d"),
    (E, "1 ", "= a"),
    (E, "a + b ", "= c"),
    (E, "(a) ", "= b"),
    (E, "a() ", "= b"),
    (E, "a++ ", "= b"),
    (E, "a = b +", ""),
    (E, "x = ", "= 1"),
    (E, "++1", ""),
    (E, "++a", "++"),
    (E, "++ ", "++a"),
    (E, "a++ ", "++"),
    (E, "a()", "++"),
    (E, "(a)", "++"),
    (E, "1", "--"),
    (E, "--a()", ""),
    (E, "a[", "]"),
    (E, "a[b", ""),
    (E, "a[b ", "c]"),
    (E, "f(a,", ""),
    (E, "f(a,", ")"),
    (E, "f(a ", "b)"),
    (E, "f(", ", a)"),
    (E, "new", ""),
    (E, "new ", "(a)"),
    (E, "new A", ""),
    (E, "new A ", "b"),
    (E, "new int[3] ", "{1}"),
    (E, "new int[]", ""),
    (E, "new int[] ", "= a"),
    (E, "new int[] {1 ", "2}"),
    (E, "(int) ", ""),
    (E, "(int) ", "* a"),
    (E, "(int) ++", ""),
    (E, "(int", ""),
    (E, "(int ", "+ 1)"),
    (E, "(a[]) ", "+ b"),
    (E, "x instanceof ", "1"),
    (S, "", ""),
    (S, "", "int x;"),
    (S, "x", ""),
    (S, "x", ";"),
    (S, "x = 1", ""),
    (S, "x = 1 ", "y;"),
    (S, "a ", "+ b;"),
    (S, "a() ", "= b;"),
    (S, "{ int x ", "}"),
    (S, "{ ", "else ; }"),
    (S, "if (a", ""),
    (S, "if (a)", ""),
    (S, "if (a) ", "else"),
    (S, "while (a) ", "int x;"),
    (S, "for (a", "; ; )"),
    (S, "for (; ; a", ")"),
    (S, "for (int x ", "y : z)"),
    (S, "for (x ", ": y) ;"),
    (S, "for (var x ", "; ; ) ;"),
    (S, "for (int x : ", ") ;"),
    (S, "switch (a) { case -", ": }"),
    (S, "throw", ";"),
    (S, "return ", "else"),
    // declarations and expressions that are cut short or go on
    (T, "", ") x"),
    (T, "a.b ", "c;"),
    (T, "int[] x", "[];"),
    (T, "int x", "[];"),
    (T, "int x ", "y;"),
    (T, "int ", "= 3;"),
    (T, "a b ", "c"),
    (T, "a b ", "c;"),
    (T, "a[] b", "[0];"),
    (T, "a[] ", "= b;"),
    (T, "var x = ", "{1};"),
    (T, "x = ", "= 1"),
    (T, "f(a,", ""),
    (T, "(int) ++", ""),
    (T, "1 +", ""),
    // statements
    (T, "if (a) b() ", "else c;"),
    (T, "if (a) ", "int x;"),
    (T, "if (a) ", "else b();"),
    (T, "for (a ", "? b : c; ; ) ;"),
    (T, "for (int x = 1", ", y = 2; ; ) ;"),
    (T, "for (i = 0", ", j = 0; ; ) ;"),
    (T, "for (int i = 0; i < ", "; )"),
    (T, "for (x ", ": xs) ;"),
    (T, "switch (a) { case ", "b: }"),
    (T, "switch (a) { ", "f(); }"),
    (T, "", "case 1: ;"),
    (T, "", "case 1:"),
    (T, "", "else ;"),
    (T, "", "else f();"),
    (T, "", "catch (A a) { }"),
    (T, "{ int x = 1 ", "}"),
    (T, "{ f() ", "}"),
    (T, "{ return ", "}"),
    (T, "{ a ", "+ b; }"),
    (T, "{ ", "class A { } }"),
    (T, "{ ", "static int x; }"),
    (T, "{", ""),
    // methods
    (T, "void f()", ";"),
    (T, "void f(int", ") { }"),
    (T, "void f(int x, ", ") { }"),
    (T, "void f(", "var x) { }"),
    (T, "void f(", "static int x) { }"),
    (T, "int f()", "[] { }"),
    (T, "f() ", "{ }"),
    // classes and interfaces
    (T, "class A", ""),
    (T, "class A { ", "static int x; }"),
    (T, "class A { ", "static void f() { } }"),
    (T, "class A { ", "var x = 1; }"),
    (T, "class A { int x ", "}"),
    (T, "class A { int x = 1 ", "}"),
    (T, "class A { A()", "; }"),
    (T, "class A { void A() { this", "(1); } }"),
    (T, "class A { ", "class B { } }"),
    (T, "class A { ", "{ } }"),
    (T, "class A { x ", "= 1; }"),
    (T, "class A extends B", ", C { }"),
    (T, "class A implements B ", "extends C { }"),
    (T, "class A", ".B { }"),
    (T, "interface A { ", "; }"),
    (T, "interface A { void f() ", "{ } }"),
    (T, "interface A { ", "static void f(); }"),
    (T, "interface A { ", "private void f(); }"),
    (T, "interface A ", "implements B { }"),
    (T, "static ", "{ }"),
    (T, "public a", "();"),
    (T, "final ", ";"),
    (T, "public ", "import a.b;"),
    // imports
    (T, "import ", "*;"),
    (T, "import a.", ";"),
    (T, "import a.b ", "c;"),
    // what the language leaves out
    (T, "a", ": b();"),
    (T, "x -", "> y;"),
    (T, "A", "::b;"),
    (T, "int x", ", y;"),
    (T, "class A { int x", ", y; }"),
    (T, "void f(int", "... x) { }"),
    (T, "A<B", ", C> x;"),
    (T, "class A", "<T> { }"),
    (T, "", "enum A { }"),
    (T, "", "assert a;"),
    (T, "", "synchronized (a) { }"),
    (T, "", "package a;"),
];

/// What a refused text wants at the place where its second piece begins. With that in its stead, the
/// text is taken, or refused only at its end.
fn wanted_at(
    rt: &impl Abort,
    alloc: Global,
    start: Start,
    front: &str,
    behind: &str,
) -> Result<Option<TokenKind>, Fail> {
    let text = joined(alloc, front, behind)?;
    let Err(ParseError::Wanted { place, wanted }) = is_taken(rt, alloc, start, text.as_str()) else {
        return Err(Fail::from("a text isn't refused at a token"));
    };
    assert_eq!(rt; place as usize, front.len(), "the place in {text:?}");
    let Some(kind) = wanted else {
        return Ok(None);
    };
    let further = with_token(alloc, front, kind)?;
    match is_taken(rt, alloc, start, further.as_str()) {
        Ok(_) => {}
        Err(ParseError::Wanted { place, .. }) => {
            assert_eq!(rt; place as usize, further.len(), "the place in {further:?}");
        }
        Err(_) => return Err(Fail::from("a text isn't refused at a token")),
    }
    Ok(wanted)
}

#[test]
fn other_texts_are_refused(rt: HostRuntime) -> Result<(), Fail> {
    for (start, front, behind, expected) in &REFUSED {
        let wanted = wanted_at(&rt, rt.alloc(), *start, front, behind)?;
        assert_eq!(rt; wanted, *expected, "what {front:?} wants");
    }
    for (start, front, behind) in &OPEN {
        let wanted = wanted_at(&rt, rt.alloc(), *start, front, behind)?;
        assert!(rt; wanted.is_some(), "what {front:?} wants");
    }
    Ok(())
}
