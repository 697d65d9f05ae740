//! Lines, and the commands that they give by the rules of the language.

ghost use Rattle.std.specs.Prelude.{◌≡◌, length};
ghost use Rattle.jsh_cut.specs.Commands.{held_text};

use crate::{Cutting, Held, Next, cut_end, cut_line};
use jsh_snippet::{Act, Question, Target};
use std::alloc::{AllocError, Global};
use std::process::Abort;
use std::test::Fail;

/// Lines, what they give, what is held behind them, and what the end of the input gives then. `E<..>` is a snippet to evaluate, `I<..>` the act
/// of a line that no command is, `H` the question for the commands, `R` a reset, `D<..>` the drop of a name, and `X` an exit; `?<..>` is a text that may end, and `+<..>` one that must go on.
type Row = (&'static str, &'static str, &'static str, &'static str);

/// Snippets of one line and of several.
const SNIPPETS: [Row; 22] = [
    ("1 + 2", "E<1 + 2>", "", ""),
    ("1 +", "", "+<1 +\n>", "E<1 +>"),
    ("1 +\n2", "E<1 +\n2>", "", ""),
    ("int x", "E<int x>", "", ""),
    (
        "int f() {\nreturn 1;\n}",
        "E<int f() {\nreturn 1;\n}>",
        "",
        "",
    ),
    ("class A {\nint x;\n}", "E<class A {\nint x;\n}>", "", ""),
    ("for (;;) x();", "E<for (;;) x();>", "", ""),
    ("{\n\n}", "E<{\n\n}>", "", ""),
    ("\u{e9} = 1;", "E<\u{e9} = 1;>", "", ""),
    // several on a line
    ("1; 2; 3", "E<1;>E<2;>E<3>", "", ""),
    ("1; 2; 3 +", "E<1;>E<2;>", "+< 3 +\n>", "E<3 +>"),
    ("1; 2; 3 +\n4", "E<1;>E<2;>E<3 +\n4>", "", ""),
    ("x = 1; y", "E<x = 1;>E<y>", "", ""),
    (
        "if (a) b(); if (c) d();",
        "E<if (a) b();>",
        "?< if (c) d();\n>",
        "E<if (c) d();>",
    ),
    // no snippets, and no fronts of one
    (") x", "E<) x>", "", ""),
    ("else", "E<else>", "", ""),
    ("\"abc", "E<\"abc>", "", ""),
    ("x = 1 # 2", "E<x = 1 # 2>", "", ""),
    ("x = 1; # 2 ", "E<x = 1;>E<# 2>", "", ""),
    ("1; ) x\n2", "E<1;>E<) x>E<2>", "", ""),
    // lines that end in a carriage return
    ("int x;\r", "E<int x;>", "", ""),
    ("1 +\r\n2\r", "E<1 +\r\n2>", "", ""),
];

/// Several snippets in one text, with what may stand between them and behind the last whole one. Places are bytes, of which some characters have more.
const SEVERAL: [Row; 12] = [
    (
        "f(); /* a */ g(); /* b */ h(); // c",
        "E<f();>E<g();>E<h();>",
        "",
        "",
    ),
    (
        " /* a; b */ f() ; /**/ { g(); }/* c */h()",
        "E<f() ;>E<{ g(); }>E<h()>",
        "",
        "",
    ),
    // a fault behind whole snippets
    ("f(); g(); h # i ", "E<f();>E<g();>E<h # i>", "", ""),
    ("f(); g(); # h", "E<f();>E<g();>E<# h>", "", ""),
    ("f(); /* a */ g(); \"h", "E<f();>E<g();>E<\"h>", "", ""),
    // a rest that waits
    (
        "f(); /* a */ if (b) g(); // c",
        "E<f();>",
        "?< /* a */ if (b) g(); // c\n>",
        "E<if (b) g();>",
    ),
    (
        "f(); g(); { h(); /* a */\n}",
        "E<f();>E<g();>E<{ h(); /* a */\n}>",
        "",
        "",
    ),
    (
        "f(); /* a */ { g();",
        "E<f();>",
        "+< /* a */ { g();\n>",
        "E<{ g();>",
    ),
    // characters of two, three and four bytes
    (
        "s = \"\u{e9}\u{20ac}\"; t = \"\u{1d11e}\"; u",
        "E<s = \"\u{e9}\u{20ac}\";>E<t = \"\u{1d11e}\";>E<u>",
        "",
        "",
    ),
    (
        "s = \"\u{20ac}\"; /* \u{e9} */ f(1,",
        "E<s = \"\u{20ac}\";>",
        "+< /* \u{e9} */ f(1,\n>",
        "E<f(1,>",
    ),
    (
        "s = \"\u{1d11e}\"; t; /* \u{e9}",
        "E<s = \"\u{1d11e}\";>E<t;>",
        "+< /* \u{e9}\n>",
        "E</* \u{e9}>",
    ),
    (
        "s = \"\u{20ac}\"; \u{e9} # \u{e9}",
        "E<s = \"\u{20ac}\";>E<\u{e9} # \u{e9}>",
        "",
        "",
    ),
];

/// White space and comments.
const BLANKS: [Row; 17] = [
    ("", "", "", ""),
    (" \t\x0c\r", "", "", ""),
    ("// c", "", "", ""),
    ("/* c */", "", "", ""),
    ("//x", "", "", ""),
    ("// c\n1", "E<1>", "", ""),
    ("1 // c", "E<1>", "", ""),
    (" /* a */ 1 + 2 /* b */ ", "E<1 + 2>", "", ""),
    ("  1 +  \t", "", "+<  1 +  \t\n>", "E<1 +>"),
    // a comment that isn't closed yet
    ("/* c", "", "+</* c\n>", "E</* c>"),
    ("/* c\n/foo", "", "+</* c\n/foo\n>", "E</* c\n/foo>"),
    ("/* c\n/foo\n*/ 1", "E<1>", "", ""),
    ("a /* b", "", "+<a /* b\n>", "E<a /* b>"),
    (" a /* b \n\n", "", "+< a /* b \n\n\n>", "E<a /* b>"),
    ("f(); /* c", "E<f();>", "+< /* c\n>", "E</* c>"),
    (
        "if (a) b(); /* c",
        "",
        "+<if (a) b(); /* c\n>",
        "E<if (a) b(); /* c>",
    ),
    (
        "if (a) b(); // c",
        "",
        "?<if (a) b(); // c\n>",
        "E<if (a) b();>",
    ),
];

/// Texts that an `else` may follow.
const BRANCHES: [Row; 11] = [
    ("if (a) b();", "", "?<if (a) b();\n>", "E<if (a) b();>"),
    ("if (a) b();\n", "E<if (a) b();>", "", ""),
    ("if (a) b();\n\t\r", "E<if (a) b();>", "", ""),
    ("if (a) b();\n/x", "E<if (a) b();>I</x>", "", ""),
    ("if (a) b();\n/exit", "E<if (a) b();>X", "", ""),
    (
        "if (a) b();\nelse c();",
        "E<if (a) b();\nelse c();>",
        "",
        "",
    ),
    (
        "if (a) b();\n\nelse c();",
        "E<if (a) b();>E<else c();>",
        "",
        "",
    ),
    ("if (a) b();\nd();", "E<if (a) b();>E<d();>", "", ""),
    (
        "if (a) b();\n// c\nelse c();",
        "E<if (a) b();\n// c\nelse c();>",
        "",
        "",
    ),
    (
        "if (a) b(); else",
        "",
        "+<if (a) b(); else\n>",
        "E<if (a) b(); else>",
    ),
    (
        "if (a) b(); else\nc();",
        "E<if (a) b(); else\nc();>",
        "",
        "",
    ),
];

/// Lines that are commands, and lines that look so.
const COMMANDS: [Row; 20] = [
    ("/exit", "X", "", ""),
    ("  /exit \t", "X", "", ""),
    ("/exit\r", "X", "", ""),
    ("/exit now", "I</exit now>", "", ""),
    ("/Exit", "I</Exit>", "", ""),
    ("/foo bar ", "I</foo bar>", "", ""),
    ("\t/x\r", "I</x>", "", ""),
    ("/?", "H", "", ""),
    ("/reset ", "R", "", ""),
    ("/drop x\r", "D<x>", "", ""),
    ("/drop 1 2", "I</drop 1 2>", "", ""),
    ("/Z\n1", "I</Z>E<1>", "", ""),
    // a digit, a blank, or white space that is no blank
    ("/5", "E</5>", "", ""),
    ("/ 2", "E</ 2>", "", ""),
    ("/", "E</>", "", ""),
    ("\x0c/x", "E</x>", "", ""),
    ("x /y", "E<x /y>", "", ""),
    // inside a snippet that must go on
    ("{\n/foo", "E<{\n/foo>", "", ""),
    ("{\n/exit", "E<{\n/exit>", "", ""),
    ("1\n/exit", "E<1>X", "", ""),
];

/// Texts that grow by many lines, with comments over several lines, and lines that close one and have more behind it.
const GROWING: [Row; 16] = [
    (
        "class A {\n\n/* c\n\n c */ int x; /* d\n*/ int y;\n\n// e\n\n}",
        "E<class A {\n\n/* c\n\n c */ int x; /* d\n*/ int y;\n\n// e\n\n}>",
        "",
        "",
    ),
    (
        "int f() {\n/* c\n * { \" '\n\n */ return /* d */ 1; /* e\n\n*/\n}\n2",
        "E<int f() {\n/* c\n * { \" '\n\n */ return /* d */ 1; /* e\n\n*/\n}>E<2>",
        "",
        "",
    ),
    (
        "  /* c\n*/ /* d\n*/ 1 +\n\n2; 3 + /* e\n\n*/ 4; 5",
        "E<1 +\n\n2;>E<3 + /* e\n\n*/ 4;>E<5>",
        "",
        "",
    ),
    ("/* c\n\n*/", "", "", ""),
    (
        "/* c\n\n*/ /* d\n",
        "",
        "+</* c\n\n*/ /* d\n\n>",
        "E</* c\n\n*/ /* d>",
    ),
    // neither `*` at the end of a line and `/` on the next close a comment, nor the `/` that stands in `/*/`
    ("{ /* c *\n/ */ }", "E<{ /* c *\n/ */ }>", "", ""),
    ("{ /*/\n*/ }", "E<{ /*/\n*/ }>", "", ""),
    ("{ /*\n/ /* **/ }", "E<{ /*\n/ /* **/ }>", "", ""),
    (
        "f( /* \u{e9}\n\n\u{e9} */ \u{e9},\n\u{e9}\n)",
        "E<f( /* \u{e9}\n\n\u{e9} */ \u{e9},\n\u{e9}\n)>",
        "",
        "",
    ),
    (
        "if (a) b(); /* c\nd */ /* e\n\n*/ else c();",
        "E<if (a) b(); /* c\nd */ /* e\n\n*/ else c();>",
        "",
        "",
    ),
    (
        "if (a) b(); /* c\n\n*/",
        "",
        "?<if (a) b(); /* c\n\n*/\n>",
        "E<if (a) b();>",
    ),
    ("1 + /* c\n/exit\n*/ 2", "E<1 + /* c\n/exit\n*/ 2>", "", ""),
    // a comment that is open is what is wrong, and then something else
    ("{ /* c\n\n*/ # }\n1", "E<{ /* c\n\n*/ # }>E<1>", "", ""),
    ("{\n\n\"abc\n}", "E<{\n\n\"abc>E<}>", "", ""),
    ("{ /* c\n*/ ) x\n1", "E<{ /* c\n*/ ) x>E<1>", "", ""),
    ("\t \n  { \n\n \t\n", "", "+<  { \n\n \t\n\n>", "E<{>"),
];

fn length_of(held: &Held) -> usize
    ensures { result ≡ length (held_text held.now) }
{
    match held {
        Held::Nothing => 0,
        Held::MayEnd(text) | Held::MustGoOn(text) => text.as_str().len(),
    }
}

fn tell(told: &mut String, mark: &str, text: &str) -> Result<(), AllocError> {
    told.push_str(mark)?;
    told.push_str("<")?;
    told.push_str(text)?;
    told.push_str(">")
}

fn tell_act(told: &mut String, act: &Act) -> Result<(), AllocError> {
    match act {
        Act::Ask {
            question: Question::Invalid(line),
        } => tell(told, "I", line.as_str()),
        Act::Ask {
            question: Question::Help,
        } => told.push_str("H"),
        Act::Reset => told.push_str("R"),
        Act::Drop {
            target: Target::Named(name),
        } => tell(told, "D", name.as_str()),
        _ => told.push_str("another act"),
    }
}

/// Tells each command as it is cut, and gives what is held behind them.
fn tell_all(alloc: Global, cutting: Cutting, told: &mut String) -> Result<Held, Fail> {
    let mut left = cutting;
    for _ in 0..1_000_000 {
        match left.next(alloc)? {
            Next::Eval(source, behind) => {
                tell(told, "E", source.as_str())?;
                left = behind;
            }
            Next::Slash(act, behind) => {
                tell_act(told, &act)?;
                left = behind;
            }
            Next::Waits(held) => return Ok(held),
            Next::Exit => {
                told.push_str("X")?;
                return Ok(Held::Nothing);
            }
        }
    }
    Err(Fail::from("an end of the line"))
}

fn held_told(alloc: Global, held: &Held) -> Result<String, AllocError> {
    let mut told = String::new(alloc);
    match held {
        Held::Nothing => {}
        Held::MayEnd(text) => tell(&mut told, "?", text.as_str())?,
        Held::MustGoOn(text) => tell(&mut told, "+", text.as_str())?,
    }
    Ok(told)
}

/// What one line more gives, told behind what the lines before it gave.
fn feed(
    rt: &impl Abort,
    alloc: Global,
    held: Held,
    line: &str,
    told: &mut String,
) -> Result<Held, Fail> {
    let length = length_of(&held);
    assert!(rt; length < 0x4000_0000 && line.len() < 0x4000_0000);
    tell_all(alloc, cut_line(alloc, held, line)?, told)
}

fn end_told(alloc: Global, held: Held) -> Result<String, Fail> {
    let mut told = String::new(alloc);
    let _held = tell_all(alloc, cut_end(held), &mut told)?;
    Ok(told)
}

fn check_all(rt: &impl Abort, alloc: Global, rows: &[Row]) -> Result<(), Fail> {
    for (lines, gives, holds, ends) in rows {
        let mut held = Held::Nothing;
        let mut told = String::new(alloc);
        for line in lines.split('\n') {
            held = feed(rt, alloc, held, line, &mut told)?;
        }
        assert_eq!(rt; told.as_str(), *gives, "what {:?} gives", lines);
        let holding = held_told(alloc, &held)?;
        assert_eq!(rt; holding.as_str(), *holds, "what is held behind {:?}", lines);
        let ended = end_told(alloc, held)?;
        assert_eq!(rt;
            ended.as_str(),
            *ends,
            "what the end behind {:?} gives",
            lines
        );
    }
    Ok(())
}

#[test]
fn lines_are_collected_until_they_are_a_snippet(rt: HostRuntime) -> Result<(), Fail> {
    check_all(&rt, rt.alloc(), &SNIPPETS)
}

#[test]
fn a_text_has_several_snippets(rt: HostRuntime) -> Result<(), Fail> {
    check_all(&rt, rt.alloc(), &SEVERAL)
}

#[test]
fn white_space_and_comments_are_no_snippets(rt: HostRuntime) -> Result<(), Fail> {
    check_all(&rt, rt.alloc(), &BLANKS)
}

#[test]
fn texts_grow_line_by_line(rt: HostRuntime) -> Result<(), Fail> {
    check_all(&rt, rt.alloc(), &GROWING)
}

#[test]
fn an_else_may_follow(rt: HostRuntime) -> Result<(), Fail> {
    check_all(&rt, rt.alloc(), &BRANCHES)
}

#[test]
fn some_lines_are_commands(rt: HostRuntime) -> Result<(), Fail> {
    check_all(&rt, rt.alloc(), &COMMANDS)
}

/// A brace, a word of so many bytes, and white space.
fn long_line(alloc: Global, letters: u32, spaces: u32) -> Result<String, AllocError> {
    let mut line = String::from_str(alloc, "{")?;
    for _ in 0..letters {
        line.push('x')?;
    }
    for _ in 0..spaces {
        line.push(' ')?;
    }
    Ok(line)
}

/// How many bytes of source the line submits, with the mark about it, and how many bytes are held behind it.
fn lengths(rt: &impl Abort, alloc: Global, line: &str) -> Result<(usize, usize), Fail> {
    let mut told = String::new(alloc);
    let held = feed(rt, alloc, Held::Nothing, line, &mut told)?;
    Ok((told.len(), length_of(&held)))
}

/// As many statements as given, on a line.
fn statements(alloc: Global, count: u32) -> Result<String, AllocError> {
    let mut line = String::new(alloc);
    for _ in 0..count {
        line.push_str("f();")?;
    }
    Ok(line)
}

#[test]
fn a_line_has_many_snippets(rt: HostRuntime) -> Result<(), Fail> {
    let line = statements(rt.alloc(), 20_000)?;
    let mut told = String::new(rt.alloc());
    let held = feed(&rt, rt.alloc(), Held::Nothing, line.as_str(), &mut told)?;
    // each with a mark about it
    assert_eq!(rt; (told.len(), length_of(&held)), (140_000, 0));
    Ok(())
}

#[test]
fn lines_are_too_long_together(rt: HostRuntime) -> Result<(), Fail> {
    let line = statements(rt.alloc(), 1_000)?;
    let mut told = String::new(rt.alloc());
    let mut held = feed(&rt, rt.alloc(), Held::Nothing, "{", &mut told)?;
    // two bytes, and 4,001 for each of these lines
    for _ in 0..16 {
        held = feed(&rt, rt.alloc(), held, line.as_str(), &mut told)?;
    }
    assert_eq!(rt; (told.len(), length_of(&held)), (0, 64_018));
    held = feed(&rt, rt.alloc(), held, line.as_str(), &mut told)?;
    // without the last line feed, and with a mark about it
    assert_eq!(rt; (told.len(), length_of(&held)), (68_021, 0));
    Ok(())
}

#[test]
fn a_source_that_is_too_long_does_not_wait(rt: HostRuntime) -> Result<(), Fail> {
    // letters, spaces behind them, bytes submitted with three about them, and bytes held
    let rows: [(u32, u32, usize, usize); 4] = [
        (65_535, 0, 0, 65_537),
        (65_536, 0, 65_540, 0),
        (65_535, 1_000, 0, 66_537),
        (0, 70_000, 0, 70_002),
    ];
    for (letters, spaces, submitted, held) in rows {
        let line = long_line(rt.alloc(), letters, spaces)?;
        assert_eq!(rt;
            lengths(&rt, rt.alloc(), line.as_str())?,
            (submitted, held),
            "{letters} letters"
        );
    }
    Ok(())
}
