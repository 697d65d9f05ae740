use crate::{LexError, LexFault, is_identifier, lex};
use jsh_tree::{Span, Token, TokenKind};
use std::alloc::Global;
use std::process::Abort;
use std::test::Fail;

/// A text, the kinds of its tokens, and its fault with its place.
type Row = (&'static str, &'static [TokenKind], Option<(LexFault, u32)>);

fn check_all(rt: &impl Abort, alloc: Global, rows: &[Row]) -> Result<(), Fail> {
    for row in rows {
        check(rt, alloc, row.0, row.1, row.2)?;
    }
    Ok(())
}

/// Whether a text has tokens of these kinds, and this fault.
fn check(
    rt: &impl Abort,
    alloc: Global,
    text: &str,
    kinds: &[TokenKind],
    fault: Option<(LexFault, u32)>,
) -> Result<(), Fail> {
    assert!(rt; text.len() < 0x1_0000_0000);
    let (found, found_fault) = match lex(alloc, text) {
        Ok(tokens) => (tokens, None),
        Err(
            LexError::Fault {
                kind,
                place,
                before,
            },
        ) => (before.into_vec(), Some((kind, place))),
        Err(LexError::NoMemory) => return Err(Fail::from("no memory")),
    };
    assert!(rt; found_fault == fault, "the fault of {text:?}");
    assert_eq!(rt; found.len(), kinds.len(), "tokens of {text:?}");
    for (token, kind) in found.iter().zip(kinds) {
        assert!(rt; token.kind == *kind, "a token of {text:?}");
    }
    Ok(())
}

const OPERATORS: [Row; 20] = [
    (
        "+ +++=",
        &[TokenKind::Plus, TokenKind::PlusPlus, TokenKind::PlusAssign],
        None,
    ),
    (
        "- ---=",
        &[
            TokenKind::Minus,
            TokenKind::MinusMinus,
            TokenKind::MinusAssign,
        ],
        None,
    ),
    (
        "***=",
        &[TokenKind::Star, TokenKind::Star, TokenKind::StarAssign],
        None,
    ),
    ("/ /=", &[TokenKind::Slash, TokenKind::SlashAssign], None),
    (
        "& &&&=",
        &[
            TokenKind::Ampersand,
            TokenKind::AndAnd,
            TokenKind::AmpersandAssign,
        ],
        None,
    ),
    (
        "| |||=",
        &[TokenKind::Bar, TokenKind::OrOr, TokenKind::BarAssign],
        None,
    ),
    ("^^=", &[TokenKind::Caret, TokenKind::CaretAssign], None),
    ("%%=", &[TokenKind::Percent, TokenKind::PercentAssign], None),
    (
        "= ===",
        &[TokenKind::Assign, TokenKind::EqualTo, TokenKind::Assign],
        None,
    ),
    ("!!=", &[TokenKind::Bang, TokenKind::NotEqual], None),
    ("< <=", &[TokenKind::LessThan, TokenKind::LessOrEqual], None),
    (
        "<<<<=",
        &[TokenKind::ShiftLeft, TokenKind::ShiftLeftAssign],
        None,
    ),
    (
        "<<=<",
        &[TokenKind::ShiftLeftAssign, TokenKind::LessThan],
        None,
    ),
    (
        ">>>>=",
        &[TokenKind::UnsignedShiftRight, TokenKind::GreaterOrEqual],
        None,
    ),
    (">>>=", &[TokenKind::UnsignedShiftRightAssign], None),
    (
        ">>=>",
        &[TokenKind::ShiftRightAssign, TokenKind::GreaterThan],
        None,
    ),
    (
        ">> >=",
        &[TokenKind::ShiftRight, TokenKind::GreaterOrEqual],
        None,
    ),
    (
        "(){}[];,.~?:",
        &[
            TokenKind::LeftParen,
            TokenKind::RightParen,
            TokenKind::LeftBrace,
            TokenKind::RightBrace,
            TokenKind::LeftBracket,
            TokenKind::RightBracket,
            TokenKind::Semicolon,
            TokenKind::Comma,
            TokenKind::Dot,
            TokenKind::Tilde,
            TokenKind::Question,
            TokenKind::Colon,
        ],
        None,
    ),
    (
        "...",
        &[TokenKind::Dot, TokenKind::Dot, TokenKind::Dot],
        None,
    ),
    (
        "->::",
        &[
            TokenKind::Minus,
            TokenKind::GreaterThan,
            TokenKind::Colon,
            TokenKind::Colon,
        ],
        None,
    ),
];

#[test]
fn operators_are_cut(rt: HostRuntime) -> Result<(), Fail> {
    check_all(&rt, rt.alloc(), &OPERATORS)
}

const GAPS: [Row; 16] = [
    ("", &[], None),
    ("\x0c\t ", &[], None),
    (
        "a\r\nb",
        &[TokenKind::Identifier, TokenKind::Identifier],
        None,
    ),
    ("// a\nb", &[TokenKind::Identifier], None),
    ("// a\rb", &[TokenKind::Identifier], None),
    ("//", &[], None),
    ("/**/", &[], None),
    ("/*/", &[], Some((LexFault::OpenComment, 0))),
    ("/* a", &[], Some((LexFault::OpenComment, 0))),
    (
        "x /* y *",
        &[TokenKind::Identifier],
        Some((LexFault::OpenComment, 2)),
    ),
    (
        "a/* * / **/b",
        &[TokenKind::Identifier, TokenKind::Identifier],
        None,
    ),
    ("/* // */ a", &[TokenKind::Identifier], None),
    ("\0", &[], Some((LexFault::BadChar, 0))),
    (
        "1 + @",
        &[TokenKind::IntLiteral, TokenKind::Plus],
        Some((LexFault::BadChar, 4)),
    ),
    ("#", &[], Some((LexFault::BadChar, 0))),
    ("\x0b", &[], Some((LexFault::BadChar, 0))),
];

#[test]
fn gaps_are_cut(rt: HostRuntime) -> Result<(), Fail> {
    check_all(&rt, rt.alloc(), &GAPS)
}

const WORDS: [Row; 13] = [
    (
        "abstract assert boolean break byte case catch char class const continue default do double else enum extends final finally float for goto if implements import instanceof int interface long native new package private protected public return short static strictfp super switch synchronized this throw throws transient try void volatile while true false null var",
        &[
            TokenKind::Abstract,
            TokenKind::Assert,
            TokenKind::Boolean,
            TokenKind::Break,
            TokenKind::Byte,
            TokenKind::Case,
            TokenKind::Catch,
            TokenKind::Char,
            TokenKind::Class,
            TokenKind::Const,
            TokenKind::Continue,
            TokenKind::Default,
            TokenKind::Do,
            TokenKind::Double,
            TokenKind::Else,
            TokenKind::Enum,
            TokenKind::Extends,
            TokenKind::Final,
            TokenKind::Finally,
            TokenKind::Float,
            TokenKind::For,
            TokenKind::Goto,
            TokenKind::If,
            TokenKind::Implements,
            TokenKind::Import,
            TokenKind::Instanceof,
            TokenKind::Int,
            TokenKind::Interface,
            TokenKind::Long,
            TokenKind::Native,
            TokenKind::New,
            TokenKind::Package,
            TokenKind::Private,
            TokenKind::Protected,
            TokenKind::Public,
            TokenKind::Return,
            TokenKind::Short,
            TokenKind::Static,
            TokenKind::Strictfp,
            TokenKind::Super,
            TokenKind::Switch,
            TokenKind::Synchronized,
            TokenKind::This,
            TokenKind::Throw,
            TokenKind::Throws,
            TokenKind::Transient,
            TokenKind::Try,
            TokenKind::Void,
            TokenKind::Volatile,
            TokenKind::While,
            TokenKind::True,
            TokenKind::False,
            TokenKind::Null,
            TokenKind::Var,
        ],
        None,
    ),
    ("_", &[TokenKind::Underscore], None),
    ("$", &[TokenKind::Identifier], None),
    ("_1", &[TokenKind::Identifier], None),
    ("__", &[TokenKind::Identifier], None),
    ("iff", &[TokenKind::Identifier], None),
    ("If", &[TokenKind::Identifier], None),
    (
        "été β2",
        &[TokenKind::Identifier, TokenKind::Identifier],
        None,
    ),
    ("a\u{301}", &[TokenKind::Identifier], None),
    ("\u{301}a", &[], Some((LexFault::BadChar, 0))),
    ("\u{661}", &[], Some((LexFault::BadChar, 0))),
    (
        "a.b",
        &[TokenKind::Identifier, TokenKind::Dot, TokenKind::Identifier],
        None,
    ),
    (
        "a+1",
        &[
            TokenKind::Identifier,
            TokenKind::Plus,
            TokenKind::IntLiteral,
        ],
        None,
    ),
];

#[test]
fn words_are_cut(rt: HostRuntime) -> Result<(), Fail> {
    check_all(&rt, rt.alloc(), &WORDS)
}

/// A text, and whether it is an identifier.
const NAMES: [(&str, bool); 20] = [
    ("x", true),
    ("$1", true),
    ("_a", true),
    ("__", true),
    ("été", true),
    ("a\u{301}", true),
    ("record", true),
    ("If", true),
    ("iff", true),
    ("", false),
    ("_", false),
    ("if", false),
    ("var", false),
    ("null", false),
    ("goto", false),
    ("1a", false),
    ("\u{301}a", false),
    ("a b", false),
    (" a", false),
    ("a.b", false),
];

#[test]
fn identifiers_are_known(rt: HostRuntime) {
    for (text, is_name) in NAMES {
        assert!(rt; is_identifier(text) == is_name, "{text:?}");
    }
}

const NUMBERS: [Row; 29] = [
    ("0", &[TokenKind::IntLiteral], None),
    ("00", &[TokenKind::IntLiteral], None),
    ("0_7", &[TokenKind::IntLiteral], None),
    ("08", &[], Some((LexFault::BadNumber, 0))),
    ("0_", &[], Some((LexFault::BadNumber, 0))),
    ("0x", &[], Some((LexFault::BadNumber, 0))),
    ("0xL", &[], Some((LexFault::BadNumber, 0))),
    ("0x_1", &[], Some((LexFault::BadNumber, 0))),
    ("0xFFFFFFFF", &[TokenKind::IntLiteral], None),
    ("0x1_0000_0000", &[], Some((LexFault::NumberTooBig, 0))),
    ("0x1_0000_0000L", &[TokenKind::LongLiteral], None),
    ("0xffffFFFFffffFFFFL", &[TokenKind::LongLiteral], None),
    (
        "0x1_0000_0000_0000_0000L",
        &[],
        Some((LexFault::NumberTooBig, 0)),
    ),
    ("0b10", &[TokenKind::IntLiteral], None),
    ("0b2", &[], Some((LexFault::BadNumber, 0))),
    ("037777777777", &[TokenKind::IntLiteral], None),
    ("040000000000", &[], Some((LexFault::NumberTooBig, 0))),
    ("1_", &[], Some((LexFault::BadNumber, 0))),
    ("1__0", &[TokenKind::IntLiteral], None),
    ("1l", &[TokenKind::LongLiteral], None),
    ("1LL", &[], Some((LexFault::BadNumber, 0))),
    ("1x", &[], Some((LexFault::BadNumber, 0))),
    ("1é", &[], Some((LexFault::BadNumber, 0))),
    ("0X1", &[], Some((LexFault::BadNumber, 0))),
    ("2147483648", &[TokenKind::IntLiteral], None),
    ("2147483649", &[], Some((LexFault::NumberTooBig, 0))),
    ("9223372036854775808L", &[TokenKind::LongLiteral], None),
    (
        "9223372036854775809L",
        &[],
        Some((LexFault::NumberTooBig, 0)),
    ),
    (
        "99999999999999999999",
        &[],
        Some((LexFault::NumberTooBig, 0)),
    ),
];

#[test]
fn numbers_are_cut(rt: HostRuntime) -> Result<(), Fail> {
    check_all(&rt, rt.alloc(), &NUMBERS)
}

const FLOATS: [Row; 14] = [
    ("1.5", &[], Some((LexFault::FloatNotHere, 0))),
    ("1e5", &[], Some((LexFault::FloatNotHere, 0))),
    ("1E", &[], Some((LexFault::FloatNotHere, 0))),
    (".5", &[], Some((LexFault::FloatNotHere, 0))),
    (
        "a.5",
        &[TokenKind::Identifier],
        Some((LexFault::FloatNotHere, 1)),
    ),
    ("1f", &[], Some((LexFault::FloatNotHere, 0))),
    ("0d", &[], Some((LexFault::FloatNotHere, 0))),
    ("08.5", &[], Some((LexFault::FloatNotHere, 0))),
    ("1_0.", &[], Some((LexFault::FloatNotHere, 0))),
    ("1_.5", &[], Some((LexFault::BadNumber, 0))),
    ("0x1f", &[TokenKind::IntLiteral], None),
    (
        "0x1.8",
        &[TokenKind::IntLiteral],
        Some((LexFault::FloatNotHere, 3)),
    ),
    ("0b1f", &[], Some((LexFault::BadNumber, 0))),
    (
        "1+2F",
        &[TokenKind::IntLiteral, TokenKind::Plus],
        Some((LexFault::FloatNotHere, 2)),
    ),
];

#[test]
fn floats_are_cut(rt: HostRuntime) -> Result<(), Fail> {
    check_all(&rt, rt.alloc(), &FLOATS)
}

const LITERALS: [Row; 24] = [
    ("'a'", &[TokenKind::CharLiteral], None),
    ("''", &[], Some((LexFault::BadCharLiteral, 0))),
    ("'ab'", &[], Some((LexFault::BadCharLiteral, 0))),
    ("'\\377'", &[TokenKind::CharLiteral], None),
    ("'\\400'", &[], Some((LexFault::BadCharLiteral, 0))),
    ("'\\40'", &[TokenKind::CharLiteral], None),
    ("'\\8'", &[], Some((LexFault::BadEscape, 0))),
    ("'\\''", &[TokenKind::CharLiteral], None),
    ("'😀'", &[], Some((LexFault::BadCharLiteral, 0))),
    ("'\u{ffff}'", &[TokenKind::CharLiteral], None),
    ("'a", &[], Some((LexFault::OpenString, 0))),
    ("'\n'", &[], Some((LexFault::OpenString, 0))),
    ("\"ab", &[], Some((LexFault::OpenString, 0))),
    ("\"ab\r\"", &[], Some((LexFault::OpenString, 0))),
    ("\"\\", &[], Some((LexFault::OpenString, 0))),
    ("\"\\q", &[], Some((LexFault::OpenString, 0))),
    ("\"\"", &[TokenKind::StringLiteral], None),
    (
        "\"\\s\\b\\t\\n\\f\\r\\\"\\'\\\\\"",
        &[TokenKind::StringLiteral],
        None,
    ),
    ("\"\\s\"", &[TokenKind::StringLiteral], None),
    ("\"\\400\"", &[TokenKind::StringLiteral], None),
    ("\"\\q\"", &[], Some((LexFault::BadEscape, 0))),
    (
        "a \"\\q\"",
        &[TokenKind::Identifier],
        Some((LexFault::BadEscape, 2)),
    ),
    ("\"😀\"", &[TokenKind::StringLiteral], None),
    ("\"// /*\"", &[TokenKind::StringLiteral], None),
];

#[test]
fn literals_are_cut(rt: HostRuntime) -> Result<(), Fail> {
    check_all(&rt, rt.alloc(), &LITERALS)
}

#[test]
fn spans_are_bytes(rt: HostRuntime) -> Result<(), Fail> {
    let found = lex(rt.alloc(), " été+\"é\" /* é */ 10")?;
    let spans = [(1, 6), (6, 7), (7, 11), (21, 23)];
    assert_eq!(rt; found.len(), spans.len());
    for (token, (from, to)) in found.iter().zip(&spans) {
        assert!(rt;
            token.span
                == Span {
                    from: *from,
                    to: *to
                }
        );
    }
    Ok(())
}
