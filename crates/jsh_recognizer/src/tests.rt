//! Lists of tokens, and how much of them is taken. Many more texts are read through the crates above.

use crate::{Advance, End, Recognizer, Start, scan};
use jsh_tree::{Span, Token, TokenKind};
use std::alloc::Global;
use std::process::Abort;
use std::test::Fail;

/// What a text should be, the text, its tokens, how many of them are taken, and why no more.
type Row = (
    Start,
    &'static str,
    &'static [TokenKind],
    usize,
    &'static str,
);

fn name_of(end: End) -> &'static str {
    match end {
        End::Whole => "whole",
        End::Open(_) => "open",
        End::TooDeep => "too deep",
        End::Refused(_) => "refused",
    }
}

fn tokens_of(alloc: Global, kinds: &[TokenKind]) -> Result<Vec<Token>, Fail> {
    let mut tokens = Vec::new(alloc);
    for kind in kinds {
        tokens.push(Token {
            kind: *kind,
            span: Span { from: 0, to: 0 },
        })?;
    }
    Ok(tokens)
}

fn check_all(rt: &impl Abort, alloc: Global, rows: &[Row]) -> Result<(), Fail> {
    for row in rows {
        let tokens = tokens_of(alloc, row.2)?;
        let found = scan(row.0, &tokens);
        assert_eq!(rt; found.read, row.3, "tokens of {:?}", row.1);
        assert_eq!(rt; name_of(found.end), row.4, "the end of {:?}", row.1);
    }
    Ok(())
}

const ROWS: [Row; 9] = [
    (
        Start::Expression,
        "a + 1 * b",
        &[
            TokenKind::Identifier,
            TokenKind::Plus,
            TokenKind::IntLiteral,
            TokenKind::Star,
            TokenKind::Identifier,
        ],
        5,
        "whole",
    ),
    (
        Start::Expression,
        "a +",
        &[TokenKind::Identifier, TokenKind::Plus],
        2,
        "open",
    ),
    (
        Start::Expression,
        "a b",
        &[TokenKind::Identifier, TokenKind::Identifier],
        1,
        "refused",
    ),
    (
        Start::Expression,
        "(a[0]) b",
        &[
            TokenKind::LeftParen,
            TokenKind::Identifier,
            TokenKind::LeftBracket,
            TokenKind::IntLiteral,
            TokenKind::RightBracket,
            TokenKind::RightParen,
            TokenKind::Identifier,
        ],
        6,
        "refused",
    ),
    (
        Start::Statement,
        "try { }",
        &[TokenKind::Try, TokenKind::LeftBrace, TokenKind::RightBrace],
        3,
        "open",
    ),
    (
        Start::Statement,
        "int a;",
        &[TokenKind::Int, TokenKind::Identifier, TokenKind::Semicolon],
        0,
        "refused",
    ),
    (
        Start::Snippet,
        "a b = c;",
        &[
            TokenKind::Identifier,
            TokenKind::Identifier,
            TokenKind::Assign,
            TokenKind::Identifier,
            TokenKind::Semicolon,
        ],
        5,
        "whole",
    ),
    (
        Start::Snippet,
        "class a { void f() { class",
        &[
            TokenKind::Class,
            TokenKind::Identifier,
            TokenKind::LeftBrace,
            TokenKind::Void,
            TokenKind::Identifier,
            TokenKind::LeftParen,
            TokenKind::RightParen,
            TokenKind::LeftBrace,
            TokenKind::Class,
        ],
        8,
        "refused",
    ),
    (
        Start::Snippet,
        "void f() {",
        &[
            TokenKind::Void,
            TokenKind::Identifier,
            TokenKind::LeftParen,
            TokenKind::RightParen,
            TokenKind::LeftBrace,
        ],
        5,
        "open",
    ),
];

#[test]
fn takes_prefixes(rt: HostRuntime) -> Result<(), Fail> {
    check_all(&rt, rt.alloc(), &ROWS)
}

/// A text that isn't whole, its tokens, and the kind that is wanted next.
type Wanted = (Start, &'static str, &'static [TokenKind], TokenKind);

const WANTED: [Wanted; 10] = [
    (
        Start::Expression,
        "( a + b",
        &[
            TokenKind::LeftParen,
            TokenKind::Identifier,
            TokenKind::Plus,
            TokenKind::Identifier,
        ],
        TokenKind::RightParen,
    ),
    (
        Start::Expression,
        "f ( a",
        &[
            TokenKind::Identifier,
            TokenKind::LeftParen,
            TokenKind::Identifier,
        ],
        TokenKind::RightParen,
    ),
    (
        Start::Statement,
        "a = b",
        &[
            TokenKind::Identifier,
            TokenKind::Assign,
            TokenKind::Identifier,
        ],
        TokenKind::Semicolon,
    ),
    (
        Start::Statement,
        "{ a = b",
        &[
            TokenKind::LeftBrace,
            TokenKind::Identifier,
            TokenKind::Assign,
            TokenKind::Identifier,
        ],
        TokenKind::Semicolon,
    ),
    (
        Start::Statement,
        "if ( a",
        &[TokenKind::If, TokenKind::LeftParen, TokenKind::Identifier],
        TokenKind::RightParen,
    ),
    (
        Start::Expression,
        "a [ b",
        &[
            TokenKind::Identifier,
            TokenKind::LeftBracket,
            TokenKind::Identifier,
        ],
        TokenKind::RightBracket,
    ),
    (
        Start::Snippet,
        "int a",
        &[TokenKind::Int, TokenKind::Identifier],
        TokenKind::Semicolon,
    ),
    (
        Start::Expression,
        "a +",
        &[TokenKind::Identifier, TokenKind::Plus],
        TokenKind::Identifier,
    ),
    (
        Start::Snippet,
        "int",
        &[TokenKind::Int],
        TokenKind::Identifier,
    ),
    (
        Start::Statement,
        "{",
        &[TokenKind::LeftBrace],
        TokenKind::RightBrace,
    ),
];

#[test]
fn wants_what_has_to_come(rt: HostRuntime) -> Result<(), Fail> {
    for (start, text, kinds, wanted) in &WANTED {
        let tokens = tokens_of(rt.alloc(), kinds)?;
        let found = scan(*start, &tokens);
        assert_eq!(&rt; found.end, End::Open(Some(*wanted)), "behind {:?}", text);
    }
    Ok(())
}

#[test]
fn looks_as_it_goes(rt: HostRuntime) {
    let mut recognizer = Recognizer::new(Start::Expression);
    assert_eq!(&rt; recognizer.looks(TokenKind::Star), Advance::Refused);
    assert_eq!(&rt; recognizer.looks(TokenKind::Identifier), Advance::Taken);
    assert_eq!(&rt; recognizer.advance(TokenKind::Identifier), Advance::Taken);
    assert_eq!(&rt; recognizer.looks(TokenKind::Identifier), Advance::Refused);
    assert_eq!(&rt; recognizer.looks(TokenKind::Plus), Advance::Taken);
    assert!(&rt; recognizer.is_whole());
    for _ in 0..256 {
        assert_eq!(&rt; recognizer.advance(TokenKind::LeftBracket), Advance::Taken);
        assert_eq!(&rt; recognizer.advance(TokenKind::Identifier), Advance::Taken);
    }
    assert_eq!(&rt; recognizer.looks(TokenKind::LeftBracket), Advance::TooDeep);
    assert_eq!(&rt; recognizer.looks(TokenKind::RightBracket), Advance::Taken);
}
