//! Separators and operators.

ghost use Rattle.std.specs.Prelude.{◌≡◌, ◌≤◌, ◌<◌, [], ◌∷◌, length, map};
ghost use Rattle.std.specs.Str.{chars};
ghost use Rattle.jsh_lex.specs.Table as spec;

use crate::chars::{no_text, split_first, strip};
use crate::lexeme::{LexFault, Lexeme};
use jsh_tree::TokenKind;

// What may go on from a character, the longer ones first.
const AFTER_EQUAL: [(&[u8], TokenKind); 1] = [(b"=", TokenKind::EqualTo)];

const AFTER_GREATER: [(&[u8], TokenKind); 5] = [
    (b">>=", TokenKind::UnsignedShiftRightAssign),
    (b">>", TokenKind::UnsignedShiftRight),
    (b">=", TokenKind::ShiftRightAssign),
    (b"=", TokenKind::GreaterOrEqual),
    (b">", TokenKind::ShiftRight),
];

const AFTER_LESS: [(&[u8], TokenKind); 3] = [
    (b"<=", TokenKind::ShiftLeftAssign),
    (b"=", TokenKind::LessOrEqual),
    (b"<", TokenKind::ShiftLeft),
];

const AFTER_BANG: [(&[u8], TokenKind); 1] = [(b"=", TokenKind::NotEqual)];

const AFTER_PLUS: [(&[u8], TokenKind); 2] = [
    (b"+", TokenKind::PlusPlus),
    (b"=", TokenKind::PlusAssign),
];

const AFTER_MINUS: [(&[u8], TokenKind); 2] = [
    (b"-", TokenKind::MinusMinus),
    (b"=", TokenKind::MinusAssign),
];

const AFTER_STAR: [(&[u8], TokenKind); 1] = [(b"=", TokenKind::StarAssign)];

const AFTER_SLASH: [(&[u8], TokenKind); 1] = [(b"=", TokenKind::SlashAssign)];

const AFTER_AMPERSAND: [(&[u8], TokenKind); 2] = [
    (b"&", TokenKind::AndAnd),
    (b"=", TokenKind::AmpersandAssign),
];

const AFTER_BAR: [(&[u8], TokenKind); 2] = [(b"|", TokenKind::OrOr), (b"=", TokenKind::BarAssign)];

const AFTER_CARET: [(&[u8], TokenKind); 1] = [(b"=", TokenKind::CaretAssign)];

const AFTER_PERCENT: [(&[u8], TokenKind); 1] = [(b"=", TokenKind::PercentAssign)];

/// The first of the spellings that goes on from a character, or else the character alone.
fn longest<'a>(
    rest: &'a str,
    mut longer: &[(&[u8], TokenKind)],
    alone: TokenKind,
) -> (Lexeme, &'a str)
    ensures lexeme { result.0 ≡ (spec.longest (map (λ entry. (entry.0.now, entry.1)) longer.entry.now) alone (chars rest.now)).0 }
    ensures rest { chars result.1.now ≡ (spec.longest (map (λ entry. (entry.0.now, entry.1)) longer.entry.now) alone (chars rest.now)).1 }
    ensures length { length result.1.now ≤ length rest.now }
{
    while let [entry, others @ ..] = longer {
        if let Some(after) = strip(rest, entry.0) {
            return (Lexeme::Spelled(entry.1), after);
        }
        longer = others;
    }
    (Lexeme::Spelled(alone), rest)
}

/// The longest operator or separator that the text begins with.
#[tactic(auto, unfolding(crate::specs::Table::operator))]
pub fn operator(text: &str) -> (Lexeme, &str)
    ensures lexeme { result.0 ≡ (spec.operator (chars text.now)).0 }
    ensures rest { chars result.1.now ≡ (spec.operator (chars text.now)).1 }
    ensures length { 0 < length text.now → length result.1.now < length text.now }
{
    let Some((c, rest)) = split_first(text) else {
        return (Lexeme::Wrong(LexFault::BadChar), no_text());
    };
    match c {
        '(' => (Lexeme::Spelled(TokenKind::LeftParen), rest),
        ')' => (Lexeme::Spelled(TokenKind::RightParen), rest),
        '{' => (Lexeme::Spelled(TokenKind::LeftBrace), rest),
        '}' => (Lexeme::Spelled(TokenKind::RightBrace), rest),
        '[' => (Lexeme::Spelled(TokenKind::LeftBracket), rest),
        ']' => (Lexeme::Spelled(TokenKind::RightBracket), rest),
        ';' => (Lexeme::Spelled(TokenKind::Semicolon), rest),
        ',' => (Lexeme::Spelled(TokenKind::Comma), rest),
        '.' => (Lexeme::Spelled(TokenKind::Dot), rest),
        '=' => longest(rest, &AFTER_EQUAL, TokenKind::Assign),
        '>' => longest(rest, &AFTER_GREATER, TokenKind::GreaterThan),
        '<' => longest(rest, &AFTER_LESS, TokenKind::LessThan),
        '!' => longest(rest, &AFTER_BANG, TokenKind::Bang),
        '~' => (Lexeme::Spelled(TokenKind::Tilde), rest),
        '?' => (Lexeme::Spelled(TokenKind::Question), rest),
        ':' => (Lexeme::Spelled(TokenKind::Colon), rest),
        '+' => longest(rest, &AFTER_PLUS, TokenKind::Plus),
        '-' => longest(rest, &AFTER_MINUS, TokenKind::Minus),
        '*' => longest(rest, &AFTER_STAR, TokenKind::Star),
        '/' => longest(rest, &AFTER_SLASH, TokenKind::Slash),
        '&' => longest(rest, &AFTER_AMPERSAND, TokenKind::Ampersand),
        '|' => longest(rest, &AFTER_BAR, TokenKind::Bar),
        '^' => longest(rest, &AFTER_CARET, TokenKind::Caret),
        '%' => longest(rest, &AFTER_PERCENT, TokenKind::Percent),
        _ => (Lexeme::Wrong(LexFault::BadChar), no_text()),
    }
}
