ghost use Rattle.std.specs.Prelude.{◌≡◌, ◌<◌, ◌≤◌, ◌-◌, ◌^◌, ◌∷◌, length, IfOk, IfErr};
ghost use Rattle.std.specs.Str.{chars};
ghost use Rattle.std.specs.Char.{is_ascii_digit};
ghost use Rattle.std.specs.List.{All};
ghost use Rattle.jsh_lex.specs.Chars.{first_passes};
ghost use Rattle.jsh_lex.specs.Lexis as spec;
ghost use Rattle.jsh_lex.specs.Spelling.{AreTokensBehind, IsLongest};

use crate::chars::{
    behind_comment, behind_line, behind_white, is_identifier_start, is_white, no_text, split_first,
    split_word, strip,
};
use crate::lexeme::{LexError, LexFault, Lexeme};
use crate::literal::{behind_quote, character, string};
use crate::number::{integer, is_float};
use crate::operator::operator;
use crate::word::word_kind;
use jsh_tree::{Seq, Span, Token};
use std::alloc::Global;

fn word(text: &str) -> (Lexeme, &str)
    ensures lexeme { result.0 ≡ (spec.word (chars text.now)).0 }
    ensures rest { chars result.1.now ≡ (spec.word (chars text.now)).1 }
    ensures length { 0 < length text.now → length result.1.now < length text.now }
{
    let (word, rest) = split_word(text);
    (Lexeme::Spelled(word_kind(word)), rest)
}

fn number(text: &str) -> (Lexeme, &str)
    ensures lexeme { result.0 ≡ (spec.number (chars text.now)).0 }
    ensures rest { chars result.1.now ≡ (spec.number (chars text.now)).1 }
    ensures length { 0 < length text.now → length result.1.now < length text.now }
{
    if is_float(text) {
        return (Lexeme::Wrong(LexFault::FloatNotHere), no_text());
    }
    let (word, rest) = split_word(text);
    (integer(word), rest)
}

/// What a comment is, from the text behind its `/*`.
fn comment(text: &str) -> (Lexeme, &str)
    ensures lexeme { result.0 ≡ (spec.closed_comment (spec.behind_comment (chars text.now))).0 }
    ensures rest { chars result.1.now ≡ (spec.closed_comment (spec.behind_comment (chars text.now))).1 }
    ensures length { length result.1.now ≤ length text.now }
{
    match behind_comment(text) {
        Some(rest) => (Lexeme::Gap, rest),
        None => (Lexeme::Wrong(LexFault::OpenComment), no_text()),
    }
}

/// What a string literal is, from the text behind its opening quote.
fn string_literal(text: &str) -> (Lexeme, &str)
    ensures lexeme { result.0 ≡ (spec.string_literal (chars text.now)).0 }
    ensures rest { chars result.1.now ≡ (spec.string_literal (chars text.now)).1 }
    ensures length { length result.1.now ≤ length text.now }
{
    match behind_quote('"', text) {
        Some(rest) => (string(text, rest), rest),
        None => (Lexeme::Wrong(LexFault::OpenString), no_text()),
    }
}

/// What a character literal is, from the text behind its opening quote.
fn char_literal(text: &str) -> (Lexeme, &str)
    ensures lexeme { result.0 ≡ (spec.char_literal (chars text.now)).0 }
    ensures rest { chars result.1.now ≡ (spec.char_literal (chars text.now)).1 }
    ensures length { length result.1.now ≤ length text.now }
{
    match behind_quote('\'', text) {
        Some(rest) => (character(text, rest), rest),
        None => (Lexeme::Wrong(LexFault::OpenString), no_text()),
    }
}

/// Whether the text begins with a decimal digit.
fn begins_with_digit(text: &str) -> bool
    ensures { result ≡ first_passes is_ascii_digit (chars text.now) }
{
    match split_first(text) {
        Some((c, _)) => c.is_ascii_digit(),
        None => false,
    }
}

/// What stands at the front of a text, and the text behind it. Behind a fault nothing is read.
#[tactic(auto, unfolding(crate::specs::Lexis::front))]
fn front(text: &str) -> (Lexeme, &str)
    ensures lexeme { result.0 ≡ (spec.front (chars text.now)).0 }
    ensures rest { chars result.1.now ≡ (spec.front (chars text.now)).1 }
    ensures length { 0 < length text.now → length result.1.now < length text.now }
{
    let Some((c, rest)) = split_first(text) else {
        return (Lexeme::Gap, text);
    };
    if is_white(c) {
        return (Lexeme::Gap, behind_white(rest));
    }
    if strip(text, b"//").is_some() {
        return (Lexeme::Gap, behind_line(rest));
    }
    if let Some(inside) = strip(text, b"/*") {
        return comment(inside);
    }
    if is_identifier_start(c) {
        return word(text);
    }
    if c.is_ascii_digit() {
        return number(text);
    }
    if c == '.' && begins_with_digit(rest) {
        return (Lexeme::Wrong(LexFault::FloatNotHere), no_text());
    }
    match c {
        '"' => string_literal(rest),
        '\'' => char_literal(rest),
        _ => operator(text),
    }
}

/// The tokens of a text, or its first fault.
pub fn lex(alloc: Global, text: &str) -> Result<Vec<Token>, LexError>
    requires { length text.now < 2 ^ 32 }
    // Each token of the text spells its kind, and they stand in order, between characters.
    ensures spelled { AreTokensBehind text.now 0 (spec.tokens text.now).tokens }
    // No longer spelling begins where one of them does.
    ensures longest { All (IsLongest text.now) (spec.tokens text.now).tokens }
    ensures tokens { IfOk result (λ v. spec.tokens text.now ≡ spec.whole v.items) }
    ensures fault { IfErr result (spec.IsFaultOf text.now) }
{
    let mut tokens = Vec::new(alloc);
    let mut rest = text;
    while !rest.is_empty() {
        let (lexeme, after) = front(rest);
        let from = (text.len() - rest.len()) as u32;
        match lexeme {
            Lexeme::Gap => {}
            Lexeme::Spelled(kind) => {
                let to = (text.len() - after.len()) as u32;
                tokens.push(Token {
                    kind,
                    span: Span { from, to },
                })?;
            }
            Lexeme::Wrong(kind) => {
                return Err(LexError::Fault {
                    kind,
                    place: from,
                    before: Seq::from_vec(tokens),
                });
            }
        }
        rest = after;
    }
    Ok(tokens)
}
