//! Character and string literals.

ghost use Rattle.std.specs.Prelude.{◌≡◌, ◌+◌, ◌-◌, ◌*◌, ◌<◌, ◌≤◌, length, true, false, Some, None, IfSome, IfNone};
ghost use Rattle.std.specs.Option.{SomeIff};
ghost use Rattle.std.specs.Str.{chars};
ghost use Rattle.jsh_lex.specs.Literal as spec;
ghost use Rattle.jsh_lex.specs.Value as value;

use crate::chars::{is_in_line, split_first};
use crate::lexeme::{LexFault, Lexeme};
use jsh_tree::TokenKind;

/// The text behind the closing quote of a literal, from the text behind its opening one.
pub fn behind_quote(quote: char, mut text: &str) -> Option<&str>
    ensures none { IfNone result (spec.behind_quote quote false (chars text.entry.now) ≡ None) }
    ensures some { IfSome result (λ r. spec.behind_quote quote false (chars text.entry.now) ≡ Some (chars r.now)) }
    ensures length { IfSome result (λ r. length r.now < length text.entry.now) }
{
    let mut escaped = false;
    while let Some((c, rest)) = split_first(text) {
        if !is_in_line(c) {
            return None;
        }
        if !escaped && c == quote {
            return Some(rest);
        }
        escaped = !escaped && c == '\\';
        text = rest;
    }
    None
}

/// The content of a literal, from the text behind its opening quote and the one behind its closing quote.
pub fn content<'a>(quote: char, text: &'a str, after: &str) -> &'a str
    requires ascii { quote < 128 }
    requires closed { spec.behind_quote quote false (chars text.now) ≡ Some (chars after.now) }
    ensures { chars result.now ≡ spec.content quote false (chars text.now) }
{
    let (content, _) = text.split_at(text.len() - after.len() - 1);
    content
}

pub fn is_octal(c: char) -> bool
    ensures { result ≡ spec.is_octal c }
{
    '0' <= c && c <= '7'
}

fn begins_escape(c: char) -> bool
    ensures { result ≡ spec.begins_escape c }
{
    matches!(c, 'b' | 's' | 't' | 'n' | 'f' | 'r' | '"' | '\'' | '\\') || is_octal(c)
}

pub fn escapes_hold(mut content: &str) -> bool
    ensures { result ≡ spec.escapes_hold false (chars content.entry.now) }
{
    let mut escaped = false;
    while let Some((c, rest)) = split_first(content) {
        if escaped && !begins_escape(c) {
            return false;
        }
        escaped = !escaped && c == '\\';
        content = rest;
    }
    !escaped
}

pub fn letter_escape(c: char) -> Option<u16>
    ensures { result ≡ spec.letter_escape c }
{
    match c {
        'b' => Some(8),
        's' => Some(32),
        't' => Some(9),
        'n' => Some(10),
        'f' => Some(12),
        'r' => Some(13),
        '"' => Some(34),
        '\'' => Some(39),
        '\\' => Some(92),
        _ => None,
    }
}

/// The value of an octal digit.
pub fn octal(c: char) -> u16
    requires { spec.is_octal c ≡ true }
    ensures value { result ≡ c - 48 }
    ensures bound { result < 8 }
{
    (c as u32 - 48) as u16
}

/// The unit of an escape, from what stands behind its backslash.
fn escape_unit(escape: &str) -> Option<u16>
    ensures { result ≡ spec.escape_unit (chars escape.now) }
{
    let (c, rest) = split_first(escape)?;
    let Some((d, rest)) = split_first(rest) else {
        return if is_octal(c) {
            Some(octal(c))
        } else {
            letter_escape(c)
        };
    };
    if !is_octal(c) || !is_octal(d) {
        return None;
    }
    let Some((e, rest)) = split_first(rest) else {
        return Some(8 * octal(c) + octal(d));
    };
    let None = split_first(rest) else {
        return None;
    };
    if c < '4' && is_octal(e) {
        Some(64 * octal(c) + 8 * octal(d) + octal(e))
    } else {
        None
    }
}

/// The UTF-16 unit that the content of a character literal spells, where it is one.
fn unit_of(content: &str) -> Option<u16>
    ensures { result ≡ spec.unit_of (chars content.now) }
{
    let (c, rest) = split_first(content)?;
    let None = split_first(rest) else {
        return if c == '\\' { escape_unit(rest) } else { None };
    };
    if c != '\\' && (c as u32) < 65536 {
        Some(c as u32 as u16)
    } else {
        None
    }
}

/// What a string literal is, from the texts behind its quotes.
pub fn string(text: &str, after: &str) -> Lexeme
    requires { spec.behind_quote 34 false (chars text.now) ≡ Some (chars after.now) }
    ensures { result ≡ spec.string (spec.content 34 false (chars text.now)) }
{
    if escapes_hold(content('"', text, after)) {
        Lexeme::Spelled(TokenKind::StringLiteral)
    } else {
        Lexeme::Wrong(LexFault::BadEscape)
    }
}

/// What a character literal is, from the texts behind its quotes.
pub fn character(text: &str, after: &str) -> Lexeme
    requires { spec.behind_quote 39 false (chars text.now) ≡ Some (chars after.now) }
    ensures { result ≡ spec.character (spec.content 39 false (chars text.now)) }
{
    let content = content('\'', text, after);
    if !escapes_hold(content) {
        Lexeme::Wrong(LexFault::BadEscape)
    } else if unit_of(content).is_none() {
        Lexeme::Wrong(LexFault::BadCharLiteral)
    } else {
        Lexeme::Spelled(TokenKind::CharLiteral)
    }
}

/// The UTF-16 unit of a character literal, or `None` for any other text.
pub fn char_value(spelling: &str) -> Option<u16>
    ensures { result ≡ value.char_value (chars spelling.now) }
{
    let (quote, text) = split_first(spelling)?;
    if quote != '\'' {
        return None;
    }
    let after = behind_quote('\'', text)?;
    let None = split_first(after) else {
        return None;
    };
    unit_of(content('\'', text, after))
}
