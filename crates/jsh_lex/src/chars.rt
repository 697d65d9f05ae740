//! Steps over the characters of a text.

ghost use Rattle.std.specs.Prelude.{◌≡◌, ◌+◌, ◌<◌, ◌≤◌, ◌||◌, ◌==◌, [], ◌∷◌, length, drop, codes, IfNone, IfSome, MatchOption, true, false};
ghost use Rattle.std.specs.Char.{is_ascii_digit};
ghost use Rattle.std.specs.Str.{chars};
ghost use Rattle.jsh_tree.specs.Text.{is_white};
ghost use Rattle.jsh_lex.specs.Chars as spec;
ghost use Rattle.jsh_lex.specs.Lexis.{behind_comment, behind_word, word_bytes};

/// The first character, and the text behind it.
pub fn split_first(text: &str) -> Option<(char, &str)>
    ensures none { IfNone result (chars text.now ≡ []) }
    ensures empty { IfNone result (length text.now ≡ 0) }
    ensures some { IfSome result (λ r. chars text.now ≡ r.0 ∷ chars r.1.now) }
    ensures shorter { IfSome result (λ r. length r.1.now < length text.now) }
{
    let mut chars = text.chars();
    match chars.next() {
        None => None,
        Some(first) => Some((first, chars.as_str())),
    }
}

/// A text without characters.
pub fn no_text() -> &'static str
    ensures chars { chars result.now ≡ [] }
    ensures length { length result.now ≡ 0 }
{
    ""
}

pub fn is_white(c: char) -> bool
    ensures { result ≡ is_white c }
{
    match u8::try_from(c) {
        Ok(byte) => jsh_tree::is_white(byte),
        Err(_) => false,
    }
}

pub fn is_in_line(c: char) -> bool
    ensures { result ≡ spec.is_in_line c }
{
    !matches!(c, '\r' | '\n')
}

pub fn is_identifier_start(c: char) -> bool
    ensures { result ≡ spec.is_identifier_start c }
{
    unicode_ident::is_xid_start(c) || c == '_' || c == '$'
}

pub fn is_identifier_part(c: char) -> bool
    ensures { result ≡ spec.is_identifier_part c }
{
    unicode_ident::is_xid_continue(c) || c == '_' || c == '$'
}

/// The text behind its white space.
pub fn behind_white(mut text: &str) -> &str
    ensures rest { chars result.now ≡ spec.drop_while is_white (chars text.entry.now) }
    ensures length { length result.now ≤ length text.entry.now }
{
    while let Some((c, rest)) = split_first(text) {
        if !is_white(c) {
            break;
        }
        text = rest;
    }
    text
}

/// The text behind the rest of its line.
pub fn behind_line(mut text: &str) -> &str
    ensures rest { chars result.now ≡ spec.drop_while spec.is_in_line (chars text.entry.now) }
    ensures length { length result.now ≤ length text.entry.now }
{
    while let Some((c, rest)) = split_first(text) {
        if !is_in_line(c) {
            break;
        }
        text = rest;
    }
    text
}

/// The text behind the identifier characters that it begins with.
fn behind_parts(mut text: &str) -> &str
    ensures rest { chars result.now ≡ spec.drop_while spec.is_identifier_part (chars text.entry.now) }
    ensures length { length result.now ≤ length text.entry.now }
{
    while let Some((c, rest)) = split_first(text) {
        if !is_identifier_part(c) {
            break;
        }
        text = rest;
    }
    text
}

/// The bytes of the first character and of all identifier characters behind it, and the text behind them.
pub fn split_word(text: &str) -> (&[u8], &str)
    ensures bytes { result.0.now ≡ word_bytes (chars text.now) }
    ensures rest { chars result.1.now ≡ behind_word (chars text.now) }
    ensures length { 0 < length text.now → length result.1.now < length text.now }
{
    let Some((_, rest)) = split_first(text) else {
        return (&[], text);
    };
    let after = behind_parts(rest);
    (&text.as_bytes()[..text.len() - after.len()], after)
}

/// The text behind a spelling that it begins with.
pub fn strip<'a>(mut text: &'a str, mut spelling: &[u8]) -> Option<&'a str>
    ensures none { IfNone result (spec.begins spelling.entry.now (chars text.entry.now) ≡ false) }
    ensures some { IfSome result (λ _. spec.begins spelling.entry.now (chars text.entry.now) ≡ true) }
    ensures rest { IfSome result (λ r. chars r.now ≡ drop (length spelling.entry.now) (chars text.entry.now)) }
    ensures length { IfSome result (λ r. length r.now + length spelling.entry.now ≤ length text.entry.now) }
{
    while let [b, more @ ..] = spelling {
        let Some((c, rest)) = split_first(text) else {
            return None;
        };
        if c != char::from(*b) {
            return None;
        }
        text = rest;
        spelling = more;
    }
    Some(text)
}

/// The text behind the first `*/`.
pub fn behind_comment(mut text: &str) -> Option<&str>
    ensures none { IfNone result (behind_comment (chars text.entry.now) ≡ None) }
    ensures some { IfSome result (λ r. behind_comment (chars text.entry.now) ≡ Some (chars r.now)) }
    ensures length { IfSome result (λ r. length r.now ≤ length text.entry.now) }
{
    while let Some((_, rest)) = split_first(text) {
        if let Some(after) = strip(text, b"*/") {
            return Some(after);
        }
        text = rest;
    }
    None
}
