//! The lines of a client's input: where one ends, whether it is blank, its text, and what is left of it
//! without characters at its ends.
#![tactic(auto)]

ghost use Rattle.std.specs.Prelude.{◌≡◌, ◌<◌, ◌≤◌, ◌++◌, false, length, take, drop, IfOk, MatchOption};
ghost use Rattle.std.specs.String.{string_bytes};
ghost use Rattle.std.specs.Str.Lossy.{utf8_valid_len};
ghost use Rattle.jsh_tree.specs.Text.{is_white};
ghost use Rattle.jsh_lines.specs.Lines.{IsFirstLineFeed, as_text, has_line_feed, is_blank};

mod edge;

pub use edge::{Edge, before_back, behind_front, first_place, last_place};
use jsh_tree::{SrcText, is_white};
use std::alloc::{AllocError, Global};

/// Whether a line has nothing but white space (JLS 3.6), so that it is no snippet.
pub fn is_blank(line: &[u8]) -> bool
    ensures { result ≡ is_blank line.now }
{
    line.iter().all(|byte| is_white(*byte))
}

/// The place of the first line feed in a piece of input, if it has one.
pub fn line_end(piece: &[u8]) -> Option<usize>
    ensures { MatchOption result (has_line_feed piece.now ≡ false) (λ place. IsFirstLineFeed piece.now place) }
{
    for (at, byte) in piece.iter().enumerate() {
        if *byte == b'\n' {
            return Some(at);
        }
    }
    None
}

/// The text of a line, with U+FFFD for each byte at which no UTF-8 sequence begins.
///
/// That is one for each such byte, also where [`String::from_utf8_lossy`] writes one for several.
pub fn text_of(alloc: Global, line: &[u8]) -> Result<SrcText, AllocError>
    ensures { IfOk result (λ text. text ≡ as_text line.now) }
{
    if let Ok(text) = str::from_utf8(line) {
        return SrcText::from_text(alloc, text);
    }
    let mut text = String::with_capacity(alloc, line.len())?;
    let mut at = 0;
    while at < line.len() {
        at += push_front(&mut text, &line[at..])?;
    }
    SrcText::from_text(alloc, text.as_str())
}

/// Adds the text of the bytes up to the first at which no sequence begins, and that byte as U+FFFD.
/// Gives how many bytes that is.
fn push_front(text: &mut String, bytes: &[u8]) -> Result<usize, AllocError>
    requires { 0 < length bytes.now }
    ensures bound { IfOk result (λ read. (0 < read) × (read ≤ length bytes.now)) }
    ensures value { IfOk result (λ read. string_bytes text.new ++ as_text (drop read bytes.now) ≡ string_bytes text.old ++ as_text bytes.now) }
{
    let valid = valid_front(bytes);
    text.push_str(valid)?;
    if valid.len() == bytes.len() {
        return Ok(valid.len());
    }
    text.push(char::REPLACEMENT_CHARACTER)?;
    Ok(valid.len() + 1)
}

/// The longest front of the bytes that is UTF-8.
fn valid_front(bytes: &[u8]) -> &str
    ensures { result.now ≡ take (utf8_valid_len bytes.now) bytes.now }
{
    match bytes.utf8_chunks().next() {
        Some(chunk) => chunk.valid(),
        None => "",
    }
}

#[cfg(test)]
mod tests;
