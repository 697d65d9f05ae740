//! Single tokens of declarations, in what is read.

ghost use Rattle.std.specs.Prelude.{◌≡◌, ◌<◌, ◌≤◌, length, drop};
ghost use Rattle.std.specs.Bool.{OnTrue};
ghost use Rattle.jsh_parse.specs.Marks as marks;
ghost use Rattle.jsh_parse.specs.Reader as reader;
ghost use Rattle.jsh_decl.specs.Words as spec;
ghost use Rattle.jsh_decl.specs.DeclarationReader as declaration;
ghost use Rattle.jsh_decl.specs.DeclarationReading as read;

use crate::words::{
    ListWord, is_class, is_extends, is_interface, is_star, is_static, is_void, is_word,
};
use jsh_parse::{Input, is_dot};

pub fn sees_dot(input: &Input, at: usize) -> bool
    ensures value { result ≡ reader.sees marks.is_dot (drop at input.now.tokens.now) }
    ensures inside { OnTrue result (at < length input.now.tokens.now) }
{
    match input.token(at) {
        Some(token) => is_dot(token.kind),
        None => false,
    }
}

pub fn sees_star(input: &Input, at: usize) -> bool
    ensures value { result ≡ reader.sees spec.is_star (drop at input.now.tokens.now) }
    ensures inside { OnTrue result (at < length input.now.tokens.now) }
{
    match input.token(at) {
        Some(token) => is_star(token.kind),
        None => false,
    }
}

pub fn sees_class(input: &Input, at: usize) -> bool
    ensures value { result ≡ reader.sees spec.is_class (drop at input.now.tokens.now) }
    ensures inside { OnTrue result (at < length input.now.tokens.now) }
{
    match input.token(at) {
        Some(token) => is_class(token.kind),
        None => false,
    }
}

pub fn sees_interface(input: &Input, at: usize) -> bool
    ensures value { result ≡ reader.sees spec.is_interface (drop at input.now.tokens.now) }
    ensures inside { OnTrue result (at < length input.now.tokens.now) }
{
    match input.token(at) {
        Some(token) => is_interface(token.kind),
        None => false,
    }
}

pub fn sees_void(input: &Input, at: usize) -> bool
    ensures value { result ≡ reader.sees spec.is_void (drop at input.now.tokens.now) }
    ensures inside { OnTrue result (at < length input.now.tokens.now) }
{
    match input.token(at) {
        Some(token) => is_void(token.kind),
        None => false,
    }
}

pub fn sees_extends(input: &Input, at: usize) -> bool
    ensures value { result ≡ reader.sees spec.is_extends (drop at input.now.tokens.now) }
    ensures inside { OnTrue result (at < length input.now.tokens.now) }
{
    match input.token(at) {
        Some(token) => is_extends(token.kind),
        None => false,
    }
}

/// Whether a word that names stand behind is at a place.
pub fn sees_word(input: &Input, at: usize, word: ListWord) -> bool
    ensures value { result ≡ reader.sees (read.test_of word) (drop at input.now.tokens.now) }
    ensures inside { OnTrue result (at < length input.now.tokens.now) }
{
    match input.token(at) {
        Some(token) => is_word(word, token.kind),
        None => false,
    }
}

/// Whether the word `static` stands at a place, and the place behind it.
pub fn static_word(input: &Input, at: usize) -> (bool, usize)
    ensures value { result.0 ≡ (declaration.static_read (drop at input.now.tokens.now)).0 }
    ensures rest { drop result.1 input.now.tokens.now ≡ (declaration.static_read (drop at input.now.tokens.now)).1 }
    ensures forward { at ≤ result.1 }
{
    match input.token(at) {
        Some(token) if is_static(token.kind) => (true, at + 1),
        _ => (false, at),
    }
}
