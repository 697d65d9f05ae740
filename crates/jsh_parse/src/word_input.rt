//! Single tokens of statements, in what is read.

ghost use Rattle.std.specs.Prelude.{◌≡◌, ◌<◌, length, drop, IfOk};
ghost use Rattle.std.specs.Bool.{OnTrue};
ghost use Rattle.jsh_parse.specs.Forms as spec;
ghost use Rattle.jsh_parse.specs.Marks as marks;
ghost use Rattle.jsh_parse.specs.Reader as reader;
ghost use Rattle.jsh_parse.specs.Reading.{Reads, IsWithin};
ghost use Rattle.jsh_parse.specs.StatementReading as read;

use crate::error::ParseError;
use crate::input::Input;
use crate::marks::{is_colon, is_identifier, is_right_paren};
use crate::words::{
    begins_label, ends_statements, is_assign, is_case_value, is_catch, is_else, is_minus,
    is_semicolon, is_var, is_while,
};
use jsh_tree::{Token, TokenKind};

pub fn sees_semicolon(input: &Input, at: usize) -> bool
    ensures value { result ≡ reader.sees spec.is_semicolon (drop at input.now.tokens.now) }
    ensures inside { OnTrue result (at < length input.now.tokens.now) }
{
    match input.token(at) {
        Some(token) => is_semicolon(token.kind),
        None => false,
    }
}

pub fn sees_right_paren(input: &Input, at: usize) -> bool
    ensures value { result ≡ reader.sees marks.is_right_paren (drop at input.now.tokens.now) }
    ensures inside { OnTrue result (at < length input.now.tokens.now) }
{
    match input.token(at) {
        Some(token) => is_right_paren(token.kind),
        None => false,
    }
}

pub fn sees_colon(input: &Input, at: usize) -> bool
    ensures value { result ≡ reader.sees marks.is_colon (drop at input.now.tokens.now) }
    ensures inside { OnTrue result (at < length input.now.tokens.now) }
{
    match input.token(at) {
        Some(token) => is_colon(token.kind),
        None => false,
    }
}

pub fn sees_identifier(input: &Input, at: usize) -> bool
    ensures value { result ≡ reader.sees marks.is_identifier (drop at input.now.tokens.now) }
    ensures inside { OnTrue result (at < length input.now.tokens.now) }
{
    match input.token(at) {
        Some(token) => is_identifier(token.kind),
        None => false,
    }
}

pub fn sees_assign(input: &Input, at: usize) -> bool
    ensures value { result ≡ reader.sees spec.is_assign (drop at input.now.tokens.now) }
    ensures inside { OnTrue result (at < length input.now.tokens.now) }
{
    match input.token(at) {
        Some(token) => is_assign(token.kind),
        None => false,
    }
}

pub fn sees_else(input: &Input, at: usize) -> bool
    ensures value { result ≡ reader.sees spec.is_else (drop at input.now.tokens.now) }
    ensures inside { OnTrue result (at < length input.now.tokens.now) }
{
    match input.token(at) {
        Some(token) => is_else(token.kind),
        None => false,
    }
}

pub fn sees_var(input: &Input, at: usize) -> bool
    ensures value { result ≡ reader.sees spec.is_var (drop at input.now.tokens.now) }
    ensures inside { OnTrue result (at < length input.now.tokens.now) }
{
    match input.token(at) {
        Some(token) => is_var(token.kind),
        None => false,
    }
}

pub fn sees_minus(input: &Input, at: usize) -> bool
    ensures value { result ≡ reader.sees spec.is_minus (drop at input.now.tokens.now) }
    ensures inside { OnTrue result (at < length input.now.tokens.now) }
{
    match input.token(at) {
        Some(token) => is_minus(token.kind),
        None => false,
    }
}

pub fn sees_catch(input: &Input, at: usize) -> bool
    ensures value { result ≡ reader.sees spec.is_catch (drop at input.now.tokens.now) }
    ensures inside { OnTrue result (at < length input.now.tokens.now) }
{
    match input.token(at) {
        Some(token) => is_catch(token.kind),
        None => false,
    }
}

pub fn sees_label(input: &Input, at: usize) -> bool
    ensures value { result ≡ reader.sees spec.begins_label (drop at input.now.tokens.now) }
    ensures inside { OnTrue result (at < length input.now.tokens.now) }
{
    match input.token(at) {
        Some(token) => begins_label(token.kind),
        None => false,
    }
}

/// Whether no statement more stands at a place.
pub fn ends_block(input: &Input, at: usize) -> bool
    ensures { result ≡ read.ends_block (drop at input.now.tokens.now) }
{
    match input.token(at) {
        Some(token) => ends_statements(token.kind),
        None => true,
    }
}

pub fn semicolon(input: &Input, at: usize) -> Result<(Token, usize), ParseError>
    ensures { Reads input.now.tokens.now at (reader.accept spec.is_semicolon (drop at input.now.tokens.now)) result }
{
    match input.token(at) {
        Some(token) if is_semicolon(token.kind) => Ok((token, at + 1)),
        _ => Err(input.refuse(at, Some(TokenKind::Semicolon))),
    }
}

pub fn assign(input: &Input, at: usize) -> Result<(Token, usize), ParseError>
    ensures { Reads input.now.tokens.now at (reader.accept spec.is_assign (drop at input.now.tokens.now)) result }
{
    match input.token(at) {
        Some(token) if is_assign(token.kind) => Ok((token, at + 1)),
        _ => Err(input.refuse(at, Some(TokenKind::Assign))),
    }
}

pub fn minus(input: &Input, at: usize) -> Result<(Token, usize), ParseError>
    ensures { Reads input.now.tokens.now at (reader.accept spec.is_minus (drop at input.now.tokens.now)) result }
{
    match input.token(at) {
        Some(token) if is_minus(token.kind) => Ok((token, at + 1)),
        _ => Err(input.refuse(at, Some(TokenKind::Minus))),
    }
}

pub fn while_word(input: &Input, at: usize) -> Result<(Token, usize), ParseError>
    ensures { Reads input.now.tokens.now at (reader.accept spec.is_while (drop at input.now.tokens.now)) result }
{
    match input.token(at) {
        Some(token) if is_while(token.kind) => Ok((token, at + 1)),
        _ => Err(input.refuse(at, Some(TokenKind::While))),
    }
}

pub fn catch_word(input: &Input, at: usize) -> Result<(Token, usize), ParseError>
    ensures { Reads input.now.tokens.now at (reader.accept spec.is_catch (drop at input.now.tokens.now)) result }
{
    match input.token(at) {
        Some(token) if is_catch(token.kind) => Ok((token, at + 1)),
        _ => Err(input.refuse(at, Some(TokenKind::Catch))),
    }
}

/// The literal of a `case`.
pub fn case_value(input: &Input, at: usize) -> Result<(Token, usize), ParseError>
    ensures value { Reads input.now.tokens.now at (reader.accept spec.is_case_value (drop at input.now.tokens.now)) result }
    ensures within { IfOk result (λ found. IsWithin input.now.text.now found.0) }
{
    match input.token(at) {
        Some(token) if is_case_value(token.kind) => Ok((token, at + 1)),
        _ => Err(input.refuse(at, None)),
    }
}
