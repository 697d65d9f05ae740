//! What is read, and single tokens of it.

ghost use Rattle.std.specs.Prelude.{◌≡◌, ◌∷◌, ◌+◌, ◌-◌, ◌^◌, ◌<◌, ◌≤◌, zero, suc, [], length, drop, IfSome, OnSome, MatchOption, MatchResult};
ghost use Rattle.std.specs.Bool.{OnTrue};
ghost use Rattle.jsh_parse.specs.declared.error.ParseError.TheVariants as error;
ghost use Rattle.jsh_parse.specs.Marks as spec;
ghost use Rattle.jsh_parse.specs.Reader as reader;
ghost use Rattle.jsh_parse.specs.Reading as read;
ghost use Rattle.jsh_parse.specs.Reading.{Reads, IsWithin, AreWithin, AreTaken, IsWanted};
ghost use Rattle.jsh_parse.specs.Refusals.{place_of};

use crate::error::ParseError;
use crate::marks::{
    is_colon, is_comma, is_dot, is_instanceof, is_left_brace, is_left_bracket, is_left_paren,
    is_question, is_right_brace, is_right_bracket, is_right_paren,
};
use crate::operators::{COMPARISON_LEVEL, LEVELS, assign_operator, binary_operator, level_of};
use jsh_tree::{BinaryOperator, Token, TokenKind};
use std::alloc::Global;

/// How many constructs may stand in one another.
pub const LIMIT: u32 = 256;

/// A text with its tokens, and the memory for its trees.
#[derive(Clone, Copy)]
pub struct Input<'a> {
    pub alloc: Global,
    pub text: &'a str,
    pub tokens: &'a [Token],
    ghost within: { AreWithin text.now tokens.now },
    ghost few: { length tokens.now ≤ 2 ^ 32 },
    ghost short: { length text.now < 2 ^ 32 },
}

/// Where the last token ends.
fn end_of(tokens: &[Token]) -> u32
    ensures { result ≡ read.last_end 0 tokens.now }
{
    match tokens {
        [.., last] => last.span.to,
        [] => 0,
    }
}

impl<'a> Input<'a> {
    pub fn new(alloc: Global, text: &'a str, tokens: &'a [Token]) -> Input<'a>
        requires taken { AreTaken text.now tokens.now }
        requires short { length text.now < 2 ^ 32 }
        ensures text { result.text.now ≡ text.now }
        ensures tokens { result.tokens.now ≡ tokens.now }
    {
        // Each token but the last has a byte, so a place can nearly count them.
        prove!(tokens.len() <= end_of(tokens) as usize + 1);
        Input {
            alloc,
            text,
            tokens,
        }
    }

    #[tactic(auto, using(crate::proofs::Tokens::found_at, crate::proofs::Tokens::none_at))]
    pub fn token(&self, at: usize) -> Option<Token>
        ensures found { MatchOption result (drop at self.now.tokens.now ≡ []) (λ t. drop at self.now.tokens.now ≡ t ∷ drop (at + 1) self.now.tokens.now) }
        ensures inside { IfSome result (λ t. at < length self.now.tokens.now) }
        ensures within { IfSome result (λ t. IsWithin self.now.text.now t) }
    {
        self.tokens.get(at).copied()
    }

    /// How many tokens stand from a place on.
    pub fn left(&self, at: usize) -> usize
        ensures { result ≡ length (drop at self.now.tokens.now) }
    {
        self.tokens.len().saturating_sub(at)
    }

    /// The first byte of the token at a place, or the length of the text where none stands there.
    pub fn place(&self, at: usize) -> u32
        ensures { result ≡ place_of self.now.text.now (drop at self.now.tokens.now) }
    {
        match self.token(at) {
            Some(token) => token.span.from,
            None => self.text.len() as u32,
        }
    }

    /// The refusal of the token at a place.
    pub fn refuse(&self, at: usize, wanted: Option<TokenKind>) -> ParseError
        ensures { IsWanted result }
    {
        let place = self.place(at);
        ParseError::Wanted { place, wanted }
    }
}

/// The room for what stands one deeper.
pub fn deeper(room: u32) -> Result<u32, ParseError>
    ensures { MatchResult result (λ inner. room ≡ suc inner) (λ e. (room ≡ zero) × (e ≡ error.TooDeep 256)) }
{
    if room == 0 {
        Err(ParseError::TooDeep { limit: LIMIT })
    } else {
        Ok(room - 1)
    }
}

pub fn sees_left_paren(input: &Input, at: usize) -> bool
    ensures { result ≡ reader.sees spec.is_left_paren (drop at input.now.tokens.now) }
{
    match input.token(at) {
        Some(token) => is_left_paren(token.kind),
        None => false,
    }
}

pub fn sees_right_brace(input: &Input, at: usize) -> bool
    ensures value { result ≡ reader.sees spec.is_right_brace (drop at input.now.tokens.now) }
    ensures inside { OnTrue result (at < length input.now.tokens.now) }
{
    match input.token(at) {
        Some(token) => is_right_brace(token.kind),
        None => false,
    }
}

pub fn sees_question(input: &Input, at: usize) -> bool
    ensures value { result ≡ reader.sees spec.is_question (drop at input.now.tokens.now) }
    ensures inside { OnTrue result (at < length input.now.tokens.now) }
{
    match input.token(at) {
        Some(token) => is_question(token.kind),
        None => false,
    }
}

pub fn sees_comma(input: &Input, at: usize) -> bool
    ensures value { result ≡ reader.sees spec.is_comma (drop at input.now.tokens.now) }
    ensures inside { OnTrue result (at < length input.now.tokens.now) }
{
    match input.token(at) {
        Some(token) => is_comma(token.kind),
        None => false,
    }
}

/// The operator of the assignment that the token at a place makes, where it makes one.
pub fn assignment_at(input: &Input, at: usize) -> Option<Option<BinaryOperator>>
    ensures value { result ≡ read.assignment_at (drop at input.now.tokens.now) }
    ensures inside { OnSome result (at < length input.now.tokens.now) }
{
    assign_operator(input.token(at)?.kind)
}

/// The operator that the token at a place is, where it stands between operands of that height: `None`
/// for `instanceof`.
pub fn operator_at(input: &Input, at: usize, height: u32) -> Option<Option<BinaryOperator>>
    ensures value { result ≡ read.operator_at height (drop at input.now.tokens.now) }
    ensures inside { OnSome result (at < length input.now.tokens.now) }
{
    let token = input.token(at)?;
    let level = (LEVELS - 1).saturating_sub(height);
    if is_instanceof(token.kind) && level == COMPARISON_LEVEL {
        return Some(None);
    }
    let operator = binary_operator(token.kind)?;
    if level_of(operator) != level {
        return None;
    }
    Some(Some(operator))
}

pub fn sees_left_bracket(input: &Input, at: usize) -> bool
    ensures { result ≡ reader.sees spec.is_left_bracket (drop at input.now.tokens.now) }
{
    match input.token(at) {
        Some(token) => is_left_bracket(token.kind),
        None => false,
    }
}

/// Whether an empty pair of brackets stands at a place.
pub fn sees_brackets(input: &Input, at: usize) -> bool
    ensures value { result ≡ reader.sees_brackets (drop at input.now.tokens.now) }
    ensures inside { OnTrue result (at + 2 ≤ length input.now.tokens.now) }
{
    let Some(left) = input.token(at) else {
        return false;
    };
    match input.token(at + 1) {
        Some(right) => is_left_bracket(left.kind) && is_right_bracket(right.kind),
        None => false,
    }
}

pub fn left_paren(input: &Input, at: usize) -> Result<(Token, usize), ParseError>
    ensures { Reads input.now.tokens.now at (reader.accept spec.is_left_paren (drop at input.now.tokens.now)) result }
{
    match input.token(at) {
        Some(token) if is_left_paren(token.kind) => Ok((token, at + 1)),
        _ => Err(input.refuse(at, Some(TokenKind::LeftParen))),
    }
}

pub fn right_paren(input: &Input, at: usize) -> Result<(Token, usize), ParseError>
    ensures { Reads input.now.tokens.now at (reader.accept spec.is_right_paren (drop at input.now.tokens.now)) result }
{
    match input.token(at) {
        Some(token) if is_right_paren(token.kind) => Ok((token, at + 1)),
        _ => Err(input.refuse(at, Some(TokenKind::RightParen))),
    }
}

pub fn left_bracket(input: &Input, at: usize) -> Result<(Token, usize), ParseError>
    ensures { Reads input.now.tokens.now at (reader.accept spec.is_left_bracket (drop at input.now.tokens.now)) result }
{
    match input.token(at) {
        Some(token) if is_left_bracket(token.kind) => Ok((token, at + 1)),
        _ => Err(input.refuse(at, Some(TokenKind::LeftBracket))),
    }
}

pub fn right_bracket(input: &Input, at: usize) -> Result<(Token, usize), ParseError>
    ensures { Reads input.now.tokens.now at (reader.accept spec.is_right_bracket (drop at input.now.tokens.now)) result }
{
    match input.token(at) {
        Some(token) if is_right_bracket(token.kind) => Ok((token, at + 1)),
        _ => Err(input.refuse(at, Some(TokenKind::RightBracket))),
    }
}

pub fn left_brace(input: &Input, at: usize) -> Result<(Token, usize), ParseError>
    ensures { Reads input.now.tokens.now at (reader.accept spec.is_left_brace (drop at input.now.tokens.now)) result }
{
    match input.token(at) {
        Some(token) if is_left_brace(token.kind) => Ok((token, at + 1)),
        _ => Err(input.refuse(at, Some(TokenKind::LeftBrace))),
    }
}

pub fn right_brace(input: &Input, at: usize) -> Result<(Token, usize), ParseError>
    ensures { Reads input.now.tokens.now at (reader.accept spec.is_right_brace (drop at input.now.tokens.now)) result }
{
    match input.token(at) {
        Some(token) if is_right_brace(token.kind) => Ok((token, at + 1)),
        _ => Err(input.refuse(at, Some(TokenKind::RightBrace))),
    }
}

pub fn dot(input: &Input, at: usize) -> Result<(Token, usize), ParseError>
    ensures { Reads input.now.tokens.now at (reader.accept spec.is_dot (drop at input.now.tokens.now)) result }
{
    match input.token(at) {
        Some(token) if is_dot(token.kind) => Ok((token, at + 1)),
        _ => Err(input.refuse(at, Some(TokenKind::Dot))),
    }
}

pub fn colon(input: &Input, at: usize) -> Result<(Token, usize), ParseError>
    ensures { Reads input.now.tokens.now at (reader.accept spec.is_colon (drop at input.now.tokens.now)) result }
{
    match input.token(at) {
        Some(token) if is_colon(token.kind) => Ok((token, at + 1)),
        _ => Err(input.refuse(at, Some(TokenKind::Colon))),
    }
}
