//! Arguments, sizes of arrays, and values of array initializers.

ghost use Rattle.std.specs.Prelude.{◌≡◌, ◌+◌, ◌-◌, ◌<◌, ◌≤◌, length, drop, IfOk, IfSome};
ghost use Rattle.jsh_parse.specs.Reading as read;
ghost use Rattle.jsh_parse.specs.Reading.{Reads};

use crate::error::ParseError;
use crate::expression::expr;
use crate::input::{
    Input, deeper, left_brace, left_bracket, left_paren, right_paren, sees_brackets, sees_comma,
    sees_left_bracket, sees_right_brace,
};
use crate::marks::{is_comma, is_left_brace, is_right_brace, is_right_paren};
use crate::nodes::{add, array, plain};
use crate::path::bracketed;
use jsh_tree::{Boxed, Expr, Initial, Seq, TokenKind};

#[cycle(parser)]
pub fn arguments(input: &Input, from: usize, room: u32) -> Result<(Seq<Expr>, usize), ParseError>
    ensures { Reads input.now.tokens.now from (read.arguments_at input.now.text.now room (drop from input.now.tokens.now)) result }
{
    let (_, behind) = left_paren(input, from)?;
    let inner = deeper(room)?;
    let Some(token) = input.token(behind) else {
        return Err(input.refuse(behind, Some(TokenKind::RightParen)));
    };
    if is_right_paren(token.kind) {
        return Ok((Seq::new(input.alloc), behind + 1));
    }
    let (listed, rest) = listed(input, behind, inner)?;
    let (_, end) = right_paren(input, rest)?;
    Ok((listed, end))
}

/// One expression or more, with commas between them.
#[cycle(parser)]
fn listed(input: &Input, from: usize, room: u32) -> Result<(Seq<Expr>, usize), ParseError>
    ensures { Reads input.now.tokens.now from (read.listed_at input.now.text.now room (drop from input.now.tokens.now)) result }
{
    let mut items = Vec::new(input.alloc);
    let mut at = from;
    let most = input.left(from) + 1;
    for _turn in 0..most {
        let (item, behind) = expr(input, at, room)?;
        add(&mut items, item)?;
        if !sees_comma(input, behind) {
            return Ok((Seq::from_vec(items), behind));
        }
        at = behind + 1;
    }
    Err(input.refuse(at, None))
}

/// Expressions in brackets.
#[cycle(parser)]
pub fn sizes(input: &Input, from: usize, room: u32) -> Result<(Seq<Expr>, usize), ParseError>
    ensures value { Reads input.now.tokens.now from (read.sizes_at input.now.text.now room (drop from input.now.tokens.now)) result }
    ensures inside { IfOk result (λ found. length found.0 ≤ length input.now.tokens.now - from) }
    ensures forward { IfOk result (λ found. from + length found.0 ≤ found.1) }
{
    let mut sizes = Vec::new(input.alloc);
    let mut at = from;
    let most = input.left(from) + 1;
    for _turn in 0..most {
        let (further, behind) = size(input, at, room)?;
        at = behind;
        let Some(further) = further else {
            return Ok((Seq::from_vec(sizes), at));
        };
        add(&mut sizes, further)?;
    }
    Err(input.refuse(at, None))
}

/// An expression in brackets, where one stands there.
#[cycle(parser)]
fn size(input: &Input, at: usize, room: u32) -> Result<(Option<Boxed<Expr>>, usize), ParseError>
    ensures value { Reads input.now.tokens.now at (read.size_at input.now.text.now room (drop at input.now.tokens.now)) result }
    ensures inside { IfOk result (λ found. IfSome found.0 (λ _. at < length input.now.tokens.now)) }
    ensures forward { IfOk result (λ found. IfSome found.0 (λ _. at < found.1)) }
{
    if !sees_left_bracket(input, at) || sees_brackets(input, at) {
        return Ok((None, at));
    }
    let (_, behind) = left_bracket(input, at)?;
    let inner = deeper(room)?;
    let (size, end) = bracketed(input, behind, inner)?;
    Ok((Some(size), end))
}

/// The values of an array in braces.
#[cycle(parser)]
pub fn braces(input: &Input, from: usize, room: u32) -> Result<(Seq<Initial>, usize), ParseError>
    ensures { Reads input.now.tokens.now from (read.braces_at input.now.text.now room (drop from input.now.tokens.now)) result }
{
    let (_, behind) = left_brace(input, from)?;
    let inner = deeper(room)?;
    if sees_right_brace(input, behind) {
        return Ok((Seq::new(input.alloc), behind + 1));
    }
    initials(input, behind, inner)
}

/// One value or more, with commas between them and perhaps one behind, and the brace behind them.
#[cycle(parser)]
fn initials(input: &Input, from: usize, room: u32) -> Result<(Seq<Initial>, usize), ParseError>
    ensures { Reads input.now.tokens.now from (read.initials_at input.now.text.now room (drop from input.now.tokens.now)) result }
{
    let mut values = Vec::new(input.alloc);
    let mut at = from;
    let most = input.left(from) + 1;
    for _turn in 0..most {
        let (value, behind) = initial(input, at, room)?;
        add(&mut values, value)?;
        let (goes_on, next) = behind_value(input, behind)?;
        at = next;
        if !goes_on {
            return Ok((Seq::from_vec(values), at));
        }
    }
    Err(input.refuse(at, None))
}

/// Whether further values stand behind one, and the place behind the comma or the brace there.
fn behind_value(input: &Input, at: usize) -> Result<(bool, usize), ParseError>
    ensures { Reads input.now.tokens.now at (read.behind_value (drop at input.now.tokens.now)) result }
{
    let Some(token) = input.token(at) else {
        return Err(input.refuse(at, Some(TokenKind::RightBrace)));
    };
    if is_right_brace(token.kind) {
        return Ok((false, at + 1));
    }
    if !is_comma(token.kind) {
        return Err(input.refuse(at, Some(TokenKind::Comma)));
    }
    if sees_right_brace(input, at + 1) {
        return Ok((false, at + 2));
    }
    Ok((true, at + 1))
}

#[cycle(parser)]
pub fn initial(input: &Input, at: usize, room: u32) -> Result<(Boxed<Initial>, usize), ParseError>
    ensures { Reads input.now.tokens.now at (read.initial_at input.now.text.now room (drop at input.now.tokens.now)) result }
{
    let Some(token) = input.token(at) else {
        return Err(input.refuse(at, None));
    };
    if is_left_brace(token.kind) {
        let (values, end) = braces(input, at, room)?;
        return Ok((array(input.alloc, token.span, values)?, end));
    }
    let (value, end) = expr(input, at, room)?;
    Ok((plain(input.alloc, value)?, end))
}
