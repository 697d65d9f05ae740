//! Operands: names, calls, literals and new objects, with members and indices behind them.

ghost use Rattle.std.specs.Prelude.{◌≡◌, ◌+◌, ◌^◌, ◌<◌, ◌≤◌, length, drop, IfOk};
ghost use Rattle.jsh_tree.specs.declared.expression.Expr.TheVariants as tree;
ghost use Rattle.jsh_parse.specs.Leaves as spec;
ghost use Rattle.jsh_parse.specs.Reading as read;
ghost use Rattle.jsh_parse.specs.Reading.{Reads, IsWithin};

use crate::error::ParseError;
use crate::expression::expr;
use crate::input::{
    Input, deeper, dot, right_bracket, right_paren, sees_brackets, sees_left_paren,
};
use crate::leaves::{brackets, identifier, identifier_of, literal, type_name, type_of};
use crate::list::{arguments, braces, sizes};
use crate::marks::{
    is_dot, is_identifier, is_left_bracket, is_left_paren, is_new, is_super, is_this,
};
use crate::nodes::{
    add, array_of, call, field, indexed, method, name_alone, parenthesized, super_call, this,
    with_parts,
};
use jsh_tree::{Boxed, Expr, PathPart, Seq, Token, TokenKind};
use std::alloc::AllocError;

#[cycle(parser)]
pub fn path(input: &Input, at: usize, room: u32) -> Result<(Boxed<Expr>, usize), ParseError>
    ensures { Reads input.now.tokens.now at (read.path_at input.now.text.now room (drop at input.now.tokens.now)) result }
{
    let (first, behind) = primary(input, at, room)?;
    let (parts, end) = parts(input, behind, room)?;
    Ok((with_parts(input.alloc, first, parts)?, end))
}

/// The members and indices from a place on.
#[cycle(parser)]
#[inline(never)]
fn parts(input: &Input, from: usize, room: u32) -> Result<(Seq<PathPart>, usize), ParseError>
    ensures { Reads input.now.tokens.now from (read.parts_at input.now.text.now room (drop from input.now.tokens.now)) result }
{
    let mut parts = Vec::new(input.alloc);
    let mut at = from;
    let most = input.left(from) + 1;
    for _turn in 0..most {
        let (further, behind) = part(input, at, room)?;
        at = behind;
        let Some(further) = further else {
            return Ok((Seq::from_vec(parts), at));
        };
        add(&mut parts, further)?;
    }
    Err(input.refuse(at, None))
}

/// A member or an index, where one stands there.
#[cycle(parser)]
fn part(input: &Input, at: usize, room: u32) -> Result<(Option<Boxed<PathPart>>, usize), ParseError>
    ensures { Reads input.now.tokens.now at (read.part_at input.now.text.now room (drop at input.now.tokens.now)) result }
{
    let Some(token) = input.token(at) else {
        return Ok((None, at));
    };
    if is_dot(token.kind) {
        let (name, behind) = identifier(input, at + 1)?;
        if !sees_left_paren(input, behind) {
            return Ok((Some(field(input.alloc, name)?), behind));
        }
        let (arguments, end) = arguments(input, behind, room)?;
        return Ok((Some(method(input.alloc, name, arguments)?), end));
    }
    if is_left_bracket(token.kind) {
        let inner = deeper(room)?;
        let (index, end) = bracketed(input, at + 1, inner)?;
        return Ok((Some(indexed(input.alloc, index)?), end));
    }
    Ok((None, at))
}

/// An expression and the bracket behind it.
#[cycle(parser)]
pub fn bracketed(input: &Input, at: usize, room: u32) -> Result<(Boxed<Expr>, usize), ParseError>
    ensures { Reads input.now.tokens.now at (read.bracketed_at input.now.text.now room (drop at input.now.tokens.now)) result }
{
    let (inside, behind) = expr(input, at, room)?;
    let (_, end) = right_bracket(input, behind)?;
    Ok((inside, end))
}

#[cycle(parser)]
fn primary(input: &Input, at: usize, room: u32) -> Result<(Boxed<Expr>, usize), ParseError>
    ensures { Reads input.now.tokens.now at (read.primary_at input.now.text.now room (drop at input.now.tokens.now)) result }
{
    let Some(token) = input.token(at) else {
        return Err(input.refuse(at, None));
    };
    if let Some(tree) = literal(input, token)? {
        return Ok((tree, at + 1));
    }
    if is_identifier(token.kind) {
        return named(input, token, at + 1, room);
    }
    if is_left_paren(token.kind) {
        return enclosed(input, token, at + 1, room);
    }
    if is_this(token.kind) {
        return Ok((this(input.alloc, token.span)?, at + 1));
    }
    if is_super(token.kind) {
        return through_super(input, token, at + 1, room);
    }
    if is_new(token.kind) {
        let (name, rest) = type_name(input, at + 1)?;
        return creation(input, token, name, rest, room);
    }
    Err(input.refuse(at, None))
}

/// An expression in parentheses, from behind the opening one.
#[cycle(parser)]
fn enclosed(
    input: &Input,
    token: Token,
    at: usize,
    room: u32,
) -> Result<(Boxed<Expr>, usize), ParseError>
    ensures { Reads input.now.tokens.now at (read.enclosed_at input.now.text.now room token (drop at input.now.tokens.now)) result }
{
    let inner = deeper(room)?;
    let (inside, rest) = expr(input, at, inner)?;
    let (_, end) = right_paren(input, rest)?;
    Ok((parenthesized(input.alloc, token.span, inside)?, end))
}

/// A name, or a call of it, from behind the name.
#[cycle(parser)]
fn named(
    input: &Input,
    token: Token,
    at: usize,
    room: u32,
) -> Result<(Boxed<Expr>, usize), ParseError>
    requires { IsWithin input.now.text.now token }
    ensures { Reads input.now.tokens.now at (read.named_at input.now.text.now room token (drop at input.now.tokens.now)) result }
{
    let name = identifier_of(input, token)?;
    if !sees_left_paren(input, at) {
        return Ok((name_alone(input.alloc, name)?, at));
    }
    let (arguments, end) = arguments(input, at, room)?;
    Ok((call(input.alloc, name, arguments)?, end))
}

/// A call of the superclass's method, from behind the word `super`.
#[cycle(parser)]
fn through_super(
    input: &Input,
    token: Token,
    at: usize,
    room: u32,
) -> Result<(Boxed<Expr>, usize), ParseError>
    ensures { Reads input.now.tokens.now at (read.through_super_at input.now.text.now room token (drop at input.now.tokens.now)) result }
{
    let (_, rest) = dot(input, at)?;
    let (name, behind) = identifier(input, rest)?;
    let (arguments, end) = arguments(input, behind, room)?;
    Ok((super_call(input.alloc, token.span, name, arguments)?, end))
}

/// What stands behind `new` and the name of a type.
#[cycle(parser)]
fn creation(
    input: &Input,
    token: Token,
    name: Token,
    at: usize,
    room: u32,
) -> Result<(Boxed<Expr>, usize), ParseError>
    requires within { IsWithin input.now.text.now name }
    requires behind { 0 < at }
    ensures { Reads input.now.tokens.now at (read.creation_at input.now.text.now room token name (drop at input.now.tokens.now)) result }
{
    if sees_left_paren(input, at) {
        if !is_identifier(name.kind) {
            return Err(input.refuse(at, Some(TokenKind::LeftBracket)));
        }
        let (arguments, end) = arguments(input, at, room)?;
        return Ok((new_object(input, token, name, arguments)?, end));
    }
    if sees_brackets(input, at) {
        return filled(input, token, name, at, room);
    }
    let (sizes, rest) = sizes(input, at, room)?;
    new_array(input, token, name, sizes, rest)
}

/// A new array with its values, from behind the name of its elements' type.
#[cycle(parser)]
fn filled(
    input: &Input,
    token: Token,
    name: Token,
    at: usize,
    room: u32,
) -> Result<(Boxed<Expr>, usize), ParseError>
    requires { IsWithin input.now.text.now name }
    ensures { Reads input.now.tokens.now at (read.filled_at input.now.text.now room token name (drop at input.now.tokens.now)) result }
{
    let (dims, rest) = brackets(input, at);
    let Some(brace) = input.token(rest) else {
        return Err(input.refuse(rest, Some(TokenKind::LeftBrace)));
    };
    let created = type_of(input, name, dims)?;
    let (values, end) = braces(input, rest, room)?;
    let tree = array_of(input.alloc, token.span, created, brace.span, values)?;
    Ok((tree, end))
}

#[inline(never)]
fn new_object(
    input: &Input,
    token: Token,
    name: Token,
    arguments: Seq<Expr>,
) -> Result<Boxed<Expr>, AllocError>
    requires { IsWithin input.now.text.now name }
    ensures { IfOk result (λ node. node ≡ tree.New token.span (spec.identifier_of input.now.text.now name) arguments) }
{
    let class = identifier_of(input, name)?;
    let tree = Expr::New {
        span: token.span,
        class,
        arguments,
    };
    Boxed::new(input.alloc, tree)
}

/// A new array with these sizes, from behind them.
#[inline(never)]
fn new_array(
    input: &Input,
    token: Token,
    name: Token,
    sizes: Seq<Expr>,
    at: usize,
) -> Result<(Boxed<Expr>, usize), ParseError>
    requires within { IsWithin input.now.text.now name }
    requires few { length sizes < 2 ^ 32 }
    requires before { length sizes < at }
    ensures { Reads input.now.tokens.now at (read.with_sizes input.now.text.now token name sizes (drop at input.now.tokens.now)) result }
{
    if sizes.is_empty() {
        return Err(input.refuse(at, Some(TokenKind::LeftBracket)));
    }
    let (dims, end) = brackets(input, at);
    let dims = sizes.len() as u32 + dims;
    let tree = Expr::NewArray {
        span: token.span,
        created: type_of(input, name, dims)?,
        sizes,
    };
    Ok((Boxed::new(input.alloc, tree)?, end))
}
