//! Expressions down to their operands. Each function reads from the token at a place on, where so many
//! constructs more may stand in one another, and gives the place behind what it read.

ghost use Rattle.std.specs.Prelude.{◌≡◌, ◌+◌, ◌<◌, ◌≤◌, length, drop, IfOk};
ghost use Rattle.jsh_parse.specs.Reading as read;
ghost use Rattle.jsh_parse.specs.Reading.{Reads};

use crate::error::ParseError;
use crate::input::{Input, assignment_at, colon, deeper, right_paren, sees_question};
use crate::leaves::{is_cast, is_step, is_target, type_use};
use crate::marks::is_left_paren;
use crate::nodes::{assignment, choice, conversion, prefixed, stepped};
use crate::operators::{LEVELS, postfix_operator, unary_operator};
use crate::path::path;
use crate::runs::{Next, settle};
use jsh_tree::{Boxed, Expr, Token, UnaryOperator};

#[cycle(parser)]
pub fn expr(input: &Input, at: usize, room: u32) -> Result<(Boxed<Expr>, usize), ParseError>
    ensures { Reads input.now.tokens.now at (read.expr_at input.now.text.now room (drop at input.now.tokens.now)) result }
{
    let (target, behind) = conditional(input, at, room)?;
    let Some(operator) = assignment_at(input, behind) else {
        return Ok((target, behind));
    };
    if !is_target(target.get()) {
        return Err(input.refuse(behind, None));
    }
    let inner = deeper(room)?;
    let (value, end) = expr(input, behind + 1, inner)?;
    Ok((assignment(input.alloc, target, operator, value)?, end))
}

#[cycle(parser)]
pub fn conditional(input: &Input, at: usize, room: u32) -> Result<(Boxed<Expr>, usize), ParseError>
    ensures { Reads input.now.tokens.now at (read.conditional_at input.now.text.now room (drop at input.now.tokens.now)) result }
{
    let (condition, behind) = level(input, at, room, LEVELS)?;
    if !sees_question(input, behind) {
        return Ok((condition, behind));
    }
    let (branches, end) = branches(input, behind + 1, room)?;
    Ok((choice(input.alloc, condition, branches)?, end))
}

/// The branches of a conditional, from behind its `?`.
#[cycle(parser)]
#[inline(never)]
fn branches(
    input: &Input,
    at: usize,
    room: u32,
) -> Result<((Boxed<Expr>, Boxed<Expr>), usize), ParseError>
    ensures { Reads input.now.tokens.now at (read.branches_at input.now.text.now room (drop at input.now.tokens.now)) result }
{
    let inner = deeper(room)?;
    let (yes, rest) = expr(input, at, inner)?;
    let (_, behind) = colon(input, rest)?;
    let (no, end) = conditional(input, behind, inner)?;
    Ok(((yes, no), end))
}

/// The level that is so many below the operands of all levels.
#[cycle(parser)]
pub fn level(
    input: &Input,
    at: usize,
    room: u32,
    height: u32,
) -> Result<(Boxed<Expr>, usize), ParseError>
    requires { height ≤ 10 }
    ensures { Reads input.now.tokens.now at (read.level_at input.now.text.now room height (drop at input.now.tokens.now)) result }
{
    let mut waiting = Vec::new(input.alloc);
    let mut place = at;
    let mut wanted = height;
    'operands: loop {
        let (operand, behind) = unary(input, place, room)?;
        let next = settle(input, &mut waiting, operand, behind, wanted)?;
        match next {
            Next::Whole(tree, end) => return Ok((tree, end)),
            Next::Operand(further, lower) => {
                place = further;
                wanted = lower;
            }
        }
    }
}

#[cycle(parser)]
pub fn unary(input: &Input, at: usize, room: u32) -> Result<(Boxed<Expr>, usize), ParseError>
    ensures { Reads input.now.tokens.now at (read.unary_at input.now.text.now room (drop at input.now.tokens.now)) result }
{
    let Some(token) = input.token(at) else {
        return Err(input.refuse(at, None));
    };
    if let Some(operator) = unary_operator(token.kind) {
        let inner = deeper(room)?;
        let (operand, end) = unary(input, at + 1, inner)?;
        return applied(input, token, operator, operand, end);
    }
    if is_left_paren(token.kind) && is_cast(input, at + 1) {
        return cast(input, token, at + 1, room);
    }
    let (operand, end) = path(input, at, room)?;
    with_step(input, operand, end)
}

/// A cast, from behind its opening parenthesis.
#[cycle(parser)]
fn cast(
    input: &Input,
    token: Token,
    at: usize,
    room: u32,
) -> Result<(Boxed<Expr>, usize), ParseError>
    ensures { Reads input.now.tokens.now at (read.cast_at input.now.text.now room token (drop at input.now.tokens.now)) result }
{
    let inner = deeper(room)?;
    let (target, rest) = type_use(input, at)?;
    let (_, behind) = right_paren(input, rest)?;
    let (operand, end) = unary(input, behind, inner)?;
    Ok((conversion(input.alloc, token.span, target, operand)?, end))
}

/// The operator that is a token, with its operand.
fn applied(
    input: &Input,
    token: Token,
    operator: UnaryOperator,
    operand: Boxed<Expr>,
    end: usize,
) -> Result<(Boxed<Expr>, usize), ParseError>
    ensures { Reads input.now.tokens.now end (read.applied token operator operand (drop end input.now.tokens.now)) result }
{
    if is_step(operator) && !is_target(operand.get()) {
        return Err(input.refuse(end, None));
    }
    Ok((prefixed(input.alloc, token.span, operator, operand)?, end))
}

/// An operand with the `++` or `--` behind it, where one stands there.
fn with_step(
    input: &Input,
    operand: Boxed<Expr>,
    at: usize,
) -> Result<(Boxed<Expr>, usize), ParseError>
    ensures { Reads input.now.tokens.now at (read.stepped operand (drop at input.now.tokens.now)) result }
{
    let Some(token) = input.token(at) else {
        return Ok((operand, at));
    };
    let Some(operator) = postfix_operator(token.kind) else {
        return Ok((operand, at));
    };
    if !is_target(operand.get()) {
        return Err(input.refuse(at, None));
    }
    Ok((stepped(input.alloc, operand, operator)?, at + 1))
}
