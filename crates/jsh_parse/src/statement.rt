//! Statements and blocks. Each function reads from the token at a place on, where so many constructs
//! more may stand in one another, and gives the place behind what it read.

ghost use Rattle.std.specs.Prelude.{◌≡◌, ◌+◌, ◌≤◌, drop};
ghost use Rattle.jsh_parse.specs.Reading.{Reads};
ghost use Rattle.jsh_parse.specs.StatementReading as read;

use crate::error::ParseError;
use crate::forms::{Form, form_of};
use crate::heads::{catch_head, each_head, for_head};
use crate::input::{Input, deeper, left_brace, left_paren, right_brace};
use crate::labels::labels;
use crate::locals::{begins_local, condition, is_for_each, local};
use crate::nodes::add;
use crate::simple::{
    break_off, continue_on, empty, expression_statement, return_from, throw_up, tried,
};
use crate::statement_nodes::{
    braced, caught, choice, counted, do_loop, each, grouped, inside_block, selection, while_loop,
};
use crate::word_input::{ends_block, sees_catch, sees_else, sees_label, semicolon, while_word};
use jsh_tree::{Block, BlockStatement, Boxed, CatchClause, Seq, Stmt, SwitchGroup, Token};

#[cycle(statements)]
pub fn stmt(input: &Input, at: usize, room: u32) -> Result<(Boxed<Stmt>, usize), ParseError>
    ensures { Reads input.now.tokens.now at (read.stmt_at input.now.text.now room (drop at input.now.tokens.now)) result }
{
    let Some(token) = input.token(at) else {
        return Err(input.refuse(at, None));
    };
    match form_of(token.kind) {
        Form::Block => block_alone(input, at, room),
        Form::Empty => empty(input, token, at + 1),
        Form::If => branch(input, token, at + 1, room),
        Form::While => looped(input, token, at + 1, room),
        Form::Do => do_while(input, token, at + 1, room),
        Form::For => for_loop(input, token, at + 1, room),
        Form::Switch => switch(input, token, at + 1, room),
        Form::Break => break_off(input, token, at + 1),
        Form::Continue => continue_on(input, token, at + 1),
        Form::Return => return_from(input, token, at + 1, room),
        Form::Throw => throw_up(input, token, at + 1, room),
        Form::Try => try_block(input, token, at + 1, room),
        Form::Expression => expression_statement(input, at, room),
    }
}

/// A block that is a statement.
#[cycle(statements)]
fn block_alone(input: &Input, at: usize, room: u32) -> Result<(Boxed<Stmt>, usize), ParseError>
    ensures { Reads input.now.tokens.now at (read.braced_at input.now.text.now room (drop at input.now.tokens.now)) result }
{
    let (block, end) = block(input, at, room)?;
    Ok((braced(input.alloc, block)?, end))
}

/// An `if`, from behind the word.
#[cycle(statements)]
fn branch(
    input: &Input,
    token: Token,
    at: usize,
    room: u32,
) -> Result<(Boxed<Stmt>, usize), ParseError>
    ensures { Reads input.now.tokens.now at (read.if_at input.now.text.now room token (drop at input.now.tokens.now)) result }
{
    let inner = deeper(room)?;
    let (condition, rest) = condition(input, at, inner)?;
    let (then, behind) = stmt(input, rest, inner)?;
    if !sees_else(input, behind) {
        let tree = choice(input.alloc, token.span, condition, then, None)?;
        return Ok((tree, behind));
    }
    let (otherwise, end) = stmt(input, behind + 1, inner)?;
    let tree = choice(input.alloc, token.span, condition, then, Some(otherwise))?;
    Ok((tree, end))
}

/// A `while`, from behind the word.
#[cycle(statements)]
fn looped(
    input: &Input,
    token: Token,
    at: usize,
    room: u32,
) -> Result<(Boxed<Stmt>, usize), ParseError>
    ensures { Reads input.now.tokens.now at (read.while_at input.now.text.now room token (drop at input.now.tokens.now)) result }
{
    let inner = deeper(room)?;
    let (condition, rest) = condition(input, at, inner)?;
    let (body, end) = stmt(input, rest, inner)?;
    Ok((while_loop(input.alloc, token.span, condition, body)?, end))
}

/// A `do`, from behind the word.
#[cycle(statements)]
fn do_while(
    input: &Input,
    token: Token,
    at: usize,
    room: u32,
) -> Result<(Boxed<Stmt>, usize), ParseError>
    ensures { Reads input.now.tokens.now at (read.do_at input.now.text.now room token (drop at input.now.tokens.now)) result }
{
    let inner = deeper(room)?;
    let (body, rest) = stmt(input, at, inner)?;
    let (_, behind) = while_word(input, rest)?;
    let (condition, more) = condition(input, behind, inner)?;
    let (_, end) = semicolon(input, more)?;
    Ok((do_loop(input.alloc, token.span, body, condition)?, end))
}

/// A `for`, from behind the word.
#[cycle(statements)]
fn for_loop(
    input: &Input,
    token: Token,
    at: usize,
    room: u32,
) -> Result<(Boxed<Stmt>, usize), ParseError>
    ensures { Reads input.now.tokens.now at (read.for_at input.now.text.now room token (drop at input.now.tokens.now)) result }
{
    let inner = deeper(room)?;
    let (_, rest) = left_paren(input, at)?;
    if is_for_each(input, rest) {
        let (head, behind) = each_head(input, rest, inner)?;
        let (body, end) = stmt(input, behind, inner)?;
        return Ok((each(input.alloc, token.span, head, body)?, end));
    }
    let (head, behind) = for_head(input, rest, inner)?;
    let (body, end) = stmt(input, behind, inner)?;
    Ok((counted(input.alloc, token.span, head, body)?, end))
}

/// A `switch`, from behind the word.
#[cycle(statements)]
fn switch(
    input: &Input,
    token: Token,
    at: usize,
    room: u32,
) -> Result<(Boxed<Stmt>, usize), ParseError>
    ensures { Reads input.now.tokens.now at (read.switch_at input.now.text.now room token (drop at input.now.tokens.now)) result }
{
    let inner = deeper(room)?;
    let (selector, rest) = condition(input, at, inner)?;
    let (_, behind) = left_brace(input, rest)?;
    let (groups, more) = groups(input, behind, inner)?;
    let (_, end) = right_brace(input, more)?;
    Ok((selection(input.alloc, token.span, selector, groups)?, end))
}

/// The labels of a `switch` with their statements.
#[cycle(statements)]
fn groups(input: &Input, from: usize, room: u32) -> Result<(Seq<SwitchGroup>, usize), ParseError>
    ensures { Reads input.now.tokens.now from (read.groups_at input.now.text.now room (drop from input.now.tokens.now)) result }
{
    let mut groups = Vec::new(input.alloc);
    let mut at = from;
    let most = input.left(from) + 1;
    for _turn in 0..most {
        if !sees_label(input, at) {
            return Ok((Seq::from_vec(groups), at));
        }
        let (further, behind) = group(input, at, room)?;
        add(&mut groups, further)?;
        at = behind;
    }
    Err(input.refuse(at, None))
}

/// Labels that stand together, with the statements behind them.
#[cycle(statements)]
fn group(input: &Input, at: usize, room: u32) -> Result<(Boxed<SwitchGroup>, usize), ParseError>
    ensures { Reads input.now.tokens.now at (read.group_at input.now.text.now room (drop at input.now.tokens.now)) result }
{
    let (labels, rest) = labels(input, at)?;
    let (statements, end) = statements(input, rest, room)?;
    Ok((grouped(input.alloc, labels, statements)?, end))
}

/// The statements up to a brace or a label.
#[cycle(statements)]
pub fn statements(
    input: &Input,
    from: usize,
    room: u32,
) -> Result<(Seq<BlockStatement>, usize), ParseError>
    ensures { Reads input.now.tokens.now from (read.statements_at input.now.text.now room (drop from input.now.tokens.now)) result }
{
    let mut inside = Vec::new(input.alloc);
    let mut at = from;
    let most = input.left(from) + 1;
    for _turn in 0..most {
        if ends_block(input, at) {
            return Ok((Seq::from_vec(inside), at));
        }
        let (further, behind) = block_statement(input, at, room)?;
        add(&mut inside, further)?;
        at = behind;
    }
    Err(input.refuse(at, None))
}

/// One statement of a block, or a variable of it.
#[cycle(statements)]
fn block_statement(
    input: &Input,
    at: usize,
    room: u32,
) -> Result<(Boxed<BlockStatement>, usize), ParseError>
    ensures { Reads input.now.tokens.now at (read.block_statement_at input.now.text.now room (drop at input.now.tokens.now)) result }
{
    if begins_local(input, at) {
        return local(input, at, room);
    }
    let (tree, end) = stmt(input, at, room)?;
    Ok((inside_block(input.alloc, tree)?, end))
}

#[cycle(statements)]
pub fn block(input: &Input, at: usize, room: u32) -> Result<(Block, usize), ParseError>
    ensures { Reads input.now.tokens.now at (read.block_at input.now.text.now room (drop at input.now.tokens.now)) result }
{
    let (brace, rest) = left_brace(input, at)?;
    let inner = deeper(room)?;
    let (statements, behind) = statements(input, rest, inner)?;
    let (_, end) = right_brace(input, behind)?;
    let span = brace.span;
    Ok((Block { span, statements }, end))
}

/// A `try`, from behind the word.
#[cycle(statements)]
fn try_block(
    input: &Input,
    token: Token,
    at: usize,
    room: u32,
) -> Result<(Boxed<Stmt>, usize), ParseError>
    ensures { Reads input.now.tokens.now at (read.try_at input.now.text.now room token (drop at input.now.tokens.now)) result }
{
    let (block, rest) = block(input, at, room)?;
    let (catches, end) = catches(input, rest, room)?;
    tried(input, token, block, catches, end)
}

/// What catches the exceptions of a block.
#[cycle(statements)]
fn catches(input: &Input, from: usize, room: u32) -> Result<(Seq<CatchClause>, usize), ParseError>
    ensures { Reads input.now.tokens.now from (read.catches_at input.now.text.now room (drop from input.now.tokens.now)) result }
{
    let mut catches = Vec::new(input.alloc);
    let mut at = from;
    let most = input.left(from) + 1;
    for _turn in 0..most {
        if !sees_catch(input, at) {
            return Ok((Seq::from_vec(catches), at));
        }
        let (further, behind) = catch(input, at, room)?;
        add(&mut catches, further)?;
        at = behind;
    }
    Err(input.refuse(at, None))
}

/// One `catch`.
#[cycle(statements)]
fn catch(input: &Input, at: usize, room: u32) -> Result<(Boxed<CatchClause>, usize), ParseError>
    ensures { Reads input.now.tokens.now at (read.catch_at input.now.text.now room (drop at input.now.tokens.now)) result }
{
    let (head, rest) = catch_head(input, at)?;
    let (block, end) = block(input, rest, room)?;
    Ok((caught(input.alloc, head, block)?, end))
}
