//! Statements in which no others stand.

ghost use Rattle.std.specs.Prelude.{◌≡◌, ◌+◌, ◌≤◌, Some, drop};
ghost use Rattle.jsh_tree.specs.declared.statement.Stmt.TheVariants as statement;
ghost use Rattle.jsh_parse.specs.Reading.{Reads};
ghost use Rattle.jsh_parse.specs.StatementReader as reader;
ghost use Rattle.jsh_parse.specs.StatementReading as read;

use crate::error::ParseError;
use crate::expression::expr;
use crate::input::Input;
use crate::locals::{is_statement, optional};
use crate::statement_nodes::{alone, guarded, returned, thrown};
use crate::word_input::semicolon;
use jsh_tree::{Block, Boxed, CatchClause, Seq, Stmt, Token, TokenKind};

/// The statement that is a semicolon alone, from behind it.
pub fn empty(input: &Input, token: Token, at: usize) -> Result<(Boxed<Stmt>, usize), ParseError>
    ensures { Reads input.now.tokens.now at (Some (statement.Empty token.span, drop at input.now.tokens.now)) result }
{
    let tree = Boxed::new(input.alloc, Stmt::Empty { span: token.span })?;
    Ok((tree, at))
}

/// An expression with its semicolon.
pub fn expression_statement(
    input: &Input,
    at: usize,
    room: u32,
) -> Result<(Boxed<Stmt>, usize), ParseError>
    ensures { Reads input.now.tokens.now at (read.expression_at input.now.text.now room (drop at input.now.tokens.now)) result }
{
    let (tree, behind) = expr(input, at, room)?;
    if !is_statement(tree.get()) {
        return Err(input.refuse(behind, None));
    }
    let (_, end) = semicolon(input, behind)?;
    Ok((alone(input.alloc, tree)?, end))
}

/// A `break`, from behind the word.
pub fn break_off(input: &Input, token: Token, at: usize) -> Result<(Boxed<Stmt>, usize), ParseError>
    ensures { Reads input.now.tokens.now at (reader.jump_read (statement.Break token.span) (drop at input.now.tokens.now)) result }
{
    let (_, end) = semicolon(input, at)?;
    let tree = Boxed::new(input.alloc, Stmt::Break { span: token.span })?;
    Ok((tree, end))
}

/// A `continue`, from behind the word.
pub fn continue_on(
    input: &Input,
    token: Token,
    at: usize,
) -> Result<(Boxed<Stmt>, usize), ParseError>
    ensures { Reads input.now.tokens.now at (reader.jump_read (statement.Continue token.span) (drop at input.now.tokens.now)) result }
{
    let (_, end) = semicolon(input, at)?;
    let tree = Boxed::new(input.alloc, Stmt::Continue { span: token.span })?;
    Ok((tree, end))
}

/// A `return`, from behind the word.
pub fn return_from(
    input: &Input,
    token: Token,
    at: usize,
    room: u32,
) -> Result<(Boxed<Stmt>, usize), ParseError>
    ensures { Reads input.now.tokens.now at (read.return_at input.now.text.now room token (drop at input.now.tokens.now)) result }
{
    let (value, behind) = optional(input, at, room)?;
    let (_, end) = semicolon(input, behind)?;
    Ok((returned(input.alloc, token.span, value)?, end))
}

/// A `throw`, from behind the word.
pub fn throw_up(
    input: &Input,
    token: Token,
    at: usize,
    room: u32,
) -> Result<(Boxed<Stmt>, usize), ParseError>
    ensures { Reads input.now.tokens.now at (read.throw_at input.now.text.now room token (drop at input.now.tokens.now)) result }
{
    let (value, behind) = expr(input, at, room)?;
    let (_, end) = semicolon(input, behind)?;
    Ok((thrown(input.alloc, token.span, value)?, end))
}

/// A block with what catches its exceptions, from behind them.
pub fn tried(
    input: &Input,
    token: Token,
    block: Block,
    catches: Seq<CatchClause>,
    at: usize,
) -> Result<(Boxed<Stmt>, usize), ParseError>
    ensures { Reads input.now.tokens.now at (read.tried token block catches (drop at input.now.tokens.now)) result }
{
    if catches.is_empty() {
        return Err(input.refuse(at, Some(TokenKind::Catch)));
    }
    Ok((guarded(input.alloc, token.span, block, catches)?, at))
}
