//! Variables, and the expressions that statements have.

ghost use Rattle.std.specs.Prelude.{◌≡◌, ◌≤◌, Some, None, [], ◌∷◌, drop, IfOk};
ghost use Rattle.jsh_tree.specs.declared.statement.BlockStatement.TheVariants as block_statement;
ghost use Rattle.jsh_parse.specs.Statements as grammar;
ghost use Rattle.jsh_parse.specs.Reading.{Reads};
ghost use Rattle.jsh_parse.specs.StatementReader as reader;
ghost use Rattle.jsh_parse.specs.StatementReading as read;

use crate::error::ParseError;
use crate::expression::expr;
use crate::input::{Input, left_paren, right_paren};
use crate::leaves::{brackets, identifier, is_step, type_use};
use crate::list::initial;
use crate::marks::{is_identifier, is_primitive, names_type};
use crate::statement_nodes::{local_variable, start_of};
use crate::word_input::{
    assign, sees_assign, sees_colon, sees_identifier, sees_right_paren, sees_semicolon, sees_var,
    semicolon,
};
use crate::words::{is_final, is_var};
use jsh_tree::{
    BlockStatement, Boxed, Expr, ForStart, Identifier, Initial, PathPart, Span, TypeUse, Variable,
};
use std::alloc::{AllocError, Global};

/// Whether the word `final` stands at a place, and the place behind it.
pub fn final_word(input: &Input, at: usize) -> (bool, usize)
    ensures value { result.0 ≡ (reader.final_read (drop at input.now.tokens.now)).0 }
    ensures rest { drop result.1 input.now.tokens.now ≡ (reader.final_read (drop at input.now.tokens.now)).1 }
    ensures forward { at ≤ result.1 }
{
    match input.token(at) {
        Some(token) if is_final(token.kind) => (true, at + 1),
        _ => (false, at),
    }
}

/// Where the token at a place stands, or the front of the text where there is none.
fn span_at(input: &Input, at: usize) -> Span
    ensures { result ≡ grammar.first_span (drop at input.now.tokens.now) }
{
    match input.token(at) {
        Some(token) => token.span,
        None => Span { from: 0, to: 0 },
    }
}

/// Whether the declaration of a local begins at a place.
pub fn begins_local(input: &Input, at: usize) -> bool
    ensures { result ≡ reader.begins_local (drop at input.now.tokens.now) }
{
    let Some(token) = input.token(at) else {
        return false;
    };
    if is_final(token.kind) || is_var(token.kind) || is_primitive(token.kind) {
        return true;
    }
    if !is_identifier(token.kind) {
        return false;
    }
    let (_, behind) = brackets(input, at + 1);
    sees_identifier(input, behind)
}

/// Whether a name and a colon stand at a place.
fn names_element(input: &Input, at: usize) -> bool
    ensures { result ≡ read.names_element (drop at input.now.tokens.now) }
{
    match input.token(at) {
        Some(token) => is_identifier(token.kind) && sees_colon(input, at + 1),
        None => false,
    }
}

/// Whether a variable that goes over elements stands at a place.
pub fn is_for_each(input: &Input, at: usize) -> bool
    ensures { result ≡ reader.is_for_each (drop at input.now.tokens.now) }
{
    let (_, rest) = final_word(input, at);
    let Some(token) = input.token(rest) else {
        return false;
    };
    if is_var(token.kind) {
        return names_element(input, rest + 1);
    }
    if !names_type(token.kind) {
        return false;
    }
    let (_, behind) = brackets(input, rest + 1);
    names_element(input, behind)
}

fn is_call(part: &PathPart) -> bool
    ensures { result ≡ grammar.ends_in_call (part.now ∷ []) }
{
    match part {
        PathPart::Call { .. } => true,
        PathPart::Field(_) | PathPart::Index(_) => false,
    }
}

fn ends_in_call(parts: &[PathPart]) -> bool
    ensures { result ≡ grammar.ends_in_call parts.now }
{
    match parts {
        [.., last] => is_call(last),
        [] => false,
    }
}

/// Whether the expression may be a statement: an assignment, a step, a call or a new object
/// (JLS 14.8).
pub fn is_statement(tree: &Expr) -> bool
    ensures { result ≡ grammar.is_statement tree.now }
{
    match tree {
        Expr::Assign { .. }
        | Expr::Postfix { .. }
        | Expr::Call { .. }
        | Expr::SuperCall { .. }
        | Expr::New { .. } => true,
        Expr::Unary { operator, .. } => is_step(*operator),
        Expr::Path { parts, .. } => ends_in_call(parts.as_slice()),
        _ => false,
    }
}

fn declared(
    alloc: Global,
    written: Option<TypeUse>,
    name: Identifier,
    initial: Option<Initial>,
) -> Result<Boxed<Variable>, AllocError>
    ensures { IfOk result (λ variable. variable ≡ record { written = written; name = name; initial = initial }) }
{
    Boxed::new(
        alloc,
        Variable {
            written,
            name,
            initial,
        },
    )
}

/// A variable, without its `final`.
pub fn variable(input: &Input, at: usize, room: u32) -> Result<(Boxed<Variable>, usize), ParseError>
    ensures { Reads input.now.tokens.now at (read.variable_at input.now.text.now room (drop at input.now.tokens.now)) result }
{
    if sees_var(input, at) {
        return inferred(input, at + 1, room);
    }
    let (written, rest) = type_use(input, at)?;
    let (name, behind) = identifier(input, rest)?;
    if !sees_assign(input, behind) {
        let variable = declared(input.alloc, Some(written), name, None)?;
        return Ok((variable, behind));
    }
    let (value, end) = initial(input, behind + 1, room)?;
    let value = value.into_inner();
    let variable = declared(input.alloc, Some(written), name, Some(value))?;
    Ok((variable, end))
}

/// A variable whose type is that of its value, from behind the word `var`.
fn inferred(input: &Input, at: usize, room: u32) -> Result<(Boxed<Variable>, usize), ParseError>
    ensures { Reads input.now.tokens.now at (read.inferred_at input.now.text.now room (drop at input.now.tokens.now)) result }
{
    let (name, rest) = identifier(input, at)?;
    let (_, behind) = assign(input, rest)?;
    let (value, end) = expr(input, behind, room)?;
    let initial = Initial::Value(value.into_inner());
    let variable = declared(input.alloc, None, name, Some(initial))?;
    Ok((variable, end))
}

/// A variable of a block, with its semicolon.
pub fn local(
    input: &Input,
    at: usize,
    room: u32,
) -> Result<(Boxed<BlockStatement>, usize), ParseError>
    ensures { Reads input.now.tokens.now at (read.local_at input.now.text.now room (drop at input.now.tokens.now)) result }
{
    let span = span_at(input, at);
    let (is_final, rest) = final_word(input, at);
    let (variable, behind) = variable(input, rest, room)?;
    let (_, end) = semicolon(input, behind)?;
    Ok((local_variable(input.alloc, span, is_final, variable)?, end))
}

/// An expression, or nothing where a semicolon stands.
pub fn optional(
    input: &Input,
    at: usize,
    room: u32,
) -> Result<(Option<Boxed<Expr>>, usize), ParseError>
    ensures { Reads input.now.tokens.now at (read.optional_at input.now.text.now room (drop at input.now.tokens.now)) result }
{
    if sees_semicolon(input, at) {
        return Ok((None, at));
    }
    let (tree, end) = expr(input, at, room)?;
    Ok((Some(tree), end))
}

/// An expression that may be a statement, or nothing where a closing parenthesis stands.
pub fn update(
    input: &Input,
    at: usize,
    room: u32,
) -> Result<(Option<Boxed<Expr>>, usize), ParseError>
    ensures { Reads input.now.tokens.now at (read.update_at input.now.text.now room (drop at input.now.tokens.now)) result }
{
    if sees_right_paren(input, at) {
        return Ok((None, at));
    }
    let (tree, end) = expr(input, at, room)?;
    if !is_statement(tree.get()) {
        return Err(input.refuse(end, None));
    }
    Ok((Some(tree), end))
}

/// What a `for` begins with, up to its first semicolon.
pub fn for_start(
    input: &Input,
    at: usize,
    room: u32,
) -> Result<(Boxed<ForStart>, usize), ParseError>
    ensures { Reads input.now.tokens.now at (read.start_at input.now.text.now room (drop at input.now.tokens.now)) result }
{
    if sees_semicolon(input, at) {
        return Ok((Boxed::new(input.alloc, ForStart::Nothing)?, at));
    }
    if begins_local(input, at) {
        let span = span_at(input, at);
        let (is_final, rest) = final_word(input, at);
        let (variable, end) = variable(input, rest, room)?;
        let start = start_of(input.alloc, span, is_final, variable)?;
        return Ok((start, end));
    }
    let (tree, end) = expr(input, at, room)?;
    if !is_statement(tree.get()) {
        return Err(input.refuse(end, None));
    }
    let start = Boxed::new(input.alloc, ForStart::Expression(tree.into_inner()))?;
    Ok((start, end))
}

/// An expression in parentheses.
pub fn condition(input: &Input, at: usize, room: u32) -> Result<(Boxed<Expr>, usize), ParseError>
    ensures { Reads input.now.tokens.now at (read.condition_at input.now.text.now room (drop at input.now.tokens.now)) result }
{
    let (_, rest) = left_paren(input, at)?;
    let (tree, behind) = expr(input, rest, room)?;
    let (_, end) = right_paren(input, behind)?;
    Ok((tree, end))
}
