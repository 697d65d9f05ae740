//! Snippets: imports, declarations, statements and expressions.

ghost use Rattle.std.specs.Prelude.{◌≡◌, drop};
ghost use Rattle.jsh_parse.specs.Reading.{Reads};
ghost use Rattle.jsh_decl.specs.DeclarationReader as reader;
ghost use Rattle.jsh_decl.specs.DeclarationReading as read;

use crate::members::{begins_method, method};
use crate::modifiers::{Place, modifiers};
use crate::names::import;
use crate::types::{class, interface};
use crate::word_input::{sees_class, sees_interface};
use crate::words::{is_class, is_import, is_interface, is_void};
use jsh_parse::{
    Form, Input, ParseError, block, brackets, expr, form_of, is_identifier, is_primitive, is_var,
    sees_identifier, semicolon, stmt, variable,
};
use jsh_tree::{Boxed, ModifierUse, Seq, TokenKind, Tree};

/// A method with a block, from behind its modifiers.
fn whole_method(
    input: &Input,
    modifiers: Seq<ModifierUse>,
    at: usize,
    room: u32,
) -> Result<(Boxed<Tree>, usize), ParseError>
    ensures { Reads input.now.tokens.now at (read.whole_method_at input.now.text.now room modifiers (drop at input.now.tokens.now)) result }
{
    let (method, end) = method(input, modifiers, at, room)?;
    if method.body.is_none() {
        return Err(input.refuse(end, Some(TokenKind::LeftBrace)));
    }
    Ok((Boxed::new(input.alloc, Tree::Method(method))?, end))
}

/// A variable with its semicolon, from behind its modifiers.
fn variable_declaration(
    input: &Input,
    modifiers: Seq<ModifierUse>,
    at: usize,
    room: u32,
) -> Result<(Boxed<Tree>, usize), ParseError>
    ensures { Reads input.now.tokens.now at (read.variable_declaration_at input.now.text.now room modifiers (drop at input.now.tokens.now)) result }
{
    let (variable, behind) = variable(input, at, room)?;
    let (_, end) = semicolon(input, behind)?;
    let variable = variable.into_inner();
    let declared = Tree::Variable {
        modifiers,
        variable,
    };
    Ok((Boxed::new(input.alloc, declared)?, end))
}

/// A class, an interface, a method or a variable, from behind its modifiers.
fn declaration(
    input: &Input,
    modifiers: Seq<ModifierUse>,
    at: usize,
    room: u32,
) -> Result<(Boxed<Tree>, usize), ParseError>
    ensures { Reads input.now.tokens.now at (read.declaration_at input.now.text.now room modifiers (drop at input.now.tokens.now)) result }
{
    if sees_class(input, at) {
        let (class, end) = class(input, modifiers, at + 1, room)?;
        return Ok((Boxed::new(input.alloc, Tree::Class(class))?, end));
    }
    if sees_interface(input, at) {
        let (interface, end) = interface(input, modifiers, at + 1, room)?;
        return Ok((Boxed::new(input.alloc, Tree::Interface(interface))?, end));
    }
    if begins_method(input, at) {
        return whole_method(input, modifiers, at, room);
    }
    variable_declaration(input, modifiers, at, room)
}

/// Whether a declaration without modifiers begins at a place.
fn begins_declaration(input: &Input, at: usize) -> bool
    ensures { result ≡ reader.begins_declaration (drop at input.now.tokens.now) }
{
    let Some(token) = input.token(at) else {
        return false;
    };
    let kind = token.kind;
    if is_class(kind) || is_interface(kind) || is_void(kind) || is_var(kind) || is_primitive(kind) {
        return true;
    }
    if !is_identifier(kind) {
        return false;
    }
    let (_, behind) = brackets(input, at + 1);
    sees_identifier(input, behind)
}

/// An expression with its semicolon.
fn expression(input: &Input, at: usize, room: u32) -> Result<(Boxed<Tree>, usize), ParseError>
    ensures { Reads input.now.tokens.now at (read.expression_at input.now.text.now room (drop at input.now.tokens.now)) result }
{
    let (tree, rest) = expr(input, at, room)?;
    let (_, end) = semicolon(input, rest)?;
    let tree = Tree::Expression(tree.into_inner());
    Ok((Boxed::new(input.alloc, tree)?, end))
}

/// A block that is a snippet.
fn braced(input: &Input, at: usize, room: u32) -> Result<(Boxed<Tree>, usize), ParseError>
    ensures { Reads input.now.tokens.now at (read.braced_at input.now.text.now room (drop at input.now.tokens.now)) result }
{
    let (block, end) = block(input, at, room)?;
    Ok((Boxed::new(input.alloc, Tree::Block(block))?, end))
}

/// Any other statement.
fn other(input: &Input, at: usize, room: u32) -> Result<(Boxed<Tree>, usize), ParseError>
    ensures { Reads input.now.tokens.now at (read.other_at input.now.text.now room (drop at input.now.tokens.now)) result }
{
    let (tree, end) = stmt(input, at, room)?;
    let tree = Tree::Statement(tree.into_inner());
    Ok((Boxed::new(input.alloc, tree)?, end))
}

/// A statement, a block or an expression.
fn statement(input: &Input, at: usize, room: u32) -> Result<(Boxed<Tree>, usize), ParseError>
    ensures { Reads input.now.tokens.now at (read.statement_at input.now.text.now room (drop at input.now.tokens.now)) result }
{
    let Some(token) = input.token(at) else {
        return Err(input.refuse(at, None));
    };
    match form_of(token.kind) {
        Form::Expression => expression(input, at, room),
        Form::Block => braced(input, at, room),
        _ => other(input, at, room),
    }
}

pub fn snippet(input: &Input, at: usize, room: u32) -> Result<(Boxed<Tree>, usize), ParseError>
    ensures { Reads input.now.tokens.now at (reader.snippet_at input.now.text.now room (drop at input.now.tokens.now)) result }
{
    let Some(token) = input.token(at) else {
        return Err(input.refuse(at, None));
    };
    if is_import(token.kind) {
        let (import, end) = import(input, token, at + 1)?;
        return Ok((Boxed::new(input.alloc, Tree::Import(import))?, end));
    }
    let (modifiers, rest) = modifiers(input, at, Place::Snippet)?;
    if !modifiers.is_empty() {
        return declaration(input, modifiers, rest, room);
    }
    if begins_declaration(input, rest) {
        return declaration(input, modifiers, rest, room);
    }
    statement(input, rest, room)
}
