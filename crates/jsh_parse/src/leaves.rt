//! Literals, names and types.

ghost use Rattle.std.specs.Prelude.{◌≡◌, ◌+◌, ◌*◌, ◌<◌, ◌≤◌, ◌⊎◌, [], ◌∷◌, length, drop, IfOk};
ghost use Rattle.jsh_tree.specs.declared.token.TokenKind.TheVariants as kinds;
ghost use Rattle.std.specs.Option.{option_map};
ghost use Rattle.jsh_tree.specs.declared.expression.Expr.TheVariants as tree;
ghost use Rattle.jsh_parse.specs.Leaves as spec;
ghost use Rattle.jsh_parse.specs.Marks as marks;
ghost use Rattle.jsh_parse.specs.Reader as reader;
ghost use Rattle.jsh_parse.specs.Reading.{Reads, IsWithin, name_read};

use crate::error::ParseError;
use crate::input::{Input, sees_brackets};
use crate::marks::{begins_operand, is_identifier, is_primitive, is_right_paren, names_type};
use jsh_lex::{char_value, int_value, long_value, needs_minus, string_value};
use jsh_tree::{
    Boxed, Expr, Identifier, Literal, Name, PathPart, Seq, Token, TokenKind, TypeUse, TypeWritten,
    UnaryOperator,
};
use std::alloc::{AllocError, Global};

/// The bytes of a token.
fn spelling(text: &str, token: Token) -> &str
    requires { IsWithin text.now token }
    ensures { result.now ≡ spec.spelling text.now token }
{
    &text[token.span.from as usize..token.span.to as usize]
}

fn int_literal(bytes: &str) -> Option<Literal>
    ensures { result ≡ spec.value_of_kind kinds.IntLiteral bytes.now }
{
    Some(Literal::Int {
        value: int_value(bytes)?,
        needs_minus: needs_minus(bytes),
    })
}

fn long_literal(bytes: &str) -> Option<Literal>
    ensures { result ≡ spec.value_of_kind kinds.LongLiteral bytes.now }
{
    Some(Literal::Long {
        value: long_value(bytes)?,
        needs_minus: needs_minus(bytes),
    })
}

fn text_literal(alloc: Global, bytes: &str) -> Result<Option<Literal>, AllocError>
    ensures { IfOk result (λ literal. literal ≡ spec.value_of_kind kinds.StringLiteral bytes.now) }
{
    match string_value(alloc, bytes)? {
        Some(units) => Ok(Some(Literal::Text(Seq::from_vec(units)))),
        None => Ok(None),
    }
}

fn value_of_kind(alloc: Global, kind: TokenKind, bytes: &str) -> Result<Option<Literal>, AllocError>
    ensures { IfOk result (λ literal. literal ≡ spec.value_of_kind kind bytes.now) }
{
    Ok(match kind {
        TokenKind::IntLiteral => int_literal(bytes),
        TokenKind::LongLiteral => long_literal(bytes),
        TokenKind::CharLiteral => char_value(bytes).map(|unit| Literal::Char(unit)),
        TokenKind::StringLiteral => text_literal(alloc, bytes)?,
        TokenKind::True => Some(Literal::Boolean(true)),
        TokenKind::False => Some(Literal::Boolean(false)),
        TokenKind::Null => Some(Literal::Null),
        _ => None,
    })
}

/// The literal that a token is, where it is one.
pub fn literal_of(input: &Input, token: Token) -> Result<Option<Literal>, AllocError>
    requires { IsWithin input.now.text.now token }
    ensures { IfOk result (λ literal. literal ≡ spec.literal_of input.now.text.now token) }
{
    value_of_kind(input.alloc, token.kind, spelling(input.text, token))
}

/// The tree of a token that is a literal.
pub fn literal(input: &Input, token: Token) -> Result<Option<Boxed<Expr>>, AllocError>
    requires { IsWithin input.now.text.now token }
    ensures { IfOk result (λ found. found ≡ option_map (λ value. tree.Literal token.span value) (spec.literal_of input.now.text.now token)) }
{
    let Some(literal) = literal_of(input, token)? else {
        return Ok(None);
    };
    let span = token.span;
    Ok(Some(Boxed::new(input.alloc, Expr::Literal { span, literal })?))
}

pub fn identifier_of(input: &Input, token: Token) -> Result<Identifier, AllocError>
    requires { IsWithin input.now.text.now token }
    ensures { IfOk result (λ name. name ≡ spec.identifier_of input.now.text.now token) }
{
    Ok(Identifier {
        name: Name::from_text(input.alloc, spelling(input.text, token))?,
        span: token.span,
    })
}

/// A type with the name that a token is, and so many pairs of brackets.
pub fn type_of(input: &Input, token: Token, dims: u32) -> Result<TypeUse, AllocError>
    requires { IsWithin input.now.text.now token }
    ensures { IfOk result (λ named. named ≡ spec.type_of input.now.text.now token dims) }
{
    Ok(TypeUse {
        written: TypeWritten {
            name: Name::from_text(input.alloc, spelling(input.text, token))?,
            dims,
        },
        span: token.span,
    })
}

pub fn identifier(input: &Input, at: usize) -> Result<(Identifier, usize), ParseError>
    ensures { Reads input.now.tokens.now at (name_read input.now.text.now (drop at input.now.tokens.now)) result }
{
    match input.token(at) {
        Some(token) if is_identifier(token.kind) => Ok((identifier_of(input, token)?, at + 1)),
        _ => Err(input.refuse(at, Some(TokenKind::Identifier))),
    }
}

/// The token that names a type.
pub fn type_name(input: &Input, at: usize) -> Result<(Token, usize), ParseError>
    ensures value { Reads input.now.tokens.now at (reader.accept spec.names_type (drop at input.now.tokens.now)) result }
    ensures within { IfOk result (λ found. IsWithin input.now.text.now found.0) }
    ensures forward { IfOk result (λ found. at < found.1) }
{
    match input.token(at) {
        Some(token) if names_type(token.kind) => Ok((token, at + 1)),
        _ => Err(input.refuse(at, Some(TokenKind::Identifier))),
    }
}

/// How many empty pairs of brackets stand at a place, and the place behind them.
pub fn brackets(input: &Input, from: usize) -> (u32, usize)
    ensures dims { result.0 ≡ (reader.brackets (drop from input.now.tokens.now)).0 }
    ensures rest { drop result.1 input.now.tokens.now ≡ (reader.brackets (drop from input.now.tokens.now)).1 }
    ensures forward { result.1 ≡ from + 2 * result.0 }
    ensures inside { (result.0 ≡ 0) ⊎ (result.1 ≤ length input.now.tokens.now) }
{
    let mut dims = 0;
    let mut at = from;
    while sees_brackets(input, at) {
        dims += 1;
        at += 2;
    }
    (dims, at)
}

pub fn type_use(input: &Input, at: usize) -> Result<(TypeUse, usize), ParseError>
    ensures { Reads input.now.tokens.now at (reader.type_read input.now.text.now (drop at input.now.tokens.now)) result }
{
    let (name, behind) = type_name(input, at)?;
    let (dims, end) = brackets(input, behind);
    Ok((type_of(input, name, dims)?, end))
}

/// Whether a cast goes on at a place behind its opening parenthesis.
pub fn is_cast(input: &Input, at: usize) -> bool
    ensures { result ≡ reader.is_cast (drop at input.now.tokens.now) }
{
    let Some(name) = input.token(at) else {
        return false;
    };
    if !names_type(name.kind) {
        return false;
    }
    let (_, behind) = brackets(input, at + 1);
    let Some(close) = input.token(behind) else {
        return false;
    };
    if !is_right_paren(close.kind) {
        return false;
    }
    if is_primitive(name.kind) {
        return true;
    }
    match input.token(behind + 1) {
        Some(token) => begins_operand(token.kind),
        None => false,
    }
}

/// Whether the operator changes its operand.
pub fn is_step(operator: UnaryOperator) -> bool
    ensures { result ≡ spec.is_step operator }
{
    matches!(
        operator,
        UnaryOperator::Increment | UnaryOperator::Decrement
    )
}

fn is_place(part: &PathPart) -> bool
    ensures { result ≡ spec.ends_in_place (part.now ∷ []) }
{
    match part {
        PathPart::Field(_) | PathPart::Index(_) => true,
        PathPart::Call { .. } => false,
    }
}

fn ends_in_place(parts: &[PathPart]) -> bool
    ensures { result ≡ spec.ends_in_place parts.now }
{
    match parts {
        [.., last] => is_place(last),
        [] => false,
    }
}

/// Whether the expression may be assigned to: a name, a field or an element (JLS 15.26).
pub fn is_target(tree: &Expr) -> bool
    ensures { result ≡ spec.is_target tree.now }
{
    match tree {
        Expr::Name(_) => true,
        Expr::Path { parts, .. } => ends_in_place(parts.as_slice()),
        _ => false,
    }
}
