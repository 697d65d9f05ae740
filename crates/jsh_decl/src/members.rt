//! The members of classes. Each function reads from the token at a place on, where so many
//! constructs more may stand in one another, and gives the place behind what it read.

ghost use Rattle.std.specs.Prelude.{◌≡◌, drop};
ghost use Rattle.jsh_parse.specs.Reading.{Reads};
ghost use Rattle.jsh_decl.specs.DeclarationReader as reader;
ghost use Rattle.jsh_decl.specs.DeclarationReading as read;

use crate::heads::{body, parameters, result_type};
use crate::modifiers::{Place, modifiers};
use crate::names::names_behind;
use crate::word_input::sees_void;
use crate::words::{ListWord, calls_constructor};
use jsh_parse::{
    Input, ParseError, arguments, brackets, deeper, identifier, is_identifier, is_super,
    left_brace, names_type, right_brace, sees_left_paren, sees_right_brace, sees_semicolon,
    sees_var, semicolon, statements, variable,
};
use jsh_tree::{
    Boxed, ConstructorCall, ConstructorDeclaration, FieldDeclaration, MemberDeclaration,
    MethodDeclaration, ModifierUse, Seq, Variable,
};

/// A method, from behind its modifiers.
pub fn method(
    input: &Input,
    modifiers: Seq<ModifierUse>,
    at: usize,
    room: u32,
) -> Result<(MethodDeclaration, usize), ParseError>
    ensures { Reads input.now.tokens.now at (read.method_at input.now.text.now room modifiers (drop at input.now.tokens.now)) result }
{
    let (returned, rest) = result_type(input, at)?;
    let (name, behind) = identifier(input, rest)?;
    let (parameters, more) = parameters(input, behind)?;
    let (throws, last) = names_behind(input, more, ListWord::Throws)?;
    let (body, end) = body(input, last, room)?;
    let method = MethodDeclaration {
        modifiers,
        result: returned,
        name,
        parameters,
        throws,
        body,
    };
    Ok((method, end))
}

/// Whether a name and an opening parenthesis stand at a place.
fn names_method(input: &Input, at: usize) -> bool
    ensures { result ≡ reader.begins_constructor (drop at input.now.tokens.now) }
{
    match input.token(at) {
        Some(token) => is_identifier(token.kind) && sees_left_paren(input, at + 1),
        None => false,
    }
}

/// Whether a method begins at a place, behind its modifiers.
pub fn begins_method(input: &Input, at: usize) -> bool
    ensures { result ≡ reader.begins_method (drop at input.now.tokens.now) }
{
    if sees_void(input, at) {
        return true;
    }
    let Some(token) = input.token(at) else {
        return false;
    };
    if !names_type(token.kind) {
        return false;
    }
    let (_, behind) = brackets(input, at + 1);
    names_method(input, behind)
}

/// Whether a constructor begins at a place, behind its modifiers.
fn begins_constructor(input: &Input, at: usize) -> bool
    ensures { result ≡ reader.begins_constructor (drop at input.now.tokens.now) }
{
    names_method(input, at)
}

/// The call of another constructor that a constructor may begin with.
fn first_call(
    input: &Input,
    at: usize,
    room: u32,
) -> Result<(Option<ConstructorCall>, usize), ParseError>
    ensures { Reads input.now.tokens.now at (read.first_call_at input.now.text.now room (drop at input.now.tokens.now)) result }
{
    let Some(token) = input.token(at) else {
        return Ok((None, at));
    };
    if !calls_constructor(token.kind) {
        return Ok((None, at));
    }
    if !sees_left_paren(input, at + 1) {
        return Ok((None, at));
    }
    let (arguments, rest) = arguments(input, at + 1, room)?;
    let (_, end) = semicolon(input, rest)?;
    let call = ConstructorCall {
        span: token.span,
        is_super: is_super(token.kind),
        arguments,
    };
    Ok((Some(call), end))
}

/// A constructor, from behind its modifiers.
fn constructor(
    input: &Input,
    modifiers: Seq<ModifierUse>,
    at: usize,
    room: u32,
) -> Result<(Boxed<MemberDeclaration>, usize), ParseError>
    ensures { Reads input.now.tokens.now at (read.constructor_at input.now.text.now room modifiers (drop at input.now.tokens.now)) result }
{
    let inner = deeper(room)?;
    let (name, rest) = identifier(input, at)?;
    let (parameters, behind) = parameters(input, rest)?;
    let (throws, more) = names_behind(input, behind, ListWord::Throws)?;
    let (brace, front) = left_brace(input, more)?;
    let (first, body) = first_call(input, front, inner)?;
    let (statements, last) = statements(input, body, inner)?;
    let (_, end) = right_brace(input, last)?;
    let constructor = ConstructorDeclaration {
        modifiers,
        name,
        parameters,
        throws,
        brace: brace.span,
        first,
        statements,
    };
    let member = Boxed::new(input.alloc, MemberDeclaration::Constructor(constructor))?;
    Ok((member, end))
}

/// A variable as a field, where its type is written, from behind it.
fn field_of(
    input: &Input,
    modifiers: Seq<ModifierUse>,
    variable: Boxed<Variable>,
    at: usize,
) -> Result<(Boxed<MemberDeclaration>, usize), ParseError>
    ensures { Reads input.now.tokens.now at (read.field_of modifiers variable variable.written (drop at input.now.tokens.now)) result }
{
    let Variable {
        written,
        name,
        initial,
    } = variable.into_inner();
    let Some(written) = written else {
        drop(initial);
        return Err(input.refuse(at, None));
    };
    let field = FieldDeclaration {
        modifiers,
        written,
        name,
        initial,
    };
    let member = Boxed::new(input.alloc, MemberDeclaration::Field(field))?;
    Ok((member, at))
}

/// A field, from behind its modifiers.
fn field(
    input: &Input,
    modifiers: Seq<ModifierUse>,
    at: usize,
    room: u32,
) -> Result<(Boxed<MemberDeclaration>, usize), ParseError>
    ensures { Reads input.now.tokens.now at (read.field_at input.now.text.now room modifiers (drop at input.now.tokens.now)) result }
{
    let (variable, rest) = variable(input, at, room)?;
    let (_, end) = semicolon(input, rest)?;
    field_of(input, modifiers, variable, end)
}

/// A member, but not a semicolon by itself, from behind its modifiers.
fn member_behind(
    input: &Input,
    modifiers: Seq<ModifierUse>,
    at: usize,
    room: u32,
) -> Result<(Boxed<MemberDeclaration>, usize), ParseError>
    ensures { Reads input.now.tokens.now at (read.member_behind_at input.now.text.now room modifiers (drop at input.now.tokens.now)) result }
{
    if begins_constructor(input, at) {
        return constructor(input, modifiers, at, room);
    }
    if begins_method(input, at) {
        let (method, end) = method(input, modifiers, at, room)?;
        let member = Boxed::new(input.alloc, MemberDeclaration::Method(method))?;
        return Ok((member, end));
    }
    if sees_var(input, at) {
        return Err(input.refuse(at, None));
    }
    field(input, modifiers, at, room)
}

/// A member with its modifiers.
fn member(
    input: &Input,
    at: usize,
    room: u32,
) -> Result<(Boxed<MemberDeclaration>, usize), ParseError>
    ensures { Reads input.now.tokens.now at (read.member_at input.now.text.now room (drop at input.now.tokens.now)) result }
{
    let (modifiers, rest) = modifiers(input, at, Place::Member)?;
    member_behind(input, modifiers, rest, room)
}

/// Whether no member more stands at a place.
pub fn ends_members(input: &Input, at: usize) -> bool
    ensures { result ≡ read.ends_members (drop at input.now.tokens.now) }
{
    match input.token(at) {
        Some(_) => sees_right_brace(input, at),
        None => true,
    }
}

/// The members of a class, up to its closing brace.
pub fn members(
    input: &Input,
    from: usize,
    room: u32,
) -> Result<(Seq<MemberDeclaration>, usize), ParseError>
    ensures { Reads input.now.tokens.now from (read.members_at input.now.text.now room (drop from input.now.tokens.now)) result }
{
    let mut members = Vec::new(input.alloc);
    let mut at = from;
    let most = input.left(from) + 1;
    for _turn in 0..most {
        if ends_members(input, at) {
            return Ok((Seq::from_vec(members), at));
        }
        // A semicolon by itself declares nothing.
        if sees_semicolon(input, at) {
            at += 1;
            continue;
        }
        let (further, behind) = member(input, at, room)?;
        members.push(further.into_inner())?;
        at = behind;
    }
    Err(input.refuse(at, None))
}
