//! Classes and interfaces.

ghost use Rattle.std.specs.Prelude.{◌≡◌, drop};
ghost use Rattle.jsh_parse.specs.Reading.{Reads};
ghost use Rattle.jsh_decl.specs.DeclarationReading as read;

use crate::members::{ends_members, members, method};
use crate::modifiers::{Place, modifiers};
use crate::names::{names_behind, superclass};
use crate::words::ListWord;
use jsh_parse::{Input, ParseError, deeper, identifier, left_brace, right_brace};
use jsh_tree::{
    ClassDeclaration, InterfaceDeclaration, MethodDeclaration, ModifierUse, Seq, TokenKind,
};

/// A class, from behind its word.
pub fn class(
    input: &Input,
    modifiers: Seq<ModifierUse>,
    at: usize,
    room: u32,
) -> Result<(ClassDeclaration, usize), ParseError>
    ensures { Reads input.now.tokens.now at (read.class_at input.now.text.now room modifiers (drop at input.now.tokens.now)) result }
{
    let inner = deeper(room)?;
    let (name, rest) = identifier(input, at)?;
    let (extends, behind) = superclass(input, rest)?;
    let (implements, more) = names_behind(input, behind, ListWord::Implements)?;
    let (_, front) = left_brace(input, more)?;
    let (members, last) = members(input, front, inner)?;
    let (_, end) = right_brace(input, last)?;
    let class = ClassDeclaration {
        modifiers,
        name,
        extends,
        implements,
        members,
    };
    Ok((class, end))
}

/// A method of an interface, with its modifiers.
fn interface_method(
    input: &Input,
    at: usize,
    room: u32,
) -> Result<(MethodDeclaration, usize), ParseError>
    ensures { Reads input.now.tokens.now at (read.interface_method_at input.now.text.now room (drop at input.now.tokens.now)) result }
{
    let (modifiers, rest) = modifiers(input, at, Place::Interface)?;
    let (method, end) = method(input, modifiers, rest, room)?;
    if method.body.is_some() {
        return Err(input.refuse(end, Some(TokenKind::Semicolon)));
    }
    Ok((method, end))
}

/// The methods of an interface, up to its closing brace.
fn interface_methods(
    input: &Input,
    from: usize,
    room: u32,
) -> Result<(Seq<MethodDeclaration>, usize), ParseError>
    ensures { Reads input.now.tokens.now from (read.interface_methods_at input.now.text.now room (drop from input.now.tokens.now)) result }
{
    let mut methods = Vec::new(input.alloc);
    let mut at = from;
    let most = input.left(from) + 1;
    for _turn in 0..most {
        if ends_members(input, at) {
            return Ok((Seq::from_vec(methods), at));
        }
        let (further, behind) = interface_method(input, at, room)?;
        methods.push(further)?;
        at = behind;
    }
    Err(input.refuse(at, None))
}

/// An interface, from behind its word.
pub fn interface(
    input: &Input,
    modifiers: Seq<ModifierUse>,
    at: usize,
    room: u32,
) -> Result<(InterfaceDeclaration, usize), ParseError>
    ensures { Reads input.now.tokens.now at (read.interface_at input.now.text.now room modifiers (drop at input.now.tokens.now)) result }
{
    let inner = deeper(room)?;
    let (name, rest) = identifier(input, at)?;
    let (extends, behind) = names_behind(input, rest, ListWord::Extends)?;
    let (_, front) = left_brace(input, behind)?;
    let (methods, last) = interface_methods(input, front, inner)?;
    let (_, end) = right_brace(input, last)?;
    let interface = InterfaceDeclaration {
        modifiers,
        name,
        extends,
        methods,
    };
    Ok((interface, end))
}
