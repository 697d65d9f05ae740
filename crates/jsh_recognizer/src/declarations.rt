//! The moves of frames of snippets.

ghost use Rattle.std.specs.Prelude.{◌≤◌, ◌^◌};
ghost use Rattle.jsh_recognizer.specs.Machine as machine;
ghost use Rattle.jsh_recognizer.specs.Stacks.{frames_of, HasRoom, Does};

use crate::answer::{Answer, goes, takes};
use crate::classes::{
    begins_declaration, begins_statement, is_interface_modifier, is_member_modifier, is_modifier,
    is_primitive, is_same_word,
};
use crate::frame::{Context, Ending, Frame};
use crate::fresh::Fresh;
use crate::operands::{begins_inside, path_inside};
use crate::statements::{statement, statements};
use jsh_tree::TokenKind;

pub fn import_name(fresh: &mut Fresh, depth: u64, kind: TokenKind) -> Answer
    requires fits { depth ≤ 2 ^ 32 }
    requires room { HasRoom 8 fresh.now }
    ensures { Does depth (machine.import_name kind) (frames_of fresh.old) (frames_of fresh.new) result }
{
    match kind {
        TokenKind::Static => goes(
            fresh,
            depth,
            &[
                Frame::Expect(TokenKind::Identifier),
                Frame::Expect(TokenKind::Dot),
                Frame::DottedName,
            ],
        ),
        TokenKind::Identifier => goes(
            fresh,
            depth,
            &[Frame::Expect(TokenKind::Dot), Frame::DottedName],
        ),
        _ => Answer::Refused,
    }
}

pub fn dotted_name(fresh: &mut Fresh, depth: u64, kind: TokenKind) -> Answer
    requires fits { depth ≤ 2 ^ 32 }
    requires room { HasRoom 8 fresh.now }
    ensures { Does depth (machine.dotted_name kind) (frames_of fresh.old) (frames_of fresh.new) result }
{
    match kind {
        TokenKind::Identifier => goes(fresh, depth, &[Frame::MoreDotted]),
        TokenKind::Star => goes(fresh, depth, &[Frame::Expect(TokenKind::Semicolon)]),
        _ => Answer::Refused,
    }
}

pub fn more_dotted(fresh: &mut Fresh, depth: u64, kind: TokenKind) -> Answer
    requires fits { depth ≤ 2 ^ 32 }
    requires room { HasRoom 8 fresh.now }
    ensures { Does depth (machine.more_dotted kind) (frames_of fresh.old) (frames_of fresh.new) result }
{
    match kind {
        TokenKind::Dot => goes(fresh, depth, &[Frame::DottedName]),
        TokenKind::Semicolon => goes(fresh, depth, &[]),
        _ => Answer::Refused,
    }
}

/// Behind a modifier, but for a name.
pub fn declaration(fresh: &mut Fresh, depth: u64, kind: TokenKind) -> Answer
    requires fits { depth ≤ 2 ^ 32 }
    requires room { HasRoom 8 fresh.now }
    ensures { Does depth (machine.declaration kind) (frames_of fresh.old) (frames_of fresh.new) result }
{
    match kind {
        TokenKind::Class => takes(
            fresh,
            depth,
            0,
            &[
                (0, Frame::Expect(TokenKind::Identifier)),
                (0, Frame::Superclass),
                (0, Frame::NamesBehind(TokenKind::Implements)),
                (1, Frame::ClassBody),
            ],
        ),
        TokenKind::Interface => takes(
            fresh,
            depth,
            0,
            &[
                (0, Frame::Expect(TokenKind::Identifier)),
                (0, Frame::NamesBehind(TokenKind::Extends)),
                (1, Frame::InterfaceBody),
            ],
        ),
        TokenKind::Void => takes(
            fresh,
            depth,
            0,
            &[
                (0, Frame::Expect(TokenKind::Identifier)),
                (0, Frame::Parameters),
                (0, Frame::NamesBehind(TokenKind::Throws)),
                (1, Frame::Block),
            ],
        ),
        TokenKind::Var => goes(
            fresh,
            depth,
            &[
                Frame::Expect(TokenKind::Identifier),
                Frame::Expect(TokenKind::Assign),
                Frame::Expression,
                Frame::Expect(TokenKind::Semicolon),
            ],
        ),
        _ if is_modifier(kind) => goes(fresh, depth, &[Frame::Declaration]),
        _ if is_primitive(kind) => goes(
            fresh,
            depth,
            &[
                Frame::Brackets,
                Frame::Expect(TokenKind::Identifier),
                Frame::MethodOrVariable,
            ],
        ),
        _ => Answer::Refused,
    }
}

/// Behind a modifier.
pub fn declaration_behind(fresh: &mut Fresh, depth: u64, kind: TokenKind) -> Answer
    requires fits { depth ≤ 2 ^ 32 }
    requires room { HasRoom 8 fresh.now }
    ensures { Does depth (machine.declaration_behind kind) (frames_of fresh.old) (frames_of fresh.new) result }
{
    match kind {
        TokenKind::Identifier => goes(
            fresh,
            depth,
            &[
                Frame::Brackets,
                Frame::Expect(TokenKind::Identifier),
                Frame::MethodOrVariable,
            ],
        ),
        _ => declaration(fresh, depth, kind),
    }
}

pub fn snippet(fresh: &mut Fresh, depth: u64, kind: TokenKind) -> Answer
    requires fits { depth ≤ 2 ^ 32 }
    requires room { HasRoom 8 fresh.now }
    ensures { Does depth (machine.snippet kind) (frames_of fresh.old) (frames_of fresh.new) result }
{
    match kind {
        TokenKind::Import => goes(fresh, depth, &[Frame::Import]),
        TokenKind::Identifier => goes(fresh, depth, &[Frame::NamedSnippet]),
        _ if begins_declaration(kind) => declaration(fresh, depth, kind),
        _ if begins_statement(kind) => statement(fresh, depth, kind),
        _ => begins_inside(
            fresh,
            depth,
            0,
            &[(0, Frame::Expect(TokenKind::Semicolon))],
            Context::Expression,
            kind,
        ),
    }
}

pub fn named_snippet(fresh: &mut Fresh, depth: u64, kind: TokenKind) -> Answer
    requires fits { depth ≤ 2 ^ 32 }
    requires room { HasRoom 8 fresh.now }
    ensures { Does depth (machine.named_snippet kind) (frames_of fresh.old) (frames_of fresh.new) result }
{
    match kind {
        TokenKind::Identifier => goes(fresh, depth, &[Frame::MethodOrVariable]),
        TokenKind::LeftBracket => goes(fresh, depth, &[Frame::NamedSnippetPair]),
        TokenKind::Semicolon => goes(fresh, depth, &[]),
        _ => path_inside(
            fresh,
            depth,
            0,
            &[(0, Frame::Expect(TokenKind::Semicolon))],
            Context::Expression,
            Ending::Name,
            kind,
        ),
    }
}

pub fn named_snippet_pair(fresh: &mut Fresh, depth: u64, kind: TokenKind) -> Answer
    requires fits { depth ≤ 2 ^ 32 }
    requires room { HasRoom 8 fresh.now }
    ensures { Does depth (machine.named_snippet_pair kind) (frames_of fresh.old) (frames_of fresh.new) result }
{
    match kind {
        TokenKind::RightBracket => goes(
            fresh,
            depth,
            &[
                Frame::Brackets,
                Frame::Expect(TokenKind::Identifier),
                Frame::MethodOrVariable,
            ],
        ),
        _ => begins_inside(
            fresh,
            depth,
            1,
            &[
                (1, Frame::Expect(TokenKind::RightBracket)),
                (
                    0,
                    Frame::Path {
                        context: Context::Expression,
                        ending: Ending::Place,
                    },
                ),
                (0, Frame::Expect(TokenKind::Semicolon)),
            ],
            Context::Expression,
            kind,
        ),
    }
}

pub fn method_or_variable(fresh: &mut Fresh, depth: u64, kind: TokenKind) -> Answer
    requires fits { depth ≤ 2 ^ 32 }
    requires room { HasRoom 8 fresh.now }
    ensures { Does depth (machine.method_or_variable kind) (frames_of fresh.old) (frames_of fresh.new) result }
{
    match kind {
        TokenKind::LeftParen => takes(
            fresh,
            depth,
            0,
            &[
                (0, Frame::ParametersInside),
                (0, Frame::NamesBehind(TokenKind::Throws)),
                (1, Frame::Block),
            ],
        ),
        TokenKind::Assign => goes(
            fresh,
            depth,
            &[Frame::Initial, Frame::Expect(TokenKind::Semicolon)],
        ),
        TokenKind::Semicolon => goes(fresh, depth, &[]),
        _ => Answer::Refused,
    }
}

pub fn superclass(fresh: &mut Fresh, depth: u64, kind: TokenKind) -> Answer
    requires fits { depth ≤ 2 ^ 32 }
    requires room { HasRoom 8 fresh.now }
    ensures { Does depth (machine.superclass kind) (frames_of fresh.old) (frames_of fresh.new) result }
{
    match kind {
        TokenKind::Extends => goes(fresh, depth, &[Frame::Expect(TokenKind::Identifier)]),
        _ => Answer::Passed,
    }
}

/// A word and names, or nothing.
pub fn names_behind(fresh: &mut Fresh, depth: u64, word: TokenKind, kind: TokenKind) -> Answer
    requires fits { depth ≤ 2 ^ 32 }
    requires room { HasRoom 8 fresh.now }
    ensures { Does depth (machine.names_behind word kind) (frames_of fresh.old) (frames_of fresh.new) result }
{
    if is_same_word(word, kind) {
        goes(fresh, depth, &[Frame::Names])
    } else {
        Answer::Passed
    }
}

pub fn names(fresh: &mut Fresh, depth: u64, kind: TokenKind) -> Answer
    requires fits { depth ≤ 2 ^ 32 }
    requires room { HasRoom 8 fresh.now }
    ensures { Does depth (machine.names kind) (frames_of fresh.old) (frames_of fresh.new) result }
{
    match kind {
        TokenKind::Identifier => goes(fresh, depth, &[Frame::MoreNames]),
        _ => Answer::Refused,
    }
}

pub fn more_names(fresh: &mut Fresh, depth: u64, kind: TokenKind) -> Answer
    requires fits { depth ≤ 2 ^ 32 }
    requires room { HasRoom 8 fresh.now }
    ensures { Does depth (machine.more_names kind) (frames_of fresh.old) (frames_of fresh.new) result }
{
    match kind {
        TokenKind::Comma => goes(fresh, depth, &[Frame::Names]),
        _ => Answer::Passed,
    }
}

pub fn parameters(fresh: &mut Fresh, depth: u64, kind: TokenKind) -> Answer
    requires fits { depth ≤ 2 ^ 32 }
    requires room { HasRoom 8 fresh.now }
    ensures { Does depth (machine.parameters kind) (frames_of fresh.old) (frames_of fresh.new) result }
{
    match kind {
        TokenKind::LeftParen => goes(fresh, depth, &[Frame::ParametersInside]),
        _ => Answer::Refused,
    }
}

pub fn parameter(fresh: &mut Fresh, depth: u64, kind: TokenKind) -> Answer
    requires fits { depth ≤ 2 ^ 32 }
    requires room { HasRoom 8 fresh.now }
    ensures { Does depth (machine.parameter kind) (frames_of fresh.old) (frames_of fresh.new) result }
{
    match kind {
        TokenKind::Final => goes(
            fresh,
            depth,
            &[
                Frame::Type,
                Frame::Expect(TokenKind::Identifier),
                Frame::MoreParameters,
            ],
        ),
        TokenKind::Identifier => goes(
            fresh,
            depth,
            &[
                Frame::Brackets,
                Frame::Expect(TokenKind::Identifier),
                Frame::MoreParameters,
            ],
        ),
        _ if is_primitive(kind) => goes(
            fresh,
            depth,
            &[
                Frame::Brackets,
                Frame::Expect(TokenKind::Identifier),
                Frame::MoreParameters,
            ],
        ),
        _ => Answer::Refused,
    }
}

pub fn parameters_inside(fresh: &mut Fresh, depth: u64, kind: TokenKind) -> Answer
    requires fits { depth ≤ 2 ^ 32 }
    requires room { HasRoom 8 fresh.now }
    ensures { Does depth (machine.parameters_inside kind) (frames_of fresh.old) (frames_of fresh.new) result }
{
    match kind {
        TokenKind::RightParen => goes(fresh, depth, &[]),
        _ => parameter(fresh, depth, kind),
    }
}

pub fn more_parameters(fresh: &mut Fresh, depth: u64, kind: TokenKind) -> Answer
    requires fits { depth ≤ 2 ^ 32 }
    requires room { HasRoom 8 fresh.now }
    ensures { Does depth (machine.more_parameters kind) (frames_of fresh.old) (frames_of fresh.new) result }
{
    match kind {
        TokenKind::RightParen => goes(fresh, depth, &[]),
        TokenKind::Comma => goes(fresh, depth, &[Frame::Parameter]),
        _ => Answer::Refused,
    }
}

pub fn class_body(fresh: &mut Fresh, depth: u64, kind: TokenKind) -> Answer
    requires fits { depth ≤ 2 ^ 32 }
    requires room { HasRoom 8 fresh.now }
    ensures { Does depth (machine.class_body kind) (frames_of fresh.old) (frames_of fresh.new) result }
{
    match kind {
        TokenKind::LeftBrace => goes(fresh, depth, &[Frame::Members]),
        _ => Answer::Refused,
    }
}

pub fn class_member(fresh: &mut Fresh, depth: u64, kind: TokenKind) -> Answer
    requires fits { depth ≤ 2 ^ 32 }
    requires room { HasRoom 8 fresh.now }
    ensures { Does depth (machine.class_member kind) (frames_of fresh.old) (frames_of fresh.new) result }
{
    match kind {
        TokenKind::Void => goes(
            fresh,
            depth,
            &[
                Frame::Expect(TokenKind::Identifier),
                Frame::Parameters,
                Frame::NamesBehind(TokenKind::Throws),
                Frame::MethodBody,
                Frame::Members,
            ],
        ),
        TokenKind::Identifier => goes(fresh, depth, &[Frame::NamedMember]),
        _ if is_member_modifier(kind) => goes(fresh, depth, &[Frame::ClassMember]),
        _ if is_primitive(kind) => goes(
            fresh,
            depth,
            &[
                Frame::Brackets,
                Frame::Expect(TokenKind::Identifier),
                Frame::FieldOrMethod,
                Frame::Members,
            ],
        ),
        _ => Answer::Refused,
    }
}

pub fn members(fresh: &mut Fresh, depth: u64, kind: TokenKind) -> Answer
    requires fits { depth ≤ 2 ^ 32 }
    requires room { HasRoom 8 fresh.now }
    ensures { Does depth (machine.members kind) (frames_of fresh.old) (frames_of fresh.new) result }
{
    match kind {
        TokenKind::RightBrace => goes(fresh, depth, &[]),
        TokenKind::Semicolon => goes(fresh, depth, &[Frame::Members]),
        _ => class_member(fresh, depth, kind),
    }
}

pub fn named_member(fresh: &mut Fresh, depth: u64, kind: TokenKind) -> Answer
    requires fits { depth ≤ 2 ^ 32 }
    requires room { HasRoom 8 fresh.now }
    ensures { Does depth (machine.named_member kind) (frames_of fresh.old) (frames_of fresh.new) result }
{
    match kind {
        TokenKind::LeftParen => takes(
            fresh,
            depth,
            0,
            &[
                (0, Frame::ParametersInside),
                (0, Frame::NamesBehind(TokenKind::Throws)),
                (1, Frame::ConstructorBody),
                (0, Frame::Members),
            ],
        ),
        TokenKind::LeftBracket => goes(
            fresh,
            depth,
            &[
                Frame::Expect(TokenKind::RightBracket),
                Frame::Brackets,
                Frame::Expect(TokenKind::Identifier),
                Frame::FieldOrMethod,
                Frame::Members,
            ],
        ),
        TokenKind::Identifier => goes(fresh, depth, &[Frame::FieldOrMethod, Frame::Members]),
        _ => Answer::Refused,
    }
}

pub fn field_or_method(fresh: &mut Fresh, depth: u64, kind: TokenKind) -> Answer
    requires fits { depth ≤ 2 ^ 32 }
    requires room { HasRoom 8 fresh.now }
    ensures { Does depth (machine.field_or_method kind) (frames_of fresh.old) (frames_of fresh.new) result }
{
    match kind {
        TokenKind::LeftParen => goes(
            fresh,
            depth,
            &[
                Frame::ParametersInside,
                Frame::NamesBehind(TokenKind::Throws),
                Frame::MethodBody,
            ],
        ),
        TokenKind::Assign => goes(
            fresh,
            depth,
            &[Frame::Initial, Frame::Expect(TokenKind::Semicolon)],
        ),
        TokenKind::Semicolon => goes(fresh, depth, &[]),
        _ => Answer::Refused,
    }
}

pub fn method_body(fresh: &mut Fresh, depth: u64, kind: TokenKind) -> Answer
    requires fits { depth ≤ 2 ^ 32 }
    requires room { HasRoom 8 fresh.now }
    ensures { Does depth (machine.method_body kind) (frames_of fresh.old) (frames_of fresh.new) result }
{
    match kind {
        TokenKind::Semicolon => goes(fresh, depth, &[]),
        TokenKind::LeftBrace => takes(fresh, depth, 1, &[(1, Frame::Statements)]),
        _ => Answer::Refused,
    }
}

pub fn constructor_body(fresh: &mut Fresh, depth: u64, kind: TokenKind) -> Answer
    requires fits { depth ≤ 2 ^ 32 }
    requires room { HasRoom 8 fresh.now }
    ensures { Does depth (machine.constructor_body kind) (frames_of fresh.old) (frames_of fresh.new) result }
{
    match kind {
        TokenKind::LeftBrace => goes(fresh, depth, &[Frame::FirstCall]),
        _ => Answer::Refused,
    }
}

pub fn first_call(fresh: &mut Fresh, depth: u64, kind: TokenKind) -> Answer
    requires fits { depth ≤ 2 ^ 32 }
    requires room { HasRoom 8 fresh.now }
    ensures { Does depth (machine.first_call kind) (frames_of fresh.old) (frames_of fresh.new) result }
{
    match kind {
        TokenKind::This => goes(fresh, depth, &[Frame::ThisFirst]),
        TokenKind::Super => goes(fresh, depth, &[Frame::SuperFirst]),
        _ => statements(fresh, depth, kind),
    }
}

/// What stands behind the arguments of the first call of a constructor.
fn called_first(fresh: &mut Fresh, depth: u64) -> Answer
    requires fits { depth ≤ 2 ^ 32 }
    requires room { HasRoom 8 fresh.now }
    ensures { Does depth machine.called_first (frames_of fresh.old) (frames_of fresh.new) result }
{
    takes(
        fresh,
        depth,
        1,
        &[
            (1, Frame::Arguments),
            (0, Frame::Expect(TokenKind::Semicolon)),
            (0, Frame::Statements),
        ],
    )
}

pub fn this_first(fresh: &mut Fresh, depth: u64, kind: TokenKind) -> Answer
    requires fits { depth ≤ 2 ^ 32 }
    requires room { HasRoom 8 fresh.now }
    ensures { Does depth (machine.this_first kind) (frames_of fresh.old) (frames_of fresh.new) result }
{
    match kind {
        TokenKind::LeftParen => called_first(fresh, depth),
        _ => path_inside(
            fresh,
            depth,
            0,
            &[
                (0, Frame::Expect(TokenKind::Semicolon)),
                (0, Frame::Statements),
            ],
            Context::Effect,
            Ending::Other,
            kind,
        ),
    }
}

pub fn super_first(fresh: &mut Fresh, depth: u64, kind: TokenKind) -> Answer
    requires fits { depth ≤ 2 ^ 32 }
    requires room { HasRoom 8 fresh.now }
    ensures { Does depth (machine.super_first kind) (frames_of fresh.old) (frames_of fresh.new) result }
{
    match kind {
        TokenKind::LeftParen => called_first(fresh, depth),
        TokenKind::Dot => goes(
            fresh,
            depth,
            &[
                Frame::Expect(TokenKind::Identifier),
                Frame::OpenArguments,
                Frame::Path {
                    context: Context::Effect,
                    ending: Ending::Call,
                },
                Frame::Expect(TokenKind::Semicolon),
                Frame::Statements,
            ],
        ),
        _ => Answer::Refused,
    }
}

pub fn interface_body(fresh: &mut Fresh, depth: u64, kind: TokenKind) -> Answer
    requires fits { depth ≤ 2 ^ 32 }
    requires room { HasRoom 8 fresh.now }
    ensures { Does depth (machine.interface_body kind) (frames_of fresh.old) (frames_of fresh.new) result }
{
    match kind {
        TokenKind::LeftBrace => goes(fresh, depth, &[Frame::Signatures]),
        _ => Answer::Refused,
    }
}

pub fn signature(fresh: &mut Fresh, depth: u64, kind: TokenKind) -> Answer
    requires fits { depth ≤ 2 ^ 32 }
    requires room { HasRoom 8 fresh.now }
    ensures { Does depth (machine.signature kind) (frames_of fresh.old) (frames_of fresh.new) result }
{
    match kind {
        TokenKind::Void => goes(
            fresh,
            depth,
            &[
                Frame::Expect(TokenKind::Identifier),
                Frame::Parameters,
                Frame::NamesBehind(TokenKind::Throws),
                Frame::Expect(TokenKind::Semicolon),
                Frame::Signatures,
            ],
        ),
        TokenKind::Identifier => goes(
            fresh,
            depth,
            &[
                Frame::Brackets,
                Frame::Expect(TokenKind::Identifier),
                Frame::Parameters,
                Frame::NamesBehind(TokenKind::Throws),
                Frame::Expect(TokenKind::Semicolon),
                Frame::Signatures,
            ],
        ),
        _ if is_interface_modifier(kind) => goes(fresh, depth, &[Frame::Signature]),
        _ if is_primitive(kind) => goes(
            fresh,
            depth,
            &[
                Frame::Brackets,
                Frame::Expect(TokenKind::Identifier),
                Frame::Parameters,
                Frame::NamesBehind(TokenKind::Throws),
                Frame::Expect(TokenKind::Semicolon),
                Frame::Signatures,
            ],
        ),
        _ => Answer::Refused,
    }
}

pub fn signatures(fresh: &mut Fresh, depth: u64, kind: TokenKind) -> Answer
    requires fits { depth ≤ 2 ^ 32 }
    requires room { HasRoom 8 fresh.now }
    ensures { Does depth (machine.signatures kind) (frames_of fresh.old) (frames_of fresh.new) result }
{
    match kind {
        TokenKind::RightBrace => goes(fresh, depth, &[]),
        _ => signature(fresh, depth, kind),
    }
}
