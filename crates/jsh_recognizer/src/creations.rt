//! The moves of frames of new objects and arrays.

ghost use Rattle.std.specs.Prelude.{◌≤◌, ◌^◌};
ghost use Rattle.jsh_recognizer.specs.Machine as machine;
ghost use Rattle.jsh_recognizer.specs.Stacks.{frames_of, HasRoom, Does};

use crate::answer::{Answer, goes, takes};
use crate::classes::is_primitive;
use crate::frame::{Context, Ending, Frame};
use crate::fresh::Fresh;
use crate::operands::{begins_inside, behind_path};
use jsh_tree::TokenKind;

/// Behind `new` and a name.
pub fn new_named(fresh: &mut Fresh, depth: u64, context: Context, kind: TokenKind) -> Answer
    requires fits { depth ≤ 2 ^ 32 }
    requires room { HasRoom 8 fresh.now }
    ensures { Does depth (machine.new_named context kind) (frames_of fresh.old) (frames_of fresh.new) result }
{
    match kind {
        TokenKind::LeftParen => takes(
            fresh,
            depth,
            1,
            &[
                (1, Frame::Arguments),
                (
                    0,
                    Frame::Path {
                        context,
                        ending: Ending::Call,
                    },
                ),
            ],
        ),
        TokenKind::LeftBracket => goes(fresh, depth, &[Frame::NewOpened(context)]),
        _ => Answer::Refused,
    }
}

/// Behind `new` and the name of a primitive type.
pub fn new_primitive(fresh: &mut Fresh, depth: u64, context: Context, kind: TokenKind) -> Answer
    requires fits { depth ≤ 2 ^ 32 }
    requires room { HasRoom 8 fresh.now }
    ensures { Does depth (machine.new_primitive context kind) (frames_of fresh.old) (frames_of fresh.new) result }
{
    match kind {
        TokenKind::LeftBracket => goes(fresh, depth, &[Frame::NewOpened(context)]),
        _ => Answer::Refused,
    }
}

/// Behind `new`.
pub fn new_begins(fresh: &mut Fresh, depth: u64, context: Context, kind: TokenKind) -> Answer
    requires fits { depth ≤ 2 ^ 32 }
    requires room { HasRoom 8 fresh.now }
    ensures { Does depth (machine.new_begins context kind) (frames_of fresh.old) (frames_of fresh.new) result }
{
    match kind {
        TokenKind::Identifier => goes(fresh, depth, &[Frame::NewNamed(context)]),
        _ if is_primitive(kind) => goes(fresh, depth, &[Frame::NewPrimitive(context)]),
        _ => Answer::Refused,
    }
}

/// Behind the first bracket of a new array.
pub fn new_opened(fresh: &mut Fresh, depth: u64, context: Context, kind: TokenKind) -> Answer
    requires fits { depth ≤ 2 ^ 32 }
    requires room { HasRoom 8 fresh.now }
    ensures { Does depth (machine.new_opened context kind) (frames_of fresh.old) (frames_of fresh.new) result }
{
    match kind {
        TokenKind::RightBracket => goes(fresh, depth, &[Frame::NewFilled(context)]),
        _ => begins_inside(
            fresh,
            depth,
            1,
            &[
                (1, Frame::Expect(TokenKind::RightBracket)),
                (0, Frame::NewSized(context)),
            ],
            Context::Expression,
            kind,
        ),
    }
}

/// Behind empty brackets of a new array whose values follow.
pub fn new_filled(fresh: &mut Fresh, depth: u64, context: Context, kind: TokenKind) -> Answer
    requires fits { depth ≤ 2 ^ 32 }
    requires room { HasRoom 8 fresh.now }
    ensures { Does depth (machine.new_filled context kind) (frames_of fresh.old) (frames_of fresh.new) result }
{
    match kind {
        TokenKind::LeftBracket => goes(
            fresh,
            depth,
            &[
                Frame::Expect(TokenKind::RightBracket),
                Frame::NewFilled(context),
            ],
        ),
        TokenKind::LeftBrace => takes(
            fresh,
            depth,
            1,
            &[
                (1, Frame::Values),
                (
                    0,
                    Frame::Path {
                        context,
                        ending: Ending::Other,
                    },
                ),
            ],
        ),
        _ => Answer::Refused,
    }
}

/// Behind brackets with a size in them.
pub fn new_sized(fresh: &mut Fresh, depth: u64, context: Context, kind: TokenKind) -> Answer
    requires fits { depth ≤ 2 ^ 32 }
    requires room { HasRoom 8 fresh.now }
    ensures { Does depth (machine.new_sized context kind) (frames_of fresh.old) (frames_of fresh.new) result }
{
    match kind {
        TokenKind::LeftBracket => goes(fresh, depth, &[Frame::NewSizedOpened(context)]),
        _ => behind_path(fresh, depth, context, Ending::Other, kind),
    }
}

/// Behind these and one more bracket.
pub fn new_sized_opened(fresh: &mut Fresh, depth: u64, context: Context, kind: TokenKind) -> Answer
    requires fits { depth ≤ 2 ^ 32 }
    requires room { HasRoom 8 fresh.now }
    ensures { Does depth (machine.new_sized_opened context kind) (frames_of fresh.old) (frames_of fresh.new) result }
{
    match kind {
        TokenKind::RightBracket => goes(fresh, depth, &[Frame::NewUnsized(context)]),
        _ => begins_inside(
            fresh,
            depth,
            1,
            &[
                (1, Frame::Expect(TokenKind::RightBracket)),
                (0, Frame::NewSized(context)),
            ],
            Context::Expression,
            kind,
        ),
    }
}

/// Behind sizes and empty brackets.
pub fn new_unsized(fresh: &mut Fresh, depth: u64, context: Context, kind: TokenKind) -> Answer
    requires fits { depth ≤ 2 ^ 32 }
    requires room { HasRoom 8 fresh.now }
    ensures { Does depth (machine.new_unsized context kind) (frames_of fresh.old) (frames_of fresh.new) result }
{
    match kind {
        TokenKind::LeftBracket => goes(fresh, depth, &[Frame::NewUnsizedOpened(context)]),
        _ => behind_path(fresh, depth, context, Ending::Other, kind),
    }
}

/// Behind these and one more bracket.
pub fn new_unsized_opened(
    fresh: &mut Fresh,
    depth: u64,
    context: Context,
    kind: TokenKind,
) -> Answer
    requires fits { depth ≤ 2 ^ 32 }
    requires room { HasRoom 8 fresh.now }
    ensures { Does depth (machine.new_unsized_opened context kind) (frames_of fresh.old) (frames_of fresh.new) result }
{
    match kind {
        TokenKind::RightBracket => goes(fresh, depth, &[Frame::NewUnsized(context)]),
        _ => begins_inside(
            fresh,
            depth,
            1,
            &[
                (1, Frame::Expect(TokenKind::RightBracket)),
                (
                    0,
                    Frame::Path {
                        context,
                        ending: Ending::Place,
                    },
                ),
            ],
            Context::Expression,
            kind,
        ),
    }
}
