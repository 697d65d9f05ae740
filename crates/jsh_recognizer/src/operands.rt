//! The moves of frames of expressions.

ghost use Rattle.std.specs.Prelude.{◌≡◌, ◌+◌, ◌<◌, ◌≤◌, ◌^◌, length};
ghost use Rattle.jsh_recognizer.specs.Machine as machine;
ghost use Rattle.jsh_recognizer.specs.declared.frame.Frame.TheVariants as frame;
ghost use Rattle.jsh_recognizer.specs.Stacks.{frames_of, HasRoom, Does, behind_whole, begins_plainly, may_step};

use crate::answer::{Answer, goes, takes};
use crate::classes::{
    begins_unsigned, is_assignment, is_literal, is_loose_operator, is_prefix, is_primitive,
    is_sign, is_step, is_tight_operator,
};
use crate::frame::{Context, Ending, Frame};
use crate::fresh::{Fresh, put_all};
use jsh_tree::TokenKind;

/// Behind an operand among operators.
pub fn behind_operand(fresh: &mut Fresh, depth: u64, behind_type: bool, kind: TokenKind) -> Answer
    requires fits { depth < 2 ^ 33 }
    requires room { HasRoom 3 fresh.now }
    ensures { Does depth (machine.behind_operand behind_type kind) (frames_of fresh.old) (frames_of fresh.new) result }
{
    match kind {
        TokenKind::Instanceof => goes(
            fresh,
            depth,
            &[Frame::Type, Frame::Operators { behind_type: true }],
        ),
        TokenKind::Question => takes(
            fresh,
            depth,
            0,
            &[
                (1, Frame::Expression),
                (0, Frame::Expect(TokenKind::Colon)),
                (1, Frame::Conditional),
            ],
        ),
        _ if is_loose_operator(kind) || (!behind_type && is_tight_operator(kind)) => {
            goes(
                fresh,
                depth,
                &[Frame::Operand, Frame::Operators { behind_type: false }],
            )
        }
        _ => Answer::Passed,
    }
}

fn is_target(ending: Ending) -> bool
    ensures { result ≡ machine.is_target ending }
{
    matches!(ending, Ending::Name | Ending::Place)
}

fn may_cast(context: Context) -> bool
    ensures { result ≡ machine.may_cast context }
{
    matches!(context, Context::Expression | Context::Operand)
}

/// Whether a step may stand there.
fn may_step(context: Context) -> bool
    ensures { result ≡ may_step context }
{
    !matches!(context, Context::Target)
}

/// What stands behind an operand that isn't assigned to.
fn rest_of(context: Context) -> &'static [(u32, Frame)]
    ensures { result.now ≡ machine.rest_of context }
{
    match context {
        Context::Expression => &[(0, Frame::Operators { behind_type: false })],
        Context::Operand | Context::Target | Context::Effect => &[],
    }
}

/// How an operand begins that no token of its own announces.
fn begins_plainly(fresh: &mut Fresh, depth: u64, context: Context, kind: TokenKind) -> Answer
    requires fits { depth < 2 ^ 33 }
    requires room { HasRoom 2 fresh.now }
    ensures { Does depth (begins_plainly context kind) (frames_of fresh.old) (frames_of fresh.new) result }
{
    if is_literal(kind) {
        goes(
            fresh,
            depth,
            &[Frame::Path {
                context,
                ending: Ending::Other,
            }],
        )
    } else if is_step(kind) && may_step(context) {
        put_all(fresh, depth, rest_of(context));
        takes(fresh, depth, 0, &[(1, Frame::Target)])
    } else if is_prefix(kind) && may_cast(context) {
        put_all(fresh, depth, rest_of(context));
        takes(fresh, depth, 0, &[(1, Frame::Operand)])
    } else {
        Answer::Refused
    }
}

/// How an operand begins.
pub fn begins(fresh: &mut Fresh, depth: u64, context: Context, kind: TokenKind) -> Answer
    requires fits { depth < 2 ^ 33 }
    requires room { HasRoom 4 fresh.now }
    ensures { Does depth (machine.begins context kind) (frames_of fresh.old) (frames_of fresh.new) result }
{
    match kind {
        TokenKind::Identifier => goes(
            fresh,
            depth,
            &[Frame::Path {
                context,
                ending: Ending::Name,
            }],
        ),
        TokenKind::This => goes(
            fresh,
            depth,
            &[Frame::Path {
                context,
                ending: Ending::Other,
            }],
        ),
        TokenKind::LeftParen if may_cast(context) => takes(
            fresh,
            depth,
            1,
            &[(0, Frame::Opened(context))],
        ),
        TokenKind::LeftParen => takes(
            fresh,
            depth,
            1,
            &[
                (1, Frame::Expression),
                (1, Frame::Expect(TokenKind::RightParen)),
                (
                    0,
                    Frame::Path {
                        context,
                        ending: Ending::Other,
                    },
                ),
            ],
        ),
        TokenKind::Super => goes(
            fresh,
            depth,
            &[
                Frame::Expect(TokenKind::Dot),
                Frame::Expect(TokenKind::Identifier),
                Frame::OpenArguments,
                Frame::Path {
                    context,
                    ending: Ending::Call,
                },
            ],
        ),
        TokenKind::New => goes(fresh, depth, &[Frame::New(context)]),
        _ => begins_plainly(fresh, depth, context, kind),
    }
}

/// Behind an operand that may be all of an expression.
fn behind_whole(fresh: &mut Fresh, depth: u64, ending: Ending, kind: TokenKind) -> Answer
    requires fits { depth < 2 ^ 33 }
    requires room { HasRoom 3 fresh.now }
    ensures { Does depth (behind_whole ending kind) (frames_of fresh.old) (frames_of fresh.new) result }
{
    if is_step(kind) && is_target(ending) {
        takes(fresh, depth, 0, rest_of(Context::Expression))
    } else if is_assignment(kind) && is_target(ending) {
        takes(fresh, depth, 0, &[(1, Frame::Expression)])
    } else {
        behind_operand(fresh, depth, false, kind)
    }
}

/// Behind an operand.
pub fn behind_path(
    fresh: &mut Fresh,
    depth: u64,
    context: Context,
    ending: Ending,
    kind: TokenKind,
) -> Answer
    requires fits { depth < 2 ^ 33 }
    requires room { HasRoom 3 fresh.now }
    ensures { Does depth (machine.behind_path context ending kind) (frames_of fresh.old) (frames_of fresh.new) result }
{
    match kind {
        TokenKind::Dot => goes(fresh, depth, &[Frame::Member(context)]),
        TokenKind::LeftBracket => takes(
            fresh,
            depth,
            1,
            &[
                (1, Frame::Expression),
                (1, Frame::Expect(TokenKind::RightBracket)),
                (
                    0,
                    Frame::Path {
                        context,
                        ending: Ending::Place,
                    },
                ),
            ],
        ),
        TokenKind::LeftParen if matches!(ending, Ending::Name) => takes(
            fresh,
            depth,
            1,
            &[
                (1, Frame::Arguments),
                (
                    0,
                    Frame::Path {
                        context,
                        ending: Ending::Call,
                    },
                ),
            ],
        ),
        _ => match context {
            Context::Expression => behind_whole(fresh, depth, ending, kind),
            Context::Operand if is_step(kind) && is_target(ending) => goes(fresh, depth, &[]),
            Context::Operand => Answer::Passed,
            Context::Target if is_step(kind) || !is_target(ending) => Answer::Refused,
            Context::Target => Answer::Passed,
            Context::Effect if is_step(kind) && is_target(ending) => goes(fresh, depth, &[]),
            Context::Effect if is_assignment(kind) && is_target(ending) => takes(
                fresh,
                depth,
                0,
                &[(1, Frame::Expression)],
            ),
            Context::Effect if matches!(ending, Ending::Call) => Answer::Passed,
            Context::Effect => Answer::Refused,
        },
    }
}

/// An operand inside others, so many parts deeper than these that stand behind it.
pub fn begins_inside(
    fresh: &mut Fresh,
    depth: u64,
    deeper: u32,
    more: &[(u32, Frame)],
    context: Context,
    kind: TokenKind,
) -> Answer
    requires fits { depth ≤ 2 ^ 32 }
    requires room { HasRoom (length more.now + 4) fresh.now }
    ensures { Does depth (machine.inside deeper more.now (machine.begins context kind)) (frames_of fresh.old) (frames_of fresh.new) result }
{
    put_all(fresh, depth, more);
    let answer = begins(fresh, depth + u64::from(deeper), context, kind);
    answer.closed()
}

/// What stands behind such an operand.
pub fn path_inside(
    fresh: &mut Fresh,
    depth: u64,
    deeper: u32,
    more: &[(u32, Frame)],
    context: Context,
    ending: Ending,
    kind: TokenKind,
) -> Answer
    requires fits { depth ≤ 2 ^ 32 }
    requires room { HasRoom (length more.now + 3) fresh.now }
    ensures { Does depth (machine.inside deeper more.now (machine.behind_path context ending kind)) (frames_of fresh.old) (frames_of fresh.new) result }
{
    put_all(fresh, depth, more);
    let answer = behind_path(fresh, depth + u64::from(deeper), context, ending, kind);
    answer.closed()
}

/// Behind a dot.
pub fn member(fresh: &mut Fresh, depth: u64, context: Context, kind: TokenKind) -> Answer
    requires fits { depth ≤ 2 ^ 32 }
    requires room { HasRoom 8 fresh.now }
    ensures { Does depth (machine.move_of (frame.Member context) kind) (frames_of fresh.old) (frames_of fresh.new) result }
{
    match kind {
        TokenKind::Identifier => goes(
            fresh,
            depth,
            &[Frame::Path {
                context,
                ending: Ending::Name,
            }],
        ),
        _ => Answer::Refused,
    }
}

/// A parenthesis and arguments.
pub fn open_arguments(fresh: &mut Fresh, depth: u64, kind: TokenKind) -> Answer
    requires fits { depth ≤ 2 ^ 32 }
    requires room { HasRoom 8 fresh.now }
    ensures { Does depth (machine.move_of frame.OpenArguments kind) (frames_of fresh.old) (frames_of fresh.new) result }
{
    match kind {
        TokenKind::LeftParen => takes(fresh, depth, 1, &[(1, Frame::Arguments)]),
        _ => Answer::Refused,
    }
}

/// The operand of a cast to a named type.
pub fn unsigned(fresh: &mut Fresh, depth: u64, kind: TokenKind) -> Answer
    requires fits { depth ≤ 2 ^ 32 }
    requires room { HasRoom 8 fresh.now }
    ensures { Does depth (machine.move_of frame.Unsigned kind) (frames_of fresh.old) (frames_of fresh.new) result }
{
    if is_sign(kind) {
        Answer::Refused
    } else {
        begins(fresh, depth, Context::Operand, kind)
    }
}

/// Behind a parenthesis that may begin a cast.
pub fn opened(fresh: &mut Fresh, depth: u64, context: Context, kind: TokenKind) -> Answer
    requires fits { depth ≤ 2 ^ 32 }
    requires room { HasRoom 8 fresh.now }
    ensures { Does depth (machine.opened context kind) (frames_of fresh.old) (frames_of fresh.new) result }
{
    match kind {
        TokenKind::Identifier => takes(fresh, depth, 1, &[(0, Frame::OpenedName(context))]),
        _ if is_primitive(kind) => takes(
            fresh,
            depth,
            1,
            &[(
                0,
                Frame::CastType {
                    is_primitive: true,
                    context,
                },
            )],
        ),
        _ => begins_inside(
            fresh,
            depth,
            1,
            &[
                (1, Frame::Expect(TokenKind::RightParen)),
                (
                    0,
                    Frame::Path {
                        context,
                        ending: Ending::Other,
                    },
                ),
            ],
            Context::Expression,
            kind,
        ),
    }
}

/// Behind that and a name.
pub fn opened_name(fresh: &mut Fresh, depth: u64, context: Context, kind: TokenKind) -> Answer
    requires fits { depth ≤ 2 ^ 32 }
    requires room { HasRoom 8 fresh.now }
    ensures { Does depth (machine.opened_name context kind) (frames_of fresh.old) (frames_of fresh.new) result }
{
    match kind {
        TokenKind::RightParen => takes(fresh, depth, 1, &[(0, Frame::Enclosed(context))]),
        TokenKind::LeftBracket => takes(fresh, depth, 1, &[(0, Frame::OpenedPair(context))]),
        _ => path_inside(
            fresh,
            depth,
            1,
            &[
                (1, Frame::Expect(TokenKind::RightParen)),
                (
                    0,
                    Frame::Path {
                        context,
                        ending: Ending::Other,
                    },
                ),
            ],
            Context::Expression,
            Ending::Name,
            kind,
        ),
    }
}

/// Behind these and a bracket.
pub fn opened_pair(fresh: &mut Fresh, depth: u64, context: Context, kind: TokenKind) -> Answer
    requires fits { depth ≤ 2 ^ 32 }
    requires room { HasRoom 8 fresh.now }
    ensures { Does depth (machine.opened_pair context kind) (frames_of fresh.old) (frames_of fresh.new) result }
{
    match kind {
        TokenKind::RightBracket => takes(
            fresh,
            depth,
            1,
            &[(
                0,
                Frame::CastType {
                    is_primitive: false,
                    context,
                },
            )],
        ),
        _ => begins_inside(
            fresh,
            depth,
            2,
            &[
                (2, Frame::Expect(TokenKind::RightBracket)),
                (
                    1,
                    Frame::Path {
                        context: Context::Expression,
                        ending: Ending::Place,
                    },
                ),
                (1, Frame::Expect(TokenKind::RightParen)),
                (
                    0,
                    Frame::Path {
                        context,
                        ending: Ending::Other,
                    },
                ),
            ],
            Context::Expression,
            kind,
        ),
    }
}

/// Behind the type of a cast.
pub fn cast_type(
    fresh: &mut Fresh,
    depth: u64,
    primitive: bool,
    context: Context,
    kind: TokenKind,
) -> Answer
    requires fits { depth ≤ 2 ^ 32 }
    requires room { HasRoom 8 fresh.now }
    ensures { Does depth (machine.cast_type primitive context kind) (frames_of fresh.old) (frames_of fresh.new) result }
{
    match kind {
        TokenKind::LeftBracket => takes(
            fresh,
            depth,
            1,
            &[
                (1, Frame::Expect(TokenKind::RightBracket)),
                (
                    0,
                    Frame::CastType {
                        is_primitive: primitive,
                        context,
                    },
                ),
            ],
        ),
        TokenKind::RightParen if primitive => {
            put_all(fresh, depth, rest_of(context));
            takes(fresh, depth, 1, &[(1, Frame::Operand)])
        }
        TokenKind::RightParen if !primitive => {
            put_all(fresh, depth, rest_of(context));
            takes(fresh, depth, 1, &[(1, Frame::Unsigned)])
        }
        _ => Answer::Refused,
    }
}

/// Behind a name in parentheses.
pub fn enclosed(fresh: &mut Fresh, depth: u64, context: Context, kind: TokenKind) -> Answer
    requires fits { depth ≤ 2 ^ 32 }
    requires room { HasRoom 8 fresh.now }
    ensures { Does depth (machine.enclosed context kind) (frames_of fresh.old) (frames_of fresh.new) result }
{
    if begins_unsigned(kind) {
        begins_inside(fresh, depth, 1, rest_of(context), Context::Operand, kind)
    } else {
        behind_path(fresh, depth, context, Ending::Other, kind)
    }
}

/// Behind the parenthesis of arguments.
pub fn arguments(fresh: &mut Fresh, depth: u64, kind: TokenKind) -> Answer
    requires fits { depth ≤ 2 ^ 32 }
    requires room { HasRoom 8 fresh.now }
    ensures { Does depth (machine.arguments kind) (frames_of fresh.old) (frames_of fresh.new) result }
{
    match kind {
        TokenKind::RightParen => goes(fresh, depth, &[]),
        _ => begins_inside(
            fresh,
            depth,
            0,
            &[(0, Frame::MoreArguments)],
            Context::Expression,
            kind,
        ),
    }
}

/// Behind an argument.
pub fn more_arguments(fresh: &mut Fresh, depth: u64, kind: TokenKind) -> Answer
    requires fits { depth ≤ 2 ^ 32 }
    requires room { HasRoom 8 fresh.now }
    ensures { Does depth (machine.more_arguments kind) (frames_of fresh.old) (frames_of fresh.new) result }
{
    match kind {
        TokenKind::RightParen => goes(fresh, depth, &[]),
        TokenKind::Comma => goes(fresh, depth, &[Frame::Expression, Frame::MoreArguments]),
        _ => Answer::Refused,
    }
}

pub fn initial(fresh: &mut Fresh, depth: u64, kind: TokenKind) -> Answer
    requires fits { depth ≤ 2 ^ 32 }
    requires room { HasRoom 4 fresh.now }
    ensures { Does depth (machine.initial kind) (frames_of fresh.old) (frames_of fresh.new) result }
{
    match kind {
        TokenKind::LeftBrace => takes(fresh, depth, 1, &[(1, Frame::Values)]),
        _ => begins(fresh, depth, Context::Expression, kind),
    }
}

/// A value in front of these.
fn initial_inside(fresh: &mut Fresh, depth: u64, more: &[(u32, Frame)], kind: TokenKind) -> Answer
    requires fits { depth ≤ 2 ^ 32 }
    requires room { HasRoom (length more.now + 4) fresh.now }
    ensures { Does depth (machine.inside 0 more.now (machine.initial kind)) (frames_of fresh.old) (frames_of fresh.new) result }
{
    put_all(fresh, depth, more);
    let answer = initial(fresh, depth, kind);
    answer.closed()
}

/// Behind the brace of an array initializer, or a comma in it.
pub fn values(fresh: &mut Fresh, depth: u64, kind: TokenKind) -> Answer
    requires fits { depth ≤ 2 ^ 32 }
    requires room { HasRoom 8 fresh.now }
    ensures { Does depth (machine.values kind) (frames_of fresh.old) (frames_of fresh.new) result }
{
    match kind {
        TokenKind::RightBrace => goes(fresh, depth, &[]),
        _ => initial_inside(fresh, depth, &[(0, Frame::MoreValues)], kind),
    }
}

/// Behind a value in it.
pub fn more_values(fresh: &mut Fresh, depth: u64, kind: TokenKind) -> Answer
    requires fits { depth ≤ 2 ^ 32 }
    requires room { HasRoom 8 fresh.now }
    ensures { Does depth (machine.more_values kind) (frames_of fresh.old) (frames_of fresh.new) result }
{
    match kind {
        TokenKind::RightBrace => goes(fresh, depth, &[]),
        TokenKind::Comma => goes(fresh, depth, &[Frame::Values]),
        _ => Answer::Refused,
    }
}

pub fn brackets(fresh: &mut Fresh, depth: u64, kind: TokenKind) -> Answer
    requires fits { depth ≤ 2 ^ 32 }
    requires room { HasRoom 8 fresh.now }
    ensures { Does depth (machine.brackets kind) (frames_of fresh.old) (frames_of fresh.new) result }
{
    match kind {
        TokenKind::LeftBracket => goes(
            fresh,
            depth,
            &[Frame::Expect(TokenKind::RightBracket), Frame::Brackets],
        ),
        _ => Answer::Passed,
    }
}

pub fn type_use(fresh: &mut Fresh, depth: u64, kind: TokenKind) -> Answer
    requires fits { depth ≤ 2 ^ 32 }
    requires room { HasRoom 8 fresh.now }
    ensures { Does depth (machine.type_use kind) (frames_of fresh.old) (frames_of fresh.new) result }
{
    match kind {
        TokenKind::Identifier => goes(fresh, depth, &[Frame::Brackets]),
        _ if is_primitive(kind) => goes(fresh, depth, &[Frame::Brackets]),
        _ => Answer::Refused,
    }
}
