//! The moves of frames of statements.

ghost use Rattle.std.specs.Prelude.{◌+◌, ◌≤◌, ◌^◌, length};
ghost use Rattle.jsh_recognizer.specs.Machine as machine;
ghost use Rattle.jsh_recognizer.specs.Stacks.{frames_of, HasRoom, Does};

use crate::answer::{Answer, goes, takes};
use crate::classes::{is_case_value, is_primitive};
use crate::frame::{Context, Ending, Frame};
use crate::fresh::{Fresh, put_all};
use crate::operands::{begins_inside, path_inside};
use jsh_tree::TokenKind;

pub fn statement(fresh: &mut Fresh, depth: u64, kind: TokenKind) -> Answer
    requires fits { depth ≤ 2 ^ 32 }
    requires room { HasRoom 5 fresh.now }
    ensures { Does depth (machine.statement kind) (frames_of fresh.old) (frames_of fresh.new) result }
{
    match kind {
        TokenKind::LeftBrace => takes(fresh, depth, 1, &[(1, Frame::Statements)]),
        TokenKind::Semicolon => goes(fresh, depth, &[]),
        TokenKind::If => takes(
            fresh,
            depth,
            0,
            &[
                (1, Frame::Condition),
                (1, Frame::Statement),
                (0, Frame::Else),
            ],
        ),
        TokenKind::While => takes(
            fresh,
            depth,
            0,
            &[(1, Frame::Condition), (1, Frame::Statement)],
        ),
        TokenKind::Do => takes(
            fresh,
            depth,
            0,
            &[
                (1, Frame::Statement),
                (0, Frame::Expect(TokenKind::While)),
                (1, Frame::Condition),
                (0, Frame::Expect(TokenKind::Semicolon)),
            ],
        ),
        TokenKind::For => takes(fresh, depth, 0, &[(1, Frame::For), (1, Frame::Statement)]),
        TokenKind::Switch => takes(
            fresh,
            depth,
            0,
            &[(1, Frame::Condition), (1, Frame::Switch)],
        ),
        TokenKind::Break => goes(fresh, depth, &[Frame::Expect(TokenKind::Semicolon)]),
        TokenKind::Continue => goes(fresh, depth, &[Frame::Expect(TokenKind::Semicolon)]),
        TokenKind::Return => goes(fresh, depth, &[Frame::Returned]),
        TokenKind::Throw => goes(
            fresh,
            depth,
            &[Frame::Expression, Frame::Expect(TokenKind::Semicolon)],
        ),
        TokenKind::Try => takes(fresh, depth, 0, &[(1, Frame::Block), (0, Frame::Catches)]),
        _ => begins_inside(
            fresh,
            depth,
            0,
            &[(0, Frame::Expect(TokenKind::Semicolon))],
            Context::Effect,
            kind,
        ),
    }
}

pub fn condition(fresh: &mut Fresh, depth: u64, kind: TokenKind) -> Answer
    requires fits { depth ≤ 2 ^ 32 }
    requires room { HasRoom 8 fresh.now }
    ensures { Does depth (machine.condition kind) (frames_of fresh.old) (frames_of fresh.new) result }
{
    match kind {
        TokenKind::LeftParen => goes(
            fresh,
            depth,
            &[Frame::Expression, Frame::Expect(TokenKind::RightParen)],
        ),
        _ => Answer::Refused,
    }
}

pub fn else_branch(fresh: &mut Fresh, depth: u64, kind: TokenKind) -> Answer
    requires fits { depth ≤ 2 ^ 32 }
    requires room { HasRoom 8 fresh.now }
    ensures { Does depth (machine.else_branch kind) (frames_of fresh.old) (frames_of fresh.new) result }
{
    match kind {
        TokenKind::Else => takes(fresh, depth, 0, &[(1, Frame::Statement)]),
        _ => Answer::Passed,
    }
}

pub fn block(fresh: &mut Fresh, depth: u64, kind: TokenKind) -> Answer
    requires fits { depth ≤ 2 ^ 32 }
    requires room { HasRoom 8 fresh.now }
    ensures { Does depth (machine.block kind) (frames_of fresh.old) (frames_of fresh.new) result }
{
    match kind {
        TokenKind::LeftBrace => goes(fresh, depth, &[Frame::Statements]),
        _ => Answer::Refused,
    }
}

pub fn variable(fresh: &mut Fresh, depth: u64, kind: TokenKind) -> Answer
    requires fits { depth ≤ 2 ^ 32 }
    requires room { HasRoom 8 fresh.now }
    ensures { Does depth (machine.variable kind) (frames_of fresh.old) (frames_of fresh.new) result }
{
    match kind {
        TokenKind::Var => goes(
            fresh,
            depth,
            &[
                Frame::Expect(TokenKind::Identifier),
                Frame::Expect(TokenKind::Assign),
                Frame::Expression,
            ],
        ),
        TokenKind::Identifier => goes(
            fresh,
            depth,
            &[
                Frame::Brackets,
                Frame::Expect(TokenKind::Identifier),
                Frame::Initialized,
            ],
        ),
        _ if is_primitive(kind) => goes(
            fresh,
            depth,
            &[
                Frame::Brackets,
                Frame::Expect(TokenKind::Identifier),
                Frame::Initialized,
            ],
        ),
        _ => Answer::Refused,
    }
}

pub fn initialized(fresh: &mut Fresh, depth: u64, kind: TokenKind) -> Answer
    requires fits { depth ≤ 2 ^ 32 }
    requires room { HasRoom 8 fresh.now }
    ensures { Does depth (machine.initialized kind) (frames_of fresh.old) (frames_of fresh.new) result }
{
    match kind {
        TokenKind::Assign => goes(fresh, depth, &[Frame::Initial]),
        _ => Answer::Passed,
    }
}

pub fn block_statement(fresh: &mut Fresh, depth: u64, kind: TokenKind) -> Answer
    requires fits { depth ≤ 2 ^ 32 }
    requires room { HasRoom 5 fresh.now }
    ensures { Does depth (machine.block_statement kind) (frames_of fresh.old) (frames_of fresh.new) result }
{
    match kind {
        TokenKind::Final => goes(
            fresh,
            depth,
            &[Frame::Variable, Frame::Expect(TokenKind::Semicolon)],
        ),
        TokenKind::Identifier => goes(fresh, depth, &[Frame::Named]),
        TokenKind::Var => goes(
            fresh,
            depth,
            &[
                Frame::Expect(TokenKind::Identifier),
                Frame::Expect(TokenKind::Assign),
                Frame::Expression,
                Frame::Expect(TokenKind::Semicolon),
            ],
        ),
        _ if is_primitive(kind) => goes(
            fresh,
            depth,
            &[
                Frame::Brackets,
                Frame::Expect(TokenKind::Identifier),
                Frame::Initialized,
                Frame::Expect(TokenKind::Semicolon),
            ],
        ),
        _ => statement(fresh, depth, kind),
    }
}

/// A statement of a block in front of these.
fn block_statement_inside(
    fresh: &mut Fresh,
    depth: u64,
    more: &[(u32, Frame)],
    kind: TokenKind,
) -> Answer
    requires fits { depth ≤ 2 ^ 32 }
    requires room { HasRoom (length more.now + 5) fresh.now }
    ensures { Does depth (machine.inside 0 more.now (machine.block_statement kind)) (frames_of fresh.old) (frames_of fresh.new) result }
{
    put_all(fresh, depth, more);
    let answer = block_statement(fresh, depth, kind);
    answer.closed()
}

pub fn statements(fresh: &mut Fresh, depth: u64, kind: TokenKind) -> Answer
    requires fits { depth ≤ 2 ^ 32 }
    requires room { HasRoom 8 fresh.now }
    ensures { Does depth (machine.statements kind) (frames_of fresh.old) (frames_of fresh.new) result }
{
    match kind {
        TokenKind::RightBrace => goes(fresh, depth, &[]),
        _ => block_statement_inside(fresh, depth, &[(0, Frame::Statements)], kind),
    }
}

/// Behind a name that begins a statement of a block.
pub fn named(fresh: &mut Fresh, depth: u64, kind: TokenKind) -> Answer
    requires fits { depth ≤ 2 ^ 32 }
    requires room { HasRoom 8 fresh.now }
    ensures { Does depth (machine.named kind) (frames_of fresh.old) (frames_of fresh.new) result }
{
    match kind {
        TokenKind::Identifier => goes(
            fresh,
            depth,
            &[Frame::Initialized, Frame::Expect(TokenKind::Semicolon)],
        ),
        TokenKind::LeftBracket => goes(fresh, depth, &[Frame::NamedPair]),
        _ => path_inside(
            fresh,
            depth,
            0,
            &[(0, Frame::Expect(TokenKind::Semicolon))],
            Context::Effect,
            Ending::Name,
            kind,
        ),
    }
}

/// Behind that and a bracket.
pub fn named_pair(fresh: &mut Fresh, depth: u64, kind: TokenKind) -> Answer
    requires fits { depth ≤ 2 ^ 32 }
    requires room { HasRoom 8 fresh.now }
    ensures { Does depth (machine.named_pair kind) (frames_of fresh.old) (frames_of fresh.new) result }
{
    match kind {
        TokenKind::RightBracket => goes(
            fresh,
            depth,
            &[
                Frame::Brackets,
                Frame::Expect(TokenKind::Identifier),
                Frame::Initialized,
                Frame::Expect(TokenKind::Semicolon),
            ],
        ),
        _ => begins_inside(
            fresh,
            depth,
            1,
            &[
                (1, Frame::Expect(TokenKind::RightBracket)),
                (
                    0,
                    Frame::Path {
                        context: Context::Effect,
                        ending: Ending::Place,
                    },
                ),
                (0, Frame::Expect(TokenKind::Semicolon)),
            ],
            Context::Expression,
            kind,
        ),
    }
}

pub fn returned(fresh: &mut Fresh, depth: u64, kind: TokenKind) -> Answer
    requires fits { depth ≤ 2 ^ 32 }
    requires room { HasRoom 8 fresh.now }
    ensures { Does depth (machine.returned kind) (frames_of fresh.old) (frames_of fresh.new) result }
{
    match kind {
        TokenKind::Semicolon => goes(fresh, depth, &[]),
        _ => begins_inside(
            fresh,
            depth,
            0,
            &[(0, Frame::Expect(TokenKind::Semicolon))],
            Context::Expression,
            kind,
        ),
    }
}

pub fn for_head(fresh: &mut Fresh, depth: u64, kind: TokenKind) -> Answer
    requires fits { depth ≤ 2 ^ 32 }
    requires room { HasRoom 8 fresh.now }
    ensures { Does depth (machine.for_head kind) (frames_of fresh.old) (frames_of fresh.new) result }
{
    match kind {
        TokenKind::LeftParen => goes(fresh, depth, &[Frame::ForStart]),
        _ => Answer::Refused,
    }
}

pub fn for_variable(fresh: &mut Fresh, depth: u64, kind: TokenKind) -> Answer
    requires fits { depth ≤ 2 ^ 32 }
    requires room { HasRoom 8 fresh.now }
    ensures { Does depth (machine.for_variable kind) (frames_of fresh.old) (frames_of fresh.new) result }
{
    match kind {
        TokenKind::Var => goes(
            fresh,
            depth,
            &[Frame::Expect(TokenKind::Identifier), Frame::ForInferred],
        ),
        TokenKind::Identifier => goes(
            fresh,
            depth,
            &[
                Frame::Brackets,
                Frame::Expect(TokenKind::Identifier),
                Frame::ForTyped,
            ],
        ),
        _ if is_primitive(kind) => goes(
            fresh,
            depth,
            &[
                Frame::Brackets,
                Frame::Expect(TokenKind::Identifier),
                Frame::ForTyped,
            ],
        ),
        _ => Answer::Refused,
    }
}

pub fn for_start(fresh: &mut Fresh, depth: u64, kind: TokenKind) -> Answer
    requires fits { depth ≤ 2 ^ 32 }
    requires room { HasRoom 8 fresh.now }
    ensures { Does depth (machine.for_start kind) (frames_of fresh.old) (frames_of fresh.new) result }
{
    match kind {
        TokenKind::Semicolon => goes(fresh, depth, &[Frame::ForCondition]),
        TokenKind::Final => goes(fresh, depth, &[Frame::ForVariable]),
        TokenKind::Var => goes(
            fresh,
            depth,
            &[Frame::Expect(TokenKind::Identifier), Frame::ForInferred],
        ),
        TokenKind::Identifier => goes(fresh, depth, &[Frame::ForNamed]),
        _ if is_primitive(kind) => goes(
            fresh,
            depth,
            &[
                Frame::Brackets,
                Frame::Expect(TokenKind::Identifier),
                Frame::ForTyped,
            ],
        ),
        _ => begins_inside(
            fresh,
            depth,
            0,
            &[
                (0, Frame::Expect(TokenKind::Semicolon)),
                (0, Frame::ForCondition),
            ],
            Context::Effect,
            kind,
        ),
    }
}

/// The elements of a `for` that goes over an array.
fn elements(fresh: &mut Fresh, depth: u64) -> Answer
    requires fits { depth ≤ 2 ^ 32 }
    requires room { HasRoom 8 fresh.now }
    ensures { Does depth machine.elements (frames_of fresh.old) (frames_of fresh.new) result }
{
    goes(
        fresh,
        depth,
        &[Frame::Expression, Frame::Expect(TokenKind::RightParen)],
    )
}

pub fn for_inferred(fresh: &mut Fresh, depth: u64, kind: TokenKind) -> Answer
    requires fits { depth ≤ 2 ^ 32 }
    requires room { HasRoom 8 fresh.now }
    ensures { Does depth (machine.for_inferred kind) (frames_of fresh.old) (frames_of fresh.new) result }
{
    match kind {
        TokenKind::Colon => elements(fresh, depth),
        TokenKind::Assign => goes(
            fresh,
            depth,
            &[
                Frame::Expression,
                Frame::Expect(TokenKind::Semicolon),
                Frame::ForCondition,
            ],
        ),
        _ => Answer::Refused,
    }
}

pub fn for_typed(fresh: &mut Fresh, depth: u64, kind: TokenKind) -> Answer
    requires fits { depth ≤ 2 ^ 32 }
    requires room { HasRoom 8 fresh.now }
    ensures { Does depth (machine.for_typed kind) (frames_of fresh.old) (frames_of fresh.new) result }
{
    match kind {
        TokenKind::Colon => elements(fresh, depth),
        TokenKind::Assign => goes(
            fresh,
            depth,
            &[
                Frame::Initial,
                Frame::Expect(TokenKind::Semicolon),
                Frame::ForCondition,
            ],
        ),
        TokenKind::Semicolon => goes(fresh, depth, &[Frame::ForCondition]),
        _ => Answer::Refused,
    }
}

pub fn for_named(fresh: &mut Fresh, depth: u64, kind: TokenKind) -> Answer
    requires fits { depth ≤ 2 ^ 32 }
    requires room { HasRoom 8 fresh.now }
    ensures { Does depth (machine.for_named kind) (frames_of fresh.old) (frames_of fresh.new) result }
{
    match kind {
        TokenKind::Identifier => goes(fresh, depth, &[Frame::ForTyped]),
        TokenKind::LeftBracket => goes(fresh, depth, &[Frame::ForPair]),
        _ => path_inside(
            fresh,
            depth,
            0,
            &[
                (0, Frame::Expect(TokenKind::Semicolon)),
                (0, Frame::ForCondition),
            ],
            Context::Effect,
            Ending::Name,
            kind,
        ),
    }
}

pub fn for_pair(fresh: &mut Fresh, depth: u64, kind: TokenKind) -> Answer
    requires fits { depth ≤ 2 ^ 32 }
    requires room { HasRoom 8 fresh.now }
    ensures { Does depth (machine.for_pair kind) (frames_of fresh.old) (frames_of fresh.new) result }
{
    match kind {
        TokenKind::RightBracket => goes(
            fresh,
            depth,
            &[
                Frame::Brackets,
                Frame::Expect(TokenKind::Identifier),
                Frame::ForTyped,
            ],
        ),
        _ => begins_inside(
            fresh,
            depth,
            1,
            &[
                (1, Frame::Expect(TokenKind::RightBracket)),
                (
                    0,
                    Frame::Path {
                        context: Context::Effect,
                        ending: Ending::Place,
                    },
                ),
                (0, Frame::Expect(TokenKind::Semicolon)),
                (0, Frame::ForCondition),
            ],
            Context::Expression,
            kind,
        ),
    }
}

pub fn for_condition(fresh: &mut Fresh, depth: u64, kind: TokenKind) -> Answer
    requires fits { depth ≤ 2 ^ 32 }
    requires room { HasRoom 8 fresh.now }
    ensures { Does depth (machine.for_condition kind) (frames_of fresh.old) (frames_of fresh.new) result }
{
    match kind {
        TokenKind::Semicolon => goes(fresh, depth, &[Frame::ForUpdate]),
        _ => begins_inside(
            fresh,
            depth,
            0,
            &[
                (0, Frame::Expect(TokenKind::Semicolon)),
                (0, Frame::ForUpdate),
            ],
            Context::Expression,
            kind,
        ),
    }
}

pub fn for_update(fresh: &mut Fresh, depth: u64, kind: TokenKind) -> Answer
    requires fits { depth ≤ 2 ^ 32 }
    requires room { HasRoom 8 fresh.now }
    ensures { Does depth (machine.for_update kind) (frames_of fresh.old) (frames_of fresh.new) result }
{
    match kind {
        TokenKind::RightParen => goes(fresh, depth, &[]),
        _ => begins_inside(
            fresh,
            depth,
            0,
            &[(0, Frame::Expect(TokenKind::RightParen))],
            Context::Effect,
            kind,
        ),
    }
}

pub fn switch_block(fresh: &mut Fresh, depth: u64, kind: TokenKind) -> Answer
    requires fits { depth ≤ 2 ^ 32 }
    requires room { HasRoom 8 fresh.now }
    ensures { Does depth (machine.switch_block kind) (frames_of fresh.old) (frames_of fresh.new) result }
{
    match kind {
        TokenKind::LeftBrace => goes(fresh, depth, &[Frame::Groups]),
        _ => Answer::Refused,
    }
}

pub fn groups(fresh: &mut Fresh, depth: u64, kind: TokenKind) -> Answer
    requires fits { depth ≤ 2 ^ 32 }
    requires room { HasRoom 8 fresh.now }
    ensures { Does depth (machine.groups kind) (frames_of fresh.old) (frames_of fresh.new) result }
{
    match kind {
        TokenKind::RightBrace => goes(fresh, depth, &[]),
        TokenKind::Case => goes(fresh, depth, &[Frame::CaseValue, Frame::Group]),
        TokenKind::Default => goes(
            fresh,
            depth,
            &[Frame::Expect(TokenKind::Colon), Frame::Group],
        ),
        _ => Answer::Refused,
    }
}

pub fn group(fresh: &mut Fresh, depth: u64, kind: TokenKind) -> Answer
    requires fits { depth ≤ 2 ^ 32 }
    requires room { HasRoom 8 fresh.now }
    ensures { Does depth (machine.group kind) (frames_of fresh.old) (frames_of fresh.new) result }
{
    match kind {
        TokenKind::RightBrace => goes(fresh, depth, &[]),
        TokenKind::Case => goes(fresh, depth, &[Frame::CaseValue, Frame::Group]),
        TokenKind::Default => goes(
            fresh,
            depth,
            &[Frame::Expect(TokenKind::Colon), Frame::Group],
        ),
        _ => block_statement_inside(fresh, depth, &[(0, Frame::Group)], kind),
    }
}

pub fn negative_value(fresh: &mut Fresh, depth: u64, kind: TokenKind) -> Answer
    requires fits { depth ≤ 2 ^ 32 }
    requires room { HasRoom 8 fresh.now }
    ensures { Does depth (machine.negative_value kind) (frames_of fresh.old) (frames_of fresh.new) result }
{
    if is_case_value(kind) {
        goes(fresh, depth, &[Frame::Expect(TokenKind::Colon)])
    } else {
        Answer::Refused
    }
}

pub fn case_value(fresh: &mut Fresh, depth: u64, kind: TokenKind) -> Answer
    requires fits { depth ≤ 2 ^ 32 }
    requires room { HasRoom 8 fresh.now }
    ensures { Does depth (machine.case_value kind) (frames_of fresh.old) (frames_of fresh.new) result }
{
    match kind {
        TokenKind::Minus => goes(fresh, depth, &[Frame::NegativeValue]),
        _ => negative_value(fresh, depth, kind),
    }
}

pub fn catches(fresh: &mut Fresh, depth: u64, kind: TokenKind) -> Answer
    requires fits { depth ≤ 2 ^ 32 }
    requires room { HasRoom 8 fresh.now }
    ensures { Does depth (machine.catches kind) (frames_of fresh.old) (frames_of fresh.new) result }
{
    match kind {
        TokenKind::Catch => takes(
            fresh,
            depth,
            0,
            &[
                (0, Frame::Expect(TokenKind::LeftParen)),
                (0, Frame::CatchType),
                (0, Frame::Expect(TokenKind::Identifier)),
                (0, Frame::Expect(TokenKind::RightParen)),
                (1, Frame::Block),
                (0, Frame::MoreCatches),
            ],
        ),
        _ => Answer::Refused,
    }
}

pub fn more_catches(fresh: &mut Fresh, depth: u64, kind: TokenKind) -> Answer
    requires fits { depth ≤ 2 ^ 32 }
    requires room { HasRoom 8 fresh.now }
    ensures { Does depth (machine.more_catches kind) (frames_of fresh.old) (frames_of fresh.new) result }
{
    match kind {
        TokenKind::Catch => catches(fresh, depth, TokenKind::Catch),
        _ => Answer::Passed,
    }
}

pub fn catch_type(fresh: &mut Fresh, depth: u64, kind: TokenKind) -> Answer
    requires fits { depth ≤ 2 ^ 32 }
    requires room { HasRoom 8 fresh.now }
    ensures { Does depth (machine.catch_type kind) (frames_of fresh.old) (frames_of fresh.new) result }
{
    match kind {
        TokenKind::Final => goes(fresh, depth, &[Frame::Expect(TokenKind::Identifier)]),
        TokenKind::Identifier => goes(fresh, depth, &[]),
        _ => Answer::Refused,
    }
}
