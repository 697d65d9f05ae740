//! The recognizer, which takes one token after another.

ghost use Rattle.std.specs.Prelude.{◌≡◌, ◌+◌, ◌<◌, ◌≤◌, [], ◌∷◌, ◌++◌, length, take, reverse, MatchBool, slice_index_or};
ghost use Rattle.jsh_recognizer.specs.declared.frame.Frame.TheVariants as frames;
ghost use Rattle.jsh_recognizer.specs.Machine as machine;
ghost use Rattle.jsh_recognizer.specs.Stacks.{frames_of};
ghost use Rattle.jsh_recognizer.specs.Bounds.{EachBounded};
ghost use Rattle.jsh_recognizer.specs.Recognizing.{EachWithin, Meets, Finds, first, Looks, Advances, Wants};

use crate::answer::Answer;
use crate::frame::Frame;
use crate::fresh::Fresh;
use crate::moves::move_of;
use crate::stops::{may_stop, wanted_by};
use arrayvec::ArrayVec;
use jsh_tree::TokenKind;

/// How many constructs may stand in one another.
pub const LIMIT: u32 = 256;

/// As many frames as can stand one behind another: six, and three for each part that contains them, up to one past the limit.
pub type Stack = ArrayVec<(u64, Frame), 777>;

/// What a text should be.
#[derive(Clone, Copy, Debug, PartialEq, Eq)]
pub enum Start {
    Expression,
    Statement,
    Snippet,
}

/// What became of a token.
#[derive(Clone, Copy, Debug, PartialEq, Eq)]
pub enum Advance {
    Taken,
    /// It stands deeper than the limit.
    TooDeep,
    /// No such token can come.
    Refused,
}

/// What may still come behind the tokens so far.
#[derive(Drop)]
pub struct Recognizer {
    pub stack: Stack,
    ghost within: { EachWithin 257 stack.items },
    ghost bounded: { EachBounded (frames_of stack) },
}

/// Whether two kinds of tokens are the same.
fn is_same(wanted: TokenKind, kind: TokenKind) -> bool
    ensures { MatchBool result (wanted ≡ kind) (wanted ≡ kind → ⊥) }
{
    wanted == kind
}

/// Whether a frame expects this token.
fn awaits(frame: Frame, kind: TokenKind) -> bool
    ensures { MatchBool result (frame ≡ frames.Expect kind) (frame ≡ frames.Expect kind → ⊥) }
{
    match frame {
        Frame::Expect(wanted) => is_same(wanted, kind),
        _ => false,
    }
}

/// What one frame does with a token: the frames that come in its place.
fn step(fresh: &mut Fresh, depth: u64, frame: Frame, kind: TokenKind) -> Answer
    requires { depth ≤ 257 }
    ensures { Meets depth frame kind (frames_of fresh.new) result }
{
    fresh.clear();
    if awaits(frame, kind) {
        return Answer::Took(depth);
    }
    move_of(fresh, depth, frame, kind)
}

/// What comes of a token.
#[derive(Drop)]
pub struct Found {
    /// How many frames stay, which stand behind the one that takes it.
    pub left: usize,
    /// The depth of the token.
    pub at: u64,
    /// The frames that come in place of the one that takes it.
    pub fresh: Fresh,
}

/// The frame at a place of the stack, with its depth.
fn frame_at(stack: &Stack, place: usize) -> (u64, Frame)
    requires { place < length stack.now.items }
    ensures { result ≡ slice_index_or stack.now.items place result }
{
    stack[place]
}

/// Finds the frame that takes a token.
fn find(stack: &Stack, kind: TokenKind) -> Option<Found>
    requires { EachWithin 257 stack.now.items }
    ensures { Finds kind stack.now.items result }
{
    let mut fresh = Fresh::new();
    let mut left = stack.len();
    while left > 0 {
        let (depth, frame) = frame_at(stack, left - 1);
        match step(&mut fresh, depth, frame, kind) {
            Answer::Took(at) => return Some(Found {
                left: left - 1,
                at,
                fresh,
            }),
            Answer::Passed => left -= 1,
            Answer::Refused => return None,
        }
    }
    None
}

/// The frame that a text begins with.
fn first_of(start: Start) -> Frame
    ensures { (0, result) ∷ [] ≡ first start }
{
    match start {
        Start::Expression => Frame::Expression,
        Start::Statement => Frame::Statement,
        Start::Snippet => Frame::Snippet,
    }
}

/// Keeps so many frames, and puts these in front of them.
fn replace(stack: &mut Stack, left: usize, fresh: &Fresh)
    requires { length (take left stack.now.items) + length fresh.now.items ≤ 777 }
    ensures { frames_of stack.new ≡ frames_of fresh.now ++ reverse (take left stack.old.items) }
{
    stack.truncate(left);
    let Ok(()) = stack.try_extend_from_slice(fresh) else {
        unreachable!();
    };
}

impl Recognizer {
    pub fn new(start: Start) -> Recognizer
        ensures { frames_of result.stack ≡ first start }
    {
        let mut stack = Stack::new();
        stack.push((0, first_of(start)));
        Recognizer { stack }
    }

    /// What `advance` would answer.
    pub fn looks(&self, kind: TokenKind) -> Advance
        ensures { Looks 256 kind (frames_of self.now.stack) result }
    {
        match find(&self.stack, kind) {
            None => Advance::Refused,
            Some(found) if found.at > u64::from(LIMIT) => Advance::TooDeep,
            Some(_) => Advance::Taken,
        }
    }

    /// Takes one more token. What may come stays the same unless it is taken.
    pub fn advance(&mut self, kind: TokenKind) -> Advance
        ensures { Advances 256 kind (frames_of self.old.stack) (frames_of self.new.stack) result }
    {
        match find(&self.stack, kind) {
            None => Advance::Refused,
            Some(found) if found.at > u64::from(LIMIT) => Advance::TooDeep,
            Some(found) => {
                replace(&mut self.stack, found.left, &found.fresh);
                Advance::Taken
            }
        }
    }

    /// Whether nothing more need come.
    pub fn is_whole(&self) -> bool
        ensures { result ≡ machine.may_all_stop (frames_of self.now.stack) }
    {
        let mut left = self.stack.len();
        while left > 0 {
            let (_, frame) = frame_at(&self.stack, left - 1);
            if !may_stop(frame) {
                return false;
            }
            left -= 1;
        }
        true
    }

    /// A kind of token that may come: one that has to, if there is one, and else the first that may.
    pub fn wanted(&self) -> Option<TokenKind>
        ensures { Wants (frames_of self.now.stack) result }
    {
        if let Some(kind) = self.due() {
            if find(&self.stack, kind).is_some() {
                return Some(kind);
            }
        }
        self.first_wanted()
    }

    /// A kind of token that the first frame takes of which more has to come.
    fn due(&self) -> Option<TokenKind> {
        for (_, frame) in self.stack.iter().rev() {
            if !may_stop(*frame) {
                return wanted_by(*frame);
            }
        }
        None
    }

    /// A kind of token that the first frame takes that takes any.
    fn first_wanted(&self) -> Option<TokenKind>
        ensures { Wants (frames_of self.now.stack) result }
    {
        let mut left = self.stack.len();
        while left > 0 {
            let (_, frame) = frame_at(&self.stack, left - 1);
            if let Some(kind) = wanted_by(frame) {
                return Some(kind);
            }
            left -= 1;
        }
        None
    }
}
