//! What a frame does with a token.

ghost use Rattle.std.specs.Prelude.{◌≡◌, ◌+◌, ◌<◌, ◌^◌, length, map};
ghost use Rattle.jsh_recognizer.specs.Machine as machine;
ghost use Rattle.jsh_recognizer.specs.Stacks.{frames_of, HasRoom, Does, closed};

use crate::frame::Frame;
use crate::fresh::{Fresh, put_all, put_each};

/// What a frame did with a token.
#[derive(Clone, Copy, Debug, PartialEq, Eq)]
pub enum Answer {
    /// It took it, which stands at this depth.
    Took(u64),
    /// Nothing more came of the frame.
    Passed,
    /// No such token can come.
    Refused,
}

impl Answer {
    /// The answer of a frame that others stand in front of, which don't pass.
    pub fn closed(self) -> Answer
        ensures { result ≡ closed self }
    {
        match self {
            Answer::Took(at) => Answer::Took(at),
            Answer::Passed | Answer::Refused => Answer::Refused,
        }
    }
}

/// Takes the token so many parts deeper than the frame, in whose place these stand.
pub fn takes(fresh: &mut Fresh, depth: u64, own: u32, frames: &[(u32, Frame)]) -> Answer
    requires fits { depth < 2 ^ 33 }
    requires room { HasRoom (length frames.now) fresh.now }
    ensures { Does depth (machine.takes own frames.now) (frames_of fresh.old) (frames_of fresh.new) result }
{
    put_all(fresh, depth, frames);
    Answer::Took(depth + u64::from(own))
}

/// Takes the token where it stands.
pub fn goes(fresh: &mut Fresh, depth: u64, frames: &[Frame]) -> Answer
    requires fits { depth < 2 ^ 33 }
    requires room { HasRoom (length frames.now) fresh.now }
    ensures { Does depth (machine.goes frames.now) (frames_of fresh.old) (frames_of fresh.new) result }
{
    put_each(fresh, depth, frames);
    Answer::Took(depth)
}
