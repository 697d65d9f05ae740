//! The frames that one move makes, the next one last.

ghost use Rattle.std.specs.Prelude.{◌≡◌, ◌∷◌, ◌++◌, ◌<◌, ◌+◌, ◌^◌, length, map};
ghost use Rattle.jsh_recognizer.specs.Machine as machine;
ghost use Rattle.jsh_recognizer.specs.Stacks.{frames_of, HasRoom};

use crate::frame::Frame;
use arrayvec::ArrayVec;

/// Frames with the depths at which they stand. No move makes more than eight.
pub type Fresh = ArrayVec<(u64, Frame), 8>;

/// Puts a frame in front of the others.
fn put(fresh: &mut Fresh, depth: u64, frame: Frame)
    requires { HasRoom 1 fresh.now }
    ensures frames { frames_of fresh.new ≡ (depth, frame) ∷ frames_of fresh.old }
    ensures len { length fresh.new.items ≡ length fresh.old.items + 1 }
{
    fresh.push((depth, frame));
}

/// Puts frames in front of the others, each so many parts deeper.
pub fn put_all(fresh: &mut Fresh, depth: u64, frames: &[(u32, Frame)])
    requires fits { depth < 2 ^ 33 }
    requires room { HasRoom (length frames.now) fresh.now }
    ensures frames { frames_of fresh.new ≡ machine.onto depth frames.now (frames_of fresh.old) }
    ensures len { length fresh.new.items ≡ length fresh.old.items + length frames.now }
{
    match frames {
        [] => {}
        [(deeper, frame), rest @ ..] => {
            put_all(fresh, depth, rest);
            put(fresh, depth + u64::from(*deeper), *frame);
        }
    }
}

/// Puts frames in front of the others, at one depth.
pub fn put_each(fresh: &mut Fresh, depth: u64, frames: &[Frame])
    requires room { HasRoom (length frames.now) fresh.now }
    ensures frames { frames_of fresh.new ≡ map (λ f. (depth, f)) frames.now ++ frames_of fresh.old }
    ensures len { length fresh.new.items ≡ length fresh.old.items + length frames.now }
{
    match frames {
        [] => {}
        [frame, rest @ ..] => {
            put_each(fresh, depth, rest);
            put(fresh, depth, *frame);
        }
    }
}
