//! How much of a list of tokens the recognizer takes.

ghost use Rattle.std.specs.Prelude.{◌≡◌, take, drop, length};
ghost use Rattle.jsh_recognizer.specs.Machine as machine;
ghost use Rattle.jsh_recognizer.specs.Recognizing.{first, kinds, Ends};
ghost use Rattle.jsh_recognizer.specs.Stops.{part_of, IsStop};

use crate::recognizer::{Advance, Recognizer, Start};
use jsh_tree::{Token, TokenKind};

/// Why the reading of tokens ended, with a kind of token that may come where more has to.
#[derive(Clone, Copy, Debug, PartialEq, Eq)]
pub enum End {
    /// All tokens are read, and nothing more need come.
    Whole,
    /// All tokens are read, and more has to come.
    Open(Option<TokenKind>),
    /// The next token stands deeper than the limit.
    TooDeep,
    /// No such token can come next.
    Refused(Option<TokenKind>),
}

/// How much of a list of tokens was taken.
#[derive(Clone, Copy, Debug, PartialEq, Eq)]
pub struct Scanned {
    /// How many tokens were taken.
    pub read: usize,
    pub end: End,
}

/// Takes tokens as long as they may come.
pub fn scan(start: Start, tokens: &[Token]) -> Scanned
    ensures stop { IsStop (part_of start) 256 tokens.now result }
    ensures runs { (last : machine.Frames) × machine.Runs 256 (first start) (kinds (take result.read tokens.now)) last × Ends 256 last (drop result.read tokens.now) result.end }
{
    let mut recognizer = Recognizer::new(start);
    for (read, token) in tokens.iter().enumerate() {
        match recognizer.advance(token.kind) {
            Advance::Taken => {}
            Advance::TooDeep => return Scanned {
                read,
                end: End::TooDeep,
            },
            Advance::Refused => {
                let end = End::Refused(recognizer.wanted());
                return Scanned { read, end };
            }
        }
    }
    let end = if recognizer.is_whole() {
        End::Whole
    } else {
        End::Open(recognizer.wanted())
    };
    Scanned {
        read: tokens.len(),
        end,
    }
}
