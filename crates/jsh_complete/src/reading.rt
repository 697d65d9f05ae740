//! How far the tokens of a text lead.

ghost use Rattle.std.specs.Prelude.{◌≡◌, List};
ghost use Rattle.jsh_tree.specs.declared.token.Token.{Token as Lexed};
ghost use Rattle.jsh_complete.specs.Reading.{HasRead, Halts};

use jsh_recognizer::{Advance, Recognizer, Start};
use jsh_tree::Token;

/// Why no more tokens were taken.
#[derive(Clone, Copy)]
pub enum Halt {
    /// There are no more.
    AtEnd,
    /// The next one stands too deep.
    TooDeep,
    /// No such token can come next.
    Refused,
}

/// How far the tokens of a text were read. Where the text goes on, it is read on from there.
#[derive(Drop)]
pub struct Reader {
    pub recognizer: Recognizer,
    /// How many tokens were taken.
    pub taken: usize,
    /// How many the longest snippet has that they begin with, or 0 where they begin with none.
    pub longest: usize,
}

impl Reader {
    /// Nothing is read.
    pub fn new() -> Reader
        ensures { (ts : List Lexed) → HasRead ts result }
    {
        Reader {
            recognizer: Recognizer::new(Start::Snippet),
            taken: 0,
            longest: 0,
        }
    }

    /// Takes tokens as long as they may come.
    pub(crate) fn read(&mut self, tokens: &[Token]) -> Halt
        requires { HasRead tokens.now self.old }
        ensures read { HasRead tokens.now self.new }
        ensures halt { Halts tokens.now self.new.taken result }
    {
        while self.taken < tokens.len() {
            match self.recognizer.advance(tokens[self.taken].kind) {
                Advance::Taken => {}
                Advance::TooDeep => return Halt::TooDeep,
                Advance::Refused => return Halt::Refused,
            }
            self.taken += 1;
            if self.recognizer.is_whole() {
                self.longest = self.taken;
            }
        }
        Halt::AtEnd
    }
}
