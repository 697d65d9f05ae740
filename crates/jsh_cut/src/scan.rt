//! The tokens of a text, and parts of it.

ghost use Rattle.std.specs.Prelude.{◌≡◌, slice_range};
ghost use Rattle.std.specs.Str.{IsCharBoundary};
ghost use Rattle.jsh_complete.specs.Completeness.{end_of};

use jsh_lex::LexFault;
use jsh_tree::{Seq, Token};

/// The tokens of a text up to its first fault, and the kind of that fault.
#[derive(Debug, Drop)]
pub struct Scan {
    pub tokens: Seq<Token>,
    pub fault: Option<LexFault>,
}

/// Where the last token ends.
pub fn last_end(tokens: &[Token]) -> u32
    ensures { result ≡ end_of tokens.now }
{
    match tokens {
        [.., last] => last.span.to,
        [] => 0,
    }
}

/// A part of a text, or nothing where it would end before it begins.
pub fn part(text: &str, begin: usize, end: usize) -> &str
    requires from { IsCharBoundary text.now begin }
    requires to { IsCharBoundary text.now end }
    ensures { result.now ≡ slice_range text.now begin end }
{
    if begin < end { &text[begin..end] } else { "" }
}
