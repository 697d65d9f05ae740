//! What a text is by its tokens.

ghost use Rattle.std.specs.Prelude.{◌≡◌, ◌<◌, ◌≤◌, ◌^◌, List, take, length, MatchBool, [], ◌∷◌, ◌++◌};
ghost use Rattle.jsh_tree.specs.declared.token.TokenKind.{TokenKind as Kind};
ghost use Rattle.jsh_tree.specs.declared.token.TokenKind.TheVariants as token;
ghost use Rattle.jsh_recognizer.specs.Recognizing.{kinds};
ghost use Rattle.jsh_recognizer.specs.Stacks.{frames_of};
ghost use Rattle.jsh_complete.specs.Completeness.{at_end, at_fault, IsSnippet, LacksSemicolon, end_of, IsCompletion};
ghost use Rattle.jsh_complete.specs.Completing.{completion};
ghost use Rattle.jsh_complete.specs.declared.completion.Completeness.TheVariants as completeness;
ghost use Rattle.jsh_complete.specs.Reading.{IsBehind, MayCome, IsOpen, IsLongest, HasRead, Halts, counted_of, stop_of, IsGiven};

use crate::completion::{Completeness, Completion};
use crate::reading::{Halt, Reader};
use arrayvec::ArrayVec;
use jsh_lex::LexFault;
use jsh_recognizer::{Advance, Frame, Recognizer};
use jsh_tree::{Token, TokenKind};

/// Whether such a token may come next, be it too deep.
fn may_come(recognizer: &Recognizer, kind: TokenKind) -> bool
    ensures { (ks : List Kind) → IsBehind ks (frames_of recognizer.now.stack) → MatchBool result (MayCome ks kind) (MayCome ks kind → ⊥) }
{
    match recognizer.looks(kind) {
        Advance::Taken | Advance::TooDeep => true,
        Advance::Refused => false,
    }
}

/// A recognizer for which the same may come.
fn copy_of(recognizer: &Recognizer) -> Recognizer
    ensures { frames_of result.stack ≡ frames_of recognizer.now.stack }
{
    let mut stack = ArrayVec::<(u64, Frame), 777>::new();
    let Ok(()) = stack.try_extend_from_slice(&recognizer.stack) else {
        unreachable!();
    };
    Recognizer { stack }
}

/// Whether a `;` makes a snippet of the tokens.
fn is_whole_with_semicolon(recognizer: &Recognizer) -> bool
    ensures { (ks : List Kind) → IsBehind ks (frames_of recognizer.now.stack) → MatchBool result (IsSnippet (ks ++ token.Semicolon ∷ [])) (IsSnippet (ks ++ token.Semicolon ∷ []) → ⊥) }
{
    // what was read stays as it is
    let mut ahead = copy_of(recognizer);
    match ahead.advance(TokenKind::Semicolon) {
        Advance::Taken => ahead.is_whole(),
        Advance::TooDeep | Advance::Refused => false,
    }
}

/// Whether a `;` is all that is missing. Where a block could begin in its place, that `;` would be an empty statement.
fn lacks_semicolon(recognizer: &Recognizer) -> bool
    ensures { (ks : List Kind) → IsBehind ks (frames_of recognizer.now.stack) → MatchBool result (LacksSemicolon ks) (LacksSemicolon ks → ⊥) }
{
    if may_come(recognizer, TokenKind::LeftBrace) {
        return false;
    }
    match recognizer.looks(TokenKind::Semicolon) {
        Advance::Taken => is_whole_with_semicolon(recognizer),
        Advance::TooDeep | Advance::Refused => false,
    }
}

/// What a text is that has no fault, where all its tokens were taken.
fn judge_whole(recognizer: &Recognizer, tokens: &[Token]) -> Completeness
    requires { IsBehind (kinds tokens.now) (frames_of recognizer.now.stack) }
    ensures { IsGiven (kinds tokens.now) at_end result }
{
    if tokens.is_empty() {
        Completeness::Empty
    } else if recognizer.is_whole() {
        if may_come(recognizer, TokenKind::Else) {
            Completeness::ConsideredIncomplete
        } else {
            Completeness::Complete
        }
    } else if lacks_semicolon(recognizer) {
        Completeness::CompleteWithSemi
    } else {
        Completeness::DefinitelyIncomplete
    }
}

/// What a text is where all depends on the snippets that it begins with.
fn begun(longest: usize) -> Completeness
    ensures some { 0 < longest → result ≡ completeness.Complete }
    ensures none { longest ≡ 0 → result ≡ completeness.Unknown }
{
    if longest > 0 {
        Completeness::Complete
    } else {
        Completeness::Unknown
    }
}

/// Whether there are no tokens yet, or more make them a snippet.
fn is_open(recognizer: &Recognizer, tokens: &[Token]) -> bool
    requires { IsBehind (kinds tokens.now) (frames_of recognizer.now.stack) }
    ensures { MatchBool result (IsOpen (kinds tokens.now)) (IsOpen (kinds tokens.now) → ⊥) }
{
    if tokens.is_empty() {
        return true;
    }
    recognizer.wanted().is_some()
}

/// What a text is that has a fault, where all tokens before it were taken.
fn judge_faulty(
    recognizer: &Recognizer,
    tokens: &[Token],
    longest: usize,
    fault: LexFault,
) -> Completeness
    requires behind { IsBehind (kinds tokens.now) (frames_of recognizer.now.stack) }
    requires longest { IsLongest tokens.now (length tokens.now) longest }
    ensures { IsGiven (kinds tokens.now) (at_fault fault) result }
{
    match fault {
        LexFault::OpenComment => {
            if is_open(recognizer, tokens) {
                Completeness::DefinitelyIncomplete
            } else {
                begun(longest)
            }
        }
        _ => begun(longest),
    }
}

/// What a text is by how far its tokens lead.
fn judge(reader: &Reader, tokens: &[Token], halt: Halt, fault: Option<LexFault>) -> Completeness
    requires read { HasRead tokens.now reader.now }
    requires halt { Halts tokens.now reader.now.taken halt }
    ensures { IsGiven (kinds (counted_of tokens.now reader.now.taken halt)) (stop_of fault halt) result }
{
    match halt {
        Halt::AtEnd => match fault {
            None => judge_whole(&reader.recognizer, tokens),
            Some(fault) => judge_faulty(&reader.recognizer, tokens, reader.longest, fault),
        },
        Halt::TooDeep => begun(reader.longest),
        Halt::Refused => begun(reader.longest),
    }
}

/// Where so many tokens end.
fn end_of_first(tokens: &[Token], count: usize) -> u32
    requires some { 0 < count }
    requires all { count ≤ length tokens.now }
    ensures { result ≡ end_of (take count tokens.now) }
{
    tokens[count - 1].span.to
}

impl Reader {
    /// Reads on, and tells whether the text is whole, and where its first snippet ends, in bytes.
    ///
    /// The tokens are those of the text, or where it has a fault those before the first, whose kind is `fault`, as `lex` of `jsh_lex` gives them. Those that were taken
    /// already aren't read again.
    pub fn analyze(&mut self, text: &str, tokens: &[Token], fault: Option<LexFault>) -> Completion
        requires short { length text.now < 2 ^ 32 }
        requires read { HasRead tokens.now self.old }
        ensures completion { IsCompletion text.now tokens.now fault result }
        ensures value { result ≡ completion text.now tokens.now fault }
        ensures read { HasRead tokens.now self.new }
        ensures longest { result.kind ≡ completeness.Complete → (0 < self.new.longest) × (result.end ≡ end_of (take self.new.longest tokens.now)) }
    {
        let halt = self.read(tokens);
        let kind = judge(self, tokens, halt, fault);
        let end = match kind {
            Completeness::Complete => end_of_first(tokens, self.longest),
            _ => text.len() as u32,
        };
        Completion { kind, end }
    }
}

/// Whether a text is whole, and where its first snippet ends, in bytes.
///
/// The tokens are those of the text, or where it has a fault those before the first, whose kind is `fault`, as `lex` of `jsh_lex` gives them.
pub fn analyze(text: &str, tokens: &[Token], fault: Option<LexFault>) -> Completion
    requires short { length text.now < 2 ^ 32 }
    ensures completion { IsCompletion text.now tokens.now fault result }
    ensures value { result ≡ completion text.now tokens.now fault }
{
    Reader::new().analyze(text, tokens, fault)
}
