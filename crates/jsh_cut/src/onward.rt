//! How a text is lexed that goes on: only from where its lexis can be taken up again.

ghost use Rattle.std.specs.Prelude.{◌≡◌, ◌+◌, ◌^◌, ◌<◌, ◌++◌, ◌∷◌, [], length, drop, map, codes, is_some, IfOk};
ghost use Rattle.std.specs.Str.{IsCharBoundary};
ghost use Rattle.jsh_lex.specs.Chars.{begins};
ghost use Rattle.jsh_lex.specs.Lexis as lexis;
ghost use Rattle.jsh_pieces.specs.Pieces as pieces;
ghost use Rattle.jsh_complete.specs.Reading.{HasRead};
ghost use Rattle.jsh_cut.specs.Scans.{lexed_as, Goes, EachFits};

use jsh_complete::Reader;
use jsh_lex::{LexError, LexFault, lex};
use jsh_tree::{Span, Token};
use std::alloc::{AllocError, Global};

/// How a text is lexed that goes on with a line.
#[derive(Clone, Copy, Debug)]
pub enum Onward {
    /// Its tokens stay as they are, and a comment stays open.
    Stays,
    /// From a place on. The tokens so far stay.
    From(usize),
    /// From its start.
    Anew,
}

/// Whether the text begins with what closes a comment.
fn begins_closing(bytes: &[u8]) -> bool
    ensures { result ≡ begins (codes "*/") bytes.now }
{
    match bytes {
        [first, second, ..] => *first == b'*' && *second == b'/',
        _ => false,
    }
}

/// Whether a line closes a comment that is open before it.
fn closes_comment(line: &str) -> bool
    ensures { result ≡ is_some (lexis.behind_comment line.now) }
{
    let bytes = line.as_bytes();
    let mut at = 0;
    while at < bytes.len() {
        if begins_closing(&bytes[at..]) {
            return true;
        }
        at += 1;
    }
    false
}

/// Whether the text has no last line that a line feed doesn't end.
fn ends_line(text: &str) -> bool
    ensures { result ≡ pieces.ends_line text.now }
{
    match text.as_bytes() {
        [.., last] => *last == b'\n',
        [] => true,
    }
}

/// How a text with this fault is lexed that goes on with a line.
pub fn onward_of(text: &str, fault: Option<(LexFault, u32)>, line: &str) -> Onward
    requires { (lexis.tokens text.now).fault ≡ fault }
    ensures { Goes (text.now ++ (line.now ++ 10 ∷ [])) (lexis.tokens text.now) result }
{
    match fault {
        None => {
            if ends_line(text) {
                Onward::From(text.len())
            } else {
                Onward::Anew
            }
        }
        Some((kind, place)) => match kind {
            LexFault::OpenComment => {
                if ends_line(text) && !closes_comment(line) {
                    Onward::Stays
                } else {
                    Onward::From(place as usize)
                }
            }
            // no text that waits has another one
            _ => Onward::Anew,
        },
    }
}

/// A token so many bytes further.
fn moved(token: Token, by: u32) -> Token
    requires from { by + token.span.from < 2 ^ 32 }
    requires to { by + token.span.to < 2 ^ 32 }
    ensures { result ≡ pieces.moved by token }
{
    Token {
        kind: token.kind,
        span: Span {
            from: by + token.span.from,
            to: by + token.span.to,
        },
    }
}

/// Adds tokens that stand so many bytes further.
fn add_moved(tokens: &mut Vec<Token>, by: u32, more: &[Token]) -> Result<(), AllocError>
    requires { EachFits by more.now }
    ensures { IfOk result (λ _. tokens.new.items ≡ tokens.old.items ++ map (pieces.moved by) more.now) }
{
    for token in more {
        tokens.push(moved(*token, by))?;
    }
    Ok(())
}

/// Adds the tokens of the text from a place on, and gives the first fault there.
pub fn lex_from(
    alloc: Global,
    text: &str,
    place: usize,
    tokens: &mut Vec<Token>,
) -> Result<Option<(LexFault, u32)>, AllocError>
    requires short { length text.now < 2 ^ 32 }
    requires between { IsCharBoundary text.now place }
    ensures { IfOk result (λ fault. pieces.joined tokens.old.items (pieces.moved_lexed place (lexis.tokens (drop place text.now))) ≡ lexed_as tokens.new.items fault) }
{
    let by = place as u32;
    match lex(alloc, &text[place..]) {
        Ok(more) => {
            add_moved(tokens, by, &more)?;
            Ok(None)
        }
        Err(error) => match error {
            LexError::NoMemory => Err(AllocError),
            LexError::Fault {
                kind,
                place,
                before,
            } => {
                add_moved(tokens, by, before.as_slice())?;
                Ok(Some((kind, by + place)))
            }
        },
    }
}

/// Makes the tokens and the fault of a text before a line those of the text with it. What was read stays read where the tokens stay.
pub fn lex_onward(
    alloc: Global,
    text: &str,
    onward: Onward,
    fault: Option<(LexFault, u32)>,
    tokens: &mut Vec<Token>,
    reader: &mut Reader,
) -> Result<Option<(LexFault, u32)>, AllocError>
    requires short { length text.now < 2 ^ 32 }
    requires goes { Goes text.now (lexed_as tokens.old.items fault) onward }
    requires read { HasRead tokens.old.items reader.old }
    ensures lexed { IfOk result (λ behind. lexis.tokens text.now ≡ lexed_as tokens.new.items behind) }
    ensures read { IfOk result (λ _. HasRead tokens.new.items reader.new) }
{
    match onward {
        Onward::Stays => Ok(fault),
        Onward::From(place) => lex_from(alloc, text, place, tokens),
        Onward::Anew => {
            tokens.clear();
            *reader = Reader::new();
            lex_from(alloc, text, 0, tokens)
        }
    }
}
