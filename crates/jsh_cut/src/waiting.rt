//! A text that waits for a line.

ghost use Rattle.std.specs.Prelude.{◌≡◌, ◌+◌, ◌-◌, ◌^◌, ◌<◌, ◌++◌, ◌∷◌, [], length, take, reverse, slice_range, IfOk};
ghost use Rattle.std.specs.Option.{option_map};
ghost use Rattle.std.specs.Str.{IsCharBoundary};
ghost use Rattle.jsh_lex.specs.Chars.{drop_while};
ghost use Rattle.jsh_tree.specs.Text.{is_white};
ghost use Rattle.jsh_cut.specs.Commands as spec;

use crate::onward::{lex_from, lex_onward, onward_of};
use crate::remainder::Remainder;
use crate::scan::{Scan, last_end, part};
use jsh_complete::{Completion, Reader};
use jsh_lex::LexFault;
use jsh_lines::{Edge, first_place, last_place};
use jsh_tree::{Seq, Token};
use std::alloc::{AllocError, Global};
use std::fmt;
use std::marker::Model;

/// A text that waits for a line, with what is known of it, so that only the line is read that comes. Contracts see it as the text.
#[derive(Drop)]
pub struct Waiting {
    text: String,
    /// Those in front of its first fault.
    tokens: Vec<Token>,
    /// That fault, and its place.
    fault: Option<(LexFault, u32)>,
    /// The place of the first character that isn't white, or the end of the text.
    first: usize,
    /// The place behind the last one, or the start of the text.
    last: usize,
    /// How far the tokens were read.
    reader: Box<Reader>,
}

impl Model for Waiting {
    ghost use Rattle.std.specs.Prelude.{List, ℕ};
    ghost use Rattle.std.specs.String.{string_bytes};

    ghost Value = { List ℕ };

    ghost use Rattle.jsh_cut.specs.Scans.{IsKnown};

    ghost view = { λ w. string_bytes w.text };

    ghost invariant = { λ w. IsKnown (string_bytes w.text) w.tokens.items w.fault w.first w.last w.reader.value };
}

impl fmt::Debug for Waiting {
    fn fmt<W: fmt::Write>(&self, f: &mut fmt::Formatter<W>) -> fmt::Result {
        let text = self.as_str();
        write!(f, "{text:?}")
    }
}

/// The kind of a fault, without its place.
fn kind_of(fault: Option<(LexFault, u32)>) -> Option<LexFault>
    ensures { result ≡ option_map (λ f. f.0) fault }
{
    match fault {
        Some((kind, _)) => Some(kind),
        None => None,
    }
}

/// The place of the first character that isn't white, where that of a front of the text is known.
fn first_onward(text: &str, front: usize, first: usize) -> usize
    requires front { IsCharBoundary text.now front }
    requires first { first ≡ length (take front text.now) - length (drop_while is_white (take front text.now)) }
    requires between { IsCharBoundary (take front text.now) first }
    ensures value { result ≡ length text.now - length (drop_while is_white text.now) }
    ensures between { IsCharBoundary text.now result }
{
    if first < front {
        first
    } else {
        front + first_place(Edge::White, &text[front..])
    }
}

/// The place behind the last character that isn't white, where that of a front of the text is known.
fn last_onward(text: &str, front: usize, last: usize) -> usize
    requires front { IsCharBoundary text.now front }
    requires last { last ≡ length (drop_while is_white (reverse (take front text.now))) }
    requires between { IsCharBoundary (take front text.now) last }
    ensures value { result ≡ length (drop_while is_white (reverse text.now)) }
    ensures between { IsCharBoundary text.now result }
{
    let more = last_place(Edge::White, &text[front..]);
    if more > 0 { front + more } else { last }
}

impl Waiting {
    /// No text.
    pub fn new(alloc: Global) -> Result<Waiting, AllocError>
        ensures { IfOk result (λ waiting. waiting ≡ []) }
    {
        Waiting::of(alloc, "")
    }

    /// A text of which nothing is known yet.
    pub fn of(alloc: Global, text: &str) -> Result<Waiting, AllocError>
        requires { length text.now < 2 ^ 32 }
        ensures { IfOk result (λ waiting. waiting ≡ text.now) }
    {
        let mut tokens = Vec::new(alloc);
        let fault = lex_from(alloc, text, 0, &mut tokens)?;
        Ok(Waiting {
            text: String::from_str(alloc, text)?,
            tokens,
            fault,
            first: first_place(Edge::White, text),
            last: last_place(Edge::White, text),
            reader: Box::new(alloc, Reader::new())?,
        })
    }

    pub fn as_str(&self) -> &str
        ensures value { result.now ≡ self.now }
        ensures short { length result.now < 2 ^ 32 }
    {
        self.text.as_str()
    }

    /// The text with the line behind it, and the line's end.
    pub fn with_line(self, alloc: Global, line: &str) -> Result<Waiting, AllocError>
        requires { length self + length line.now + 1 < 2 ^ 32 }
        ensures { IfOk result (λ grown. grown ≡ self ++ (line.now ++ 10 ∷ [])) }
    {
        let Waiting {
            mut text,
            mut tokens,
            fault,
            first,
            last,
            mut reader,
        } = self;
        let front = text.len();
        let onward = onward_of(text.as_str(), fault, line);
        text.push_str(line)?;
        text.push('\n')?;
        let fault = lex_onward(
            alloc,
            text.as_str(),
            onward,
            fault,
            &mut tokens,
            &mut reader,
        )?;
        let first = first_onward(text.as_str(), front, first);
        let last = last_onward(text.as_str(), front, last);
        Ok(Waiting {
            text,
            tokens,
            fault,
            first,
            last,
            reader,
        })
    }

    /// Whether the text is whole, and where its first snippet ends. Only the tokens are read that weren't yet.
    pub fn analyze(&mut self) -> Completion
        ensures same { self.new ≡ self.old }
        ensures value { result ≡ spec.completion self.old }
    {
        self.reader.analyze(
            self.text.as_str(),
            self.tokens.as_slice(),
            kind_of(self.fault),
        )
    }

    /// The text of which nothing is cut off yet.
    pub fn into_remainder(self) -> Remainder
        ensures { result ≡ self }
    {
        let Waiting {
            text,
            tokens,
            fault,
            first: _first,
            last: _last,
            reader: _reader,
        } = self;
        let scan = Scan {
            tokens: Seq::from_vec(tokens),
            fault: kind_of(fault),
        };
        Remainder::whole(text, scan)
    }

    /// Where the source of the text begins.
    fn begin(&self) -> usize
        ensures value { result ≡ spec.begin_of self.now }
        ensures between { IsCharBoundary self.now result }
    {
        match self.tokens.as_slice() {
            [token, ..] => token.span.from as usize,
            [] => self.first,
        }
    }

    /// Where the source of the text ends.
    fn end(&self) -> usize
        ensures value { result ≡ spec.end_of self.now }
        ensures between { IsCharBoundary self.now result }
    {
        match self.fault {
            Some(_) => self.last,
            None => last_end(self.tokens.as_slice()) as usize,
        }
    }

    /// The source that the text submits.
    pub fn source(&self) -> &str
        ensures { result.now ≡ spec.source_of self.now }
    {
        part(self.as_str(), self.begin(), self.end())
    }
}
