//! The words that a command begins with, and what follows one.

ghost use Rattle.std.specs.Prelude.{◌≡◌, take, drop, map};
ghost use Rattle.std.specs.Str.{IsCharBoundary};
ghost use Rattle.jsh_lex.specs.Chars.{drop_while};
ghost use Rattle.jsh_lines.specs.Edges.{is_space};
ghost use Rattle.jsh_commands.specs.Words as spec;

use jsh_lines::{Edge, before_back, behind_front};

/// A word that a command begins with.
#[derive(Clone, Copy, Debug)]
pub enum Word {
    List,
    Vars,
    Methods,
    Types,
    Imports,
    Threads,
    Help,
    Drop,
    Stop,
    Reset,
    Exit,
}

const SPELLINGS: [(&[u8], Word); 12] = [
    (b"/list", Word::List),
    (b"/vars", Word::Vars),
    (b"/methods", Word::Methods),
    (b"/types", Word::Types),
    (b"/imports", Word::Imports),
    (b"/threads", Word::Threads),
    (b"/help", Word::Help),
    (b"/?", Word::Help),
    (b"/drop", Word::Drop),
    (b"/stop", Word::Stop),
    (b"/reset", Word::Reset),
    (b"/exit", Word::Exit),
];

fn word_in(mut table: &[(&[u8], Word)], text: &[u8]) -> Option<Word>
    ensures { result ≡ spec.word_in (map (λ entry. (entry.0.now, entry.1)) table.entry.now) text.now }
{
    while let [entry, rest @ ..] = table {
        if entry.0 == text {
            return Some(entry.1);
        }
        table = rest;
    }
    None
}

#[tactic(auto, unfolding(crate::specs::Words::word_of))]
pub fn word_of(text: &[u8]) -> Option<Word>
    ensures { result ≡ spec.word_of text.now }
{
    word_in(&SPELLINGS, text)
}

pub fn trimmed(line: &str) -> &str
    ensures { result.now ≡ spec.trimmed line.now }
{
    before_back(Edge::Blank, behind_front(Edge::Blank, line))
}

fn is_space(byte: u8) -> bool
    ensures { result ≡ is_space byte }
{
    byte == b' ' || byte == b'\t'
}

/// The place behind the first word of a text that begins with one.
fn word_end(text: &str) -> usize
    ensures word { take result text.now ≡ spec.first_word text.now }
    ensures rest { drop result text.now ≡ drop_while spec.is_no_space text.now }
    ensures between { IsCharBoundary text.now result }
{
    let bytes = text.as_bytes();
    let mut at = 0;
    while at < bytes.len() && !is_space(bytes[at]) {
        at += 1;
    }
    at
}

/// The first word of a text that begins with one, and what follows it without the blanks between.
pub fn split_word(text: &str) -> (&str, &str)
    ensures word { result.0.now ≡ spec.first_word text.now }
    ensures argument { result.1.now ≡ spec.argument text.now }
{
    let end = word_end(text);
    (&text[..end], behind_front(Edge::Blank, &text[end..]))
}
