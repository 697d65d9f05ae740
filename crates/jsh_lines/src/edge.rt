//! Where a text begins and ends, but for characters that don't count there.

ghost use Rattle.std.specs.Prelude.{◌≡◌, ◌-◌, length, reverse};
ghost use Rattle.std.specs.Str.{IsCharBoundary};
ghost use Rattle.jsh_lex.specs.Chars.{drop_while};
ghost use Rattle.jsh_lines.specs.Edges.{is_outer, behind_front, before_back};

use jsh_tree::is_white;

/// The characters that don't count.
#[derive(Clone, Copy, Debug)]
pub enum Edge {
    /// White space (JLS 3.6).
    White,
    /// Spaces and tabs.
    Blank,
    /// Spaces, tabs and carriage returns.
    BlankOrReturn,
}

fn is_outer(edge: Edge, byte: u8) -> bool
    ensures { result ≡ is_outer edge byte }
{
    match edge {
        Edge::White => is_white(byte),
        Edge::Blank => matches!(byte, b' ' | b'\t'),
        Edge::BlankOrReturn => matches!(byte, b' ' | b'\t' | b'\r'),
    }
}

/// The place of the first character that counts, or the end of the text.
pub fn first_place(edge: Edge, text: &str) -> usize
    ensures value { result ≡ length text.now - length (drop_while (is_outer edge) text.now) }
    ensures between { IsCharBoundary text.now result }
{
    let bytes = text.as_bytes();
    let mut at = 0;
    while at < bytes.len() && is_outer(edge, bytes[at]) {
        at += 1;
    }
    at
}

/// The place behind the last character that counts, or the start of the text.
pub fn last_place(edge: Edge, text: &str) -> usize
    ensures value { result ≡ length (drop_while (is_outer edge) (reverse text.now)) }
    ensures between { IsCharBoundary text.now result }
{
    let bytes = text.as_bytes();
    let mut end = bytes.len();
    while 0 < end && is_outer(edge, bytes[end - 1]) {
        end -= 1;
    }
    end
}

/// The text from its first character that counts.
pub fn behind_front(edge: Edge, text: &str) -> &str
    ensures { result.now ≡ behind_front edge text.now }
{
    &text[first_place(edge, text)..]
}

/// The text up to its last character that counts.
pub fn before_back(edge: Edge, text: &str) -> &str
    ensures { result.now ≡ before_back edge text.now }
{
    &text[..last_place(edge, text)]
}
