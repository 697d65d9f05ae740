//! Lines that are commands.

ghost use Rattle.std.specs.Prelude.{◌≡◌};
ghost use Rattle.jsh_cut.specs.Commands as spec;

use jsh_lines::{Edge, before_back, behind_front, is_blank};

/// The line without spaces and tabs at its start, and without spaces, tabs and carriage returns at its end.
pub fn trim(line: &str) -> &str
    ensures { result.now ≡ spec.trimmed line.now }
{
    before_back(Edge::BlankOrReturn, behind_front(Edge::Blank, line))
}

/// Whether the line is a command, where nothing is held that must go on.
pub fn is_slash_line(line: &str) -> bool
    ensures { result ≡ spec.is_slash_line line.now }
{
    match behind_front(Edge::Blank, line).as_bytes() {
        [first, second, ..] => *first == b'/' && (second.is_ascii_alphabetic() || *second == b'?'),
        _ => false,
    }
}

/// Whether a text that may end does so before the line.
pub fn ends_before(line: &str) -> bool
    ensures { result ≡ spec.ends_before line.now }
{
    is_slash_line(line) || is_blank(line.as_bytes())
}
