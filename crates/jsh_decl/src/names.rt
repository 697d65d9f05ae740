//! Names: of imports, of superclasses and interfaces, and of exceptions.

ghost use Rattle.std.specs.Prelude.{◌≡◌, ◌==◌, ◌&&◌, not, length, drop};
ghost use Rattle.jsh_parse.specs.Reading.{Reads};
ghost use Rattle.jsh_decl.specs.DeclarationReading as read;

use crate::word_input::{sees_dot, sees_extends, sees_star, sees_word, static_word};
use crate::words::ListWord;
use jsh_parse::{Input, ParseError, identifier, sees_comma, semicolon};
use jsh_tree::{Identifier, Import, Seq, Token, TokenKind};

/// Names with dots between them, and whether a dot and a star stand behind them.
fn dotted(input: &Input, from: usize) -> Result<((Seq<Identifier>, bool), usize), ParseError>
    ensures { Reads input.now.tokens.now from (read.dotted_at input.now.text.now (drop from input.now.tokens.now)) result }
{
    let mut parts = Vec::new(input.alloc);
    let mut at = from;
    let most = input.left(from) + 1;
    for _turn in 0..most {
        let (part, behind) = identifier(input, at)?;
        parts.push(part)?;
        if !sees_dot(input, behind) {
            return Ok(((Seq::from_vec(parts), false), behind));
        }
        if sees_star(input, behind + 1) {
            return Ok(((Seq::from_vec(parts), true), behind + 2));
        }
        at = behind + 1;
    }
    Err(input.refuse(at, None))
}

/// Whether an import has one part alone.
fn is_bare(parts: &Seq<Identifier>, on_demand: bool) -> bool
    ensures { result ≡ ((length parts.now == 1) && not on_demand) }
{
    parts.len() == 1 && !on_demand
}

/// An import, from behind its word.
pub fn import(input: &Input, token: Token, at: usize) -> Result<(Import, usize), ParseError>
    ensures { Reads input.now.tokens.now at (read.import_at input.now.text.now token (drop at input.now.tokens.now)) result }
{
    let (is_static, rest) = static_word(input, at);
    let ((parts, on_demand), behind) = dotted(input, rest)?;
    if is_bare(&parts, on_demand) {
        return Err(input.refuse(behind, Some(TokenKind::Dot)));
    }
    let (_, end) = semicolon(input, behind)?;
    let import = Import {
        span: token.span,
        is_static,
        parts,
        on_demand,
    };
    Ok((import, end))
}

/// One name or more, with commas between them.
fn names(input: &Input, from: usize) -> Result<(Seq<Identifier>, usize), ParseError>
    ensures { Reads input.now.tokens.now from (read.names_at input.now.text.now (drop from input.now.tokens.now)) result }
{
    let mut names = Vec::new(input.alloc);
    let mut at = from;
    let most = input.left(from) + 1;
    for _turn in 0..most {
        let (name, behind) = identifier(input, at)?;
        names.push(name)?;
        if !sees_comma(input, behind) {
            return Ok((Seq::from_vec(names), behind));
        }
        at = behind + 1;
    }
    Err(input.refuse(at, None))
}

/// The names behind a word, or none where it doesn't stand there.
pub fn names_behind(
    input: &Input,
    at: usize,
    word: ListWord,
) -> Result<(Seq<Identifier>, usize), ParseError>
    ensures { Reads input.now.tokens.now at (read.names_behind_at (read.test_of word) input.now.text.now (drop at input.now.tokens.now)) result }
{
    if !sees_word(input, at, word) {
        return Ok((Seq::new(input.alloc), at));
    }
    names(input, at + 1)
}

/// The class that a class extends, where it names one.
pub fn superclass(input: &Input, at: usize) -> Result<(Option<Identifier>, usize), ParseError>
    ensures { Reads input.now.tokens.now at (read.superclass_at input.now.text.now (drop at input.now.tokens.now)) result }
{
    if !sees_extends(input, at) {
        return Ok((None, at));
    }
    let (name, end) = identifier(input, at + 1)?;
    Ok((Some(name), end))
}
