//! What stands in front of the statement of a `for`, and of the block of a `catch`.

ghost use Rattle.std.specs.Prelude.{◌≡◌, drop};
ghost use Rattle.jsh_parse.specs.Reading.{Reads};
ghost use Rattle.jsh_parse.specs.StatementReading as read;

use crate::error::ParseError;
use crate::expression::expr;
use crate::input::{Input, colon, left_paren, right_paren};
use crate::leaves::{identifier, type_use};
use crate::locals::{final_word, for_start, optional, update};
use crate::word_input::{catch_word, sees_var, semicolon};
use jsh_tree::{Boxed, Expr, ForStart, Identifier, TypeUse};

/// What stands between the parentheses of a `for`.
#[derive(Drop)]
pub struct ForHead {
    pub start: Boxed<ForStart>,
    pub condition: Option<Boxed<Expr>>,
    pub update: Option<Boxed<Expr>>,
}

/// The same of a `for` that goes over elements.
#[derive(Drop)]
pub struct EachHead {
    pub is_final: bool,
    pub written: Option<TypeUse>,
    pub name: Identifier,
    pub array: Boxed<Expr>,
}

/// What stands between the parentheses of a `catch`.
#[derive(Drop)]
pub struct CatchHead {
    pub is_final: bool,
    pub class: Identifier,
    pub name: Identifier,
}

/// What stands between the parentheses of a `for`, with the closing one.
pub fn for_head(input: &Input, at: usize, room: u32) -> Result<(Boxed<ForHead>, usize), ParseError>
    ensures { Reads input.now.tokens.now at (read.for_head_at input.now.text.now room (drop at input.now.tokens.now)) result }
{
    let (start, rest) = for_start(input, at, room)?;
    let (_, behind) = semicolon(input, rest)?;
    let (condition, more) = optional(input, behind, room)?;
    let (_, last) = semicolon(input, more)?;
    let (update, closing) = update(input, last, room)?;
    let (_, end) = right_paren(input, closing)?;
    let head = ForHead {
        start,
        condition,
        update,
    };
    Ok((Boxed::new(input.alloc, head)?, end))
}

/// The type of a variable that goes over elements: none for `var`.
fn element_type(input: &Input, at: usize) -> Result<(Option<TypeUse>, usize), ParseError>
    ensures { Reads input.now.tokens.now at (read.element_type input.now.text.now (drop at input.now.tokens.now)) result }
{
    if sees_var(input, at) {
        return Ok((None, at + 1));
    }
    let (written, end) = type_use(input, at)?;
    Ok((Some(written), end))
}

/// What stands between the parentheses of a `for` that goes over elements, with the closing one.
pub fn each_head(
    input: &Input,
    at: usize,
    room: u32,
) -> Result<(Boxed<EachHead>, usize), ParseError>
    ensures { Reads input.now.tokens.now at (read.each_head_at input.now.text.now room (drop at input.now.tokens.now)) result }
{
    let (is_final, front) = final_word(input, at);
    let (written, rest) = element_type(input, front)?;
    let (name, behind) = identifier(input, rest)?;
    let (_, more) = colon(input, behind)?;
    let (array, last) = expr(input, more, room)?;
    let (_, end) = right_paren(input, last)?;
    let head = EachHead {
        is_final,
        written,
        name,
        array,
    };
    Ok((Boxed::new(input.alloc, head)?, end))
}

/// What a `catch` has in front of its block.
pub fn catch_head(input: &Input, at: usize) -> Result<(Boxed<CatchHead>, usize), ParseError>
    ensures { Reads input.now.tokens.now at (read.catch_head_at input.now.text.now (drop at input.now.tokens.now)) result }
{
    let (_, rest) = catch_word(input, at)?;
    let (_, behind) = left_paren(input, rest)?;
    let (is_final, front) = final_word(input, behind);
    let (class, more) = identifier(input, front)?;
    let (name, closing) = identifier(input, more)?;
    let (_, end) = right_paren(input, closing)?;
    let head = CatchHead {
        is_final,
        class,
        name,
    };
    Ok((Boxed::new(input.alloc, head)?, end))
}
