//! What methods and constructors consist of.

ghost use Rattle.std.specs.Prelude.{◌≡◌, drop};
ghost use Rattle.jsh_parse.specs.Reading.{Reads};
ghost use Rattle.jsh_decl.specs.DeclarationReading as read;

use crate::word_input::sees_void;
use jsh_parse::{
    Input, ParseError, block, final_word, identifier, left_paren, right_paren, sees_comma,
    sees_right_paren, sees_semicolon, type_use,
};
use jsh_tree::{Block, Parameter, Seq, TypeUse};

fn parameter(input: &Input, at: usize) -> Result<(Parameter, usize), ParseError>
    ensures { Reads input.now.tokens.now at (read.parameter_at input.now.text.now (drop at input.now.tokens.now)) result }
{
    let (is_final, front) = final_word(input, at);
    let (written, rest) = type_use(input, front)?;
    let (name, end) = identifier(input, rest)?;
    let parameter = Parameter {
        is_final,
        written,
        name,
    };
    Ok((parameter, end))
}

/// One parameter or more, with commas between them.
fn listed(input: &Input, from: usize) -> Result<(Seq<Parameter>, usize), ParseError>
    ensures { Reads input.now.tokens.now from (read.listed_at input.now.text.now (drop from input.now.tokens.now)) result }
{
    let mut items = Vec::new(input.alloc);
    let mut at = from;
    let most = input.left(from) + 1;
    for _turn in 0..most {
        let (item, behind) = parameter(input, at)?;
        items.push(item)?;
        if !sees_comma(input, behind) {
            return Ok((Seq::from_vec(items), behind));
        }
        at = behind + 1;
    }
    Err(input.refuse(at, None))
}

/// Parameters in parentheses.
pub fn parameters(input: &Input, at: usize) -> Result<(Seq<Parameter>, usize), ParseError>
    ensures { Reads input.now.tokens.now at (read.parameters_at input.now.text.now (drop at input.now.tokens.now)) result }
{
    let (_, rest) = left_paren(input, at)?;
    if sees_right_paren(input, rest) {
        return Ok((Seq::new(input.alloc), rest + 1));
    }
    let (parameters, behind) = listed(input, rest)?;
    let (_, end) = right_paren(input, behind)?;
    Ok((parameters, end))
}

/// The type of a method's result: none for `void`.
pub fn result_type(input: &Input, at: usize) -> Result<(Option<TypeUse>, usize), ParseError>
    ensures { Reads input.now.tokens.now at (read.result_at input.now.text.now (drop at input.now.tokens.now)) result }
{
    if sees_void(input, at) {
        return Ok((None, at + 1));
    }
    let (written, end) = type_use(input, at)?;
    Ok((Some(written), end))
}

/// The block of a method: none where a semicolon stands in its place.
pub fn body(input: &Input, at: usize, room: u32) -> Result<(Option<Block>, usize), ParseError>
    ensures { Reads input.now.tokens.now at (read.body_at input.now.text.now room (drop at input.now.tokens.now)) result }
{
    if sees_semicolon(input, at) {
        return Ok((None, at + 1));
    }
    let (block, end) = block(input, at, room)?;
    Ok((Some(block), end))
}
