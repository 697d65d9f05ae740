//! The labels of a `switch`.

ghost use Rattle.std.specs.Prelude.{◌≡◌, drop};
ghost use Rattle.jsh_parse.specs.Reading.{Reads, IsWithin};
ghost use Rattle.jsh_parse.specs.StatementReading as read;

use crate::error::ParseError;
use crate::input::{Input, colon};
use crate::leaves::literal_of;
use crate::word_input::{case_value, minus, sees_label, sees_minus};
use crate::words::{is_case, is_default};
use jsh_tree::{Seq, SwitchLabel, Token};

/// One label or more.
pub fn labels(input: &Input, from: usize) -> Result<(Seq<SwitchLabel>, usize), ParseError>
    ensures { Reads input.now.tokens.now from (read.labels_at input.now.text.now (drop from input.now.tokens.now)) result }
{
    let mut labels = Vec::new(input.alloc);
    let mut at = from;
    let most = input.left(from) + 1;
    for _turn in 0..most {
        let (label, behind) = label(input, at)?;
        labels.push(label)?;
        if !sees_label(input, behind) {
            return Ok((Seq::from_vec(labels), behind));
        }
        at = behind;
    }
    Err(input.refuse(at, None))
}

pub fn label(input: &Input, at: usize) -> Result<(SwitchLabel, usize), ParseError>
    ensures { Reads input.now.tokens.now at (read.label_at input.now.text.now (drop at input.now.tokens.now)) result }
{
    let Some(token) = input.token(at) else {
        return Err(input.refuse(at, None));
    };
    if is_default(token.kind) {
        let (_, end) = colon(input, at + 1)?;
        return Ok((SwitchLabel::Default { span: token.span }, end));
    }
    if !is_case(token.kind) {
        return Err(input.refuse(at, None));
    }
    case(input, at + 1)
}

/// What stands behind the word `case`.
fn case(input: &Input, at: usize) -> Result<(SwitchLabel, usize), ParseError>
    ensures { Reads input.now.tokens.now at (read.case_at input.now.text.now (drop at input.now.tokens.now)) result }
{
    if sees_minus(input, at) {
        let (sign, rest) = minus(input, at)?;
        let (value, behind) = case_value(input, rest)?;
        return case_of(input, true, sign, value, behind);
    }
    let (value, behind) = case_value(input, at)?;
    case_of(input, false, value, value, behind)
}

/// The label of a literal that may have a sign, which stands at the token `place`, from behind it.
fn case_of(
    input: &Input,
    is_negative: bool,
    place: Token,
    value: Token,
    at: usize,
) -> Result<(SwitchLabel, usize), ParseError>
    requires { IsWithin input.now.text.now value }
    ensures { Reads input.now.tokens.now at (read.case_of input.now.text.now is_negative place value (drop at input.now.tokens.now)) result }
{
    let Some(literal) = literal_of(input, value)? else {
        return Err(input.refuse(at, None));
    };
    let (_, end) = colon(input, at)?;
    let label = SwitchLabel::Case {
        span: place.span,
        is_negative,
        literal,
    };
    Ok((label, end))
}
