//! Which refusal a text gets.

ghost use Rattle.jsh_grammar.specs.Fronts.{IsWhole};
ghost use Rattle.jsh_recognizer.specs.Recognizing.{kinds};
ghost use Rattle.jsh_recognizer.specs.Stops.{part_of};
ghost use Rattle.jsh_parse.specs.Refusals.{IsRefusal};

use crate::error::ParseError;
use crate::input::{Input, LIMIT};
use jsh_recognizer::{End, Start, scan};

/// The refusal of tokens that aren't what they should be. Their kinds alone decide it, so it doesn't
/// depend on how a parser goes over them.
pub fn refusal(input: &Input, start: Start) -> ParseError
    requires { IsWhole (part_of start) 256 (kinds input.now.tokens.now) → ⊥ }
    ensures { IsRefusal (part_of start) input.now.text.now input.now.tokens.now result }
{
    let scanned = scan(start, input.tokens);
    match scanned.end {
        End::Whole => unreachable!(),
        End::TooDeep => ParseError::TooDeep { limit: LIMIT },
        End::Open(wanted) | End::Refused(wanted) => {
            let place = input.place(scanned.read);
            ParseError::Wanted { place, wanted }
        }
    }
}
