//! The words of the command line: which are accepted, and what they mean.
#![tactic(auto)]

ghost use Rattle.std.specs.Prelude.{◌≡◌, None, Some, map, IfOk, IfErr};
ghost use Rattle.std.specs.String.{string_bytes};
ghost use Rattle.jsh_words.specs.Meant.{meaning};

mod checks;
mod found;
mod meaning;
mod meant;
mod reading;
mod replays;
#[cfg(test)]
mod tests;

use crate::found::found_in;
use crate::meant::meant;
use crate::reading::read;
pub use meaning::{Meaning, WordsError};
pub use replays::wants_replay;
use std::alloc::Global;

/// What a command line means, by its words without the name of the program.
///
/// Words that have no meaning are refused, whatever is wrong with them.
pub fn words(alloc: Global, words: &[String]) -> Result<Meaning, WordsError>
    ensures ok { IfOk result (λ meant. meaning (map string_bytes words.now) ≡ Some meant) }
    ensures refused { IfErr result (λ error. error ≡ WordsError.Refused → meaning (map string_bytes words.now) ≡ None) }
{
    let matches = read(alloc, words)?;
    let found = found_in(alloc, &matches)?;
    meant(alloc, &found)
}
