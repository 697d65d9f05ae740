ghost use Rattle.std.specs.Prelude.{◌≡◌, IfOk, map};
ghost use Rattle.std.specs.String.{string_bytes};
ghost use Rattle.jsh_shell.specs.Served.{budget_of, lone_budget};

use jsh_text::NoMemory;
use jsh_words::{Meaning, WordsError, words as read_words};
use std::alloc::Global;

/// The budget of a meaning that is served so far: one client over the standard streams alone.
fn lone_budget(meaning: &Meaning) -> Option<u64>
    ensures { result ≡ lone_budget meaning.now }
{
    match meaning {
        Meaning::Run {
            workers: 0,
            budget,
            journal: None,
            startup: None,
            scripts,
        } if scripts.is_empty() => Some(*budget),
        _ => None,
    }
}

/// The budget with which words are served, or None where they are refused.
pub fn budget_of(alloc: Global, words: &[String]) -> Result<Option<u64>, NoMemory>
    ensures { IfOk result (λ budget. budget ≡ budget_of (map string_bytes words.now)) }
{
    match read_words(alloc, words) {
        Ok(meaning) => Ok(lone_budget(&meaning)),
        Err(WordsError::Refused) => Ok(None),
        Err(WordsError::NoMemory) => Err(NoMemory),
    }
}
