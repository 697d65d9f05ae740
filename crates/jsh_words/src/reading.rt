//! The words as `clap` reads them.
ghost use Rattle.std.specs.Prelude.{◌≡◌, ℕ, List, false, map, Some, None, IfOk, IfErr};
ghost use Rattle.std.specs.String.{string_bytes};
ghost use Rattle.clap.specs.Words.{app_of, rule_of};
ghost use Rattle.jsh_words.specs.Parts.{Part, parts, values_of};
ghost use Rattle.jsh_words.specs.Meant.{meaning};
ghost use Rattle.jsh_words.specs.Clap.{app, option_rule, script_rule, texts, values_in};

use crate::meaning::WordsError;
use clap::error::ErrorKind;
use clap::{Arg, ArgAction, ArgMatches, Command};
use std::alloc::{AllocError, Global};

// An option that takes one text.
fn option<'a>(alloc: Global, name: &'a str) -> Arg<'a>
    ensures rule { rule_of result ≡ option_rule name.entry.now }
    ensures local { result.global ≡ false }
{
    Arg::new(alloc, name).long(name).action(ArgAction::Set)
}

// The last positional, which takes several texts.
fn scripts<'a>(alloc: Global) -> Arg<'a>
    ensures rule { rule_of result ≡ script_rule }
    ensures local { result.global ≡ false }
{
    Arg::new(alloc, "script").action(ArgAction::Append)
}

// The command.
fn command<'a>(alloc: Global) -> Result<Command<'a>, AllocError>
    ensures { IfOk result (λ made. app_of made ≡ app) }
{
    Command::new(alloc, "jsh")
        .no_binary_name(true)
        .disable_help_flag(true)
        .arg(option(alloc, "workers"))?
        .arg(option(alloc, "budget"))?
        .arg(option(alloc, "journal"))?
        .arg(option(alloc, "startup"))?
        .arg(option(alloc, "demo"))?
        .arg(option(alloc, "replay"))?
        .arg(scripts(alloc))
}

// The parts of the words, as `clap` finds them.
pub(crate) fn read<'a>(alloc: Global, words: &'a [String]) -> Result<ArgMatches<'a>, WordsError>
    ensures found { IfOk result (λ matches. (ps : List Part) × (parts (map string_bytes words.entry.now) ≡ Some ps) × ((name : List ℕ) → values_in matches name ≡ values_of name ps)) }
    ensures refused { IfErr result (λ error. error ≡ WordsError.Refused → meaning (map string_bytes words.entry.now) ≡ None) }
{
    match command(alloc)?.try_get_matches_from(words) {
        Ok(matches) => Ok(matches),
        Err(error) => match error.kind() {
            ErrorKind::OutOfMemory => Err(WordsError::NoMemory),
            _ => Err(WordsError::Refused),
        },
    }
}

// The values that stand under a name.
pub(crate) fn values<'a>(
    alloc: Global,
    matches: &ArgMatches<'a>,
    name: &str,
) -> Result<Vec<&'a str>, AllocError>
    ensures { IfOk result (λ found. texts found.items ≡ values_in matches.now name.now) }
{
    let mut found = Vec::new(alloc);
    if let Some(values) = matches.get_strs(name) {
        found.extend_from_slice(values)?;
    }
    Ok(found)
}
