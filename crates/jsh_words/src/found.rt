//! What was found of the words.
ghost use Rattle.std.specs.Prelude.{◌≡◌, ℕ, List, IfOk};
ghost use Rattle.jsh_words.specs.Parts.{Part, values_of};
ghost use Rattle.jsh_words.specs.Meant.{given_by};
ghost use Rattle.jsh_words.specs.Clap.{values_in};
ghost use Rattle.jsh_words.specs.Found.{given_in};

use crate::reading::values;
use clap::ArgMatches;
use std::alloc::{AllocError, Global};

/// The values of each option, and the scripts.
#[derive(Drop)]
pub(crate) struct Found<'a> {
    pub workers: Vec<&'a str>,
    pub budget: Vec<&'a str>,
    pub journal: Vec<&'a str>,
    pub startup: Vec<&'a str>,
    pub demo: Vec<&'a str>,
    pub replay: Vec<&'a str>,
    pub scripts: Vec<&'a str>,
}

pub(crate) fn found_in<'a>(alloc: Global, matches: &ArgMatches<'a>) -> Result<Found<'a>, AllocError>
    ensures { (ps : List Part) → ((name : List ℕ) → values_in matches.now name ≡ values_of name ps) → IfOk result (λ found. given_in found ≡ given_by ps) }
{
    Ok(Found {
        workers: values(alloc, matches, "workers")?,
        budget: values(alloc, matches, "budget")?,
        journal: values(alloc, matches, "journal")?,
        startup: values(alloc, matches, "startup")?,
        demo: values(alloc, matches, "demo")?,
        replay: values(alloc, matches, "replay")?,
        scripts: values(alloc, matches, "script")?,
    })
}
