//! What is found, judged by the three forms.
ghost use Rattle.std.specs.Prelude.{◌≡◌, None, Some, IfOk, IfErr, MatchOption, option_map};
ghost use Rattle.jsh_words.specs.Clap.{texts};
ghost use Rattle.jsh_words.specs.Found.{given_in};
ghost use Rattle.jsh_words.specs.Meant.{files, are_scripts, run, demo, replay, has_no_run, meant};

use crate::checks::{
    are_distinct, are_few, are_files, file, is_empty, is_file, number, number_or, push_names,
    push_with_outputs,
};
use crate::found::Found;
use crate::meaning::{Meaning, WordsError};
use jsh_tree::{Seq, SrcText};
use std::alloc::{AllocError, Global};

// The settings of a run, before names are copied.
#[derive(Drop)]
struct Settings<'a> {
    workers: u32,
    budget: u32,
    journal: Option<&'a str>,
    startup: Option<&'a str>,
}

fn files(alloc: Global, found: &Found) -> Result<Vec<SrcText>, AllocError>
    ensures { IfOk result (λ names. names.items ≡ files (given_in found.now)) }
{
    let mut names = Vec::new(alloc);
    push_names(alloc, &found.journal, &mut names)?;
    push_with_outputs(alloc, &found.startup, &mut names)?;
    push_with_outputs(alloc, &found.scripts, &mut names)?;
    Ok(names)
}

fn are_scripts(alloc: Global, found: &Found) -> Result<bool, AllocError>
    ensures { IfOk result (λ fit. fit ≡ are_scripts (given_in found.now)) }
{
    let names = files(alloc, found)?;
    let scripts = found.scripts.as_slice();
    Ok(are_few(scripts) && (are_files(scripts) && are_distinct(names.as_slice())))
}

fn settings_of<'a>(found: &Found<'a>, fit: bool) -> Option<Settings<'a>>
    requires { fit ≡ are_scripts (given_in found.now) }
    ensures { MatchOption result (run (given_in found.now) ≡ None) (λ s. run (given_in found.now) ≡ Some (Meaning.Run s.workers s.budget (option_map (λ name. name.now) s.journal) (option_map (λ name. name.now) s.startup) (texts found.now.scripts.items))) }
{
    let workers = number_or(0, 0, 16, &found.workers)?;
    let budget = number_or(10_000_000, 1, 1_000_000_000, &found.budget)?;
    let journal = file(&found.journal)?;
    let startup = file(&found.startup)?;
    if !fit {
        return None;
    }
    Some(Settings {
        workers,
        budget,
        journal,
        startup,
    })
}

fn copied(alloc: Global, name: Option<&str>) -> Result<Option<SrcText>, AllocError>
    ensures { IfOk result (λ copy. copy ≡ option_map (λ text. text.now) name.entry) }
{
    match name {
        None => Ok(None),
        Some(name) => Ok(Some(SrcText::from_text(alloc, name)?)),
    }
}

fn run(alloc: Global, found: &Found) -> Result<Meaning, WordsError>
    ensures ok { IfOk result (λ meaning. run (given_in found.now) ≡ Some meaning) }
    ensures refused { IfErr result (λ error. error ≡ WordsError.Refused → run (given_in found.now) ≡ None) }
{
    let fit = are_scripts(alloc, found)?;
    let Some(settings) = settings_of(found, fit) else {
        return Err(WordsError::Refused);
    };
    let mut scripts = Vec::new(alloc);
    push_names(alloc, &found.scripts, &mut scripts)?;
    let journal = copied(alloc, settings.journal)?;
    let startup = copied(alloc, settings.startup)?;
    Ok(Meaning::Run {
        workers: settings.workers,
        budget: settings.budget as u64,
        journal,
        startup,
        scripts: Seq::from_vec(scripts),
    })
}

fn demo(values: &[&str]) -> Option<Meaning>
    ensures { result ≡ demo (texts values.now) }
{
    match values {
        [text] => {
            let snippets = number(1, 8192, text)?;
            Some(Meaning::Demo { snippets })
        }
        _ => None,
    }
}

fn replay(alloc: Global, values: &[&str]) -> Result<Meaning, WordsError>
    ensures ok { IfOk result (λ meaning. replay (texts values.now) ≡ Some meaning) }
    ensures refused { IfErr result (λ error. error ≡ WordsError.Refused → replay (texts values.now) ≡ None) }
{
    match values {
        [name] => {
            if !is_file(name) {
                return Err(WordsError::Refused);
            }
            let file = SrcText::from_text(alloc, name)?;
            Ok(Meaning::Replay { file })
        }
        _ => Err(WordsError::Refused),
    }
}

fn has_no_run(found: &Found) -> bool
    ensures { result ≡ has_no_run (given_in found.now) }
{
    is_empty(&found.workers)
        && is_empty(&found.budget)
        && is_empty(&found.journal)
        && is_empty(&found.startup)
        && is_empty(&found.scripts)
}

/// What is found means this, exactly where it means something.
pub(crate) fn meant(alloc: Global, found: &Found) -> Result<Meaning, WordsError>
    ensures ok { IfOk result (λ meaning. meant (given_in found.now) ≡ Some meaning) }
    ensures refused { IfErr result (λ error. error ≡ WordsError.Refused → meant (given_in found.now) ≡ None) }
{
    if is_empty(&found.demo) && is_empty(&found.replay) {
        return run(alloc, found);
    }
    if !has_no_run(found) {
        return Err(WordsError::Refused);
    }
    if is_empty(&found.replay) {
        return demo(&found.demo).ok_or(WordsError::Refused);
    }
    if is_empty(&found.demo) {
        return replay(alloc, &found.replay);
    }
    Err(WordsError::Refused)
}
