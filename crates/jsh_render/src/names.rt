//! The names that a snippet lacks.

ghost use Rattle.std.specs.Prelude.{◌≡◌, ◌++◌, codes, IfOk, OnOk};
ghost use Rattle.jsh_render.specs.Names as spec;

use crate::text::push;
use jsh_text::NoMemory;
use jsh_tree::Name;
use std::alloc::Global;

/// Adds what waits for the missing names: `g and x are declared` behind a text.
pub fn push_waits(bytes: &mut Vec<u8>, before: &[u8], missing: &[Name]) -> Result<(), NoMemory>
    ensures { OnOk result (bytes.new.items ≡ bytes.old.items ++ (before.now ++ spec.names_text missing.now ++ codes " declared")) }
{
    push(bytes, before)?;
    push_names(bytes, missing)?;
    push(bytes, b" declared")
}

/// Adds the missing names with their verb: `g and x are`.
fn push_names(bytes: &mut Vec<u8>, names: &[Name]) -> Result<(), NoMemory>
    ensures { OnOk result (bytes.new.items ≡ bytes.old.items ++ spec.names_text names.now) }
{
    let names = distinct(*bytes.allocator(), names)?;
    push_enumerated(bytes, names.as_slice())?;
    push(bytes, verb(names.as_slice()))
}

/// The names, each once, where it stands first.
fn distinct(alloc: Global, names: &[Name]) -> Result<Vec<Name>, NoMemory>
    ensures { IfOk result (λ found. found.items ≡ spec.distinct names.now) }
{
    let mut found: Vec<Name> = Vec::new(alloc);
    for name in names {
        if !found.contains(name) {
            found.push(name.clone()?)?;
        }
    }
    Ok(found)
}

fn push_enumerated(bytes: &mut Vec<u8>, mut names: &[Name]) -> Result<(), NoMemory>
    ensures { OnOk result (bytes.new.items ≡ bytes.old.items ++ spec.enumerated names.entry.now) }
{
    while let [name, rest @ ..] = names {
        push(bytes, name.as_str().as_bytes())?;
        push(bytes, separator(rest))?;
        names = rest;
    }
    Ok(())
}

/// What stands between a name and those behind it.
fn separator(names: &[Name]) -> &'static [u8]
    ensures { result.now ≡ spec.separator names.now }
{
    match names {
        [] => b"",
        [_] => b" and ",
        _ => b", ",
    }
}

fn verb(names: &[Name]) -> &'static [u8]
    ensures { result.now ≡ spec.verb names.now }
{
    match names {
        [_] => b" is",
        _ => b" are",
    }
}
