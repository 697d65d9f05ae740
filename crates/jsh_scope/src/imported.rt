//! Imports as the environment keeps them.

ghost use Rattle.std.specs.Prelude.{◌≡◌, ◌++◌, IfOk, OnOk};
ghost use Rattle.std.specs.Option.{option_copied};
ghost use Rattle.std.specs.String.{string_bytes};
ghost use Rattle.std.specs.List.{flat_map};
ghost use Rattle.jsh_scope.specs.Imports as spec;

use jsh_text::NoMemory;
use jsh_tree::{Key, Member, Name, Seq};
use std::alloc::Global;

/// An import, with the parts of its package joined by dots.
#[derive(Debug, Drop)]
pub(crate) enum Imported {
    /// `import package.name;`
    OfType {
        qualifier: Name,
        name: Name,
    },
    /// `import package.*;`
    OfPackage {
        qualifier: Name,
    },
    /// `import static package.of.name;`
    OfStatic {
        qualifier: Name,
        of: Name,
        name: Name,
    },
    /// `import static package.of.*;`
    OfStatics {
        qualifier: Name,
        of: Name,
    },
}

/// The live imports, by rising id.
#[tactic(auto, unfolding(crate::specs::Imports::imports_of))]
pub(crate) fn imports_of(alloc: Global, members: &[Member]) -> Result<Seq<Imported>, NoMemory>
    ensures { IfOk result (λ imports. imports ≡ spec.imports_of members.now) }
{
    let mut imports = Vec::new(alloc);
    for member in members {
        push_import(&mut imports, alloc, &member.key)?;
    }
    Ok(Seq::from_vec(imports))
}

fn push_import(imports: &mut Vec<Imported>, alloc: Global, key: &Key) -> Result<(), NoMemory>
    ensures { OnOk result (imports.new.items ≡ imports.old.items ++ spec.import_in key.now) }
{
    match key {
        Key::OfImport {
            is_static: true,
            parts,
            on_demand,
        } => push_static_import(imports, alloc, parts.as_slice(), *on_demand),
        Key::OfImport {
            is_static: false,
            parts,
            on_demand,
        } => push_type_import(imports, alloc, parts.as_slice(), *on_demand),
        _ => Ok(()),
    }
}

fn push_type_import(
    imports: &mut Vec<Imported>,
    alloc: Global,
    parts: &[Name],
    on_demand: bool,
) -> Result<(), NoMemory>
    ensures { OnOk result (imports.new.items ≡ imports.old.items ++ spec.type_import parts.now on_demand) }
{
    if on_demand {
        let qualifier = joined(alloc, parts)?;
        imports.push(Imported::OfPackage { qualifier })?;
    } else if let Some(name) = last_part(parts) {
        let qualifier = joined(alloc, all_but_last(parts))?;
        let name = name.clone()?;
        imports.push(Imported::OfType { qualifier, name })?;
    }
    Ok(())
}

fn push_static_import(
    imports: &mut Vec<Imported>,
    alloc: Global,
    parts: &[Name],
    on_demand: bool,
) -> Result<(), NoMemory>
    ensures { OnOk result (imports.new.items ≡ imports.old.items ++ spec.static_import parts.now on_demand) }
{
    if on_demand {
        push_static_import_on_demand(imports, alloc, parts)
    } else {
        push_single_static_import(imports, alloc, parts)
    }
}

fn push_static_import_on_demand(
    imports: &mut Vec<Imported>,
    alloc: Global,
    parts: &[Name],
) -> Result<(), NoMemory>
    ensures { OnOk result (imports.new.items ≡ imports.old.items ++ spec.static_import_on_demand (spec.joined (spec.all_but_last parts.now)) (spec.last_part parts.now)) }
{
    if let Some(of) = last_part(parts) {
        let qualifier = joined(alloc, all_but_last(parts))?;
        let of = of.clone()?;
        imports.push(Imported::OfStatics { qualifier, of })?;
    }
    Ok(())
}

fn push_single_static_import(
    imports: &mut Vec<Imported>,
    alloc: Global,
    parts: &[Name],
) -> Result<(), NoMemory>
    ensures { OnOk result (imports.new.items ≡ imports.old.items ++ spec.single_static_import (spec.joined (spec.all_but_last (spec.all_but_last parts.now))) (spec.last_part (spec.all_but_last parts.now)) (spec.last_part parts.now)) }
{
    let owner = all_but_last(parts);
    if let Some(of) = last_part(owner) {
        if let Some(name) = last_part(parts) {
            let qualifier = joined(alloc, all_but_last(owner))?;
            let of = of.clone()?;
            let name = name.clone()?;
            imports.push(Imported::OfStatic {
                qualifier,
                of,
                name,
            })?;
        }
    }
    Ok(())
}

fn last_part(parts: &[Name]) -> Option<&Name>
    ensures { option_copied result ≡ spec.last_part parts.now }
{
    parts.get(parts.len().saturating_sub(1))
}

fn all_but_last(parts: &[Name]) -> &[Name]
    ensures { result.now ≡ spec.all_but_last parts.now }
{
    &parts[..parts.len().saturating_sub(1)]
}

/// The names with a dot between each two.
fn joined(alloc: Global, parts: &[Name]) -> Result<Name, NoMemory>
    ensures { IfOk result (λ name. name ≡ spec.joined parts.now) }
{
    match parts {
        [] => Ok(Name::from_text(alloc, "")?),
        [first, rest @ ..] => {
            let mut text = String::from_str(alloc, first.as_str())?;
            push_further_parts(&mut text, rest)?;
            Ok(Name::from_text(alloc, text.as_str())?)
        }
    }
}

fn push_further_parts(text: &mut String, parts: &[Name]) -> Result<(), NoMemory>
    ensures { OnOk result (string_bytes text.new ≡ string_bytes text.old ++ flat_map spec.further_part parts.now) }
{
    for part in parts {
        push_further_part(text, part)?;
    }
    Ok(())
}

fn push_further_part(text: &mut String, part: &Name) -> Result<(), NoMemory>
    ensures { OnOk result (string_bytes text.new ≡ string_bytes text.old ++ spec.further_part part.now) }
{
    text.push('.')?;
    text.push_str(part.as_str())?;
    Ok(())
}
