//! What imports give, by the library.

ghost use Rattle.std.specs.Prelude.{◌≡◌, ◌++◌, IfOk, OnOk};
ghost use Rattle.std.specs.Option.{option_copied};
ghost use Rattle.std.specs.List.{flat_map, find};
ghost use Rattle.jsh_tree.specs.declared.library.LibraryConstant.{LibraryConstant};
ghost use Rattle.jsh_scope.specs.Scope.{same_name};
ghost use Rattle.jsh_scope.specs.Imports as spec;

use crate::answers::{
    LibraryAnswer, MethodAnswer, StaticConstant, StaticMethod, TypeAnswer, VarAnswer,
};
use crate::imported::Imported;
use jsh_text::NoMemory;
use jsh_tree::{Library, LibraryConstant, LibraryMethod, LibraryType, Name};
use std::alloc::Global;

fn is_named(found: &LibraryType, qualifier: &str, name: &Name) -> bool
    ensures { result ≡ spec.is_named qualifier.now name.now found.now }
{
    found.package.as_str() == qualifier && found.name == *name
}

fn named<'a>(library: &'a Library, qualifier: &str, name: &Name) -> Option<&'a LibraryType>
    ensures { option_copied result ≡ spec.named library.now qualifier.now name.now }
{
    library
        .types
        .as_slice()
        .iter()
        .find(|found| is_named(found, qualifier, name))
}

fn type_in<'a>(library: &'a Library, qualifier: &str, name: &Name) -> Option<TypeAnswer<'a>>
    ensures { result ≡ spec.type_in library.now qualifier.now name.now }
{
    match named(library, qualifier, name) {
        None => None,
        Some(found) => Some(TypeAnswer::Library(LibraryAnswer { found })),
    }
}

/// The type by a single import, else by one on demand, else of `java.lang`.
#[tactic(auto, unfolding(crate::specs::Imports::imported_type))]
pub(crate) fn imported_type<'a>(
    library: &'a Library,
    name: &Name,
    imports: &[Imported],
) -> Option<TypeAnswer<'a>>
    ensures { result ≡ spec.imported_type library.now name.now imports.now }
{
    match last_single_type(library, name, imports) {
        Some(answer) => Some(answer),
        None => match last_type_on_demand(library, name, imports) {
            Some(answer) => Some(answer),
            None => type_in(library, "java.lang", name),
        },
    }
}

fn last_single_type<'a>(
    library: &'a Library,
    name: &Name,
    imports: &[Imported],
) -> Option<TypeAnswer<'a>>
    ensures { result ≡ spec.last_given (spec.single_type library.now name.now) imports.now }
{
    let mut last = None;
    for import in imports {
        last = single_type(library, name, import).or(last);
    }
    last
}

fn single_type<'a>(library: &'a Library, name: &Name, import: &Imported) -> Option<TypeAnswer<'a>>
    ensures { result ≡ spec.single_type library.now name.now import.now }
{
    match import {
        Imported::OfType {
            qualifier,
            name: found,
        } => {
            if *found == *name {
                type_in(library, qualifier.as_str(), name)
            } else {
                None
            }
        }
        _ => None,
    }
}

fn last_type_on_demand<'a>(
    library: &'a Library,
    name: &Name,
    imports: &[Imported],
) -> Option<TypeAnswer<'a>>
    ensures { result ≡ spec.last_given (spec.type_on_demand library.now name.now) imports.now }
{
    let mut last = None;
    for import in imports {
        last = type_on_demand(library, name, import).or(last);
    }
    last
}

fn type_on_demand<'a>(
    library: &'a Library,
    name: &Name,
    import: &Imported,
) -> Option<TypeAnswer<'a>>
    ensures { result ≡ spec.type_on_demand library.now name.now import.now }
{
    match import {
        Imported::OfPackage { qualifier } => type_in(library, qualifier.as_str(), name),
        _ => None,
    }
}

/// The constant by a single import, else by one on demand.
#[tactic(auto, unfolding(crate::specs::Imports::imported_constant))]
pub(crate) fn imported_constant<'a>(
    library: &'a Library,
    name: &Name,
    imports: &[Imported],
) -> Option<VarAnswer<'a>>
    ensures { result ≡ spec.imported_constant library.now name.now imports.now }
{
    match last_single_constant(library, name, imports) {
        Some(answer) => Some(answer),
        None => last_constant_on_demand(library, name, imports),
    }
}

fn constant_of<'a>(found: &'a LibraryType, name: &Name) -> Option<&'a LibraryConstant>
    ensures { option_copied result ≡ find (λ (constant : LibraryConstant). same_name constant.name name.now) found.now.constants }
{
    found
        .constants
        .as_slice()
        .iter()
        .find(|constant| constant.name == *name)
}

fn constant_in<'a>(name: &Name, found: Option<&'a LibraryType>) -> Option<VarAnswer<'a>>
    ensures { result ≡ spec.constant_in name.now (option_copied found.entry) }
{
    match found {
        None => None,
        Some(of) => match constant_of(of, name) {
            None => None,
            Some(constant) => Some(VarAnswer::Library(StaticConstant { of, constant })),
        },
    }
}

fn last_single_constant<'a>(
    library: &'a Library,
    name: &Name,
    imports: &[Imported],
) -> Option<VarAnswer<'a>>
    ensures { result ≡ spec.last_given (spec.single_constant library.now name.now) imports.now }
{
    let mut last = None;
    for import in imports {
        last = single_constant(library, name, import).or(last);
    }
    last
}

fn single_constant<'a>(
    library: &'a Library,
    name: &Name,
    import: &Imported,
) -> Option<VarAnswer<'a>>
    ensures { result ≡ spec.single_constant library.now name.now import.now }
{
    match import {
        Imported::OfStatic {
            qualifier,
            of,
            name: found,
        } => {
            if *found == *name {
                constant_in(name, named(library, qualifier.as_str(), of))
            } else {
                None
            }
        }
        _ => None,
    }
}

fn last_constant_on_demand<'a>(
    library: &'a Library,
    name: &Name,
    imports: &[Imported],
) -> Option<VarAnswer<'a>>
    ensures { result ≡ spec.last_given (spec.constant_on_demand library.now name.now) imports.now }
{
    let mut last = None;
    for import in imports {
        last = constant_on_demand(library, name, import).or(last);
    }
    last
}

fn constant_on_demand<'a>(
    library: &'a Library,
    name: &Name,
    import: &Imported,
) -> Option<VarAnswer<'a>>
    ensures { result ≡ spec.constant_on_demand library.now name.now import.now }
{
    match import {
        Imported::OfStatics { qualifier, of } => {
            constant_in(name, named(library, qualifier.as_str(), of))
        }
        _ => None,
    }
}

/// The static methods of all single imports, else of all on demand.
#[tactic(auto, unfolding(crate::specs::Imports::imported_methods))]
pub(crate) fn imported_methods<'a>(
    alloc: Global,
    library: &'a Library,
    name: &Name,
    imports: &[Imported],
) -> Result<Vec<MethodAnswer<'a>>, NoMemory>
    ensures { IfOk result (λ found. found.items ≡ spec.imported_methods library.now name.now imports.now) }
{
    let single = all_single_methods(alloc, library, name, imports)?;
    if single.is_empty() {
        return all_methods_on_demand(alloc, library, name, imports);
    }
    Ok(single)
}

fn all_single_methods<'a>(
    alloc: Global,
    library: &'a Library,
    name: &Name,
    imports: &[Imported],
) -> Result<Vec<MethodAnswer<'a>>, NoMemory>
    ensures { IfOk result (λ found. found.items ≡ flat_map (spec.single_methods library.now name.now) imports.now) }
{
    let mut found = Vec::new(alloc);
    for import in imports {
        push_single_methods(&mut found, library, name, import)?;
    }
    Ok(found)
}

fn push_single_methods<'a>(
    found: &mut Vec<MethodAnswer<'a>>,
    library: &'a Library,
    name: &Name,
    import: &Imported,
) -> Result<(), NoMemory>
    ensures { OnOk result (found.new.items ≡ found.old.items ++ spec.single_methods library.now name.now import.now) }
{
    match import {
        Imported::OfStatic {
            qualifier,
            of,
            name: imported,
        } => {
            if *imported == *name {
                push_methods(found, name, named(library, qualifier.as_str(), of))
            } else {
                Ok(())
            }
        }
        _ => Ok(()),
    }
}

fn all_methods_on_demand<'a>(
    alloc: Global,
    library: &'a Library,
    name: &Name,
    imports: &[Imported],
) -> Result<Vec<MethodAnswer<'a>>, NoMemory>
    ensures { IfOk result (λ found. found.items ≡ flat_map (spec.methods_on_demand library.now name.now) imports.now) }
{
    let mut found = Vec::new(alloc);
    for import in imports {
        push_methods_on_demand(&mut found, library, name, import)?;
    }
    Ok(found)
}

fn push_methods_on_demand<'a>(
    found: &mut Vec<MethodAnswer<'a>>,
    library: &'a Library,
    name: &Name,
    import: &Imported,
) -> Result<(), NoMemory>
    ensures { OnOk result (found.new.items ≡ found.old.items ++ spec.methods_on_demand library.now name.now import.now) }
{
    match import {
        Imported::OfStatics { qualifier, of } => {
            push_methods(found, name, named(library, qualifier.as_str(), of))
        }
        _ => Ok(()),
    }
}

fn push_methods<'a>(
    found: &mut Vec<MethodAnswer<'a>>,
    name: &Name,
    of: Option<&'a LibraryType>,
) -> Result<(), NoMemory>
    ensures { OnOk result (found.new.items ≡ found.old.items ++ spec.methods_in name.now (option_copied of.entry)) }
{
    match of {
        None => Ok(()),
        Some(of) => push_methods_of(found, name, of),
    }
}

fn push_methods_of<'a>(
    found: &mut Vec<MethodAnswer<'a>>,
    name: &Name,
    of: &'a LibraryType,
) -> Result<(), NoMemory>
    ensures { OnOk result (found.new.items ≡ found.old.items ++ flat_map (spec.static_method name.now of.now) of.now.methods) }
{
    for method in of.methods.as_slice() {
        push_method(found, name, of, method)?;
    }
    Ok(())
}

fn push_method<'a>(
    found: &mut Vec<MethodAnswer<'a>>,
    name: &Name,
    of: &'a LibraryType,
    method: &'a LibraryMethod,
) -> Result<(), NoMemory>
    ensures { OnOk result (found.new.items ≡ found.old.items ++ spec.static_method name.now of.now method.now) }
{
    if method.is_static && method.signature.name == *name {
        found.push(MethodAnswer::Library(StaticMethod { of, method }))?;
    }
    Ok(())
}
