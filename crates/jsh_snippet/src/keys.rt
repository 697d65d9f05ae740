//! What identifies a snippet.

ghost use Rattle.std.specs.Prelude.{◌≡◌, IfOk};
ghost use Rattle.jsh_snippet.specs.Keys as spec;

use crate::kinds::Kind;
use jsh_text::NoMemory;
use jsh_tree::{Identifier, Key, Name, Parameter, Seq, Tree, TypeWritten};
use std::alloc::Global;

/// The key of the snippet with this number. Its kind at its entry counts for an expression alone. A
/// statement, and an expression that declares nothing, have the key of their run.
#[tactic(auto, unfolding(crate::specs::Keys::key_of))]
pub fn key_of(alloc: Global, of: Kind, id: u32, tree: &Tree) -> Result<Key, NoMemory>
    ensures { IfOk result (λ key. key ≡ spec.key_of of id tree.now) }
{
    match tree {
        Tree::Import(import) => Ok(Key::OfImport {
            is_static: import.is_static,
            parts: names(alloc, import.parts.as_slice())?,
            on_demand: import.on_demand,
        }),
        Tree::Class(class) => Ok(Key::OfType(class.name.name.clone()?)),
        Tree::Interface(interface) => Ok(Key::OfType(interface.name.name.clone()?)),
        Tree::Method(method) => Ok(Key::OfMethod {
            name: method.name.name.clone()?,
            params: parameter_types(alloc, method.parameters.as_slice())?,
        }),
        Tree::Variable { variable, .. } => Ok(Key::OfVar(variable.name.name.clone()?)),
        Tree::Block(_) | Tree::Statement(_) => Ok(Key::OfRun(id)),
        Tree::Expression(_) => expression_key(alloc, of, id),
    }
}

fn expression_key(alloc: Global, of: Kind, id: u32) -> Result<Key, NoMemory>
    ensures { IfOk result (λ key. key ≡ spec.expression_key of id) }
{
    match of {
        Kind::Var => Ok(Key::OfVar(temporary_name(alloc, id)?)),
        _ => Ok(Key::OfRun(id)),
    }
}

fn temporary_name(alloc: Global, id: u32) -> Result<Name, NoMemory>
    ensures { IfOk result (λ name. name ≡ spec.temporary_name id) }
{
    let text = format!(in alloc; "${id}")?;
    Ok(Name::from_text(alloc, text.as_str())?)
}

/// The texts of names, without their places.
pub(crate) fn names(alloc: Global, identifiers: &[Identifier]) -> Result<Seq<Name>, NoMemory>
    ensures { IfOk result (λ names. names ≡ spec.names_of identifiers.now) }
{
    let mut names = Vec::with_capacity(alloc, identifiers.len())?;
    for identifier in identifiers {
        names.push(identifier.name.clone()?)?;
    }
    Ok(Seq::from_vec(names))
}

/// The types of parameters as they are written.
pub(crate) fn parameter_types(
    alloc: Global,
    parameters: &[Parameter],
) -> Result<Seq<TypeWritten>, NoMemory>
    ensures { IfOk result (λ types. types ≡ spec.parameter_types parameters.now) }
{
    let mut types = Vec::with_capacity(alloc, parameters.len())?;
    for parameter in parameters {
        types.push(parameter.written.written.clone()?)?;
    }
    Ok(Seq::from_vec(types))
}
