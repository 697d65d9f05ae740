//! Which type names a header mentions.

ghost use Rattle.std.specs.Prelude.{◌≡◌, ◌++◌, IfOk, OnOk};
ghost use Rattle.std.specs.List.{flat_map};
ghost use Rattle.jsh_snippet.specs.Mentions as spec;

use jsh_text::NoMemory;
use jsh_tree::{Field, Header, Name, Seq, Signature, TypeWritten};
use std::alloc::Global;

/// The type names of a header, in order and as often as they stand there. The words of primitive
/// types are none.
#[tactic(auto, unfolding(crate::specs::Mentions::mentions))]
pub fn mentions(alloc: Global, header: &Header) -> Result<Seq<Name>, NoMemory>
    ensures { IfOk result (λ names. names ≡ spec.mentions header.now) }
{
    match header {
        Header::OfType {
            extends,
            implements,
            fields,
            methods,
            constructors,
            ..
        } => {
            let mut names = Vec::new(alloc);
            push_names(&mut names, extends.as_slice())?;
            push_names(&mut names, implements.as_slice())?;
            push_fields(&mut names, fields.as_slice())?;
            push_signatures(&mut names, methods.as_slice())?;
            push_constructors(&mut names, constructors.as_slice())?;
            Ok(Seq::from_vec(names))
        }
        Header::OfMethod {
            result: result_type,
            params,
        } => {
            let mut names = Vec::new(alloc);
            push_result(&mut names, result_type)?;
            push_types(&mut names, params.as_slice())?;
            Ok(Seq::from_vec(names))
        }
        Header::OfVar(written) => {
            let mut names = Vec::new(alloc);
            push_type(&mut names, written)?;
            Ok(Seq::from_vec(names))
        }
        Header::Empty => Ok(Seq::new(alloc)),
    }
}

fn push_names(names: &mut Vec<Name>, more: &[Name]) -> Result<(), NoMemory>
    ensures { OnOk result (names.new.items ≡ names.old.items ++ more.now) }
{
    for name in more {
        names.push(name.clone()?)?;
    }
    Ok(())
}

fn push_fields(names: &mut Vec<Name>, fields: &[Field]) -> Result<(), NoMemory>
    ensures { OnOk result (names.new.items ≡ names.old.items ++ flat_map spec.in_field fields.now) }
{
    for field in fields {
        push_type(names, &field.written)?;
    }
    Ok(())
}

fn push_signatures(names: &mut Vec<Name>, signatures: &[Signature]) -> Result<(), NoMemory>
    ensures { OnOk result (names.new.items ≡ names.old.items ++ flat_map spec.in_signature signatures.now) }
{
    for signature in signatures {
        push_signature(names, signature)?;
    }
    Ok(())
}

fn push_signature(names: &mut Vec<Name>, signature: &Signature) -> Result<(), NoMemory>
    ensures { OnOk result (names.new.items ≡ names.old.items ++ spec.in_signature signature.now) }
{
    push_result(names, &signature.result)?;
    push_types(names, signature.params.as_slice())
}

fn push_constructors(
    names: &mut Vec<Name>,
    constructors: &[Seq<TypeWritten>],
) -> Result<(), NoMemory>
    ensures { OnOk result (names.new.items ≡ names.old.items ++ flat_map spec.in_types constructors.now) }
{
    for params in constructors {
        push_types(names, params.as_slice())?;
    }
    Ok(())
}

fn push_types(names: &mut Vec<Name>, types: &[TypeWritten]) -> Result<(), NoMemory>
    ensures { OnOk result (names.new.items ≡ names.old.items ++ spec.in_types types.now) }
{
    for written in types {
        push_type(names, written)?;
    }
    Ok(())
}

fn push_result(names: &mut Vec<Name>, result_type: &Option<TypeWritten>) -> Result<(), NoMemory>
    ensures { OnOk result (names.new.items ≡ names.old.items ++ spec.in_result result_type.now) }
{
    match result_type {
        None => Ok(()),
        Some(written) => push_type(names, written),
    }
}

fn push_type(names: &mut Vec<Name>, written: &TypeWritten) -> Result<(), NoMemory>
    ensures { OnOk result (names.new.items ≡ names.old.items ++ spec.in_type written.now) }
{
    if !is_primitive_word(written.name.as_str()) {
        names.push(written.name.clone()?)?;
    }
    Ok(())
}

/// The words of the primitive types (JLS 4.2).
fn is_primitive_word(name: &str) -> bool
    ensures { result ≡ spec.is_primitive_word name.now }
{
    name == "int" || name == "long" || name == "char" || name == "boolean"
}
