//! What of a declaration other code depends on.

ghost use Rattle.std.specs.Prelude.{◌≡◌, map, IfOk};
ghost use Rattle.std.specs.List.{flat_map};
ghost use Rattle.std.specs.Option.{option_to_list};
ghost use Rattle.jsh_snippet.specs.Keys as keys;
ghost use Rattle.jsh_snippet.specs.Headers as spec;

use crate::keys::{names, parameter_types};
use jsh_text::NoMemory;
use jsh_tree::{
    ClassDeclaration, Field, FieldDeclaration, Header, Identifier, InterfaceDeclaration,
    MemberDeclaration, MethodDeclaration, Modifier, ModifierUse, Name, Seq, Signature, Tree,
    TypeUse, TypeWritten, Variable,
};
use std::alloc::Global;

/// The header of a snippet. The fixed type is that of a temporary, or of a variable that was declared
/// by `var`, as it was at the entry.
#[tactic(auto, unfolding(crate::specs::Headers::header_of))]
pub fn header_of(
    alloc: Global,
    fixed: &Option<TypeWritten>,
    tree: &Tree,
) -> Result<Header, NoMemory>
    ensures { IfOk result (λ header. header ≡ spec.header_of fixed.now tree.now) }
{
    match tree {
        Tree::Class(class) => class_header(alloc, class),
        Tree::Interface(interface) => interface_header(alloc, interface),
        Tree::Method(method) => Ok(Header::OfMethod {
            result: written_result(&method.result)?,
            params: parameter_types(alloc, method.parameters.as_slice())?,
        }),
        Tree::Variable { variable, .. } => declared_header(fixed, variable),
        Tree::Expression(_) => variable_header(fixed),
        Tree::Import(_) | Tree::Block(_) | Tree::Statement(_) => Ok(Header::Empty),
    }
}

fn declared_header(fixed: &Option<TypeWritten>, variable: &Variable) -> Result<Header, NoMemory>
    ensures { IfOk result (λ header. header ≡ spec.variable_header (spec.variable_type fixed.now variable.now.written)) }
{
    match &variable.written {
        None => variable_header(fixed),
        Some(written) => Ok(Header::OfVar(written.written.clone()?)),
    }
}

fn variable_header(fixed: &Option<TypeWritten>) -> Result<Header, NoMemory>
    ensures { IfOk result (λ header. header ≡ spec.variable_header fixed.now) }
{
    match fixed {
        None => Ok(Header::Empty),
        Some(written) => Ok(Header::OfVar(written.clone()?)),
    }
}

fn class_header(alloc: Global, class: &ClassDeclaration) -> Result<Header, NoMemory>
    ensures { IfOk result (λ header. header ≡ spec.class_header class.now) }
{
    let members = class.members.as_slice();
    Ok(Header::OfType {
        interface: false,
        is_abstract: has_abstract(class.modifiers.as_slice()),
        name: class.name.name.clone()?,
        extends: name_or_none(alloc, &class.extends)?,
        implements: names(alloc, class.implements.as_slice())?,
        fields: fields(alloc, members)?,
        methods: methods(alloc, members)?,
        constructors: constructors(alloc, members)?,
    })
}

fn interface_header(alloc: Global, interface: &InterfaceDeclaration) -> Result<Header, NoMemory>
    ensures { IfOk result (λ header. header ≡ spec.interface_header interface.now) }
{
    Ok(Header::OfType {
        interface: true,
        is_abstract: true,
        name: interface.name.name.clone()?,
        extends: names(alloc, interface.extends.as_slice())?,
        implements: Seq::new(alloc),
        fields: Seq::new(alloc),
        methods: signatures(alloc, interface.methods.as_slice())?,
        constructors: Seq::new(alloc),
    })
}

fn has_abstract(modifiers: &[ModifierUse]) -> bool
    ensures { result ≡ spec.has_abstract modifiers.now }
{
    modifiers
        .iter()
        .any(|found| matches!(found.modifier, Modifier::Abstract))
}

fn name_or_none(alloc: Global, identifier: &Option<Identifier>) -> Result<Seq<Name>, NoMemory>
    ensures { IfOk result (λ names. names ≡ keys.names_of (option_to_list identifier.now)) }
{
    let mut names = Vec::new(alloc);
    if let Some(identifier) = identifier {
        names.push(identifier.name.clone()?)?;
    }
    Ok(Seq::from_vec(names))
}

fn fields(alloc: Global, members: &[MemberDeclaration]) -> Result<Seq<Field>, NoMemory>
    ensures { IfOk result (λ fields. fields ≡ flat_map spec.field_in members.now) }
{
    let mut fields = Vec::new(alloc);
    for member in members {
        if let MemberDeclaration::Field(field) = member {
            fields.push(field_of(field)?)?;
        }
    }
    Ok(Seq::from_vec(fields))
}

fn field_of(field: &FieldDeclaration) -> Result<Field, NoMemory>
    ensures { IfOk result (λ copy. copy ≡ spec.field_of field.now) }
{
    Ok(Field {
        written: field.written.written.clone()?,
        name: field.name.name.clone()?,
    })
}

fn methods(alloc: Global, members: &[MemberDeclaration]) -> Result<Seq<Signature>, NoMemory>
    ensures { IfOk result (λ methods. methods ≡ flat_map spec.method_in members.now) }
{
    let mut methods = Vec::new(alloc);
    for member in members {
        if let MemberDeclaration::Method(method) = member {
            methods.push(signature(alloc, method)?)?;
        }
    }
    Ok(Seq::from_vec(methods))
}

/// The constructors of a class, or the one of a class that writes none (JLS 8.8.9).
fn constructors(
    alloc: Global,
    members: &[MemberDeclaration],
) -> Result<Seq<Seq<TypeWritten>>, NoMemory>
    ensures { IfOk result (λ all. all ≡ spec.or_default (flat_map spec.constructor_in members.now)) }
{
    let mut written = written_constructors(alloc, members)?;
    if written.is_empty() {
        written.push(Seq::new(alloc))?;
    }
    Ok(Seq::from_vec(written))
}

fn written_constructors(
    alloc: Global,
    members: &[MemberDeclaration],
) -> Result<Vec<Seq<TypeWritten>>, NoMemory>
    ensures { IfOk result (λ written. written.items ≡ flat_map spec.constructor_in members.now) }
{
    let mut written = Vec::new(alloc);
    for member in members {
        if let MemberDeclaration::Constructor(constructor) = member {
            written.push(parameter_types(alloc, constructor.parameters.as_slice())?)?;
        }
    }
    Ok(written)
}

fn signatures(alloc: Global, methods: &[MethodDeclaration]) -> Result<Seq<Signature>, NoMemory>
    ensures { IfOk result (λ signatures. signatures ≡ map spec.signature_of methods.now) }
{
    let mut signatures = Vec::with_capacity(alloc, methods.len())?;
    for method in methods {
        signatures.push(signature(alloc, method)?)?;
    }
    Ok(Seq::from_vec(signatures))
}

fn signature(alloc: Global, method: &MethodDeclaration) -> Result<Signature, NoMemory>
    ensures { IfOk result (λ signature. signature ≡ spec.signature_of method.now) }
{
    Ok(Signature {
        name: method.name.name.clone()?,
        result: written_result(&method.result)?,
        params: parameter_types(alloc, method.parameters.as_slice())?,
        is_abstract: method.body.is_none(),
    })
}

fn written_result(result_type: &Option<TypeUse>) -> Result<Option<TypeWritten>, NoMemory>
    ensures { IfOk result (λ written. written ≡ spec.written_result result_type.now) }
{
    match result_type {
        None => Ok(None),
        Some(found) => Ok(Some(found.written.clone()?)),
    }
}
