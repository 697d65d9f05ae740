//! The name of a snippet as feedback shows it.

ghost use Rattle.std.specs.Prelude.{◌≡◌, ◌++◌, codes, IfOk, OnOk};
ghost use Rattle.std.specs.List.{flat_map, repeat};
ghost use Rattle.jsh_tree.specs.declared.expression.Expr.{out-Expr};
ghost use Rattle.jsh_snippet.specs.Keys as keys;
ghost use Rattle.jsh_snippet.specs.Kinds as kinds;
ghost use Rattle.jsh_snippet.specs.Names as spec;

use crate::keys::parameter_types;
use crate::kinds::Kind;
use jsh_text::{NoMemory, UText, push_unsigned};
use jsh_tree::{Expr, MethodDeclaration, Name, Tree, TypeWritten};
use std::alloc::Global;

/// The name of the snippet with this kind at its entry, number and source. One that is rejected has
/// none.
#[tactic(auto, unfolding(crate::specs::Names::name_of))]
pub fn name_of(
    alloc: Global,
    of: Kind,
    id: u32,
    source: &str,
    tree: &Tree,
) -> Result<UText, NoMemory>
    ensures { IfOk result (λ name. name ≡ spec.name_of of id source.now tree.now) }
{
    match of {
        Kind::Erroneous => Ok(UText::new(alloc)),
        _ => accepted_name(alloc, of, id, source, tree),
    }
}

fn accepted_name(
    alloc: Global,
    of: Kind,
    id: u32,
    source: &str,
    tree: &Tree,
) -> Result<UText, NoMemory>
    ensures { IfOk result (λ name. name ≡ spec.accepted_name of id source.now tree.now) }
{
    match tree {
        Tree::Import(_) => UText::from_str(alloc, source),
        Tree::Class(class) => behind(alloc, b"class ", &class.name.name),
        Tree::Interface(interface) => behind(alloc, b"interface ", &interface.name.name),
        Tree::Method(method) => method_text(alloc, method),
        Tree::Variable { variable, .. } => UText::from_str(alloc, variable.name.name.as_str()),
        Tree::Block(_) | Tree::Statement(_) => Ok(UText::new(alloc)),
        Tree::Expression(expr) => expression_name(alloc, of, id, expr),
    }
}

/// A name behind a word.
fn behind(alloc: Global, word: &[u8], name: &Name) -> Result<UText, NoMemory>
    ensures { IfOk result (λ text. text ≡ word.now ++ spec.units name.now) }
{
    let mut text = UText::from_latin1(alloc, word)?;
    text.push_str(name.as_str())?;
    Ok(text)
}

fn expression_name(alloc: Global, of: Kind, id: u32, expr: &Expr) -> Result<UText, NoMemory>
    ensures { IfOk result (λ name. name ≡ spec.expression_name of id expr.now) }
{
    match of {
        Kind::Var => temporary_text(alloc, id),
        _ => read_name(alloc, expr),
    }
}

fn temporary_text(alloc: Global, id: u32) -> Result<UText, NoMemory>
    ensures { IfOk result (λ name. name ≡ keys.temporary_name id) }
{
    let mut text = UText::from_latin1(alloc, b"$")?;
    push_unsigned(&mut text, id as u64)?;
    Ok(text)
}

/// The simple name that an expression reads or assigns.
fn read_name(alloc: Global, expr: &Expr) -> Result<UText, NoMemory>
    ensures { IfOk result (λ name. name ≡ spec.read_name (kinds.simple_name (out-Expr expr.now))) }
{
    match expr {
        Expr::Name(identifier) => UText::from_str(alloc, identifier.name.as_str()),
        Expr::Assign {
            target,
            operator: None,
            ..
        } => name_alone(alloc, target.get()),
        _ => Ok(UText::new(alloc)),
    }
}

fn name_alone(alloc: Global, expr: &Expr) -> Result<UText, NoMemory>
    ensures { IfOk result (λ name. name ≡ spec.read_name (kinds.name_alone (out-Expr expr.now))) }
{
    match expr {
        Expr::Name(identifier) => UText::from_str(alloc, identifier.name.as_str()),
        _ => Ok(UText::new(alloc)),
    }
}

/// `f(int,long)`
fn method_text(alloc: Global, method: &MethodDeclaration) -> Result<UText, NoMemory>
    ensures { IfOk result (λ text. text ≡ spec.method_text method.now.name.name (keys.parameter_types method.now.parameters)) }
{
    let types = parameter_types(alloc, method.parameters.as_slice())?;
    let mut text = UText::from_str(alloc, method.name.name.as_str())?;
    text.push_latin1(b"(")?;
    push_types(&mut text, types.as_slice())?;
    text.push_latin1(b")")?;
    Ok(text)
}

/// The types with commas between them.
fn push_types(text: &mut UText, types: &[TypeWritten]) -> Result<(), NoMemory>
    ensures { OnOk result (text.new ≡ text.old ++ spec.types_text types.now) }
{
    match types {
        [] => Ok(()),
        [first, rest @ ..] => {
            push_type(text, first)?;
            push_further_types(text, rest)
        }
    }
}

/// The types with a comma before each.
fn push_further_types(text: &mut UText, types: &[TypeWritten]) -> Result<(), NoMemory>
    ensures { OnOk result (text.new ≡ text.old ++ flat_map spec.further_type types.now) }
{
    for written in types {
        push_further_type(text, written)?;
    }
    Ok(())
}

fn push_further_type(text: &mut UText, written: &TypeWritten) -> Result<(), NoMemory>
    ensures { OnOk result (text.new ≡ text.old ++ spec.further_type written.now) }
{
    text.push_latin1(b",")?;
    push_type(text, written)
}

fn push_type(text: &mut UText, written: &TypeWritten) -> Result<(), NoMemory>
    ensures { OnOk result (text.new ≡ text.old ++ spec.type_text written.now) }
{
    text.push_str(written.name.as_str())?;
    push_brackets(text, written.dims)
}

fn push_brackets(text: &mut UText, pairs: u32) -> Result<(), NoMemory>
    ensures { OnOk result (text.new ≡ text.old ++ repeat pairs (codes "[]")) }
{
    for _pair in 0..pairs {
        text.push_latin1(b"[]")?;
    }
    Ok(())
}
