//! The shape of a snippet as a text: what it is, and brackets about all that consists of several
//! parts.

use crate::expression_shape::{arguments, expression, initial, name, type_use};
use crate::statement_shape::{block, body, statement, variable};
use jsh_tree::{
    ClassDeclaration, ConstructorCall, ConstructorDeclaration, FieldDeclaration, Identifier,
    Import, InterfaceDeclaration, MemberDeclaration, MethodDeclaration, Modifier, ModifierUse,
    Parameter, Tree,
};
use std::alloc::{AllocError, Global};

pub fn shape_of(alloc: Global, tree: &Tree) -> Result<String, AllocError> {
    let mut out = String::new(alloc);
    write(&mut out, tree)?;
    Ok(out)
}

fn write(out: &mut String, tree: &Tree) -> Result<(), AllocError> {
    match tree {
        Tree::Import(tree) => import(out, tree),
        Tree::Class(tree) => class(out, tree),
        Tree::Interface(tree) => interface(out, tree),
        Tree::Method(tree) => method(out, tree),
        Tree::Variable {
            modifiers: before,
            variable: declared,
        } => {
            out.push_str("[variable ")?;
            modifiers(out, before.as_slice())?;
            variable(out, declared)?;
            out.push_str("]")
        }
        Tree::Block(tree) => block(out, tree),
        Tree::Statement(tree) => {
            out.push_str("statement ")?;
            statement(out, tree)
        }
        Tree::Expression(tree) => {
            out.push_str("expression ")?;
            expression(out, tree)
        }
    }
}

fn word_of(modifier: Modifier) -> &'static str {
    match modifier {
        Modifier::Public => "public ",
        Modifier::Protected => "protected ",
        Modifier::Private => "private ",
        Modifier::Static => "static ",
        Modifier::Final => "final ",
        Modifier::Volatile => "volatile ",
        Modifier::Abstract => "abstract ",
    }
}

fn modifiers(out: &mut String, before: &[ModifierUse]) -> Result<(), AllocError> {
    for further in before {
        out.push_str(word_of(further.modifier))?;
    }
    Ok(())
}

fn import(out: &mut String, tree: &Import) -> Result<(), AllocError> {
    out.push_str("[import ")?;
    if tree.is_static {
        out.push_str("static ")?;
    }
    for (place, part) in tree.parts.as_slice().iter().enumerate() {
        if place > 0 {
            out.push_str(" ")?;
        }
        name(out, part)?;
    }
    if tree.on_demand {
        out.push_str(" *")?;
    }
    out.push_str("]")
}

/// Names behind a word, where there are any.
fn names(out: &mut String, word: &str, listed: &[Identifier]) -> Result<(), AllocError> {
    if listed.is_empty() {
        return Ok(());
    }
    out.push_str(word)?;
    for (place, further) in listed.iter().enumerate() {
        if place > 0 {
            out.push_str(", ")?;
        }
        name(out, further)?;
    }
    Ok(())
}

fn parameters(out: &mut String, listed: &[Parameter]) -> Result<(), AllocError> {
    out.push_str("(")?;
    for (place, further) in listed.iter().enumerate() {
        if place > 0 {
            out.push_str(", ")?;
        }
        if further.is_final {
            out.push_str("final ")?;
        }
        type_use(out, &further.written)?;
        out.push_str(" ")?;
        name(out, &further.name)?;
    }
    out.push_str(")")
}

fn class(out: &mut String, tree: &ClassDeclaration) -> Result<(), AllocError> {
    out.push_str("[class ")?;
    modifiers(out, tree.modifiers.as_slice())?;
    name(out, &tree.name)?;
    if let Some(superclass) = &tree.extends {
        out.push_str(" extends ")?;
        name(out, superclass)?;
    }
    names(out, " implements ", tree.implements.as_slice())?;
    for further in tree.members.as_slice() {
        out.push_str(" ")?;
        match further {
            MemberDeclaration::Field(tree) => field(out, tree)?,
            MemberDeclaration::Method(tree) => method(out, tree)?,
            MemberDeclaration::Constructor(tree) => constructor(out, tree)?,
        }
    }
    out.push_str("]")
}

fn interface(out: &mut String, tree: &InterfaceDeclaration) -> Result<(), AllocError> {
    out.push_str("[interface ")?;
    modifiers(out, tree.modifiers.as_slice())?;
    name(out, &tree.name)?;
    names(out, " extends ", tree.extends.as_slice())?;
    for further in tree.methods.as_slice() {
        out.push_str(" ")?;
        method(out, further)?;
    }
    out.push_str("]")
}

fn field(out: &mut String, tree: &FieldDeclaration) -> Result<(), AllocError> {
    out.push_str("[field ")?;
    modifiers(out, tree.modifiers.as_slice())?;
    type_use(out, &tree.written)?;
    out.push_str(" ")?;
    name(out, &tree.name)?;
    if let Some(value) = &tree.initial {
        out.push_str(" = ")?;
        initial(out, value)?;
    }
    out.push_str("]")
}

fn method(out: &mut String, tree: &MethodDeclaration) -> Result<(), AllocError> {
    out.push_str("[method ")?;
    modifiers(out, tree.modifiers.as_slice())?;
    match &tree.result {
        Some(written) => type_use(out, written)?,
        None => out.push_str("void")?,
    }
    out.push_str(" ")?;
    name(out, &tree.name)?;
    parameters(out, tree.parameters.as_slice())?;
    names(out, " throws ", tree.throws.as_slice())?;
    if let Some(inside) = &tree.body {
        out.push_str(" ")?;
        block(out, inside)?;
    }
    out.push_str("]")
}

fn first_call(out: &mut String, tree: &ConstructorCall) -> Result<(), AllocError> {
    out.push_str(if tree.is_super { " super(" } else { " this(" })?;
    arguments(out, tree.arguments.as_slice())?;
    out.push_str(")")
}

fn constructor(out: &mut String, tree: &ConstructorDeclaration) -> Result<(), AllocError> {
    out.push_str("[constructor ")?;
    modifiers(out, tree.modifiers.as_slice())?;
    name(out, &tree.name)?;
    parameters(out, tree.parameters.as_slice())?;
    names(out, " throws ", tree.throws.as_slice())?;
    if let Some(call) = &tree.first {
        first_call(out, call)?;
    }
    out.push_str(" ")?;
    body(out, tree.statements.as_slice())?;
    out.push_str("]")
}
