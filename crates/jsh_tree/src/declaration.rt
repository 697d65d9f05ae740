use crate::expression::{Expr, Identifier, Initial, TypeUse};
use crate::modifier::Modifier;
use crate::seq::Seq;
use crate::statement::{Block, BlockStatement};
use crate::token::Span;

/// A modifier where it stands.
#[derive(Clone, Copy, Debug, PartialEq, Eq)]
pub struct ModifierUse {
    pub modifier: Modifier,
    pub span: Span,
}

/// An import (JLS 7.5).
#[derive(Debug, PartialEq, Eq, Drop)]
pub struct Import {
    /// The word `import`.
    pub span: Span,
    pub is_static: bool,
    pub parts: Seq<Identifier>,
    /// Whether it ends in `.*`.
    pub on_demand: bool,
}

/// A parameter of a method or a constructor (JLS 8.4.1).
#[derive(Debug, PartialEq, Eq, Drop)]
pub struct Parameter {
    pub is_final: bool,
    pub written: TypeUse,
    pub name: Identifier,
}

/// A method, of a type or by itself (JLS 8.4, 9.4).
#[derive(PartialEq, Eq, Drop)]
pub struct MethodDeclaration {
    pub modifiers: Seq<ModifierUse>,
    /// None for `void`.
    pub result: Option<TypeUse>,
    pub name: Identifier,
    pub parameters: Seq<Parameter>,
    pub throws: Seq<Identifier>,
    /// None where a semicolon stands in its place.
    pub body: Option<Block>,
}

/// A field of a class (JLS 8.3).
#[derive(PartialEq, Eq, Drop)]
pub struct FieldDeclaration {
    pub modifiers: Seq<ModifierUse>,
    pub written: TypeUse,
    pub name: Identifier,
    pub initial: Option<Initial>,
}

/// `this(arguments);` or `super(arguments);` at the head of a constructor (JLS 8.8.7.1).
#[derive(PartialEq, Eq, Drop)]
pub struct ConstructorCall {
    /// The word `this` or `super`.
    pub span: Span,
    pub is_super: bool,
    pub arguments: Seq<Expr>,
}

/// A constructor (JLS 8.8).
#[derive(PartialEq, Eq, Drop)]
pub struct ConstructorDeclaration {
    pub modifiers: Seq<ModifierUse>,
    pub name: Identifier,
    pub parameters: Seq<Parameter>,
    pub throws: Seq<Identifier>,
    /// The body's opening brace.
    pub brace: Span,
    pub first: Option<ConstructorCall>,
    pub statements: Seq<BlockStatement>,
}

/// A member of a class (JLS 8.1.7). A semicolon by itself is none.
#[derive(PartialEq, Eq, Drop)]
pub enum MemberDeclaration {
    Field(FieldDeclaration),
    Method(MethodDeclaration),
    Constructor(ConstructorDeclaration),
}

/// A class (JLS 8.1).
#[derive(PartialEq, Eq, Drop)]
pub struct ClassDeclaration {
    pub modifiers: Seq<ModifierUse>,
    pub name: Identifier,
    pub extends: Option<Identifier>,
    pub implements: Seq<Identifier>,
    pub members: Seq<MemberDeclaration>,
}

/// An interface (JLS 9.1). Each of its methods has no body.
#[derive(PartialEq, Eq, Drop)]
pub struct InterfaceDeclaration {
    pub modifiers: Seq<ModifierUse>,
    pub name: Identifier,
    pub extends: Seq<Identifier>,
    pub methods: Seq<MethodDeclaration>,
}
