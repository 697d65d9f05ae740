//! The data types that every later layer reads: places in a text, tokens, names and lists.
//!
//! They are plain data. A contract sees a [`Seq`] as the list of its elements, a [`Name`] and a
//! [`SrcText`] as the list of their UTF-8 bytes, and every other type as its fields or variants. So
//! a tree of them has no address in its value, and `≡` compares it with what a definition gives.
#![tactic(auto)]

mod boxed;
mod declaration;
mod diagnostic;
mod expression;
mod key;
mod library;
mod modifier;
mod name;
mod seq;
mod source;
mod statement;
mod text;
mod token;
mod tree;

pub use boxed::Boxed;
pub use declaration::{
    ClassDeclaration, ConstructorCall, ConstructorDeclaration, FieldDeclaration, Import,
    InterfaceDeclaration, MemberDeclaration, MethodDeclaration, ModifierUse, Parameter,
};
pub use diagnostic::{Code, Diagnostic};
pub use expression::{
    BinaryOperator, Expr, Identifier, Initial, Literal, Operation, PathPart, PostfixOperator,
    TypeUse, UnaryOperator,
};
pub use key::{Field, Header, Key, Link, Signature};
pub use library::{Library, LibraryConstant, LibraryMethod, LibraryType, Member, Query};
pub use modifier::Modifier;
pub use name::{Name, TypeWritten};
pub use seq::Seq;
pub use source::SrcText;
pub use statement::{
    Block, BlockStatement, CatchClause, ForStart, Stmt, SwitchGroup, SwitchLabel, Variable,
};
pub use text::{MOST_SOURCE, is_white};
pub use token::{Span, Token, TokenKind};
pub use tree::Tree;
