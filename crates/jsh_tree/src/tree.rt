use crate::declaration::{
    ClassDeclaration, Import, InterfaceDeclaration, MethodDeclaration, ModifierUse,
};
use crate::expression::Expr;
use crate::seq::Seq;
use crate::statement::{Block, Stmt, Variable};

/// A snippet as a tree (JLS 7.5, 8, 9, 14, 15).
#[derive(PartialEq, Eq, Drop)]
pub enum Tree {
    Import(Import),
    Class(ClassDeclaration),
    Interface(InterfaceDeclaration),
    Method(MethodDeclaration),
    /// With its semicolon.
    Variable {
        modifiers: Seq<ModifierUse>,
        variable: Variable,
    },
    Block(Block),
    /// Any statement but a block and an expression.
    Statement(Stmt),
    /// With its semicolon.
    Expression(Expr),
}
