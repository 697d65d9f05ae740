//! What kind of snippet a tree is.

ghost use Rattle.std.specs.Prelude.{◌≡◌};
ghost use Rattle.jsh_tree.specs.declared.expression.Expr.{out-Expr};
ghost use Rattle.jsh_snippet.specs.Kinds as spec;

use crate::kinds::{Kind, Subkind};
use jsh_tree::{Expr, Import, Initial, Tree};

/// What the kind of an expression asks of its type.
#[derive(Clone, Copy)]
pub enum ExpressionType {
    /// It has no value (JLS 15.1).
    Void,
    /// The null type (JLS 4.1).
    Null,
    /// Any other type.
    Value,
}

impl Subkind {
    /// The kind that it belongs to.
    #[tactic(auto, unfolding(crate::specs::Kinds::kind_of))]
    pub fn kind(self) -> Kind
        ensures { result ≡ spec.kind_of self }
    {
        match self {
            Subkind::SingleTypeImport
            | Subkind::TypeImportOnDemand
            | Subkind::SingleStaticImport
            | Subkind::StaticImportOnDemand => Kind::Import,
            Subkind::Class | Subkind::Interface => Kind::TypeDecl,
            Subkind::Method => Kind::Method,
            Subkind::VarDeclaration
            | Subkind::VarDeclarationWithInitializer
            | Subkind::TempVarExpression => Kind::Var,
            Subkind::VarValue | Subkind::Assignment | Subkind::OtherExpression => Kind::Expression,
            Subkind::Statement => Kind::Statement,
            Subkind::Unknown => Kind::Erroneous,
        }
    }
}

/// The subkind of a snippet that isn't rejected. The type is the expression's at its own entry; for
/// any other tree it doesn't matter.
#[tactic(auto, unfolding(crate::specs::Kinds::subkind_of))]
pub fn subkind_of(of: ExpressionType, tree: &Tree) -> Subkind
    ensures { result ≡ spec.subkind_of of tree.now }
{
    match tree {
        Tree::Import(import) => import_subkind(import),
        Tree::Class(_) => Subkind::Class,
        Tree::Interface(_) => Subkind::Interface,
        Tree::Method(_) => Subkind::Method,
        Tree::Variable { variable, .. } => variable_subkind(&variable.initial),
        Tree::Block(_) | Tree::Statement(_) => Subkind::Statement,
        Tree::Expression(expr) => expression_subkind(of, expr),
    }
}

fn import_subkind(import: &Import) -> Subkind
    ensures { result ≡ spec.import_subkind import.now }
{
    match (import.is_static, import.on_demand) {
        (true, true) => Subkind::StaticImportOnDemand,
        (true, false) => Subkind::SingleStaticImport,
        (false, true) => Subkind::TypeImportOnDemand,
        (false, false) => Subkind::SingleTypeImport,
    }
}

fn variable_subkind(initial: &Option<Initial>) -> Subkind
    ensures { result ≡ spec.variable_subkind initial.now }
{
    match initial {
        None => Subkind::VarDeclaration,
        Some(_) => Subkind::VarDeclarationWithInitializer,
    }
}

fn expression_subkind(of: ExpressionType, expr: &Expr) -> Subkind
    ensures { result ≡ spec.expression_subkind of (out-Expr expr.now) }
{
    match expr {
        Expr::Name(_) => Subkind::VarValue,
        Expr::Assign {
            target,
            operator: None,
            ..
        } => assignment_subkind(of, target.get()),
        _ => value_subkind(of),
    }
}

fn assignment_subkind(of: ExpressionType, target: &Expr) -> Subkind
    ensures { result ≡ spec.assignment_subkind of (spec.name_alone (out-Expr target.now)) }
{
    match target {
        Expr::Name(_) => Subkind::Assignment,
        _ => value_subkind(of),
    }
}

fn value_subkind(of: ExpressionType) -> Subkind
    ensures { result ≡ spec.value_subkind of }
{
    match of {
        ExpressionType::Void => Subkind::Statement,
        ExpressionType::Null => Subkind::OtherExpression,
        ExpressionType::Value => Subkind::TempVarExpression,
    }
}
