use crate::boxed::Boxed;
use crate::expression::{Expr, Identifier, Initial, Literal, TypeUse};
use crate::seq::Seq;
use crate::token::Span;

/// A statement (JLS 14).
#[cycle(statement)]
#[derive(PartialEq, Eq, Drop)]
pub enum Stmt {
    Block(Block),
    /// `;`
    Empty {
        span: Span,
    },
    /// An assignment, a step, a call or a new object, with its semicolon (JLS 14.8).
    Expression(Expr),
    If {
        /// The word `if`.
        span: Span,
        condition: Expr,
        then: Boxed<Stmt>,
        /// The statement behind `else`, where there is one.
        otherwise: Option<Boxed<Stmt>>,
    },
    While {
        /// The word `while`.
        span: Span,
        condition: Expr,
        body: Boxed<Stmt>,
    },
    Do {
        /// The word `do`.
        span: Span,
        body: Boxed<Stmt>,
        condition: Expr,
    },
    For {
        /// The word `for`.
        span: Span,
        start: ForStart,
        condition: Option<Expr>,
        update: Option<Expr>,
        body: Boxed<Stmt>,
    },
    /// `for (int x : array)`
    ForEach {
        /// The word `for`.
        span: Span,
        is_final: bool,
        /// None for `var`.
        written: Option<TypeUse>,
        name: Identifier,
        array: Expr,
        body: Boxed<Stmt>,
    },
    Switch {
        /// The word `switch`.
        span: Span,
        selector: Expr,
        groups: Seq<SwitchGroup>,
    },
    Break {
        span: Span,
    },
    Continue {
        span: Span,
    },
    Return {
        /// The word `return`.
        span: Span,
        value: Option<Expr>,
    },
    Throw {
        /// The word `throw`.
        span: Span,
        value: Expr,
    },
    Try {
        /// The word `try`.
        span: Span,
        block: Block,
        catches: Seq<CatchClause>,
    },
}

/// `{statements}` (JLS 14.2)
#[cycle(statement)]
#[derive(PartialEq, Eq, Drop)]
pub struct Block {
    /// The opening brace's.
    pub span: Span,
    pub statements: Seq<BlockStatement>,
}

/// What a block has: declarations of locals, and statements.
#[cycle(statement)]
#[derive(PartialEq, Eq, Drop)]
pub enum BlockStatement {
    Local {
        /// Where the statement begins: the word `final`, or else the type or the word `var`.
        span: Span,
        is_final: bool,
        variable: Variable,
    },
    Statement(Stmt),
}

/// The labels of a `switch` that stand together, and the statements behind them (JLS 14.11.1).
#[cycle(statement)]
#[derive(PartialEq, Eq, Drop)]
pub struct SwitchGroup {
    pub labels: Seq<SwitchLabel>,
    pub statements: Seq<BlockStatement>,
}

/// `catch (Type name) block` (JLS 14.20)
#[cycle(statement)]
#[derive(PartialEq, Eq, Drop)]
pub struct CatchClause {
    pub is_final: bool,
    pub class: Identifier,
    pub name: Identifier,
    pub block: Block,
}

/// `case 'a':`, `case -1:` or `default:`
#[derive(Debug, PartialEq, Eq, Drop)]
pub enum SwitchLabel {
    Case {
        /// The literal's, or the minus's.
        span: Span,
        is_negative: bool,
        literal: Literal,
    },
    Default {
        span: Span,
    },
}

/// A variable as it is declared (JLS 14.4, 8.3).
#[derive(PartialEq, Eq, Drop)]
pub struct Variable {
    /// None for `var`.
    pub written: Option<TypeUse>,
    pub name: Identifier,
    pub initial: Option<Initial>,
}

/// What a `for` begins with (JLS 14.14.1).
#[derive(PartialEq, Eq, Drop)]
pub enum ForStart {
    Nothing,
    Local {
        /// Where it begins: the word `final`, or else the type or the word `var`.
        span: Span,
        is_final: bool,
        variable: Variable,
    },
    Expression(Expr),
}
