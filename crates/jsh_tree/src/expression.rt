use crate::boxed::Boxed;
use crate::name::{Name, TypeWritten};
use crate::seq::Seq;
use crate::token::Span;

/// A name where it stands.
#[derive(Debug, PartialEq, Eq, Drop)]
pub struct Identifier {
    pub name: Name,
    pub span: Span,
}

/// A type where it is written.
#[derive(Debug, PartialEq, Eq, Drop)]
pub struct TypeUse {
    pub written: TypeWritten,
    /// Its word or simple name, without the brackets.
    pub span: Span,
}

/// The value of a literal (JLS 15.8.1).
#[derive(Clone, Debug, PartialEq, Eq, Drop)]
pub enum Literal {
    /// For `2147483648`, which stands only behind a minus, the least `int`.
    Int { value: i32, needs_minus: bool },
    /// For `9223372036854775808L`, which stands only behind a minus, the least `long`.
    Long { value: i64, needs_minus: bool },
    Char(u16),
    /// In UTF-16 units.
    Text(Seq<u16>),
    Boolean(bool),
    Null,
}

/// The operators that take two operands (JLS 15.17 to 15.24).
#[derive(Clone, Copy, Debug, PartialEq, Eq)]
pub enum BinaryOperator {
    OrElse,
    AndAlso,
    Or,
    Xor,
    And,
    Equal,
    NotEqual,
    Less,
    Greater,
    LessOrEqual,
    GreaterOrEqual,
    ShiftLeft,
    ShiftRight,
    UnsignedShiftRight,
    Add,
    Subtract,
    Multiply,
    Divide,
    Remainder,
}

/// The operators in front of one operand (JLS 15.15).
#[derive(Clone, Copy, Debug, PartialEq, Eq)]
pub enum UnaryOperator {
    Plus,
    Minus,
    Not,
    Complement,
    Increment,
    Decrement,
}

/// The operators behind one operand (JLS 15.14).
#[derive(Clone, Copy, Debug, PartialEq, Eq)]
pub enum PostfixOperator {
    Increment,
    Decrement,
}

/// An expression (JLS 15). A run of operators of one level is one node, and so is a run of members
/// and indices.
#[cycle(expression)]
#[derive(PartialEq, Eq, Drop)]
pub enum Expr {
    /// `target = value`, or with the operator of a compound assignment (JLS 15.26).
    Assign {
        target: Boxed<Expr>,
        operator: Option<BinaryOperator>,
        value: Boxed<Expr>,
    },
    /// `condition ? yes : no` (JLS 15.25)
    Conditional {
        condition: Boxed<Expr>,
        yes: Boxed<Expr>,
        no: Boxed<Expr>,
    },
    /// Operands joined by operators of one level, from the left (JLS 15.17 to 15.24).
    Binary {
        first: Boxed<Expr>,
        rest: Seq<Operation>,
    },
    Unary {
        /// The operator's.
        span: Span,
        operator: UnaryOperator,
        operand: Boxed<Expr>,
    },
    /// `(int) operand` (JLS 15.16)
    Cast {
        /// The opening parenthesis's.
        span: Span,
        target: TypeUse,
        operand: Boxed<Expr>,
    },
    Postfix {
        operand: Boxed<Expr>,
        operator: PostfixOperator,
    },
    /// An expression with members and indices behind it, in turn (JLS 15.10.3, 15.11, 15.12).
    Path {
        first: Boxed<Expr>,
        parts: Seq<PathPart>,
    },
    Literal {
        span: Span,
        literal: Literal,
    },
    This {
        span: Span,
    },
    /// `(inner)` (JLS 15.8.5)
    Parenthesized {
        /// The opening parenthesis's.
        span: Span,
        inner: Boxed<Expr>,
    },
    Name(Identifier),
    /// `name(arguments)`
    Call {
        name: Identifier,
        arguments: Seq<Expr>,
    },
    /// `super.name(arguments)`
    SuperCall {
        /// The word `super`.
        span: Span,
        name: Identifier,
        arguments: Seq<Expr>,
    },
    /// `new Class(arguments)` (JLS 15.9)
    New {
        /// The word `new`.
        span: Span,
        class: Identifier,
        arguments: Seq<Expr>,
    },
    /// `new int[size][]` (JLS 15.10.1)
    NewArray {
        /// The word `new`.
        span: Span,
        /// The type, with a pair of brackets for each size and for each empty pair.
        created: TypeUse,
        sizes: Seq<Expr>,
    },
    /// `new int[] {values}` (JLS 15.10.1, 10.6)
    NewArrayOf {
        /// The word `new`.
        span: Span,
        created: TypeUse,
        /// The opening brace's.
        brace: Span,
        values: Seq<Initial>,
    },
}

/// A further operand, or a type that the value so far may be of.
#[cycle(expression)]
#[derive(PartialEq, Eq, Drop)]
pub enum Operation {
    Operator {
        operator: BinaryOperator,
        operand: Expr,
    },
    InstanceOf(TypeUse),
}

/// What may stand behind an expression.
#[cycle(expression)]
#[derive(PartialEq, Eq, Drop)]
pub enum PathPart {
    /// `.name`
    Field(Identifier),
    /// `.name(arguments)`
    Call {
        name: Identifier,
        arguments: Seq<Expr>,
    },
    /// `[index]`
    Index(Expr),
}

/// A value that a variable or an element begins with (JLS 8.3, 10.6).
#[cycle(expression)]
#[derive(PartialEq, Eq, Drop)]
pub enum Initial {
    Value(Expr),
    /// `{values}`
    Array {
        /// The opening brace's.
        span: Span,
        values: Seq<Initial>,
    },
}
