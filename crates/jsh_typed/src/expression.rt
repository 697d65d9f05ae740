use crate::operation::{BinaryOperation, UnaryOperation};
use crate::types::{ClassName, Numeric, Promoted, ResolvedType};
use jsh_text::Value;
use jsh_tree::{Boxed, Link, Name, Seq};

/// A method as a call names it: the class or interface in which it was found, its name and its
/// parameter types.
#[derive(Drop)]
pub struct MethodName {
    pub class: ClassName,
    pub name: Name,
    pub params: Seq<ResolvedType>,
    /// None is `void`.
    pub result: Option<ResolvedType>,
}

/// A static method of the library, or one of `System.out`. What turns a value into its text is a
/// step.
#[derive(Clone, Copy, Debug, PartialEq, Eq)]
pub enum LibraryFunction {
    /// `Math.abs`, `min`, `max`, `floorDiv`, `floorMod`
    Absolute(Promoted),
    Least(Promoted),
    Greatest(Promoted),
    FloorDivide(Promoted),
    FloorRemainder(Promoted),
    ParseInt,
    ParseLong,
    /// Of a text.
    Print,
    PrintLine,
    /// `System.out.println()`
    PrintLineEnd,
}

/// A method of a text.
#[derive(Clone, Copy, Debug, PartialEq, Eq)]
pub enum TextMethod {
    Length,
    CharAt,
    SubstringFrom,
    Substring,
    IndexOf,
    IsEmpty,
    Equals,
    CompareTo,
    Concat,
    ToText,
}

/// An expression: what gives a first value, and what is done with that value, in turn. A run of
/// operators of one level, of members and of conversions is one list.
#[cycle(expression)]
#[derive(Drop)]
pub struct Expression {
    pub start: Start,
    pub steps: Seq<Step>,
}

/// What gives a value.
#[cycle(expression)]
#[derive(Drop)]
pub enum Start {
    /// A literal, or the value of a constant expression (JLS 15.28).
    Constant(Value),
    /// `this`, in the class of the link.
    This(Link),
    Local {
        slot: u32,
        of: ResolvedType,
    },
    /// A variable outside of methods.
    Variable {
        link: Link,
        of: ResolvedType,
    },
    Conditional {
        condition: Boxed<Expression>,
        yes: Boxed<Expression>,
        no: Boxed<Expression>,
    },
    /// An assignment gives the value that it stores (JLS 15.26.1).
    Assign {
        target: Target,
        value: Boxed<Expression>,
    },
    /// A compound assignment, or a step by one: the steps begin with the target's value, and give
    /// what is stored (JLS 15.26.2, 15.14.2, 15.15.1).
    Update {
        target: Target,
        steps: Seq<Step>,
        /// Whether it gives the value from before.
        gives_old: bool,
    },
    /// A method outside of types.
    Call {
        link: Link,
        params: Seq<ResolvedType>,
        /// None is `void`.
        result: Option<ResolvedType>,
        arguments: Seq<Expression>,
    },
    /// A method of the superclass, on `this`.
    SuperCall {
        method: MethodName,
        arguments: Seq<Expression>,
    },
    LibraryCall {
        function: LibraryFunction,
        arguments: Seq<Expression>,
    },
    /// A new object (JLS 15.9).
    New {
        class: ClassName,
        params: Seq<ResolvedType>,
        arguments: Seq<Expression>,
    },
    /// `this(..)` or `super(..)` (JLS 8.8.7.1).
    Construct {
        class: ClassName,
        params: Seq<ResolvedType>,
        arguments: Seq<Expression>,
    },
    /// New arrays, of as many dimensions as there are sizes (JLS 15.10.1).
    NewArray {
        of: ResolvedType,
        sizes: Seq<Expression>,
    },
    /// A new array of these elements (JLS 10.6).
    ArrayOf {
        of: ResolvedType,
        values: Seq<Expression>,
    },
}

/// What is done with a value.
#[cycle(expression)]
#[derive(Drop)]
pub enum Step {
    /// A widening to this type of numbers (JLS 5.1.2).
    Widen(Numeric),
    /// A narrowing to this type of numbers (JLS 5.1.3).
    Narrow(Numeric),
    /// A string conversion (JLS 5.1.11).
    ToText,
    /// A widening to this reference type, which keeps the value (JLS 5.1.5).
    Upcast(ResolvedType),
    /// A cast that the value may fail (JLS 15.16).
    CastTo(ResolvedType),
    InstanceOf(ResolvedType),
    Unary(UnaryOperation),
    Binary {
        operation: BinaryOperation,
        right: Expression,
    },
    /// A field of a snippet's class.
    Field {
        class: Link,
        name: Name,
        of: ResolvedType,
    },
    /// An element of an array.
    Element {
        index: Expression,
    },
    /// The length of an array.
    Length,
    /// A method of an object, picked by the object's class (JLS 15.12.4.4).
    Call {
        method: MethodName,
        arguments: Seq<Expression>,
    },
    TextCall {
        method: TextMethod,
        arguments: Seq<Expression>,
    },
}

/// What an assignment stores to.
#[cycle(expression)]
#[derive(Drop)]
pub enum Target {
    Local {
        slot: u32,
        of: ResolvedType,
    },
    Variable {
        link: Link,
        of: ResolvedType,
    },
    Field {
        object: Boxed<Expression>,
        class: Link,
        name: Name,
        of: ResolvedType,
    },
    Element {
        array: Boxed<Expression>,
        index: Boxed<Expression>,
    },
}
