ghost use Rattle.std.specs.Prelude.{◌≡◌, IfOk};
ghost use Rattle.jsh_typed.specs.Operations as spec;

use crate::conversion::{ComparedAs, common_number, compared};
use crate::hierarchy::HierarchyEntry;
use crate::types::{Element, Promoted, ResolvedType};
use jsh_tree::{BinaryOperator, UnaryOperator};
use std::alloc::{AllocError, Global};

/// The operators whose result has the operands' type (JLS 15.17, 15.18, 15.22.1).
#[derive(Clone, Copy, Debug, PartialEq, Eq)]
pub enum Arithmetic {
    Add,
    Subtract,
    Multiply,
    Divide,
    Remainder,
    And,
    Or,
    Xor,
}

/// JLS 15.19
#[derive(Clone, Copy, Debug, PartialEq, Eq)]
pub enum Shift {
    Left,
    Right,
    UnsignedRight,
}

/// JLS 15.20.1
#[derive(Clone, Copy, Debug, PartialEq, Eq)]
pub enum Comparison {
    Less,
    Greater,
    LessOrEqual,
    GreaterOrEqual,
}

/// The operators on two booleans that evaluate both (JLS 15.22.2).
#[derive(Clone, Copy, Debug, PartialEq, Eq)]
pub enum Logic {
    And,
    Or,
    Xor,
}

/// What an operator in front of an operand does, by the type that it is promoted to (JLS 15.15).
#[derive(Clone, Copy, Debug, PartialEq, Eq)]
pub enum UnaryOperation {
    Plus(Promoted),
    Minus(Promoted),
    Complement(Promoted),
    Not,
}

/// What an operator between two operands does, by the types that they are promoted to.
#[derive(Clone, Copy, Debug, PartialEq, Eq)]
pub enum BinaryOperation {
    /// Of two texts (JLS 15.18.1).
    Join,
    Arithmetic {
        operator: Arithmetic,
        operands: Promoted,
    },
    Shift {
        operator: Shift,
        operand: Promoted,
        distance: Promoted,
    },
    Comparison {
        operator: Comparison,
        operands: Promoted,
    },
    Logic(Logic),
    Equality {
        operands: ComparedAs,
        negated: bool,
    },
    /// `&&` (JLS 15.23)
    AndAlso,
    /// `||` (JLS 15.24)
    OrElse,
}

impl Promoted {
    pub fn element(self) -> Element
        ensures { result ≡ spec.element_of self }
    {
        match self {
            Promoted::Int => Element::Int,
            Promoted::Long => Element::Long,
        }
    }
}

impl UnaryOperation {
    /// The type of its operand and of its value.
    pub fn result(self) -> Element
        ensures { result ≡ spec.unary_result self }
    {
        match self {
            UnaryOperation::Plus(operand)
            | UnaryOperation::Minus(operand)
            | UnaryOperation::Complement(operand) => operand.element(),
            UnaryOperation::Not => Element::Boolean,
        }
    }
}

impl BinaryOperation {
    /// The type of its value.
    pub fn result(self) -> Element
        ensures { result ≡ spec.binary_result self }
    {
        match self {
            BinaryOperation::Join => Element::Text,
            BinaryOperation::Arithmetic { operands, .. } => operands.element(),
            BinaryOperation::Shift { operand, .. } => operand.element(),
            _ => Element::Boolean,
        }
    }
}

/// What an operator in front of an operand of a type does, or None where it doesn't take it. `++` and
/// `--` are no such operators: they take what has a type of numbers.
pub fn unary_operation(operator: UnaryOperator, operand: &ResolvedType) -> Option<UnaryOperation>
    ensures { result ≡ spec.unary_operation operator operand.now }
{
    match operator {
        UnaryOperator::Plus => Some(UnaryOperation::Plus(operand.numeric()?.promoted())),
        UnaryOperator::Minus => Some(UnaryOperation::Minus(operand.numeric()?.promoted())),
        UnaryOperator::Complement => Some(UnaryOperation::Complement(
            operand.numeric()?.promoted(),
        )),
        UnaryOperator::Not => {
            if operand.is_boolean() {
                Some(UnaryOperation::Not)
            } else {
                None
            }
        }
        UnaryOperator::Increment | UnaryOperator::Decrement => None,
    }
}

/// What an operator between operands of two types does, or None where it doesn't take them.
pub fn binary_operation(
    alloc: Global,
    hierarchy: &[HierarchyEntry],
    operator: BinaryOperator,
    left: &ResolvedType,
    right: &ResolvedType,
) -> Result<Option<BinaryOperation>, AllocError>
    ensures { IfOk result (λ found. found ≡ spec.binary_operation hierarchy.now operator left.now right.now) }
{
    match operator {
        BinaryOperator::Equal => equality(alloc, hierarchy, false, left, right),
        BinaryOperator::NotEqual => equality(alloc, hierarchy, true, left, right),
        _ => Ok(plain_operation(operator, left, right)),
    }
}

fn equality(
    alloc: Global,
    hierarchy: &[HierarchyEntry],
    negated: bool,
    left: &ResolvedType,
    right: &ResolvedType,
) -> Result<Option<BinaryOperation>, AllocError>
    ensures { IfOk result (λ found. found ≡ spec.equality hierarchy.now negated left.now right.now) }
{
    match compared(alloc, hierarchy, left, right)? {
        Some(operands) => Ok(Some(BinaryOperation::Equality { operands, negated })),
        None => Ok(None),
    }
}

/// The same for every operator but `==` and `!=`, which need a hierarchy.
pub fn plain_operation(
    operator: BinaryOperator,
    left: &ResolvedType,
    right: &ResolvedType,
) -> Option<BinaryOperation>
    ensures { result ≡ spec.plain_operation operator left.now right.now }
{
    match operator {
        BinaryOperator::OrElse => on_booleans(BinaryOperation::OrElse, left, right),
        BinaryOperator::AndAlso => on_booleans(BinaryOperation::AndAlso, left, right),
        BinaryOperator::Or => bitwise(Logic::Or, Arithmetic::Or, left, right),
        BinaryOperator::Xor => bitwise(Logic::Xor, Arithmetic::Xor, left, right),
        BinaryOperator::And => bitwise(Logic::And, Arithmetic::And, left, right),
        BinaryOperator::Equal | BinaryOperator::NotEqual => None,
        BinaryOperator::Less => comparison_of(Comparison::Less, left, right),
        BinaryOperator::Greater => comparison_of(Comparison::Greater, left, right),
        BinaryOperator::LessOrEqual => comparison_of(Comparison::LessOrEqual, left, right),
        BinaryOperator::GreaterOrEqual => comparison_of(Comparison::GreaterOrEqual, left, right),
        BinaryOperator::ShiftLeft => shift_of(Shift::Left, left, right),
        BinaryOperator::ShiftRight => shift_of(Shift::Right, left, right),
        BinaryOperator::UnsignedShiftRight => shift_of(Shift::UnsignedRight, left, right),
        BinaryOperator::Add => addition(left, right),
        BinaryOperator::Subtract => arithmetic_of(Arithmetic::Subtract, left, right),
        BinaryOperator::Multiply => arithmetic_of(Arithmetic::Multiply, left, right),
        BinaryOperator::Divide => arithmetic_of(Arithmetic::Divide, left, right),
        BinaryOperator::Remainder => arithmetic_of(Arithmetic::Remainder, left, right),
    }
}

fn on_booleans(
    operation: BinaryOperation,
    left: &ResolvedType,
    right: &ResolvedType,
) -> Option<BinaryOperation>
    ensures { result ≡ spec.on_booleans operation left.now right.now }
{
    if left.is_boolean() && right.is_boolean() {
        Some(operation)
    } else {
        None
    }
}

fn bitwise(
    logic: Logic,
    operator: Arithmetic,
    left: &ResolvedType,
    right: &ResolvedType,
) -> Option<BinaryOperation>
    ensures { result ≡ spec.bitwise logic operator left.now right.now }
{
    if left.is_boolean() && right.is_boolean() {
        Some(BinaryOperation::Logic(logic))
    } else {
        arithmetic_of(operator, left, right)
    }
}

fn arithmetic_of(
    operator: Arithmetic,
    left: &ResolvedType,
    right: &ResolvedType,
) -> Option<BinaryOperation>
    ensures { result ≡ spec.arithmetic_of operator left.now right.now }
{
    let operands = common_number(left, right)?;
    Some(BinaryOperation::Arithmetic { operator, operands })
}

fn comparison_of(
    operator: Comparison,
    left: &ResolvedType,
    right: &ResolvedType,
) -> Option<BinaryOperation>
    ensures { result ≡ spec.comparison_of operator left.now right.now }
{
    let operands = common_number(left, right)?;
    Some(BinaryOperation::Comparison { operator, operands })
}

// Each operand is promoted by itself (JLS 15.19).
fn shift_of(operator: Shift, left: &ResolvedType, right: &ResolvedType) -> Option<BinaryOperation>
    ensures { result ≡ spec.shift_of operator left.now right.now }
{
    match (left.numeric(), right.numeric()) {
        (Some(left), Some(right)) => Some(BinaryOperation::Shift {
            operator,
            operand: left.promoted(),
            distance: right.promoted(),
        }),
        _ => None,
    }
}

fn addition(left: &ResolvedType, right: &ResolvedType) -> Option<BinaryOperation>
    ensures { result ≡ spec.addition left.now right.now }
{
    if left.is_text() || right.is_text() {
        Some(BinaryOperation::Join)
    } else {
        arithmetic_of(Arithmetic::Add, left, right)
    }
}
