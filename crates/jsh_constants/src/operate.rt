ghost use Rattle.std.specs.Prelude.{◌≡◌, IfOk};
ghost use Rattle.jsh_constants.specs.Operators as spec;

use crate::number::{
    compares, distance_of, int_arithmetic, int_shift, long_arithmetic, long_shift,
};
use crate::reference::same_reference;
use jsh_text::{NoMemory, Value};
use jsh_typed::{
    Arithmetic, BinaryOperation, ComparedAs, Comparison, Logic, Promoted, Shift, UnaryOperation,
};

/// What an operator gives.
#[derive(Drop)]
pub enum Computed {
    Value(Value),
    /// A division by zero, which raises ArithmeticException (JLS 15.17.2).
    ZeroDivisor,
    /// An operand isn't of the kind that the operation wants.
    WrongKind,
}

/// An operator in front of an operand (JLS 15.15), or None for an operand of another kind than it
/// wants.
pub fn unary_value(operation: UnaryOperation, operand: &Value) -> Option<Value>
    ensures { result ≡ spec.unary_value operation operand.now }
{
    match (operation, operand) {
        (UnaryOperation::Plus(Promoted::Int), Value::Int(number)) => Some(Value::Int(*number)),
        (UnaryOperation::Plus(Promoted::Long), Value::Long(number)) => Some(Value::Long(*number)),
        (UnaryOperation::Minus(Promoted::Int), Value::Int(number)) => {
            Some(Value::Int(number.wrapping_neg()))
        }
        (UnaryOperation::Minus(Promoted::Long), Value::Long(number)) => {
            Some(Value::Long(number.wrapping_neg()))
        }
        (UnaryOperation::Complement(Promoted::Int), Value::Int(number)) => {
            Some(Value::Int(!*number))
        }
        (UnaryOperation::Complement(Promoted::Long), Value::Long(number)) => {
            Some(Value::Long(!*number))
        }
        (UnaryOperation::Not, Value::Boolean(truth)) => Some(Value::Boolean(!*truth)),
        _ => None,
    }
}

/// An operator between two operands that were converted to the types that it computes in (JLS 15.17 to
/// 15.24). `&&` and `||` take the second operand too, whether it counts or not.
pub fn binary_value(
    operation: BinaryOperation,
    left: &Value,
    right: &Value,
) -> Result<Computed, NoMemory>
    ensures { IfOk result (λ computed. computed ≡ spec.binary_value operation left.now right.now) }
{
    match operation {
        BinaryOperation::Join => join(left, right),
        BinaryOperation::Arithmetic { operator, operands } => {
            Ok(arithmetic_value(operator, operands, left, right))
        }
        BinaryOperation::Shift {
            operator,
            operand,
            distance,
        } => Ok(shift_value(operator, operand, distance, left, right)),
        BinaryOperation::Comparison { operator, operands } => {
            Ok(comparison_value(operator, operands, left, right))
        }
        BinaryOperation::Logic(operator) => Ok(logic_value(operator, left, right)),
        BinaryOperation::Equality { operands, negated } => {
            Ok(truth(negated, are_equal(operands, left, right)))
        }
        BinaryOperation::AndAlso => Ok(logic_value(Logic::And, left, right)),
        BinaryOperation::OrElse => Ok(logic_value(Logic::Or, left, right)),
    }
}

fn join(left: &Value, right: &Value) -> Result<Computed, NoMemory>
    ensures { IfOk result (λ computed. computed ≡ spec.join left.now right.now) }
{
    match (left, right) {
        (Value::Text(first), Value::Text(second)) => {
            let mut text = first.copy()?;
            text.append(second)?;
            Ok(Computed::Value(Value::Text(text)))
        }
        _ => Ok(Computed::WrongKind),
    }
}

fn arithmetic_value(
    operator: Arithmetic,
    operands: Promoted,
    left: &Value,
    right: &Value,
) -> Computed
    ensures { result ≡ spec.arithmetic_value operator operands left.now right.now }
{
    match (operands, left, right) {
        (Promoted::Int, Value::Int(left), Value::Int(right)) => {
            match int_arithmetic(operator, *left, *right) {
                Some(number) => Computed::Value(Value::Int(number)),
                None => Computed::ZeroDivisor,
            }
        }
        (Promoted::Long, Value::Long(left), Value::Long(right)) => {
            match long_arithmetic(operator, *left, *right) {
                Some(number) => Computed::Value(Value::Long(number)),
                None => Computed::ZeroDivisor,
            }
        }
        _ => Computed::WrongKind,
    }
}

fn shift_value(
    operator: Shift,
    operand: Promoted,
    distance: Promoted,
    left: &Value,
    right: &Value,
) -> Computed
    ensures { result ≡ spec.shift_value operator operand distance left.now right.now }
{
    match distance_of(distance, right) {
        Some(distance) => shifted(operator, operand, left, distance),
        None => Computed::WrongKind,
    }
}

fn shifted(operator: Shift, operand: Promoted, value: &Value, distance: u32) -> Computed
    ensures { result ≡ spec.shifted operator operand value.now distance }
{
    match (operand, value) {
        (Promoted::Int, Value::Int(number)) => {
            Computed::Value(Value::Int(int_shift(operator, *number, distance)))
        }
        (Promoted::Long, Value::Long(number)) => {
            Computed::Value(Value::Long(long_shift(operator, *number, distance)))
        }
        _ => Computed::WrongKind,
    }
}

fn comparison_value(
    operator: Comparison,
    operands: Promoted,
    left: &Value,
    right: &Value,
) -> Computed
    ensures { result ≡ spec.comparison_value operator operands left.now right.now }
{
    match (operands, left, right) {
        (Promoted::Int, Value::Int(left), Value::Int(right)) => {
            Computed::Value(Value::Boolean(compares(operator, *left as i64, *right as i64)))
        }
        (Promoted::Long, Value::Long(left), Value::Long(right)) => {
            Computed::Value(Value::Boolean(compares(operator, *left, *right)))
        }
        _ => Computed::WrongKind,
    }
}

fn logic_value(operator: Logic, left: &Value, right: &Value) -> Computed
    ensures { result ≡ spec.logic_value operator left.now right.now }
{
    match (left, right) {
        (Value::Boolean(left), Value::Boolean(right)) => {
            Computed::Value(Value::Boolean(logic(operator, *left, *right)))
        }
        _ => Computed::WrongKind,
    }
}

fn logic(operator: Logic, left: bool, right: bool) -> bool
    ensures { result ≡ spec.logic operator left right }
{
    match operator {
        Logic::And => left && right,
        Logic::Or => left || right,
        Logic::Xor => { if left { !right } else { right } }
    }
}

fn are_equal(operands: ComparedAs, left: &Value, right: &Value) -> Option<bool>
    ensures { result ≡ spec.are_equal operands left.now right.now }
{
    match (operands, left, right) {
        (ComparedAs::Numbers(Promoted::Int), Value::Int(left), Value::Int(right)) => {
            Some(*left == *right)
        }
        (ComparedAs::Numbers(Promoted::Long), Value::Long(left), Value::Long(right)) => {
            Some(*left == *right)
        }
        (ComparedAs::Booleans, Value::Boolean(left), Value::Boolean(right)) => {
            Some(!logic(Logic::Xor, *left, *right))
        }
        (ComparedAs::References, left, right) => same_reference(left, right),
        _ => None,
    }
}

fn truth(negated: bool, equal: Option<bool>) -> Computed
    ensures { result ≡ spec.truth negated equal }
{
    match equal {
        Some(equal) => Computed::Value(Value::Boolean(logic(Logic::Xor, negated, equal))),
        None => Computed::WrongKind,
    }
}
