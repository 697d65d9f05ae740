ghost use Rattle.std.specs.Prelude.{◌≡◌, IfOk};
ghost use Rattle.jsh_constants.specs.Constants as spec;

use crate::number::converted;
use crate::operate::{Computed, binary_value, unary_value};
use crate::reference::text_of;
use jsh_text::{NoMemory, UText, Value};
use jsh_tree::{BinaryOperator, Literal, UnaryOperator};
use jsh_typed::{
    BinaryOperation, BranchType, ComparedAs, Element, Numeric, Promoted, ResolvedType,
    UnaryOperation, binary_operation, branches, unary_operation,
};
use std::alloc::Global;

/// The type of a constant, or None for `null` and for an object, which are none.
pub fn type_of_constant(value: &Value) -> Option<ResolvedType>
    ensures { result ≡ spec.type_of_constant value.now }
{
    match value {
        Value::Int(_) => Some(plain(Element::Int)),
        Value::Long(_) => Some(plain(Element::Long)),
        Value::Char(_) => Some(plain(Element::Char)),
        Value::Boolean(_) => Some(plain(Element::Boolean)),
        Value::Text(_) => Some(plain(Element::Text)),
        Value::Ref(_) | Value::Null => None,
    }
}

fn plain(element: Element) -> ResolvedType
    ensures { result ≡ spec.plain element }
{
    ResolvedType::Of { element, dims: 0 }
}

/// The value of a literal. `null` is no constant. A literal that stands only behind a minus has its
/// type's least value, which is its own negation.
pub fn constant_literal(alloc: Global, literal: &Literal) -> Result<Option<Value>, NoMemory>
    ensures { IfOk result (λ constant. constant ≡ spec.constant_literal literal.now) }
{
    match literal {
        Literal::Int { value, .. } => Ok(Some(Value::Int(*value))),
        Literal::Long { value, .. } => Ok(Some(Value::Long(*value))),
        Literal::Char(unit) => Ok(Some(Value::Char(*unit))),
        Literal::Text(units) => {
            let text = UText::from_units(alloc, units.as_slice())?;
            Ok(Some(Value::Text(text)))
        }
        Literal::Boolean(truth) => Ok(Some(Value::Boolean(*truth))),
        Literal::Null => Ok(None),
    }
}

/// The value of an operator in front of a constant, or None where that is no constant expression.
#[tactic(auto, unfolding(crate::specs::Constants::constant_unary))]
pub fn constant_unary(operator: UnaryOperator, operand: &Value) -> Option<Value>
    ensures { result ≡ spec.constant_unary operator operand.now }
{
    let of = type_of_constant(operand)?;
    let operation = unary_operation(operator, &of)?;
    promoted_unary(operation, operand)
}

fn promoted_unary(operation: UnaryOperation, operand: &Value) -> Option<Value>
    ensures { result ≡ spec.promoted_unary operation operand.now }
{
    match operation {
        UnaryOperation::Not => unary_value(operation, operand),
        UnaryOperation::Plus(number)
        | UnaryOperation::Minus(number)
        | UnaryOperation::Complement(number) => {
            let operand = converted(operand, numeric(number))?;
            unary_value(operation, &operand)
        }
    }
}

fn numeric(promoted: Promoted) -> Numeric
    ensures { result ≡ spec.numeric promoted }
{
    match promoted {
        Promoted::Int => Numeric::Int,
        Promoted::Long => Numeric::Long,
    }
}

/// The value of an operator between constants, or None where that is no constant expression: the
/// operator doesn't take them, or the divisor is zero.
#[tactic(auto, unfolding(crate::specs::Constants::constant_binary))]
pub fn constant_binary(
    alloc: Global,
    operator: BinaryOperator,
    left: &Value,
    right: &Value,
) -> Result<Option<Value>, NoMemory>
    ensures { IfOk result (λ constant. constant ≡ spec.constant_binary operator left.now right.now) }
{
    let Some(left_type) = type_of_constant(left) else {
        return Ok(None);
    };
    let Some(right_type) = type_of_constant(right) else {
        return Ok(None);
    };
    match binary_operation(alloc, &[], operator, &left_type, &right_type)? {
        Some(operation) => converted_binary(alloc, operation, left, right),
        None => Ok(None),
    }
}

#[tactic(auto, unfolding(crate::specs::Constants::converted_binary))]
fn converted_binary(
    alloc: Global,
    operation: BinaryOperation,
    left: &Value,
    right: &Value,
) -> Result<Option<Value>, NoMemory>
    ensures { IfOk result (λ constant. constant ≡ spec.converted_binary operation left.now right.now) }
{
    let Some(left) = operand_of(alloc, operation, left_number(operation), left)? else {
        return Ok(None);
    };
    let Some(right) = operand_of(alloc, operation, right_number(operation), right)? else {
        return Ok(None);
    };
    match binary_value(operation, &left, &right)? {
        Computed::Value(value) => Ok(Some(value)),
        _ => Ok(None),
    }
}

// The type of numbers that the operand is converted to, if it is.
fn left_number(operation: BinaryOperation) -> Option<Promoted>
    ensures { result ≡ spec.left_number operation }
{
    match operation {
        BinaryOperation::Arithmetic { operands, .. }
        | BinaryOperation::Comparison { operands, .. } => Some(operands),
        BinaryOperation::Shift { operand, .. } => Some(operand),
        BinaryOperation::Equality {
            operands: ComparedAs::Numbers(number),
            ..
        } => Some(number),
        _ => None,
    }
}

fn right_number(operation: BinaryOperation) -> Option<Promoted>
    ensures { result ≡ spec.right_number operation }
{
    match operation {
        BinaryOperation::Shift { distance, .. } => Some(distance),
        _ => left_number(operation),
    }
}

fn operand_of(
    alloc: Global,
    operation: BinaryOperation,
    number: Option<Promoted>,
    value: &Value,
) -> Result<Option<Value>, NoMemory>
    ensures { IfOk result (λ operand. operand ≡ spec.operand_of operation number value.now) }
{
    match (number, operation) {
        (Some(number), _) => Ok(converted(value, numeric(number))),
        (None, BinaryOperation::Join) => match text_of(alloc, value)? {
            Some(text) => Ok(Some(Value::Text(text))),
            None => Ok(None),
        },
        (None, _) => Ok(Some(value.copy()?)),
    }
}

/// The value of `?:` over constants, or None where they don't go together.
#[tactic(auto, unfolding(crate::specs::Constants::constant_choice))]
pub fn constant_choice(
    alloc: Global,
    condition: &Value,
    yes: &Value,
    no: &Value,
) -> Result<Option<Value>, NoMemory>
    ensures { IfOk result (λ constant. constant ≡ spec.constant_choice condition.now yes.now no.now) }
{
    let Value::Boolean(holds) = condition else {
        return Ok(None);
    };
    let Some(yes_type) = type_of_constant(yes) else {
        return Ok(None);
    };
    let Some(no_type) = type_of_constant(no) else {
        return Ok(None);
    };
    let found = branches_of(alloc, &yes_type, yes, &no_type, no)?;
    if *holds {
        of_branch(found, &yes_type, &no_type, yes)
    } else {
        of_branch(found, &yes_type, &no_type, no)
    }
}

#[tactic(auto, unfolding(crate::specs::Constants::branches_of))]
fn branches_of(
    alloc: Global,
    yes_type: &ResolvedType,
    yes: &Value,
    no_type: &ResolvedType,
    no: &Value,
) -> Result<Option<BranchType>, NoMemory>
    ensures { IfOk result (λ found. found ≡ spec.branches_of yes_type.now yes.now no_type.now no.now) }
{
    let yes = Some(yes.copy()?);
    let no = Some(no.copy()?);
    Ok(branches(alloc, &[], yes_type, &yes, no_type, &no)?)
}

#[tactic(auto, unfolding(crate::specs::Constants::of_branch))]
fn of_branch(
    found: Option<BranchType>,
    yes_type: &ResolvedType,
    no_type: &ResolvedType,
    chosen: &Value,
) -> Result<Option<Value>, NoMemory>
    ensures { IfOk result (λ constant. constant ≡ spec.of_branch found yes_type.now no_type.now chosen.now) }
{
    match found {
        Some(BranchType::First) => of_type(yes_type, chosen),
        Some(BranchType::Second) => of_type(no_type, chosen),
        Some(BranchType::Numbers(number)) => Ok(converted(chosen, numeric(number))),
        None => Ok(None),
    }
}

/// The value of a cast of a constant, or None where that is no constant expression.
#[tactic(auto, unfolding(crate::specs::Constants::constant_cast))]
pub fn constant_cast(target: &ResolvedType, operand: &Value) -> Result<Option<Value>, NoMemory>
    ensures { IfOk result (λ constant. constant ≡ spec.constant_cast target.now operand.now) }
{
    let Some(of) = type_of_constant(operand) else {
        return Ok(None);
    };
    if of.is(target) || target.numeric().is_some() {
        of_type(target, operand)
    } else {
        Ok(None)
    }
}

// A number as a number of the type, and any other value as it is.
fn of_type(target: &ResolvedType, value: &Value) -> Result<Option<Value>, NoMemory>
    ensures { IfOk result (λ constant. constant ≡ spec.of_type target.now value.now) }
{
    match target.numeric() {
        Some(number) => Ok(converted(value, number)),
        None => Ok(Some(value.copy()?)),
    }
}
