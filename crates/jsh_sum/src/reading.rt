//! Which trees are sums.

ghost use Rattle.std.specs.Prelude.{◌≡◌, ◌++◌, fold, option_map, IfOk, OnOk};
ghost use Rattle.std.specs.Option.{option_to_list};
ghost use Rattle.jsh_tree.specs.declared.expression.Expr.{out-Expr};
ghost use Rattle.jsh_sum.specs.Reading as spec;

use crate::sums::{AdditiveOperator, Part, Sum};
use jsh_tree::{BinaryOperator, Expr, Literal, Operation, Seq, Tree, UnaryOperator};
use std::alloc::{AllocError, Global};

/// A sum as it is written.
#[derive(Debug, Drop)]
pub struct Reading {
    pub sum: Sum,
    /// The places of the literals that stand only behind a minus, and don't, in order.
    pub too_big: Seq<u32>,
}

/// An operand of a sum.
#[derive(Clone, Copy)]
struct Operand {
    value: i32,
    /// The place of its literal, where that is too big.
    too_big: Option<u32>,
}

/// The sum that a tree is, or `None` where it is none.
#[tactic(auto, unfolding(crate::specs::Reading::sum_of))]
pub fn sum_of(alloc: Global, tree: &Tree) -> Result<Option<Reading>, AllocError>
    ensures { IfOk result (λ found. found ≡ spec.sum_of tree.now) }
{
    let Tree::Expression(expr) = tree else {
        return Ok(None);
    };
    match expr {
        Expr::Binary { first, rest } => read_run(alloc, first.get(), rest.as_slice()),
        _ => read_run(alloc, expr, &[]),
    }
}

/// The sum of an operand and what follows it, if that is one.
fn read_run(alloc: Global, first: &Expr, rest: &[Operation]) -> Result<Option<Reading>, AllocError>
    ensures { IfOk result (λ found. found ≡ fold spec.next (option_map spec.begun (spec.operand_of first.now)) rest.now) }
{
    let Some(first) = operand_of(first) else {
        return Ok(None);
    };
    let mut parts = Vec::new(alloc);
    let mut too_big = Vec::new(alloc);
    note(&mut too_big, first)?;
    for operation in rest {
        let Some((operator, right)) = part_of(operation) else {
            return Ok(None);
        };
        parts.push(Part {
            operator,
            operand: right.value,
        })?;
        note(&mut too_big, right)?;
    }
    Ok(Some(Reading {
        sum: Sum {
            first: first.value,
            rest: Seq::from_vec(parts),
        },
        too_big: Seq::from_vec(too_big),
    }))
}

/// Adds the place of an operand's literal where that is too big.
fn note(places: &mut Vec<u32>, operand: Operand) -> Result<(), AllocError>
    ensures { OnOk result (places.new.items ≡ places.old.items ++ option_to_list operand.too_big) }
{
    if let Some(place) = operand.too_big {
        places.push(place)?;
    }
    Ok(())
}

/// An operator and its right operand, where an operation is `+` or `-` with an operand.
fn part_of(operation: &Operation) -> Option<(AdditiveOperator, Operand)>
    ensures { result ≡ spec.part_of operation.now }
{
    match operation {
        Operation::Operator {
            operator,
            operand: right,
        } => {
            let operator = additive_operator(*operator)?;
            let right = operand_of(right)?;
            Some((operator, right))
        }
        Operation::InstanceOf(_) => None,
    }
}

fn additive_operator(operator: BinaryOperator) -> Option<AdditiveOperator>
    ensures { result ≡ spec.additive_operator operator }
{
    match operator {
        BinaryOperator::Add => Some(AdditiveOperator::Plus),
        BinaryOperator::Subtract => Some(AdditiveOperator::Minus),
        _ => None,
    }
}

/// An `int` literal, alone or right behind a minus.
fn operand_of(expr: &Expr) -> Option<Operand>
    ensures { result ≡ spec.operand_of expr.now }
{
    match expr {
        Expr::Literal { span, literal } => literal_alone(span.from, literal),
        Expr::Unary {
            operator: UnaryOperator::Minus,
            operand,
            ..
        } => behind_minus(operand.get()),
        _ => None,
    }
}

/// An `int` literal that stands alone at a place.
fn literal_alone(place: u32, literal: &Literal) -> Option<Operand>
    ensures { result ≡ spec.literal_alone place literal.now }
{
    match literal {
        Literal::Int { value, needs_minus } => Some(Operand {
            value: *value,
            too_big: if *needs_minus { Some(place) } else { None },
        }),
        _ => None,
    }
}

/// An `int` literal that stands right behind a minus.
fn behind_minus(expr: &Expr) -> Option<Operand>
    ensures { result ≡ spec.behind_minus (out-Expr expr.now) }
{
    match expr {
        Expr::Literal {
            literal: Literal::Int { value, .. },
            ..
        } => Some(Operand {
            value: value.wrapping_neg(),
            too_big: None,
        }),
        _ => None,
    }
}
