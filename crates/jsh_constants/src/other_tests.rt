//! Operators on one constant, casts, choices and literals, from the text of the standard of the language.

use crate::tests::Plain::{Boolean, Char, Int, Long, Null, Text};
use crate::tests::{Plain, is, value};
use crate::{
    constant_binary, constant_cast, constant_choice, constant_literal, constant_unary, converted,
    text_of,
};
use jsh_text::{KindName, UText, Value};
use jsh_tree::BinaryOperator::{Add, Multiply, ShiftLeft, Subtract, UnsignedShiftRight};
use jsh_tree::UnaryOperator::{Complement, Increment, Minus, Not, Plus};
use jsh_tree::{BinaryOperator, Literal, Seq, UnaryOperator};
use jsh_typed::{Element, Numeric, ResolvedType};
use std::alloc::Global;
use std::test::Fail;

type Unary = (UnaryOperator, Plain, Option<Plain>);

/// JLS 15.15
const UNARY: [Unary; 16] = [
    (Plus, Char(97), Some(Int(97))),
    (Plus, Long(1), Some(Long(1))),
    (Minus, Char(1), Some(Int(-1))),
    (Minus, Int(i32::MIN), Some(Int(i32::MIN))),
    (Minus, Long(i64::MIN), Some(Long(i64::MIN))),
    (Complement, Char(0), Some(Int(-1))),
    (Complement, Int(5), Some(Int(-6))),
    (Complement, Long(0), Some(Long(-1))),
    (Not, Boolean(true), Some(Boolean(false))),
    (Not, Boolean(false), Some(Boolean(true))),
    (Not, Int(0), None),
    (Minus, Boolean(true), None),
    (Complement, Boolean(true), None),
    (Plus, Text("1"), None),
    (Minus, Null, None),
    (Increment, Int(1), None),
];

type Cast = (KindName, Plain, Option<Plain>);

/// JLS 5.1.2, 5.1.3, 5.5
const CASTS: [Cast; 20] = [
    (KindName::Char, Int(98), Some(Char(98))),
    (KindName::Char, Int(65537), Some(Char(1))),
    (KindName::Char, Int(-1), Some(Char(65535))),
    (KindName::Char, Long(-1), Some(Char(65535))),
    (KindName::Int, Long(4294967297), Some(Int(1))),
    (KindName::Int, Long(2147483648), Some(Int(i32::MIN))),
    // from `long` by `int` to `char`
    (
        KindName::Int,
        Long(0x123456789abcdef0),
        Some(Int(-1698898192)),
    ),
    (KindName::Char, Int(-1698898192), Some(Char(0xdef0))),
    (KindName::Char, Long(0x123456789abcdef0), Some(Char(0xdef0))),
    (KindName::Long, Int(-1), Some(Long(-1))),
    (KindName::Long, Char(65535), Some(Long(65535))),
    (KindName::Int, Char(65535), Some(Int(65535))),
    (KindName::Boolean, Boolean(true), Some(Boolean(true))),
    (KindName::Text, Text("a"), Some(Text("a"))),
    (KindName::Int, Boolean(true), None),
    (KindName::Boolean, Int(1), None),
    (KindName::Text, Int(1), None),
    (KindName::Int, Text("1"), None),
    (KindName::Int, Null, None),
    (KindName::Text, Null, None),
];

/// A variable's value, the operator and the operand of a compound assignment, and the value then.
type Compound = (Plain, BinaryOperator, Plain, Plain);

/// JLS 15.26.2
const COMPOUNDS: [Compound; 7] = [
    (Char(97), Add, Int(1), Char(98)),
    (Char(65535), Add, Int(1), Char(0)),
    (Char(0), Subtract, Int(1), Char(65535)),
    (Char(1), ShiftLeft, Int(16), Char(0)),
    (Int(1), Add, Long(4294967296), Int(1)),
    (Int(i32::MAX), Multiply, Long(2), Int(-2)),
    (Int(-1), UnsignedShiftRight, Long(33), Int(i32::MAX)),
];

type Choice = (Plain, Plain, Plain, Option<Plain>);

/// JLS 15.25
const CHOICES: [Choice; 17] = [
    (Boolean(true), Char(97), Int(98), Some(Char(97))),
    (Boolean(false), Char(97), Int(98), Some(Char(98))),
    (Boolean(true), Int(98), Char(97), Some(Char(98))),
    (Boolean(false), Char(97), Int(65535), Some(Char(65535))),
    (Boolean(true), Char(97), Int(65536), Some(Int(97))),
    (Boolean(false), Char(97), Int(65536), Some(Int(65536))),
    (Boolean(false), Int(-1), Char(97), Some(Int(97))),
    (Boolean(true), Char(97), Long(1), Some(Long(97))),
    (Boolean(false), Char(97), Long(1), Some(Long(1))),
    (Boolean(true), Int(1), Long(2), Some(Long(1))),
    (
        Boolean(false),
        Boolean(true),
        Boolean(false),
        Some(Boolean(false)),
    ),
    (Boolean(true), Text("a"), Text("b"), Some(Text("a"))),
    // a type of references that isn't a text's, and `null`
    (Boolean(true), Boolean(true), Char(97), None),
    (Boolean(true), Text("a"), Int(1), None),
    (Boolean(true), Text("a"), Null, None),
    // no condition
    (Int(1), Int(2), Int(3), None),
    (Null, Int(2), Int(3), None),
];

/// Literals, each of which has the value that it names, but for `null` (JLS 15.8.1, 15.28).
const LITERALS: [Plain; 8] = [
    Int(17),
    Int(i32::MIN),
    Long(4294967296),
    Long(i64::MIN),
    Char(65535),
    Boolean(true),
    Text("a\u{e9}"),
    Text(""),
];

fn unary_holds(alloc: Global, row: Unary) -> Result<bool, Fail> {
    let (operator, operand, expected) = row;
    let operand = value(alloc, operand)?;
    let found = constant_unary(operator, &operand);
    is(alloc, &found, expected)
}

#[test]
fn operators_stand_in_front(rt: HostRuntime) -> Result<(), Fail> {
    for row in &UNARY {
        assert!(rt; unary_holds(rt.alloc(), *row)?, "{row:?}");
    }
    Ok(())
}

fn type_of(kind: KindName) -> ResolvedType {
    match kind {
        KindName::Int => of(Element::Int),
        KindName::Long => of(Element::Long),
        KindName::Char => of(Element::Char),
        KindName::Boolean => of(Element::Boolean),
        KindName::Text => of(Element::Text),
        KindName::Ref | KindName::Null => ResolvedType::Null,
    }
}

fn of(element: Element) -> ResolvedType {
    ResolvedType::Of { element, dims: 0 }
}

fn cast_holds(alloc: Global, row: Cast) -> Result<bool, Fail> {
    let (target, operand, expected) = row;
    let operand = value(alloc, operand)?;
    let found = constant_cast(&type_of(target), &operand)?;
    is(alloc, &found, expected)
}

#[test]
fn constants_are_cast(rt: HostRuntime) -> Result<(), Fail> {
    for row in &CASTS {
        assert!(rt; cast_holds(rt.alloc(), *row)?, "{row:?}");
    }
    Ok(())
}

fn type_of_variable(variable: Plain) -> Numeric {
    match variable {
        Char(_) => Numeric::Char,
        Long(_) => Numeric::Long,
        _ => Numeric::Int,
    }
}

/// The value of the operator, as a number of the variable's type.
fn assigned(alloc: Global, row: Compound) -> Result<Option<Value>, Fail> {
    let (variable, operator, operand, _) = row;
    let left = value(alloc, variable)?;
    let right = value(alloc, operand)?;
    match constant_binary(alloc, operator, &left, &right)? {
        Some(computed) => Ok(converted(&computed, type_of_variable(variable))),
        None => Ok(None),
    }
}

fn compound_holds(alloc: Global, row: Compound) -> Result<bool, Fail> {
    let found = assigned(alloc, row)?;
    is(alloc, &found, Some(row.3))
}

#[test]
fn compound_assignments_cast_back(rt: HostRuntime) -> Result<(), Fail> {
    for row in &COMPOUNDS {
        assert!(rt; compound_holds(rt.alloc(), *row)?, "{row:?}");
    }
    Ok(())
}

fn choice_holds(alloc: Global, row: Choice) -> Result<bool, Fail> {
    let (condition, yes, no, expected) = row;
    let condition = value(alloc, condition)?;
    let yes = value(alloc, yes)?;
    let no = value(alloc, no)?;
    let found = constant_choice(alloc, &condition, &yes, &no)?;
    is(alloc, &found, expected)
}

#[test]
fn branches_are_chosen(rt: HostRuntime) -> Result<(), Fail> {
    for row in &CHOICES {
        assert!(rt; choice_holds(rt.alloc(), *row)?, "{row:?}");
    }
    Ok(())
}

fn literal(alloc: Global, plain: Plain) -> Result<Literal, Fail> {
    match plain {
        Int(value) => Ok(Literal::Int {
            value,
            needs_minus: value == i32::MIN,
        }),
        Long(value) => Ok(Literal::Long {
            value,
            needs_minus: value == i64::MIN,
        }),
        Char(unit) => Ok(Literal::Char(unit)),
        Boolean(truth) => Ok(Literal::Boolean(truth)),
        Text(text) => literal_text(alloc, text),
        Null => Ok(Literal::Null),
    }
}

fn literal_text(alloc: Global, text: &str) -> Result<Literal, Fail> {
    let text = UText::from_str(alloc, text)?;
    Ok(Literal::Text(Seq::from_slice(alloc, text.as_slice())?))
}

fn literal_holds(alloc: Global, plain: Plain) -> Result<bool, Fail> {
    let literal = literal(alloc, plain)?;
    let found = constant_literal(alloc, &literal)?;
    is(alloc, &found, Some(plain))
}

#[test]
fn literals_have_values(rt: HostRuntime) -> Result<(), Fail> {
    for plain in &LITERALS {
        assert!(rt; literal_holds(rt.alloc(), *plain)?, "{plain:?}");
    }
    assert!(rt; constant_literal(rt.alloc(), &Literal::Null)?.is_none());
    Ok(())
}

fn text_is(alloc: Global, plain: Plain, expected: &str) -> Result<bool, Fail> {
    let value = value(alloc, plain)?;
    let expected = UText::from_str(alloc, expected)?;
    let found = text_of(alloc, &value)?;
    Ok(found.is_some_and(|text| text == expected))
}

#[test]
fn null_has_a_text_and_an_object_none(rt: HostRuntime) -> Result<(), Fail> {
    assert!(rt; text_is(rt.alloc(), Null, "null")?);
    assert!(rt; text_of(rt.alloc(), &Value::Ref(1))?.is_none());
    Ok(())
}
