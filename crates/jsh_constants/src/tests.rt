//! What the operators of the language give for constants, from the text and the examples of its standard.

use crate::constant_binary;
use Plain::{Boolean, Char, Int, Long, Null, Text};
use jsh_text::{UText, Value};
use jsh_tree::BinaryOperator;
use jsh_tree::BinaryOperator::{
    Add, And, AndAlso, Divide, Equal, Greater, GreaterOrEqual, Less, LessOrEqual, Multiply,
    NotEqual, Or, OrElse, Remainder, ShiftLeft, ShiftRight, Subtract, UnsignedShiftRight, Xor,
};
use std::alloc::Global;
use std::process::Abort;
use std::test::Fail;

/// A value, as the tables have it.
#[derive(Clone, Copy, Debug)]
pub enum Plain {
    Int(i32),
    Long(i64),
    Char(u16),
    Boolean(bool),
    Text(&'static str),
    Null,
}

/// Two operands with an operator between them, and their value.
type Binary = (Plain, BinaryOperator, Plain, Option<Plain>);

const ARITHMETIC: [Binary; 39] = [
    (Char(97), Add, Int(1), Some(Int(98))),
    (Char(65535), Add, Char(1), Some(Int(65536))),
    (Int(1), Add, Long(1), Some(Long(2))),
    // the lowest bits of what doesn't fit (JLS 15.17.1, 15.18.2)
    (Int(i32::MAX), Add, Int(1), Some(Int(i32::MIN))),
    (Int(i32::MIN), Subtract, Int(1), Some(Int(i32::MAX))),
    (Int(65536), Multiply, Int(65536), Some(Int(0))),
    (Int(46341), Multiply, Int(46341), Some(Int(-2147479015))),
    (Int(65536), Multiply, Long(65536), Some(Long(4294967296))),
    (Long(i64::MAX), Add, Int(1), Some(Long(i64::MIN))),
    (Long(i64::MIN), Subtract, Char(1), Some(Long(i64::MAX))),
    (Long(4294967296), Multiply, Long(4294967296), Some(Long(0))),
    // JLS 15.17.2
    (Int(5), Divide, Int(3), Some(Int(1))),
    (Int(5), Divide, Int(-3), Some(Int(-1))),
    (Int(-5), Divide, Int(3), Some(Int(-1))),
    (Int(-5), Divide, Int(-3), Some(Int(1))),
    (Int(i32::MIN), Divide, Int(-1), Some(Int(i32::MIN))),
    (Int(i32::MIN), Divide, Long(-1), Some(Long(2147483648))),
    (Long(i64::MIN), Divide, Int(-1), Some(Long(i64::MIN))),
    (Int(1), Divide, Int(0), None),
    (Long(1), Divide, Char(0), None),
    // JLS 15.17.3
    (Int(5), Remainder, Int(3), Some(Int(2))),
    (Int(5), Remainder, Int(-3), Some(Int(2))),
    (Int(-5), Remainder, Int(3), Some(Int(-2))),
    (Int(-5), Remainder, Int(-3), Some(Int(-2))),
    (Long(-5), Remainder, Char(3), Some(Long(-2))),
    (Int(i32::MIN), Remainder, Int(-1), Some(Int(0))),
    (Int(1), Remainder, Int(0), None),
    (Long(1), Remainder, Int(0), None),
    // JLS 15.22.1
    (Int(0xff00), And, Int(0xf0f0), Some(Int(0xf000))),
    (Int(0xff00), Xor, Int(0xf0f0), Some(Int(0x0ff0))),
    (Int(0xff00), Or, Int(0xf0f0), Some(Int(0xfff0))),
    (Int(6), Xor, Char(3), Some(Int(5))),
    (Int(-1), And, Long(4294967296), Some(Long(4294967296))),
    // what the operators don't take
    (Boolean(true), Add, Int(1), None),
    (Int(1), Multiply, Boolean(true), None),
    (Int(1), Divide, Text("1"), None),
    (Text("a"), Subtract, Text("a"), None),
    (Null, Add, Int(1), None),
    (Int(1), Add, Null, None),
];

/// The left operand alone decides how many bits of the distance count (JLS 15.19).
const SHIFTS: [Binary; 23] = [
    (Int(1), ShiftLeft, Int(33), Some(Int(2))),
    (Int(1), ShiftLeft, Long(33), Some(Int(2))),
    (Int(1), ShiftLeft, Int(-1), Some(Int(i32::MIN))),
    (Char(65535), ShiftLeft, Int(16), Some(Int(-65536))),
    (Long(1), ShiftLeft, Int(33), Some(Long(8589934592))),
    (Long(1), ShiftLeft, Int(65), Some(Long(2))),
    (Long(1), ShiftLeft, Int(-1), Some(Long(i64::MIN))),
    (Long(1), ShiftLeft, Long(-63), Some(Long(2))),
    (Int(-8), ShiftRight, Int(33), Some(Int(-4))),
    (Int(-8), ShiftRight, Char(33), Some(Int(-4))),
    (Int(-8), ShiftRight, Int(-1), Some(Int(-1))),
    (Int(8), ShiftRight, Int(-31), Some(Int(4))),
    (Long(-8), ShiftRight, Int(65), Some(Long(-4))),
    (Long(8), ShiftRight, Int(-63), Some(Long(4))),
    (Int(-1), UnsignedShiftRight, Int(33), Some(Int(i32::MAX))),
    (Int(-1), UnsignedShiftRight, Int(-4), Some(Int(15))),
    (Int(-1), UnsignedShiftRight, Int(32), Some(Int(-1))),
    (Char(65535), UnsignedShiftRight, Int(8), Some(Int(255))),
    (Long(-1), UnsignedShiftRight, Int(65), Some(Long(i64::MAX))),
    (Long(-1), UnsignedShiftRight, Int(-4), Some(Long(15))),
    (Long(-1), UnsignedShiftRight, Long(64), Some(Long(-1))),
    (Int(1), ShiftLeft, Boolean(true), None),
    (Boolean(true), ShiftRight, Int(1), None),
];

const COMPARISONS: [Binary; 31] = [
    (Int(1), Equal, Long(1), Some(Boolean(true))),
    (Char(97), Equal, Int(97), Some(Boolean(true))),
    (Int(0), Equal, Long(4294967296), Some(Boolean(false))),
    (Char(97), NotEqual, Char(98), Some(Boolean(true))),
    (Int(1), NotEqual, Int(1), Some(Boolean(false))),
    (Int(-1), Less, Char(0), Some(Boolean(true))),
    (Int(i32::MIN), Less, Long(i64::MIN), Some(Boolean(false))),
    (Int(1), Less, Int(1), Some(Boolean(false))),
    (Int(1), Greater, Int(1), Some(Boolean(false))),
    (Char(98), Greater, Char(97), Some(Boolean(true))),
    (Int(1), LessOrEqual, Int(1), Some(Boolean(true))),
    (Long(2), LessOrEqual, Int(1), Some(Boolean(false))),
    (Int(1), GreaterOrEqual, Int(1), Some(Boolean(true))),
    (Char(97), GreaterOrEqual, Int(98), Some(Boolean(false))),
    (Boolean(true), Equal, Boolean(true), Some(Boolean(true))),
    (Boolean(true), Equal, Boolean(false), Some(Boolean(false))),
    (Boolean(true), NotEqual, Boolean(false), Some(Boolean(true))),
    (Boolean(true), And, Boolean(false), Some(Boolean(false))),
    (Boolean(false), Or, Boolean(true), Some(Boolean(true))),
    (Boolean(true), Xor, Boolean(true), Some(Boolean(false))),
    (Boolean(false), Xor, Boolean(true), Some(Boolean(true))),
    (Boolean(true), AndAlso, Boolean(true), Some(Boolean(true))),
    (Boolean(false), AndAlso, Boolean(true), Some(Boolean(false))),
    (Boolean(false), OrElse, Boolean(false), Some(Boolean(false))),
    (Boolean(true), OrElse, Boolean(false), Some(Boolean(true))),
    (Boolean(true), Less, Boolean(false), None),
    (Boolean(true), Equal, Int(1), None),
    (Boolean(true), And, Int(1), None),
    (Int(1), AndAlso, Boolean(true), None),
    (Null, Equal, Null, None),
    (Text("a"), Less, Text("b"), None),
];

/// JLS 15.18.1
const JOINS: [Binary; 10] = [
    (Text("ab"), Add, Text("cd"), Some(Text("abcd"))),
    (Text(""), Add, Text(""), Some(Text(""))),
    (Text("ab"), Add, Int(-1), Some(Text("ab-1"))),
    (Int(i32::MIN), Add, Text("L"), Some(Text("-2147483648L"))),
    (
        Text("ab"),
        Add,
        Long(4294967296),
        Some(Text("ab4294967296")),
    ),
    (Char(99), Add, Text("ab"), Some(Text("cab"))),
    (Text("ab"), Add, Char(99), Some(Text("abc"))),
    (Text("is "), Add, Boolean(true), Some(Text("is true"))),
    (Boolean(false), Add, Text("?"), Some(Text("false?"))),
    (Text("ab"), Add, Null, None),
];

pub fn value(alloc: Global, plain: Plain) -> Result<Value, Fail> {
    match plain {
        Int(number) => Ok(Value::Int(number)),
        Long(number) => Ok(Value::Long(number)),
        Char(unit) => Ok(Value::Char(unit)),
        Boolean(truth) => Ok(Value::Boolean(truth)),
        Text(text) => Ok(Value::Text(UText::from_str(alloc, text)?)),
        Null => Ok(Value::Null),
    }
}

pub fn is(alloc: Global, found: &Option<Value>, expected: Option<Plain>) -> Result<bool, Fail> {
    match (found, expected) {
        (Some(found), Some(expected)) => Ok(*found == value(alloc, expected)?),
        (None, None) => Ok(true),
        _ => Ok(false),
    }
}

fn binary_holds(alloc: Global, row: Binary) -> Result<bool, Fail> {
    let (left, operator, right, expected) = row;
    let left = value(alloc, left)?;
    let right = value(alloc, right)?;
    let found = constant_binary(alloc, operator, &left, &right)?;
    is(alloc, &found, expected)
}

fn check_binary(rt: &impl Abort, alloc: Global, rows: &[Binary]) -> Result<(), Fail> {
    for row in rows {
        assert!(rt; binary_holds(alloc, *row)?, "{row:?}");
    }
    Ok(())
}

#[test]
fn numbers_are_computed_with(rt: HostRuntime) -> Result<(), Fail> {
    check_binary(&rt, rt.alloc(), &ARITHMETIC)
}

#[test]
fn numbers_are_shifted(rt: HostRuntime) -> Result<(), Fail> {
    check_binary(&rt, rt.alloc(), &SHIFTS)
}

#[test]
fn values_are_compared(rt: HostRuntime) -> Result<(), Fail> {
    check_binary(&rt, rt.alloc(), &COMPARISONS)
}

#[test]
fn texts_are_joined(rt: HostRuntime) -> Result<(), Fail> {
    check_binary(&rt, rt.alloc(), &JOINS)
}
