ghost use Rattle.std.specs.Prelude.{◌≡◌};
ghost use Rattle.jsh_constants.specs.Numbers as spec;

use jsh_text::Value;
use jsh_typed::{Arithmetic, Comparison, Numeric, Promoted, Shift};

/// A number as a number of the type, or None for what is no number. What doesn't fit keeps its lowest
/// bits (JLS 5.1.2, 5.1.3).
pub fn converted(value: &Value, to: Numeric) -> Option<Value>
    ensures { result ≡ spec.converted value.now to }
{
    match to {
        Numeric::Int => Some(Value::Int(as_int(value)?)),
        Numeric::Long => Some(Value::Long(as_long(value)?)),
        Numeric::Char => Some(Value::Char(as_char(value)?)),
    }
}

fn as_int(value: &Value) -> Option<i32>
    ensures { result ≡ spec.as_int value.now }
{
    match value {
        Value::Int(number) => Some(*number),
        Value::Long(number) => Some(low_32_bits(*number)),
        Value::Char(unit) => Some(*unit as i32),
        _ => None,
    }
}

fn low_32_bits(number: i64) -> i32
    ensures { result ≡ spec.low_32_bits number }
{
    let bits = number.cast_unsigned() % 4294967296;
    (bits as u32).cast_signed()
}

fn as_long(value: &Value) -> Option<i64>
    ensures { result ≡ spec.as_long value.now }
{
    match value {
        Value::Int(number) => Some(*number as i64),
        Value::Long(number) => Some(*number),
        Value::Char(unit) => Some(*unit as i64),
        _ => None,
    }
}

fn as_char(value: &Value) -> Option<u16>
    ensures { result ≡ spec.as_char value.now }
{
    match value {
        Value::Int(number) => Some((number.cast_unsigned() % 65536) as u16),
        Value::Long(number) => Some((number.cast_unsigned() % 65536) as u16),
        Value::Char(unit) => Some(*unit),
        _ => None,
    }
}

/// An operation on two `int`s, or None where the divisor is zero.
pub fn int_arithmetic(operator: Arithmetic, left: i32, right: i32) -> Option<i32>
    ensures { result ≡ spec.int_arithmetic operator left right }
{
    match operator {
        Arithmetic::Add => Some(left.wrapping_add(right)),
        Arithmetic::Subtract => Some(left.wrapping_sub(right)),
        Arithmetic::Multiply => Some(left.wrapping_mul(right)),
        Arithmetic::Divide => {
            if right == 0 {
                None
            } else {
                Some(left.wrapping_div(right))
            }
        }
        Arithmetic::Remainder => {
            if right == 0 {
                None
            } else {
                Some(left.wrapping_rem(right))
            }
        }
        Arithmetic::And => Some(left & right),
        Arithmetic::Or => Some(left | right),
        Arithmetic::Xor => Some(left ^ right),
    }
}

/// The same on two `long`s.
pub fn long_arithmetic(operator: Arithmetic, first: i64, second: i64) -> Option<i64>
    ensures { result ≡ spec.long_arithmetic operator first second }
{
    match operator {
        Arithmetic::Add => Some(first.wrapping_add(second)),
        Arithmetic::Subtract => Some(first.wrapping_sub(second)),
        Arithmetic::Multiply => Some(first.wrapping_mul(second)),
        Arithmetic::Divide => {
            if second == 0 {
                None
            } else {
                Some(first.wrapping_div(second))
            }
        }
        Arithmetic::Remainder => {
            if second == 0 {
                None
            } else {
                Some(first.wrapping_rem(second))
            }
        }
        Arithmetic::And => Some(first & second),
        Arithmetic::Or => Some(first | second),
        Arithmetic::Xor => Some(first ^ second),
    }
}

/// The six lowest bits of a distance, or None for a value of another type.
pub fn distance_of(promoted: Promoted, value: &Value) -> Option<u32>
    ensures { result ≡ spec.distance_of promoted value.now }
{
    match (promoted, value) {
        (Promoted::Int, Value::Int(number)) => Some(number.cast_unsigned() % 64),
        (Promoted::Long, Value::Long(number)) => Some((number.cast_unsigned() % 64) as u32),
        _ => None,
    }
}

/// An `int` shifted by the five lowest bits of a distance.
pub fn int_shift(operator: Shift, number: i32, distance: u32) -> i32
    ensures { result ≡ spec.int_shift operator number distance }
{
    match operator {
        Shift::Left => number.wrapping_shl(distance),
        Shift::Right => number.wrapping_shr(distance),
        Shift::UnsignedRight => (number.cast_unsigned() >> (distance % 32)).cast_signed(),
    }
}

/// A `long` shifted by the six lowest bits of a distance.
pub fn long_shift(operator: Shift, number: i64, distance: u32) -> i64
    ensures { result ≡ spec.long_shift operator number distance }
{
    match operator {
        Shift::Left => number.wrapping_shl(distance),
        Shift::Right => number.wrapping_shr(distance),
        Shift::UnsignedRight => (number.cast_unsigned() >> (distance % 64)).cast_signed(),
    }
}

/// A comparison of two numbers.
pub fn compares(operator: Comparison, left: i64, right: i64) -> bool
    ensures { result ≡ spec.compares operator left right }
{
    match operator {
        Comparison::Less => left < right,
        Comparison::Greater => right < left,
        Comparison::LessOrEqual => !(right < left),
        Comparison::GreaterOrEqual => !(left < right),
    }
}
