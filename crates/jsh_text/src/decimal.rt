ghost use Rattle.std.specs.Prelude.{◌≡◌, codes, decimal, pos, neg_ℤ, if◌then◌else◌, Some, None, ◌++◌, IfOk, OnOk, OnErr};
ghost use Rattle.std.specs.Char.{is_ascii_digit, digit_value};
ghost use Rattle.std.specs.Fmt.{signed_decimal};
ghost use Rattle.std.specs.Option.{option_and_then};
ghost use Rattle.std.specs.Result.{result_ok};
ghost use Rattle.jsh_text.specs.Decimal.{int_value, long_value, natural_value, within_64_bits, within_signed_bits};

use crate::memory::NoMemory;
use crate::utext::UText;
use itoa::Buffer;
use std::alloc::Global;
use std::error::Error;
use std::fmt;

const MINUS: u16 = b'-' as u16;

const PLUS: u16 = b'+' as u16;

/// The text is no number of the type.
#[derive(Clone, Copy, Debug, PartialEq, Eq)]
pub struct NotNumber;

impl fmt::Display for NotNumber {
    ghost output = { λ _. Some (codes "not a number of the type") };

    fn fmt<W: fmt::Write>(&self, f: &mut fmt::Formatter<W>) -> fmt::Result {
        f.write_str("not a number of the type")
    }
}

impl Error for NotNumber {}

/// Reads an optional sign and ASCII decimal digits, as `Integer.parseInt` does, which takes Unicode's other digits too.
pub fn parse_int(text: &UText) -> Result<i32, NotNumber>
    ensures { result_ok result ≡ int_value text.now }
{
    let value = parse_long(text)?;
    match i32::try_from(value) {
        Ok(value) => Ok(value),
        Err(_) => Err(NotNumber),
    }
}

/// The same for a `long`, as `Long.parseLong`.
pub fn parse_long(text: &UText) -> Result<i64, NotNumber>
    ensures { result_ok result ≡ long_value text.now }
{
    signed(text.as_slice()).ok_or(NotNumber)
}

// The number of digits after an optional sign.
fn signed(units: &[u16]) -> Option<i64>
    ensures { result ≡ long_value units.now }
{
    match units {
        [] => None,
        [MINUS, digits @ ..] => negated(natural(digits)?),
        [PLUS, digits @ ..] => positive(natural(digits)?),
        _ => positive(natural(units)?),
    }
}

fn positive(magnitude: u64) -> Option<i64>
    ensures { result ≡ within_signed_bits 63 (pos magnitude) }
{
    if magnitude <= i64::MAX as u64 {
        Some(magnitude as i64)
    } else {
        None
    }
}

// There is one more number below zero than above it.
fn negated(magnitude: u64) -> Option<i64>
    ensures { result ≡ within_signed_bits 63 (neg_ℤ (pos magnitude)) }
{
    if magnitude == 0 {
        return Some(0);
    }
    let above_least = magnitude - 1;
    if above_least <= i64::MAX as u64 {
        Some(-1 - above_least as i64)
    } else {
        None
    }
}

// The number of one or more digits, where 64 bits hold it.
fn natural(units: &[u16]) -> Option<u64>
    ensures { result ≡ option_and_then within_64_bits (natural_value units.now) }
{
    if units.is_empty() {
        return None;
    }
    let mut number: u64 = 0;
    for unit in units {
        let digit = digit(*unit)?;
        number = number.checked_mul(10)?.checked_add(digit)?;
    }
    Some(number)
}

fn digit(unit: u16) -> Option<u64>
    ensures { result ≡ (if is_ascii_digit unit then Some (digit_value unit) else None) }
{
    if b'0' as u16 <= unit && unit <= b'9' as u16 {
        Some((unit - b'0' as u16) as u64)
    } else {
        None
    }
}

/// The decimal text of a number, as `Integer.toString` gives it.
pub fn print_int(alloc: Global, value: i32) -> Result<UText, NoMemory>
    ensures decimal { IfOk result (λ text. text ≡ signed_decimal value) }
    ensures reads_back { IfOk result (λ text. int_value text ≡ Some value) }
{
    print_long(alloc, value as i64)
}

/// The same for a `long`, as `Long.toString`.
pub fn print_long(alloc: Global, value: i64) -> Result<UText, NoMemory>
    ensures decimal { IfOk result (λ text. text ≡ signed_decimal value) }
    ensures reads_back { IfOk result (λ text. long_value text ≡ Some value) }
{
    let mut buffer = Buffer::new();
    UText::from_latin1(alloc, buffer.format(value).as_bytes())
}

/// The decimal digits of a count.
pub fn print_unsigned(alloc: Global, value: u64) -> Result<UText, NoMemory>
    ensures { IfOk result (λ text. text ≡ decimal value) }
{
    let mut text = UText::new(alloc);
    push_unsigned(&mut text, value)?;
    Ok(text)
}

/// Appends the decimal digits of a count.
pub fn push_unsigned(text: &mut UText, value: u64) -> Result<(), NoMemory>
    ensures ok { OnOk result (text.new ≡ text.old ++ decimal value) }
    ensures err { OnErr result (text.new ≡ text.old) }
{
    let mut buffer = Buffer::new();
    text.push_latin1(buffer.format(value).as_bytes())
}
