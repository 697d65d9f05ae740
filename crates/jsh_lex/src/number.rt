//! Integer literals.

ghost use Rattle.std.specs.Prelude.{◌≡◌, ◌-◌, ◌<◌, ◌≤◌, ◌^◌, length, slice_index, IfSome, IfNone, ◌&&◌, true, false};
ghost use Rattle.std.specs.Char.{digit_value};
ghost use Rattle.std.specs.List.{list_all};
ghost use Rattle.std.specs.Option.{SomeIff};
ghost use Rattle.std.specs.Str.{chars};
ghost use Rattle.jsh_lex.specs.Number as spec;
ghost use Rattle.jsh_lex.specs.Value as value;

use crate::chars::split_first;
use crate::lexeme::{LexFault, Lexeme};
use jsh_tree::TokenKind;

fn byte(bytes: &[u8], at: usize) -> u8
    ensures { result ≡ slice_index bytes.now at }
{
    if at < bytes.len() { bytes[at] } else { 0 }
}

fn last_byte(bytes: &[u8]) -> u8
    ensures { result ≡ slice_index bytes.now (length bytes.now - 1) }
{
    if bytes.is_empty() {
        0
    } else {
        bytes[bytes.len() - 1]
    }
}

fn is_float_mark(c: char) -> bool
    ensures { result ≡ spec.is_float_mark c }
{
    matches!(c, '.' | 'e' | 'E' | 'f' | 'F' | 'd' | 'D')
}

/// Whether the text begins as a floating-point literal.
pub fn is_float(mut text: &str) -> bool
    ensures { result ≡ spec.is_float false (chars text.entry.now) }
{
    let mut after_digit = false;
    while let Some((c, rest)) = split_first(text) {
        if c.is_ascii_digit() {
            after_digit = true;
        } else if c == '_' {
            after_digit = false;
        } else {
            return after_digit && is_float_mark(c);
        }
        text = rest;
    }
    false
}

fn is_long(number: &[u8]) -> bool
    ensures { result ≡ spec.is_long number.now }
{
    let last = last_byte(number);
    last == b'l' || last == b'L'
}

fn without_suffix(number: &[u8]) -> &[u8]
    ensures { result.now ≡ spec.without_suffix number.now }
{
    if is_long(number) {
        &number[..number.len() - 1]
    } else {
        number
    }
}

fn radix(number: &[u8]) -> u32
    ensures value { result ≡ spec.radix number.now }
    ensures prefix { result ≡ 16 → 2 ≤ length number.now }
    ensures short_prefix { result ≡ 2 → 2 ≤ length number.now }
    ensures bounds { (2 ≤ result) × (result ≤ 16) }
{
    if byte(number, 0) == b'0' && 1 < number.len() {
        match number[1] {
            b'x' => 16,
            b'b' => 2,
            _ => 8,
        }
    } else {
        10
    }
}

fn digits(number: &[u8]) -> &[u8]
    ensures { result.now ≡ spec.digits number.now }
{
    let base = radix(number);
    if base == 16 || base == 2 {
        &number[2..]
    } else {
        number
    }
}

/// The value of a digit, or 36 for what is none.
fn digit_value(b: u8) -> u32
    ensures value { result ≡ digit_value b }
    ensures bound { result ≤ 36 }
{
    match b {
        b'0'..=b'9' => u32::from(b - b'0'),
        b'A'..=b'Z' => u32::from(b - b'A') + 10,
        b'a'..=b'z' => u32::from(b - b'a') + 10,
        _ => 36,
    }
}

fn is_digit(base: u32, b: u8) -> bool
    ensures { result ≡ spec.is_digit base b }
{
    digit_value(b) < base
}

fn all_digits_or_underscores(base: u32, digits: &[u8]) -> bool
    ensures { result ≡ list_all (spec.is_digit_or_underscore base) digits.now }
{
    digits.iter().all(|b| *b == b'_' || is_digit(base, *b))
}

fn are_digits(base: u32, digits: &[u8]) -> bool
    ensures { result ≡ spec.are_digits base digits.now }
{
    is_digit(base, byte(digits, 0))
        && is_digit(base, last_byte(digits))
        && all_digits_or_underscores(base, digits)
}

/// The number that the digits stand for, where it has 64 bits or fewer.
#[tactic(auto, using(crate::proofs::Values::value_behind_grows))]
fn value_of_digits(base: u32, mut digits: &[u8]) -> Option<u64>
    requires { (2 ≤ base) × (base ≤ 16) }
    ensures none { IfNone result (2 ^ 64 ≤ spec.value_behind base 0 digits.entry.now) }
    ensures some { IfSome result (λ n. n ≡ spec.value_behind base 0 digits.entry.now) }
{
    let mut value: u64 = 0;
    while let [b, more @ ..] = digits {
        if *b != b'_' {
            value = value
                .checked_mul(u64::from(base))?
                .checked_add(u64::from(digit_value(*b)))?;
        }
        digits = more;
    }
    Some(value)
}

fn bound(base: u32, is_long: bool) -> u64
    ensures { result ≡ spec.bound base is_long }
{
    match (base == 10, is_long) {
        (true, true) => 9_223_372_036_854_775_808,
        (true, false) => 2_147_483_648,
        (false, true) => u64::MAX,
        (false, false) => 0xffff_ffff,
    }
}

/// What a number is.
#[tactic(auto, unfolding(crate::specs::Number::integer))]
pub fn integer(number: &[u8]) -> Lexeme
    ensures { result ≡ spec.integer number.now }
{
    if !is_integer(number) {
        return Lexeme::Wrong(LexFault::BadNumber);
    }
    if !is_in_range(number) {
        return Lexeme::Wrong(LexFault::NumberTooBig);
    }
    Lexeme::Spelled(if is_long(number) {
        TokenKind::LongLiteral
    } else {
        TokenKind::IntLiteral
    })
}

#[tactic(auto, unfolding(crate::specs::Number::is_integer))]
fn is_integer(number: &[u8]) -> bool
    ensures { result ≡ spec.is_integer number.now }
{
    let front = without_suffix(number);
    are_digits(radix(front), digits(front))
}

/// The value of a number, where it has 64 bits or fewer.
#[tactic(auto, unfolding(crate::specs::Number::value_of))]
fn value_of(number: &[u8]) -> Option<u64>
    ensures none { IfNone result (2 ^ 64 ≤ spec.value_of number.now) }
    ensures some { IfSome result (λ n. n ≡ spec.value_of number.now) }
{
    let front = without_suffix(number);
    value_of_digits(radix(front), digits(front))
}

#[tactic(auto, unfolding(crate::specs::Number::is_in_range))]
fn is_in_range(number: &[u8]) -> bool
    ensures { result ≡ spec.is_in_range number.now }
{
    match value_of(number) {
        Some(value) => value <= bound(radix(without_suffix(number)), is_long(number)),
        None => false,
    }
}

/// The value of an integer literal that fits in so many bits, or `None` for what isn't one.
#[tactic(auto, unfolding(crate::specs::Number::is_in_range))]
fn value_in_range(number: &[u8]) -> Option<u64>
    ensures none { IfNone result ((spec.is_integer number.now && spec.is_in_range number.now) ≡ false) }
    ensures some { IfSome result (λ n. n ≡ spec.value_of number.now) }
    ensures is { IfSome result (λ _. (spec.is_integer number.now && spec.is_in_range number.now) ≡ true) }
    ensures bound { IfSome result (λ n. n ≤ spec.bound (spec.radix (spec.without_suffix number.now)) (spec.is_long number.now)) }
{
    if !is_integer(number) {
        return None;
    }
    let value = value_of(number)?;
    if value <= bound(radix(without_suffix(number)), is_long(number)) {
        Some(value)
    } else {
        None
    }
}

/// The value of an int literal, or `None` for any other text. Both `2147483648`, which stands only
/// behind a minus, and `0x80000000` have the value of the least int.
pub fn int_value(spelling: &str) -> Option<i32>
    ensures { result ≡ value.int_value spelling.now }
{
    let number = spelling.as_bytes();
    if is_long(number) {
        return None;
    }
    let value = value_in_range(number)?;
    Some((value as u32).cast_signed())
}

/// The value of a long literal, which has its suffix, or `None` for any other text.
pub fn long_value(spelling: &str) -> Option<i64>
    ensures { result ≡ value.long_value spelling.now }
{
    let number = spelling.as_bytes();
    if !is_long(number) {
        return None;
    }
    let value = value_in_range(number)?;
    Some(value.cast_signed())
}

/// Whether an integer literal is the decimal `2147483648` or `9223372036854775808L`, which stand only
/// as the operand of a unary minus (JLS 3.10.1).
pub fn needs_minus(spelling: &str) -> bool
    ensures { result ≡ value.needs_minus spelling.now }
{
    let number = spelling.as_bytes();
    is_integer(number)
        && radix(without_suffix(number)) == 10
        && value_of(number) == Some(bound(10, is_long(number)))
}
