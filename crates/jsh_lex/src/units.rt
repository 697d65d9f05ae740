//! The UTF-16 units that a string literal spells.

ghost use Rattle.std.specs.Prelude.{◌≡◌, ◌≤◌, ◌++◌, length, take, drop, None, Some, IfNone, IfOk, IfSome, OnOk};
ghost use Rattle.std.specs.Char.Escape.{encode_utf16};
ghost use Rattle.std.specs.Str.{chars};
ghost use Rattle.jsh_lex.specs.Literal.{escape_unit};
ghost use Rattle.jsh_lex.specs.Value as spec;

use crate::chars::split_first;
use crate::literal::{behind_quote, content, escapes_hold, is_octal, letter_escape, octal};
use std::alloc::{AllocError, Global};

/// The unit of an escape, from the text behind its backslash, and the text behind the escape.
fn split_escape(text: &str) -> (Option<u16>, &str)
    ensures unit { result.0 ≡ escape_unit (take (spec.escape_len (chars text.now)) (chars text.now)) }
    ensures rest { chars result.1.now ≡ drop (spec.escape_len (chars text.now)) (chars text.now) }
    ensures length { length result.1.now ≤ length text.now }
{
    let Some((c, after_c)) = split_first(text) else {
        return (None, text);
    };
    if !is_octal(c) {
        return (letter_escape(c), after_c);
    }
    let Some((d, after_d)) = split_first(after_c) else {
        return (Some(octal(c)), after_c);
    };
    if !is_octal(d) {
        return (Some(octal(c)), after_c);
    }
    if '4' <= c {
        return (Some(8 * octal(c) + octal(d)), after_d);
    }
    let Some((e, after_e)) = split_first(after_d) else {
        return (Some(8 * octal(c) + octal(d)), after_d);
    };
    if !is_octal(e) {
        return (Some(8 * octal(c) + octal(d)), after_d);
    }
    (Some(64 * octal(c) + 8 * octal(d) + octal(e)), after_e)
}

fn push_char(units: &mut Vec<u16>, c: char) -> Result<(), AllocError>
    ensures { OnOk result (units.new.items ≡ units.old.items ++ encode_utf16 c) }
{
    let mut buffer = [0; 2];
    units.extend_from_slice(c.encode_utf16(&mut buffer))
}

fn push_some(units: &mut Vec<u16>, unit: Option<u16>) -> Result<(), AllocError>
    ensures { OnOk result (units.new.items ≡ units.old.items ++ spec.one_unit unit) }
{
    if let Some(unit) = unit {
        units.push(unit)?;
    }
    Ok(())
}

/// The units that a content spells.
#[tactic(auto, using(crate::proofs::Values::units_later, std::proofs::Common::append_assoc))]
fn units_of(alloc: Global, mut content: &str) -> Result<Vec<u16>, AllocError>
    ensures { IfOk result (λ v. v.items ≡ spec.units_behind 0 (chars content.entry.now)) }
{
    let mut units = Vec::new(alloc);
    while let Some((c, rest)) = split_first(content) {
        if c == '\\' {
            let (unit, after) = split_escape(rest);
            push_some(&mut units, unit)?;
            content = after;
        } else {
            push_char(&mut units, c)?;
            content = rest;
        }
    }
    Ok(units)
}

/// The UTF-16 units of a string literal, or `None` for any other text.
pub fn string_value(alloc: Global, spelling: &str) -> Result<Option<Vec<u16>>, AllocError>
    ensures none { IfOk result (λ v. IfNone v (spec.string_value (chars spelling.now) ≡ None)) }
    ensures some { IfOk result (λ v. IfSome v (λ units. spec.string_value (chars spelling.now) ≡ Some units.items)) }
{
    let Some(('"', text)) = split_first(spelling) else {
        return Ok(None);
    };
    let Some(after) = behind_quote('"', text) else {
        return Ok(None);
    };
    let None = split_first(after) else {
        return Ok(None);
    };
    let content = content('"', text, after);
    if !escapes_hold(content) {
        return Ok(None);
    }
    Ok(Some(units_of(alloc, content)?))
}
