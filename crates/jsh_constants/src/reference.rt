ghost use Rattle.std.specs.Prelude.{◌≡◌, IfOk, OnErr};
ghost use Rattle.jsh_constants.specs.References as spec;

use jsh_text::{NoMemory, UText, Value, print_int, print_long};
use std::alloc::Global;

/// The text of a value (JLS 5.1.11), or None for an object, whose `toString` has it.
pub fn text_of(alloc: Global, value: &Value) -> Result<Option<UText>, NoMemory>
    ensures { IfOk result (λ text. text ≡ spec.text_of value.now) }
{
    match value {
        Value::Int(number) => Ok(Some(print_int(alloc, *number)?)),
        Value::Long(number) => Ok(Some(print_long(alloc, *number)?)),
        Value::Char(unit) => Ok(Some(UText::from_units(alloc, &[*unit])?)),
        Value::Boolean(truth) => {
            let word = if *truth { "true" } else { "false" };
            Ok(Some(UText::from_latin1(alloc, word.as_bytes())?))
        }
        Value::Text(text) => Ok(Some(text.copy()?)),
        Value::Null => Ok(Some(UText::from_latin1(alloc, b"null")?)),
        Value::Ref(_) => Ok(None),
    }
}

/// Whether two references are one, or None for what is no reference. Texts are one where their
/// units are.
pub fn same_reference(left: &Value, right: &Value) -> Option<bool>
    ensures { result ≡ spec.same_reference left.now right.now }
{
    match (left, right) {
        (Value::Null, Value::Null) => Some(true),
        (Value::Ref(object), Value::Ref(other)) => Some(object == other),
        (Value::Text(text), Value::Text(other)) => Some(text == other),
        _ => {
            if is_reference(left) && is_reference(right) {
                Some(false)
            } else {
                None
            }
        }
    }
}

fn is_reference(value: &Value) -> bool
    ensures { result ≡ spec.is_reference value.now }
{
    match value {
        Value::Null | Value::Ref(_) | Value::Text(_) => true,
        _ => false,
    }
}
