ghost use Rattle.std.specs.Prelude.{◌≡◌, ◌<◌, ◌≤◌, ◌∷◌, length, drop, IfOk};
ghost use Rattle.std.specs.String.{string_bytes};
ghost use Rattle.std.specs.Char.Utf16.{utf16_chars};
ghost use Rattle.jsh_text.specs.Utf.{utf8};

use crate::memory::NoMemory;
use std::alloc::Global;

/// What stands for a surrogate without a partner.
const REPLACEMENT: char = '?';

/// The UTF-8 text of a list of UTF-16 units.
pub fn shown(alloc: Global, units: &[u16]) -> Result<String, NoMemory>
    ensures { IfOk result (λ text. string_bytes text ≡ utf8 units.now) }
{
    let mut text = String::with_capacity(alloc, units.len())?;
    let mut at = 0;
    while at < units.len() {
        let (found, next) = char_at(units, at);
        text.push(found.unwrap_or(REPLACEMENT))?;
        at = next;
    }
    Ok(text)
}

// The character whose units begin at `at`, unless that unit is a surrogate without a partner, and where the next one begins.
fn char_at(units: &[u16], at: usize) -> (Option<char>, usize)
    requires { at < length units.now }
    ensures bound { (at < result.1) × (result.1 ≤ length units.now) }
    ensures first { utf16_chars (drop at units.now) ≡ result.0 ∷ utf16_chars (drop result.1 units.now) }
{
    let high = units[at] as u32;
    if high < 0xD800 || 0xE000 <= high {
        return (char::from_u32(high), at + 1);
    }
    if 0xDC00 <= high || units.len() - at < 2 {
        return (None, at + 1);
    }
    let low = units[at + 1] as u32;
    if low < 0xDC00 || 0xE000 <= low {
        return (None, at + 1);
    }
    let code = 0x1_0000 + (high - 0xD800) * 0x400 + (low - 0xDC00);
    (char::from_u32(code), at + 2)
}
