//! Numbers and texts.

ghost use Rattle.std.specs.Prelude.{IsErrOf};
ghost use Rattle.std.specs.Int.{w16, w32, w64};
ghost use Rattle.jsh_replay.specs.Reading.{Gives, number_at, text_at, text_of};

use crate::halt::Halt;
use jsh_tree::MOST_SOURCE;
use std::str::from_utf8;

pub fn u16_at(bytes: &[u8]) -> Result<(u16, &[u8]), Halt>
    ensures { Gives (λ x. (x.0, x.1.now)) result (number_at w16 bytes.now) }
{
    if bytes.len() < 2 {
        return Err(Halt::NoItem);
    }
    let (front, rest) = bytes.split_at(2);
    Ok((u16::from_be_bytes([front[0], front[1]]), rest))
}

pub fn u32_at(bytes: &[u8]) -> Result<(u32, &[u8]), Halt>
    ensures no_memory { IsErrOf result Halt.NoMemory → ⊥ }
    ensures gives { Gives (λ x. (x.0, x.1.now)) result (number_at w32 bytes.now) }
{
    if bytes.len() < 4 {
        return Err(Halt::NoItem);
    }
    let (front, rest) = bytes.split_at(4);
    let number = u32::from_be_bytes([front[0], front[1], front[2], front[3]]);
    Ok((number, rest))
}

pub fn u64_at(bytes: &[u8]) -> Result<(u64, &[u8]), Halt>
    ensures { Gives (λ x. (x.0, x.1.now)) result (number_at w64 bytes.now) }
{
    if bytes.len() < 8 {
        return Err(Halt::NoItem);
    }
    let (front, rest) = bytes.split_at(8);
    let number = u64::from_be_bytes([
        front[0], front[1], front[2], front[3], front[4], front[5], front[6], front[7],
    ]);
    Ok((number, rest))
}

/// A text of so many bytes, where it has no more than a source may have.
fn text_of(len: usize, bytes: &[u8]) -> Result<(&str, &[u8]), Halt>
    ensures { Gives (λ x. (x.0.now, x.1.now)) result (text_of len bytes.now) }
{
    if len > MOST_SOURCE || len > bytes.len() {
        return Err(Halt::NoItem);
    }
    let (front, rest) = bytes.split_at(len);
    match from_utf8(front) {
        Ok(text) => Ok((text, rest)),
        Err(_) => Err(Halt::NoItem),
    }
}

/// A length and a text of this length. Nothing is taken for it.
#[tactic(auto, unfolding(crate::specs::Reading::text_at))]
pub fn text_at(bytes: &[u8]) -> Result<(&str, &[u8]), Halt>
    ensures { Gives (λ x. (x.0.now, x.1.now)) result (text_at bytes.now) }
{
    let (len, rest) = u32_at(bytes)?;
    text_of(len as usize, rest)
}
