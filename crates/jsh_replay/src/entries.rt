//! Items.

ghost use Rattle.std.specs.Prelude.{◌≡◌, ◌++◌, option_map, IfSome, IfNone};
ghost use Rattle.jsh_replay.specs.Journal.{header, BeginsWith};
ghost use Rattle.jsh_replay.specs.Reading.{Gives};
ghost use Rattle.jsh_replay.specs.Reading as spec;

use crate::acts::act_by;
use crate::fields::u32_at;
use crate::halt::Halt;
use jsh_snippet::Entry;
use std::alloc::Global;

/// An entry that the bytes begin with, and the bytes behind it.
#[tactic(auto, unfolding(crate::specs::Reading::entry_at))]
pub fn entry_at(alloc: Global, bytes: &[u8]) -> Result<(Entry, &[u8]), Halt>
    ensures { Gives (λ x. (x.0, x.1.now)) result (spec.entry_at bytes.now) }
{
    match bytes {
        [kind, client, fields @ ..] => {
            let (act, rest) = act_by(alloc, *kind, fields)?;
            let client = *client as u32;
            Ok((Entry { client, act }, rest))
        }
        _ => Err(Halt::NoItem),
    }
}

/// What stands behind the header.
pub fn behind_header(bytes: &[u8]) -> Option<&[u8]>
    ensures found { IfSome result (λ rest. bytes.now ≡ header ++ rest.now) }
    ensures none { IfNone result (BeginsWith header bytes.now → ⊥) }
{
    bytes.strip_prefix(b"jshj1\n")
}

/// What stands behind the end mark of so many entries.
#[tactic(auto, unfolding(crate::specs::Reading::behind_end))]
pub fn behind_end(count: u64, bytes: &[u8]) -> Option<&[u8]>
    ensures { option_map (λ rest. rest.now) result ≡ spec.behind_end count bytes.now }
{
    match bytes {
        [255, number @ ..] => match u32_at(number) {
            Ok((told, rest)) if told as u64 == count => Some(rest),
            _ => None,
        },
        _ => None,
    }
}
