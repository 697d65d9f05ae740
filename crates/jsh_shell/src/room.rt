ghost use Rattle.std.specs.Prelude.{◌≡◌, ◌≤◌, ◌⊎◌, true, false, length};
ghost use Rattle.jsh_core.specs.Limits.{most_entries};
ghost use Rattle.jsh_shell.specs.Limited.{HasNoRoomFor, HasRoomOf};

use jsh_core::{Core, MOST_BYTES, MOST_ENTRIES};
use jsh_tree::MOST_SOURCE;

/// Whether the history has room for an entry with a text of so many bytes.
pub fn has_room_for(core: &Core, bytes: usize) -> bool
    ensures yes { result ≡ true → HasRoomOf core.now bytes }
    ensures no { result ≡ false → (most_entries ≤ length core.now) ⊎ HasNoRoomFor core.now bytes }
{
    if core.len() >= MOST_ENTRIES || bytes > MOST_SOURCE {
        return false;
    }
    core.source_bytes() <= MOST_BYTES - bytes as u64
}
