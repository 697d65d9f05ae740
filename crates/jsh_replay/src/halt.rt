ghost use Rattle.std.specs.Prelude.{◌≡◌};
ghost use Rattle.jsh_replay.specs.declared.halt.Halt.TheVariants as halt;

use std::alloc::AllocError;

/// Why an item isn't read.
#[derive(Clone, Copy, Debug, PartialEq, Eq)]
pub enum Halt {
    NoMemory,
    /// The bytes begin with no such item.
    NoItem,
}

impl From<AllocError> for Halt {
    ghost from_gives = { λ _ why. why ≡ halt.NoMemory };

    fn from(_refused: AllocError) -> Halt {
        Halt::NoMemory
    }
}
