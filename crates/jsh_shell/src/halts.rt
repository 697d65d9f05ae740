use crate::statuses::{LIMIT_MET, MEMORY_SHORT, WRITE_FAILED};
use jsh_text::NoMemory;
use std::alloc::AllocError;

/// Why a client is served no further.
#[derive(Clone, Copy, Debug, PartialEq, Eq)]
pub enum Halt {
    NoMemory,
    /// An act was refused at a limit, or would be.
    Limit,
    SinkFailed,
}

impl From<NoMemory> for Halt {
    ghost use Rattle.std.specs.Prelude.{◌≡◌};
    ghost use Rattle.jsh_shell.specs.declared.halts.Halt.TheVariants as halt;

    ghost from_gives = { λ refused why. why ≡ halt.NoMemory };

    fn from(_refused: NoMemory) -> Halt {
        Halt::NoMemory
    }
}

impl From<AllocError> for Halt {
    ghost use Rattle.std.specs.Prelude.{◌≡◌};
    ghost use Rattle.jsh_shell.specs.declared.halts.Halt.TheVariants as halt;

    ghost from_gives = { λ refused why. why ≡ halt.NoMemory };

    fn from(_refused: AllocError) -> Halt {
        Halt::NoMemory
    }
}

impl Halt {
    ghost use Rattle.std.specs.Prelude.{◌≡◌};
    ghost use Rattle.jsh_shell.specs.Serving.{status_of};

    /// The status of a client that halts so.
    pub fn status(self) -> u8
        ensures { result ≡ status_of self }
    {
        match self {
            Halt::NoMemory => MEMORY_SHORT,
            Halt::Limit => LIMIT_MET,
            Halt::SinkFailed => WRITE_FAILED,
        }
    }
}
