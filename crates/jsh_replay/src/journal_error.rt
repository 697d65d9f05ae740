ghost use Rattle.std.specs.Prelude.{◌≡◌};
ghost use Rattle.jsh_replay.specs.declared.journal_error.JournalError.TheVariants as errors;

use jsh_text::NoMemory;
use std::alloc::AllocFailed;
use thiserror::Error;

/// Why a journal can't be read or replayed.
#[derive(Clone, Copy, Debug, PartialEq, Eq, Error)]
pub enum JournalError {
    #[error("out of memory")]
    NoMemory,
    /// The bytes aren't a journal.
    #[error("no journal: what begins at byte {place} can't stand there")]
    BadJournal {
        /// Where the first item begins that no journal has there, from 0.
        place: u64,
    },
}

impl From<NoMemory> for JournalError {
    ghost from_gives = { λ _ error. error ≡ errors.NoMemory };

    fn from(_refused: NoMemory) -> JournalError {
        JournalError::NoMemory
    }
}

impl<T: Drop> From<AllocFailed<T>> for JournalError {
    ghost from_gives = { λ _ error. error ≡ errors.NoMemory };

    fn from(_refused: AllocFailed<T>) -> JournalError {
        JournalError::NoMemory
    }
}
