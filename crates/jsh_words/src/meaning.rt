//! What the words may mean.

use jsh_tree::{Seq, SrcText};
use std::alloc::{AllocError, AllocFailed};

/// What a command line asks for. File names are as they stand.
#[derive(Debug, Drop)]
pub enum Meaning {
    /// Clients over scripts, or one over the standard streams where there are none.
    Run {
        /// Pumps beside the clients.
        workers: u32,
        /// Steps of each evaluation.
        budget: u64,
        journal: Option<SrcText>,
        startup: Option<SrcText>,
        scripts: Seq<SrcText>,
    },
    /// A client over so many generated snippets.
    Demo {
        snippets: u32,
    },
    /// What a journal tells is told again.
    Replay {
        file: SrcText,
    },
}

/// Why words have no meaning.
#[derive(Debug, PartialEq, Eq, Drop)]
pub enum WordsError {
    NoMemory,
    /// The words are no command line.
    Refused,
}

impl From<AllocError> for WordsError {
    ghost use Rattle.std.specs.Prelude.{◌≡◌};
    ghost use Rattle.jsh_words.specs.declared.meaning.WordsError.TheVariants.{NoMemory};

    ghost from_gives = { λ _ e. e ≡ NoMemory };

    fn from(_: AllocError) -> WordsError {
        WordsError::NoMemory
    }
}

impl<T: Drop> From<AllocFailed<T>> for WordsError {
    ghost use Rattle.std.specs.Prelude.{◌≡◌};
    ghost use Rattle.jsh_words.specs.declared.meaning.WordsError.TheVariants.{NoMemory};

    ghost from_gives = { λ _ e. e ≡ NoMemory };

    fn from(_: AllocFailed<T>) -> WordsError {
        WordsError::NoMemory
    }
}
