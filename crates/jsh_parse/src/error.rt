use jsh_tree::TokenKind;
use std::alloc::{AllocError, AllocFailed};

/// Why tokens aren't an expression, a statement or a snippet.
#[derive(Clone, Copy, Debug, PartialEq, Eq)]
pub enum ParseError {
    /// Memory ran out.
    NoMemory,
    /// The tokens stop being a prefix, or they are one and end too soon.
    Wanted {
        /// The first byte of the first token with which they stop being a prefix, or the length of
        /// the text where all of them are one.
        place: u32,
        /// One class of token that could stand there, `None` exactly where no token could.
        wanted: Option<TokenKind>,
    },
    /// The tokens so far are a prefix, and the next one stands in more than `limit` constructs.
    TooDeep {
        limit: u32,
    },
}

impl From<AllocError> for ParseError {
    ghost use Rattle.std.specs.Prelude.{◌≡◌};
    ghost use Rattle.jsh_parse.specs.declared.error.ParseError.TheVariants.{NoMemory};

    ghost from_gives = { λ _ e. e ≡ NoMemory };

    fn from(_: AllocError) -> ParseError {
        ParseError::NoMemory
    }
}

impl<T: Drop> From<AllocFailed<T>> for ParseError {
    ghost use Rattle.std.specs.Prelude.{◌≡◌};
    ghost use Rattle.jsh_parse.specs.declared.error.ParseError.TheVariants.{NoMemory};

    ghost from_gives = { λ _ e. e ≡ NoMemory };

    fn from(_: AllocFailed<T>) -> ParseError {
        ParseError::NoMemory
    }
}
