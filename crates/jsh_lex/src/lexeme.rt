use jsh_tree::{Seq, Token, TokenKind};
use std::alloc::{AllocError, AllocFailed};

/// Why a text has no token at a place.
#[derive(Clone, Copy, Debug, PartialEq, Eq)]
pub enum LexFault {
    /// A character that begins no token.
    BadChar,
    /// A `/*` without its `*/`.
    OpenComment,
    /// A quote whose line or text ends before the closing one.
    OpenString,
    /// A backslash in front of what is no escape.
    BadEscape,
    /// A character literal that isn't one UTF-16 unit.
    BadCharLiteral,
    /// A number that isn't of the form of an integer literal.
    BadNumber,
    /// An integer literal above the bound of its type.
    NumberTooBig,
    /// A floating-point literal, which this language lacks.
    FloatNotHere,
}

/// Why a text couldn't be cut into tokens.
#[derive(Debug, Drop)]
pub enum LexError {
    /// Memory ran out.
    NoMemory,
    /// The first fault of the text.
    Fault {
        kind: LexFault,
        /// The first byte of what is at fault.
        place: u32,
        /// The tokens in front of it.
        before: Seq<Token>,
    },
}

impl From<AllocError> for LexError {
    ghost use Rattle.std.specs.Prelude.{◌≡◌};
    ghost use Rattle.jsh_lex.specs.declared.lexeme.LexError.TheVariants.{NoMemory};

    ghost from_gives = { λ _ e. e ≡ NoMemory };

    fn from(_: AllocError) -> LexError {
        LexError::NoMemory
    }
}

impl<T: Drop> From<AllocFailed<T>> for LexError {
    ghost use Rattle.std.specs.Prelude.{◌≡◌};
    ghost use Rattle.jsh_lex.specs.declared.lexeme.LexError.TheVariants.{NoMemory};

    ghost from_gives = { λ _ e. e ≡ NoMemory };

    fn from(_: AllocFailed<T>) -> LexError {
        LexError::NoMemory
    }
}

/// What stands at the front of a text.
#[derive(Clone, Copy, Debug)]
pub enum Lexeme {
    /// White space or a comment.
    Gap,
    Spelled(TokenKind),
    Wrong(LexFault),
}
