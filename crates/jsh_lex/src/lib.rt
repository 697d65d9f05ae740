//! The lexis: exactly the tokens of a text, or its first fault (JLS 3).
//!
//! `specs/Lexis.antt` says what the tokens of a text are, and `specs/Spelling.antt` which spellings
//! each kind of token has. Where a character begins a number, the number takes all identifier
//! characters that follow, so `1x`, `0X1` and `1_` are each one bad number. Decimal digits in front of
//! `.`, `e`, `E`, `f`, `F`, `d` or `D` are a floating-point literal, also where they are no integer
//! literal, as in `08.5`. `2147483648` is an int literal, and the layer that sees the operators asks
//! [`needs_minus`] whether it may stand where it does.
#![tactic(auto)]

mod chars;
mod lexeme;
mod literal;
mod number;
mod operator;
mod tokens;
mod units;
mod word;

pub use lexeme::{LexError, LexFault};
pub use literal::char_value;
pub use number::{int_value, long_value, needs_minus};
pub use tokens::lex;
pub use units::string_value;
pub use word::is_identifier;

#[cfg(test)]
mod tests;
#[cfg(test)]
mod value_tests;
