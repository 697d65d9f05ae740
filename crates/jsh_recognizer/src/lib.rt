//! A recognizer of the grammar's table: it takes the tokens of a prefix one after another.
#![tactic(auto)]

mod answer;
mod classes;
mod creations;
mod declarations;
mod frame;
mod fresh;
mod laws;
mod moves;
mod operands;
mod recognizer;
mod scanner;
mod statements;
mod stops;
#[cfg(test)]
mod tests;

pub use frame::{Context, Ending, Frame};
pub use laws::{functions_follow_table, recognizer_takes_prefixes};
pub use recognizer::{Advance, LIMIT, Recognizer, Start};
pub use scanner::{End, Scanned, scan};
