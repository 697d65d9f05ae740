//! Texts as UTF-16 units, the values that Java code computes with, and decimal text.
#![tactic(auto)]

mod decimal;
mod memory;
#[cfg(test)]
mod tests;
mod utext;
mod utf8;
mod value;

pub use decimal::{
    NotNumber, parse_int, parse_long, print_int, print_long, print_unsigned, push_unsigned,
};
pub use memory::NoMemory;
pub use utext::UText;
pub use value::{KindName, Value};
