//! Operators on values, and the values of constant expressions (JLS 15.28).
#![tactic(auto)]

mod constant;
mod number;
mod operate;
mod reference;

pub use constant::{
    constant_binary, constant_cast, constant_choice, constant_literal, constant_unary,
    type_of_constant,
};
pub use number::converted;
pub use operate::{Computed, binary_value, unary_value};
pub use reference::text_of;

#[cfg(test)]
mod other_tests;
#[cfg(test)]
mod tests;
