//! The grammar as a table, and which lists of tokens are fronts of what it derives.
#![tactic(auto)]

mod laws;

pub use laws::{fronts_go_on, rooms_bound_depths, stacks_are_derivations, stacks_are_prefixes};
