//! A value behind a lock whose callers know its history.
#![tactic(auto)]

mod chronicle;
mod handles;
mod lock;
mod rule;
#[cfg(test)]
mod tests;
mod turn;
mod view;

pub use chronicle::Chronicle;
pub use handles::{Held, Pass, TurnLock};
