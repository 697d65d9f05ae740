//! Whether a text is whole, and where its first snippet ends.
#![tactic(auto)]

mod analysis;
mod completion;
mod laws;
mod reading;
#[cfg(test)]
mod tests;

pub use analysis::analyze;
pub use completion::{Completeness, Completion};
pub use laws::one_completion;
pub use reading::Reader;
