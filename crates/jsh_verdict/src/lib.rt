//! What becomes of a source: its tree, and a sum, or what is wrong with it.
//!
//! `specs/Causes.antt` says why a source is accepted or rejected, in words of the lexis and the
//! grammar. `specs/Verdict.antt` has the verdict as a function, and a law ties the two.
#![tactic(auto)]

mod judging;
mod laws;
mod verdict;

pub use judging::judge;
pub use laws::verdicts_have_causes;
pub use verdict::{Judged, Verdict};

#[cfg(test)]
mod tests;
