//! Which live declarations are bad, which rules on supertypes a type breaks, and which units are
//! replaced. The bad and the replaced are each the smallest set that holds some declarations and each
//! one whose header mentions a type of the set.
#![tactic(auto)]

mod bad_set;
mod hierarchy;
mod names;
mod outlines;
mod places;
mod replaced_set;
mod rule_diagnostics;
mod rules;
mod signatures;
mod units;
mod written;

pub use bad_set::{bad, visible};
pub use replaced_set::replaced;
pub use rule_diagnostics::diagnostics;
pub use rules::{Breach, breaches};

#[cfg(test)]
mod rule_tests;
#[cfg(test)]
mod test_rows;
#[cfg(test)]
mod tests;
