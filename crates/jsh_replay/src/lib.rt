//! The journal of an engine: its bytes both ways, and its replay on the one-thread engine.
//!
//! A journal holds the entries of a legal history. `docs/journal.md` has the format.
#![tactic(auto)]

mod acts;
mod entries;
mod fields;
mod halt;
mod journal_error;
mod laws;
mod past;
mod reading;
mod replaying;
mod writing;

pub use journal_error::JournalError;
pub use laws::one_reading;
pub use reading::read_journal;
pub use replaying::replay;
pub use writing::write_journal;

#[cfg(test)]
mod tests;
