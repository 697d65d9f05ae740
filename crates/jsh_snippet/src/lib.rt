//! What a client asks of the engine and what it is answered, as plain data: kinds, statuses and fates
//! of snippets, their records and events, acts with their entries, and replies; and what a tree is as a
//! snippet: its kind, key, header and name.
//!
//! A history is a list of entries. The types of entries and replies have no meaning of their own: the
//! engine's definitions say what an entry does and what is replied.
#![tactic(auto)]

mod acts;
mod classes;
mod events;
mod headers;
mod keys;
mod kinds;
mod mentioned;
mod naming;
mod records;
mod replies;

pub use acts::{Act, Entry, Question, Target};
pub use classes::{ExpressionType, subkind_of};
pub use events::Event;
pub use headers::header_of;
pub use keys::key_of;
pub use kinds::{Fate, Kind, Status, Subkind};
pub use mentioned::mentions;
pub use naming::name_of;
pub use records::Record;
pub use replies::{Collected, LimitKind, Line, Outcome, Refusal, Reply, ReplyBody, Submitted};

#[cfg(test)]
mod tests;
#[cfg(test)]
mod tree_tests;
