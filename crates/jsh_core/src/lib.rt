//! The one-thread engine: a history of entries, and what they come to.
#![tactic(auto)]

mod acts;
mod allowed;
mod cells;
mod clients;
mod delivery;
mod drops;
mod engine;
mod generation;
mod laws;
mod limits;
mod lists;
mod log;
mod parts;
mod questions;
mod runs;
mod snippets;
mod stopping;
mod turns;
mod world;

pub use engine::Core;
pub use laws::{stops_have_entries, sums_have_values};
pub use limits::{MOST_BYTES, MOST_CLIENTS, MOST_ENTRIES, MOST_RECORDS, MOST_STEPS, MOST_THREADS};
pub use world::RunView;
