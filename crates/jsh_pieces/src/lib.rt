//! The lexis of a text, piece by piece: how a text is lexed from behind a token, how the lexis of a text that goes on is taken up again, and when an open comment stays so.
#![tactic(auto)]

mod laws;

pub use laws::{behind_a_token, still_open, taken_up_again};
