//! What a simple name means to a snippet, by the live members and the library, with the list of what
//! was asked.
#![tactic(auto)]

mod answers;
mod asked;
mod copies;
mod env;
mod imported;
mod indexes;
mod laws;
mod library;
mod reached;

pub use answers::{
    LibraryAnswer, Linked, MethodAnswer, StaticConstant, StaticMethod, TypeAnswer, VarAnswer,
    Visible,
};
pub use asked::{Asked, AttrError, Footprint};
pub use env::Env;
pub use indexes::{append_place, mentioned_types};
pub use laws::{answers_stay, readers_agree};

#[cfg(test)]
mod tests;
