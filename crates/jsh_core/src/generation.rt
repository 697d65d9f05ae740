use crate::world::{Body, Cell};
use jsh_snippet::{Event, Kind, Record, Status, Subkind};
use jsh_text::UText;
use jsh_tree::{Diagnostic, Key, Modifier, Name, Seq};

/// A declaration that is in force.
#[derive(Drop)]
pub struct Live {
    /// The number of its record.
    pub id: u32,
    pub key: Key,
    pub status: Status,
    /// The number of the generation that gave its link, where it has one.
    pub given: Option<u64>,
}

/// What a snippet comes to when it is handed in.
#[derive(Drop)]
pub struct Plan {
    pub snippet: Record,
    /// What the next generation has more. None where the live list stays, and with it the generation.
    pub live: Option<Live>,
    /// The variable of a link that is given anew.
    pub made: Option<Cell>,
    /// What is evaluated.
    pub run: Option<Body>,
    pub kind: Kind,
    pub subkind: Subkind,
    /// The snippet's name as feedback shows it.
    pub name: UText,
    /// The new snippet's own event first.
    pub events: Seq<Event>,
    pub ignored: Seq<Modifier>,
    pub diagnostics: Seq<Diagnostic>,
    pub unresolved: Seq<Name>,
    /// The text of a variable's default value, where nothing is run for it.
    pub value: Option<UText>,
}
