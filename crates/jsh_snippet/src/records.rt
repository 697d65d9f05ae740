use crate::kinds::{Fate, Kind};
use jsh_tree::{SrcText, Tree, TypeWritten};

/// A snippet that was submitted.
#[derive(Drop)]
pub struct Record {
    /// The snippet's number, from 1 in the order of submission.
    pub id: u32,
    pub source: SrcText,
    /// The source as a tree. None exactly where it is no snippet.
    pub tree: Option<Tree>,
    /// The type of a temporary, or of a variable that was declared by `var`, as it was at the entry.
    pub fixed: Option<TypeWritten>,
    /// None only before the entry.
    pub kind: Option<Kind>,
    pub fate: Fate,
}
