use jsh_sum::Sum;
use jsh_tree::{Diagnostic, Seq, Tree};

/// What becomes of a source.
#[derive(Debug, Drop)]
pub enum Verdict {
    /// It is a sum.
    Accepted(Sum),
    /// What is wrong with it: one diagnostic or more, in the order of their places.
    Rejected(Seq<Diagnostic>),
}

/// A source as it was judged.
#[derive(Drop)]
pub struct Judged {
    /// The tree of the source, where it is a snippet.
    pub tree: Option<Tree>,
    pub verdict: Verdict,
}
