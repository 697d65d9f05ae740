//! What is said of a text.

/// Whether a text is whole. The names are those of `SourceCodeAnalysis.Completeness` in the API `jdk.jshell`.
#[derive(Clone, Copy, Debug, PartialEq, Eq)]
pub enum Completeness {
    /// There is no token.
    Empty,
    /// It is a snippet, and an `else` may still follow.
    ConsideredIncomplete,
    /// It begins with a snippet.
    Complete,
    /// With a `;` it is a snippet.
    CompleteWithSemi,
    /// More tokens make it a snippet.
    DefinitelyIncomplete,
    /// It neither is nor becomes a snippet.
    Unknown,
}

/// Whether a text is whole, and where its first snippet ends.
#[derive(Clone, Copy, Debug, PartialEq, Eq)]
pub struct Completion {
    pub kind: Completeness,
    /// The end of the first snippet in bytes where the kind is `Complete`, and else that of the text.
    pub end: u32,
}
