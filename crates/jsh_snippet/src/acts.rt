use jsh_tree::{Name, SrcText};

/// What a client asks of the engine.
#[derive(Drop)]
pub enum Act {
    /// A further client is numbered.
    Enter,
    /// A snippet is handed in.
    Submit { source: SrcText },
    /// A thread does visible steps, 1 to 256 of them.
    Turn { thread: u32, steps: u32 },
    /// The outcome of a run is asked for.
    Collect { run: u32 },
    /// A run is given up after this many steps.
    Expire { run: u32, steps: u64 },
    /// A run is stopped, by any client.
    Stop { run: u32 },
    /// A snippet is taken back.
    Drop { target: Target },
    /// A question that changes nothing.
    Ask { question: Question },
    /// All snippets are taken back.
    Reset,
    /// The client goes.
    Leave,
    /// The engine is closed, by client 0.
    Close,
}

/// What is dropped.
#[derive(Drop)]
pub enum Target {
    /// The snippet with this number.
    Id(u32),
    /// The live declaration with this name.
    Named(Name),
}

/// What may be asked.
#[derive(Drop)]
pub enum Question {
    List,
    ListAll,
    Vars,
    Methods,
    Types,
    Imports,
    Threads,
    Help,
    /// Suggestions at the end of a text.
    Complete(SrcText),
    /// A line that is no command.
    Invalid(SrcText),
}

/// An act in the history.
#[derive(Drop)]
pub struct Entry {
    /// The number of the client that asked.
    pub client: u32,
    pub act: Act,
}
