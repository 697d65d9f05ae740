use crate::events::Event;
use crate::kinds::{Fate, Kind, Subkind};
use jsh_text::{KindName, UText};
use jsh_tree::{Diagnostic, Modifier, Name, Seq};

/// What a client is answered.
#[derive(Drop)]
pub struct Reply {
    /// What the client's threads have printed since its last reply.
    pub output: UText,
    pub body: ReplyBody,
}

/// The answer to an act.
#[derive(Drop)]
pub enum ReplyBody {
    /// The number of the new client.
    Entered {
        number: u32,
    },
    Submitted(Submitted),
    /// The steps that were done.
    Turned {
        steps: u32,
    },
    Collected(Collected),
    StopDone {
        run: u32,
    },
    Dropped {
        id: u32,
        kind: Kind,
        name: UText,
        events: Seq<Event>,
    },
    Answered(Seq<Line>),
    /// How many records were emptied.
    ResetDone {
        records: u32,
    },
    Left,
    Closed,
    Refused(Refusal),
}

/// What became of a snippet that was handed in.
#[derive(Drop)]
pub struct Submitted {
    pub id: u32,
    pub kind: Kind,
    pub subkind: Subkind,
    /// The snippet's name as feedback shows it.
    pub name: UText,
    /// The new snippet's own event first.
    pub events: Seq<Event>,
    /// Modifiers without effect, once each in the order of the source.
    pub ignored: Seq<Modifier>,
    /// Why the snippet was rejected.
    pub diagnostics: Seq<Diagnostic>,
    /// The missing names of a snippet that was accepted.
    pub unresolved: Seq<Name>,
    /// The run that evaluates the snippet.
    pub run: Option<u32>,
    /// The text of a variable's default value, where nothing is run for it.
    pub value: Option<UText>,
}

/// A line of an answer.
#[derive(Drop)]
pub struct Line {
    pub text: UText,
}

/// How it stands with a run.
#[derive(Drop)]
pub enum Collected {
    /// The steps of its main thread so far.
    Running {
        steps: u64,
    },
    /// The run is over and can't be asked for again. Id and name are those of its snippet.
    Over {
        id: u32,
        name: UText,
        outcome: Outcome,
    },
}

/// How a run ended.
#[derive(Drop)]
pub enum Outcome {
    /// There was no run.
    NoRun,
    /// A statement ended.
    Finished,
    /// The text of the value.
    Value(UText),
    /// An exception was not caught.
    Thrown {
        class: UText,
        message: Option<UText>,
    },
    /// A snippet was called that isn't valid.
    Unresolved {
        id: u32,
        name: UText,
        missing: Seq<Name>,
    },
    /// A client stopped it.
    Stopped {
        by: u32,
    },
    /// It was given up after this many steps.
    Spent {
        steps: u64,
    },
    /// No thread could go on. The numbers of the alive ones.
    Stalled {
        threads: Seq<u32>,
    },
    /// An operation met a value of another kind than it wants.
    Wrong {
        wanted: KindName,
        found: KindName,
    },
}

/// Why an act was refused. A refused act changes nothing but the history.
#[derive(Drop)]
pub enum Refusal {
    /// So many snippets were numbered.
    NoSuchSnippet { id: u32, count: u32 },
    NotLive { id: u32, fate: Fate },
    /// So many live declarations have the name, and not one.
    NoSuchName { name: Name, matches: u32 },
    /// It was never made, was collected, or was dropped.
    NoSuchRun { run: u32 },
    /// Another client submitted it.
    NotOwner { owner: u32 },
    /// The limit's number.
    Limit { which: LimitKind, count: u64 },
}

/// What is limited.
#[derive(Clone, Copy)]
pub enum LimitKind {
    /// Bytes of one source.
    Source,
    /// Records since the last reset.
    Records,
    /// Entries of the history.
    History,
    /// Source bytes of the history.
    HistoryBytes,
    /// Clients that were numbered.
    Clients,
    /// Alive threads.
    Threads,
}
