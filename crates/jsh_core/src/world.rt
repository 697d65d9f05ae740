use jsh_sum::Sum;
use jsh_text::{UText, Value};
use jsh_tree::{Link, Seq};

/// The variable of a link, while anyone may reach it.
#[derive(Drop)]
pub struct Cell {
    pub link: Link,
    pub value: Value,
}

/// What a thread runs, beside its state.
#[derive(Drop)]
pub struct Thread {
    /// The client whose snippet started it.
    pub owner: u32,
    /// The visible steps that it has done.
    pub steps: u64,
    /// The bodies that it has entered and not left. The first one runs.
    pub frames: Seq<Frame>,
    /// How it ended, once it isn't alive.
    pub end: Option<ThreadEnd>,
}

/// How a thread ended.
#[derive(Drop)]
pub enum ThreadEnd {
    /// Its first body has returned, with the text of its value where it has one.
    Returned(Option<UText>),
    /// A client has stopped it.
    Stopped,
}

/// A body that was entered, and how far it is: what it was answered so far.
#[derive(Drop)]
pub struct Frame {
    pub body: Body,
    pub args: Seq<Value>,
    pub answers: Seq<Answer>,
}

/// What is evaluated: a sum, whose value goes into a variable.
#[derive(Drop)]
pub struct Body {
    pub variable: Link,
    pub sum: Sum,
}

/// What a body is answered when it has asked for something visible.
#[derive(Drop)]
pub enum Answer {
    /// It is done, and there is no value.
    Empty,
    Value(Value),
    /// The number of the object that was thrown.
    Thrown(u32),
}

/// The evaluation of a snippet.
#[derive(Clone, Copy)]
pub struct Run {
    /// The client that submitted the snippet.
    pub owner: u32,
    /// The number of its main thread.
    pub main: u32,
    pub snippet: u32,
    /// The client that stopped it before it had ended.
    pub stopper: Option<u32>,
    /// It was collected, or its client has left, or all was reset.
    pub gone: bool,
}

/// How it stands with a run.
#[derive(Clone, Copy, Debug, PartialEq, Eq)]
pub struct RunView {
    /// The client that submitted the snippet.
    pub owner: u32,
    /// The number of its main thread.
    pub main: u32,
    /// The main thread isn't alive any more.
    pub over: bool,
}
